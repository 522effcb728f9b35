//! The audit of one query.
ghost use Rattle.std.specs.Prelude.{◌≡◌, ◌↔◌, IfOk, IsErrOf, false, map, true};
ghost use Rattle.esr_history.specs.Queries.{is_committed_query};
ghost use Rattle.esr_order.specs.Index.{IsWholeIndexOf};
ghost use Rattle.esr_audit.specs.Findings.{IsFindingOf, seen_summary, summary_of};
ghost use Rattle.esr_stream.specs.Passes.{IsNearestPlacement};
ghost use Rattle.esr_least.specs.Audits.{audit_fields, IsStableAudit, IsSummaryOfFinding};

use esr_audit::{AuditError, Finding, Summary, TxnList, audit_query_with_index};
use esr_history::{History, TxnId};
use esr_items::Metric;
use esr_order::{Index, is_committed_query};
use esr_stream::{Least, least_of};
use std::alloc::Global;

/// The audit of a committed query: a finding without a problem and a certificate.
#[derive(Drop)]
pub struct QueryAudit {
    pub query: TxnId,
    /// The least distance of all placements.
    pub distance: u64,
    /// The import of the query: at least the distance.
    pub import: u64,
    /// The updates before the nearest placement: the smallest set of updates before the position of a placement of that
    /// distance, in commit order.
    pub before: Vec<TxnId>,
}

impl From<QueryAudit> for Summary {
    ghost from_gives = { λ a s. seen_summary s ≡ audit_fields a };

    fn from(audit: QueryAudit) -> Summary {
        let QueryAudit {
            query,
            distance,
            import,
            before,
        } = audit;
        Summary {
            query,
            distance,
            import,
            before: TxnList::of(before),
        }
    }
}

/// Returns the audit of a query with this least distance and set.
fn of_least<M: Metric>(history: &History<M>, q: TxnId, least: Least) -> QueryAudit
    requires { IsNearestPlacement M.distance_by history.now.schedule q.0 least.distance (map (λ t. t.0) least.before.items) }
    ensures { audit_fields result ≡ summary_of M.distance_by history.now.schedule q.0 }
{
    QueryAudit {
        query: q,
        distance: least.distance,
        import: history.import(q),
        before: least.before,
    }
}

/// Returns the audit of a finding, and frees its problem and its certificate.
fn of_finding<M: Metric>(history: &History<M>, q: TxnId, finding: Finding) -> QueryAudit
    requires { IsFindingOf M.distance_by history.now.schedule q.0 finding }
    ensures { audit_fields result ≡ summary_of M.distance_by history.now.schedule q.0 }
{
    let Finding {
        query: _,
        distance,
        import,
        before,
        problem,
        certificate,
    } = finding;
    drop(problem);
    drop(certificate);
    QueryAudit {
        query: q,
        distance,
        import,
        before,
    }
}

/// Returns the audit of a query. Later events do not change it. The index must cover the whole history.
///
/// # Errors
///
/// - `NotACommittedQuery` if and only if the transaction is not a query or has not committed.
/// - `NoMemory` if an allocation failed.
pub fn summarize_by_index<M: Metric>(
    alloc: Global,
    history: &History<M>,
    index: &Index,
    q: TxnId,
) -> Result<QueryAudit, AuditError>
    requires { IsWholeIndexOf history.now.schedule.entries index.now }
    ensures summary { IfOk result (λ a. audit_fields a ≡ summary_of M.distance_by history.now.schedule q.0) }
    ensures committed { IfOk result (λ a. is_committed_query history.now.schedule q.0 ≡ true) }
    ensures not_committed_query { IsErrOf result AuditError.NotACommittedQuery
        ↔ (is_committed_query history.now.schedule q.0 ≡ false) }
    ensures no_worker_error { ¬ IsErrOf result AuditError.WorkersOutOfRange }
    ensures stable { IfOk result (IsStableAudit M.distance_by history.now.schedule) }
    ensures of_finding { IfOk result (IsSummaryOfFinding M.distance_by history.now.schedule q) }
{
    let _invariant = history.log(); // brings the invariant into the proof
    if !is_committed_query(history, q) {
        return Err(AuditError::NotACommittedQuery);
    }
    match least_of(alloc, history, index, q) {
        Err(_) => return Err(AuditError::NoMemory),
        Ok(Some(least)) => return Ok(of_least(history, q, least)),
        Ok(None) => {}
    }
    let finding = audit_query_with_index(alloc, history, index, q)?;
    Ok(of_finding(history, q, finding))
}
