//! Summarizes one run: the import and the distance of each query that committed, and for each block how many tries of its
//! lines were blocked and how many lines were given up.
//!
//! A block is the list of lines of one session. A line is given up if it was blocked at each of its 100 tries. A query is
//! identified by the position of its begin: the number of its block, and its line in the block.

ghost use Rattle.std.specs.Prelude.{◌≡◌, IfOk, map};
ghost use Rattle.esr_explore.specs.Turns.{run_state};
ghost use Rattle.esr_explore.specs.Summaries.{AreInconsistencies, IsInconsistency, IsSummaryOf, given_up_in, txn_id_of};

use crate::progress::{BlockProgress, is_blocked};
use crate::query::Query;
use crate::run::Run;
use esr_audit::{AuditError, audit_query};
use esr_history::{History, Reply, TxnId};
use esr_items::Weighted;
use std::alloc::{AllocError, Global};

/// The inconsistency charged to a committed query, and its distance from the nearest serial placement.
#[derive(Clone, Copy)]
pub struct QueryInconsistency {
    pub import: u64,
    pub distance: u64,
}

/// The summary of a run.
#[derive(Drop)]
pub struct RunSummary {
    /// The import and the distance of each query of the file, if it committed.
    pub inconsistencies: Vec<Option<QueryInconsistency>>,
    /// The number of times that the lines of each block were blocked.
    pub blocked_counts: Vec<u64>,
    /// The number of lines of each block that were given up.
    pub given_up_counts: Vec<u64>,
}

/// Returns the id of the transaction that a query's begin created, or 0 if it was refused.
fn txn_id_of(all_progress: &[BlockProgress], query: Query<'_>) -> TxnId
    ensures { result.0 ≡ txn_id_of all_progress.now query.entry.block query.entry.index }
{
    let Some(progress) = all_progress.get(query.block) else {
        return TxnId(0);
    };
    match progress.replies().get(query.index) {
        Some(Reply::Begun(txn_id)) => *txn_id,
        _ => TxnId(0),
    }
}

/// Returns the import and the distance of a transaction, if it is a committed query.
fn inconsistency_of(
    alloc: Global,
    history: &History<Weighted>,
    txn_id: TxnId,
) -> Result<Option<QueryInconsistency>, AllocError>
    ensures { IfOk result (IsInconsistency history.now.schedule txn_id.0) }
{
    match audit_query(alloc, history, txn_id) {
        Ok(finding) => Ok(Some(QueryInconsistency {
            import: finding.import,
            distance: finding.distance,
        })),
        Err(AuditError::NotACommittedQuery) => Ok(None),
        Err(_) => Err(AllocError),
    }
}

/// Returns the import and the distance of each query, or `None` if it did not commit. A `Query` has the position of the
/// query's begin in the plan.
fn all_inconsistencies(
    alloc: Global,
    run: &Run,
    queries: &[Query<'_>],
) -> Result<Vec<Option<QueryInconsistency>>, AllocError>
    ensures { IfOk result (λ inconsistencies. AreInconsistencies run.now.history.schedule run.now.all_progress.items queries.now inconsistencies.items) }
{
    let mut inconsistencies = Vec::new(alloc);
    for query in queries {
        let txn_id = txn_id_of(&run.all_progress, *query);
        inconsistencies.push(inconsistency_of(alloc, &run.history, txn_id)?)?;
    }
    Ok(inconsistencies)
}

/// Returns, for each block, the number of times that its lines were blocked.
fn blocked_counts(alloc: Global, all_progress: &[BlockProgress]) -> Result<Vec<u64>, AllocError>
    ensures { IfOk result (λ v. v.items ≡ map (λ r. r.blocked) all_progress.now) }
{
    let mut counts = Vec::new(alloc);
    for progress in all_progress {
        counts.push(progress.blocked_count())?;
    }
    Ok(counts)
}

/// Returns the number of lines of a block that were given up: those whose last reply is that they are blocked.
fn given_up_in(progress: &BlockProgress) -> u64
    ensures { result ≡ given_up_in progress.now }
{
    let lost = progress
        .replies()
        .iter()
        .filter(|reply| is_blocked(**reply));
    lost.count() as u64
}

/// Returns the number of lines of each block that were given up.
fn given_up_counts(alloc: Global, all_progress: &[BlockProgress]) -> Result<Vec<u64>, AllocError>
    ensures { IfOk result (λ v. v.items ≡ map given_up_in all_progress.now) }
{
    let mut counts = Vec::new(alloc);
    for progress in all_progress {
        counts.push(given_up_in(progress))?;
    }
    Ok(counts)
}

/// Returns the summary of a run, with these queries of its plan.
pub fn summarize(alloc: Global, run: &Run, queries: &[Query<'_>]) -> Result<RunSummary, AllocError>
    ensures { IfOk result (λ run_summary. IsSummaryOf (run_state run.now.history.schedule run.now.all_progress.items) queries.now run_summary) }
{
    Ok(RunSummary {
        inconsistencies: all_inconsistencies(alloc, run, queries)?,
        blocked_counts: blocked_counts(alloc, &run.all_progress)?,
        given_up_counts: given_up_counts(alloc, &run.all_progress)?,
    })
}
