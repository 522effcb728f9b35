//! The results of audits that workers store: findings, or summaries.
//!
//! A finding contains the problem of its query and a certificate. A summary has the distance, the import and the set
//! alone, and can be computed without a problem (`esr_least`). So a worker that stores summaries computes no finding.

ghost use Rattle.std.specs.Prelude.{◌≡◌, ◌↔◌, IfOk, IsErrOf, false};
ghost use Rattle.esr_history.specs.Queries.{is_committed_query};
ghost use Rattle.esr_order.specs.Index.{IsWholeIndexOf};
ghost use Rattle.esr_audit.specs.Findings.{seen_summary, summary};
ghost use Rattle.esr_board.specs.Shares.{IsKeptOf};

use esr_audit::{AuditError, Finding, Summary, audit_query_with_index};
use esr_history::{History, TxnId};
use esr_items::Metric;
use esr_least::summarize_by_index;
use esr_order::Index;
use std::alloc::Global;

/// The result of the audit of a query.
pub trait AuditResult<M: Metric>: Drop {
    ghost use Rattle.esr_audit.specs.declared.finding.Finding.{Finding as FoundFinding};

    /// Whether the result says of its query what a finding says.
    ghost keeps: { FoundFinding → Self → Type 0 };

    /// Audits a query. The index has read the whole history.
    ///
    /// # Errors
    ///
    /// - `NotACommittedQuery` if and only if the transaction is not a query or has not committed.
    /// - `NoMemory` if an allocation failed.
    fn of_query(
        alloc: Global,
        history: &History<M>,
        index: &Index,
        q: TxnId,
    ) -> Result<Self, AuditError>
        requires { IsWholeIndexOf history.now.schedule.entries index.now }
        ensures kept { IfOk result (IsKeptOf keeps M.distance_by history.now.schedule q) }
        ensures not_committed_query { IsErrOf result AuditError.NotACommittedQuery
            ↔ (is_committed_query history.now.schedule q.0 ≡ false) }
        ensures no_worker_error { ¬ IsErrOf result AuditError.WorkersOutOfRange };
}

impl<M: Metric> AuditResult<M> for Finding {
    ghost keeps = { λ f x. x ≡ f };

    fn of_query(
        alloc: Global,
        history: &History<M>,
        index: &Index,
        q: TxnId,
    ) -> Result<Finding, AuditError> {
        audit_query_with_index(alloc, history, index, q)
    }
}

impl<M: Metric> AuditResult<M> for Summary {
    ghost keeps = { λ f x. seen_summary x ≡ summary f };

    fn of_query(
        alloc: Global,
        history: &History<M>,
        index: &Index,
        q: TxnId,
    ) -> Result<Summary, AuditError> {
        match summarize_by_index(alloc, history, index, q) {
            Ok(audit) => Ok(Summary::from(audit)),
            Err(failed) => Err(failed),
        }
    }
}
