//! Audits queries with an index that the engine owns. The index reads commits and the accesses of updates once, and is
//! extended by the new entries, so that the cost of an audit depends on the entries near its query, not on the length
//! of the history.

ghost use Rattle.std.specs.Prelude.{◌≡◌, ◌↔◌, false, IfOk, IsErrOf};
ghost use Rattle.esr_items.specs.Weights.{weighted};
ghost use Rattle.esr_history.specs.Queries.{is_committed_query};
ghost use Rattle.esr_audit.specs.Findings.{IsFindingOf};

use crate::engine::EmbeddedEngine;
use esr_audit::{AuditError, Finding, audit_query, audit_query_with_index};
use esr_history::TxnId;
use std::alloc::Global;

impl EmbeddedEngine {
    /// Audits a committed query.
    ///
    /// # Errors
    /// `NotACommittedQuery` if and only if the transaction is not a query or has not committed; `NoMemory` if an
    /// allocation failed.
    pub fn audit(&mut self, alloc: Global, q: TxnId) -> Result<Finding, AuditError>
        ensures same { self.new ≡ self.old }
        ensures query { IfOk result (λ f. f.query ≡ q) }
        ensures finding { IfOk result (IsFindingOf weighted self.old q.0) }
        ensures not_committed_query { IsErrOf result AuditError.NotACommittedQuery
            ↔ (is_committed_query self.old q.0 ≡ false) }
        ensures no_worker_error { ¬ IsErrOf result AuditError.WorkersOutOfRange }
    {
        if self.index.extend(self.machine.history()).is_err() {
            return audit_query(alloc, self.machine.history(), q); // the index may wait, a refusal may not
        }
        audit_query_with_index(alloc, self.machine.history(), &self.index, q)
    }
}
