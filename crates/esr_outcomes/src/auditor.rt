//! Audits of the queries of a history, all by one index.
//!
//! A caller that needs no certificate asks for a summary, which is usually found without building a problem. A finding
//! has the problem and its certificate, which pictures and prose show.

ghost use Rattle.std.specs.Prelude.{◌≡◌, ◌<◌, ℕ, IfOk, IfSome, is_some, length, map};
ghost use Rattle.esr_items.specs.Values.{IsValue, value_at};
ghost use Rattle.esr_items.specs.Weights.{weighted};
ghost use Rattle.esr_history.specs.Machine.{accepted_in};
ghost use Rattle.esr_history.specs.Operations.{commit_order};
ghost use Rattle.esr_history.specs.Queries.{is_committed_query};
ghost use Rattle.esr_history.specs.Serial.{state};
ghost use Rattle.esr_audit.specs.Findings.{IsFindingOf, summary_of};
ghost use Rattle.esr_least.specs.Audits.{audit_fields};
ghost use Rattle.esr_outcomes.specs.Outcomes.{distance_of};

use crate::values::apply_accesses;
use esr_audit::{AuditError, Finding, audit_query_with_index};
use esr_history::{History, TxnId};
use esr_items::Weighted;
use esr_least::{QueryAudit, summarize_by_index};
use esr_order::Index;
use std::alloc::{AllocError, Global};
use std::marker::Model;

/// A history with the index of all its entries.
#[derive(Drop)]
pub struct Auditor<'a> {
    history: &'a History<Weighted>,
    index: Index,
}

impl<'a> Model for Auditor<'a> {
    ghost use Rattle.esr_history.specs.Machine.{Schedule};
    ghost use Rattle.esr_order.specs.Index.{IsWholeIndexOf};

    ghost Value = { Schedule };

    ghost view = { λ a. a.history.now.schedule };

    ghost invariant = { λ a. IsWholeIndexOf a.history.now.schedule.entries a.index };
}

impl<'a> Auditor<'a> {
    /// Creates the auditor of a history, which reads each entry once.
    pub fn of(alloc: Global, history: &'a History<Weighted>) -> Result<Auditor<'a>, AllocError>
        ensures { IfOk result (λ a. a ≡ history.entry.now.schedule) }
    {
        let index = Index::of(alloc, history)?;
        Ok(Auditor { history, index })
    }

    /// Returns the history.
    pub fn history(&self) -> &'a History<Weighted>
        ensures { result.now.schedule ≡ self.now }
    {
        self.history
    }

    /// Returns the committed transactions, in commit order.
    pub fn commits(&self) -> &[TxnId]
        ensures { map (λ t. t.0) result.now ≡ commit_order (accepted_in self.now) }
    {
        self.index.commits()
    }

    /// Returns the summary of a query's audit, or `None` unless it is a query that has committed.
    pub fn summary(&self, alloc: Global, query: TxnId) -> Result<Option<QueryAudit>, AllocError>
        ensures summary { IfOk result (λ found. IfSome found (λ a. audit_fields a ≡ summary_of weighted self.now query.0)) }
        ensures committed { IfOk result (λ found. is_some found ≡ is_committed_query self.now query.0) }
    {
        match summarize_by_index(alloc, self.history, &self.index, query) {
            Ok(audit) => Ok(Some(audit)),
            Err(AuditError::NotACommittedQuery) => Ok(None),
            Err(_) => Err(AllocError),
        }
    }

    /// Returns the finding of a query's audit, or `None` unless it is a query that has committed.
    pub fn finding(&self, alloc: Global, query: TxnId) -> Result<Option<Finding>, AllocError>
        ensures query { IfOk result (λ found. IfSome found (λ f. f.query ≡ query)) }
        ensures finding { IfOk result (λ found. IfSome found (IsFindingOf weighted self.now query.0)) }
        ensures committed { IfOk result (λ found. is_some found ≡ is_committed_query self.now query.0) }
    {
        match audit_query_with_index(alloc, self.history, &self.index, query) {
            Ok(finding) => Ok(Some(finding)),
            Err(AuditError::NotACommittedQuery) => Ok(None),
            Err(_) => Err(AllocError),
        }
    }

    /// Returns the distance of a query from its nearest serial placement, or `None` unless it is a query that has
    /// committed.
    pub fn distance(&self, alloc: Global, query: TxnId) -> Result<Option<u64>, AllocError>
        ensures { IfOk result (λ distance. distance ≡ distance_of weighted self.now query.0) }
    {
        match self.summary(alloc, query)? {
            Some(audit) => Ok(Some(audit.distance)),
            None => Ok(None),
        }
    }

    /// Returns the values of the items after these updates, run one after another from the opening values.
    pub fn values_after(&self, alloc: Global, updates: &[TxnId]) -> Result<Vec<i64>, AllocError>
        ensures values { IfOk result (λ v. (x : ℕ) → x < length self.now.opening
            → value_at v.items x ≡ state self.now (map (λ t. t.0) updates.now) x) }
        ensures range { IfOk result (λ v. (x : ℕ) → IsValue (value_at v.items x)) }
    {
        let _invariant = self.history.log(); // brings the invariant into the proof
        let mut values = self.history.opening_values().to_vec(alloc)?;
        let mut list = Vec::new(alloc);
        for u in updates {
            let accesses = self.index.accesses_of(self.history, *u, &mut list)?;
            apply_accesses(&mut values, accesses);
        }
        Ok(values)
    }
}
