//! The machine of a script, an index of its history, and the last audit.
//!
//! A script may request one audit after another, and each needs the committed transactions and the operations of
//! updates. The index is kept between audits: an `audit` line reads the new entries only, and a script without audits
//! pays nothing. The part of the log that the index has read stays its beginning, since the machine only appends to
//! it.
//!
//! The last audit is kept too, since later events do not change the audit of a committed query: a script that audits a
//! query repeatedly audits it once. Only one is kept, because an audit may name every update of the history.
ghost use Rattle.std.specs.Prelude.{◌≡◌, IfOk, IfSome, OnErr, IsErrOf, false, true, length};
ghost use Rattle.esr_base.specs.declared.limits.TheConstants.{MAX_ENTRIES};
ghost use Rattle.esr_history.specs.Machine.{reply_to, extended};
ghost use Rattle.esr_history.specs.Totals.{all_imports, all_exports};
ghost use Rattle.esr_history.specs.Queries.{is_committed_query};
ghost use Rattle.esr_audit.specs.Findings.{IsFindingOf, summary_of};
ghost use Rattle.esr_least.specs.Audits.{audit_fields, IsStableAudit};
ghost use Rattle.esr_items.specs.Weights.{weighted};

use esr_audit::{AuditError, Finding, audit_query_with_index};
use esr_core::{Machine, StepError, Totals};
use esr_history::{Event, History, Reply, TxnId};
use esr_items::Weighted;
use esr_least::{QueryAudit, summarize_by_index};
use esr_order::Index;
use std::alloc::Global;
use std::marker::Model;

/// A machine, the index of the first entries of its history, and the last audit.
#[derive(Drop)]
pub struct IndexedMachine {
    machine: Machine<Weighted>,
    index: Index,
    last_audit: Option<QueryAudit>,
}

impl Model for IndexedMachine {
    ghost use Rattle.esr_history.specs.Machine.{Schedule};
    ghost use Rattle.esr_items.specs.Weights.{weighted};
    ghost use Rattle.esr_order.specs.Index.{IsIndexOf};
    ghost use Rattle.esr_least.specs.Audits.{IsStableAudit};
    ghost use Rattle.std.specs.Prelude.{IfSome};

    ghost Value = { Schedule };

    ghost view = { λ e. e.machine };

    ghost invariant = { λ e. IsIndexOf e.machine.entries e.index
        × IfSome e.last_audit (IsStableAudit weighted e.machine) };
}

impl IndexedMachine {
    pub fn new(alloc: Global, machine: Machine<Weighted>) -> IndexedMachine
        ensures { result ≡ machine }
    {
        IndexedMachine {
            machine,
            index: Index::new(alloc),
            last_audit: None,
        }
    }

    /// Gives the machine an event.
    #[tactic(auto, using(crate::proofs::Kept::kept_after))]
    pub fn step(&mut self, event: Event) -> Result<Reply, StepError>
        ensures reply { IfOk result (λ reply. reply ≡ reply_to weighted self.old event) }
        ensures added { IfOk result (λ reply. self.new ≡ extended self.old event reply) }
        ensures err { OnErr result (self.new ≡ self.old) }
        ensures full { IsErrOf result StepError.HistoryFull → length self.old.entries ≡ MAX_ENTRIES }
        ensures fits { IfOk result (λ reply. ¬ (length self.old.entries ≡ MAX_ENTRIES)) }
        ensures open { ¬ IsErrOf result StepError.EngineClosed }
    {
        self.machine.step(event)
    }

    /// Gives the machine an event, like `step`. A read is executed inline.
    #[inline(always)]
    #[tactic(auto, using(crate::proofs::Kept::kept_after))]
    pub fn step_read(&mut self, event: Event) -> Result<Reply, StepError>
        ensures reply { IfOk result (λ reply. reply ≡ reply_to weighted self.old event) }
        ensures added { IfOk result (λ reply. self.new ≡ extended self.old event reply) }
        ensures err { OnErr result (self.new ≡ self.old) }
        ensures full { IsErrOf result StepError.HistoryFull → length self.old.entries ≡ MAX_ENTRIES }
        ensures fits { IfOk result (λ reply. ¬ (length self.old.entries ≡ MAX_ENTRIES)) }
        ensures open { ¬ IsErrOf result StepError.EngineClosed }
    {
        match event {
            Event::Read { txn, item } => self.machine.read(txn, item),
            _ => self.step(event),
        }
    }

    /// Gives the machine an event, like `step`. A write is executed inline.
    #[inline(always)]
    #[tactic(auto, using(crate::proofs::Kept::kept_after))]
    pub fn step_write(&mut self, event: Event) -> Result<Reply, StepError>
        ensures reply { IfOk result (λ reply. reply ≡ reply_to weighted self.old event) }
        ensures added { IfOk result (λ reply. self.new ≡ extended self.old event reply) }
        ensures err { OnErr result (self.new ≡ self.old) }
        ensures full { IsErrOf result StepError.HistoryFull → length self.old.entries ≡ MAX_ENTRIES }
        ensures fits { IfOk result (λ reply. ¬ (length self.old.entries ≡ MAX_ENTRIES)) }
        ensures open { ¬ IsErrOf result StepError.EngineClosed }
    {
        match event {
            Event::Write { txn, item, value } => self.machine.write(txn, item, value),
            _ => self.step(event),
        }
    }

    /// Returns the imports and exports together, and the number of entries.
    pub fn totals(&self) -> Totals
        ensures import { result.import ≡ all_imports weighted self.now }
        ensures export { result.export ≡ all_exports weighted self.now }
        ensures entries { result.entries ≡ length self.now.entries }
    {
        self.machine.totals()
    }

    /// Returns the history so far.
    pub fn history(&self) -> &History<Weighted>
        ensures { result.now.schedule ≡ self.now }
    {
        self.machine.history()
    }

    /// Returns the history, and drops the rest.
    pub fn into_history(self) -> History<Weighted>
        ensures { result.schedule ≡ self }
    {
        self.machine.close()
    }

    /// Audits a transaction, with a certificate.
    pub fn audit(&mut self, alloc: Global, q: TxnId) -> Result<Finding, AuditError>
        ensures same { self.new ≡ self.old }
        ensures query { IfOk result (λ f. f.query ≡ q) }
        ensures finding { IfOk result (IsFindingOf weighted self.old q.0) }
        ensures committed { IfOk result (λ f. is_committed_query self.old q.0 ≡ true) }
        ensures not_committed_query { IsErrOf result AuditError.NotACommittedQuery → is_committed_query self.old q.0 ≡ false }
        ensures no_worker_error { ¬ IsErrOf result AuditError.WorkersOutOfRange }
    {
        let history = self.machine.history();
        if self.index.extend(history).is_err() {
            return Err(AuditError::NoMemory);
        }
        audit_query_with_index(alloc, history, &self.index, q)
    }

    /// Audits a transaction, or returns the kept audit if that is of this transaction. None is kept afterwards.
    pub fn summarize(&mut self, alloc: Global, q: TxnId) -> Result<QueryAudit, AuditError>
        ensures same { self.new ≡ self.old }
        ensures summary { IfOk result (λ a. audit_fields a ≡ summary_of weighted self.old q.0) }
        ensures stable { IfOk result (IsStableAudit weighted self.old) }
        ensures committed { IfOk result (λ a. is_committed_query self.old q.0 ≡ true) }
        ensures not_committed_query { IsErrOf result AuditError.NotACommittedQuery → is_committed_query self.old q.0 ≡ false }
        ensures no_worker_error { ¬ IsErrOf result AuditError.WorkersOutOfRange }
    {
        if let Some(audit) = self.take_audit(q) {
            return Ok(audit);
        }
        let history = self.machine.history();
        if self.index.extend(history).is_err() {
            return Err(AuditError::NoMemory);
        }
        summarize_by_index(alloc, history, &self.index, q)
    }

    /// Returns the kept audit if it is of this transaction. None is kept afterwards.
    #[tactic(auto, using(esr_least::proofs::Stable::at_present))]
    fn take_audit(&mut self, q: TxnId) -> Option<QueryAudit>
        ensures same { self.new ≡ self.old }
        ensures summary { IfSome result (λ a. audit_fields a ≡ summary_of weighted self.old q.0) }
        ensures stable { IfSome result (IsStableAudit weighted self.old) }
        ensures committed { IfSome result (λ a. is_committed_query self.old q.0 ≡ true) }
    {
        let _history = self.machine.history(); // brings legality into the proof
        let audit = self.last_audit.take()?;
        if audit.query == q { Some(audit) } else { None }
    }

    /// Keeps an audit for the next [`summarize`](IndexedMachine::summarize).
    pub fn keep(&mut self, audit: QueryAudit)
        requires { IsStableAudit weighted self.old audit }
        ensures { self.new ≡ self.old }
    {
        self.last_audit = Some(audit);
    }
}
