//! Calls for replays of a history on a second machine: a step that returns its charges, and look-ups between the steps. One of
//! them, `due`, returns the charges that block an event, so no other crate has a charge rule.
ghost use Rattle.std.specs.Prelude.{◌≡◌, ◌<◌, ◌↔◌, length, IfOk, IfSome, OnErr, IsErrOf, option_map};
ghost use Rattle.esr_base.specs.declared.limits.TheConstants.{MAX_ENTRIES};
ghost use Rattle.esr_items.specs.Values.{IsValue};
ghost use Rattle.esr_history.specs.declared.event.Event.TheVariants.{Read, Write};
ghost use Rattle.esr_history.specs.Events.{is_query, is_update, current_value};
ghost use Rattle.esr_history.specs.Imports.{AreDue};
ghost use Rattle.esr_history.specs.Machine.{charges_in, accepted_in, due_in, export_in, extended, reply_to, writer};
ghost use Rattle.esr_core.specs.States.{IsInRange, charges_of};

use super::{Machine, StepError, record, reserve_entry};
use esr_history::{Event, Reply, TxnId};
use esr_items::{ItemId, Metric};
use std::alloc::AllocError;

impl<M: Metric> Machine<M> {
    /// Executes an event, like `step`, and sets `charges` to what each query imports by it. After a refusal or an error
    /// the charges are not specified.
    ///
    /// # Errors
    /// Those of `step`.
    pub fn step_with_charges(
        &mut self,
        event: Event,
        charges: &mut Vec<(TxnId, u64)>,
    ) -> Result<Reply, StepError>
        ensures reply { IfOk result (λ reply. reply ≡ reply_to M.distance_by self.old event) }
        ensures added { IfOk result (λ reply. self.new ≡ extended self.old event reply) }
        ensures charges { IfOk result (λ reply. AreDue M.distance_by self.old event reply charges.new.items) }
        ensures err { OnErr result (self.new ≡ self.old) }
        ensures full { IsErrOf result StepError.HistoryFull ↔ (length self.old.entries ≡ MAX_ENTRIES) }
        ensures open { ¬ IsErrOf result StepError.EngineClosed }
    {
        reserve_entry(&mut self.history)?;
        match self.state.answer(self.history.metric(), charges, event) {
            Ok(reply) => {
                record(&mut self.history, event, reply, charges);
                Ok(reply)
            }
            Err(_) => Err(StepError::NoMemory),
        }
    }

    /// Returns the active update that has written an item, if there is one.
    #[tactic(auto, using(crate::proofs::Locks::locks_len))]
    pub fn writer(&self, x: ItemId) -> Option<TxnId>
        requires { x.0 < length self.now.opening }
        ensures { option_map (λ u. u.0) result ≡ writer (accepted_in self.now) x.0 }
    {
        self.state.locks.write_holder(x)
    }

    /// Returns the current value of an item.
    pub fn current(&self, x: ItemId) -> i64
        requires { x.0 < length self.now.opening }
        ensures value { result ≡ current_value self.now.opening (accepted_in self.now) x.0 }
        ensures range { IsValue result }
    {
        self.state.items.read(x)
    }

    /// Returns whether a transaction is a query.
    fn is_query(&self, t: TxnId) -> bool
        ensures { result ≡ is_query (accepted_in self.now) t.0 }
    {
        match self.history.facts(t) {
            Some(facts) => facts.query,
            None => false,
        }
    }

    /// Returns whether a transaction is an update.
    #[tactic(auto, using(crate::proofs::Exports::kind_of))]
    fn is_update(&self, t: TxnId) -> bool
        ensures { result ≡ is_update (accepted_in self.now) t.0 }
    {
        match self.history.facts(t) {
            Some(facts) => !facts.query,
            None => false,
        }
    }

    /// Returns the amount that an update has exported so far; 0 for any other transaction.
    pub fn export(&self, u: TxnId) -> u64
        ensures { result ≡ export_in (charges_in M.distance_by self.now) u.0 }
    {
        if self.is_update(u) {
            self.state.ledgers.export(u)
        } else {
            0
        }
    }

    /// Computes `due` for a read.
    #[tactic(auto, using(crate::proofs::Reasons::locks_count))]
    fn due_by_read(
        &self,
        charges: &mut Vec<(TxnId, u64)>,
        q: TxnId,
        x: ItemId,
    ) -> Result<Option<TxnId>, AllocError>
        requires { x.0 < length self.now.opening }
        ensures charges { IfOk result (λ u. due_in M.distance_by self.now (Read q x) ≡ charges_of u charges.new.items) }
        ensures some { IfOk result (λ u. IfSome u (λ _. 0 < length charges.new.items)) }
    {
        charges.clear();
        if !self.is_query(q) {
            return Ok(None);
        }
        match self.state.charge_of_read(self.history.metric(), x) {
            Some((u, amount)) => {
                charges.push((q, amount))?;
                Ok(Some(u))
            }
            None => Ok(None),
        }
    }

    /// Computes `due` for a write.
    #[tactic(auto, using(crate::proofs::Reasons::locks_count))]
    fn due_by_write(
        &self,
        charges: &mut Vec<(TxnId, u64)>,
        u: TxnId,
        x: ItemId,
        v: i64,
    ) -> Result<Option<TxnId>, AllocError>
        requires item { x.0 < length self.now.opening }
        requires value { IsValue v }
        ensures charges { IfOk result (λ t. due_in M.distance_by self.now (Write u x v) ≡ charges_of t charges.new.items) }
        ensures some { IfOk result (λ t. IfSome t (λ _. 0 < length charges.new.items)) }
    {
        if !self.is_update(u) {
            return Ok(None);
        }
        self.state
            .charges_of_write(self.history.metric(), charges, x, v)?;
        if charges.is_empty() {
            Ok(None)
        } else {
            Ok(Some(u))
        }
    }

    /// Computes the charges of an event if it is accepted. Returns the update that exports their sum, or `None` if nothing is
    /// charged, and sets `charges` to what each query imports, in ascending order of queries.
    pub fn due(
        &self,
        charges: &mut Vec<(TxnId, u64)>,
        event: Event,
    ) -> Result<Option<TxnId>, AllocError>
        requires { IsInRange event (length self.now.opening) }
        ensures charges { IfOk result (λ u. due_in M.distance_by self.now event ≡ charges_of u charges.new.items) }
        ensures some { IfOk result (λ u. IfSome u (λ _. 0 < length charges.new.items)) }
    {
        match event {
            Event::Read { txn, item } => self.due_by_read(charges, txn, item),
            Event::Write { txn, item, value } => self.due_by_write(charges, txn, item, value),
            _ => Ok(None),
        }
    }
}
