//! Executes the engine's events, and counts its entries and transactions.
//!
//! In addition to the machine, the engine keeps the weights, since a history owns its metric and a renewal needs a new
//! one; the number of active transactions; and the index that audits share. The number follows from the replies: a
//! `Begun` adds one, a `Committed` or an `Aborted` subtracts one. The test of the capacity for an event is a sum and a
//! comparison. The engine looks up whether a transaction is active only for its end in a full history.

ghost use Rattle.std.specs.Prelude.{◌≡◌, ◌+◌, ◌<◌, ◌≤◌, ◌↔◌, true, length, All, IfOk, OnErr, IsErrOf};
ghost use Rattle.esr_base.specs.declared.limits.TheConstants.{MAX_ENTRIES, MAX_ITEMS, MAX_TRANSACTIONS};
ghost use Rattle.esr_items.specs.Weights.{IsWeight, weighted};
ghost use Rattle.esr_history.specs.declared.event.Event.TheVariants.{Read, Write};
ghost use Rattle.esr_history.specs.Events.{is_active};
ghost use Rattle.esr_history.specs.Machine.{IsLegal, Schedule, accepted_in, extended, reply_to};
ghost use Rattle.esr_history.specs.Sound.{IsSound};
ghost use Rattle.esr_history.specs.Totals.{IsWithinLimits, all_imports, all_exports};
ghost use Rattle.esr_order.specs.Index.{IsIndexOf};
ghost use Rattle.esr_engine.specs.Capacity.{active_after, active_count, taken, transaction_count, is_end, is_full, HasReservedEnds, counts_of};

use esr_core::{Machine, StepError, Totals};
use esr_history::{Event, History, MAX_ENTRIES, MAX_TRANSACTIONS, Reply, TxnId};
use esr_items::{ItemId, Weighted};
use esr_order::Index;
use std::marker::Model;
use thiserror::Error;

/// Why an event has no reply. It has made no entry and changed nothing.
#[derive(Clone, Copy, PartialEq, Eq, Debug, Error)]
pub enum EngineError {
    /// The history has no entry left for the event in addition to the reserved ends, or no number for a begin.
    #[error("history full")]
    Full = 12,
    /// An allocation failed.
    #[error("out of memory")]
    NoMemory = 13,
}

/// The size of a history, and the capacity left in addition to the reserved ends of active transactions. C reads it
/// directly.
#[repr(C)]
#[derive(Clone, Copy, PartialEq, Eq, Debug)]
pub struct EngineCounts {
    pub entries: u64,
    pub transactions: u64,
    pub active: u64,
    pub entries_left: u64,
    pub transactions_left: u64,
}

/// A machine that reserves one entry for the end of each active transaction. Contracts see its history.
#[derive(Drop)]
pub struct EmbeddedEngine {
    pub(crate) machine: Machine<Weighted>,
    pub(crate) weights: Vec<u32>,
    pub(crate) active: usize,
    pub(crate) index: Index,
    /// The machine that a renewal has replaced last, whose memory the next one reuses.
    pub(crate) spare: Option<Machine<Weighted>>,
}

impl Model for EmbeddedEngine {
    ghost Value = { Schedule };

    ghost view = { λ e. e.machine };

    ghost invariant = { λ e. (e.weights.items ≡ e.machine.weights) × (length e.weights.items ≤ MAX_ITEMS)
        × All IsWeight e.weights.items × (e.active ≡ active_count (accepted_in e.machine))
        × (length e.machine.entries + e.active ≤ MAX_ENTRIES) × IsIndexOf e.machine.entries e.index };
}

impl EmbeddedEngine {
    /// Returns the number of entries, plus one for the end of each active transaction.
    pub(crate) fn demand(&self) -> usize
        ensures taken { result ≡ taken self.now }
        ensures upper_bound { result ≤ MAX_ENTRIES }
    {
        self.machine.log().len() + self.active
    }

    /// Returns how many transactions have begun.
    pub(crate) fn count_begun(&self) -> usize
        ensures { result ≡ transaction_count self.now }
    {
        self.machine.history().begun_count()
    }

    /// Returns whether a transaction is active.
    #[tactic(auto, using(crate::proofs::Ends::active_is))]
    pub(crate) fn is_active(&self, t: TxnId) -> bool
        ensures { result ≡ is_active (accepted_in self.now) t.0 }
    {
        match self.machine.history().facts(t) {
            Some(facts) => facts.end.is_none(),
            None => false,
        }
    }

    /// Returns whether the history has no capacity for an event in addition to the ends of the active transactions.
    #[inline(always)]
    fn is_full(&self, event: Event) -> bool
        ensures { result ≡ is_full self.now event }
    {
        let demand = self.demand();
        match event {
            Event::BeginUpdate { limit: _ }
            | Event::BeginQuery {
                limit: _,
                strict: _,
            } => demand + 2 > MAX_ENTRIES || self.count_begun() >= MAX_TRANSACTIONS,
            Event::Commit { txn } | Event::Abort { txn } => {
                demand >= MAX_ENTRIES && !self.is_active(txn)
            }
            Event::Read { txn: _, item: _ }
            | Event::Write {
                txn: _,
                item: _,
                value: _,
            } => demand >= MAX_ENTRIES,
        }
    }

    /// Executes an event and adds it with its reply to the history: one entry, also for a refusal.
    ///
    /// # Errors
    /// `Full` if and only if the history has no capacity for the event in addition to the ends of the active
    /// transactions; never for an end of an active transaction. `NoMemory` if an allocation failed. In both cases
    /// nothing has changed.
    #[inline(always)]
    pub fn step(&mut self, event: Event) -> Result<Reply, EngineError>
        ensures reply { IfOk result (λ reply. reply ≡ reply_to weighted self.old event) }
        ensures added { IfOk result (λ reply. self.new ≡ extended self.old event reply) }
        ensures full { IsErrOf result EngineError.Full ↔ (is_full self.old event ≡ true) }
        ensures err { OnErr result (self.new ≡ self.old) }
    {
        if self.is_full(event) {
            return Err(EngineError::Full);
        }
        let _invariant = self.machine.log(); // brings the invariant into the proof
        match self.machine.step(event) {
            Ok(reply) => {
                self.active = active_after(self.active, reply);
                Ok(reply)
            }
            Err(_) => Err(EngineError::NoMemory),
        }
    }

    /// Executes a read, like `step`. This separate method is inlined into its callers down to the log.
    ///
    /// # Errors
    /// Those of `step`.
    #[inline(always)]
    pub fn read(&mut self, t: TxnId, x: ItemId) -> Result<Reply, EngineError>
        ensures reply { IfOk result (λ reply. reply ≡ reply_to weighted self.old (Read t x)) }
        ensures added { IfOk result (λ reply. self.new ≡ extended self.old (Read t x) reply) }
        ensures full { IsErrOf result EngineError.Full ↔ (is_full self.old (Read t x) ≡ true) }
        ensures err { OnErr result (self.new ≡ self.old) }
    {
        if self.is_full(Event::Read { txn: t, item: x }) {
            return Err(EngineError::Full);
        }
        let _invariant = self.machine.log(); // brings the invariant into the proof
        match self.machine.read(t, x) {
            Ok(reply) => {
                self.active = active_after(self.active, reply);
                Ok(reply)
            }
            Err(_) => Err(EngineError::NoMemory),
        }
    }

    /// Executes a write, like `step`. This separate method is inlined into its callers down to the log.
    ///
    /// # Errors
    /// Those of `step`.
    #[inline(always)]
    pub fn write(&mut self, t: TxnId, x: ItemId, v: i64) -> Result<Reply, EngineError>
        ensures reply { IfOk result (λ reply. reply ≡ reply_to weighted self.old (Write t x v)) }
        ensures added { IfOk result (λ reply. self.new ≡ extended self.old (Write t x v) reply) }
        ensures full { IsErrOf result EngineError.Full ↔ (is_full self.old (Write t x v) ≡ true) }
        ensures err { OnErr result (self.new ≡ self.old) }
    {
        let event = Event::Write {
            txn: t,
            item: x,
            value: v,
        };
        if self.is_full(event) {
            return Err(EngineError::Full);
        }
        let _invariant = self.machine.log(); // brings the invariant into the proof
        match self.machine.write(t, x, v) {
            Ok(reply) => {
                self.active = active_after(self.active, reply);
                Ok(reply)
            }
            Err(_) => Err(EngineError::NoMemory),
        }
    }

    /// Returns the size of the history and the capacity left. The engine is never stuck: each active transaction can be
    /// committed or aborted.
    pub fn counts(&self) -> EngineCounts
        ensures counts { result ≡ counts_of self.now }
        ensures reserved_ends { HasReservedEnds weighted self.now }
    {
        let transaction_count = self.count_begun();
        EngineCounts {
            entries: self.machine.log().len() as u64,
            transactions: transaction_count as u64,
            active: self.active as u64,
            entries_left: (MAX_ENTRIES - self.demand()) as u64,
            transactions_left: MAX_TRANSACTIONS.saturating_sub(transaction_count) as u64,
        }
    }

    /// Returns the total imports and exports, and the number of entries. No limit has been exceeded.
    pub fn totals(&self) -> Totals
        ensures import { result.import ≡ all_imports weighted self.now }
        ensures export { result.export ≡ all_exports weighted self.now }
        ensures entries { result.entries ≡ length self.now.entries }
        ensures limits { IsWithinLimits weighted self.now }
    {
        self.machine.totals()
    }

    /// Returns the history, which is legal. Its committed updates are serializable, no limit has been exceeded, and no
    /// query was off by more than its import.
    pub fn close(self) -> History<Weighted>
        ensures schedule { result.schedule ≡ self }
        ensures sound { IsSound weighted self }
    {
        let EmbeddedEngine {
            machine,
            weights: _,
            active: _,
            index: _,
            spare: _,
        } = self;
        machine.close()
    }

    /// Returns the history so far.
    pub fn history(&self) -> &History<Weighted>
        ensures schedule { result.now.schedule ≡ self.now }
        ensures legal { IsLegal weighted self.now }
    {
        self.machine.history()
    }
}

/// Returns the number of active transactions after a reply.
#[inline(always)]
fn active_after(active: usize, reply: Reply) -> usize
    requires some { is_end reply ≡ true → 0 < active }
    requires count_within_max { active ≤ MAX_ENTRIES }
    ensures { result ≡ active_after active reply }
{
    match reply {
        Reply::Begun(_) => active + 1,
        Reply::Committed | Reply::Aborted => active - 1,
        _ => active,
    }
}
