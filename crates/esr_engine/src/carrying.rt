//! The parts of a renewal that carries the active transactions over: how they began, their earlier charges, the entries
//! with which the new history begins, and the replay of these entries.
//!
//! A pass over the transaction numbers finds the active transactions, and the links of the log find their entries, which
//! are then sorted. All else works on these lists, which are short if few entries are of active transactions. Rejected:
//! a pass over the log, which takes 11 ns per entry while all threads of a bank wait.

ghost use Rattle.std.specs.Prelude.{◌≡◌, ◌+◌, ◌-◌, ◌<◌, ◌≤◌, ◌&&◌, ◌++◌, ◌==◌, Some, true, count_by, nat_lt, if◌then◌else◌, length, map, filter, filter_map, reverse, slice_get, IfOk, IfSome, OnOk};
ghost use Rattle.std.specs.List.Sorted.{IsNonDecreasingBy};
ghost use Rattle.esr_base.specs.declared.limits.TheConstants.{MAX_TRANSACTIONS};
ghost use Rattle.esr_items.specs.Values.{IsValue};
ghost use Rattle.esr_items.specs.Weights.{weighted};
ghost use Rattle.esr_history.specs.BackLinks.{accepted_item, accepted_txn, places_from};
ghost use Rattle.esr_history.specs.Events.{is_active, is_begun, is_update, is_query};
ghost use Rattle.esr_history.specs.Legal.{continued};
ghost use Rattle.esr_history.specs.Machine.{IsLegalAfter, accepted_in};
ghost use Rattle.esr_history.specs.ReportBounds.{is_active_query};
ghost use Rattle.esr_core.specs.States.{begin_event};
ghost use Rattle.esr_history.specs.declared.event.Reply.TheVariants.{Begun};
ghost use Rattle.esr_core.specs.Carried.{active_numbers, carried, carried_begin, carried_entries, new_number, settled};
ghost use Rattle.esr_engine.specs.Carrying.{active_as, active_in, active_operations, carried_entry, carried_in, is_of_active, open_amount, operation_entry, read_entry, uncommitted_distance, AreActiveEntries};

use crate::engine::EmbeddedEngine;
use esr_core::Machine;
use esr_history::{BeginKind, Entry, Event, History, NoMemory, Reply, TxnId};
use esr_items::{ItemId, Metric, Weighted};
use std::alloc::{AllocError, Global};

/// An active transaction: its number, and how it began.
#[derive(Clone, Copy)]
pub struct ActiveTxn {
    pub txn: TxnId,
    pub query: bool,
    pub limit: u64,
    pub strict: bool,
}

/// The active transactions in ascending order, and their accepted reads and writes in the order of the log.
#[derive(Drop)]
pub(crate) struct ActivePart {
    pub(crate) txns: Vec<ActiveTxn>,
    pub(crate) operations: Vec<Entry>,
}

/// The active transactions in ascending order, and the indices of their accepted entries in any order.
#[derive(Drop)]
struct ActiveEntries {
    txns: Vec<ActiveTxn>,
    places: Vec<u64>,
}

/// A transaction that was carried over: its numbers in the old and in the new history, and the part of its limit and of
/// its charges that is in the old one only.
#[derive(Clone, Copy, PartialEq, Eq, Debug)]
pub struct CarriedTxn {
    pub old: TxnId,
    pub new: TxnId,
    pub settled: u64,
}

/// Appends the indices of the accepted entries of a transaction, from the last to the first.
fn push_places(
    history: &History<Weighted>,
    t: TxnId,
    places: &mut Vec<u64>,
) -> Result<(), AllocError>
    ensures { OnOk result (places.new.items
        ≡ places.old.items ++ reverse (places_from accepted_txn t.0 0 history.now.schedule.entries)) }
{
    let mut next = history.last_of_txn(t);
    while let Some(i) = next {
        places.push(i)?;
        next = history.earlier_of_txn(i);
    }
    Ok(())
}

/// Returns the begin of a carried transaction, with its limit minus its settled amount.
fn begin_entry(active: ActiveTxn, carried: CarriedTxn) -> Entry
    ensures event { result.event ≡ begin_event active.query (active.limit - carried.settled) active.strict }
    ensures reply { result.reply ≡ Begun carried.new }
{
    let limit = active.limit.saturating_sub(carried.settled);
    let event = if active.query {
        Event::BeginQuery {
            limit,
            strict: active.strict,
        }
    } else {
        Event::BeginUpdate { limit }
    };
    Entry {
        event,
        reply: Reply::Begun(carried.new),
    }
}

/// Returns whether a transaction, a query or an update, takes part in a conflict of `q` and `u`.
fn is_charged(query: bool, q: TxnId, u: TxnId, t: TxnId) -> bool
    ensures { result ≡ (if query then q.0 == t.0 else u.0 == t.0) }
{
    if query { q.0 == t.0 } else { u.0 == t.0 }
}

/// Returns the distance of two values of an item.
fn distance(metric: &Weighted, x: ItemId, a: i64, b: i64) -> u64
    requires first { IsValue a }
    requires second { IsValue b }
    ensures { result ≡ weighted metric.now x.0 a b }
{
    metric.distance(x, a, b)
}

/// Returns how many of the active transactions have a smaller number.
fn count_before(active: &[ActiveTxn], t: TxnId) -> usize
    requires { IsNonDecreasingBy (λ a. a.txn.0) active.now }
    ensures { result ≡ count_by (λ a. nat_lt a.txn.0 t.0) active.now }
{
    active.partition_point(|a| a.txn.0 < t.0)
}

/// Executes entries of which each reply is the machine's.
fn replay(machine: &mut Machine<Weighted>, entries: &[Entry]) -> Result<(), NoMemory>
    requires { IsLegalAfter weighted machine.old entries.now }
    ensures { OnOk result (machine.new ≡ continued machine.old entries.now) }
{
    for entry in entries {
        if machine.step(entry.event).is_err() {
            return Err(NoMemory);
        }
    }
    Ok(())
}

impl EmbeddedEngine {
    /// Returns the entry at an index. An accepted operation is on an item that exists.
    fn entry(&self, i: usize) -> Entry
        requires { i < length self.now.entries }
        ensures entry { slice_get self.now.entries i ≡ Some result }
        ensures item { IfSome (accepted_item result) (λ x. x < length self.now.opening) }
    {
        let Some(entry) = self.machine.log().get(i) else {
            unreachable!()
        };
        entry
    }

    /// Returns whether a transaction is an active update.
    #[tactic(auto, using(crate::proofs::Ends::active_is))]
    fn is_active_update(&self, t: TxnId) -> bool
        ensures { result ≡ (is_update (accepted_in self.now) t.0 && is_active (accepted_in self.now) t.0) }
    {
        match self.machine.history().facts(t) {
            Some(facts) => !facts.query && facts.end.is_none(),
            None => false,
        }
    }

    /// Returns whether a transaction is an active query.
    #[tactic(auto, using(crate::proofs::Ends::active_is))]
    fn is_active_query(&self, t: TxnId) -> bool
        ensures { result ≡ is_active_query self.now t.0 }
    {
        match self.machine.history().facts(t) {
            Some(facts) => facts.query && facts.end.is_none(),
            None => false,
        }
    }

    /// Returns whether an entry is an accepted operation of an active transaction.
    fn is_of_active(&self, entry: Entry) -> bool
        ensures { result ≡ is_of_active self.now entry }
    {
        if entry.is_refused() {
            return false;
        }
        match entry.event {
            Event::Read { txn, item: _ }
            | Event::Write {
                txn,
                item: _,
                value: _,
            } => self.is_active(txn),
            _ => false,
        }
    }

    /// Returns how a transaction began.
    fn begun(&self, t: TxnId) -> ActiveTxn
        requires { is_begun (accepted_in self.now) t.0 ≡ true }
        ensures { result ≡ active_as self.now t.0 }
    {
        let Some(facts) = self.machine.history().facts(t) else {
            unreachable!()
        };
        ActiveTxn {
            txn: t,
            query: facts.query,
            limit: facts.limit,
            strict: facts.strict,
        }
    }

    /// Returns the active transactions, and the indices of their accepted entries.
    fn active_entries(&self, alloc: Global) -> Result<ActiveEntries, AllocError>
        ensures { IfOk result (AreActiveEntries self.now) }
    {
        let _invariant = self.machine.log(); // brings the invariant into the proof
        let mut txns = Vec::new(alloc);
        let mut places = Vec::new(alloc);
        for k in 0..self.count_begun() {
            let t = TxnId(k as u32 + 1);
            if self.is_active(t) {
                push_places(self.machine.history(), t, &mut places)?;
                txns.push(self.begun(t))?;
            }
        }
        Ok(ActiveEntries { txns, places })
    }

    /// Returns the operations of active transactions among the entries at these indices.
    fn operations_at(&self, alloc: Global, places: &[u64]) -> Result<Vec<Entry>, AllocError>
        ensures { IfOk result (λ v. v.items
            ≡ filter (is_of_active self.now) (filter_map (slice_get self.now.entries) places.now)) }
    {
        let log = self.machine.log();
        places
            .iter()
            .filter_map(|i| log.get(*i as usize))
            .filter(|entry| self.is_of_active(*entry))
            .collect(alloc)
    }

    /// Returns the active transactions and their operations.
    pub(crate) fn active_part(&self, alloc: Global) -> Result<ActivePart, AllocError>
        ensures txns { IfOk result (λ part. part.txns.items ≡ active_in self.now) }
        ensures operations { IfOk result (λ part. part.operations.items ≡ active_operations self.now) }
    {
        let ActiveEntries { txns, mut places } = self.active_entries(alloc)?;
        places.sort_unstable();
        places.dedup(); // brings into the proof that no index occurs twice
        let operations = self.operations_at(alloc, &places)?;
        Ok(ActivePart { txns, operations })
    }

    /// Returns an operation of an active transaction, which is on an item that exists.
    fn operation(&self, operations: &[Entry], i: usize) -> Entry
        requires operations { operations.now ≡ active_operations self.now }
        requires inside { i < length operations.now }
        ensures entry { slice_get operations.now i ≡ Some result }
        ensures item { IfSome (accepted_item result) (λ x. x < length self.now.opening) }
    {
        let _invariant = self.machine.log(); // brings the invariant into the proof
        operations[i]
    }

    /// Returns the number that a transaction has in the new history.
    fn new_number(&self, active: &[ActiveTxn], t: TxnId) -> TxnId
        requires { active.now ≡ active_in self.now }
        ensures { result ≡ new_number self.now t.0 }
    {
        let _invariant = self.machine.log(); // brings the invariant into the proof
        TxnId(count_before(active, t) as u32 + 1)
    }

    /// Returns the amount that a transaction is charged if the read of an entry is repeated now.
    fn open_amount(&self, query: bool, t: TxnId, entry: Entry) -> u64
        requires { IfSome (accepted_item entry) (λ x. x < length self.now.opening) }
        ensures { result ≡ open_amount weighted self.now query t.0 entry }
    {
        if entry.is_refused() {
            return 0;
        }
        match entry.event {
            Event::Read { txn, item } if self.is_active_query(txn) => {
                match self.machine.writer(item) {
                    Some(u) if is_charged(query, txn, u, t) => self.uncommitted_distance(item),
                    _ => 0,
                }
            }
            _ => 0,
        }
    }

    /// Returns the distance of the current value of an item from its committed value.
    fn uncommitted_distance(&self, x: ItemId) -> u64
        requires { x.0 < length self.now.opening }
        ensures { result ≡ uncommitted_distance weighted self.now x.0 }
    {
        let current = self.machine.current(x);
        let committed = self.machine.committed(x);
        distance(self.machine.history().metric(), x, current, committed)
    }

    /// Returns the part of a transaction's charges that is settled.
    fn settled(&self, operations: &[Entry], t: ActiveTxn) -> u64
        requires operations { operations.now ≡ active_operations self.now }
        requires query { t.query ≡ is_query (accepted_in self.now) t.txn.0 }
        ensures { result ≡ settled weighted self.now t.txn.0 }
    {
        let mut settled = self.charge_of(t.query, t.txn);
        for i in 0..operations.len() {
            let amount = self.open_amount(t.query, t.txn, self.operation(operations, i));
            settled = settled.saturating_sub(amount);
        }
        settled
    }

    /// Returns the active transactions with their new numbers and their settled amounts.
    pub(crate) fn carried_txns(
        &self,
        alloc: Global,
        active: &[ActiveTxn],
        operations: &[Entry],
    ) -> Result<Vec<CarriedTxn>, AllocError>
        requires active { active.now ≡ active_in self.now }
        requires operations { operations.now ≡ active_operations self.now }
        ensures { IfOk result (λ v. v.items ≡ carried_in weighted self.now) }
    {
        let mut carried = Vec::new(alloc);
        for t in active {
            carried.push(CarriedTxn {
                old: t.txn,
                new: self.new_number(active, t.txn),
                settled: self.settled(operations, *t),
            })?;
        }
        Ok(carried)
    }

    /// Returns the entry of the new history for an accepted operation of an active update.
    fn operation_entry(&self, active: &[ActiveTxn], entry: Entry) -> Option<Entry>
        requires { active.now ≡ active_in self.now }
        ensures { result ≡ operation_entry self.now entry }
    {
        if entry.is_refused() {
            return None;
        }
        let event = match entry.event {
            Event::Read { txn, item } if self.is_active_update(txn) => Event::Read {
                txn: self.new_number(active, txn),
                item,
            },
            Event::Write { txn, item, value } if self.is_active_update(txn) => Event::Write {
                txn: self.new_number(active, txn),
                item,
                value,
            },
            _ => return None,
        };
        Some(Entry {
            event,
            reply: entry.reply,
        })
    }

    /// Returns the entry of the new history for an accepted read of an active query.
    fn read_entry(&self, active: &[ActiveTxn], entry: Entry) -> Option<Entry>
        requires active { active.now ≡ active_in self.now }
        requires item { IfSome (accepted_item entry) (λ x. x < length self.now.opening) }
        ensures { result ≡ read_entry self.now entry }
    {
        if entry.is_refused() {
            return None;
        }
        match entry.event {
            Event::Read { txn, item } if self.is_active_query(txn) => Some(Entry {
                event: Event::Read {
                    txn: self.new_number(active, txn),
                    item,
                },
                reply: Reply::Value(self.machine.current(item)),
            }),
            _ => None,
        }
    }

    /// Returns the entry of the new history for an accepted operation of an active transaction of a kind.
    fn carried_entry(&self, active: &[ActiveTxn], kind: BeginKind, entry: Entry) -> Option<Entry>
        requires active { active.now ≡ active_in self.now }
        requires item { IfSome (accepted_item entry) (λ x. x < length self.now.opening) }
        ensures { result ≡ carried_entry self.now kind entry }
    {
        match kind {
            BeginKind::Update => self.operation_entry(active, entry),
            BeginKind::Query => self.read_entry(active, entry),
        }
    }

    /// Appends the entries for the operations of the active transactions of a kind.
    fn push_entries(
        &self,
        active: &[ActiveTxn],
        operations: &[Entry],
        kind: BeginKind,
        entries: &mut Vec<Entry>,
    ) -> Result<(), AllocError>
        requires active { active.now ≡ active_in self.now }
        requires operations { operations.now ≡ active_operations self.now }
        ensures { OnOk result (entries.new.items
            ≡ entries.old.items ++ filter_map (carried_entry self.now kind) operations.now) }
    {
        for i in 0..operations.len() {
            match self.carried_entry(active, kind, self.operation(operations, i)) {
                Some(entry) => entries.push(entry)?,
                None => {}
            }
        }
        Ok(())
    }

    /// Returns the begins of the carried transactions.
    fn begins(
        &self,
        alloc: Global,
        active: &[ActiveTxn],
        carried: &[CarriedTxn],
    ) -> Result<Vec<Entry>, AllocError>
        requires active { active.now ≡ active_in self.now }
        requires carried { carried.now ≡ carried_in weighted self.now }
        ensures { IfOk result (λ v. v.items ≡ map (carried_begin weighted self.now) (active_numbers self.now)) }
    {
        let mut entries = Vec::new(alloc);
        for i in 0..active.len() {
            entries.push(begin_entry(active[i], carried[i]))?;
        }
        Ok(entries)
    }

    /// Returns the entries with which the new history begins.
    pub(crate) fn carried_entries(
        &self,
        alloc: Global,
        active: &[ActiveTxn],
        operations: &[Entry],
        carried: &[CarriedTxn],
    ) -> Result<Vec<Entry>, AllocError>
        requires active { active.now ≡ active_in self.now }
        requires operations { operations.now ≡ active_operations self.now }
        requires carried { carried.now ≡ carried_in weighted self.now }
        ensures { IfOk result (λ v. v.items ≡ carried_entries weighted self.now) }
    {
        let mut entries = self.begins(alloc, active, carried)?;
        self.push_entries(active, operations, BeginKind::Update, &mut entries)?;
        self.push_entries(active, operations, BeginKind::Query, &mut entries)?;
        Ok(entries)
    }

    /// Creates the engine of the new history by a replay of these entries over the committed values, in the memory of a
    /// spare machine if there is one.
    pub(crate) fn carried(
        &self,
        alloc: Global,
        entries: &[Entry],
        spare: Option<Machine<Weighted>>,
    ) -> Result<EmbeddedEngine, NoMemory>
        requires { entries.now ≡ carried_entries weighted self.now }
        ensures { IfOk result (λ e. e ≡ carried weighted self.now) }
    {
        let _invariant = self.machine.log(); // brings the invariant into the proof
        let EmbeddedEngine {
            mut machine,
            weights,
            active: _,
            index,
            spare: _,
        } = self.successor(alloc, spare)?;
        replay(&mut machine, entries)?;
        Ok(EmbeddedEngine {
            machine,
            weights,
            active: self.active,
            index,
            spare: None,
        })
    }
}
