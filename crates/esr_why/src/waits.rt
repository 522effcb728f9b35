//! The waits among transactions, and the cycles of transactions that wait for one another.
//!
//! The place of each transaction's last entry is kept, so an entry costs one place. If a transaction is blocked by a
//! lock, its holder may wait too, and so on: the walk continues to the first transaction that does not wait or was
//! met before, and a walk that returns to its start is a cycle. The walk is a draft: its result is tested before it
//! is reported.

ghost use Rattle.std.specs.Prelude.{◌≡◌, ◌<◌, ◌++◌, ◌∷◌, [], List, None, Some, All, IsTrue, IfOk, IfSome, length, map};
ghost use Rattle.esr_history.specs.BackLinks.{last_place, txn_in};
ghost use Rattle.esr_history.specs.declared.event.Entry.{Entry};
ghost use Rattle.esr_why.specs.Waits.{AreLastEntries, BeginsWith, IsCycle, IsWaiting, turned};

use esr_history::{Entry, Log, Refusal, Reply, TxnId};
use std::alloc::{AllocError, Global};

/// A transaction whose last event was blocked by a lock of another.
#[derive(Clone, Copy)]
pub struct Wait {
    pub txn: TxnId,
    /// The holder of the lock.
    pub holder: TxnId,
    /// The place of the event in the log.
    pub place: usize,
}

/// Returns whether each waits for the next, and the last for the first.
fn is_round(waits: &[Wait]) -> bool
    ensures { IsTrue result → map (λ w. w.holder) waits.now ≡ turned (map (λ w. w.txn) waits.now) }
{
    let Some(first) = waits.first() else {
        return true;
    };
    let mut next = first.txn;
    for wait in waits {
        if wait.txn != next {
            return false;
        }
        next = wait.holder;
    }
    next == first.txn
}

/// The place of the last entry of each transaction.
#[derive(Drop)]
pub struct LastEntries {
    places: Vec<Option<usize>>,
    /// The place of the entry from which a walk came by last.
    met: Vec<Option<usize>>,
}

impl LastEntries {
    /// Creates the state before the first entry of a history with `transactions` transactions.
    pub fn new(alloc: Global, transactions: usize) -> Result<LastEntries, AllocError>
        ensures { IfOk result (λ l. AreLastEntries [] l.places.items) }
    {
        let count = transactions.saturating_add(1);
        Ok(LastEntries {
            places: vec![in alloc; None; count]?,
            met: vec![in alloc; None; count]?,
        })
    }

    /// Notes the entry at a place.
    pub fn note(&mut self, entry: Entry, place: usize)
        ensures { (es : List Entry) → place ≡ length es → AreLastEntries es self.old.places.items
            → AreLastEntries (es ++ entry ∷ []) self.new.places.items }
    {
        let Some(txn) = entry.txn() else {
            return;
        };
        let at = txn.0 as usize;
        if at < self.places.len() {
            self.places[at] = Some(place);
        }
    }

    /// Returns the place of the last entry of a transaction.
    fn place(&self, txn: TxnId) -> Option<usize>
        ensures some { (es : List Entry) → AreLastEntries es self.now.places.items
            → IfSome result (λ place. last_place txn_in txn.0 es ≡ Some place) }
        ensures none { (es : List Entry) → AreLastEntries es self.now.places.items → txn.0 < length self.now.places.items
            → result ≡ None → last_place txn_in txn.0 es ≡ None }
    {
        let at = txn.0 as usize;
        if at < self.places.len() {
            self.places[at]
        } else {
            None
        }
    }

    /// Returns the wait of a transaction, if its last event was blocked by a lock.
    pub fn wait(&self, log: &Log, txn: TxnId) -> Option<Wait>
        ensures wait { AreLastEntries log.now.entries self.now.places.items → IfSome result (IsWaiting log.now.entries) }
        ensures txn { IfSome result (λ w. w.txn ≡ txn) }
        ensures none { AreLastEntries log.now.entries self.now.places.items → txn.0 < length self.now.places.items
            → result ≡ None → (w : Wait) → w.txn ≡ txn → ¬ IsWaiting log.now.entries w }
    {
        let place = self.place(txn)?;
        let entry = log.get(place)?;
        match entry.reply {
            Reply::Refused(Refusal::BlockedByLock(holder)) => Some(Wait { txn, holder, place }),
            _ => None,
        }
    }

    /// Returns whether a walk from the entry at a place meets a transaction for the first time.
    fn meets(&mut self, txn: TxnId, place: usize) -> bool
        ensures { self.new.places ≡ self.old.places }
    {
        let at = txn.0 as usize;
        if at >= self.met.len() || self.met[at] == Some(place) {
            return false;
        }
        self.met[at] = Some(place);
        true
    }

    /// Returns the waits from the first on, each for the next, until a transaction does not wait or was met before.
    fn walk(&mut self, alloc: Global, log: &Log, first: Wait) -> Result<Vec<Wait>, AllocError>
        requires last_entries { AreLastEntries log.now.entries self.old.places.items }
        requires first { IsWaiting log.now.entries first }
        ensures waiting { IfOk result (λ v. All (IsWaiting log.now.entries) v.items) }
        ensures first { IfOk result (λ v. BeginsWith first v.items) }
        ensures places { self.new.places ≡ self.old.places }
    {
        let mut waits = Vec::new(alloc);
        waits.push(first)?;
        let mut next = first.holder;
        for _ in 0..self.places.len() {
            if next == first.txn || !self.meets(next, first.place) {
                return Ok(waits);
            }
            let Some(wait) = self.wait(log, next) else {
                return Ok(waits);
            };
            waits.push(wait)?;
            next = wait.holder;
        }
        Ok(waits)
    }

    /// Returns the cycle of waits that begins with the given one, if it closes a cycle.
    pub fn cycle(
        &mut self,
        alloc: Global,
        log: &Log,
        first: Wait,
    ) -> Result<Option<Vec<Wait>>, AllocError>
        requires last_entries { AreLastEntries log.now.entries self.old.places.items }
        requires first { IsWaiting log.now.entries first }
        ensures cycle { IfOk result (λ found. IfSome found (λ v. IsCycle log.now.entries v.items)) }
        ensures first { IfOk result (λ found. IfSome found (λ v. BeginsWith first v.items)) }
        ensures places { self.new.places ≡ self.old.places }
    {
        let waits = self.walk(alloc, log, first)?;
        if is_round(&waits) {
            return Ok(Some(waits));
        }
        Ok(None)
    }
}
