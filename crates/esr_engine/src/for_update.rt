//! Reads an item for an update that is going to write it.
//!
//! Two updates that have both read an item block each other from writing it: each write waits for the lock that the
//! other's read took. So this operation takes the write lock first, by a write of the item's value, which incurs no
//! charge, and then reads the value. Both are entries, as if they were separate events.

ghost use Rattle.std.specs.Prelude.{◌≡◌, ◌↔◌, true, IfOk, IfErr, OnOk, IsErrOf};
ghost use Rattle.esr_engine.specs.ForUpdate.{reply_for_update, after_for_update, has_lock, lock_event, IsHeldValue, IsPartlyDone, no_pair};

use crate::engine::{EmbeddedEngine, EngineError};
use esr_history::{Event, MAX_ENTRIES, Reply, TxnId};
use esr_items::ItemId;

impl EmbeddedEngine {
    /// Returns whether a transaction holds the write lock on an item.
    fn has_lock(&self, t: TxnId, x: ItemId) -> bool
        ensures { result ≡ has_lock self.now t.0 x.0 }
    {
        if x.0 >= self.machine.history().items() {
            return false;
        }
        match self.machine.writer(x) {
            Some(holder) => holder == t,
            None => false,
        }
    }

    /// Returns the write that takes the lock: of the item's committed value, or of 0 if there is no such item.
    fn lock_event(&self, t: TxnId, x: ItemId) -> Event
        ensures { result ≡ lock_event self.now t x }
    {
        let value = if x.0 < self.machine.history().items() {
            self.machine.committed(x)
        } else {
            0
        };
        Event::Write {
            txn: t,
            item: x,
            value,
        }
    }

    /// Takes the write lock on an item for an update that does not hold it, and reads the item. Returns the reply to the
    /// read, or the reply to the write if the lock is refused; then the item is not read.
    ///
    /// # Errors
    /// `Full` if and only if fewer than two entries are left in addition to the reserved ends; then nothing has changed.
    /// `NoMemory` if an allocation failed; then nothing has changed, except that the update may hold the lock, and the call
    /// can be retried.
    pub fn read_for_update(&mut self, t: TxnId, x: ItemId) -> Result<Reply, EngineError>
        ensures reply { IfOk result (λ reply. reply ≡ reply_for_update self.old t x) }
        ensures added { OnOk result (self.new ≡ after_for_update self.old t x) }
        ensures held { IfOk result (IsHeldValue self.old self.new t x) }
        ensures full { IsErrOf result EngineError.Full ↔ (no_pair self.old ≡ true) }
        ensures unchanged_if_full { IsErrOf result EngineError.Full → self.new ≡ self.old }
        ensures err { IfErr result (λ _. IsPartlyDone self.old self.new t x) }
    {
        if self.demand() + 2 > MAX_ENTRIES {
            return Err(EngineError::Full);
        }
        let _invariant = self.machine.log(); // brings the invariant into the proof
        if self.has_lock(t, x) {
            return self.step(Event::Read { txn: t, item: x });
        }
        let lock = self.lock_event(t, x);
        match self.step(lock) {
            Ok(Reply::Wrote) => self.step(Event::Read { txn: t, item: x }),
            other => other,
        }
    }
}
