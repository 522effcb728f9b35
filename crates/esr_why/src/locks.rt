//! The lock by which an update blocks an event.

ghost use Rattle.std.specs.Prelude.{◌≡◌, ◌<◌, length};
ghost use Rattle.esr_history.specs.Machine.{accepted_in, writer};
ghost use Rattle.esr_why.specs.Locks.{lock_by, lock_in_way};
ghost use Rattle.esr_core.specs.States.{IsInRange};

use esr_core::Machine;
use esr_history::{Event, TxnId};
use esr_items::{ItemId, Weighted};
use esr_replay::MetricRef;

/// A lock that an update holds on an item.
#[derive(Clone, Copy)]
pub enum Lock {
    /// It has read it.
    Read,
    /// It has written it.
    Write,
}

/// Returns the lock by which an update blocks others from an item: its write lock, if it is the item's writer.
fn lock_on(machine: &Machine<MetricRef<'_, Weighted>>, x: ItemId, holder: TxnId) -> Lock
    requires { x.0 < length machine.now.opening }
    ensures { result ≡ lock_by (writer (accepted_in machine.now) x.0) holder.0 }
{
    match machine.writer(x) {
        Some(writer) if writer == holder => Lock::Write,
        _ => Lock::Read,
    }
}

/// Returns the lock by which an update blocks the next event.
pub fn lock_of(machine: &Machine<MetricRef<'_, Weighted>>, event: Event, holder: TxnId) -> Lock
    requires { IsInRange event (length machine.now.opening) }
    ensures { result ≡ lock_in_way machine.now event holder.0 }
{
    match event {
        Event::Read { txn: _, item }
        | Event::Write {
            txn: _,
            item,
            value: _,
        } => lock_on(machine, item, holder),
        _ => Lock::Read,
    }
}
