//! A box as its pointer, and back, at any type of value: since there no drop of the machine's parts enters the proof.

ghost use Rattle.std.specs.Prelude.{◌≡◌};

use std::alloc::Global;
use std::marker::Model;

/// The pointer of a box, with its block.
pub(crate) struct RawBox<T> {
    pub(crate) at: *mut T,
    pub(crate) ghost value: { T },
}

impl<T> Model for RawBox<T> {
    ghost use Rattle.std_alloc.specs.Box.Ownership.{box_owns};
    ghost use Rattle.std.specs.contracts.impls.GlobalAllocator.TheImpl as Heap;

    ghost also_owns = { λ l. box_owns (Heap.ghosts.dealloc_token _) T.row l.at l.value };
}

/// Converts a box into a pointer.
pub(crate) fn box_into_raw<T: Drop>(b: Box<T, Global>) -> RawBox<T>
    ensures { result.value ≡ b.value }
{
    RawBox {
        at: Box::into_raw(b),
    }
}

/// Converts a pointer back into the box.
pub(crate) fn box_from_raw<T>(alloc: Global, l: RawBox<T>) -> Box<T, Global>
    ensures { result.value ≡ l.value }
{
    let RawBox { at } = l;
    unsafe { Box::from_raw(alloc, at) }
}
