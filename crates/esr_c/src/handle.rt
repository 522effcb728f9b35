//! An engine that is handed to C, as its pointer: the few functions at the engine's own type whose proofs are by hand
//! (`wrap`, `unwrap`, `null_handle`). They make no call but those of `pointer`.

ghost use Rattle.std.specs.Prelude.{◌≡◌, Option, Some, None, IsSome};
ghost use Rattle.esr_history.specs.Machine.{Schedule};

use crate::pointer::{RawBox, box_from_raw, box_into_raw};
use esr_engine::EmbeddedEngine;
use std::alloc::Global;
use std::marker::Model;

/// Nothing, or an engine on the heap.
#[repr(C)]
#[derive(Drop)]
pub struct EngineHandle {
    at: *mut u8,
    pub(crate) ghost history: { Option Schedule },
}

impl Model for EngineHandle {
    ghost use Rattle.esr_c.specs.Owned.{owned};

    ghost also_owns = { λ h. owned h.at h.history };
}

/// Returns the handle of a closed variable, which owns nothing.
pub(crate) fn null_handle() -> EngineHandle
    ensures { result.history ≡ None }
{
    EngineHandle {
        at: std::ptr::null_mut(),
    }
}

fn wrap(l: RawBox<EmbeddedEngine>) -> EngineHandle
    ensures { result.history ≡ Some l.value }
{
    let RawBox { at } = l;
    EngineHandle { at: at as *mut u8 }
}

fn unwrap(h: EngineHandle) -> RawBox<EmbeddedEngine>
    requires { IsSome h.history }
    ensures { h.history ≡ Some result.value }
{
    let EngineHandle { at } = h;
    RawBox {
        at: at as *mut EmbeddedEngine,
    }
}

/// Converts a box with an engine into a handle.
pub(crate) fn into_handle(b: Box<EmbeddedEngine, Global>) -> EngineHandle
    ensures { result.history ≡ Some b.value }
{
    wrap(box_into_raw(b))
}

/// Converts a handle back into the box.
pub(crate) fn from_handle(alloc: Global, h: EngineHandle) -> Box<EmbeddedEngine, Global>
    requires { IsSome h.history }
    ensures { h.history ≡ Some result.value }
{
    box_from_raw(alloc, unwrap(h))
}

// It may go to another thread, as the box of an engine may.
unsafe impl Send for EngineHandle {}
