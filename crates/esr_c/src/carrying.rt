//! A renewal that carries the active transactions over, and their list as C reads it.

ghost use Rattle.std.specs.Prelude.{◌≡◌, ◌≢◌, ◌↔◌, ◌<◌, ◌≤◌, length, map, take, drop};
ghost use Rattle.esr_items.specs.Weights.{weighted};
ghost use Rattle.esr_history.specs.Machine.{accepted_in};
ghost use Rattle.esr_core.specs.Carried.{carried};
ghost use Rattle.esr_engine.specs.Capacity.{active_count};
ghost use Rattle.esr_c.specs.Answers.{carried_fields, status_number, AreCarriedIn, IsCarriedRenewal, IsBufferStatus};

use crate::engine::Status;
use esr_engine::{CarriedTxn, EmbeddedEngine};
use std::alloc::Global;

/// A transaction that was carried over: its numbers in the old and in the new history, and the part of its limit and of
/// its charges that is in the old one only.
#[repr(C)]
#[derive(Clone, Copy)]
pub struct EsrCarried {
    pub old_txn: u32,
    pub new_txn: u32,
    pub settled: u64,
}

/// Converts a carried transaction for C.
fn to_carried(txn: CarriedTxn) -> EsrCarried
    ensures { result ≡ carried_fields txn }
{
    EsrCarried {
        old_txn: txn.old.0,
        new_txn: txn.new.0,
        settled: txn.settled,
    }
}

/// Writes carried transactions to the beginning of a buffer, and leaves the rest of the buffer unchanged. It allocates
/// nothing, because the renewal has succeeded.
fn fill_carried(buffer: &mut [EsrCarried], list: &[CarriedTxn])
    requires { length list.now ≤ length buffer.old }
    ensures filled { take (length list.now) buffer.new ≡ map carried_fields list.now }
    ensures rest { drop (length list.now) buffer.new ≡ drop (length list.now) buffer.old }
{
    for i in 0..list.len() {
        buffer[i] = to_carried(list[i]);
    }
}

/// Renews an engine, and carries its active transactions over if the buffer has capacity for their list.
pub(crate) fn renew_engine_carrying(
    alloc: Global,
    engine: &mut EmbeddedEngine,
    txns: &mut [EsrCarried],
    count: &mut usize,
) -> Status
    ensures statuses { IsBufferStatus (status_number result) }
    ensures never_closed { result ≢ Status.IsClosed }
    ensures count { count.new ≡ active_count (accepted_in engine.old) }
    ensures small { (status_number result ≡ 7) ↔ (length txns.old < active_count (accepted_in engine.old)) }
    ensures renewed { status_number result ≡ 0 → engine.new ≡ carried weighted engine.old }
    ensures listed { result ≡ Status.Done → AreCarriedIn engine.old count.new txns.new }
    ensures carried { result ≡ Status.Done → IsCarriedRenewal engine.old }
    ensures rest { drop count.new txns.new ≡ drop count.new txns.old }
    ensures err { result ≢ Status.Done → (engine.new ≡ engine.old) × (txns.new ≡ txns.old) }
{
    *count = engine.counts().active as usize;
    if txns.len() < *count {
        return Status::TooSmall;
    }
    match engine.renew_carrying(alloc) {
        Ok(list) => {
            fill_carried(txns, &list);
            Status::Done
        }
        Err(_) => Status::NoMemory,
    }
}
