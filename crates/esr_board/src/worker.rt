//! Defines the share of one worker: the jobs that it claimed, with their findings.

use crate::board::BoardSeat;
use esr_audit::{AuditError, Finding};

mod turns;

pub(crate) use turns::take_turns;
pub use turns::work;

/// The jobs of one worker in the order of its claims, each with its finding or a value made of it.
#[derive(Drop)]
pub struct Share<T = Finding> {
    pub found: Vec<(u64, T)>,
}

/// The share and the seat that a worker returns.
#[derive(Drop)]
pub(crate) struct Worked<T> {
    pub(crate) share: Result<Share<T>, AuditError>,
    pub(crate) seat: BoardSeat,
}
