//! Defines the board and its seats.
//!
//! The board's rule refers to the numbers of jobs and seats. Two words of the table contain them too, but a clause
//! cannot read a word without a step on it. The key of a table is fixed at creation, and proofs can read it at any
//! time, so it relates the rule to the board's fields.
ghost use Rattle.std.specs.Prelude.{◌≡◌, ◌≤◌, [], length, nat_eq};
ghost use Rattle.esr_board.specs.declared.board.TheConstants.{MAX_JOBS, MAX_SEATS};
ghost use Rattle.esr_board.specs.Claims.{passes_of};

use crate::hand::{BoardSize, Hand};
use crate::rule::Fair;
use atomic_table::{Seat, Table};
use esr_history::MAX_TRANSACTIONS;
use std::alloc::Global;
use thiserror::Error;

mod calls;

/// The most jobs that a board has: one for each transaction of a history.
pub const MAX_JOBS: u64 = MAX_TRANSACTIONS as u64;

/// The most seats that a board has.
pub const MAX_SEATS: u64 = 64;

/// The numbers from 0 on, which seats claim.
#[derive(Drop)]
pub struct Board {
    table: Table<(), Hand, BoardSize, Fair, Global>,
    jobs: u64,
    seats: u64,
    ghost words: { table.shared.table_id.words ≡ 3 },
    ghost slots: { table.shared.table_id.slots ≡ 0 },
    ghost jobs_known: { table.shared.key.jobs ≡ jobs },
    ghost seats_known: { table.shared.key.seats ≡ seats },
    ghost bounded_jobs: { jobs ≤ MAX_JOBS },
    ghost bounded_seats: { seats ≤ MAX_SEATS },
}

/// The right to claim numbers of one board, until a claim returns none.
#[derive(Drop)]
pub struct BoardSeat {
    seat: Seat<(), Hand>,
    claims: u64,
    ended: bool,
    ghost counted: { claims ≡ length seat.me.0.claimed },
    ghost one_pass: { passes_of seat.me.0.jobs seat.me.0 ≡ 1 },
    ghost ended_without: { ended ≡ nat_eq seat.me.0.passes 0 },
    ghost no_slot: { seat.me.1 ≡ [] },
}

/// Why a board was not made.
#[derive(Clone, Copy, PartialEq, Eq, Debug, Error)]
pub enum BoardError {
    /// A board has at most 65,535 jobs.
    #[error("more than 65,535 jobs")]
    TooManyJobs = 1,
    /// A board has 1 to 64 seats.
    #[error("seats out of range")]
    SeatsOutOfRange = 2,
    /// Out of memory.
    #[error("out of memory")]
    NoMemory = 3,
}

/// A seat with claimed numbers was not returned.
#[derive(Clone, Copy, PartialEq, Eq, Debug, Error)]
#[error("a seat was not given back")]
pub struct ClaimsMissing;
