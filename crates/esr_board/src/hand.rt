//! Defines the state of a seat (its claimed numbers, and whether it has a pass), and the parameters of the table.

use std::collections::LinkedList;

/// The state of a seat: the number of the board's jobs, the number of passes of the seat, and the numbers that it
/// claimed, in order. It exists in proofs only.
pub struct Hand {
    pub jobs: u64,
    pub passes: u64,
    pub claimed: LinkedList<u64>,
}

/// How many jobs and seats a board has.
#[derive(Clone, Copy)]
pub struct BoardSize {
    pub jobs: u64,
    pub seats: u64,
}
