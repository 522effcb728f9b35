//! Operations of a board: creation, claims, and a close that proves that each number was claimed once.
//!
//! No field contains the board's word, and a clause cannot name a value that no field holds. So `close` states that
//! there is a word, with lists of seats that were not returned, for which the rule holds, and that the result is `Ok`
//! if and only if as many numbers were claimed as this word counts. A seat without a pass has an empty list. So a close
//! can be refused only if fewer seats are passed than the board has.
ghost use Rattle.std.specs.Prelude.{◌≡◌, ℕ, ◌+◌, ◌<◌, ◌≤◌, ◌↔◌, ◌⊎◌, [], ◌∷◌, ◌++◌, map, All, IfSome, IfNone, IfOk, OnOk, OnErr, MatchResult, length, vec_len};
ghost use Rattle.esr_board.specs.Claims.{count_past, HasClaimed, hand, EachOnceBelow, IsBoardAt};
ghost use Rattle.esr_board.specs.Boards.{IsSeatOf, claimed, hand_of, all_claimed, jobs_of, seats_of};

use super::{Board, BoardError, BoardSeat, ClaimsMissing, MAX_JOBS, MAX_SEATS};
use crate::hand::{BoardSize, Hand};
use crate::rule::{Admit, Claim, Fair, Gather};
use atomic_table::{Seat, Table};
use std::alloc::{AllocError, Global};

/// Creates a seat that has claimed nothing.
fn fresh(seat: Seat<(), Hand>) -> BoardSeat
    requires { (seat.me.0.passes ≡ 1) × (seat.me.0.claimed ≡ []) × (seat.me.1 ≡ []) }
    ensures { result.seat ≡ seat }
{
    BoardSeat {
        seat,
        claims: 0,
        ended: false,
    }
}

/// Splits the only seat of a table, which has all passes, into seats with one pass each.
fn split_seats(
    alloc: Global,
    table: &Table<(), Hand, BoardSize, Fair, Global>,
    mut first: Seat<(), Hand>,
    seats: u64,
) -> Result<Vec<BoardSeat>, AllocError>
    requires table { (first.table_id ≡ table.now.shared.table_id) × (table.now.shared.table_id.words ≡ 3) }
    requires passes { (first.me ≡ (hand table.now.shared.key.jobs seats [], [])) × (0 < seats) }
    ensures len { IfOk result (λ made. vec_len made ≡ seats) }
    ensures each { IfOk result (λ made. All (λ s. (s.seat.table_id ≡ table.now.shared.table_id)
        × (hand_of s ≡ hand table.now.shared.key.jobs 1 [])) made.items) }
{
    let mut made = Vec::with_capacity(alloc, seats as usize)?;
    for _ in 1..seats {
        made.push(fresh(table.shared.split_seat::<Admit>(&mut first)))?;
    }
    made.push(fresh(first))?;
    Ok(made)
}

impl Board {
    /// Creates a board of `jobs` jobs and all its seats.
    ///
    /// # Errors
    /// `TooManyJobs` if and only if there are more than 65,535 jobs; otherwise `SeatsOutOfRange` if and only if `seats`
    /// is not from 1 to 64. `NoMemory` if an allocation failed.
    pub fn new(alloc: Global, jobs: u64, seats: u64) -> Result<(Board, Vec<BoardSeat>), BoardError>
        ensures board { IfOk result (λ made. (jobs_of made.0 ≡ jobs) × (seats_of made.0 ≡ seats)) }
        ensures seats { IfOk result (λ made. (vec_len made.1 ≡ seats)
            × All (λ s. IsSeatOf made.0 s × (claimed s ≡ [])) made.1.items) }
        ensures too_many_jobs { (result ≡ Err BoardError.TooManyJobs) ↔ (MAX_JOBS < jobs) }
        ensures seats_out_of_range { (result ≡ Err BoardError.SeatsOutOfRange)
            ↔ ((jobs ≤ MAX_JOBS) × ((seats ≡ 0) ⊎ (MAX_SEATS < seats))) }
    {
        if jobs > MAX_JOBS {
            return Err(BoardError::TooManyJobs);
        }
        if seats == 0 || seats > MAX_SEATS {
            return Err(BoardError::SeatsOutOfRange);
        }
        let size = BoardSize { jobs, seats };
        let Ok((table, first)) = Table::of_words(alloc, &[0, jobs, seats], &size) else {
            return Err(BoardError::NoMemory);
        };
        let Ok(made) = split_seats(alloc, &table, first, seats) else {
            return Err(BoardError::NoMemory);
        };
        let board = Board { table, jobs, seats };
        Ok((board, made))
    }

    /// Claims the next number, which no other claim of any seat has. Returns `None` if no job is left; a seat that got
    /// `None` makes no further step. A claim is one atomic step on one word, without locks and allocations.
    pub fn claim(&self, seat: &mut BoardSeat) -> Option<u64>
        requires { IsSeatOf self.now seat.old }
        ensures seat { IsSeatOf self.now seat.new }
        ensures job { IfSome result (λ n. (n < jobs_of self.now)
            × (claimed seat.new ≡ claimed seat.old ++ n ∷ []) × All (λ m. m < n) (claimed seat.old)) }
        ensures rising { IfSome result (λ n. length (claimed seat.old) ≤ n) }
        ensures again { 0 < count_past (jobs_of self.now) (claimed seat.old) → claimed seat.new ≡ claimed seat.old }
        ensures none { IfNone result ((0 < count_past (jobs_of self.now) (claimed seat.new))
            × HasClaimed (jobs_of self.now) (claimed seat.old) (claimed seat.new) []) }
    {
        if seat.ended {
            return None;
        }
        let n = self.table.shared.fetch_add::<Claim>(&mut seat.seat, 0, 1);
        seat.claims += 1;
        if n < self.jobs {
            return Some(n);
        }
        seat.ended = true;
        None
    }

    /// Checks that the seats have every number that was claimed: then each number below their count is in their lists
    /// exactly once, and no other number is.
    ///
    /// # Errors
    /// `ClaimsMissing` if and only if the seats have claimed fewer numbers than the board has given out; never if all
    /// seats of the board are passed.
    pub fn close(self, seats: Vec<BoardSeat>) -> Result<(), ClaimsMissing>
        requires { All (IsSeatOf self) seats.items }
        ensures once { OnOk result (EachOnceBelow (length (all_claimed seats.items)) (all_claimed seats.items)) }
        ensures word { (word : ℕ) × IsBoardAt (jobs_of self) (seats_of self) (map hand_of seats.items) word
            × MatchResult result (λ _. length (all_claimed seats.items) ≡ word)
            (λ _. length (all_claimed seats.items) < word) }
        ensures missing { OnErr result (vec_len seats < seats_of self) }
    {
        let (counted, word) = self.settle(seats);
        if counted == u128::from(word) {
            Ok(())
        } else {
            Err(ClaimsMissing)
        }
    }

    /// Returns how many numbers the seats have claimed, and the word.
    fn settle(self, mut seats: Vec<BoardSeat>) -> (u128, u64)
        requires { All (IsSeatOf self) seats.items }
        ensures count { result.0 ≡ length (all_claimed seats.items) }
        ensures word { IsBoardAt (jobs_of self) (seats_of self) (map hand_of seats.items) result.1 }
    {
        let Some(last) = seats.pop() else {
            let Board {
                table,
                jobs: _,
                seats: _,
            } = self;
            let closed = table.close();
            let word = closed.word(0);
            closed.free();
            return (0, word);
        };
        let BoardSeat {
            seat: mut all,
            claims,
            ended: _,
        } = last;
        let mut counted = u128::from(claims);
        while let Some(next) = seats.pop() {
            let BoardSeat {
                seat,
                claims,
                ended: _,
            } = next;
            self.table.shared.join_seat::<Gather>(&mut all, seat);
            counted += u128::from(claims);
        }
        let Board {
            table,
            jobs: _,
            seats: _,
        } = self;
        let closed = table.close_with(all);
        let word = closed.word(0);
        closed.free();
        (counted, word)
    }
}
