//! Boards and their seats, by one thread.
ghost use Rattle.esr_board.specs.Boards.{IsSeatOf};

use esr_board::{Board, BoardError, BoardSeat, ClaimsMissing};
use std::alloc::Global;
use std::process::Abort;

/// Returns a board of three jobs, and its two seats.
fn three_jobs(rt: &impl Abort, alloc: Global) -> (Board, BoardSeat, BoardSeat)
    ensures { IsSeatOf result.0 result.1 × IsSeatOf result.0 result.2 }
{
    // If the allocation fails, it is retried once.
    let made = match Board::new(alloc, 3, 2) {
        Err(_) => Board::new(alloc, 3, 2),
        made => made,
    };
    let Ok((board, mut seats)) = made else {
        panic!(rt; "a board of three jobs")
    };
    let (Some(second), Some(first)) = (seats.pop(), seats.pop()) else {
        panic!(rt; "two seats")
    };
    (board, first, second)
}

/// Compares the next claim of a seat.
fn claims(rt: &impl Abort, board: &Board, seat: &mut BoardSeat, job: Option<u64>)
    requires { IsSeatOf board.now seat.old }
    ensures { IsSeatOf board.now seat.new }
{
    assert!(rt; board.claim(seat) == job);
}

/// Lets the first seat claim two jobs, and the second seat the third.
fn claim_three(rt: &impl Abort, alloc: Global) -> (Board, BoardSeat, BoardSeat)
    ensures { IsSeatOf result.0 result.1 × IsSeatOf result.0 result.2 }
{
    let (board, mut first, mut second) = three_jobs(rt, alloc);
    claims(rt, &board, &mut first, Some(0));
    claims(rt, &board, &mut first, Some(1));
    claims(rt, &board, &mut second, Some(2));
    claims(rt, &board, &mut second, None);
    (board, first, second)
}

/// Closes a board with one of its seats.
fn close_with(
    rt: &impl Abort,
    alloc: Global,
    board: Board,
    seat: BoardSeat,
) -> Result<(), ClaimsMissing>
    requires { IsSeatOf board seat }
{
    let mut given = Vec::new(alloc);
    given.push(seat).expect(rt, "memory");
    board.close(given)
}

/// Since others may claim in between, no clause specifies the number of a claim; with one thread they are in order.
#[test]
fn every_claim_closes_the_board(rt: HostRuntime) {
    let (board, mut first, second) = claim_three(&rt, rt.alloc());
    claims(&rt, &board, &mut first, None);
    let mut given = Vec::new(rt.alloc());
    given.push(first).expect(&rt, "memory");
    given.push(second).expect(&rt, "memory");
    assert!(rt; board.close(given) == Ok(()));
}

/// With the next test it parts seats from their draws: a close that only counts seats would err in one of the two.
#[test]
fn a_seat_that_drew_is_missing(rt: HostRuntime) {
    let (board, first, second) = claim_three(&rt, rt.alloc());
    drop(first);
    assert!(rt; close_with(&rt, rt.alloc(), board, second) == Err(ClaimsMissing));
}

/// The clause permits an error for a close whenever a seat is missing; a seat that claimed nothing is no reason for
/// one.
#[test]
fn a_seat_that_drew_nothing_is_not_missed(rt: HostRuntime) {
    let (board, mut first, second) = three_jobs(&rt, rt.alloc());
    claims(&rt, &board, &mut first, Some(0));
    claims(&rt, &board, &mut first, Some(1));
    claims(&rt, &board, &mut first, Some(2));
    claims(&rt, &board, &mut first, None);
    claims(&rt, &board, &mut first, None);
    drop(second);
    assert!(rt; close_with(&rt, rt.alloc(), board, first) == Ok(()));
}

/// The clause permits an error for a close without seats; if no job was claimed, nothing can be missing.
#[test]
fn an_unused_board_closes_with_no_seat(rt: HostRuntime) {
    let (board, first, second) = three_jobs(&rt, rt.alloc());
    drop(first);
    drop(second);
    assert!(rt; board.close(Vec::new(rt.alloc())) == Ok(()));
}

/// Returns the error of creating a board with these numbers of jobs and seats.
fn refusal_of(alloc: Global, jobs: u64, seats: u64) -> Option<BoardError> {
    Board::new(alloc, jobs, seats).err()
}

/// The bounds are constants that no clause compares with the formats; and none states that the largest board is made.
#[test]
fn a_board_has_few_jobs_and_seats(rt: HostRuntime) {
    let alloc = rt.alloc();
    for (jobs, seats, error) in &[
        (65_536, 0, Some(BoardError::TooManyJobs)),
        (65_536, 1, Some(BoardError::TooManyJobs)),
        (65_535, 0, Some(BoardError::SeatsOutOfRange)),
        (0, 65, Some(BoardError::SeatsOutOfRange)),
        (65_535, 64, None),
        (0, 1, None),
    ] {
        assert!(rt;
            refusal_of(alloc, *jobs, *seats) == *error,
            "{} jobs, {} seats",
            jobs,
            seats
        );
    }
}
