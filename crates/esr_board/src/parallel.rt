//! Audits a whole history with several workers.
//!
//! A board assigns one job for each committed query. Each worker stores a result `T` (`AuditResult`) of each audit: a
//! finding or a summary. All functions up to `pages_by` are generic in `T`, and their contracts use `keeps`, the relation
//! between a finding and a result that agrees with it.
//!
//! Workers share only the history, its index and the counter of the board. Each result is stored at the index of its job,
//! so the results are in the order of the jobs. The main thread joins all workers and takes their seats back, so the board
//! always closes: `unreachable!()` states that, and is proved.

ghost use Rattle.std.specs.Prelude.{◌≡◌, ℕ, ◌<◌, ◌≤◌, ◌↔◌, ◌⊎◌, [], length, map, All, IfOk, IfErr, List, vec_len, slice_index_or, slice_set, Some, None};
ghost use Rattle.std.specs.List.{AllZip};
ghost use Rattle.esr_history.specs.declared.event.Entry.{Entry};
ghost use Rattle.esr_history.specs.Legal.{continued};
ghost use Rattle.esr_history.specs.Machine.{IsLegal};
ghost use Rattle.esr_history.specs.Serial.{committed_updates};
ghost use Rattle.esr_history.specs.Sound.{IsSound};
ghost use Rattle.esr_audit.specs.Findings.{IsAnswer, IsBook, AreSummaries, committed_queries};
ghost use Rattle.esr_audit.specs.Ranges.{listed};
ghost use Rattle.esr_order.specs.Index.{IsWholeIndexOf};
ghost use Rattle.esr_board.specs.declared.board.TheConstants.{MAX_JOBS};
ghost use Rattle.esr_board.specs.Claims.{times, count_past};
ghost use Rattle.esr_board.specs.Boards.{IsSeatOf, claimed, all_claimed, jobs_of};
ghost use Rattle.esr_board.specs.Shares.{AreCommitted, AreKept, IsWorked, IsFilled, AreCorrect, IsKeptOf, KeepsFindings};

use crate::board::{Board, BoardError, BoardSeat, MAX_SEATS};
use crate::gate::Gate;
use crate::result::AuditResult;
use crate::worker::{Share, Worked, take_turns};
use esr_audit::{AuditError, Book, CommitLists, Summaries, commit_lists, prove_sound};
use esr_history::{History, TxnId};
use esr_items::Metric;
use esr_order::Index;
use std::alloc::{AllocError, Global};
use std::thread;
use std::thread::Threads;

/// Stores the result of a job at the job's index.
fn put<T: Drop>(slots: &mut Vec<Option<T>>, job: usize, kept: T)
    requires { job < vec_len slots.old }
    ensures { slots.new.items ≡ slice_set slots.old.items job (Some kept) }
{
    slots[job] = Some(kept);
}

/// Stores the results of a share at the indices of their jobs.
fn place_findings<M: Metric, T: AuditResult<M> + Drop>(
    history: &History<M>,
    jobs: &[TxnId],
    slots: &mut Vec<Option<T>>,
    share: Share<T>,
)
    requires share { AreKept T.keeps M.distance_by history.now.schedule jobs.now (vec_len slots.old)
        share.found.items }
    requires right { AreCorrect T.keeps M.distance_by history.now.schedule jobs.now slots.old.items }
    ensures len { vec_len slots.new ≡ vec_len slots.old }
    ensures right { AreCorrect T.keeps M.distance_by history.now.schedule jobs.now slots.new.items }
    ensures kept { (k : ℕ) → IsFilled slots.old.items k → IsFilled slots.new.items k }
    ensures filled { (k : ℕ) → 0 < times k (map (λ p. p.0) share.found.items) → IsFilled slots.new.items k }
{
    let Share { mut found } = share;
    while let Some((job, kept)) = found.pop() {
        put(slots, job as usize, kept);
    }
}

/// Runs each worker on a separate thread, and returns their shares.
fn shares<M: Metric + Sync, R: Threads + Sync, G: Gate + Sync, T: AuditResult<M> + Send + Drop>(
    rt: &R,
    alloc: Global,
    history: &History<M>,
    index: &Index,
    jobs: &[TxnId],
    board: &Board,
    seats: Vec<BoardSeat>,
    gate: &G,
) -> Result<Vec<Worked<T>>, AllocError>
    requires index { IsWholeIndexOf history.now.schedule.entries index.now }
    requires seats { All (λ s. IsSeatOf board.now s × (claimed s ≡ [])) seats.items }
    requires jobs { (length jobs.now ≡ jobs_of board.now) × AreCommitted history.now.schedule jobs.now }
    ensures { IfOk result (λ v. (vec_len v ≡ vec_len seats)
        × All (IsWorked T.keeps M.distance_by history.now.schedule jobs.now board.now) v.items) }
{
    thread::map_vec(
        rt,
        seats,
        &|seat: BoardSeat| -> Worked<T>
            requires { IsSeatOf board.now seat × (claimed seat ≡ []) × (length jobs.now ≡ jobs_of board.now)
                × AreCommitted history.now.schedule jobs.now
                × IsWholeIndexOf history.now.schedule.entries index.now }
            ensures { IsWorked T.keeps M.distance_by history.entry.now.schedule jobs.entry.now board.entry.now result }
        { take_turns(alloc, history, index, jobs, board, seat, gate) },
    )
}

/// The results at the indices of their jobs, and the seats.
#[derive(Drop)]
struct KeptAndSeats<T> {
    slots: Vec<Option<T>>,
    seats: Vec<BoardSeat>,
}

/// Returns `count` empty slots.
fn empty_slots<T: Drop>(alloc: Global, count: usize) -> Result<Vec<Option<T>>, AllocError>
    ensures { IfOk result (λ v. (vec_len v ≡ count) × ((k : ℕ) → slice_index_or v.items k None ≡ None)) }
{
    let mut slots = Vec::with_capacity(alloc, count)?;
    for _ in 0..count {
        slots.push(None)?;
    }
    Ok(slots)
}

/// Stores the results of all shares at the indices of their jobs, and collects the seats.
fn gather<M: Metric, T: AuditResult<M> + Drop>(
    alloc: Global,
    history: &History<M>,
    jobs: &[TxnId],
    board: &Board,
    mut all: Vec<Worked<T>>,
) -> Result<KeptAndSeats<T>, AuditError>
    requires all { All (IsWorked T.keeps M.distance_by history.now.schedule jobs.now board.now) all.items }
    requires len { length jobs.now ≡ jobs_of board.now }
    ensures seats { IfOk result (λ g. (vec_len g.seats ≡ vec_len all)
        × All (λ s. IsSeatOf board.now s × (0 < count_past (jobs_of board.now) (claimed s))) g.seats.items) }
    ensures slots { IfOk result (λ g. (vec_len g.slots ≡ length jobs.now)
        × AreCorrect T.keeps M.distance_by history.now.schedule jobs.now g.slots.items) }
    ensures filled { IfOk result (λ g. (k : ℕ) → k < jobs_of board.now → 0 < times k (all_claimed g.seats.items)
        → IsFilled g.slots.items k) }
    ensures err { IfErr result (λ e. e ≡ AuditError.NoMemory) }
{
    let Ok(mut slots) = empty_slots(alloc, jobs.len()) else {
        return Err(AuditError::NoMemory);
    };
    let mut seats = Vec::new(alloc);
    while let Some(next) = all.pop() {
        let Worked { share, seat } = next;
        let share = match share {
            Ok(share) => share,
            Err(failed) => return Err(failed),
        };
        place_findings(history, jobs, &mut slots, share);
        if seats.push(seat).is_err() {
            return Err(AuditError::NoMemory);
        }
    }
    Ok(KeptAndSeats { slots, seats })
}

/// Takes the values out of their slots, which are all filled.
fn unwrap_slots<M: Metric, T: AuditResult<M> + Drop>(
    alloc: Global,
    history: &History<M>,
    jobs: &[TxnId],
    mut slots: Vec<Option<T>>,
) -> Result<Vec<T>, AuditError>
    requires len { vec_len slots ≡ length jobs.now }
    requires right { AreCorrect T.keeps M.distance_by history.now.schedule jobs.now slots.items }
    requires filled { (k : ℕ) → k < vec_len slots → IsFilled slots.items k }
    ensures kept { IfOk result (λ v. AllZip (IsKeptOf T.keeps M.distance_by history.now.schedule)
        jobs.now v.items) }
    ensures err { IfErr result (λ e. e ≡ AuditError.NoMemory) }
{
    let mut kept = Vec::new(alloc);
    for k in 0..slots.len() {
        // a seat has claimed each job, and its result was stored here
        let Some(one) = slots[k].take() else {
            unreachable!()
        };
        if kept.push(one).is_err() {
            return Err(AuditError::NoMemory);
        }
    }
    Ok(kept)
}

/// Audits these committed queries with `workers` threads, and returns the values made of the findings, in order.
fn kept_by<M: Metric + Sync, R: Threads + Sync, G: Gate + Sync, T: AuditResult<M> + Send + Drop>(
    rt: &R,
    alloc: Global,
    history: &History<M>,
    index: &Index,
    jobs: &[TxnId],
    workers: u64,
    gate: &G,
) -> Result<Vec<T>, AuditError>
    requires index { IsWholeIndexOf history.now.schedule.entries index.now }
    requires jobs { (length jobs.now ≤ MAX_JOBS) × AreCommitted history.now.schedule jobs.now }
    requires workers { (1 ≤ workers) × (workers ≤ MAX_SEATS) }
    ensures kept { IfOk result (λ v. AllZip (IsKeptOf T.keeps M.distance_by history.now.schedule)
        jobs.now v.items) }
    ensures err { IfErr result (λ e. e ≡ AuditError.NoMemory) }
{
    let (board, seats) = match Board::new(alloc, jobs.len() as u64, workers) {
        Ok(made) => made,
        Err(BoardError::NoMemory) => return Err(AuditError::NoMemory),
        // a history has at most as many queries as a board has jobs, and workers were counted by the caller
        Err(BoardError::TooManyJobs) => unreachable!(),
        Err(BoardError::SeatsOutOfRange) => unreachable!(),
    };
    let Ok(all) = shares(rt, alloc, history, index, jobs, &board, seats, gate) else {
        return Err(AuditError::NoMemory);
    };
    let KeptAndSeats { slots, seats } = match gather(alloc, history, jobs, &board, all) {
        Ok(gathered) => gathered,
        Err(failed) => return Err(failed),
    };
    match board.close(seats) {
        Ok(()) => unwrap_slots(alloc, history, jobs, slots),
        Err(_) => unreachable!(),
    }
}

/// The committed updates of a history, and the values made of the findings of its committed queries.
#[derive(Drop)]
struct Pages<T> {
    order: Vec<TxnId>,
    kept: Vec<T>,
}

/// Audits a history with `workers` threads: returns its committed updates, and the values made of the findings.
fn pages_by<M: Metric + Sync, R: Threads + Sync, G: Gate + Sync, T: AuditResult<M> + Send + Drop>(
    rt: &R,
    alloc: Global,
    history: &History<M>,
    workers: u64,
    gate: &G,
) -> Result<Pages<T>, AuditError>
    ensures order { IfOk result (λ p. map (λ t. t.0) p.order.items ≡ committed_updates history.now.schedule) }
    ensures kept { IfOk result (λ p. KeepsFindings T.keeps M.distance_by history.now.schedule
        (committed_queries history.now.schedule) p.kept.items) }
    ensures workers { (result ≡ Err AuditError.WorkersOutOfRange) ↔ ((workers ≡ 0) ⊎ (MAX_SEATS < workers)) }
    ensures err { IfErr result (λ e. (e ≡ AuditError.NoMemory) ⊎ (e ≡ AuditError.WorkersOutOfRange)) }
{
    if workers == 0 || workers > MAX_SEATS {
        return Err(AuditError::WorkersOutOfRange);
    }
    let Ok(
        CommitLists {
            all: _,
            updates,
            queries,
        },
    ) = commit_lists(alloc, history)
    else {
        return Err(AuditError::NoMemory);
    };
    let Ok(index) = Index::of(alloc, history) else {
        return Err(AuditError::NoMemory);
    };
    match kept_by(rt, alloc, history, &index, &queries, workers, gate) {
        Ok(kept) => Ok(Pages {
            order: updates,
            kept,
        }),
        Err(failed) => Err(failed),
    }
}

/// Audits a history with `workers` threads. The result is that of `audit_history`, up to the choice of a flow in the
/// certificates. Calls `enter` of the gate before the audit of the k-th committed query, with k, counted from 0.
///
/// # Errors
/// `WorkersOutOfRange` if and only if `workers` is not from 1 to 64. `NoMemory` if an allocation failed or a thread
/// cannot be started.
pub fn audit_parallel<M: Metric + Sync, R: Threads + Sync, G: Gate + Sync>(
    rt: &R,
    alloc: Global,
    history: &History<M>,
    workers: u64,
    gate: &G,
) -> Result<Book, AuditError>
    ensures sound { IsSound M.distance_by history.now.schedule }
    ensures book { IfOk result (IsBook M.distance_by history.now.schedule) }
    ensures workers { (result ≡ Err AuditError.WorkersOutOfRange) ↔ ((workers ≡ 0) ⊎ (MAX_SEATS < workers)) }
    ensures err { IfErr result (λ e. (e ≡ AuditError.NoMemory) ⊎ (e ≡ AuditError.WorkersOutOfRange)) }
    ensures stable { IfOk result (λ b. (rest : List Entry) → IsLegal M.distance_by (continued history.now.schedule rest)
        → All (λ f. IsAnswer M.distance_by (continued history.now.schedule rest) f.query.0 f.distance f.import
        (map (λ t. t.0) f.before.items)) b.findings.items) }
{
    prove_sound(history);
    match pages_by(rt, alloc, history, workers, gate) {
        Ok(Pages { order, kept }) => Ok(Book {
            order,
            findings: kept,
        }),
        Err(failed) => Err(failed),
    }
}

/// Like `audit_parallel`, but returns summaries: workers drop the problems and certificates, which take the most memory
/// of a finding.
///
/// # Errors
/// Those of `audit_parallel`.
pub fn summarize_parallel<M: Metric + Sync, R: Threads + Sync, G: Gate + Sync>(
    rt: &R,
    alloc: Global,
    history: &History<M>,
    workers: u64,
    gate: &G,
) -> Result<Summaries, AuditError>
    ensures sound { IsSound M.distance_by history.now.schedule }
    ensures summaries { IfOk result (AreSummaries M.distance_by history.now.schedule) }
    ensures workers { (result ≡ Err AuditError.WorkersOutOfRange) ↔ ((workers ≡ 0) ⊎ (MAX_SEATS < workers)) }
    ensures err { IfErr result (λ e. (e ≡ AuditError.NoMemory) ⊎ (e ≡ AuditError.WorkersOutOfRange)) }
    ensures stable { IfOk result (λ b. (rest : List Entry) → IsLegal M.distance_by (continued history.now.schedule rest)
        → All (λ s. IsAnswer M.distance_by (continued history.now.schedule rest) s.query.0 s.distance s.import
        (listed s.before)) b.summaries.items) }
{
    prove_sound(history);
    match pages_by(rt, alloc, history, workers, gate) {
        Ok(Pages { order, kept }) => Ok(Summaries {
            order,
            summaries: kept,
        }),
        Err(failed) => Err(failed),
    }
}
