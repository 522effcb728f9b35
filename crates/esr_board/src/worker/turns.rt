//! Runs one worker: it claims a job and audits its query, until no job is left. If a claimed job is not a committed
//! query, the worker stops and keeps its claims. `audit_parallel` has no such jobs, but `work` is public and takes any
//! list.
//!
//! A finding is large because of its problem and its certificate, and a caller that audits a whole history may need
//! only one line of each. So one loop, `claim_all`, claims and audits for every type of result (`AuditResult`).

ghost use Rattle.std.specs.Prelude.{[], ◌≡◌, ◌≢◌, ℕ, ◌<◌, length, map, IfOk, IfErr, List, Any, false};
ghost use Rattle.esr_history.specs.Queries.{is_committed_query};
ghost use Rattle.esr_order.specs.Index.{IsWholeIndexOf};
ghost use Rattle.esr_board.specs.Claims.{count_past, HasClaimed};
ghost use Rattle.esr_board.specs.Boards.{IsSeatOf, claimed, jobs_of};
ghost use Rattle.esr_board.specs.Shares.{AreCommitted, AreFound, AreKept, IsWorked, query_of};

use super::{Share, Worked};
use crate::board::{Board, BoardSeat};
use crate::gate::Gate;
use crate::result::AuditResult;
use esr_audit::{AuditError, Finding};
use esr_history::{History, TxnId};
use esr_items::Metric;
use esr_order::Index;
use std::alloc::Global;

/// Claims jobs and audits their queries until no job is left, and keeps a `T` of each. The audits share the index of the
/// history.
fn claim_all<M: Metric, G: Gate, T: AuditResult<M> + Drop>(
    alloc: Global,
    history: &History<M>,
    index: &Index,
    jobs: &[TxnId],
    board: &Board,
    seat: &mut BoardSeat,
    gate: &G,
) -> Result<Share<T>, AuditError>
    requires index { IsWholeIndexOf history.now.schedule.entries index.now }
    requires seat { IsSeatOf board.now seat.old }
    requires jobs { length jobs.now ≡ jobs_of board.now }
    ensures seat { IsSeatOf board.now seat.new }
    ensures jobs { IfOk result (λ s. HasClaimed (jobs_of board.now) (claimed seat.old) (claimed seat.new)
        (map (λ p. p.0) s.found.items)) }
    ensures kept { IfOk result (λ s. AreKept T.keeps M.distance_by history.now.schedule jobs.now
        (jobs_of board.now) s.found.items) }
    ensures ended { IfOk result (λ _. 0 < count_past (jobs_of board.now) (claimed seat.new)) }
    ensures err { IfErr result (λ e. (js : List ℕ) × HasClaimed (jobs_of board.now) (claimed seat.old) (claimed seat.new) js
        × (e ≡ AuditError.NotACommittedQuery
        → Any (λ n. (n < jobs_of board.now) × (is_committed_query history.now.schedule (query_of jobs.now n).0
        ≡ false)) js)) }
    ensures other { IfErr result (λ e. e ≢ AuditError.WorkersOutOfRange) }
{
    let mut found = Vec::new(alloc);
    while let Some(job) = board.claim(seat) {
        gate.enter(job, jobs.len() as u64);
        let kept = match T::of_query(alloc, history, index, jobs[job as usize]) {
            Ok(kept) => kept,
            Err(failed) => return Err(failed),
        };
        if found.push((job, kept)).is_err() {
            return Err(AuditError::NoMemory);
        }
    }
    Ok(Share { found })
}

/// Claims jobs and audits their queries until no job is left. The share has exactly the jobs that the seat claimed in
/// this call, in order, each with the finding of its query. Calls `enter` of the gate before each audit.
///
/// # Errors
/// `NotACommittedQuery` only if a claimed job is not a committed query. `NoMemory` if an allocation failed. After an
/// error the seat keeps its claims.
pub fn work<M: Metric, G: Gate>(
    alloc: Global,
    history: &History<M>,
    jobs: &[TxnId],
    board: &Board,
    seat: &mut BoardSeat,
    gate: &G,
) -> Result<Share, AuditError>
    requires seat { IsSeatOf board.now seat.old }
    requires jobs { length jobs.now ≡ jobs_of board.now }
    ensures seat { IsSeatOf board.now seat.new }
    ensures jobs { IfOk result (λ s. HasClaimed (jobs_of board.now) (claimed seat.old) (claimed seat.new)
        (map (λ p. p.0) s.found.items)) }
    ensures found { IfOk result (λ s. AreFound M.distance_by history.now.schedule jobs.now
        (jobs_of board.now) s.found.items) }
    ensures ended { IfOk result (λ _. 0 < count_past (jobs_of board.now) (claimed seat.new)) }
    ensures err { IfErr result (λ e. (js : List ℕ) × HasClaimed (jobs_of board.now) (claimed seat.old) (claimed seat.new) js
        × (e ≡ AuditError.NotACommittedQuery
        → Any (λ n. (n < jobs_of board.now) × (is_committed_query history.now.schedule (query_of jobs.now n).0
        ≡ false)) js)) }
    ensures other { IfErr result (λ e. e ≢ AuditError.WorkersOutOfRange) }
{
    let Ok(index) = Index::of(alloc, history) else {
        return Err(AuditError::NoMemory);
    };
    claim_all::<M, G, Finding>(alloc, history, &index, jobs, board, seat, gate)
}

/// Runs one worker to its end, with a seat that has claimed nothing.
pub(crate) fn take_turns<M: Metric, G: Gate, T: AuditResult<M> + Drop>(
    alloc: Global,
    history: &History<M>,
    index: &Index,
    jobs: &[TxnId],
    board: &Board,
    mut seat: BoardSeat,
    gate: &G,
) -> Worked<T>
    requires index { IsWholeIndexOf history.now.schedule.entries index.now }
    requires seat { IsSeatOf board.now seat × (claimed seat ≡ []) }
    requires jobs { (length jobs.now ≡ jobs_of board.now) × AreCommitted history.now.schedule jobs.now }
    ensures { IsWorked T.keeps M.distance_by history.now.schedule jobs.now board.now result }
{
    let share = claim_all(alloc, history, index, jobs, board, &mut seat, gate);
    Worked { share, seat }
}
