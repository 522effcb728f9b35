//! Runs blocks on separate threads, joins them, and collects their outcomes. If blocks did not run to their ends, one
//! fault is reported, in a fixed order.

ghost use Rattle.std.specs.Prelude.{◌≡◌, ◌⊎◌, ◌≤◌, ◌*◌, ◌==◌, [], true, Ok, Some, IfOk, IfErr, All, length, map, vec_len};
ghost use Rattle.esr_drive.specs.Faults.{is_engine_fault, reported_fault, confirmed, most_severe};
ghost use Rattle.esr_base.specs.declared.limits.TheConstants.{MAX_ENTRIES};
ghost use Rattle.esr_plan.specs.declared.fault.DriveFault.{DriveFault};
ghost use Rattle.esr_session.specs.Receipts.{count_in};
ghost use Rattle.esr_drive.specs.Runs.{IsBlockRun, AllPairs};

use crate::run::{BlockOutcome, run_block};
use esr_board::Gate;
use esr_core::StepError;
use esr_history::{MAX_ENTRIES, Reply};
use esr_items::Weighted;
use esr_plan::{Call, DriveFault};
use esr_session::{HasReceipts, Naming, Session};
use std::alloc::{AllocError, Global};
use std::sync::Wait;
use std::thread;
use std::thread::Threads;

/// A session that has made no call, and the block that it is to run.
#[derive(Drop)]
pub struct BlockTask<'a, 't, N: Naming> {
    pub session: Session<Weighted, N>,
    pub number: u64,
    pub calls: &'a [Call<'t>],
}

/// Runs each block by its session, on its own thread.
pub fn run_blocks<'a, 't, N: Naming + Send + Sync, R: Threads + Wait + Sync, G: Gate + Sync>(
    rt: &R,
    alloc: Global,
    tasks: Vec<BlockTask<'a, 't, N>>,
    gate: &G,
) -> Result<Vec<BlockOutcome<N>>, AllocError>
    requires { All (λ task. task.session ≡ []) tasks.items }
    ensures len { IfOk result (λ v. vec_len v ≡ vec_len tasks.entry) }
    ensures runs { IfOk result (λ v. AllPairs (λ task ran.
        IfOk ran.outcome (λ replies. IsBlockRun task.calls.now replies.items ran.session)) tasks.entry.items v.items) }
    ensures upper_bound { IfOk result (λ v. AllPairs (λ task ran. length ran.session ≤ 100 * length task.calls.now)
        tasks.entry.items v.items) }
{
    let blocks = tasks.len() as u64;
    thread::map_vec(
        rt,
        tasks,
        &|task: BlockTask<'_, '_, N>| -> BlockOutcome<N>
            requires { task.session ≡ [] }
            ensures run { IfOk result.outcome (λ replies. IsBlockRun task.entry.calls.now replies.items result.session) }
            ensures upper_bound { length result.session ≤ 100 * length task.entry.calls.now }
        {
            gate.enter(task.number, blocks);
            run_block(rt, alloc, task.calls, task.session)
        },
    )
}

/// The sessions after their blocks, with the last replies of each.
#[derive(Drop)]
pub struct BlockResults<N: Naming> {
    pub sessions: Vec<Session<Weighted, N>>,
    pub replies: Vec<Vec<Reply>>,
}

/// Collects the outcomes of the blocks. If blocks did not run to their ends, the fault is the first of out of memory,
/// a full history and a closed engine that occurred in one of them; and a full history is reported only if the
/// receipts confirm it.
pub fn gather<N: Naming>(
    alloc: Global,
    all: Vec<BlockOutcome<N>>,
) -> Result<BlockResults<N>, DriveFault>
    ensures sessions { IfOk result (λ g. g.sessions.items ≡ map (λ ran. ran.session) all.items) }
    ensures replies { IfOk result (λ g. map (λ ran. ran.outcome) all.items ≡ map (λ r. Ok r) g.replies.items) }
    ensures engine { IfErr result (λ e. is_engine_fault e ≡ true) }
    ensures full { IfErr result (λ e. e ≡ DriveFault.HistoryFull
        → count_in (map (λ ran. ran.session) all.items) ≡ MAX_ENTRIES) }
    ensures reported { IfErr result (λ e. (e ≡ DriveFault.NoMemory)
        ⊎ ((fault : DriveFault) × (reported_fault (map (λ ran. ran.outcome) all.items) ≡ Some fault)
        × (e ≡ confirmed (count_in (map (λ ran. ran.session) all.items)) fault))) }
{
    let mut sessions = Vec::new(alloc);
    let mut replies = Vec::new(alloc);
    let mut worst = None;
    for ran in all {
        let BlockOutcome { session, outcome } = ran;
        if sessions.push(session).is_err() {
            return Err(DriveFault::NoMemory);
        }
        match outcome {
            Ok(list) => {
                if replies.push(list).is_err() {
                    return Err(DriveFault::NoMemory);
                }
            }
            Err(error) => worst = Some(most_severe(worst, error)),
        }
    }
    match worst {
        Some(fault) => Err(confirm(fault, sessions.as_slice())),
        None => Ok(BlockResults { sessions, replies }),
    }
}

/// Returns the fault of blocks that left these receipts. No contract states the number of entries in the history when
/// a session reports that it is full; after all threads are joined, the number of receipts shows it, since each entry
/// has one.
fn confirm<N: Naming>(fault: DriveFault, sessions: &[Session<Weighted, N>]) -> DriveFault
    ensures { result ≡ confirmed (count_in sessions.now) fault }
{
    match fault {
        DriveFault::HistoryFull if !is_full(sessions) => DriveFault::Close,
        fault => fault,
    }
}

/// Returns whether the number of receipts is the capacity of a history.
fn is_full<N: Naming>(sessions: &[Session<Weighted, N>]) -> bool
    ensures { result ≡ (count_in sessions.now == MAX_ENTRIES) }
{
    let mut left = MAX_ENTRIES;
    for session in sessions {
        let receipts = session.receipts().len();
        if receipts > left {
            return false;
        }
        left -= receipts;
    }
    left == 0
}

/// Returns the fault reported after one more error.
fn most_severe(reported: Option<DriveFault>, error: StepError) -> DriveFault
    ensures { result ≡ most_severe reported error }
{
    match error {
        StepError::NoMemory => DriveFault::NoMemory,
        StepError::HistoryFull => match reported {
            Some(DriveFault::NoMemory) => DriveFault::NoMemory,
            _ => DriveFault::HistoryFull,
        },
        StepError::EngineClosed => reported.unwrap_or(DriveFault::Close),
    }
}
