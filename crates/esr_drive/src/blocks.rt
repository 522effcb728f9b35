//! Runs one engine for all blocks, and returns its history and the last replies of each block.

ghost use Rattle.esr_plan.specs.declared.draft.TheConstants.{MAX_BLOCKS};
ghost use Rattle.esr_session.specs.declared.engine_name.TheConstants.{LEDGER_PARTS};
ghost use Rattle.std.specs.Prelude.{◌≡◌, ◌≤◌, [], IfOk, All, length, map, vec_len};
ghost use Rattle.esr_drive.specs.Driven.{DrivesTo};

use crate::threads::{BlockResults, BlockTask, gather, run_blocks};
use esr_board::Gate;
use esr_core::Totals;
use esr_history::{History, NoMemory, Reply};
use esr_items::{Store, Weighted};
use esr_plan::{Call, DriveFault};
use esr_session::{CloseError, Engine, Naming, Session};
use std::alloc::{AllocError, Global};
use std::sync::Wait;
use std::sync::ledger::Blank;
use std::thread::Threads;

/// The result of the engine: the history with its totals, and the last replies of each block.
#[derive(Drop)]
pub struct Driven {
    pub history: History<Weighted>,
    pub totals: Totals,
    pub replies: Vec<Vec<Reply>>,
}

/// Creates a session for each block.
fn sessions_for<N: Naming>(
    alloc: Global,
    engine: &mut Engine<Weighted, N>,
    blocks: usize,
) -> Result<Vec<Session<Weighted, N>>, NoMemory>
    requires number { blocks ≤ MAX_BLOCKS }
    requires first { engine.old.opened ≡ 0 }
    ensures { IfOk result (λ sessions. (vec_len sessions ≡ blocks) × All (λ session. session ≡ []) sessions.items) }
{
    if blocks == 0 {
        return Ok(Vec::new(alloc));
    }
    engine.open_sessions(blocks)
}

/// Pairs each session with its block.
fn tasks_of<'a, 't, N: Naming>(
    alloc: Global,
    blocks: &'a [Vec<Call<'t>>],
    sessions: Vec<Session<Weighted, N>>,
) -> Result<Vec<BlockTask<'a, 't, N>>, AllocError>
    requires { (length blocks.now ≡ vec_len sessions) × All (λ session. session ≡ []) sessions.items }
    ensures len { IfOk result (λ v. vec_len v ≡ length blocks.now) }
    ensures calls { IfOk result (λ v. map (λ task. task.calls.now) v.items ≡ map (λ b. b.items) blocks.entry.now) }
    ensures fresh { IfOk result (λ v. All (λ task. task.session ≡ []) v.items) }
{
    let mut sessions = sessions;
    let mut tasks = Vec::with_capacity(alloc, blocks.len())?;
    for i in 0..blocks.len() {
        match sessions.pop() {
            Some(session) => tasks.push_reserved(BlockTask {
                session,
                number: i as u64,
                calls: blocks[i].as_slice(),
            }),
            None => unreachable!(),
        }
    }
    Ok(tasks)
}

/// Runs the blocks on one engine, which N names.
pub fn drive_blocks<N: Naming + Send + Sync, R: Threads + Wait + Sync, G: Gate + Sync>(
    rt: &R,
    alloc: Global,
    blank: Blank,
    items: Store,
    metric: Weighted,
    blocks: &[Vec<Call<'_>>],
    gate: &G,
) -> Result<Driven, DriveFault>
    requires name { blank.name ≡ N.name }
    requires parts { (blank.parts ≡ N.parts) × (blank.parts ≡ LEDGER_PARTS) }
    requires opening { map (λ w. w.committed) items ≡ N.opening }
    requires weights { metric ≡ N.weights }
    requires blocks { length blocks.now ≤ MAX_BLOCKS }
    ensures { DrivesTo (map (λ w. w.committed) items) metric (map (λ b. b.items) blocks.now) result }
{
    let mut engine = Engine::<Weighted, N>::new(alloc, blank, items, metric)?;
    let sessions = sessions_for(alloc, &mut engine, blocks.len())?;
    let tasks = tasks_of(alloc, blocks, sessions)?;
    let all = run_blocks(rt, alloc, tasks, gate)?;
    let BlockResults { sessions, replies } = match gather(alloc, all) {
        Ok(gathered) => gathered,
        Err(fault) => return Err(fault),
    };
    match engine.close(rt, sessions) {
        Ok(closed) => Ok(Driven {
            history: closed.history,
            totals: closed.totals,
            replies,
        }),
        Err(refused) => match refused.error {
            CloseError::NoMemory => Err(DriveFault::NoMemory),
            _ => Err(DriveFault::Close),
        },
    }
}
