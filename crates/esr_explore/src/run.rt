//! Runs the blocks of a plan on one thread, one line at a time, in the order of a list of block numbers.
//!
//! A block is the list of lines of one session of a drive. In a turn a block executes its next line. Each entry of the list
//! is the number of the block that has the next turn. If a line is blocked, the block tries it again at its next turn, 100
//! tries in all, as in a drive. A retry uses a turn of the list, so lines may be left when the list ends. They are executed
//! afterwards, round-robin.

ghost use Rattle.std.specs.Prelude.{◌≡◌, ℕ, List, [], ◌<◌, ◌≤◌, IfOk, IfNone, OnOk, length, map, slice_index_or};
ghost use Rattle.std.specs.List.{range_with_len};
ghost use Rattle.esr_items.specs.Weights.{weighted};
ghost use Rattle.esr_base.specs.declared.limits.TheConstants.{MAX_ENTRIES};
ghost use Rattle.esr_history.specs.Machine.{IsLegal};
ghost use Rattle.esr_plan.specs.Plan.{weights_of};
ghost use Rattle.esr_plan.specs.DrivePlans.{IsSound};
ghost use Rattle.esr_explore.specs.Turns.{AreDone, IsRun, initial_run_state, no_progress, history_after, progress_after, next_event, run_state, after_turn, after_turns};

use crate::progress::BlockProgress;
use esr_core::{Machine, StepError};
use esr_history::{Event, History};
use esr_items::{Store, Weighted};
use esr_plan::{Call, DriveFault, DrivePlan, event_of, metric_of};
use std::alloc::{AllocError, Global};

/// The result of a run: the history, and the progress of each block.
#[derive(Drop)]
pub struct Run {
    pub history: History<Weighted>,
    pub all_progress: Vec<BlockProgress>,
}

/// Returns the event of the next line of a block, if one is left.
fn next_event(calls: &[Call<'_>], progress: &BlockProgress) -> Option<Event>
    ensures { result ≡ next_event calls.now progress.now }
{
    let replies = progress.replies();
    match calls.get(replies.len()) {
        Some(call) => Some(event_of(replies, *call)),
        None => None,
    }
}

/// Executes the next line of the block whose lines are `calls`, if one is left.
fn execute_next_line(
    machine: &mut Machine<Weighted>,
    calls: &[Call<'_>],
    progress: &mut BlockProgress,
) -> Result<(), StepError>
    ensures machine { OnOk result (machine.new ≡ history_after (next_event calls.now progress.old) machine.old) }
    ensures progress { OnOk result
        (progress.new ≡ progress_after (next_event calls.now progress.old) machine.old progress.old) }
{
    let Some(event) = next_event(calls, progress) else {
        return Ok(());
    };
    match machine.step(event) {
        Ok(reply) => match progress.add_reply(reply) {
            Ok(()) => Ok(()),
            Err(_) => Err(StepError::NoMemory),
        },
        Err(error) => Err(error),
    }
}

/// Executes the next line of the block with this number, if one is left.
fn execute_turn(
    machine: &mut Machine<Weighted>,
    blocks: &[Vec<Call<'_>>],
    all_progress: &mut Vec<BlockProgress>,
    block: usize,
) -> Result<(), StepError>
    requires { length all_progress.old.items ≤ length blocks.now }
    ensures run_state { OnOk result (run_state machine.new all_progress.new.items
        ≡ after_turn (map (λ b. b.items) blocks.now) (run_state machine.old all_progress.old.items) block) }
    ensures len { length all_progress.new.items ≡ length all_progress.old.items }
{
    if block >= all_progress.len() {
        return Ok(());
    }
    execute_next_line(machine, blocks[block].as_slice(), &mut all_progress[block])
}

/// Executes these turns.
fn take_turns(
    machine: &mut Machine<Weighted>,
    blocks: &[Vec<Call<'_>>],
    all_progress: &mut Vec<BlockProgress>,
    order: &[u8],
) -> Result<(), StepError>
    requires { length all_progress.old.items ≤ length blocks.now }
    ensures run_state { OnOk result (run_state machine.new all_progress.new.items
        ≡ after_turns (map (λ b. b.items) blocks.now) (run_state machine.old all_progress.old.items) order.now) }
    ensures len { length all_progress.new.items ≡ length all_progress.old.items }
{
    for block in order {
        execute_turn(machine, blocks, all_progress, *block as usize)?;
    }
    Ok(())
}

/// Returns the progress of `count` blocks that have executed no line.
fn new_progress(alloc: Global, count: usize) -> Result<Vec<BlockProgress>, AllocError>
    ensures { IfOk result (λ all_progress. all_progress.items ≡ map (λ _. no_progress) (range_with_len 0 count)) }
{
    let mut all_progress = Vec::new(alloc);
    for _block in 0..count {
        all_progress.push(BlockProgress::new(alloc))?;
    }
    Ok(all_progress)
}

/// Returns the first block, at index `from` or later, that has a line left.
fn find_unfinished(
    blocks: &[Vec<Call<'_>>],
    all_progress: &[BlockProgress],
    from: usize,
) -> Option<usize>
    requires { length all_progress.now ≡ length blocks.now }
    ensures { IfNone result ((k : ℕ) → from ≤ k → k < length blocks.now
        → length (slice_index_or all_progress.now k no_progress).replies
        ≡ length (slice_index_or (map (λ b. b.items) blocks.now) k [])) }
{
    for block in from..all_progress.len() {
        if blocks[block].len() != all_progress[block].replies().len() {
            return Some(block);
        }
    }
    None
}

/// Returns the block that has the next turn of a round-robin: the first with a line left at index `from` or later, or else
/// the first with a line left.
fn next_in_round(
    blocks: &[Vec<Call<'_>>],
    all_progress: &[BlockProgress],
    from: usize,
) -> Option<usize>
    requires { length all_progress.now ≡ length blocks.now }
    ensures { IfNone result (AreDone (map (λ b. b.items) blocks.now) all_progress.now) }
{
    match find_unfinished(blocks, all_progress, from) {
        Some(block) => Some(block),
        None => find_unfinished(blocks, all_progress, 0),
    }
}

/// Executes the remaining lines of the blocks, round-robin.
fn finish(
    machine: &mut Machine<Weighted>,
    blocks: &[Vec<Call<'_>>],
    all_progress: &mut Vec<BlockProgress>,
) -> Result<(), StepError>
    requires { length all_progress.old.items ≡ length blocks.now }
    ensures run_state { OnOk result ((rest : List ℕ) × (run_state machine.new all_progress.new.items
        ≡ after_turns (map (λ b. b.items) blocks.now) (run_state machine.old all_progress.old.items) rest)) }
    ensures done { OnOk result (AreDone (map (λ b. b.items) blocks.now) all_progress.new.items) }
{
    let mut from = 0;
    for _turn in 0..u64::MAX {
        let Some(block) = next_in_round(blocks, all_progress, from) else {
            return Ok(());
        };
        execute_turn(machine, blocks, all_progress, block)?;
        from = block.saturating_add(1);
    }
    // (not reached: a line has at most 100 tries, and each turn uses one)
    Err(StepError::NoMemory)
}

/// Creates a machine with the items and weights of a plan.
fn machine_of(alloc: Global, drive_plan: &DrivePlan<'_>) -> Result<Machine<Weighted>, DriveFault>
    requires { IsSound drive_plan.now }
    ensures { IfOk result (λ m. m ≡ (initial_run_state drive_plan.now.values.items (weights_of drive_plan.now.weights.items)
        (map (λ b. b.items) drive_plan.now.blocks.items)).history) }
{
    let items = Store::of_valid(alloc, &drive_plan.values)?;
    let metric = metric_of(alloc, drive_plan.weights.as_slice())?;
    let machine = Machine::new(alloc, items, metric)?;
    Ok(machine)
}

/// Converts the error of a step to the error of a drive.
fn fault_of(error: StepError) -> DriveFault {
    match error {
        StepError::HistoryFull => DriveFault::HistoryFull,
        _ => DriveFault::NoMemory,
    }
}

/// Runs the blocks of a plan: first the turns in `order`, then the remaining lines, round-robin.
pub fn run_interleaving(
    alloc: Global,
    drive_plan: &DrivePlan<'_>,
    order: &[u8],
) -> Result<Run, DriveFault>
    requires { IsSound drive_plan.now }
    ensures run { IfOk result (λ r. IsRun drive_plan.now.values.items (weights_of drive_plan.now.weights.items)
        (map (λ b. b.items) drive_plan.now.blocks.items) order.now (run_state r.history.schedule r.all_progress.items)) }
    ensures legal { IfOk result (λ r. IsLegal weighted r.history.schedule) }
    ensures entries_within_limit { IfOk result (λ r. length r.history.schedule.entries ≤ MAX_ENTRIES) }
{
    let blocks = drive_plan.blocks.as_slice();
    let mut machine = machine_of(alloc, drive_plan)?;
    let mut all_progress = new_progress(alloc, blocks.len())?;
    if let Err(error) = take_turns(&mut machine, blocks, &mut all_progress, order) {
        return Err(fault_of(error));
    }
    if let Err(error) = finish(&mut machine, blocks, &mut all_progress) {
        return Err(fault_of(error));
    }
    let history = machine.close();
    Ok(Run {
        history,
        all_progress,
    })
}
