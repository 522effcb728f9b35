//! Runs the blocks of a plan, each by a session on its own thread. A blocked line is retried, up to 100 times in all,
//! and its last reply counts.
//!
//! A block executes several lines under one hold of the engine's lock while the other blocks wait, so a hold has a
//! bound. The bound grows with the number of lines that the block has executed: the first lines take the lock one by
//! one, so that short blocks still interleave, since a drive is meant to show interleavings. A long block executes
//! up to 512 lines in a hold, about a tenth of a millisecond; waking a sleeping thread takes some tens of microseconds,
//! which a much shorter hold would not outweigh.
//!
//! A hold ends with the last end of a transaction within its bound, so that the block usually locks no item while the
//! others execute; 16 blocks on the same items then make a third fewer retries. A blocked line ends a hold. Rejected:
//! yielding to another thread (`yield_now`) before a retry, which took a hundred times as long while other programs
//! used the processors, and waiting in a loop, which took twice as long.
//!
//! The first touch of memory is slow, and in a hold all threads would wait for it. So a block writes to the buffers
//! of its replies and receipts before its first hold, in parallel with the other blocks.

ghost use Rattle.std.specs.Prelude.{◌≡◌, ◌≤◌, ◌<◌, ◌*◌, [], IfOk, length, vec_capacity};
ghost use Rattle.esr_drive.specs.declared.run.TheConstants.{MAX_LINES};
ghost use Rattle.esr_drive.specs.Runs.{IsBlockRun};

use esr_core::StepError;
use esr_history::{Event, Reply};
use esr_items::Weighted;
use esr_plan::{Call, event_of};
use esr_session::{EventSource, Naming, Receipt, Session, is_blocked};
use std::alloc::{AllocError, Global};
use std::sync::Wait;

/// The maximum number of calls for one line.
const TURNS: u32 = 100;

/// The maximum number of lines that a block executes in one hold of the lock.
const MAX_LINES: usize = 512;

/// A block under way: its calls, the last replies to the first of them, and how often the next one was blocked.
#[derive(Drop)]
struct BlockProgress<'a, 't> {
    calls: &'a [Call<'t>],
    replies: Vec<Reply>,
    blocked: u32,
    ghost fits: { length calls.now ≤ vec_capacity replies },
    ghost count_within_max: { blocked < 100 },
}

impl EventSource for BlockProgress<'_, '_> {
    ghost use Rattle.std.specs.Prelude.{◌≡◌};
    ghost use Rattle.esr_drive.specs.Runs.{IsUnderWay, next_event};

    ghost Became = { λ first receipts now. (now.calls.now ≡ first.calls.now)
        × IsUnderWay now.calls.now now.replies.items now.blocked receipts };

    ghost next = { λ progress. next_event progress.calls.now progress.replies.items };

    fn next(&self) -> Option<Event> {
        let call = self.calls.get(self.replies.len())?;
        Some(event_of(&self.replies, *call))
    }

    fn on_reply(&mut self, receipt: Receipt) {
        if is_blocked(receipt.reply) && self.blocked + 1 < TURNS {
            self.blocked += 1;
        } else {
            self.replies.push_reserved(receipt.reply);
            self.blocked = 0;
        }
    }
}

/// A session after its block, with the last reply to each call, or why the block was not run to its end.
#[derive(Drop)]
pub struct BlockOutcome<N: Naming> {
    pub session: Session<Weighted, N>,
    pub outcome: Result<Vec<Reply>, StepError>,
}

/// Runs a block by a session that has made no call.
pub fn run_block<N: Naming, R: Wait>(
    rt: &R,
    alloc: Global,
    calls: &[Call<'_>],
    session: Session<Weighted, N>,
) -> BlockOutcome<N>
    requires { session ≡ [] }
    ensures run { IfOk result.outcome (λ replies. IsBlockRun calls.now replies.items result.session) }
    ensures upper_bound { length result.session ≤ 100 * length calls.now }
{
    let mut session = session;
    let outcome = call_all(rt, alloc, calls, &mut session);
    BlockOutcome { session, outcome }
}

/// Returns the bound of a block's next hold of the lock, in lines, after `answered` lines.
fn bound_of_hold(answered: usize) -> usize
    ensures { (1 ≤ result) × (result ≤ MAX_LINES) }
{
    if answered < 64 {
        answered / 8 + 1
    } else {
        MAX_LINES.min(answered / 2)
    }
}

/// Returns whether the call ends its transaction if it is accepted.
fn is_end(call: &Call<'_>) -> bool {
    match call {
        Call::Commit { .. } => true,
        Call::Abort { .. } => true,
        _ => false,
    }
}

/// Returns the number of calls up to the last end of a transaction among the first `bound`, or `bound` if none is an end.
fn calls_of_hold(calls: &[Call<'_>], bound: usize) -> usize
    requires { 1 ≤ bound }
    ensures { (1 ≤ result) × (result ≤ bound) }
{
    let within = &calls[..bound.min(calls.len())];
    match within.iter().rposition(is_end) {
        Some(last) => last + 1,
        None => bound,
    }
}

/// Reserves capacity for `replies` replies, and writes to it.
fn touched_capacity(alloc: Global, replies: usize) -> Result<Vec<Reply>, AllocError>
    ensures items { IfOk result (λ fits. fits.items ≡ []) }
    ensures fits { IfOk result (λ fits. replies ≤ vec_capacity fits) }
{
    let mut fits = Vec::from_elem(alloc, Reply::Wrote, replies)?;
    fits.clear();
    Ok(fits)
}

/// Makes the calls, and returns the last replies to them.
fn call_all<N: Naming, R: Wait>(
    rt: &R,
    alloc: Global,
    calls: &[Call<'_>],
    session: &mut Session<Weighted, N>,
) -> Result<Vec<Reply>, StepError>
    requires { session.old ≡ [] }
    ensures run { IfOk result (λ replies. IsBlockRun calls.now replies.items session.new) }
    ensures upper_bound { length session.new ≤ 100 * length calls.now }
{
    let Ok(replies) = touched_capacity(alloc, calls.len()) else {
        return Err(StepError::NoMemory);
    };
    if session.reserve(alloc, calls.len()).is_err() {
        return Err(StepError::NoMemory);
    }
    let mut progress = BlockProgress {
        calls,
        replies,
        blocked: 0,
    };
    while progress.replies.len() < calls.len() {
        let answered = progress.replies.len();
        let upper_bound = calls_of_hold(&calls[answered..], bound_of_hold(answered));
        session.call_several(rt, &mut progress, upper_bound)?;
    }
    let BlockProgress { replies, .. } = progress;
    Ok(replies)
}
