//! Rounds. A round makes a pass, which marks updates that every closed set of the bound's cost contains, and then marks the
//! predecessors of marked updates. So the marked set is closed after each round. The rounds end when one reaches the last
//! update and adds no predecessor.
//!
//! Between two rounds, all updates before a position are marked, and the states at this position are known. The next pass starts
//! there, and keeps the states at two *stops*. Later passes start at the last stop before which all updates are marked. One stop
//! is the end of the last pass, in the first round a guess of the caller. The other one is the first update that is not marked
//! when the round starts.
//!
//! Once a pass has left an update without a mark, it soon finds few more to mark until predecessors have been marked. So it
//! ends early after `MAX_UNMARKED` updates in a row without a mark. Its marks are sound if no later update decreases the sum of
//! the amounts less the loans, starting from the states at its end (`IsEnough`). This is an assumption until a pass has visited
//! the later updates. The next pass must have the same amounts and loans at this position, which is tested at run time. Then
//! the assumption about its own end implies the one about the end of the last pass. At the last update nothing is left to
//! assume.
//!
//! The number of visits is bounded, and not the number of rounds, since a round that starts late is short.
//!
//! Rejected: passes that all visit the last update, since their visits grow faster than the number of updates. Also rejected: an
//! early end without the test. `IsUpdateApplied` bounds the amounts after an update and does not determine them, so the contract
//! of `pass` does not exclude that a later pass has other amounts there. Also rejected: ends at fixed distances, which cost more
//! visits in short histories than they save.
ghost use Rattle.std.specs.Prelude.{◌≡◌, ◌≤◌, ◌<◌, ◌+◌, ◌⊎◌, ℕ, Bool, List, IfOk, IfSome, length, map, nat_lt, true};
ghost use Rattle.esr_history.specs.Queries.{must};
ghost use Rattle.esr_order.specs.Placements.{IsClosed};
ghost use Rattle.esr_bound.specs.Amounts.{AreForced, among_marked, mark_at};
ghost use Rattle.esr_stream.specs.Passes.{IsPrefixMarked, AreEnough, AreForcedAndClosed, AreStates, HasBound, HasStates, IsEnough, IsPassInvariant, IsSame, KeepsEnough, KeepsInvariant, NoneMarkedFrom, StayMarked, amounts_sum, loans_sum, unowed_at};
ghost use Rattle.esr_stream.specs.Query.{cost_in, updates_of};

use crate::amounts::ProposedAmounts;
use crate::closing::{close, is_marked};
use crate::items::{ItemState, covered_copy, have_same_amounts, sum_of};
use crate::pass::{EarlyEnd, pass};
use crate::query::AuditedQuery;
use esr_items::Metric;
use std::alloc::{AllocError, Global};

/// The maximum number of updates that the passes of `mark_least` visit, divided by the number of all updates plus 1, since also
/// an audit without updates needs a round.
const MAX_VISITS_PER_UPDATE: usize = 64;

/// How many updates in a row a pass leaves without a mark before it ends early. With half of this number, the load `few` of
/// `bench/audit` takes 39 per cent more time.
const MAX_UNMARKED: usize = 1024;

/// Returns `count` marks, of which the first `set_count` are set.
///
/// # Errors
///
/// An allocation failed.
pub fn first_marks(alloc: Global, count: usize, set_count: usize) -> Result<Vec<bool>, AllocError>
    ensures len { IfOk result (λ marks. length marks.items ≡ count) }
    ensures marks { IfOk result (λ marks. (i : ℕ) → i < count → mark_at marks.items i ≡ nat_lt i set_count) }
{
    let mut marks = Vec::with_capacity(alloc, count)?;
    for i in 0..count {
        marks.push(i < set_count)?;
    }
    Ok(marks)
}

/// Returns a copy of these states.
///
/// # Errors
///
/// An allocation failed.
pub fn copy_of(alloc: Global, states: &[ItemState]) -> Result<Vec<ItemState>, AllocError>
    ensures { IfOk result (λ copy. copy.items ≡ states.now) }
{
    let mut copy = Vec::with_capacity(alloc, states.len())?;
    copy.extend_from_slice(states)?;
    Ok(copy)
}

/// A position, and the states there if all updates before it are marked.
#[derive(Drop)]
pub struct MarkedPrefix {
    pub len: usize,
    pub states: Vec<ItemState>,
}

/// The positions where a pass keeps the states. The last one is its end.
#[derive(Drop)]
pub struct Stops {
    pub first: MarkedPrefix,
    pub second: MarkedPrefix,
    pub end: MarkedPrefix,
}

/// The result of a round.
#[derive(Drop)]
pub struct RoundEnd {
    /// Whether the round marked a predecessor that was not marked before.
    pub has_added: bool,
    /// The positions where later rounds can start if all updates before them are marked.
    pub stops: Stops,
}

/// Makes a pass over the updates between two positions. Returns the states where it ends, or `None` if an update decreases the
/// sum of the amounts less the loans.
fn pass_to<M: Metric>(
    alloc: Global,
    query: &AuditedQuery<M>,
    from: usize,
    to: usize,
    early_end: EarlyEnd,
    proposed: &ProposedAmounts,
    states: &mut [ItemState],
    marks: &mut [bool],
) -> Result<Option<MarkedPrefix>, AllocError>
    requires from_le_to { from ≤ to }
    requires to_le_len { to ≤ length (updates_of query.now) }
    requires states { length states.old ≡ length query.now.schedule.opening }
    requires marks { length marks.old ≡ length (updates_of query.now) }
    ensures states_len { length states.new ≡ length states.old }
    ensures len { length marks.new ≡ length marks.old }
    ensures stay { StayMarked marks.old marks.new }
    ensures low { IfOk result (λ found. IfSome found (λ stop. from ≤ stop.len)) }
    ensures high { IfOk result (λ found. IfSome found (λ stop. stop.len ≤ to)) }
    ensures same_amounts { IfOk result (λ found. IfSome found (λ stop. (x : ℕ) → unowed_at stop.states.items x ≡ unowed_at states.new x)) }
    ensures pass_invariant { IfOk result (λ found. IfSome found (λ stop.
        KeepsInvariant (length query.now.schedule.opening) (cost_in M.distance_by query.now) query.now.schedule query.now.query from stop.len marks.old states.old marks.new states.new)) }
    ensures enough { IfOk result (λ found. IfSome found (λ stop.
        KeepsEnough (length query.now.schedule.opening) (cost_in M.distance_by query.now) query.now.schedule query.now.query from stop.len marks.old states.old states.new)) }
    ensures stop { IfOk result (λ found. IfSome found (λ stop. (worth : ℕ) (seeds : List Bool)
        → IsPassInvariant (length query.now.schedule.opening) (cost_in M.distance_by query.now) query.now.schedule query.now.query worth from seeds marks.old states.old
        → HasStates (cost_in M.distance_by query.now) query.now.schedule query.now.query stop)) }
{
    let found = pass(alloc, query, from, to, early_end, proposed, states, marks)?;
    let Some(len) = found else {
        return Ok(None);
    };
    let kept = covered_copy(alloc, states)?;
    Ok(Some(MarkedPrefix { len, states: kept }))
}

/// Makes a pass, and keeps the states at two positions, unless it ends before them, and at its end. Returns `None` if an update
/// decreases the sum of the amounts less the loans.
fn pass_with_stops<M: Metric>(
    alloc: Global,
    query: &AuditedQuery<M>,
    from: usize,
    first: usize,
    second: usize,
    early_end: EarlyEnd,
    proposed: &ProposedAmounts,
    states: &mut [ItemState],
    marks: &mut [bool],
) -> Result<Option<Stops>, AllocError>
    requires from_le_first { from ≤ first }
    requires first_le_second { first ≤ second }
    requires second_le_len { second ≤ length (updates_of query.now) }
    requires states { length states.old ≡ length query.now.schedule.opening }
    requires marks { length marks.old ≡ length (updates_of query.now) }
    ensures len { length marks.new ≡ length marks.old }
    ensures stay { StayMarked marks.old marks.new }
    ensures first { IfOk result (λ found. IfSome found (λ stops. from ≤ stops.first.len)) }
    ensures second { IfOk result (λ found. IfSome found (λ stops. stops.first.len ≤ stops.second.len)) }
    ensures end { IfOk result (λ found. IfSome found (λ stops. stops.second.len ≤ stops.end.len)) }
    ensures within { IfOk result (λ found. IfSome found (λ stops. stops.end.len ≤ length (updates_of query.now))) }
    ensures pass_invariant { IfOk result (λ found. IfSome found (λ stops.
        KeepsInvariant (length query.now.schedule.opening) (cost_in M.distance_by query.now) query.now.schedule query.now.query from stops.end.len marks.old states.old marks.new states.new)) }
    ensures enough { IfOk result (λ found. IfSome found (λ stops. (worth : ℕ) (seeds : List Bool)
        → IsPassInvariant (length query.now.schedule.opening) (cost_in M.distance_by query.now) query.now.schedule query.now.query worth from seeds marks.old states.old
        → IsEnough (length query.now.schedule.opening) (cost_in M.distance_by query.now) query.now.schedule query.now.query stops.end
        → AreEnough (length query.now.schedule.opening) (cost_in M.distance_by query.now) query.now.schedule query.now.query stops.end.len (unowed_at states.new)
        × IsEnough (length query.now.schedule.opening) (cost_in M.distance_by query.now) query.now.schedule query.now.query stops.first
        × IsEnough (length query.now.schedule.opening) (cost_in M.distance_by query.now) query.now.schedule query.now.query stops.second)) }
    ensures stops { IfOk result (λ found. IfSome found (λ stops. (worth : ℕ) (seeds : List Bool)
        → IsPassInvariant (length query.now.schedule.opening) (cost_in M.distance_by query.now) query.now.schedule query.now.query worth from seeds marks.old states.old
        → HasStates (cost_in M.distance_by query.now) query.now.schedule query.now.query stops.first
        × HasStates (cost_in M.distance_by query.now) query.now.schedule query.now.query stops.second)) }
{
    let found_first = pass_to(
        alloc, query, from, first, early_end, proposed, states, marks,
    )?;
    let Some(first_stop) = found_first else {
        return Ok(None);
    };
    let found_second = pass_to(
        alloc,
        query,
        first_stop.len,
        second,
        early_end,
        proposed,
        states,
        marks,
    )?;
    let Some(second_stop) = found_second else {
        return Ok(None);
    };
    let count = query.update_count();
    let found_end = pass_to(
        alloc,
        query,
        second_stop.len,
        count,
        early_end,
        proposed,
        states,
        marks,
    )?;
    let Some(end) = found_end else {
        return Ok(None);
    };
    Ok(Some(Stops {
        first: first_stop,
        second: second_stop,
        end,
    }))
}

/// Returns whether two prefixes have the same length, amounts and loans.
fn is_same(a: &MarkedPrefix, b: &MarkedPrefix) -> bool
    ensures { result ≡ true → IsSame a.now b.now }
{
    a.len == b.len && have_same_amounts(&a.states, &b.states)
}

/// Returns whether a pass had the amounts and loans of `last_end` at one of its stops.
fn has_stop(stops: &Stops, last_end: &MarkedPrefix) -> bool
    ensures { result ≡ true → IsSame stops.now.first last_end.now ⊎ IsSame stops.now.second last_end.now }
{
    is_same(&stops.first, last_end) || is_same(&stops.second, last_end)
}

/// Makes one pass, and marks the predecessors of marked updates. Returns `None` if an update decreases the sum of the amounts less
/// the loans, or if the pass has at the end of the last one other amounts than that one had.
///
/// # Errors
///
/// An allocation failed.
pub fn round<M: Metric>(
    alloc: Global,
    query: &AuditedQuery<M>,
    from: usize,
    first: usize,
    second: usize,
    max_unmarked: usize,
    proposed: &ProposedAmounts,
    start_states: &[ItemState],
    last_end: &MarkedPrefix,
    marks: &mut [bool],
) -> Result<Option<RoundEnd>, AllocError>
    requires mandatory_within { length (must query.now.schedule query.now.query) ≤ from }
    requires from_le_first { from ≤ first }
    requires first_le_second { first ≤ second }
    requires second_le_len { second ≤ length (updates_of query.now) }
    requires loans_within_amounts { loans_sum start_states.now ≤ amounts_sum start_states.now }
    requires marks { length marks.old ≡ length (updates_of query.now) }
    requires none_marked { NoneMarkedFrom last_end.now.len marks.old }
    requires prefix_marked { IsPrefixMarked from marks.old }
    requires start_states { (ms : List Bool) → IsPrefixMarked from ms
        → AreStates (cost_in M.distance_by query.now) query.now.schedule query.now.query from ms start_states.now }
    ensures len { length marks.new ≡ length marks.old }
    ensures stay { StayMarked marks.old marks.new }
    ensures none_marked { IfOk result (λ found. IfSome found (λ end. NoneMarkedFrom end.stops.end.len marks.new)) }
    ensures forced { IfOk result (λ found. IfSome found (λ end. (worth : ℕ) → worth + loans_sum start_states.now ≤ amounts_sum start_states.now
        → (IsEnough (length query.now.schedule.opening) (cost_in M.distance_by query.now) query.now.schedule query.now.query last_end.now → AreForced (length query.now.schedule.opening) (cost_in M.distance_by query.now) query.now.schedule query.now.query worth marks.old)
        → IsEnough (length query.now.schedule.opening) (cost_in M.distance_by query.now) query.now.schedule query.now.query end.stops.end
        → AreForced (length query.now.schedule.opening) (cost_in M.distance_by query.now) query.now.schedule query.now.query worth marks.new × HasBound (length query.now.schedule.opening) (cost_in M.distance_by query.now) query.now.schedule query.now.query worth)) }
    ensures closed { IfOk result (λ found. IfSome found (λ _. IsClosed query.now.schedule query.now.query (among_marked (updates_of query.now) marks.new))) }
    ensures first { IfOk result (λ found. IfSome found (λ end. (from ≤ end.stops.first.len) × (end.stops.first.len ≤ end.stops.end.len))) }
    ensures second { IfOk result (λ found. IfSome found (λ end. (from ≤ end.stops.second.len) × (end.stops.second.len ≤ end.stops.end.len))) }
    ensures end { IfOk result (λ found. IfSome found (λ end. (from ≤ end.stops.end.len) × (end.stops.end.len ≤ length (updates_of query.now)))) }
    ensures stops { IfOk result (λ found. IfSome found (λ end. HasStates (cost_in M.distance_by query.now) query.now.schedule query.now.query end.stops.first
        × HasStates (cost_in M.distance_by query.now) query.now.schedule query.now.query end.stops.second)) }
{
    let _invariant = query.history(); // brings the invariant into the proof
    let mut states = copy_of(alloc, start_states)?;
    let early_end = EarlyEnd {
        least: last_end.len,
        max_unmarked,
    };
    let found = pass_with_stops(
        alloc,
        query,
        from,
        first,
        second,
        early_end,
        proposed,
        &mut states,
        marks,
    )?;
    let Some(stops) = found else {
        return Ok(None);
    };
    if !has_stop(&stops, last_end) {
        return Ok(None);
    }
    let prefix = marked_prefix_len(marks, from);
    let has_added = close(alloc, query, prefix, stops.end.len, marks)?;
    Ok(Some(RoundEnd { has_added, stops }))
}

/// Returns the later one of two prefixes if all updates before it are marked, and the earlier one otherwise. The first
/// `marked_len` updates are marked.
fn later_prefix(earlier: MarkedPrefix, later: MarkedPrefix, marked_len: usize) -> MarkedPrefix
    ensures { (result ≡ earlier) ⊎ ((result ≡ later) × (later.len ≤ marked_len)) }
{
    if later.len <= marked_len {
        later
    } else {
        earlier
    }
}

/// Returns a copy of a prefix.
fn copy_of_prefix(alloc: Global, prefix: &MarkedPrefix) -> Result<MarkedPrefix, AllocError>
    ensures len { IfOk result (λ copy. copy.len ≡ prefix.now.len) }
    ensures states { IfOk result (λ copy. copy.states.items ≡ prefix.now.states.items) }
{
    let states = copy_of(alloc, &prefix.states)?;
    Ok(MarkedPrefix {
        len: prefix.len,
        states,
    })
}

/// Returns whether a round is the last one: it visited all `count` updates and added no predecessor.
fn is_final(has_added: bool, end: usize, count: usize) -> bool
    ensures { result ≡ true → end ≡ count }
{
    !has_added && end == count
}

/// Returns how many updates in a row the next pass leaves without a mark before it ends early: any number if the last round added
/// no predecessor.
fn next_max_unmarked(max_unmarked: usize, has_added: bool) -> usize {
    if has_added { max_unmarked } else { usize::MAX }
}

/// Returns whether the sum of the amounts less the loans is at least `worth`.
fn is_worth(states: &[ItemState], worth: u64) -> bool
    ensures { result ≡ true → worth + loans_sum states.now ≤ amounts_sum states.now }
{
    match sum_of(states) {
        Some(sum) => worth <= sum,
        None => false,
    }
}

/// Makes rounds from a marked prefix until one over all updates adds no predecessor. The first one keeps the states at
/// `checkpoint`. If it returns a prefix, the marked set is closed, every closed set of cost `worth` contains it, and no closed set
/// costs less. The caller tests whether it costs `worth`.
///
/// # Errors
///
/// An allocation failed.
pub fn mark_least<M: Metric>(
    alloc: Global,
    query: &AuditedQuery<M>,
    start: MarkedPrefix,
    checkpoint: usize,
    proposed: &ProposedAmounts,
    worth: u64,
    marks: &mut [bool],
) -> Result<Option<MarkedPrefix>, AllocError>
    requires mandatory_within { length (must query.now.schedule query.now.query) ≤ start.len }
    requires start_le_checkpoint { start.len ≤ checkpoint }
    requires checkpoint_le_len { checkpoint ≤ length (updates_of query.now) }
    requires marks { length marks.old ≡ length (updates_of query.now) }
    requires prefix_marked { IsPrefixMarked start.len marks.old }
    requires none_marked { NoneMarkedFrom start.len marks.old }
    requires states { HasStates (cost_in M.distance_by query.now) query.now.schedule query.now.query start }
    requires forced { AreForced (length query.now.schedule.opening) (cost_in M.distance_by query.now) query.now.schedule query.now.query worth marks.old }
    ensures len { length marks.new ≡ length marks.old }
    ensures within { IfOk result (λ found. IfSome found (λ prefix. prefix.len ≤ length (updates_of query.now))) }
    ensures prefix_marked { IfOk result (λ found. IfSome found (λ prefix. IsPrefixMarked prefix.len marks.new)) }
    ensures states { IfOk result (λ found. IfSome found (λ prefix. HasStates (cost_in M.distance_by query.now) query.now.schedule query.now.query prefix)) }
    ensures forced_and_closed { IfOk result (λ found. IfSome found (λ _.
        AreForcedAndClosed (length query.now.schedule.opening) (cost_in M.distance_by query.now) query.now.schedule query.now.query worth marks.new)) }
{
    let _invariant = query.history(); // brings the invariant into the proof
    let count = query.update_count();
    let mut prefix = start;
    let mut last_end = copy_of_prefix(alloc, &prefix)?;
    let mut last_stop = checkpoint;
    let mut max_unmarked = MAX_UNMARKED;
    let mut visits_left = MAX_VISITS_PER_UPDATE.saturating_mul(count.saturating_add(1));
    for _round in 0..visits_left {
        if visits_left == 0 || !is_worth(&prefix.states, worth) {
            return Ok(None);
        }
        let found = round(
            alloc,
            query,
            prefix.len,
            marked_prefix_len(marks, prefix.len).min(last_stop),
            last_stop,
            max_unmarked,
            proposed,
            &prefix.states,
            &last_end,
            marks,
        )?;
        let Some(done) = found else {
            return Ok(None);
        };
        let stops = done.stops;
        last_stop = stops.end.len;
        visits_left = visits_left.saturating_sub(last_stop.saturating_sub(prefix.len));
        let marked_len = marked_prefix_len(marks, prefix.len);
        prefix = later_prefix(prefix, stops.first, marked_len);
        prefix = later_prefix(prefix, stops.second, marked_len);
        if is_final(done.has_added, last_stop, count) {
            return Ok(Some(prefix));
        }
        last_end = stops.end;
        max_unmarked = next_max_unmarked(max_unmarked, done.has_added);
    }
    Ok(None)
}

/// Returns the length of the longest marked prefix, if the first `first` updates are marked.
pub fn marked_prefix_len(marks: &[bool], first: usize) -> usize
    requires within { first ≤ length marks.now }
    requires prefix_marked { IsPrefixMarked first marks.now }
    ensures low { first ≤ result }
    ensures high { result ≤ length marks.now }
    ensures prefix_marked { IsPrefixMarked result marks.now }
{
    for i in first..marks.len() {
        if !is_marked(marks, i) {
            return i;
        }
    }
    marks.len()
}
