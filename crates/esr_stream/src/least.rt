//! The least distance of a query and the smallest closed set of this cost, if the proposed amounts prove them.
ghost use Rattle.std.specs.Prelude.{◌≡◌, ◌≤◌, ◌<◌, ◌+◌, ◌*◌, ◌++◌, ◌∷◌, [], ℕ, OnOk, if◌then◌else◌, Bool, List, IfOk, IfSome, length, map, nat_lt, true};
ghost use Rattle.esr_history.specs.Queries.{members, must};
ghost use Rattle.esr_order.specs.Index.{IsWholeIndexOf};
ghost use Rattle.esr_bound.specs.Amounts.{among_marked, cost_by, mark_at};
ghost use Rattle.esr_stream.specs.Passes.{IsPrefixMarked, AreForcedAndClosed, AreStates, IsNearestPlacement};
ghost use Rattle.esr_stream.specs.Query.{cost_in, updates_of};

use crate::amounts::ProposedAmounts;
use crate::items::{ItemState, costs_of, fits_if, sum_of};
use crate::pass::start;
use crate::query::AuditedQuery;
use crate::reads::OFFSET;
use crate::rounds::{MarkedPrefix, copy_of, first_marks, mark_least};
use crate::sweep::propose_amounts;
use esr_history::{History, TxnId};
use esr_items::Metric;
use esr_order::Index;
use std::alloc::{AllocError, Global};

/// The distance of a query, and the updates before it in its nearest placement.
#[derive(Drop)]
pub struct Least {
    pub distance: u64,
    /// In commit order.
    pub before: Vec<TxnId>,
}

/// The number of updates between the checkpoint of the first round and the beginning of the query.
const MARGIN: usize = 1024;

/// Appends a transaction, if it is marked.
fn push_if(txns: &mut Vec<TxnId>, t: TxnId, marked: bool) -> Result<(), AllocError>
    ensures { OnOk result (txns.new.items ≡ txns.old.items ++ (if marked then t ∷ [] else [])) }
{
    if marked {
        txns.push(t)?;
    }
    Ok(())
}

/// Lists the marked updates.
fn members_of<M: Metric>(
    alloc: Global,
    query: &AuditedQuery<M>,
    marks: &[bool],
) -> Result<Vec<TxnId>, AllocError>
    requires marks { length marks.now ≡ length (updates_of query.now) }
    ensures { IfOk result (λ v. map (λ t. t.0) v.items
        ≡ members query.now.schedule query.now.query (among_marked (updates_of query.now) marks.now)) }
{
    let _invariant = query.history(); // brings the invariant into the proof
    let updates = query.updates();
    let mut txns = Vec::with_capacity(alloc, updates.len())?;
    for i in 0..updates.len() {
        push_if(&mut txns, updates[i], marks[i])?;
    }
    Ok(txns)
}

/// Returns the total cost of the versions that the marked updates leave, with the offset of each item, or `None` if a sum does
/// not fit. All updates before the position `from` are marked, and the states are those after them.
fn cost_of<M: Metric>(
    alloc: Global,
    query: &AuditedQuery<M>,
    from: usize,
    states: &mut [ItemState],
    marks: &[bool],
) -> Result<Option<u64>, AllocError>
    requires from { from ≤ length (updates_of query.now) }
    requires marks { length marks.now ≡ length (updates_of query.now) }
    requires prefix_marked { IsPrefixMarked from marks.now }
    requires states { AreStates (cost_in M.distance_by query.now) query.now.schedule query.now.query from marks.now states.old }
    ensures { IfOk result (λ found. IfSome found (λ cost. cost
        ≡ cost_by (length query.now.schedule.opening) (cost_in M.distance_by query.now) query.now.schedule query.now.query
        (among_marked (updates_of query.now) marks.now))) }
{
    let _invariant = query.history(); // brings the invariant into the proof
    let mut list = Vec::new(alloc);
    for i in from..query.update_count() {
        let row = query.accesses(i, &mut list)?;
        let fit = fits_if(query, states, row, marks[i]);
        if !fit {
            return Ok(None);
        }
    }
    let Some(cost) = costs_of(states) else {
        return Ok(None);
    };
    Ok(Some(cost))
}

/// Returns the cost without the offset of each item, or `None` if the cost is less than their sum.
fn without_offsets(cost: u64, items: u32) -> Option<u64>
    ensures { IfSome result (λ rest. items * OFFSET + rest ≡ cost) }
{
    let offsets = u64::from(items).checked_mul(OFFSET)?;
    cost.checked_sub(offsets)
}

/// Returns the marked set if its cost is the bound.
fn least_from<M: Metric>(
    alloc: Global,
    query: &AuditedQuery<M>,
    from: usize,
    start_states: &[ItemState],
    worth: u64,
    marks: &[bool],
) -> Result<Option<Least>, AllocError>
    requires from { from ≤ length (updates_of query.now) }
    requires marks { length marks.now ≡ length (updates_of query.now) }
    requires prefix_marked { IsPrefixMarked from marks.now }
    requires start_states { (ms : List Bool) → IsPrefixMarked from ms
        → AreStates (cost_in M.distance_by query.now) query.now.schedule query.now.query from ms start_states.now }
    requires forced_and_closed { AreForcedAndClosed (length query.now.schedule.opening) (cost_in M.distance_by query.now)
        query.now.schedule query.now.query worth marks.now }
    ensures { IfOk result (λ found. IfSome found (λ l. IsNearestPlacement M.distance_by query.now.schedule query.now.query l.distance
        (map (λ t. t.0) l.before.items))) }
{
    let _invariant = query.history(); // brings the invariant into the proof
    let mut states = copy_of(alloc, start_states)?;
    let found = cost_of(alloc, query, from, &mut states, marks)?;
    let Some(cost) = found else {
        return Ok(None);
    };
    if cost != worth {
        return Ok(None);
    }
    let Some(distance) = without_offsets(worth, query.items()) else {
        return Ok(None);
    };
    let before = members_of(alloc, query, marks)?;
    Ok(Some(Least { distance, before }))
}

/// Returns whether a transaction ended before an index. No contract constrains it.
fn has_ended<M: Metric>(history: &History<M>, t: TxnId, place: u64) -> bool {
    match history.facts(t) {
        None => true,
        Some(facts) => facts.end.is_some_and(|end| end < place),
    }
}

/// Returns the position that is `MARGIN` before the last update that ended before the query began, at least `first`. Usually all
/// updates before it are in the smallest set.
fn checkpoint_of<M: Metric>(query: &AuditedQuery<M>, first: usize) -> usize
    requires first { first ≤ length (updates_of query.now) }
    ensures low { first ≤ result }
    ensures high { result ≤ length (updates_of query.now) }
{
    let updates = query.updates();
    let Some(facts) = query.history().facts(query.query()) else {
        return first;
    };
    for i in (first..updates.len()).rev() {
        if has_ended(query.history(), updates[i], facts.begin) {
            return i.saturating_sub(MARGIN).max(first);
        }
    }
    first
}

/// Starts from the states after the mandatory updates. Returns the least distance of the query, if the amounts prove it.
fn find_with_amounts<M: Metric>(
    alloc: Global,
    query: &AuditedQuery<M>,
    first: usize,
    proposed: &ProposedAmounts,
    start_states: Vec<ItemState>,
    marks: &mut [bool],
) -> Result<Option<Least>, AllocError>
    requires first { first ≡ length (must query.now.schedule query.now.query) }
    requires marks { length marks.old ≡ length (updates_of query.now) }
    requires prefix_marked { IsPrefixMarked first marks.old }
    requires only { (i : ℕ) → i < length marks.old → mark_at marks.old i ≡ nat_lt i first }
    requires start_states { (ms : List Bool) → IsPrefixMarked first ms
        → AreStates (cost_in M.distance_by query.now) query.now.schedule query.now.query first ms start_states.items }
    ensures { IfOk result (λ found. IfSome found (λ l. IsNearestPlacement M.distance_by query.now.schedule query.now.query l.distance
        (map (λ t. t.0) l.before.items))) }
{
    let _invariant = query.history(); // brings the invariant into the proof
    let Some(worth) = sum_of(&start_states) else {
        return Ok(None);
    };
    let checkpoint = checkpoint_of(query, first);
    let start = MarkedPrefix {
        len: first,
        states: start_states,
    };
    let found = mark_least(alloc, query, start, checkpoint, proposed, worth, marks)?;
    let Some(prefix) = found else {
        return Ok(None);
    };
    let MarkedPrefix { len, states } = prefix;
    least_from(alloc, query, len, &states, worth, marks)
}

/// Returns the least distance of a committed query, if the proposed amounts prove it.
fn find<M: Metric>(alloc: Global, query: &AuditedQuery<M>) -> Result<Option<Least>, AllocError>
    ensures { IfOk result (λ found. IfSome found (λ l. IsNearestPlacement M.distance_by query.now.schedule query.now.query l.distance
        (map (λ t. t.0) l.before.items))) }
{
    let _invariant = query.history(); // brings the invariant into the proof
    let first = query.mandatory_count();
    let proposed = propose_amounts(alloc, query, first)?;
    let begun = start(alloc, query, first, &proposed)?;
    let Some(start_states) = begun else {
        return Ok(None);
    };
    let mut marks = first_marks(alloc, query.update_count(), first)?;
    find_with_amounts(alloc, query, first, &proposed, start_states, &mut marks)
}

/// Returns the least distance of a query and its smallest set, or `None` if the transaction is not a committed query or the
/// proposed amounts do not prove them.
///
/// # Errors
///
/// An allocation failed.
pub fn least_of<M: Metric>(
    alloc: Global,
    history: &History<M>,
    index: &Index,
    q: TxnId,
) -> Result<Option<Least>, AllocError>
    requires { IsWholeIndexOf history.now.schedule.entries index.now }
    ensures { IfOk result (λ found. IfSome found (λ l. IsNearestPlacement M.distance_by history.now.schedule q.0 l.distance
        (map (λ t. t.0) l.before.items))) }
{
    match AuditedQuery::of(alloc, history, index, q)? {
        Some(query) => find(alloc, &query),
        None => Ok(None),
    }
}
