//! The pass: checks the amounts along the updates, and marks updates that every closed set of the bound's cost contains.
ghost use Rattle.std.specs.Prelude.{◌≡◌, ◌≤◌, ◌<◌, ℕ, Bool, List, IfOk, IfSome, length, map};
ghost use Rattle.esr_history.specs.Queries.{must};
ghost use Rattle.esr_stream.specs.Passes.{IsPrefixMarked, AreStates, KeepsEnough, KeepsInvariant, StayMarked};
ghost use Rattle.esr_stream.specs.Query.{cost_in, updates_of};

use crate::amounts::{ProposedAmounts, to_u16_or_nobody};
use crate::items::{ItemState, fits, is_forced, opening_states, steps};
use crate::query::AuditedQuery;
use esr_items::Metric;
use std::alloc::{AllocError, Global};

/// Applies the mandatory updates. Returns `None` if a sum of amounts does not fit.
///
/// # Errors
///
/// An allocation failed.
pub fn start<M: Metric>(
    alloc: Global,
    query: &AuditedQuery<M>,
    mandatory_count: usize,
    proposed: &ProposedAmounts,
) -> Result<Option<Vec<ItemState>>, AllocError>
    requires mandatory_count { mandatory_count ≡ length (must query.now.schedule query.now.query) }
    ensures { IfOk result (λ found. IfSome found (λ s. (marks : List Bool) → IsPrefixMarked mandatory_count marks
        → AreStates (cost_in M.distance_by query.now) query.now.schedule query.now.query mandatory_count marks s.items)) }
{
    let _invariant = query.history(); // brings the invariant into the proof
    let mut states = opening_states(alloc, query, &proposed.amounts)?;
    let mut list = Vec::new(alloc);
    if query.update_count() < mandatory_count {
        return Ok(None);
    }
    for i in 0..mandatory_count {
        let row = query.accesses(i, &mut list)?;
        let own = proposed.amounts_from(to_u16_or_nobody(i));
        let fit = fits(query, &mut states, row, own);
        if !fit {
            return Ok(None);
        }
    }
    Ok(Some(states))
}

/// The condition for the early end of a pass.
#[derive(Clone, Copy)]
pub struct EarlyEnd {
    /// The first position at which a pass may end early.
    pub least: usize,
    /// The number of updates in a row without a mark after which it ends.
    pub max_unmarked: usize,
}

impl EarlyEnd {
    /// Returns whether a pass may end at a position, if it has left the `unmarked` updates before the position without a mark.
    fn allows(self, position: usize, unmarked: usize) -> bool {
        self.least <= position && self.max_unmarked < unmarked
    }
}

/// Returns how many updates in a row have no mark, after one more.
fn unmarked_with(unmarked: usize, marked: bool) -> usize {
    if marked {
        0
    } else {
        unmarked.saturating_add(1)
    }
}

/// Applies the updates between two positions, and marks each one that every closed set of the bound's cost contains (`is_forced`).
/// Returns the position where it ends, at `to` or early, or `None` if an update decreases the sum of the amounts less the loans
/// or if a sum does not fit.
///
/// # Errors
///
/// An allocation failed.
pub fn pass<M: Metric>(
    alloc: Global,
    query: &AuditedQuery<M>,
    from: usize,
    to: usize,
    early_end: EarlyEnd,
    proposed: &ProposedAmounts,
    states: &mut [ItemState],
    marks: &mut [bool],
) -> Result<Option<usize>, AllocError>
    requires from { from ≤ to }
    requires to { to ≤ length (updates_of query.now) }
    requires states { length states.old ≡ length query.now.schedule.opening }
    requires marks { length marks.old ≡ length (updates_of query.now) }
    ensures states_len { length states.new ≡ length states.old }
    ensures len { length marks.new ≡ length marks.old }
    ensures stay { StayMarked marks.old marks.new }
    ensures end { IfOk result (λ found. IfSome found (λ end. (from ≤ end) × (end ≤ to))) }
    ensures pass_invariant { IfOk result (λ found. IfSome found (λ end.
        KeepsInvariant (length query.now.schedule.opening) (cost_in M.distance_by query.now) query.now.schedule query.now.query from end marks.old states.old marks.new states.new)) }
    ensures enough { IfOk result (λ found. IfSome found (λ end.
        KeepsEnough (length query.now.schedule.opening) (cost_in M.distance_by query.now) query.now.schedule query.now.query from end marks.old states.old states.new)) }
{
    let _invariant = query.history(); // brings the invariant into the proof
    let mut list = Vec::new(alloc);
    let mut unmarked = 0usize;
    for i in from..to {
        if early_end.allows(i, unmarked) {
            return Ok(Some(i));
        }
        let row = query.accesses(i, &mut list)?;
        let own = proposed.amounts_from(to_u16_or_nobody(i));
        let marked = is_forced(states, row, own, marks[i]);
        let keeps = steps(query, states, row, own, marked);
        if !keeps {
            return Ok(None);
        }
        marks[i] = marked;
        unmarked = unmarked_with(unmarked, marked);
    }
    Ok(Some(to))
}
