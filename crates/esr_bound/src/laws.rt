//! The laws. A law is the contract of a function with an empty body, because a statement in `specs/` alone is not proved.

ghost use Rattle.esr_bound.specs.Amounts.{LawOfStart, LawOfUpdates, LawOfEnd, LawOfSet};

/// States that the amounts after the updates that the query must see carry their sum less the loans for every closed set.
pub fn bound_at_start()
    ensures { LawOfStart }
{}

/// States that an update that does not decrease the sum of the amounts less the loans preserves this.
pub fn bound_after_update()
    ensures { LawOfUpdates }
{}

/// States that at the end no closed set costs less than the sum at the start, and that each closed set that costs no more
/// contains all marked updates.
pub fn bound_at_end()
    ensures { LawOfEnd }
{}

/// States that a closed, forced set of marked updates whose cost is the bound is the smallest set of least cost.
pub fn marked_set_is_smallest()
    ensures { LawOfSet }
{}
