//! Proves laws of placements and closed sets. A law is the contract of a function with an empty body, since files in
//! `specs/` only define and prove nothing.

ghost use Rattle.esr_order.specs.Statements.{LawOfLeastSets, LawOfListedSets, LawOfLongerHistories, LawOfPlacements};

/// Proves that the closed sets of a query's updates are the prefixes before its placements, so that the least distance
/// of a placement is the least cost of a closed set.
pub fn parts_are_closed_sets()
    ensures { LawOfPlacements }
{}

/// Proves that the audit of a committed query depends on nothing that a longer legal history changes.
pub fn longer_histories_agree()
    ensures { LawOfLongerHistories }
{}

/// Proves that the intersection of two closed sets of least cost is one: if such sets exist, all contain a smallest
/// one.
pub fn least_sets_meet()
    ensures { LawOfLeastSets }
{}

/// Proves that the smallest of them is the one that is found by listing all closed sets.
pub fn least_sets_are_listed()
    ensures { LawOfListedSets }
{}
