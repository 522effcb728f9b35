//! Laws of active reports, and of those that a renewal carries over. A law is the contract of a function with an empty
//! body, since a statement that is only in `specs/` is not proved.

ghost use Rattle.esr_core.specs.Carried.{LawOfActiveQueries, LawOfActiveUpdates, LawOfCurrentValues, LawOfReports, LawOfCarriedLength};

/// Proves that the values that an active query has read are within its import so far of the committed values, and of
/// any mixture of committed and current ones, and that no more of its import is open than was charged.
pub fn active_reports_are_bounded()
    ensures { LawOfActiveQueries }
{}

/// Proves that over any number of renewals that carry a report, the distance of its reads is within its imports in all
/// its histories together, and these are within the limit that it began with.
pub fn carried_reports_are_bounded()
    ensures { LawOfReports }
{}

/// Proves that a history that carries another has at most as many entries.
pub fn carried_histories_fit()
    ensures { LawOfCarriedLength }
{}

/// Proves that the values that an active update has read are unchanged, whatever has committed since: so its reads can
/// be replayed with the same replies.
pub fn active_updates_read_on()
    ensures { LawOfActiveUpdates }
{}

/// Proves that the current values are the committed ones overwritten by the writes of active updates.
pub fn active_writes_are_current()
    ensures { LawOfCurrentValues }
{}
