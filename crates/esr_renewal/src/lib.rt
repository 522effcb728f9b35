//! A renewal that carries the active transactions over: the law that it is always possible.
//!
//! A history holds a limited number of transactions, so a long run consists of many histories. A renewal opens the next one
//! with the committed values. It need not wait until nothing is active: in the new history each active transaction begins
//! again, then the operations of active updates follow, each with the reply that it had, and then the reads of active
//! queries, each with the current value. The values that the caller of a query has seen stay within the settled amount (below)
//! plus the new import of the committed ones. The definitions are those of `esr_core` (`carried`, `IsCarriedOver`).
//!
//! A charge comes from a conflict of a query and an update. While both are active, the conflict is *open*. The *open amount*
//! of a query is what it would be charged for repeating its reads now; that of an update is its part of these charges. The
//! rest of its charges, also of those from open conflicts, is *settled*. The carried reads of queries are charged exactly the
//! open amounts, so each transaction begins with its limit minus the settled amount, and no limit refuses a carried entry. Two facts make this work. The open
//! amounts of a transaction are at most its charges. And the operations of active updates do not conflict, because each
//! update holds its locks to its end: so no lock refuses an operation, and each read of an update returns its earlier value.
//!
//! Rejected: reducing a limit by all charges, which would charge open conflicts twice; and repeating the reads of queries
//! before the writes of updates, since then each write of an item by an update would be charged, not only the last.
#![tactic(auto)]

ghost use Rattle.esr_renewal.specs.Carry.{LawOfCarriedOrder, LawOfCarry, LawOfOpenExports};

/// Proves that the open charges of an update are at most its export, as those of a query are at most its import.
pub fn open_exports_are_charged()
    ensures { LawOfOpenExports }
{}

/// Proves that the machine returns each reply of a carried history, and that in it each item keeps its two values, and
/// each active transaction its reads, its locks, and the rest of its limit.
pub fn every_renewal_carries()
    ensures { LawOfCarry }
{}

/// Proves that the committed updates of a history, then those of the carried history and of all that follows in it, are
/// serializable as one history.
pub fn carried_histories_are_serializable()
    ensures { LawOfCarriedOrder }
{}
