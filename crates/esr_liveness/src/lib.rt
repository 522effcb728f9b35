//! Liveness of the machine: laws about the events that it blocks, stated for `reply_to`, the definition of its replies.
//!
//! A caller that retries a blocked event, and a bank that aborts a member of a waits-for cycle, rely on three facts. An
//! update that is alone is never blocked. The reply to a blocked event names an active transaction. The end of a transaction
//! removes this transaction, and no other, from the lock holders that block an event. So if no other transaction locks the
//! item meanwhile, an event that is blocked by locks waits for finitely many ends, and the abort of any member of a cycle
//! breaks the cycle.
//!
//! The laws hold for every list of entries, even one that the machine cannot produce, and for every distance function. They
//! do not state that a transaction ends: that is up to the callers. A law is the contract of a function with an empty body,
//! because a statement in `specs/` alone is not proved.
#![tactic(auto)]

ghost use Rattle.esr_liveness.specs.Liveness.{LawOfBlockers, LawOfEnds, LawOfLoneUpdates};

/// States that the machine never blocks an update while no other transaction is active.
pub fn lone_updates_are_never_blocked()
    ensures { LawOfLoneUpdates }
{}

/// States that the transaction named by a blocked reply is active.
pub fn blockers_are_active()
    ensures { LawOfBlockers }
{}

/// States that the abort of an active transaction is accepted, and that a commit or an abort removes this transaction, and
/// no other, from the lock holders in the way of an event.
pub fn an_end_frees()
    ensures { LawOfEnds }
{}
