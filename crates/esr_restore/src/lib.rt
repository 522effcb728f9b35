//! Dump and restore: a run of the script that was written for a history leads to that history.
//!
//! The script of a history (`esr_dump`) is specified by the commands that its lines spell, and a run of a script
//! (`esr_script`) by the state that it leads to. This law joins the two: the run declares the same items and executes the
//! same events, and the machine gives each of them the reply that it gave the first time. So a history that is kept as a
//! script is kept whole, apart from the events that were refused for what they asked, which changed nothing.
//!
//! The law is a crate of its own because neither of the two crates needs the other. A law is the contract of a function
//! with an empty body, because a statement in `specs/` alone is not proved.
#![tactic(auto)]

ghost use Rattle.esr_restore.specs.Restores.{LawOfRestoring};

/// States that a run of the script of a history restores the history.
pub fn a_script_restores_its_history()
    ensures { LawOfRestoring }
{}
