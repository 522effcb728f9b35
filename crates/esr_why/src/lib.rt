//! Explains blocked lines of a script: the lock holder, or the amount requested from a limit and the amount that was
//! left; and the cycles of transactions that wait for one another.
//!
//! A history records only the transaction that a refusal names. This crate therefore replays the history (`esr_replay`)
//! and asks the machine for the lock holders and the queries that a write would charge. Amounts follow the definition
//! of the charges due (`Shortfall`), and a cycle is reported only if each member waits for the next
//! (`LastEntries::cycle`). No clause specifies the wording. Scanning the earlier entries for each blocked line was
//! rejected: half the lines of a script of a million lines may be blocked.
#![tactic(auto)]

mod locks;
mod reasons;
mod sentences;
mod shortfall;
mod waits;

pub use reasons::Why;
