//! An engine to embed in a program: a machine with item weights, and the operations that a program needs besides events.
//! These are audits, reads under a write lock (`for_update`), the charges and the limit of a transaction ([`Account`]), and
//! counts of entries and transactions ([`EngineCounts`]). A `renewal` replaces a full history by an empty one, and can carry
//! the active transactions over (`carrying`).
//!
//! A history has at most 1,000,000 entries. If all were used while a transaction is active, the transaction could never
//! end, because its commit or abort needs an entry too. An engine therefore reserves one entry for the end of each active
//! transaction (`HasReservedEnds`, the invariant of the type). An event that would use a reserved entry, and a begin if all
//! transaction numbers are used, fail with `Full` and change nothing. The end of an active transaction never fails with
//! `Full`. Contracts see an engine as its history.
//!
//! Rejected: a fixed reserve of 65,535 entries, which would shorten every history by that number; and undoing active
//! transactions without entries, because a history would then not show how its transactions ended.
#![tactic(auto)]

mod account;
mod audit;
mod carrying;
mod engine;
mod for_update;
mod opening;
mod renewal;

pub use account::Account;
pub use carrying::CarriedTxn;
pub use engine::{EmbeddedEngine, EngineCounts, EngineError};
pub use esr_history::{BeginKind, TxnOutcome};
pub use opening::OpenError;
