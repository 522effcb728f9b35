//! The parallel audit: a board assigns each job to exactly one of several worker threads.
//!
//! A claim is one `fetch_add` and takes no lock. In Rattle, a function that may wait has the bound `Wait`. A claim does not
//! have it, so the compiler rejects a body that waits for a lock. It is proved that a parallel audit returns what an audit by
//! one thread returns, for any number of workers and any schedule: the same summaries (distance, import and set of each
//! query), and findings that differ at most in the flows of their certificates.
#![tactic(auto)]

mod board;
mod gate;
mod hand;
mod parallel;
mod result;
mod rule;
mod worker;

pub use board::{Board, BoardError, BoardSeat, ClaimsMissing};
pub use gate::{Gate, NoGate};
pub use parallel::{audit_parallel, summarize_parallel};
pub use result::AuditResult;
pub use worker::{Share, work};
