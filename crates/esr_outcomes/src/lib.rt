//! What became of the transactions of a history: the kind and the outcome of each, the audits of its queries, and the values
//! that updates leave.
//!
//! The explanations, the tables and the drawn views (prose, pictures, timelines, pages) all need these facts. This crate
//! computes each of them in one place, as data. The views turn them into texts.
#![tactic(auto)]

mod auditor;
mod kind;
mod values;

pub use auditor::Auditor;
pub use esr_history::{TxnKind, TxnOutcome};
pub use esr_least::QueryAudit;
pub use esr_order::outcome_of;
pub use kind::kind_of;
