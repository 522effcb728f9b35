//! Tables of a script for people and programs: a ledger with one row for each transaction, and audits and explanations
//! as CSV and JSON.
//!
//! The rows of a ledger are a definition over the history, and its CSV is proved to be the text of exactly these rows.
//! Its other formats, and those of audits and explanations, are proved safe and are tested. The line numbers of a
//! transaction's first and last line are outside the proved part, because a history has no line numbers.
#![tactic(auto)]

mod audits;
mod csv;
mod explanations;
mod exports;
mod format;
mod json;
mod ledger;
mod ledger_columns;
mod rows;
mod spans;
mod tallies;
mod text;
mod words;

pub use audits::audit_table;
pub use explanations::ExplanationTable;
pub use format::{Data, Format};
pub use ledger::{Ledger, history_ledger};
