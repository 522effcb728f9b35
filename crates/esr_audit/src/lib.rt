//! Audits of committed queries: the minimum distance of a query's reads from any serial placement, with a certificate.
//!
//! An audit needs only a history. It builds the query's problem, restricted to the relevant updates, solves it, and returns a
//! finding. A certificate is meaningless without its problem. This crate, not the checker, promises that the problem is the
//! query's (`IsProblemOf`).
#![tactic(auto)]

mod audit;
mod chains;
mod commits;
mod finding;
mod problem;
mod ranges;
mod reads;

pub use audit::{
    audit_history, audit_query, audit_query_with_commits, audit_query_with_index,
    certify_with_augmentation_count, prove_sound,
};
pub use commits::{CommitLists, commit_lists};
pub use finding::{AuditError, Book, Finding, Summaries, Summary};
pub use ranges::{TxnList, TxnRange};
