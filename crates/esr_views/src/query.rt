//! A script's reply about one of its queries: its names, its history, and the finding of the audit.

use esr_audit::Finding;
use esr_history::History;
use esr_items::Weighted;
use esr_report::Names;

/// A script's reply about one of its queries.
#[derive(Drop)]
pub struct AuditedQuery {
    /// The names of the items, in the order of their numbers, from 0.
    pub items: Names,
    /// The names of the transactions, in the order of their numbers, from 1.
    pub transactions: Names,
    /// The history after the whole script.
    pub history: History<Weighted>,
    /// The finding of the query's audit.
    pub finding: Finding,
}
