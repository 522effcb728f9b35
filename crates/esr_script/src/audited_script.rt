//! The state after a script, with the audits of all its committed queries.

use esr_audit::Summaries;
use esr_history::History;
use esr_items::Weighted;
use esr_report::Names;

/// The state after a script, with the audits of all its committed queries.
#[derive(Drop)]
pub struct AuditedScript {
    /// The names of the transactions, in the order of their numbers, from 1.
    pub transactions: Names,
    /// The history after the whole script.
    pub history: History<Weighted>,
    /// The committed updates in a serial order, and the audits.
    pub found: Summaries,
}
