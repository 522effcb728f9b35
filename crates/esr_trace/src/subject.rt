//! An audited query with the history and the names of its script. All of them are references, since a page describes
//! many queries of one history.

use esr_audit::Finding;
use esr_history::History;
use esr_items::Weighted;
use esr_report::Names;

/// A query that was audited.
#[derive(Clone, Copy)]
pub struct Audited<'a> {
    /// The names of the items, in the order of their numbers, from 0.
    pub items: &'a Names,
    /// The names of the transactions, in the order of their numbers, from 1.
    pub transactions: &'a Names,
    pub history: &'a History<Weighted>,
    /// The finding of its audit.
    pub finding: &'a Finding,
}
