//! The final state of a script, for views of more than one query, or of one that has not committed.

use esr_history::History;
use esr_items::Weighted;
use esr_report::Names;

/// The final state of a script.
#[derive(Drop)]
pub struct Recording<'a> {
    /// The names of the items, in the order of their numbers, from 0.
    pub items: Names,
    /// The names of the transactions, in the order of their numbers, from 1.
    pub transactions: Names,
    /// The history after the whole script.
    pub history: History<Weighted>,
    /// The line of each entry of the history, from 1, which the history does not know.
    pub lines: &'a [u32],
}
