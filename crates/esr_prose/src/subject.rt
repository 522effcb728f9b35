//! A query that prose is about, however it ended, with what its script leads to and the line of each entry.

use esr_audit::Finding;
use esr_history::{History, TxnId};
use esr_items::{ItemId, Metric, Weighted};
use esr_outcomes::Auditor;
use esr_report::{Names, name_of_transaction};
use esr_text::push_number;
use std::alloc::AllocError;

/// A query that prose is about.
#[derive(Clone, Copy)]
pub struct Subject<'a> {
    /// The names of the items, in the order of their numbers, from 0.
    pub items: &'a Names,
    /// The names of the transactions, in the order of their numbers, from 1.
    pub transactions: &'a Names,
    pub history: &'a History<Weighted>,
    /// The line of each entry of the history, from 1.
    pub lines: &'a [u32],
    pub query: TxnId,
    /// The auditor of the history.
    pub auditor: &'a Auditor<'a>,
    /// The finding of its audit, if it has committed.
    pub finding: Option<&'a Finding>,
}

impl<'a> Subject<'a> {
    /// The name of a transaction.
    pub fn name(&self, txn: TxnId) -> &'a str {
        name_of_transaction(self.transactions, txn)
    }

    /// The name of an item.
    pub fn item(&self, item: ItemId) -> &'a str {
        self.items.name_of(item.0).unwrap_or("")
    }

    /// Returns the weight of an item.
    pub fn weight(&self, item: ItemId) -> u64 {
        self.history.metric().distance(item, 0, 1)
    }

    /// The line of the entry at a place.
    pub fn push_line(&self, out: &mut String, place: usize) -> Result<(), AllocError> {
        out.push_str("line ")?;
        let line = self.lines.get(place).copied().unwrap_or(0);
        push_number(out, u64::from(line))
    }

    /// The place of the end of a transaction, if it has ended.
    pub fn end_place(&self, txn: TxnId) -> Option<usize> {
        let end = self.history.facts(txn)?.end?;
        usize::try_from(end).ok()
    }
}
