//! The numbers of the transactions of a history by their kinds, so that a timeline and a picture of a query count alike those
//! that they do not draw.

use esr_history::{History, MAX_TRANSACTIONS, TxnId};
use esr_items::Weighted;
use esr_outcomes::{TxnOutcome, outcome_of};
use esr_text::push_number;
use std::alloc::AllocError;

/// The kind of a transaction, as seen from a query.
#[derive(Clone, Copy, PartialEq, Eq)]
pub enum TxnClass {
    /// An update that committed before the query did.
    Committed,
    /// An update that aborted.
    Aborted,
    /// An update that committed after the query, or is still active.
    Later,
    /// A query.
    Query,
}

/// The numbers of transactions of each kind.
#[derive(Clone, Copy)]
pub struct TxnCounts {
    pub committed: u64,
    pub aborted: u64,
    pub later: u64,
    pub queries: u64,
}

/// Returns the class of a transaction. `end` is the place of the query's end in the log, if it has ended.
pub fn class_of(history: &History<Weighted>, txn: TxnId, end: Option<u64>) -> TxnClass {
    let Some(facts) = history.facts(txn) else {
        return TxnClass::Later;
    };
    if facts.query {
        return TxnClass::Query;
    }
    match outcome_of(history, txn) {
        TxnOutcome::Aborted => TxnClass::Aborted,
        TxnOutcome::Active => TxnClass::Later,
        TxnOutcome::Committed => match (facts.end, end) {
            (Some(own), Some(end)) if own > end => TxnClass::Later,
            _ => TxnClass::Committed,
        },
    }
}

impl TxnCounts {
    /// Returns the numbers of no transactions.
    pub fn none() -> TxnCounts {
        TxnCounts {
            committed: 0,
            aborted: 0,
            later: 0,
            queries: 0,
        }
    }

    /// Counts a transaction.
    pub fn note(&mut self, class: TxnClass) {
        let count = match class {
            TxnClass::Committed => &mut self.committed,
            TxnClass::Aborted => &mut self.aborted,
            TxnClass::Later => &mut self.later,
            TxnClass::Query => &mut self.queries,
        };
        *count = count.saturating_add(1);
    }

    /// Returns the numbers of all transactions of a history, as seen from a query.
    pub fn of(history: &History<Weighted>, query: TxnId) -> TxnCounts {
        let end = history.facts(query).and_then(|facts| facts.end);
        let mut counts = TxnCounts::none();
        let begun = history.begun_count().min(MAX_TRANSACTIONS) as u32;
        for number in 0..begun {
            counts.note(class_of(history, TxnId(number.saturating_add(1)), end));
        }
        counts
    }

    /// Returns the numbers of the transactions that are not among these.
    pub fn without(self, drawn: TxnCounts) -> TxnCounts {
        TxnCounts {
            committed: self.committed.saturating_sub(drawn.committed),
            aborted: self.aborted.saturating_sub(drawn.aborted),
            later: self.later.saturating_sub(drawn.later),
            queries: self.queries.saturating_sub(drawn.queries),
        }
    }

    /// Returns whether there is an update among the transactions.
    pub fn have_updates(self) -> bool {
        self.committed > 0 || self.aborted > 0 || self.later > 0
    }
}

/// Appends how many transactions of a kind are not drawn, of how many, if there are any. Returns the next separator.
fn push_part<'a>(
    out: &mut String,
    joint: &'a str,
    rest: u64,
    all: u64,
    words: (&str, &str),
) -> Result<&'a str, AllocError> {
    if rest == 0 {
        return Ok(joint);
    }
    out.push_str(joint)?;
    push_number(out, rest)?;
    out.push_str(" of ")?;
    push_number(out, all)?;
    out.push_str(words.0)?;
    out.push_str(words.1)?;
    Ok(", ")
}

/// Appends how many of all transactions are not drawn, by their kinds, for a query of this name.
pub fn push_undrawn(
    out: &mut String,
    query: &str,
    all: TxnCounts,
    rest: TxnCounts,
) -> Result<(), AllocError> {
    let updates = (" updates that committed before ", query);
    let joint = push_part(out, "", rest.committed, all.committed, updates)?;
    let aborted = if joint.is_empty() {
        " updates that aborted"
    } else {
        " that aborted"
    };
    let joint = push_part(out, joint, rest.aborted, all.aborted, (aborted, ""))?;
    let later = if joint.is_empty() {
        " updates that ended later or are active"
    } else {
        " that ended later or are active"
    };
    let joint = push_part(out, joint, rest.later, all.later, (later, ""))?;
    push_part(out, joint, rest.queries, all.queries, (" queries", ""))?;
    Ok(())
}
