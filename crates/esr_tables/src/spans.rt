//! The first and the last line of each transaction. The history has no lines: they are recorded while the script
//! runs, or counted for the script that the history would have. No clause specifies them.

ghost use Rattle.std.specs.Prelude.{◌≡◌};
ghost use Rattle.esr_tables.specs.Spans.{first_of, last_of};

use esr_history::{Entry, History, Refusal, Reply, TxnId};
use esr_items::Weighted;
use esr_views::Recording;
use std::alloc::{AllocError, Global};

/// The numbers of two lines of a script, from 1; 0 if there is none.
#[derive(Clone, Copy)]
pub struct LineSpan {
    /// The line that begins the transaction.
    pub first: u32,
    /// The last line of the transaction that was accepted or blocked.
    pub last: u32,
}

/// The spans of transactions, by their numbers.
#[derive(Drop)]
pub struct Spans(Vec<LineSpan>);

const NOWHERE: LineSpan = LineSpan { first: 0, last: 0 };

/// Returns whether a line was refused for a reason other than a lock or a limit.
fn is_mistaken(reply: Reply) -> bool {
    match reply {
        Reply::Refused(why) => !matches!(
            why,
            Refusal::BlockedByLock(_) | Refusal::BlockedByImport(_) | Refusal::BlockedByExport(_)
        ),
        _ => false,
    }
}

impl Spans {
    /// Returns the span of a transaction.
    pub fn of(&self, t: TxnId) -> LineSpan
        ensures first { result.first ≡ first_of self.now t.0 }
        ensures last { result.last ≡ last_of self.now t.0 }
    {
        match self.0.get(t.0 as usize) {
            Some(span) => *span,
            None => NOWHERE,
        }
    }

    /// Notes that an entry is of this line.
    fn note(&mut self, entry: Entry, line: u32) {
        if is_mistaken(entry.reply) {
            return;
        }
        let Some(txn) = entry.txn() else {
            return;
        };
        if let Some(span) = self.0.get_mut(txn.0 as usize) {
            if span.first == 0 {
                span.first = line;
            }
            span.last = line;
        }
    }
}

/// Spans of a history of which no line is known.
fn nowhere(alloc: Global, history: &History<Weighted>) -> Result<Spans, AllocError> {
    let count = history.begun_count().saturating_add(1);
    Ok(Spans(vec![in alloc; NOWHERE; count]?))
}

/// Returns the spans of the transactions of a script.
pub fn spans_of(alloc: Global, recording: &Recording<'_>) -> Result<Spans, AllocError> {
    let history = &recording.history;
    let mut spans = nowhere(alloc, history)?;
    for (place, line) in recording.lines.iter().enumerate() {
        if let Some(entry) = history.log().get(place) {
            spans.note(entry, *line);
        }
    }
    Ok(spans)
}

/// Returns the spans of the transactions of a history that was not made by a script, in the script that recreates it:
/// that has a line for each item, and one for each entry that was accepted or blocked.
pub fn spans_in(alloc: Global, history: &History<Weighted>) -> Result<Spans, AllocError> {
    let mut spans = nowhere(alloc, history)?;
    let mut line = history.items();
    for place in 0..history.log().len() {
        if let Some(entry) = history.log().get(place) {
            line = line.saturating_add(u32::from(!is_mistaken(entry.reply)));
            spans.note(entry, line);
        }
    }
    Ok(spans)
}
