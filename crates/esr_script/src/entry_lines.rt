//! The line of each entry. A history has no lines, so a view of a script records them during the run: 4 bytes an
//! entry. Rejected: a copy of the script, of some twenty bytes a line, which must be cut into lines again. No clause
//! specifies these lines, as none covers what an observer sees.

use esr_lint::{LineOutcome, Observer, TxnSummary};
use std::alloc::Global;

/// Records the line of each entry, and passes each call on to another observer.
#[derive(Drop)]
pub struct EntryLines<'a, O> {
    observer: &'a mut O,
    lines: Vec<u32>,
    is_whole: bool,
}

impl<'a, O> EntryLines<'a, O> {
    pub fn new(alloc: Global, observer: &'a mut O) -> EntryLines<'a, O> {
        EntryLines {
            observer,
            lines: Vec::new(alloc),
            is_whole: true,
        }
    }

    /// Returns the line of each entry, unless an allocation for one failed.
    pub fn lines(&self) -> Option<&[u32]> {
        if self.is_whole {
            Some(&self.lines)
        } else {
            None
        }
    }

    /// Records the line of an entry.
    fn record(&mut self, number: u64) {
        let number = u32::try_from(number).unwrap_or(u32::MAX);
        if self.lines.push(number).is_err() {
            self.is_whole = false;
        }
    }
}

impl<O: Observer> Observer for EntryLines<'_, O> {
    fn hash_seed(&self) -> u64 {
        self.observer.hash_seed()
    }

    fn see_accepted(&mut self, number: u64) {
        self.record(number);
        self.observer.see_accepted(number);
    }

    fn see_line(&mut self, number: u64, line: &[u8], outcome: LineOutcome) {
        if let LineOutcome::Refused(_) = outcome {
            self.record(number);
        }
        self.observer.see_line(number, line, outcome);
    }

    fn see_progress(&mut self, lines: u64) {
        self.observer.see_progress(lines);
    }

    fn see_transaction(&mut self, name: &str, status: TxnSummary) {
        self.observer.see_transaction(name, status);
    }

    fn see_end(&mut self, lines: u64) {
        self.observer.see_end(lines);
    }
}
