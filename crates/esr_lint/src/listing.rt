//! Lists all that is wrong in a script, a line for each: `FILE:LINE:COLUMN: REASON`.

use crate::answer::mistake_of;
use crate::observer::{LineOutcome, Observer, TxnSummary};
use crate::place::Source;
use esr_history::TxnOutcome;
use std::alloc::Global;
use std::fmt::{Display, Write as _};
use std::io::Write;

/// The number of bytes written at once.
const ROOM: usize = 32768;

/// Lists the lines with faults, the refusals that are mistakes, and the transactions that are still active.
#[derive(Drop)]
pub struct Listing<'a, W> {
    writer: W,
    source: Source<'a>,
    hash_seed: u64,
    text: String,
    /// The length of the text's complete lines in bytes: the text is longer only if an allocation failed within a
    /// line.
    whole: usize,
    lines: u64,
    count: u64,
    /// The first failure; after it, nothing is listed.
    failed: Option<Unlisted>,
}

/// The reason why something of a list was not written.
#[derive(Clone, Copy, PartialEq, Eq, Debug)]
pub enum Unlisted {
    /// An allocation for it failed.
    NoMemory,
    /// The writer did not take it.
    Write,
}

impl<'a, W: Write> Listing<'a, W> {
    pub fn new(alloc: Global, writer: W, source: Source<'a>, hash_seed: u64) -> Listing<'a, W> {
        Listing {
            writer,
            source,
            hash_seed,
            text: String::new(alloc),
            whole: 0,
            lines: 0,
            count: 0,
            failed: None,
        }
    }

    /// Returns the writer.
    pub fn writer(&self) -> &W {
        &self.writer
    }

    /// Lists the line that ended the run, after the last one that was executed.
    pub fn list_last(&mut self, column: usize, text: &impl Display) {
        if self.failed.is_some() {
            return;
        }
        let place = self.source.line(self.next_line());
        let listed = writeln!(self.text, "{place}:{column}: {text}").is_ok();
        self.note(listed);
    }

    /// Returns the number of listed items.
    pub fn count(&self) -> u64 {
        self.count
    }

    /// Returns the number of the line after the last one executed.
    pub fn next_line(&self) -> u64 {
        self.lines.saturating_add(1)
    }

    /// Writes the rest of the list.
    ///
    /// # Errors
    /// The first reason why something of the list was not written.
    pub fn finish(&mut self) -> Result<(), Unlisted> {
        self.send();
        match self.failed {
            Some(why) => Err(why),
            None => Ok(()),
        }
    }

    /// Notes why something is not written.
    fn fail(&mut self, why: Unlisted) {
        self.failed = self.failed.or(Some(why));
    }

    /// Writes the lines that are not written yet.
    fn send(&mut self) {
        let lines = self.text.as_bytes().get(..self.whole).unwrap_or_default();
        let failed = self.writer.write_all(lines).is_err() || self.writer.flush().is_err();
        if failed {
            self.fail(Unlisted::Write);
        }
        self.text.clear();
        self.whole = 0;
    }

    /// Counts a listed item, and notes whether its allocation succeeded.
    fn note(&mut self, listed: bool) {
        self.count = self.count.saturating_add(1);
        if listed {
            self.whole = self.text.len();
        } else {
            self.fail(Unlisted::NoMemory);
        }
        if self.whole >= ROOM {
            self.send();
        }
    }
}

impl<W: Write> Observer for Listing<'_, W> {
    fn hash_seed(&self) -> u64 {
        self.hash_seed
    }

    fn see_line(&mut self, number: u64, line: &[u8], outcome: LineOutcome) {
        if self.failed.is_some() {
            return;
        }
        let Some(fault) = mistake_of(line, outcome) else {
            return;
        };
        let place = self.source.line(number);
        let column = fault.column();
        let listed = writeln!(self.text, "{place}:{column}: {fault}").is_ok();
        self.note(listed);
    }

    fn see_transaction(&mut self, name: &str, status: TxnSummary) {
        if status.outcome != TxnOutcome::Active || self.failed.is_some() {
            return;
        }
        let source = self.source;
        let listed = writeln!(
            self.text,
            "{source}transaction \"{name}\" is still active at the end"
        )
        .is_ok();
        self.note(listed);
    }

    fn see_end(&mut self, lines: u64) {
        self.lines = lines;
    }
}
