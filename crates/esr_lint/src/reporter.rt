//! Reports lines with errors on standard error, and explains why a name was not found.
//!
//! At a terminal, lines are reported as they are executed, before any output of the script. If standard error is not a
//! terminal, a fault must be its only line, so reports are held until the run has ended without one (`release`).
//! Rejected: holding them at a terminal too, because an error would then appear only after a long run. Nothing is
//! allocated before a line has an error or a name is not found. A failure to report is not an error of the run.

use crate::answer::fault_of;
use crate::notes::Notes;
use crate::observer::{LineOutcome, Observer, TxnSummary};
use crate::place::Source;
use esr_history::TxnOutcome;
use std::alloc::{AllocError, Global};
use std::fmt;

/// The maximum number of lines, and of names, that are listed.
const MAX_LISTED: u64 = 20;

/// Which lines with errors are reported, and when.
#[derive(Clone, Copy)]
pub struct Reports {
    /// Only the first line, at the end of the script: the replies of `run` show every error.
    pub first_only: bool,
    /// Nothing before `release`.
    pub held: bool,
}

/// A name that is looked up after the last line.
#[derive(Clone, Copy)]
pub enum Sought<'a> {
    Nothing,
    CommittedQuery(&'a str),
    Query(&'a str),
    Transaction(&'a str),
}

impl<'a> Sought<'a> {
    /// Returns the name.
    fn name(self) -> Option<&'a str> {
        match self {
            Sought::Nothing => None,
            Sought::CommittedQuery(name) | Sought::Query(name) | Sought::Transaction(name) => {
                Some(name)
            }
        }
    }

    /// Returns whether a transaction with this status is of the kind that is looked up.
    fn accepts(self, status: TxnSummary) -> bool {
        match self {
            Sought::Nothing => false,
            Sought::CommittedQuery(_) => status.is_query && status.outcome == TxnOutcome::Committed,
            Sought::Query(_) => status.is_query,
            Sought::Transaction(_) => true,
        }
    }

    /// Returns the kind, singular and plural.
    fn kind(self) -> (&'static str, &'static str) {
        match self {
            Sought::CommittedQuery(_) => ("committed query", "committed queries"),
            Sought::Query(_) => ("query", "queries"),
            Sought::Nothing | Sought::Transaction(_) => ("transaction", "transactions"),
        }
    }
}

/// A line that is reported later, with its outcome.
#[derive(Drop)]
struct Kept {
    number: u64,
    line: Vec<u8>,
    outcome: LineOutcome,
}

impl Kept {
    fn new(
        alloc: Global,
        number: u64,
        line: &[u8],
        outcome: LineOutcome,
    ) -> Result<Kept, AllocError> {
        Ok(Kept {
            number,
            line: line.to_vec(alloc)?,
            outcome,
        })
    }
}

/// Reports lines with errors.
#[derive(Drop)]
pub struct ErrorReporter<'a, E> {
    to: &'a E,
    alloc: Global,
    source: Source<'a>,
    reports: Reports,
    sought: Sought<'a>,
    notes: Option<&'a Notes>,
    faults: u64,
    kept: Vec<Kept>,
    found: Option<TxnSummary>,
    candidates: u64,
    names: Vec<u8>,
}

impl<'a, E: Eprint> ErrorReporter<'a, E> {
    pub fn new(
        to: &'a E,
        alloc: Global,
        source: Source<'a>,
        reports: Reports,
        sought: Sought<'a>,
        notes: Option<&'a Notes>,
    ) -> ErrorReporter<'a, E> {
        ErrorReporter {
            to,
            alloc,
            source,
            reports,
            sought,
            notes,
            faults: 0,
            kept: Vec::new(alloc),
            found: None,
            candidates: 0,
            names: Vec::new(alloc),
        }
    }

    /// Returns the number of lines with errors.
    pub fn faults(&self) -> u64 {
        self.faults
    }

    /// Returns why the name that was looked up was not found.
    pub fn refusal(&self) -> NotFound<'_> {
        NotFound {
            sought: self.sought,
            status: self.found,
            candidates: self.candidates,
            names: &self.names,
        }
    }

    /// Reports the lines that were held, once the run has ended without a fault.
    pub fn release(&self) {
        if self.reports.held {
            self.report_all();
        }
    }

    /// Returns the maximum number of lines that are reported.
    fn limit(&self) -> u64 {
        if self.reports.first_only {
            1
        } else {
            MAX_LISTED
        }
    }

    /// Reports a line now.
    fn report(&self, number: u64, line: &[u8], outcome: LineOutcome) {
        let place = self.source.line(number);
        if let Some(fault) = fault_of(line, outcome) {
            let _ = eprintln!(self.to; "esr: {place}: {fault}");
        }
    }

    /// Notes a line for a page or a picture.
    fn note(&self, number: u64, line: &[u8], outcome: LineOutcome) {
        let place = self.source.line(number);
        if let Some(notes) = self.notes
            && let Some(fault) = fault_of(line, outcome)
        {
            notes.add(&format_args!("{place}: {fault}"));
        }
    }

    /// Keeps a line to report it later.
    fn keep(&mut self, number: u64, line: &[u8], outcome: LineOutcome) {
        if let Ok(kept) = Kept::new(self.alloc, number, line, outcome) {
            let _ = self.kept.push(kept);
        }
    }

    /// Reports the lines that were kept, and the number of lines with errors.
    fn report_all(&self) {
        if self.faults == 0 {
            return;
        }
        for kept in &self.kept {
            self.report(kept.number, &kept.line, kept.outcome);
        }
        let source = self.source;
        let count = Count {
            faults: self.faults,
            limit: self.limit(),
        };
        let _ = eprintln!(self.to; "esr: {source}{count}");
    }

    /// Adds a name to those that exist.
    fn add_name(&mut self, name: &str) {
        self.candidates = self.candidates.saturating_add(1);
        if self.candidates > MAX_LISTED {
            return;
        }
        if self.candidates > 1 && self.names.extend_from_slice(b", ").is_err() {
            return;
        }
        let _ = self.names.extend_from_slice(name.as_bytes());
    }
}

impl<E: Eprint> Observer for ErrorReporter<'_, E> {
    fn see_line(&mut self, number: u64, line: &[u8], outcome: LineOutcome) {
        if !matches!(outcome, LineOutcome::Error(_)) {
            return;
        }
        self.faults = self.faults.saturating_add(1);
        self.note(number, line, outcome);
        if self.faults > self.limit() {
            return;
        }
        if self.reports.held || self.reports.first_only {
            self.keep(number, line, outcome);
        } else {
            self.report(number, line, outcome);
        }
    }

    fn see_transaction(&mut self, name: &str, status: TxnSummary) {
        if self.sought.name().is_some_and(|sought| sought == name) {
            self.found = Some(status);
        }
        if self.sought.accepts(status) {
            self.add_name(name);
        }
    }

    fn see_end(&mut self, _lines: u64) {
        if !self.reports.held {
            self.report_all();
        }
    }
}

/// The number of lines with errors, and how many of them are reported.
#[derive(Clone, Copy)]
struct Count {
    faults: u64,
    limit: u64,
}

impl fmt::Display for Count {
    fn fmt<W: fmt::Write>(&self, f: &mut fmt::Formatter<W>) -> fmt::Result {
        let faults = self.faults;
        let limit = self.limit;
        match faults {
            1 => f.write_str("1 line has an error"),
            _ => write!(f, "{faults} lines have errors"),
        }?;
        if faults <= limit {
            Ok(())
        } else if limit == 1 {
            f.write_str("; showing the first (run esr lint to list all)")
        } else {
            write!(f, "; showing the first {limit} (run esr lint to list all)")
        }
    }
}

/// Why a name was not found, and the names that exist.
#[derive(Clone, Copy)]
pub struct NotFound<'a> {
    sought: Sought<'a>,
    status: Option<TxnSummary>,
    candidates: u64,
    names: &'a [u8],
}

/// Returns why a transaction with this status is not a committed query.
fn reason_of(status: Option<TxnSummary>) -> &'static str {
    match status {
        None => "does not exist",
        Some(
            TxnSummary {
                is_query: false,
                ..
            },
        ) => "is an update",
        Some(
            TxnSummary {
                outcome: TxnOutcome::Active,
                ..
            },
        ) => "is still active",
        Some(
            TxnSummary {
                outcome: TxnOutcome::Aborted,
                ..
            },
        ) => "was aborted",
        Some(
            TxnSummary {
                outcome: TxnOutcome::Committed,
                ..
            },
        ) => "was committed",
    }
}

impl fmt::Display for NotFound<'_> {
    fn fmt<W: fmt::Write>(&self, f: &mut fmt::Formatter<W>) -> fmt::Result {
        let name = self.sought.name().unwrap_or("");
        let reason = reason_of(self.status);
        let (one, several) = self.sought.kind();
        write!(f, "\"{name}\" {reason}")?;
        if self.candidates == 0 {
            return write!(f, "; the script has no {one}");
        }
        write!(f, "; {several}: ")?;
        for byte in self.names {
            write!(f, "{}", *byte as char)?;
        }
        if self.candidates > MAX_LISTED {
            write!(f, " and {} more", self.candidates - MAX_LISTED)?;
        }
        Ok(())
    }
}
