//! Reports faults on standard error: the specified line, and at a terminal further lines with the location, the limit
//! that was exceeded, or the names that exist.
//!
//! Programs compare standard error with the specified text, so nothing else is printed unless a person reads it.
//! `esr lint` lists the same explanations on standard output.

use crate::console::Console;
use esr_grammar::{Parsed, parse_line};
use esr_lint::{NotFound, Source, find_reason};
use esr_plan::DriveFault;
use esr_script::{MAX_LINE_BYTES, RunFault};
use std::fmt;
use std::fmt::Display;

/// The column after the last one of a line.
const COLUMN_TOO_FAR: usize = MAX_LINE_BYTES + 1;

/// Prints one line on standard error. Returns the status, which does not depend on standard error.
pub fn fail(rt: &impl Eprint, text: &impl Display, status: u8) -> u8 {
    let _ = eprintln!(rt; "esr: {text}");
    status
}

/// Reports a fault: its specified line, and at a terminal the lines of `help`. Returns the status 1.
pub fn report_fault(
    rt: &impl Eprint,
    console: Console,
    fault: &impl Display,
    help: &impl Display,
) -> u8 {
    let _ = eprintln!(rt; "esr: {fault}");
    if console.is_terminal {
        let _ = eprint!(rt; "{help}");
    }
    1
}

/// The further lines after a fault of a script.
#[derive(Clone, Copy)]
pub struct RunHelp<'a> {
    pub source: Source<'a>,
    pub fault: RunFault,
    /// The line that ended the run, for a fault of a line.
    pub line: u64,
    pub not_found: Option<NotFound<'a>>,
}

impl Display for RunHelp<'_> {
    fn fmt<W: fmt::Write>(&self, f: &mut fmt::Formatter<W>) -> fmt::Result {
        let source = self.source;
        if let Some(maximum) = maximum_of(self.fault) {
            let place = source.line(self.line);
            return write!(f, "  {place}: maximum {maximum}\n");
        }
        match (self.fault, self.not_found) {
            (RunFault::NotACommittedQuery, Some(not_found)) => {
                write!(f, "  {source}{not_found}\n")
            }
            (RunFault::Read, _) => write!(f, "{}", InFile(source)),
            _ => Ok(()),
        }
    }
}

/// Returns the maximum that a line exceeded.
fn maximum_of(fault: RunFault) -> Option<&'static str> {
    match fault {
        RunFault::LineTooLong => Some("200 bytes per line"),
        RunFault::HistoryFull => Some("1,000,000 entries"),
        RunFault::TooManyLines => Some("2,000,000 lines"),
        _ => None,
    }
}

/// A further line that names the file, unless it is standard input.
#[derive(Clone, Copy)]
pub struct InFile<'a>(pub Source<'a>);

impl Display for InFile<'_> {
    fn fmt<W: fmt::Write>(&self, f: &mut fmt::Formatter<W>) -> fmt::Result {
        match self.0 {
            Source(Some(file)) => write!(f, "  in {file}\n"),
            Source(None) => Ok(()),
        }
    }
}

/// A line that ended a run, as `esr lint` lists it.
#[derive(Clone, Copy)]
pub struct LastLine {
    fault: RunFault,
    maximum: &'static str,
}

impl LastLine {
    /// Returns the line that ended a run with this fault, if the fault is one of a line.
    pub fn of(fault: RunFault) -> Option<LastLine> {
        let maximum = maximum_of(fault)?;
        Some(LastLine { fault, maximum })
    }

    /// Returns the column of the first byte in excess, from 1.
    pub fn column(self) -> usize {
        match self.fault {
            RunFault::LineTooLong => COLUMN_TOO_FAR,
            _ => 1,
        }
    }
}

impl Display for LastLine {
    fn fmt<W: fmt::Write>(&self, f: &mut fmt::Formatter<W>) -> fmt::Result {
        let LastLine { fault, maximum } = *self;
        write!(f, "{fault} (maximum {maximum})")
    }
}

/// The further lines after a fault of a drive file.
#[derive(Clone, Copy)]
pub struct DriveHelp<'a> {
    pub source: Source<'a>,
    pub fault: DriveFault,
    /// The first line with an error, or nothing.
    pub line: &'a [u8],
    /// The bytes that were read.
    pub read: &'a [u8],
}

/// Returns the first line with an error, or nothing.
pub fn line_at_fault(read: &[u8], fault: DriveFault) -> &[u8] {
    let DriveFault::BadScript { line: number, .. } = fault else {
        return &[];
    };
    let mut lines = read.split(|byte| *byte == b'\n');
    lines.nth(number.saturating_sub(1) as usize).unwrap_or(&[])
}

/// Returns the number of the first line that is too long.
fn long_line(read: &[u8]) -> u64 {
    let lines = read.split(|byte| *byte == b'\n');
    let before = lines
        .take_while(|line| line.len() <= MAX_LINE_BYTES)
        .count();
    (before as u64).saturating_add(1)
}

/// Appends the reason for an error of a line of a drive file, by its number.
fn push_why<W: fmt::Write>(f: &mut fmt::Formatter<W>, error: u32, line: &[u8]) -> fmt::Result {
    match (error, parse_line(line)) {
        (1, Parsed::NotACommand) if line != b"session".as_slice() => {
            let reason = find_reason(line).reason;
            write!(f, "{reason}")
        }
        (1, Parsed::Command(_)) => f.write_str(
            "line not allowed here: a drive file has items first, then blocks, each starting with session",
        ),
        (2, _) => f.write_str("items must be declared before the first session"),
        (3, _) => f.write_str("name already in use"),
        (4, _) => f.write_str("value out of range (-1,000,000,000,000 to 1,000,000,000,000)"),
        (5, _) => f.write_str("too many items (maximum 4,096)"),
        (7, _) => f.write_str("too many blocks (maximum 64)"),
        (8, _) => f.write_str("weight out of range (1 to 1,000)"),
        _ => f.write_str("line not allowed here"),
    }
}

impl Display for DriveHelp<'_> {
    fn fmt<W: fmt::Write>(&self, f: &mut fmt::Formatter<W>) -> fmt::Result {
        let source = self.source;
        match self.fault {
            DriveFault::BadScript { line, error } => {
                let place = source.line(line);
                write!(f, "  {place}: ")?;
                push_why(f, error, self.line)?;
                f.write_str("\n")
            }
            DriveFault::LineTooLong => {
                let place = source.line(long_line(self.read));
                write!(f, "  {place}: maximum 200 bytes per line\n")
            }
            DriveFault::HistoryFull => write!(f, "  {source}maximum 1,000,000 entries\n"),
            DriveFault::TooManyLines => write!(f, "  {source}maximum 2,000,000 lines\n"),
            DriveFault::Read => write!(f, "{}", InFile(source)),
            DriveFault::Write | DriveFault::NoMemory | DriveFault::Close => Ok(()),
        }
    }
}
