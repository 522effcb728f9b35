//! The fault of a line, from its outcome.

use crate::observer::LineOutcome;
use crate::reason::{Diagnosis, Shown, find_reason};
use esr_history::Refusal;
use esr_report::LineError;
use std::fmt;

/// A line with a fault.
#[derive(Clone, Copy)]
pub enum FaultyLine<'a> {
    /// The line is not a command.
    NoCommand(Diagnosis<'a>),
    /// The command has an error.
    Error { line: &'a [u8], error: LineError },
    /// The machine refused the event.
    Refused { line: &'a [u8], why: Refusal },
}

impl FaultyLine<'_> {
    /// Returns the column of the fault, from 1.
    pub fn column(&self) -> usize {
        match self {
            FaultyLine::NoCommand(finding) => finding.column,
            FaultyLine::Error { .. } | FaultyLine::Refused { .. } => 1,
        }
    }
}

/// Returns the fault of a line with an error.
pub fn fault_of(line: &[u8], outcome: LineOutcome) -> Option<FaultyLine<'_>> {
    match outcome {
        LineOutcome::Error(LineError::NotACommand) => {
            Some(FaultyLine::NoCommand(find_reason(line)))
        }
        LineOutcome::Error(error) => Some(FaultyLine::Error { line, error }),
        _ => None,
    }
}

/// Returns the fault of a line with an error, or with an event that was refused and not blocked. These are mistakes,
/// whatever follows; an event blocked by a transaction may be accepted later.
pub fn mistake_of(line: &[u8], outcome: LineOutcome) -> Option<FaultyLine<'_>> {
    match outcome {
        LineOutcome::Refused(why) => match why.blocker() {
            Some(_) => None,
            None => Some(FaultyLine::Refused { line, why }),
        },
        other => fault_of(line, other),
    }
}

/// Returns an explanation of an error, if its own text is incomplete.
fn hint_of_error(error: LineError) -> &'static str {
    match error {
        LineError::NotACommand | LineError::NotACommittedQuery => "",
        LineError::ItemsAreClosed => ": items must be declared before all other lines",
        LineError::NameInUse => ": names must be unique",
        LineError::ValueOutOfRange => {
            ": allowed range is -1,000,000,000,000 to 1,000,000,000,000"
        }
        LineError::TooManyItems => ": maximum 4,096",
        LineError::WeightOutOfRange => ": allowed range is 1 to 1,000",
    }
}

/// Returns an explanation of a refusal, if its own text is incomplete.
fn hint_of_refusal(why: Refusal) -> &'static str {
    match why {
        Refusal::ValueOutOfRange => ": allowed range is -1,000,000,000,000 to 1,000,000,000,000",
        Refusal::LimitOutOfRange => ": maximum 1,000,000,000,000,000,000",
        Refusal::TooManyTransactions => ": maximum 65,535",
        Refusal::TooManyReads => ": maximum 1,000",
        _ => "",
    }
}

impl fmt::Display for FaultyLine<'_> {
    fn fmt<W: fmt::Write>(&self, f: &mut fmt::Formatter<W>) -> fmt::Result {
        match *self {
            FaultyLine::NoCommand(finding) => write!(f, "{}", finding.reason),
            FaultyLine::Error { line, error } => {
                let (text, hint) = (error.text(), hint_of_error(error));
                write!(f, "\"{}\": {text}{hint}", Shown(line))
            }
            FaultyLine::Refused { line, why } => {
                let (number, words, hint) = (why.number(), why.words(), hint_of_refusal(why));
                write!(f, "\"{}\": refused {number} {words}{hint}", Shown(line))
            }
        }
    }
}
