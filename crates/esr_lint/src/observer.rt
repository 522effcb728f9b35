//! Observers of the lines of a script and their outcomes.
//!
//! An observer receives the outcome of a line as data. Rejected: passing it the text of the reply, which it would have to
//! parse again for each line.

use esr_history::{Refusal, Reply, TxnOutcome};
use esr_report::LineError;

/// The outcome of a line of a script.
#[derive(Clone, Copy)]
pub enum LineOutcome {
    /// The line submits no event and has no error.
    NoEvent,
    /// The machine accepted the event.
    Accepted,
    /// The machine refused the event.
    Refused(Refusal),
    /// The line has an error.
    Error(LineError),
    /// The line is the reason why a drive file is not executed.
    Rejected,
}

impl LineOutcome {
    /// Returns the outcome of a line whose event has this reply.
    #[inline(always)]
    pub fn of_reply(reply: Reply) -> LineOutcome {
        match reply {
            Reply::Refused(why) => LineOutcome::Refused(why),
            _ => LineOutcome::Accepted,
        }
    }
}

/// The kind and the outcome of a transaction.
#[derive(Clone, Copy)]
pub struct TxnSummary {
    pub is_query: bool,
    pub outcome: TxnOutcome,
}

/// Observes the lines of a script while they are executed. Its only promise is to return.
pub trait Observer {
    /// Returns the seed of the hashes of the script's names, which the author of the script does not know; 0 if no one
    /// chose the names to have equal hashes.
    fn hash_seed(&self) -> u64 {
        0
    }

    /// Receives the number, from 1, of a line whose event the machine accepted. Most lines are such.
    fn see_accepted(&mut self, _number: u64) {}

    /// Receives any other line that submits an event or has an error, with its number, without its line feed, and its outcome.
    fn see_line(&mut self, number: u64, line: &[u8], outcome: LineOutcome);

    /// Receives the number of lines so far, before the run waits for input or sends much output.
    fn see_progress(&mut self, _lines: u64) {}

    /// Receives a transaction after the last line, in the order of the begins. Transactions are shown before a text
    /// of the whole script is made, if the requested query is not a committed one, and at the end of a listing.
    fn see_transaction(&mut self, name: &str, status: TxnSummary);

    /// Ends the lines, and receives the number of lines that were completed. The final state of the script is not written yet.
    fn see_end(&mut self, lines: u64);
}

/// An observer that ignores what it is shown.
#[derive(Drop)]
pub struct NoObserver;

impl Observer for NoObserver {
    fn see_line(&mut self, _number: u64, _line: &[u8], _outcome: LineOutcome) {}

    fn see_transaction(&mut self, _name: &str, _status: TxnSummary) {}

    fn see_end(&mut self, _lines: u64) {}
}
