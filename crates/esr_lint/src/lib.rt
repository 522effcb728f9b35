//! Diagnostics for faulty lines. The loop over the lines of a script passes each line to an observer, and the observers
//! of the program print the lines with errors and the reasons.
//!
//! A run replies to a faulty line and continues, and most subcommands discard the replies. Without a diagnostic, a
//! misspelled line can silently turn an audit's distance into 0. No clause specifies the text of a diagnostic: the
//! code that writes it is proved safe and terminating, and the text is tested. An observer therefore guarantees nothing, the loop over the lines
//! assumes nothing about it, and the contracts of standard output do not mention it. Returning the errors in the results of
//! `run` and `audit` was rejected, since it would put heuristics into contracts. Of the engine, the crate
//! uses only the replies.
#![tactic(auto)]

mod answer;
mod forms;
mod kept_line;
mod listing;
mod notes;
mod observer;
mod place;
mod reason;
mod relevant;
mod reporter;

pub use answer::{FaultyLine, fault_of};
pub use kept_line::KeptLine;
pub use listing::{Listing, Unlisted};
pub use notes::Notes;
pub use observer::{LineOutcome, NoObserver, Observer, TxnSummary};
pub use place::{Place, Source};
pub use reason::{Diagnosis, NumberFault, Reason, find_reason};
pub use reporter::{ErrorReporter, NotFound, Reports, Sought};
