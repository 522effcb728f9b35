//! Tables of names, and the lines of a report. Every line of output is defined here once, for scripts, audits and
//! drives.
#![tactic(auto)]

mod key;
mod lines;
mod names;

pub use lines::{
    LineError, ReplyNames, audit_line, error_line, item_line, name_of_transaction, names_line,
    order_line, push_line, refusal_line, reply_line, session_line, totals_line, weighted_item_line,
};
pub use names::{Names, NamesByPosition};
