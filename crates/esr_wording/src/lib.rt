//! Words and counts that timelines, pictures and prose share: texts of outcomes, lists of names, the summands of a
//! distance, and the numbers of transactions by their kinds.
//!
//! None of them needs the trace of a query, so `esr_chart`, which draws what it is given, does not depend on `esr_trace`,
//! and both are proved in parallel. No clause specifies the text.
#![tactic(auto)]

mod counts;
mod summands;
mod text;

pub use counts::{TxnClass, TxnCounts, class_of, push_undrawn};
pub use summands::{OffReads, push_summands};
pub use text::{MAX_NAMES, outcome_words, push_certificate, push_names, push_rest};
