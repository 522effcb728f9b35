//! The trace of a query: its reads and the writers of the values, its charges and the transactions charged, and the few
//! sentences that appear above a picture and at the beginning of its prose.
//!
//! Pictures and prose depend on this crate and not on each other, so they are proved in parallel. The crate is proved
//! safe and terminating. No clause specifies the text.
#![tactic(auto)]

mod alternative;
mod part;
mod positions;
mod readings;
mod reasons;
mod relevance;
mod sentences;
mod subject;
mod sum_errors;
mod trace;
mod traces;

pub use alternative::{Alternative, MAX_ALTERNATIVES, Subject};
pub use part::Part;
pub use positions::Positions;
pub use readings::{ReadSum, Reading, total_of_reads};
pub use reasons::{Reason, Reasons, is_overwritten};
pub use relevance::{NearestPlacement, relevant_updates};
pub use sentences::{
    off_reads, opening_distance, push_charge_rule, push_nearest_moment, push_opening, push_strict,
    push_verdict, sentences_of,
};
pub use subject::Audited;
pub use sum_errors::sum_error;
pub use trace::{Cause, ChargeGroup, ObservedRead, QueryTrace, Sum, WriterEnd};
pub use traces::{Exceeded, LimitUse, Traced, Traces, trace_of, traces_of};
