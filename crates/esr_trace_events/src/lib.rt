//! The transactions and charges of a script as JSON in the trace-event format, which Perfetto and `chrome://tracing`
//! open: a track for each transaction, a slice for each event, and a flow arrow for each charge, from the update to
//! the query.
//!
//! A history stores only what each query imported in total, so the charges come from a replay (`charges`, which the
//! timeline of a whole script and pages use as well). That takes the time and memory of a second run. No word needs an escape: names
//! are letters, digits and `_`.
#![tactic(auto)]

mod charges;
mod events;
mod json;
mod view;

pub use charges::{Change, Charge, Charges};
pub use view::TraceEvents;
