//! Replays a history on a machine, entry by entry.
//!
//! A history stores what each query imported in total, but not the charges of an entry, and neither exports, locks nor
//! uncommitted values. `Replay` executes the entries again. It returns what the newest entry adds to imports, and
//! lends its machine for look-ups, so a caller needs no charge rule besides the machine's: explanations, ledgers,
//! traces, trace events and `esr_why` have none. Storing the charges in the history was rejected: every step would pay
//! for them, and few programs read them.
#![tactic(auto)]

mod metric_ref;
mod replay;

pub use metric_ref::MetricRef;
pub use replay::{Replay, empty_machine, imported};
