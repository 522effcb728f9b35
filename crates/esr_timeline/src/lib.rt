//! Builds a timeline, an SVG picture of the execution of a script: a lane for each transaction, a mark for each read, write
//! and blocked event, an arrow from the update to the report for each charge, and below the lane of the report a bar for the
//! used part of its limit.
//!
//! The picture of an audit (`esr_picture`) shows a serial order and has no time axis. A timeline shows the order of
//! execution. For a long script it shows one query and the transactions that affect it. `esr_timeline_content` chooses them,
//! and `esr_chart` does the drawing; neither depends on the other. If the content has too many bands, `fit` omits labels,
//! then events, then charges; the charges that explain the distance are omitted last. The SVG element has a wide layout, and
//! a narrow one for phones. The contract specifies only that the result is one well-formed element; `checks/pictures`
//! compares the drawing with a replay.
#![tactic(auto)]

mod drawing;
mod fit;
mod sentences;
mod view;

pub use view::{Timeline, TimelinePart};
