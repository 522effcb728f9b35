//! The content of a timeline as plain data: lanes, marks on them in the order of the log, charges between lanes, and what
//! is not drawn.
//!
//! The crates that choose this content read the history and its audits. `esr_chart`, which draws it, does not. Neither
//! depends on the other, so they are proved in parallel. No clause specifies the content.
#![tactic(auto)]

mod scene;

pub use scene::{
    Action, Arrow, Cause, ChargeSum, ChargedEvent, Excess, Farthest, Lane, ListedCharge,
    ListedRead, Mark, Mistakes, Nearest, Note, NotedWrite, Order, Reason, Relation, Rest, Scene,
    Writer, WriterStatus, weight_letters,
};
