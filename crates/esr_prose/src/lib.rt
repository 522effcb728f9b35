//! Describes a query in sentences for readers who do not know the theory: its reads and the writers of the values, each
//! charge with its cause, and the moment that is nearest to the values read.
//!
//! Prose is advice: it is proved safe and terminating, and no clause specifies its text. The trace, and the sentences
//! that a picture shows too, come from `esr_trace`.
#![tactic(auto)]

mod charges;
mod nearest;
mod paragraphs;
mod passage;
mod prose;
mod reads;
mod subject;

pub use paragraphs::Prose;
pub use passage::Passage;
