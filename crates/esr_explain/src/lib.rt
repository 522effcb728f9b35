//! Explains a committed query of a script: its reads, its charges, and its placement.
//!
//! The lines of the reads come first, because the values that it read are what a user knows of the report. Each line
//! also shows the value at the nearest placement, so the differences add up to the distance.
#![tactic(auto)]

mod charges;
mod explained;
mod query;
mod reads;
mod text;
mod updates_outside;

pub use charges::{Charge, OperationKind, name_of_item};
pub use explained::Explanation;
pub use query::Explaining;
pub use reads::ComparedRead;
pub use text::explanation;
