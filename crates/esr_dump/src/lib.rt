//! Texts that need only a history and no script: the script that reproduces it, and the explanation and the picture of
//! a committed query.
//!
//! A history has numbers, and texts need names. The caller passes the names, or the texts use the numbers with a letter
//! (`i0`, `t1`). The script is generated from the entries on demand, so an engine that never writes one pays nothing
//! for it.
#![tactic(auto)]

mod name_tables;
mod spelling;
mod with_names;

pub use name_tables::{item_names, transaction_names};
pub use spelling::script;
pub use with_names::script_with_names;
