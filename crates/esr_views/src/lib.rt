//! Interfaces between the crate that runs scripts and the crates that describe them: the view of an audited query and
//! the view of a whole script, each with the texts that may be written about it.
//!
//! Scripts are not run here, so a crate that writes such a text does not wait for the proof of `esr_script`.
#![tactic(auto)]

mod query;
mod query_view;
mod recording;
mod script_view;

pub use query::AuditedQuery;
pub use query_view::QueryView;
pub use recording::Recording;
pub use script_view::ScriptView;
