//! Runs a script line by line, from bytes to bytes.
//!
//! The output of a run is defined for every input (`specs/Text`: `outcome`). The definition has one clause for each variant of
//! a reply and of a refusal, and no catch-all, so no line can be omitted unnoticed. The same loop serves the subcommands that
//! discard the output of the lines: audits of whole scripts, and all texts about one query.
#![tactic(auto)]

mod answers;
mod audit_text;
mod audited_script;
mod book;
mod bundles;
mod copier;
mod declarations;
mod echo;
mod engine;
mod entry_lines;
mod fault;
mod input;
mod inspection;
mod lines;
mod output;
mod query;
mod query_text;
mod runs;
mod script;
mod script_text;
mod silent_run;
mod sink;
mod stage;
mod text_buffer;

pub use audit_text::{audit, audit_silently};
pub use audited_script::AuditedScript;
pub use bundles::{certify, certify_steps};
pub use copier::TeeReader;
pub use esr_board::{Gate, NoGate};
pub use esr_grammar::{INPUT_ROOM, Line, MAX_LINE_BYTES, MAX_LINES, Parsed, parse_line};
pub use fault::RunFault;
pub use inspection::lint;
pub use output::send_all;
pub use query::ask;
pub use query_text::render_query;
pub use runs::run;
pub use script_text::render_script;
