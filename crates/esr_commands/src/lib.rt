//! Executes the subcommands that take a script or a bundle: opens the input, runs the operation, reports the outcome on
//! standard error, and returns the exit status. Parsing of arguments is in `esr_cli`.
//!
//! Operations on a script implement `Command`, so this crate does not depend on the crates for pictures, pages and tables, and is
//! proved in parallel with them. A bundle is checked by itself, or against the problem of a query of a script.
#![tactic(auto)]

mod claim;
mod command;
mod comparison;
mod console;
mod detail;
mod fault;
mod judgement;
mod listing;
mod meter;
mod open;
mod output;

pub use claim::{BundleClaim, claim_of};
pub use command::{
    AuditText, Command, RenderQuery, RenderScript, RunScript, WriteBundle, audit_script,
    audit_script_as, execute_command,
};
pub use console::Console;
pub use detail::detail_of;
pub use fault::{DriveHelp, fail, line_at_fault, report_fault};
pub use judgement::{Question, check};
pub use listing::list_faults;
pub use meter::Meter;
pub use open::open_file;
pub use output::{Output, is_closed_pipe};
