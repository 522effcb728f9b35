//! Runs a drive file: one session on its own thread for each block, and one text of all results.
//!
//! A drive demonstrates threads on one engine: the replies differ between runs and always form one legal history.
#![tactic(auto)]

mod blocks;
mod findings;
mod form;
mod parts;
mod pieces;
mod pipeline;
mod run;
mod threads;

pub use esr_board::{Gate, NoGate};
pub use esr_plan::DriveFault;
pub use form::DriveOutput;
pub use pipeline::drive;
