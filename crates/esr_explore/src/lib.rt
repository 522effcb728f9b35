//! Runs the blocks of a drive file many times on one thread, in all interleavings of their lines or in random ones, and
//! summarizes the outcomes.
//!
//! A drive shows one schedule of its threads. Here a run is determined by its list of turns, so it can be reproduced,
//! and all schedules can be enumerated. Each summary describes a legal history in which each entry is the reply to the
//! next line of a block.
//!
//! An interleaving is a list of block numbers in which each block occurs once for each of its lines. All interleavings
//! are built by extending each prefix with every block that has a line left. A successor function would avoid the list
//! but needs more proof; with at most 100,000 interleavings of at most 1,000 turns the list is small. No clause states
//! that a random interleaving is uniformly distributed.
#![tactic(auto)]

mod count;
mod draws;
mod measure;
mod orders;
mod pipeline;
mod progress;
mod query;
mod report;
mod run;
mod run_summary;
mod summary;
mod ways;

pub use measure::Measure;
pub use pipeline::{Search, explore};
pub use ways::{ExploreFault, MAX_LINES};
