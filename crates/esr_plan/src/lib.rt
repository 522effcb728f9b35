//! Plans: the parsed content of a drive file, and the text of its results. They use no threads and account for most of
//! the proof of a drive, so they are separate from `esr_drive`, which runs the blocks.
#![tactic(auto)]

mod call;
mod draft;
mod drive_plan;
mod fault;
mod opening;
mod reader;
mod table;
mod text;

pub use call::{Call, event_of};
pub use draft::MAX_BLOCKS;
pub use drive_plan::{DrivePlan, drive_plan_of};
pub use fault::DriveFault;
pub use opening::metric_of;
pub use reader::read_all;
pub use table::{BegunNames, begun_names};
pub use text::{block_text, push_items, push_summaries};
