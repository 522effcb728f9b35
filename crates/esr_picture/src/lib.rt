//! Draws the audit of a committed query as SVG. This crate selects the content as a scene of plain data, and `esr_svg`
//! renders it.
//!
//! Drawing is a subcommand because a separate tool would have to run scripts itself: a bundle contains no values. The
//! picture shows lanes rather than the network with its cut and flow, which mean nothing to a reader who does not know
//! them. A lane is a chain of the network and the line across the lanes is a cut, so the picture shows the decision of
//! the audit. No clause specifies the drawing, except that it is one well-formed element; `checks/pictures` compares it
//! with a replay of the script.
#![tactic(auto)]

mod arrow_reduction;
mod drawing;
mod lanes;
mod observed_reads;
mod reasons;
mod required_lanes;
mod scene;
mod selection;
mod titles;
mod versions;

pub use drawing::{PictureView, PictureWithErrorsView, picture};
