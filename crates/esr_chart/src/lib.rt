//! Draws a timeline, given its content as plain data (`esr_timeline_data`): lanes, marks on them in the order of the log,
//! and charges between lanes.
//!
//! The width of each text is computed in advance, and `layout` places the columns so that no two texts overlap, in several
//! bands one below another if they do not fit in one. This crate does not read the history, so it is proved in parallel
//! with the crates that do. Rejected: a narrow layout alone, which is too tall for a screen.
#![tactic(auto)]

mod bands;
mod charge_list;
mod charge_table;
mod edges;
mod elements;
mod excess;
mod grid;
mod head;
mod layout;
mod legend;
mod limits;
mod listing;
mod reads;
mod signs;
mod table;
mod tables;
mod titles;

pub use bands::push_bands;
pub use charge_list::MAX_CHARGES;
pub use elements::push_text;
pub use head::{
    Size, Sizes, open_narrow, prefix_of, push_attributes, push_background, push_head,
    push_heading_words,
};
pub use layout::{Band, Drawn, Format, Heads, Layout, MARGIN, Spacing, layout_of};
pub use legend::{legend_height, push_legend};
pub use table::MAX_READS;
pub use tables::Tables;
