//! Renders a scene as SVG: a lane for each item, divided into the versions of the item; the updates above the lanes,
//! with arrows for the order that every placement preserves; and the nearest placement as a line across the lanes.
//!
//! A scene is plain data. The crate does not depend on histories, so it is proved in parallel with `esr_picture`, which
//! chooses the content of the scene. `svg_element` makes one well-formed element of any drawing, also of a timeline. No
//! other clause specifies the drawing.
#![tactic(auto)]

mod boxes;
mod elements;
mod head;
mod lanes;
mod layout;
mod legend;
mod parts;
mod root;
mod scene;
mod slots;
mod svg;
mod table;
mod texts;
mod widths;

pub use layout::updates_to_keep;
pub use root::svg_element;
pub use scene::{
    Arrow, Deciding, Entry, Lane, LanePart, LaneReads, LaneSegment, MAX_LANES, MAX_UPDATES,
    ReadValue, Row, SameValue, Scene, TransientRead, TransientReads, Update,
};
pub use svg::{Parts, parts_of};
pub use texts::MAX_ERROR_LETTERS;
