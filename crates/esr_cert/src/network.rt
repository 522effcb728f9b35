//! The arc of a network. A list of all arcs would take 19 MB in the audit of a history of 1,000,000 events, so there is no
//! such list: `arcs` computes each arc from the problem on request.

/// An arc of a network: its ends, and its capacity, or `None` if it is unlimited.
#[derive(Clone, Copy)]
pub struct Arc {
    pub from: u32,
    pub to: u32,
    pub capacity: Option<u64>,
}
