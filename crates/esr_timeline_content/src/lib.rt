//! Chooses what a timeline can show: the transactions with lanes, the marks on them, the charges between them with the reads
//! that each explains, the nearest placement and the farthest read.
//!
//! Charges are those of a machine that replays the history (`esr_trace_events`), and marks are the entries of the history.
//! If not all of this fits, `esr_timeline` omits some. The content needs no widths, so this crate and `esr_chart` are proved
//! in parallel. No clause specifies the content.
#![tactic(auto)]

mod causes;
mod charges;
mod farthest;
mod lanes;
mod marks;
mod notes;
mod predecessors;
mod sides;
mod source;

pub use causes::Causes;
pub use charges::{
    between, charge_sums, charges_in, charges_to_all, drawable, greatest, sum_of, undrawn_charges,
    with_drawn, with_exports,
};
pub use farthest::{farthest_read, reason_of_farthest};
pub use lanes::{
    MAX_CHARGERS, MAX_LANES, chargers, concerned, counts_of, farthest_query, first_begun, lane_at,
    lanes_of, nearest_to, note_sides,
};
pub use marks::{
    count_off_reads, exact_reads_on, keys_of, mark_keys, mark_query_reads, marks_of, marks_on,
    mistakes_on, note_excesses, off_reads_on,
};
pub use notes::complete_notes;
pub use sides::sides_of;
pub use source::{PlacedQuery, Source};
