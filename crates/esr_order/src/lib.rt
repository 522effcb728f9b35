//! The conflict order among the updates that can precede a query, and the placements of a query.
//!
//! Commit order is a serial order of the updates, because they hold their locks until they end. It needs no search,
//! and a longer history only extends it. An update is identified by its position in commit order, so every pair of the
//! conflict order goes from a lower to a higher position. The set of updates before a query in a placement is then
//! a closed set of positions, and the least distance of the query is the least cost of a closed set (`laws`).
#![tactic(auto)]

mod accesses;
mod backward_scan;
mod chains;
mod conflicts;
mod index;
mod laws;
mod links;
mod order;
mod read_values;
mod rows;
mod scan;
mod search;
mod versions;

pub use accesses::{Access, accesses_of};
pub use index::Index;
pub use laws::{
    least_sets_are_listed, least_sets_meet, longer_histories_agree, parts_are_closed_sets,
};
pub use links::Links;
pub use order::{Order, OrderError};
pub use read_values::{distance_to, empty_lists};
pub use scan::{committed, count_must, is_committed_query, outcome_of, updates_before};
pub use versions::{NO_VERSION, NOBODY, VersionLink, VersionLinks};
