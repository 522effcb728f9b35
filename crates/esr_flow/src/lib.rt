//! Maximum flows, and the solver for the closure problem of a query.
//!
//! `solve` computes shortest augmenting paths from the zero flow (Edmonds and Karp 1972), in phases (Dinic 1970), and
//! returns the exact number of augmentations. Audits call `find_certificate` instead. It first proposes a flow by a heuristic
//! (`draft`), and a proved check tests whether the proposal is a flow. If it is, the same phases start from the proposal,
//! otherwise from the zero flow. So the heuristic needs no proof: the set and the worth do not depend on it.
#![tactic(auto)]

mod entry;
mod flow_check;
mod graph;
mod maximum;
mod network;
mod paths;
mod reach;
mod search;
mod solver;
mod sweep;

pub use maximum::DraftOutcome;
pub use network::Network;
pub use solver::{FromDraft, Solved, find_certificate, find_from_draft, solve};
