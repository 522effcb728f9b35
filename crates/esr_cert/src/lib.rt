//! Problems, certificates of their least cost, and the check of a certificate.
//!
//! The network of a problem has one node for each update, a source and a sink. Its cuts of finite capacity are the closed
//! sets, and the capacity of such a cut is the cost of its set. By weak duality the value of a flow is at most the cost of
//! any closed set. A certificate is a closed set and a flow of equal worth, so it proves that no closed set costs less.
//!
//! A reviewer has to trust only this crate and `esr_base`, and `esr_bundle` to check a bundle: the origin of a
//! certificate does not matter, and this crate knows neither histories nor solvers. Nodes, arcs, flows and cuts are
//! defined here because the check refers to them. The adjacency lists of residual arcs are built here once, for the
//! check and for the solver.
#![tactic(auto)]

mod adjacency;
mod arcs;
mod certificate;
mod chain_starts;
mod checker;
mod draft;
mod lists;
mod network;
mod parts;
mod problem;
mod range;
mod residual;
mod shape;

pub use adjacency::{Adjacency, Span};
pub use certificate::{Certificate, Fault};
pub use checker::check;
pub use draft::{ChainDraft, ProblemDraft};
pub use network::Arc;
pub use problem::{BundleFault, Chain, Problem, ProblemParts};
pub use residual::{PackedResidualArc, ResidualArc};
pub use shape::has_valid_shape;
