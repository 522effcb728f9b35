//! Bundles: a problem and its certificate as one JSON object, and the verdict on a bundle.
//!
//! This crate is above the checker rather than in it, so that the solver and the audit do not load the statements of
//! `serde_json`. The meaning of a bundle is a function of its JSON tree, and the parser's contract relates the bytes to
//! that tree. The tree costs memory (7 times the text for a usual bundle, 18 times for a list of one-digit numbers); in
//! return no part of JSON has to be defined here.
#![tactic(auto)]

mod draft;
mod fields;
mod judgement;
mod reader;
mod sound;
mod writer;

pub use judgement::{JudgeFault, Verdict, judge, verdict_of};
pub use reader::from_json;
pub use writer::to_json;
