//! Audits by streaming: computes the least distance of a query, and the smallest closed set of updates whose cost is this
//! distance, in passes over the updates in commit order.
//!
//! The method builds neither a closure problem nor a flow network. First, `propose_amounts` (`sweep`) proposes an amount for
//! each version of an item. No contract constrains these amounts. Then a *pass* (`pass`) caps each amount at the cost of its
//! version. Every closed set contains the *mandatory* updates: of a strict query, the updates that committed before it began;
//! of any other query, none.
//!
//! A pass applies the updates in commit order and keeps a sum: the capped amounts of the current versions, less the *loans*. An
//! update that reads a version may raise its amount, or take a loan, which the next writer repays. Let S be the sum directly
//! after the mandatory updates. If a later update decreases the sum, the pass fails. Otherwise every closed set costs at least
//! S (`esr_bound`). The pass also marks updates that every closed set of cost S contains, and `close` adds their predecessors.
//!
//! If `close` adds an update, another pass follows, which keeps all marks (`rounds`). If all updates before a position are
//! marked, every closed set of cost S contains them, as if they were mandatory. So the pass starts from the states at that
//! position, provided that their sum is at least S. After many updates in a row without a mark it ends early; the next pass,
//! which must have the same amounts there, continues. When a pass has reached the last update, `close` adds none and the marked
//! set costs S, this set is the result. In all other cases, or if the passes visit more than 64 times as many updates as there
//! are (`MAX_VISITS_PER_UPDATE`), `least_of` returns `None`, and the caller solves the closure problem of the query
//! (`esr_audit`).
//!
//! The proof covers the pass and not the proposed amounts, so the proposal can change without a new theorem. Costs are never
//! negative, but amounts can be. So costs and amounts are stored as unsigned integers with `OFFSET` added. Rejected design: a
//! flow whose arcs are numbered by the entries of the history. Its check needs the arcs of the network, and tests flow
//! conservation at each update.
#![tactic(auto)]

mod amounts;
mod closing;
mod frontier;
mod items;
mod labels;
mod least;
mod pass;
mod query;
mod reads;
mod residual;
mod rounds;
mod search;
mod sweep;
mod update_reads;

pub use least::{Least, least_of};
