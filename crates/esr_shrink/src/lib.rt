//! Searches for a small script in which a query is still off, by delta debugging (Zeller and Hildebrandt, IEEE TSE 2002):
//! transactions are left out, then reads and writes, then items, as long as the query commits with the distance that is
//! asked for.
//!
//! The search starts from the accepted events of the history, since a blocked event leaves no trace, and each candidate is
//! played by a machine and audited, in memory. A candidate in which an event is refused is rejected, so that every line of
//! the result is accepted. The order of the attempts is fixed, so the result is too. It is the smallest script that was
//! found: nothing can be left out of it, but another one could be smaller. Before the result is returned, it is run as a
//! script and audited once more.
#![tactic(auto)]

mod case;
mod play;
mod search;
mod text;
mod view;

pub use view::{Progress, Shrink};
