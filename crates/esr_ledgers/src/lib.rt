//! Ledgers: the import of each query and the export of each update, with their limits.
//!
//! The type's invariant states that no import or export exceeds its limit and that the total import equals the total export, so
//! a caller cannot violate either. `quote` returns the transaction whose limit a charge would exceed; `charge` records it on
//! both sides in one step. `try_charge` does both, and finds each account once unless it refuses.
#![tactic(auto)]

mod account;
mod ledgers;

pub use account::Account;
pub use ledgers::{Ledgers, Quote};
