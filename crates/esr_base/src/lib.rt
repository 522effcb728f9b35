//! Definitions that the engine and the certificate checker share: item and transaction numbers, the limits, the error
//! of a failed allocation, and readers and writers that remember an I/O failure.
//!
//! The checker (`esr_cert`, `esr_flow`, `esr_bundle`) depends on no other crate of the engine, so a reviewer who does
//! not trust the engine need not read it. Higher crates re-export these names: items from `esr_items`, transactions
//! from `esr_history`.
#![tactic(auto)]

mod limits;
mod no_memory;
mod numbers;
mod output;
mod watched;

pub use limits::{
    MAX_ENTRIES, MAX_ITEMS, MAX_LIMIT, MAX_READS, MAX_TRANSACTIONS, MAX_VALUE, MAX_WEIGHT,
};
pub use no_memory::NoMemory;
pub use numbers::{ItemId, TxnId};
pub use output::WriteFailed;
pub use watched::Watched;
