//! Defines the limits of stores and histories, each once: code and specifications use these constants. A limit that
//! follows from several of them is computed at its place of use.

/// The most items that a store has.
pub const MAX_ITEMS: usize = 4096;

/// The largest value of an item. The smallest is its negative.
pub const MAX_VALUE: u64 = 1_000_000_000_000;

/// The largest weight of an item. The smallest is 1.
pub const MAX_WEIGHT: u32 = 1000;

/// The most entries of a machine's history.
pub const MAX_ENTRIES: usize = 1_000_000;

/// The most transactions that begin in a history, and so the largest number of one.
pub const MAX_TRANSACTIONS: usize = 65_535;

/// The largest limit of a transaction.
pub const MAX_LIMIT: u64 = 1_000_000_000_000_000_000;

/// The most reads of a query.
pub const MAX_READS: u32 = 1_000;
