//! Defines newtypes for item and transaction numbers, so that one cannot be passed for the other.

/// The number of an item, from 0.
#[derive(Clone, Copy, PartialEq, Eq, Default, Debug)]
pub struct ItemId(pub u32);

/// The number of a transaction: its index among the accepted begins, counted from 1.
#[derive(Clone, Copy, PartialEq, Eq, Debug)]
pub struct TxnId(pub u32);
