//! Compressed lists of transactions.
//!
//! The set before a query usually contains nearly all updates that committed before it, and transactions usually commit in
//! the order of their begins. Such a list is stored as intervals of consecutive numbers if there are few of these, and
//! uncompressed otherwise. A summary of 65,000 updates then takes a few bytes instead of 260,000. Rejected: a bit set, because
//! reading it back would require the commit order again.
ghost use Rattle.std.specs.Prelude.{◌≡◌, ◌≤◌, ◌++◌, ◌∷◌, [], true, OnOk, IfOk, IfSome, map, flat_map};
ghost use Rattle.esr_audit.specs.Ranges.{listed, numbers_in};

use esr_history::TxnId;
use std::alloc::{AllocError, Global};

/// Consecutive numbers of transactions, from the first up to the end, and not with it.
#[derive(Clone, Copy, Debug)]
pub struct TxnRange {
    pub first: u32,
    pub end: u32,
}

/// Transactions in order.
#[derive(Debug, Drop)]
pub enum TxnList {
    Each(Vec<TxnId>),
    Ranges(Vec<TxnRange>),
}

/// Returns whether a transaction follows an interval.
fn follows(range: TxnRange, t: TxnId) -> bool
    ensures begun { result ≡ true → range.first ≤ range.end }
    ensures next { result ≡ true → range.end ≡ t.0 }
{
    range.first <= range.end && range.end == t.0
}

/// Returns the last interval after one more transaction: the interval is extended, or it is appended to `ranges` and
/// the transaction begins a new one. Returns `None` if an allocation failed, or if the number has no successor.
#[tactic(auto, using(crate::proofs::RangeLaws::continues, crate::proofs::RangeLaws::begins))]
fn range_with(ranges: &mut Vec<TxnRange>, last: TxnRange, t: TxnId) -> Option<TxnRange>
    ensures { IfSome result (λ s. flat_map numbers_in ranges.new.items ++ numbers_in s
        ≡ flat_map numbers_in ranges.old.items ++ numbers_in last ++ t.0 ∷ []) }
{
    let end = t.0.checked_add(1)?;
    if follows(last, t) {
        return Some(TxnRange {
            first: last.first,
            end,
        });
    }
    ranges.push(last).ok()?;
    Some(TxnRange { first: t.0, end })
}

/// Returns the intervals of transactions, or `None` if an allocation failed or a number has no successor.
fn ranges_of(alloc: Global, txns: &[TxnId]) -> Option<Vec<TxnRange>>
    ensures { IfSome result (λ v. flat_map numbers_in v.items ≡ map (λ t. t.0) txns.now) }
{
    let mut ranges = Vec::new(alloc);
    let mut last = TxnRange { first: 0, end: 0 };
    for t in txns {
        last = range_with(&mut ranges, last, *t)?;
    }
    ranges.push(last).ok()?;
    Some(ranges)
}

/// Adds the transactions of a range.
fn push_range(txns: &mut Vec<TxnId>, range: TxnRange) -> Result<(), AllocError>
    ensures { OnOk result (map (λ t. t.0) txns.new.items ≡ map (λ t. t.0) txns.old.items ++ numbers_in range) }
{
    for number in range.first..range.end {
        txns.push(TxnId(number))?;
    }
    Ok(())
}

/// Returns the transactions of intervals.
fn txns_of(alloc: Global, ranges: &[TxnRange]) -> Result<Vec<TxnId>, AllocError>
    ensures { IfOk result (λ v. map (λ t. t.0) v.items ≡ flat_map numbers_in ranges.now) }
{
    let mut txns = Vec::new(alloc);
    for range in ranges {
        push_range(&mut txns, *range)?;
    }
    Ok(txns)
}

impl TxnList {
    /// Compresses the transactions to intervals if that takes less memory and the allocation succeeds.
    pub fn of(txns: Vec<TxnId>) -> TxnList
        ensures { listed result ≡ map (λ t. t.0) txns.items }
    {
        if let Some(ranges) = ranges_of(*txns.allocator(), &txns) {
            if ranges.len() < txns.len() / 2 {
                return TxnList::Ranges(ranges);
            }
        }
        TxnList::Each(txns)
    }

    /// Returns the transactions as an uncompressed list.
    pub fn to_vec(&self, alloc: Global) -> Result<Vec<TxnId>, AllocError>
        ensures { IfOk result (λ v. map (λ t. t.0) v.items ≡ listed self.now) }
    {
        match self {
            TxnList::Each(txns) => txns.as_slice().to_vec(alloc),
            TxnList::Ranges(ranges) => txns_of(alloc, ranges),
        }
    }
}
