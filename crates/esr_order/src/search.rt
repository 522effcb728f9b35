//! Searches for the relevant updates of a query, backward from its reads.
//!
//! An update that precedes another has a lower position, so one backward scan of the query's updates suffices. The scan
//! keeps the items that the query and the relevant updates found so far have read, and those that these updates have
//! written: an update is relevant if one of its operations conflicts with one of those.
//!
//! Rejected: following the links of items from those that the query read (it visits less if few updates are relevant, but
//! it also visits the entries of queries, all over the log, and if all updates are relevant it takes several times as
//! long); and finding the connected part of the history first and cutting an order out of it (it needs a second order
//! and a worklist).
ghost use Rattle.std.specs.Prelude.{◌≡◌, ◌<◌, ◌||◌, ℕ, true, false, IfOk, All, length, map};
ghost use Rattle.std.specs.List.{list_any};
ghost use Rattle.esr_history.specs.Queries.{updates_committed_before, must};
ghost use Rattle.esr_order.specs.AccessRows.{AreRowsOf};
ghost use Rattle.esr_order.specs.Relevant.{AreRelevant};
ghost use Rattle.esr_order.specs.Scans.{accesses_in};
ghost use Rattle.esr_order.specs.BackwardSearch.{marked, is_access, seen_items, conflicts_with};

use crate::accesses::{Access, accesses_of};
use crate::rows::AccessRows;
use esr_history::{History, TxnId};
use esr_items::Metric;
use std::alloc::{AllocError, Global};

fn is_marked(flags: &[bool], i: usize) -> bool
    ensures { result ≡ marked flags.now i }
{
    flags.get(i).copied().unwrap_or(false)
}

/// Marks the items of these accesses, of the writes or of the reads.
fn mark(flags: &mut [bool], accesses: &[Access], writes: bool)
    requires items { All (λ a. a.item.0 < length flags.old) accesses.now }
    ensures len { length flags.new ≡ length flags.old }
    ensures marks { (x : ℕ) → marked flags.new x
        ≡ (marked flags.old x || list_any (is_access writes x) accesses.now) }
{
    for access in accesses {
        if access.writes == writes {
            flags[access.item.0 as usize] = true;
        }
    }
}

/// Counts the writes of each item among these accesses.
fn count_writes(counts: &mut [u32], accesses: &[Access]) {
    for access in accesses {
        if access.writes {
            if let Some(count) = counts.get_mut(access.item.0 as usize) {
                // it cannot reach its end: a history has 1,000,000 entries
                *count = count.saturating_add(1);
            }
        }
    }
}

/// The items that a query and the relevant updates found so far have read, and those that these updates have written.
#[derive(Drop)]
struct Items {
    read: Vec<bool>,
    written: Vec<bool>,
}

impl Items {
    /// Returns the items that a query read.
    fn read_by<M: Metric>(
        alloc: Global,
        history: &History<M>,
        q: TxnId,
    ) -> Result<Items, AllocError>
        ensures read_len { IfOk result (λ items. length items.read.items ≡ length history.now.schedule.opening) }
        ensures written_len { IfOk result (λ items. length items.written.items
            ≡ length history.now.schedule.opening) }
        ensures read { IfOk result (λ items. (x : ℕ) → marked items.read.items x
            ≡ list_any (is_access false x) (accesses_in history.now.schedule.entries q.0)) }
        ensures written { IfOk result (λ items. (x : ℕ) → marked items.written.items x ≡ false) }
    {
        let _invariant = history.log(); // brings the invariant into the proof
        let mut read = vec![in alloc; false; history.items() as usize]?;
        let written = vec![in alloc; false; history.items() as usize]?;
        let accesses = accesses_of(alloc, history, q)?;
        mark(&mut read, &accesses, false);
        Ok(Items { read, written })
    }

    /// Returns whether one of these accesses conflicts with an earlier one: both access one item, and one of them
    /// writes.
    fn conflict(&self, accesses: &[Access]) -> bool
        ensures { result ≡ list_any (conflicts_with (seen_items self.now)) accesses.now }
    {
        accesses.iter().any(|a| {
            is_marked(&self.written, a.item.0 as usize)
                || (a.writes && is_marked(&self.read, a.item.0 as usize))
        })
    }

    /// Adds the items of an update.
    fn add(&mut self, accesses: &[Access])
        requires read { All (λ a. a.item.0 < length self.old.read.items) accesses.now }
        requires written { All (λ a. a.item.0 < length self.old.written.items) accesses.now }
        ensures read_len { length self.new.read.items ≡ length self.old.read.items }
        ensures written_len { length self.new.written.items ≡ length self.old.written.items }
        ensures read { (x : ℕ) → marked self.new.read.items x
            ≡ (marked self.old.read.items x || list_any (is_access false x) accesses.now) }
        ensures written { (x : ℕ) → marked self.new.written.items x
            ≡ (marked self.old.written.items x || list_any (is_access true x) accesses.now) }
    {
        mark(&mut self.read, accesses, false);
        mark(&mut self.written, accesses, true);
    }
}

/// The relevant updates of a query, and how often they wrote each item, as capacities for chains. The counts need not be
/// exact: a chain grows if necessary.
#[derive(Drop)]
pub struct Relevant {
    pub updates: Vec<TxnId>,
    pub writes: Vec<u32>,
}

/// Returns the relevant ones among the updates of a query, of which it must have seen the first ones. Searches backward in
/// commit order: an update is relevant if it conflicts with the query or with a relevant update after it.
pub fn relevant_of<M: Metric>(
    alloc: Global,
    history: &History<M>,
    rows: &AccessRows,
    updates: &[TxnId],
    first: usize,
    q: TxnId,
) -> Result<Relevant, AllocError>
    requires rows { AreRowsOf history.now.schedule.entries rows.now }
    requires updates { map (λ t. t.0) updates.now ≡ updates_committed_before history.now.schedule q.0 }
    requires first { first ≡ length (must history.now.schedule q.0) }
    ensures relevant { IfOk result (λ n. AreRelevant history.now.schedule q.0 (map (λ t. t.0) n.updates.items)) }
{
    let _invariant = history.log(); // brings the invariant into the proof
    let mut items = Items::read_by(alloc, history, q)?;
    let mut writes = vec![in alloc; 0u32; history.items() as usize]?;
    let mut relevant = Vec::new(alloc);
    let mut list = Vec::new(alloc);
    for i in (0..updates.len()).rev() {
        let accesses = rows.accesses_of(history, updates[i], &mut list)?;
        if i < first || items.conflict(accesses) {
            items.add(accesses);
            count_writes(&mut writes, accesses);
            relevant.push(updates[i])?;
        }
    }
    relevant.reverse();
    Ok(Relevant {
        updates: relevant,
        writes,
    })
}
