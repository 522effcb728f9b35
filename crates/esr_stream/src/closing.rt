//! Adds to a marked set the updates that precede its members.
//!
//! A predecessor of an update has a lower position in commit order, so one pass back along the updates closes the set. The
//! pass records the items that the marked updates visited so far, which are later in commit order, have read and written.
ghost use Rattle.std.specs.Prelude.{◌≡◌, ◌≤◌, ◌<◌, ◌||◌, ℕ, ℤ, All, IfOk, false, length, map, true};
ghost use Rattle.std.specs.List.{list_any};
ghost use Rattle.esr_history.specs.Queries.{must};
ghost use Rattle.esr_order.specs.Placements.{IsClosed};
ghost use Rattle.esr_order.specs.BackwardSearch.{conflicts_with, is_access, marked};
ghost use Rattle.esr_bound.specs.Amounts.{AreForced, among_marked};
ghost use Rattle.esr_stream.specs.Closing.{IsAdded, seen_later};
ghost use Rattle.esr_stream.specs.Passes.{IsPrefixMarked, NoneMarkedFrom, StayMarked};
ghost use Rattle.esr_stream.specs.Query.{updates_of};

use crate::query::AuditedQuery;
use esr_items::Metric;
use esr_order::Access;
use std::alloc::{AllocError, Global};

/// Returns the flag at a position, `false` past the end.
pub fn is_marked(flags: &[bool], i: usize) -> bool
    ensures { result ≡ marked flags.now i }
{
    flags.get(i).copied().unwrap_or(false)
}

/// Sets the flag in `read` of each item that one of these accesses reads, and the flag in `written` of each one that it writes.
fn mark(read: &mut [bool], written: &mut [bool], accesses: &[Access])
    requires read_in_range { All (λ a. a.item.0 < length read.old) accesses.now }
    requires written_in_range { All (λ a. a.item.0 < length written.old) accesses.now }
    ensures read_len { length read.new ≡ length read.old }
    ensures written_len { length written.new ≡ length written.old }
    ensures read { (x : ℕ) → marked read.new x ≡ (marked read.old x || list_any (is_access false x) accesses.now) }
    ensures written { (x : ℕ) → marked written.new x ≡ (marked written.old x || list_any (is_access true x) accesses.now) }
{
    for access in accesses {
        if access.writes {
            written[access.item.0 as usize] = true;
        } else {
            read[access.item.0 as usize] = true;
        }
    }
}

/// The items that later marked updates have read, and those that they have written.
#[derive(Drop)]
struct Later {
    read: Vec<bool>,
    written: Vec<bool>,
}

impl Later {
    /// Returns whether one of these accesses conflicts with an access of a later marked update.
    fn has_conflict(&self, accesses: &[Access]) -> bool
        ensures { result ≡ list_any (conflicts_with (seen_later self.now)) accesses.now }
    {
        accesses.iter().any(|a| {
            is_marked(&self.written, a.item.0 as usize)
                || (a.writes && is_marked(&self.read, a.item.0 as usize))
        })
    }

    /// Returns whether an update belongs to the closed set: it was marked before, or it conflicts with a later marked update.
    fn is_member(&self, accesses: &[Access], was_member: bool) -> bool
        ensures { result ≡ (was_member || list_any (conflicts_with (seen_later self.now)) accesses.now) }
    {
        was_member || self.has_conflict(accesses)
    }

    /// Adds the accesses of a marked update.
    fn add(&mut self, accesses: &[Access])
        requires read_in_range { All (λ a. a.item.0 < length self.old.read.items) accesses.now }
        requires written_in_range { All (λ a. a.item.0 < length self.old.written.items) accesses.now }
        ensures read_len { length self.new.read.items ≡ length self.old.read.items }
        ensures written_len { length self.new.written.items ≡ length self.old.written.items }
        ensures read { (x : ℕ) → marked self.new.read.items x
            ≡ (marked self.old.read.items x || list_any (is_access false x) accesses.now) }
        ensures written { (x : ℕ) → marked self.new.written.items x
            ≡ (marked self.old.written.items x || list_any (is_access true x) accesses.now) }
    {
        mark(&mut self.read, &mut self.written, accesses);
    }

    /// Adds the accesses of an update, if it is marked.
    fn add_if(&mut self, accesses: &[Access], is_member: bool)
        requires read_in_range { All (λ a. a.item.0 < length self.old.read.items) accesses.now }
        requires written_in_range { All (λ a. a.item.0 < length self.old.written.items) accesses.now }
        ensures read_len { length self.new.read.items ≡ length self.old.read.items }
        ensures written_len { length self.new.written.items ≡ length self.old.written.items }
        ensures member { is_member ≡ true → IsAdded accesses.now (seen_later self.old) (seen_later self.new) }
        ensures other { is_member ≡ false → seen_later self.new ≡ seen_later self.old }
    {
        if is_member {
            self.add(accesses);
        }
    }
}

/// Returns a `Later` in which none of `items` items has been read or written.
fn no_later(alloc: Global, items: u32) -> Result<Later, AllocError>
    ensures read_len { IfOk result (λ later. length later.read.items ≡ items) }
    ensures written_len { IfOk result (λ later. length later.written.items ≡ items) }
    ensures read { IfOk result (λ later. (x : ℕ) → marked later.read.items x ≡ false) }
    ensures written { IfOk result (λ later. (x : ℕ) → marked later.written.items x ≡ false) }
{
    let read = vec![in alloc; false; items as usize]?;
    let written = vec![in alloc; false; items as usize]?;
    Ok(Later { read, written })
}

/// Returns whether this pass has marked an update that was not marked before the pass. `added` is the answer for the updates
/// that it visited before this one.
fn has_added(added: bool, is_member: bool, was_member: bool) -> bool {
    added || is_member != was_member
}

/// Marks the updates that precede marked updates, if all updates before the position `from` and none from `to` on are marked.
/// Returns whether it marked any. In `forced`, `n` is the number of items, `C x v` the cost of the version `v` of item `x`, and
/// `worth` any cost.
///
/// # Errors
///
/// An allocation failed.
pub fn close<M: Metric>(
    alloc: Global,
    query: &AuditedQuery<M>,
    from: usize,
    to: usize,
    marks: &mut [bool],
) -> Result<bool, AllocError>
    requires to { to ≤ length (updates_of query.now) }
    requires marks { length marks.old ≡ length (updates_of query.now) }
    requires none_marked { NoneMarkedFrom to marks.old }
    ensures len { length marks.new ≡ length marks.old }
    ensures stay { StayMarked marks.old marks.new }
    ensures forced { IfOk result (λ _. (n worth : ℕ) (C : ℕ → ℤ → ℕ)
        → AreForced n C query.now.schedule query.now.query worth marks.old
        → AreForced n C query.now.schedule query.now.query worth marks.new) }
    ensures none_marked { NoneMarkedFrom to marks.new }
    ensures closed { IfOk result (λ _. IsPrefixMarked (length (must query.now.schedule query.now.query)) marks.old
        → IsPrefixMarked from marks.old → IsClosed query.now.schedule query.now.query (among_marked (updates_of query.now) marks.new)) }
{
    let _invariant = query.history(); // brings the invariant into the proof
    let mut later = no_later(alloc, query.items())?;
    let mut list = Vec::new(alloc);
    let mut added = false;
    for i in (from..to).rev() {
        let row = query.accesses(i, &mut list)?;
        let is_member = later.is_member(row, marks[i]);
        added = has_added(added, is_member, marks[i]);
        marks[i] = is_member;
        later.add_if(row, is_member);
    }
    Ok(added)
}
