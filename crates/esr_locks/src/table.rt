//! The locks of each item, and for each transaction the items on which it holds a lock.
//!
//! A check for conflicts reads only the item's locks, and a release visits only the transaction's items. Contracts see
//! the locks of each item and the spare capacity; the lists by transaction are visible only through `items_of`, which a
//! commit uses to find the items written.
//!
//! A write calls `reserve_list` before anything changes. A read calls `try_add_read_update` or `try_add_read_query`, which
//! reserves capacity and adds the lock, so that the item is looked up once. All three are inlined, since they usually find
//! spare capacity. Growth is a separate function, so that the usual path does not pay for its locals.

ghost use Rattle.std.specs.Prelude.{◌≡◌, ℕ, ◌<◌, ◌≤◌, ◌≢◌, ◌==◌, [], length, map, All, false, IfOk, OnOk, OnErr, slice_index, slice_set, true, if◌then◌else◌, option_map};
ghost use Rattle.std.specs.List.{range_with_len};
ghost use Rattle.esr_base.specs.declared.limits.TheConstants.{MAX_READS};
ghost use Rattle.esr_history.specs.Ascending.{IsAscendingBy, IsSmallest};
ghost use Rattle.esr_locks.specs.LockEntries.{query_and_count, entry_at, items_locked_by, spare_of, with_lock, has_lock_in_mode, IsLockTable};
ghost use Rattle.esr_locks.specs.Tables.{no_locks, locks_at, spare_list_capacity, spare_lock_capacity, has_lock, has_update_lock, has_query_lock, contains_item, blocks_read, blocks_write, with_reader, with_writer, with_query_read, released, has_lock_unlike, has_other_lock, LockTableModel};

use crate::entry::LockEntry;
use crate::lists::QueryReads;
use crate::locked_items::{FreeLists, LockedItems};
use crate::mode::Mode;
use esr_history::{BeginKind, NoMemory, TxnId};
use esr_items::ItemId;
use std::alloc::{AllocError, Global};
use std::marker::Model;
use std::mem::replace;

/// The lock table of rigorous two-phase locking: a transaction holds its locks until they are
/// released together (Bernstein, Hadzilacos and Goodman, 1987). Updates take read and write locks,
/// queries read locks.
///
/// Memory is proportional to the number of items, the locks held and the largest transaction
/// number.
#[derive(Drop)]
pub struct LockTable {
    entries: Vec<LockEntry>,
    by_transaction: Vec<LockedItems>,
    free: FreeLists,
    alloc: Global,
}

impl Model for LockTable {
    ghost Value = { LockTableModel };

    ghost view = { λ t. record {
      locks = map (λ r. r.locks) t.entries.items;
      spare_by_item = map
          (λ r. spare_of r) t.entries.items;
      spare_by_transaction = map (λ h. h.spare_capacity) t.by_transaction.items;
    } };

    ghost invariant = { λ t. IsLockTable t.entries.items t.by_transaction.items };
}

/// Returns one entry without locks for each item.
fn empty_entries(alloc: Global, items: u32) -> Result<Vec<LockEntry>, AllocError>
    ensures { IfOk result (λ entries. map (λ r. r.locks) entries.items ≡ map (λ x. no_locks) (range_with_len 0 items)) }
{
    let mut entries = Vec::new(alloc);
    for x in 0..items {
        entries.push(LockEntry::new(alloc))?;
    }
    Ok(entries)
}

/// Appends empty lists of items until `t` has one.
#[cold]
#[inline(never)]
fn grow_lists(
    by_transaction: &mut Vec<LockedItems>,
    alloc: Global,
    t: TxnId,
) -> Result<(), AllocError>
    ensures items { (u : ℕ) → (items_locked_by by_transaction.new.items u).items ≡ (items_locked_by by_transaction.old.items u).items }
    ensures ok { OnOk result (t.0 < length by_transaction.new.items) }
    ensures list_missing { OnErr result (length by_transaction.old.items ≤ t.0) }
{
    while by_transaction.len() <= t.0 as usize {
        by_transaction.push(LockedItems::new(alloc))?;
    }
    Ok(())
}

/// Ensures that `t` has a list of items.
#[inline(always)]
fn ensure_list(
    by_transaction: &mut Vec<LockedItems>,
    alloc: Global,
    t: TxnId,
) -> Result<(), AllocError>
    ensures items { (u : ℕ) → (items_locked_by by_transaction.new.items u).items ≡ (items_locked_by by_transaction.old.items u).items }
    ensures ok { OnOk result (t.0 < length by_transaction.new.items) }
    ensures list_missing { OnErr result (length by_transaction.old.items ≤ t.0) }
    ensures unchanged_if_present { t.0 < length by_transaction.old.items → by_transaction.new.items ≡ by_transaction.old.items }
{
    if (t.0 as usize) < by_transaction.len() {
        return Ok(());
    }
    grow_lists(by_transaction, alloc, t)
}

/// Returns the items in the list of a transaction.
fn locked_items_of(by_transaction: &[LockedItems], t: TxnId) -> &[ItemId]
    ensures { result.now ≡ (items_locked_by by_transaction.now t.0).items }
{
    let at = t.0 as usize;
    if at < by_transaction.len() {
        by_transaction[at].items()
    } else {
        &[]
    }
}

/// Replaces the list of a transaction by an empty one, and keeps its memory for another transaction.
fn clear_list(by_transaction: &mut Vec<LockedItems>, free: &mut FreeLists, alloc: Global, t: TxnId)
    ensures { (u : ℕ) → (items_locked_by by_transaction.new.items u).items
        ≡ (if t.0 == u then [] else (items_locked_by by_transaction.old.items u).items) }
{
    let at = t.0 as usize;
    if at < by_transaction.len() {
        free.keep(replace(&mut by_transaction[at], LockedItems::new(alloc)));
    }
}

/// Releases the locks of a transaction on the items. If its kind is known, it has no lock that this kind does not take. It is
/// inlined, so that the compiler tests the kind before the loop.
#[inline(always)]
fn release_each(entries: &mut Vec<LockEntry>, items: &[ItemId], t: TxnId, kind: Option<BeginKind>)
    requires in_range { All (λ i. i.0 < length entries.old.items) items.now }
    requires of_kind { (x : ℕ) → x < length entries.old.items
        → has_other_lock kind (entry_at entries.old.items x).locks t.0 ≡ false }
    ensures len { length entries.new.items ≡ length entries.old.items }
    ensures locks { (x : ℕ) → x < length entries.old.items
        → (entry_at entries.new.items x).locks ≡ (if contains_item items.now x then released t.0
        (entry_at entries.old.items x).locks else (entry_at entries.old.items x).locks) }
{
    for x in items {
        entries[x.0 as usize].release(t, kind);
    }
}

impl LockTable {
    /// Returns a table of `items` items without locks.
    ///
    /// # Errors
    ///
    /// `NoMemory` if an allocation fails.
    pub fn new(alloc: Global, items: u32) -> Result<LockTable, NoMemory>
        ensures { IfOk result (λ t. t.locks ≡ map (λ x. no_locks) (range_with_len 0 items)) }
    {
        match empty_entries(alloc, items) {
            Ok(entries) => Ok(LockTable {
                entries,
                by_transaction: Vec::new(alloc),
                free: FreeLists::new(alloc),
                alloc,
            }),
            Err(_) => Err(NoMemory),
        }
    }

    /// Reserves capacity for the lists of `transactions` transactions. A failed allocation is ignored.
    pub fn reserve_transactions(&mut self, transactions: usize)
        ensures { self.new ≡ self.old }
    {
        let _ = self.by_transaction.reserve(transactions);
    }

    /// Returns the update that blocks a read of the item by the update `t` (another one that has written it), or `None` if `t`
    /// may read it.
    #[inline(always)]
    pub fn may_read_update(&self, t: TxnId, x: ItemId) -> Option<TxnId>
        requires { x.0 < length self.now.locks }
        ensures { IsSmallest (blocks_read (locks_at self.now.locks x.0) t.0) (option_map (λ u. u.0) result) }
    {
        self.entries[x.0 as usize].blocking_update(t, Mode::Read)
    }

    /// Returns the update with the smallest number that blocks a write of the item by the update `t` (another one that has read
    /// or written it), or `None` if `t` may write it.
    #[inline(always)]
    pub fn may_write(&self, t: TxnId, x: ItemId) -> Option<TxnId>
        requires { x.0 < length self.now.locks }
        ensures { IsSmallest (blocks_write (locks_at self.now.locks x.0) t.0) (option_map (λ u. u.0) result) }
    {
        self.entries[x.0 as usize].blocking_update(t, Mode::Write)
    }

    /// Returns the update that has written the item.
    pub fn write_holder(&self, x: ItemId) -> Option<TxnId>
        requires { x.0 < length self.now.locks }
        ensures { option_map (λ u. u.0) result ≡ (locks_at self.now.locks x.0).writer }
    {
        self.entries[x.0 as usize].writer()
    }

    /// Returns the queries that have read the item, in ascending order, each with its number of reads.
    pub fn query_reads(&self, x: ItemId) -> &[QueryReads]
        requires { x.0 < length self.now.locks }
        ensures reads { map query_and_count result.now ≡ (locks_at self.now.locks x.0).queries }
        ensures ascending { IsAscendingBy (λ r. r.query.0) result.now }
        ensures upper_bound { All (λ r. r.count ≤ MAX_READS) result.now }
    {
        self.entries[x.0 as usize].queries()
    }

    /// Returns the items on which a transaction holds a lock. The table does not record whether a transaction is a query: an
    /// item occurs twice if the same number has locked it both as a query and as an update.
    pub fn items_of(&self, t: TxnId) -> &[ItemId]
        ensures in_range { All (λ i. i.0 < length self.now.locks) result.now }
        ensures complete { (x : ℕ) → x < length self.now.locks → has_lock (locks_at self.now.locks x) t.0 ≡ true
            → contains_item result.now x ≡ true }
    {
        locked_items_of(&self.by_transaction, t)
    }

    /// Reserves capacity for one more lock of a transaction on an item.
    ///
    /// # Errors
    ///
    /// `NoMemory` if spare capacity is missing and the allocation fails; the locks are unchanged.
    #[inline(always)]
    pub fn reserve(&mut self, t: TxnId, x: ItemId) -> Result<(), NoMemory>
        requires { x.0 < length self.old.locks }
        ensures locks { self.new.locks ≡ self.old.locks }
        ensures ok { OnOk result (0 < spare_lock_capacity self.new t.0 x.0) }
        ensures no_capacity { OnErr result (spare_lock_capacity self.old t.0 x.0 ≡ 0) }
    {
        if self.entries[x.0 as usize].reserve().is_err() {
            return Err(NoMemory);
        }
        self.reserve_list(t)
    }

    /// Reserves capacity for one more item in the list of a transaction. That is all that a write lock needs, since an item
    /// has one writer.
    ///
    /// # Errors
    ///
    /// `NoMemory` if spare capacity is missing and the allocation fails; the locks are unchanged.
    #[inline(always)]
    pub fn reserve_list(&mut self, t: TxnId) -> Result<(), NoMemory>
        ensures locks { self.new.locks ≡ self.old.locks }
        ensures items { self.new.spare_by_item ≡ self.old.spare_by_item }
        ensures ok { OnOk result (0 < spare_list_capacity self.new t.0) }
        ensures no_capacity { OnErr result (spare_list_capacity self.old t.0 ≡ 0) }
    {
        if ensure_list(&mut self.by_transaction, self.alloc, t).is_err() {
            return Err(NoMemory);
        }
        if self.by_transaction[t.0 as usize]
            .reserve(&mut self.free)
            .is_err()
        {
            return Err(NoMemory);
        }
        Ok(())
    }

    /// Adds a lock, and the item to the transaction's list if it held no lock on it.
    #[inline(always)]
    fn add(&mut self, t: TxnId, x: ItemId, mode: Mode)
        requires item { x.0 < length self.old.locks }
        requires list_capacity { 0 < spare_list_capacity self.old t.0 }
        requires item_capacity { mode ≢ Mode.Write → 0 < slice_index self.old.spare_by_item x.0 }
        requires count_within_max { mode ≡ Mode.QueryRead
            → All (λ r. r.0 ≡ t.0 → r.1 < MAX_READS) (locks_at self.old.locks x.0).queries }
        ensures already_locked { has_lock_in_mode mode (locks_at self.old.locks x.0) t.0 ≡ true → self.new.spare_by_transaction ≡ self.old.spare_by_transaction }
        ensures locks { self.new.locks ≡ slice_set self.old.locks x.0 (with_lock mode t.0 (locks_at self.old.locks x.0)) }
    {
        if self.entries[x.0 as usize].add(t, mode) {
            self.by_transaction[t.0 as usize].push(x);
        }
    }

    /// Adds the read lock of an update. An item that it has locked already is not listed twice.
    #[inline(always)]
    pub fn add_read_update(&mut self, t: TxnId, x: ItemId)
        requires item { x.0 < length self.old.locks }
        requires spare_capacity { 0 < spare_lock_capacity self.old t.0 x.0 }
        ensures already_locked { has_update_lock (locks_at self.old.locks x.0) t.0 ≡ true → self.new.spare_by_transaction ≡ self.old.spare_by_transaction }
        ensures locks { self.new.locks ≡ slice_set self.old.locks x.0 (with_reader t.0 (locks_at self.old.locks x.0)) }
    {
        self.add(t, x, Mode::Read);
    }

    /// Adds the write lock of an update. An item that it has locked already is not listed twice.
    #[inline(always)]
    pub fn add_write(&mut self, t: TxnId, x: ItemId)
        requires item { x.0 < length self.old.locks }
        requires spare_capacity { 0 < spare_list_capacity self.old t.0 }
        ensures already_locked { has_update_lock (locks_at self.old.locks x.0) t.0 ≡ true → self.new.spare_by_transaction ≡ self.old.spare_by_transaction }
        ensures locks { self.new.locks ≡ slice_set self.old.locks x.0 (with_writer t.0 (locks_at self.old.locks x.0)) }
    {
        self.add(t, x, Mode::Write);
    }

    /// Adds the read lock of a query, or increments its number of reads; the first read lists the item.
    #[inline(always)]
    pub fn add_read_query(&mut self, q: TxnId, x: ItemId)
        requires item { x.0 < length self.old.locks }
        requires spare_capacity { 0 < spare_lock_capacity self.old q.0 x.0 }
        requires count_within_max { All (λ r. r.0 ≡ q.0 → r.1 < MAX_READS) (locks_at self.old.locks x.0).queries }
        ensures already_locked { has_query_lock (locks_at self.old.locks x.0) q.0 ≡ true → self.new.spare_by_transaction ≡ self.old.spare_by_transaction }
        ensures locks { self.new.locks ≡ slice_set self.old.locks x.0 (with_query_read q.0 (locks_at self.old.locks x.0)) }
    {
        self.add(q, x, Mode::QueryRead);
    }

    /// Adds a lock, and the item to the transaction's list if it held no lock on it. Reserves capacity among the locks of the
    /// item first.
    #[inline(always)]
    fn try_add_listed(&mut self, t: TxnId, x: ItemId, mode: Mode) -> Result<(), NoMemory>
        requires item { x.0 < length self.old.locks }
        requires list_capacity { 0 < spare_list_capacity self.old t.0 }
        requires count_within_max { mode ≡ Mode.QueryRead
            → All (λ r. r.0 ≡ t.0 → r.1 < MAX_READS) (locks_at self.old.locks x.0).queries }
        ensures ok { OnOk result (self.new.locks ≡ slice_set self.old.locks x.0 (with_lock mode t.0 (locks_at self.old.locks x.0))) }
        ensures err { OnErr result (self.new.locks ≡ self.old.locks) }
    {
        let Ok(is_new) = self.entries[x.0 as usize].try_add(t, mode) else {
            return Err(NoMemory);
        };
        if is_new {
            self.by_transaction[t.0 as usize].push(x);
        }
        Ok(())
    }

    /// Reserves capacity for the read lock of an update, and adds the lock.
    ///
    /// # Errors
    ///
    /// `NoMemory` if spare capacity is missing and the allocation fails; the locks are unchanged.
    #[inline(always)]
    pub fn try_add_read_update(&mut self, t: TxnId, x: ItemId) -> Result<(), NoMemory>
        requires { x.0 < length self.old.locks }
        ensures ok { OnOk result (self.new.locks ≡ slice_set self.old.locks x.0 (with_reader t.0 (locks_at self.old.locks x.0))) }
        ensures err { OnErr result (self.new.locks ≡ self.old.locks) }
    {
        self.reserve_list(t)?;
        self.try_add_listed(t, x, Mode::Read)
    }

    /// Reserves capacity for the read lock of a query, and adds the lock or increments its number of reads, like
    /// `try_add_read_update`.
    ///
    /// # Errors
    ///
    /// `NoMemory` if spare capacity is missing and the allocation fails; the locks are unchanged.
    #[inline(always)]
    pub fn try_add_read_query(&mut self, q: TxnId, x: ItemId) -> Result<(), NoMemory>
        requires item { x.0 < length self.old.locks }
        requires count_within_max { All (λ r. r.0 ≡ q.0 → r.1 < MAX_READS) (locks_at self.old.locks x.0).queries }
        ensures ok { OnOk result (self.new.locks ≡ slice_set self.old.locks x.0 (with_query_read q.0 (locks_at self.old.locks x.0))) }
        ensures err { OnErr result (self.new.locks ≡ self.old.locks) }
    {
        self.reserve_list(q)?;
        self.try_add_listed(q, x, Mode::QueryRead)
    }

    /// Releases all locks of a transaction. If its kind is known, it has no lock that this kind does not take.
    #[inline(always)]
    fn release_listed(&mut self, t: TxnId, kind: Option<BeginKind>)
        requires { (x : ℕ) → x < length self.old.locks → has_other_lock kind (locks_at self.old.locks x) t.0 ≡ false }
        ensures { self.new.locks ≡ map (released t.0) self.old.locks }
    {
        release_each(
            &mut self.entries,
            locked_items_of(&self.by_transaction, t),
            t,
            kind,
        );
        clear_list(&mut self.by_transaction, &mut self.free, self.alloc, t);
    }

    /// Releases all locks of a transaction.
    pub fn release(&mut self, t: TxnId)
        ensures { self.new.locks ≡ map (released t.0) self.old.locks }
    {
        self.release_listed(t, None);
    }

    /// Releases all locks of a transaction of this kind. A query has only locks of queries, and an update none of them, so
    /// that the other locks on its items need not be searched.
    pub fn release_as(&mut self, t: TxnId, kind: BeginKind)
        requires { (x : ℕ) → x < length self.old.locks → has_lock_unlike kind (locks_at self.old.locks x) t.0 ≡ false }
        ensures { self.new.locks ≡ map (released t.0) self.old.locks }
    {
        self.release_listed(t, Some(kind));
    }
}
