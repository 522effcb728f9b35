//! The locks on one item: its writer, the updates that have read it, and the queries that have, with their counts.
//!
//! Queries are counted since a write is charged once for each read. Readers and queries ascend by number, so the
//! lowest-numbered blocker is the writer or the first reader except the requester.

ghost use Rattle.std.specs.Prelude.{◌≡◌, ◌≢◌, ℕ, ◌<◌, ◌≤◌, ◌==◌, Bool, false, ◌||◌, ◌&&◌, map, not, All, IfOk, OnOk, OnErr, unwrap_or, None, if◌then◌else◌, option_map, ◌-◌, length};
ghost use Rattle.esr_base.specs.declared.limits.TheConstants.{MAX_READS};
ghost use Rattle.esr_history.specs.Ascending.{IsAscendingBy, IsSmallest};
ghost use Rattle.esr_locks.specs.Modes.{conflicts};
ghost use Rattle.esr_locks.specs.LockEntries.{query_and_count, spare_of, with_lock, has_lock_in_mode, LockEntryModel};
ghost use Rattle.esr_locks.specs.Tables.{no_locks, is_writer, is_reader, has_update_lock, has_query_lock, blocks, with_reader, with_writer, with_query_read, released, released_update, released_query, has_other_lock};
ghost use Rattle.std.specs.List.{AllByRecursion};
ghost use Rattle.std.specs.Option.{option_map};

use crate::lists::{Queries, QueryReads, Readers, add_reader, count_read, is_reader, other_reader};
use crate::mode::{Mode, conflicts};
use esr_history::{BeginKind, TxnId};
use std::alloc::{AllocError, Global};
use std::marker::Model;

/// The locks on one item. Updates that have read it and queries that have read it are in the
/// order of their numbers.
#[derive(Drop)]
pub struct LockEntry {
    writer: Option<TxnId>,
    readers: Readers,
    queries: Queries,
}

impl Model for LockEntry {
    ghost Value = { LockEntryModel };

    ghost view = { λ r. record {
      locks = record {
        writer = option_map (λ u. u.0) r.writer;
        readers = map (λ u. u.update.0) r.readers.items;
        queries = map query_and_count r.queries.items;
      };
      spare_readers = r.readers.capacity - length r.readers.items;
      spare_queries = r.queries.capacity - length r.queries.items;
    } };

    ghost invariant = { λ r. IsAscendingBy (λ u. u.update.0) r.readers.items
        × IsAscendingBy (λ q. q.query.0) r.queries.items × AllByRecursion (λ q. q.count ≤ MAX_READS) r.queries.items };
}

/// Returns whether the item's writer is `t`.
fn writer_is(writer: Option<TxnId>, t: TxnId) -> bool
    ensures { result ≡ unwrap_or (option_map (λ u. u.0 == t.0) writer) false }
{
    match writer {
        Some(u) => u.0 == t.0,
        None => false,
    }
}

/// Returns the writer, unless it is `t`.
fn writer_unless(writer: Option<TxnId>, t: TxnId) -> Option<TxnId>
    ensures { result ≡ (if unwrap_or (option_map (λ u. u.0 == t.0) writer) false then None else writer) }
{
    match writer {
        Some(u) if u.0 != t.0 => Some(u),
        _ => None,
    }
}

/// Releases the write lock of `t`, if it is the writer.
#[inline(always)]
fn release_writer(writer: &mut Option<TxnId>, t: TxnId)
    ensures { writer.new ≡ (if unwrap_or (option_map (λ u. u.0 == t.0) writer.old) false then None else writer.old) }
{
    if writer_is(*writer, t) {
        *writer = None;
    }
}

/// Returns the smaller of two ids, either of which may be absent.
fn smaller_of(a: Option<TxnId>, b: Option<TxnId>) -> Option<TxnId>
    ensures { (p q : ℕ → Bool) → IsSmallest p (option_map (λ u. u.0) a) → IsSmallest q (option_map (λ u. u.0) b)
        → IsSmallest (λ u. p u || q u) (option_map (λ u. u.0) result) }
{
    match (a, b) {
        (None, other) => other,
        (one, None) => one,
        (Some(u), Some(v)) => Some(if u.0 <= v.0 { u } else { v }),
    }
}

impl LockEntry {
    /// Creates a row without locks.
    pub fn new(alloc: Global) -> LockEntry
        ensures { result.locks ≡ no_locks }
    {
        LockEntry {
            writer: None,
            readers: Readers::new(alloc),
            queries: Queries::new(alloc),
        }
    }

    /// Returns the update that has written the item.
    pub fn writer(&self) -> Option<TxnId>
        ensures { option_map (λ u. u.0) result ≡ self.now.locks.writer }
    {
        self.writer
    }

    /// Returns the queries that have read the item, with their counts.
    pub fn queries(&self) -> &[QueryReads]
        ensures reads { map query_and_count result.now ≡ self.now.locks.queries }
        ensures ascending { IsAscendingBy (λ r. r.query.0) result.now }
        ensures upper_bound { All (λ r. r.count ≤ MAX_READS) result.now }
    {
        self.queries.as_slice()
    }

    /// Returns the smallest reader other than `t` if read locks conflict with this mode.
    #[inline(always)]
    fn blocking_reader(&self, t: TxnId, asked: Mode) -> Option<TxnId>
        ensures { IsSmallest (λ u. not (u == t.0) && (conflicts Mode.Read asked && is_reader self.now.locks u))
            (option_map (λ u. u.0) result) }
    {
        if conflicts(Mode::Read, asked) {
            other_reader(self.readers.as_slice(), t)
        } else {
            None
        }
    }

    /// Returns the writer if it is not `t` and its lock conflicts with this mode.
    fn blocking_writer(&self, t: TxnId, asked: Mode) -> Option<TxnId>
        ensures { IsSmallest (λ u. not (u == t.0) && (conflicts Mode.Write asked && is_writer self.now.locks u))
            (option_map (λ u. u.0) result) }
    {
        if conflicts(Mode::Write, asked) {
            writer_unless(self.writer, t)
        } else {
            None
        }
    }

    /// Returns the smallest update whose lock on the item conflicts with a lock of `t` in this mode. Most items have no
    /// reader, and then the writer is the only candidate, so that no comparison of numbers is needed.
    #[inline(always)]
    pub fn blocking_update(&self, t: TxnId, asked: Mode) -> Option<TxnId>
        ensures { IsSmallest (blocks asked self.now.locks t.0) (option_map (λ u. u.0) result) }
    {
        if self.readers.is_empty() {
            return self.blocking_writer(t, asked);
        }
        smaller_of(
            self.blocking_reader(t, asked),
            self.blocking_writer(t, asked),
        )
    }

    /// Reserves capacity for one more lock.
    #[inline(always)]
    pub fn reserve(&mut self) -> Result<(), AllocError>
        ensures locks { self.new.locks ≡ self.old.locks }
        ensures ok { OnOk result (0 < spare_of self.new) }
        ensures no_capacity { OnErr result (spare_of self.old ≡ 0) }
    {
        self.readers.reserve()?;
        self.queries.reserve()?;
        Ok(())
    }

    /// Reserves capacity for one more reader.
    #[inline(always)]
    fn reserve_reader(&mut self) -> Result<(), AllocError>
        ensures locks { self.new.locks ≡ self.old.locks }
        ensures ok { OnOk result (0 < self.new.spare_readers) }
    {
        self.readers.reserve()
    }

    /// Reserves capacity for one more query.
    #[inline(always)]
    fn reserve_query(&mut self) -> Result<(), AllocError>
        ensures locks { self.new.locks ≡ self.old.locks }
        ensures ok { OnOk result (0 < self.new.spare_queries) }
    {
        self.queries.reserve()
    }

    /// Adds a read by an update. Returns whether the update had neither read nor written the item.
    #[inline(always)]
    fn add_reader(&mut self, t: TxnId) -> bool
        requires { 0 < self.old.spare_readers }
        ensures locks { self.new.locks ≡ with_reader t.0 self.old.locks }
        ensures is_new { result ≡ not (has_update_lock self.old.locks t.0) }
    {
        let has_written = writer_is(self.writer, t);
        let has_read = !add_reader(&mut self.readers, t);
        !(has_written | has_read)
    }

    /// Adds a write. Returns whether the update had neither read nor written the item.
    #[inline(always)]
    fn add_writer(&mut self, t: TxnId) -> bool
        ensures locks { self.new.locks ≡ with_writer t.0 self.old.locks }
        ensures is_new { result ≡ not (has_update_lock self.old.locks t.0) }
    {
        let has_written = writer_is(self.writer, t);
        let has_read = is_reader(self.readers.as_slice(), t);
        self.writer = Some(t);
        !(has_written | has_read)
    }

    /// Adds a read by a query. Returns whether the query had not read the item.
    #[inline(always)]
    fn add_query_read(&mut self, q: TxnId) -> bool
        requires spare_capacity { 0 < self.old.spare_queries }
        requires count_within_max { All (λ r. r.0 ≡ q.0 → r.1 < MAX_READS) self.old.locks.queries }
        ensures locks { self.new.locks ≡ with_query_read q.0 self.old.locks }
        ensures is_new { result ≡ not (has_query_lock self.old.locks q.0) }
    {
        count_read(&mut self.queries, q)
    }

    /// Adds a lock. Returns whether the transaction held none on the item.
    #[inline(always)]
    pub fn add(&mut self, t: TxnId, mode: Mode) -> bool
        requires spare_capacity { mode ≢ Mode.Write → 0 < spare_of self.old }
        requires count_within_max { mode ≡ Mode.QueryRead → All (λ r. r.0 ≡ t.0 → r.1 < MAX_READS) self.old.locks.queries }
        ensures locks { self.new.locks ≡ with_lock mode t.0 self.old.locks }
        ensures is_new { result ≡ not (has_lock_in_mode mode self.old.locks t.0) }
    {
        match mode {
            Mode::Read => self.add_reader(t),
            Mode::Write => self.add_writer(t),
            Mode::QueryRead => self.add_query_read(t),
        }
    }

    /// Reserves capacity for a lock in this mode, and adds the lock. Returns whether the transaction held none on the item. If
    /// an allocation fails, the locks are unchanged.
    #[inline(always)]
    pub fn try_add(&mut self, t: TxnId, mode: Mode) -> Result<bool, AllocError>
        requires { mode ≡ Mode.QueryRead → All (λ r. r.0 ≡ t.0 → r.1 < MAX_READS) self.old.locks.queries }
        ensures locks { OnOk result (self.new.locks ≡ with_lock mode t.0 self.old.locks) }
        ensures is_new { IfOk result (λ is_new. is_new ≡ not (has_lock_in_mode mode self.old.locks t.0)) }
        ensures err { OnErr result (self.new.locks ≡ self.old.locks) }
    {
        match mode {
            Mode::Read => {
                self.reserve_reader()?;
                Ok(self.add_reader(t))
            }
            Mode::Write => Ok(self.add_writer(t)),
            Mode::QueryRead => {
                self.reserve_query()?;
                Ok(self.add_query_read(t))
            }
        }
    }

    /// Drops the locks of a transaction as an update.
    #[inline(always)]
    fn release_update(&mut self, t: TxnId)
        ensures { self.new.locks ≡ released_update t.0 self.old.locks }
    {
        release_writer(&mut self.writer, t);
        self.readers.remove_txn(t);
    }

    /// Drops the locks of a transaction as a query.
    #[inline(always)]
    fn release_query(&mut self, t: TxnId)
        ensures { self.new.locks ≡ released_query t.0 self.old.locks }
    {
        self.queries.remove_txn(t);
    }

    /// Drops the locks of a transaction. If its kind is known, it has no lock that this kind does not take.
    #[inline(always)]
    pub fn release(&mut self, t: TxnId, kind: Option<BeginKind>)
        requires { has_other_lock kind self.old.locks t.0 ≡ false }
        ensures { self.new.locks ≡ released t.0 self.old.locks }
    {
        match kind {
            Some(BeginKind::Query) => self.release_query(t),
            Some(BeginKind::Update) => self.release_update(t),
            None => {
                self.release_update(t);
                self.release_query(t);
            }
        }
    }
}
