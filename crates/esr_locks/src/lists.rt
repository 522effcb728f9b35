//! The readers of an item, and the queries that have read it.
//!
//! Most items never have more than a few readers, and otherwise the first lock on each item would need two allocations.
//! So the row itself stores up to four readers and seven queries, which take 128 bytes with the writer. If it stored four
//! queries, two thirds of 4,096 items would need an allocation while 16 queries read 1,000 items each.
//! Most lists are empty or have one element, which is the one looked for. So that case is tested first, and the search
//! is a separate function, since an inlined search would make each event save more registers.

ghost use Rattle.std.specs.Prelude.{◌≡◌, ℕ, ◌<◌, ◌≤◌, ◌==◌, length, filter, find, not, All, option_map};
ghost use Rattle.std.specs.List.{list_any, AllByRecursion};
ghost use Rattle.smallvec.specs.SmallVec.{HasRoomFor};
ghost use Rattle.esr_base.specs.declared.limits.TheConstants.{MAX_READS};
ghost use Rattle.esr_history.specs.Ascending.{IsAscendingBy, upserted};
ghost use Rattle.esr_locks.specs.LockEntries.{Reserves, reader, first_reads, more_reads};

use crate::ascending_list::AscendingList;
use esr_history::TxnId;
use smallvec::SmallVec;
use std::alloc::{AllocError, Global};
use std::default::MadeWith;

/// An update that has read an item.
#[derive(Clone, Copy)]
pub struct Reader {
    pub update: TxnId,
}

/// How often a query has read an item.
#[derive(Clone, Copy, PartialEq, Eq)]
pub struct QueryReads {
    pub query: TxnId,
    pub count: u32,
}

/// An element of a list that is ordered by transaction numbers.
pub trait Numbered {
    ghost number: { Self → ℕ };

    fn number(&self) -> u32
        ensures { result ≡ number self.now };
}

impl Numbered for Reader {
    ghost number = { λ r. r.update.0 };

    fn number(&self) -> u32 {
        self.update.0
    }
}

impl Numbered for QueryReads {
    ghost number = { λ r. r.query.0 };

    fn number(&self) -> u32 {
        self.query.0
    }
}

/// The number of no transaction, since numbers start at 1. It fills unused elements.
const NOBODY: TxnId = TxnId(0);

impl Default for Reader {
    ghost is_default = { λ r. r.update.0 ≡ 0 };

    fn default() -> Reader {
        Reader { update: NOBODY }
    }
}

impl Default for QueryReads {
    ghost is_default = { λ r. (r.query.0 ≡ 0) × (r.count ≡ 0) };

    fn default() -> QueryReads {
        QueryReads {
            query: NOBODY,
            count: 0,
        }
    }
}

/// Up to four readers are stored inline, more in an allocation.
pub type Readers = AscendingList<Reader, 4>;

/// Up to seven queries are stored inline, more in an allocation.
pub type Queries = AscendingList<QueryReads, 7>;

/// Reserves capacity for one more element in a full list.
#[inline(never)]
fn grow<T: MadeWith<Global> + Drop, const N: usize>(
    list: &mut SmallVec<T, N>,
) -> Result<(), AllocError>
    ensures { Reserves list.old list.new result }
{
    list.reserve(1)
}

/// Reserves capacity for one more element. Full lists and lists that have moved to the heap are rare: for an inline
/// list, comparing the length suffices.
#[inline(always)]
pub fn reserve_one<T: MadeWith<Global> + Drop, const N: usize>(
    list: &mut SmallVec<T, N>,
) -> Result<(), AllocError>
    ensures { Reserves list.old list.new result }
{
    if list.len() < N {
        let _capacity_left = list.capacity(); // N or more: brings this into the proof; the compiler removes it
        return Ok(());
    }
    if list.len() < list.capacity() {
        return Ok(());
    }
    grow(list)
}

/// Returns the first reader other than `t`.
#[inline(always)]
pub fn other_reader(readers: &[Reader], t: TxnId) -> Option<TxnId>
    ensures { result ≡ option_map (λ r. r.update) (find (λ r. not (r.update.0 == t.0)) readers.now) }
{
    if readers.is_empty() {
        return None;
    }
    readers.iter().find(|r| r.update.0 != t.0).map(|r| r.update)
}

/// Returns whether `t` is a reader.
#[inline(always)]
pub fn is_reader(readers: &[Reader], t: TxnId) -> bool
    ensures { result ≡ list_any (λ r. r.update.0 == t.0) readers.now }
{
    if readers.is_empty() {
        return false;
    }
    readers.iter().any(|r| r.update.0 == t.0)
}

/// Adds a reader to a list that may have others. Returns whether it is new.
#[inline(never)]
fn add_among(readers: &mut Readers, t: TxnId) -> bool
    requires ascending { IsAscendingBy (λ r. r.update.0) readers.old.items }
    requires spare_capacity { HasRoomFor readers.old 1 }
    ensures items { readers.new.items ≡ upserted (λ r. r.update.0) t.0 (reader t) (λ r. r) readers.old.items }
    ensures is_new { result ≡ not (list_any (λ r. r.update.0 == t.0) readers.old.items) }
{
    match readers.search(t) {
        Ok(_) => false,
        Err(at) => {
            readers.insert(at, Reader { update: t });
            true
        }
    }
}

/// Adds a reader. Returns whether it is new. Usually it is the first, and then no search is needed.
#[inline(always)]
pub fn add_reader(readers: &mut Readers, t: TxnId) -> bool
    requires ascending { IsAscendingBy (λ r. r.update.0) readers.old.items }
    requires spare_capacity { HasRoomFor readers.old 1 }
    ensures items { readers.new.items ≡ upserted (λ r. r.update.0) t.0 (reader t) (λ r. r) readers.old.items }
    ensures is_new { result ≡ not (list_any (λ r. r.update.0 == t.0) readers.old.items) }
{
    if readers.is_empty() {
        readers.insert_into_empty(Reader { update: t });
        return true;
    }
    add_among(readers, t)
}

/// Counts one more read of a query. Returns whether it is the first.
#[inline(always)]
pub fn count_read(queries: &mut Queries, q: TxnId) -> bool
    requires ascending { IsAscendingBy (λ r. r.query.0) queries.old.items }
    requires spare_capacity { HasRoomFor queries.old 1 }
    requires count_within_max { All (λ r. r.query.0 ≡ q.0 → r.count < MAX_READS) queries.old.items }
    requires upper_bound { AllByRecursion (λ r. r.count ≤ MAX_READS) queries.old.items }
    ensures items { queries.new.items ≡ upserted (λ r. r.query.0) q.0 (first_reads q) more_reads queries.old.items }
    ensures upper_bound { AllByRecursion (λ r. r.count ≤ MAX_READS) queries.new.items }
    ensures is_new { result ≡ not (list_any (λ r. r.query.0 == q.0) queries.old.items) }
{
    match queries.search(q) {
        Ok(at) => {
            let mut reads = queries.as_slice()[at];
            reads.count += 1;
            queries.replace(at, reads);
            false
        }
        Err(at) => {
            queries.insert(at, QueryReads { query: q, count: 1 });
            true
        }
    }
}
