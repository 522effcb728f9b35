//! A list in ascending order of transaction numbers, searched by binary search. The caller keeps the order: it inserts at the
//! index that `search` returns.
//!
//! Transactions often end in the order in which they began; then each end removes the first element of a list. A removal
//! therefore tests the first element before it searches. If more than `MAX_EAGER_REMOVAL` elements are stored, this removal
//! only increments the count of removed elements, which stay at the front. Once more than half of the stored elements are
//! removed ones, the others move to the front. So in such a list the removal of the first element costs at most one move,
//! amortized. Any other removal moves the elements after the removed one.
//!
//! Most lists have few elements. A list of at most `MAX_SHORT` is read from the end, which takes fewer steps than a binary
//! search, and in most cases one, because a new transaction has the greatest number. An insertion or a removal moves the
//! elements of such a list in a loop: `SmallVec::insert` and `SmallVec::remove` are calls, and rotate those of an inline list.
//! An insertion exchanges the new element with one neighbour after another, because `copy_within` is a call there too.

ghost use Rattle.std.specs.Prelude.{◌≡◌, ℕ, ◌+◌, ◌*◌, ◌<◌, ◌≤◌, ◌==◌, List, [], ◌∷◌, ◌++◌, drop, length, filter, not, IfOk, IfErr, IsTrue, slice_set};
ghost use Rattle.std.specs.List.{insert, remove};
ghost use Rattle.smallvec.specs.SmallVec.{HasRoomFor};
ghost use Rattle.esr_history.specs.Ascending.{IsAscendingBy, IsPlaceOf, IsGapFor};
ghost use Rattle.esr_locks.specs.LockEntries.{Reserves};

use crate::lists::{Numbered, reserve_one};
use esr_history::TxnId;
use smallvec::SmallVec;
use std::alloc::{AllocError, Global};
use std::default::MadeWith;
use std::marker::Model;

/// The maximum number of stored elements of a list in which the removal of the first element moves the others at once.
const MAX_EAGER_REMOVAL: usize = 64;

/// The maximum number of elements of a list that is read from the end, and whose elements are moved in a loop.
const MAX_SHORT: usize = 8;

/// A list in ascending order of transaction numbers. The first `removed` stored elements do not belong to it.
#[derive(Drop)]
pub struct AscendingList<R, const N: usize> {
    elements: SmallVec<R, N>,
    removed: usize,
}

impl<R, const N: usize> Model for AscendingList<R, N> {
    ghost use Rattle.std.specs.Prelude.{◌*◌, ◌-◌, ◌≤◌, drop, length};
    ghost use Rattle.smallvec.specs.SmallVec.{SmallVec as Items, small_vec_code};

    ghost Value = { Items R };

    ghost coded = { small_vec_code R.code };

    ghost view = { λ l. record { items = drop l.removed l.elements.items; capacity = l.elements.capacity - l.removed } };

    ghost invariant = { λ l. 2 * l.removed ≤ length l.elements.items };
}

/// Removes the single element if it is the transaction's.
#[inline(always)]
fn remove_from_singleton<R: Numbered + MadeWith<Global> + Drop, const N: usize>(
    elements: &mut SmallVec<R, N>,
    t: TxnId,
)
    requires { length elements.old.items ≡ 1 }
    ensures { elements.new.items ≡ filter (λ r. not (R.number r == t.0)) elements.old.items }
{
    if elements[0].number() == t.0 {
        let _ = elements.pop();
    }
}

/// Moves an element from the end of a slice to an index, by exchanging it with one neighbour after another.
#[inline(always)]
fn move_last<R: Copy>(stored: &mut [R], at: usize, element: R)
    requires { at < length stored.old }
    ensures items { (xs : List R) → stored.old ≡ xs ++ element ∷ [] → stored.new ≡ insert xs at element }
    ensures len { length stored.new ≡ length stored.old }
{
    let mut place = stored.len() - 1;
    while place > at {
        stored[place] = stored[place - 1];
        stored[place - 1] = element;
        place -= 1;
    }
}

/// Inserts an element at an index by moving the later ones up in a loop. The capacity must be reserved.
#[inline(always)]
fn insert_into_short<R: MadeWith<Global> + Copy + Drop, const N: usize>(
    elements: &mut SmallVec<R, N>,
    at: usize,
    element: R,
)
    requires in_range { at ≤ length elements.old.items }
    requires spare_capacity { HasRoomFor elements.old 1 }
    ensures { elements.new.items ≡ insert elements.old.items at element }
{
    elements.push_reserved(element);
    move_last(elements.as_mut_slice(), at, element);
}

/// Inserts an element at an index. The capacity must be reserved. Most insertions are at the end and move nothing.
#[inline(always)]
fn insert_reserved<R: MadeWith<Global> + Copy + Drop, const N: usize>(
    elements: &mut SmallVec<R, N>,
    at: usize,
    element: R,
)
    requires in_range { at ≤ length elements.old.items }
    requires spare_capacity { HasRoomFor elements.old 1 }
    ensures { elements.new.items ≡ insert elements.old.items at element }
{
    let len = elements.len();
    if at == len {
        elements.push_reserved(element);
    } else if len <= MAX_SHORT {
        insert_into_short(elements, at, element);
    } else {
        let _ = elements.insert(at, element);
    }
}

/// Removes the element at an index by moving the later ones down in a loop.
#[inline(always)]
fn remove_from_short<R: MadeWith<Global> + Copy + Drop, const N: usize>(
    elements: &mut SmallVec<R, N>,
    at: usize,
)
    requires { at < length elements.old.items }
    ensures { elements.new.items ≡ remove elements.old.items at }
{
    let len = elements.len();
    elements.as_mut_slice().copy_within(at + 1..len, at);
    let _ = elements.pop();
}

/// Removes the element at an index after the removed ones. If it is the first of a long list, this only increments the count
/// of removed elements. Returns the new count.
fn remove_lazily<R: MadeWith<Global> + Copy + Drop, const N: usize>(
    elements: &mut SmallVec<R, N>,
    removed: usize,
    at: usize,
) -> usize
    requires { removed + at < length elements.old.items }
    ensures items { drop result elements.new.items ≡ remove (drop removed elements.old.items) at }
    ensures in_range { result ≤ length elements.new.items }
{
    let len = elements.len();
    if at == 0 && len > MAX_EAGER_REMOVAL {
        return removed + 1;
    }
    if len <= MAX_SHORT {
        remove_from_short(elements, removed + at);
    } else {
        let _ = elements.remove(removed + at);
    }
    removed
}

/// Moves the elements to the front if more than half of the stored ones are removed. Returns the new count of removed
/// elements.
fn compact<R: MadeWith<Global> + Copy + Drop, const N: usize>(
    elements: &mut SmallVec<R, N>,
    removed: usize,
) -> usize
    requires { removed ≤ length elements.old.items }
    ensures items { drop result elements.new.items ≡ drop removed elements.old.items }
    ensures at_most_half_removed { 2 * result ≤ length elements.new.items }
{
    let len = elements.len();
    if removed <= len / 2 {
        return removed;
    }
    elements.as_mut_slice().copy_within(removed..len, 0);
    elements.truncate(len - removed);
    0
}

/// Returns the index of a transaction's element, or else the index at which to insert it, by reading from the end.
#[inline(always)]
fn scan<R: Numbered>(elements: &[R], t: TxnId) -> Result<usize, usize>
    requires { IsAscendingBy R.number elements.now }
    ensures found { IfOk result (IsPlaceOf R.number elements.now t.0) }
    ensures absent { IfErr result (IsGapFor R.number elements.now t.0) }
{
    let mut end = elements.len();
    while end > 0 {
        let number = elements[end - 1].number();
        if number == t.0 {
            return Ok(end - 1);
        }
        if number < t.0 {
            return Err(end);
        }
        end -= 1;
    }
    Err(0)
}

/// Returns whether the first element is the transaction's.
#[inline(always)]
fn is_first<R: Numbered>(elements: &[R], t: TxnId) -> bool
    ensures { IsTrue result → IsPlaceOf R.number elements.now t.0 0 }
{
    if elements.is_empty() {
        return false;
    }
    elements[0].number() == t.0
}

/// Returns the index of a transaction's element, or else the index at which to insert it, by binary search.
#[inline(never)]
fn search_long<R: Numbered>(elements: &[R], t: TxnId) -> Result<usize, usize>
    requires { IsAscendingBy R.number elements.now }
    ensures found { IfOk result (IsPlaceOf R.number elements.now t.0) }
    ensures absent { IfErr result (IsGapFor R.number elements.now t.0) }
{
    elements.binary_search_by_key(&t.0, |r| r.number())
}

impl<R: MadeWith<Global> + Copy + Drop, const N: usize> AscendingList<R, N> {
    pub fn new(alloc: Global) -> Self
        ensures { result.items ≡ [] }
    {
        AscendingList {
            elements: SmallVec::new(alloc),
            removed: 0,
        }
    }

    /// Returns the elements. Most lists are empty, and then neither the place of the elements nor the count of removed ones
    /// is needed.
    #[inline(always)]
    pub fn as_slice(&self) -> &[R]
        ensures { result.now ≡ self.now.items }
    {
        if self.elements.is_empty() {
            return &[];
        }
        &self.elements.as_slice()[self.removed..]
    }

    #[inline(always)]
    pub fn is_empty(&self) -> bool
        ensures { result ≡ (length self.now.items == 0) }
    {
        self.elements.is_empty()
    }

    /// Reserves capacity for one more element.
    #[inline(always)]
    pub fn reserve(&mut self) -> Result<(), AllocError>
        ensures { Reserves self.old self.new result }
    {
        reserve_one(&mut self.elements)
    }

    /// Inserts an element into an empty list. The capacity must be reserved.
    #[inline(always)]
    pub fn insert_into_empty(&mut self, element: R)
        requires empty { self.old.items ≡ [] }
        requires spare_capacity { HasRoomFor self.old 1 }
        ensures { self.new.items ≡ element ∷ [] }
    {
        self.elements.push_reserved(element);
    }

    /// Inserts an element at an index. The capacity must be reserved.
    #[inline(always)]
    pub fn insert(&mut self, at: usize, element: R)
        requires in_range { at ≤ length self.old.items }
        requires spare_capacity { HasRoomFor self.old 1 }
        ensures { self.new.items ≡ insert self.old.items at element }
    {
        let _len = self.elements.len(); // bounds the sum in the proof; the compiler removes it
        insert_reserved(&mut self.elements, self.removed + at, element);
    }

    /// Replaces the element at an index.
    #[inline(always)]
    pub fn replace(&mut self, at: usize, element: R)
        requires { at < length self.old.items }
        ensures { self.new.items ≡ slice_set self.old.items at element }
    {
        self.elements[self.removed + at] = element;
    }

    /// Removes the element at an index of a list that is long or stores removed elements.
    #[inline(never)]
    fn remove_from_long(&mut self, at: usize)
        requires { at < length self.old.items }
        ensures { self.new.items ≡ remove self.old.items at }
    {
        let removed = remove_lazily(&mut self.elements, self.removed, at);
        self.removed = compact(&mut self.elements, removed);
    }

    /// Removes the element at an index. Most lists are short and store no removed element: then nothing is counted, and
    /// the elements stay at the front.
    #[inline(always)]
    fn remove(&mut self, at: usize)
        requires { at < length self.old.items }
        ensures { self.new.items ≡ remove self.old.items at }
    {
        if self.removed == 0 && self.elements.len() <= MAX_SHORT {
            remove_from_short(&mut self.elements, at);
        } else {
            self.remove_from_long(at);
        }
    }
}

impl<R: Numbered + MadeWith<Global> + Copy + Drop, const N: usize> AscendingList<R, N> {
    /// Returns the index of a transaction's element, or else the index at which to insert it.
    #[inline(always)]
    pub fn search(&self, t: TxnId) -> Result<usize, usize>
        requires { IsAscendingBy R.number self.now.items }
        ensures found { IfOk result (IsPlaceOf R.number self.now.items t.0) }
        ensures absent { IfErr result (IsGapFor R.number self.now.items t.0) }
    {
        let elements = self.as_slice();
        if elements.len() <= MAX_SHORT {
            scan(elements, t)
        } else {
            search_long(elements, t)
        }
    }

    /// Returns the index of the element of a transaction that ends, like `search`. It tests the first element first.
    #[inline(always)]
    fn search_ending(&self, t: TxnId) -> Result<usize, usize>
        requires { IsAscendingBy R.number self.now.items }
        ensures found { IfOk result (IsPlaceOf R.number self.now.items t.0) }
        ensures absent { IfErr result (IsGapFor R.number self.now.items t.0) }
    {
        if is_first(self.as_slice(), t) {
            return Ok(0);
        }
        self.search(t)
    }

    /// Removes a transaction's element, if there is one. Most lists have at most one element, and need no search.
    #[inline(always)]
    pub fn remove_txn(&mut self, t: TxnId)
        requires { IsAscendingBy R.number self.old.items }
        ensures { self.new.items ≡ filter (λ r. not (R.number r == t.0)) self.old.items }
    {
        match self.elements.len() {
            0 => {}
            1 => remove_from_singleton(&mut self.elements, t),
            _ => {
                if let Ok(at) = self.search_ending(t) {
                    self.remove(at);
                }
            }
        }
    }
}
