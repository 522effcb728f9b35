//! Lists the items that one transaction has locked, in the order of its locks, for their release.
//!
//! A list is allocated with capacity for sixteen items: an update of eight items reserves capacity for a ninth when it accesses
//! one of them again. The lists of ended transactions are kept for later ones (`FreeLists`), so that an update usually allocates
//! nothing. No contract mentions the kept lists: without them only time is lost.
//!
//! Rejected: lists that store the first ten items inline, so that each ended transaction keeps 56 bytes in place of 24, which is
//! 1.9 MB in a script of a million lines. Also rejected: lists that are freed when their transaction ends. To allocate and to free
//! a list takes some 250 instructions.

ghost use Rattle.std.specs.Prelude.{◌≡◌, ◌<◌, [], ◌∷◌, ◌++◌, OnOk, OnErr, length, vec_capacity};

use esr_items::ItemId;
use std::alloc::{AllocError, Global};
use std::marker::Model;

/// The capacity by which a full list grows, in items.
const GROWTH: usize = 16;

/// The largest capacity of a list that is kept, in items.
const MAX_KEPT_CAPACITY: usize = 64;

/// The maximum number of lists that are kept.
const MAX_FREE: usize = 1024;

/// The items that a transaction has locked.
#[derive(Drop)]
pub struct LockedItems {
    list: Vec<ItemId>,
}

impl Model for LockedItems {
    ghost use Rattle.std.specs.Prelude.{◌-◌, length, vec_capacity};
    ghost use Rattle.esr_locks.specs.LockEntries.{LockedItemsModel};

    ghost Value = { LockedItemsModel };

    ghost view = { λ h. record { items = h.list.items; spare_capacity = vec_capacity h.list - length h.list.items } };
}

/// Empty lists of ended transactions, for later ones.
#[derive(Drop)]
pub struct FreeLists {
    lists: Vec<Vec<ItemId>>,
}

impl FreeLists {
    /// Returns no lists.
    pub fn new(alloc: Global) -> FreeLists {
        FreeLists {
            lists: Vec::new(alloc),
        }
    }

    /// Keeps the list of a transaction that ends. Drops a list of too large a capacity, and any list if `MAX_FREE` lists are kept
    /// or the allocation fails.
    pub fn keep(&mut self, items: LockedItems) {
        let capacity = items.list.capacity();
        if 0 < capacity && capacity <= MAX_KEPT_CAPACITY && self.lists.len() < MAX_FREE {
            let _ = self.lists.push(items.list);
        }
    }
}

/// Reserves capacity for one more item in a full list. A list that has not been allocated becomes one of the free lists.
#[inline(never)]
fn grow(list: &mut Vec<ItemId>, free: &mut FreeLists) -> Result<(), AllocError>
    ensures items { list.new.items ≡ list.old.items }
    ensures ok { OnOk result (length list.new.items < vec_capacity list.new) }
{
    if list.capacity() == 0 {
        if let Some(mut kept) = free.lists.pop() {
            kept.clear();
            if 0 < kept.capacity() {
                *list = kept;
                return Ok(());
            }
        }
    }
    list.reserve(GROWTH)
}

impl LockedItems {
    pub fn new(alloc: Global) -> LockedItems
        ensures { result.items ≡ [] }
    {
        LockedItems {
            list: Vec::new(alloc),
        }
    }

    pub fn items(&self) -> &[ItemId]
        ensures { result.now ≡ self.now.items }
    {
        &self.list
    }

    /// Reserves capacity for one more item.
    #[inline(always)]
    pub fn reserve(&mut self, free: &mut FreeLists) -> Result<(), AllocError>
        ensures items { self.new.items ≡ self.old.items }
        ensures ok { OnOk result (0 < self.new.spare_capacity) }
        ensures no_capacity { OnErr result (self.old.spare_capacity ≡ 0) }
    {
        if self.list.len() < self.list.capacity() {
            return Ok(());
        }
        grow(&mut self.list, free)
    }

    /// Adds an item. The capacity must be reserved.
    pub fn push(&mut self, x: ItemId)
        requires { 0 < self.old.spare_capacity }
        ensures { self.new.items ≡ self.old.items ++ x ∷ [] }
    {
        self.list.push_reserved(x);
    }
}
