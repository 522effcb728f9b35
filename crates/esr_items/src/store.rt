//! Stores the committed and the current value of each item.
//!
//! Both values of an item are adjacent, so a read, a write, a commit and an abort of an item access one place. A write
//! changes the current value in place: updates and reports share one copy of each value, which is the purpose of the
//! engine. The store only holds values; the machine decides which calls are allowed.

ghost use Rattle.std.specs.Prelude.{◌≡◌, ◌<◌, ◌≤◌, ◌⊎◌, length, map, IfOk, OnOk, IfErr, IsErrOf, All, Any, IsTrue, ◌↔◌, List};
ghost use Rattle.esr_items.specs.Values.{IsValue, both_versions, committed_at, current_at, current_set, kept, undone, AreValues};
ghost use Rattle.esr_base.specs.declared.limits.TheConstants.{MAX_ITEMS};
ghost use Rattle.esr_items.specs.declared.store.Versions.{Versions};

use esr_base::{ItemId, MAX_ITEMS, MAX_VALUE};
use std::alloc::{AllocError, Global};
use std::marker::Model;
use thiserror::Error;

/// Why `Store::new` or `Weighted::new` fails, with the number of each reason.
#[derive(Clone, Copy, PartialEq, Eq, Debug, Error)]
pub enum ItemsError {
    /// There are more than 4,096 items.
    #[error("more than 4,096 items")]
    TooManyItems = 1,
    /// A value is above 1,000,000,000,000 or below its negative.
    #[error("value out of range")]
    ValueOutOfRange = 2,
    /// An allocation failed.
    #[error("out of memory")]
    NoMemory = 3,
    /// A weight is 0 or above 1,000.
    #[error("weight out of range")]
    WeightOutOfRange = 4,
}

/// The two values of an item: the one that committed transactions left, and the one that the
/// latest write gave.
#[derive(Clone, Copy)]
pub struct Versions {
    pub committed: i64,
    pub current: i64,
}

/// The committed and the current value of each item. A write changes the current value in place.
#[derive(Drop)]
pub struct Store {
    items: Vec<Versions>,
}

impl Model for Store {
    ghost Value = { List Versions };

    ghost view = { λ s. s.items.items };

    ghost invariant = { λ s. (length s.items.items ≤ MAX_ITEMS) × All AreValues s.items.items };
}

impl Store {
    /// Creates a store in which each item has the given value, as its committed and its current value.
    pub fn new(alloc: Global, values: Vec<i64>) -> Result<Store, ItemsError>
        ensures ok { IfOk result (λ s. s ≡ map both_versions values.items) }
        ensures many { IsErrOf result ItemsError.TooManyItems ↔ (MAX_ITEMS < length values.items) }
        ensures range { IsErrOf result ItemsError.ValueOutOfRange
            ↔ ((length values.items ≤ MAX_ITEMS) × Any (λ v. ¬ IsValue v) values.items) }
        ensures weights { ¬ IsErrOf result ItemsError.WeightOutOfRange }
    {
        check(&values)?;
        match Store::of_valid(alloc, &values) {
            Ok(store) => Ok(store),
            Err(_) => Err(ItemsError::NoMemory),
        }
    }

    /// Like [`Store::new`], but for values that have been checked, so that only an allocation can fail.
    pub fn of_valid(alloc: Global, values: &[i64]) -> Result<Store, AllocError>
        requires count_within_max { length values.now ≤ MAX_ITEMS }
        requires range { All IsValue values.now }
        ensures both { IfOk result (λ s. s ≡ map both_versions values.now) }
        ensures committed { IfOk result (λ s. map (λ w. w.committed) s ≡ values.now) }
    {
        let items = versions_of(alloc, values)?;
        Ok(Store { items })
    }

    /// Returns the number of items.
    pub fn len(&self) -> usize
        ensures len { result ≡ length self.now }
        ensures upper_bound { result ≤ MAX_ITEMS }
    {
        self.items.len()
    }

    /// Returns the current value of an item.
    pub fn read(&self, x: ItemId) -> i64
        requires { x.0 < length self.now }
        ensures value { result ≡ current_at self.now x.0 }
        ensures range { IsValue result }
    {
        self.items[x.0 as usize].current
    }

    /// Returns the committed value of an item.
    pub fn committed(&self, x: ItemId) -> i64
        requires { x.0 < length self.now }
        ensures value { result ≡ committed_at self.now x.0 }
        ensures range { IsValue result }
    {
        self.items[x.0 as usize].committed
    }

    /// Changes the current value of an item, and nothing else.
    pub fn write(&mut self, x: ItemId, v: i64)
        requires item { x.0 < length self.old }
        requires value { IsValue v }
        ensures { self.new ≡ current_set self.old x.0 v }
    {
        let versions = &mut self.items[x.0 as usize];
        versions.current = v;
    }

    /// Makes the current value of an item its committed one.
    pub fn keep(&mut self, x: ItemId)
        requires { x.0 < length self.old }
        ensures { self.new ≡ kept self.old x.0 }
    {
        let versions = &mut self.items[x.0 as usize];
        versions.committed = versions.current;
    }

    /// Puts the committed value of an item back as its current one.
    pub fn undo(&mut self, x: ItemId)
        requires { x.0 < length self.old }
        ensures { self.new ≡ undone self.old x.0 }
    {
        let versions = &mut self.items[x.0 as usize];
        versions.current = versions.committed;
    }
}

/// Creates items with these committed and current values.
fn versions_of(alloc: Global, values: &[i64]) -> Result<Vec<Versions>, AllocError>
    requires { All IsValue values.now }
    ensures both { IfOk result (λ items. items.items ≡ map both_versions values.now) }
    ensures count_within_max { IfOk result (λ items. length items.items ≡ length values.now) }
    ensures range { IfOk result (λ items. All AreValues items.items) }
{
    let versions = values.iter().map(|v| Versions {
        committed: *v,
        current: *v,
    });
    versions.collect(alloc)
}

/// Returns whether an item may have the value.
fn is_value(v: i64) -> bool
    ensures { IsTrue result ↔ IsValue v }
{
    v.unsigned_abs() <= MAX_VALUE
}

/// Checks whether a store may have the values, and returns the reason if not.
fn check(values: &[i64]) -> Result<(), ItemsError>
    ensures ok { OnOk result ((length values.now ≤ MAX_ITEMS) × All IsValue values.now) }
    ensures err { IfErr result (λ e. ((e ≡ ItemsError.TooManyItems) × (MAX_ITEMS < length values.now))
        ⊎ ((e ≡ ItemsError.ValueOutOfRange) × (length values.now ≤ MAX_ITEMS)
        × Any (λ v. ¬ IsValue v) values.now)) }
{
    if values.len() > MAX_ITEMS {
        return Err(ItemsError::TooManyItems);
    }
    if !values.iter().all(|v| is_value(*v)) {
        return Err(ItemsError::ValueOutOfRange);
    }
    Ok(())
}
