//! The declared items of a script, before its machine exists.
//!
//! Their type ensures that each value and each weight is in range and that there are at most 4,096 of them. So the
//! machine can be made from them without a check, and only an allocation can fail.

ghost use Rattle.std.specs.Prelude.{◌≡◌, ◌+◌, ◌<◌, ◌≤◌, ◌++◌, ◌∷◌, [], length, map, All, IfOk, OnOk, OnErr};
ghost use Rattle.esr_base.specs.declared.limits.TheConstants.{MAX_ITEMS};
ghost use Rattle.esr_items.specs.Values.{IsValue, both_versions};
ghost use Rattle.esr_items.specs.Weights.{IsWeight};
ghost use Rattle.esr_script.specs.Items.{DeclaredItems, no_items};

use esr_items::{Store, Weighted};
use std::alloc::{AllocError, Global};
use std::marker::Model;
use std::mem;

/// The opening value and the weight of each declared item.
#[derive(Drop)]
pub struct Declarations {
    values: Vec<i64>,
    weights: Vec<u32>,
}

impl Model for Declarations {
    ghost Value = { DeclaredItems };

    ghost view = { λ d. record { values = d.values.items; weights = d.weights.items } };

    ghost invariant = { λ d. (length d.values.items ≤ MAX_ITEMS)
        × (length d.weights.items ≤ length d.values.items)
        × All IsValue d.values.items × All IsWeight d.weights.items };
}

impl Declarations {
    /// Returns no declarations.
    pub fn new(alloc: Global) -> Declarations
        ensures { result ≡ no_items }
    {
        Declarations {
            values: Vec::new(alloc),
            weights: Vec::new(alloc),
        }
    }

    /// Adds an item with its value and its weight.
    ///
    /// # Errors
    ///
    /// An allocation failed. The value may have been added then, without a weight.
    pub fn add(&mut self, value: i64, weight: u32) -> Result<(), AllocError>
        requires count_within_max { length self.old.values < MAX_ITEMS }
        requires value { IsValue value }
        requires weight { IsWeight weight }
        ensures values { OnOk result (self.new.values ≡ self.old.values ++ value ∷ []) }
        ensures weights { OnOk result (self.new.weights ≡ self.old.weights ++ weight ∷ []) }
        ensures err { OnErr result (length self.new.values ≤ length self.old.values + 1) }
    {
        self.values.push(value)?;
        self.weights.push(weight)?;
        Ok(())
    }

    /// Returns a store in which each item has its opening value.
    pub fn store(&self, alloc: Global) -> Result<Store, AllocError>
        ensures { IfOk result (λ s. s ≡ map both_versions self.now.values) }
    {
        Store::of_valid(alloc, &self.values)
    }

    /// Returns the metric of the weights, which are taken out.
    pub fn take_metric(&mut self, alloc: Global) -> Weighted
        ensures metric { result ≡ self.old.weights }
        ensures values { self.new.values ≡ self.old.values }
    {
        Weighted::of_valid(mem::replace(&mut self.weights, Vec::new(alloc)))
    }
}
