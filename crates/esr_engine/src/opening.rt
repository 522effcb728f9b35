//! Opens engines. Checks values and weights before the first allocation, so that an invalid value or weight is reported
//! even if memory is short.

ghost use Rattle.std.specs.Prelude.{◌≡◌, ◌<◌, ◌≤◌, ◌↔◌, ◌⊎◌, [], length, map, All, Any, IsTrue, IfOk, IfErr, IsErrOf};
ghost use Rattle.esr_base.specs.declared.limits.TheConstants.{MAX_ITEMS};
ghost use Rattle.esr_items.specs.Values.{IsValue};
ghost use Rattle.esr_items.specs.Weights.{IsWeight};
ghost use Rattle.esr_history.specs.Machine.{schedule_of};

use crate::engine::EmbeddedEngine;
use esr_core::Machine;
use esr_history::NoMemory;
use esr_items::{MAX_ITEMS, MAX_VALUE, MAX_WEIGHT, Store, Weighted};
use esr_order::Index;
use std::alloc::{AllocError, Global};
use thiserror::Error;

/// Why an engine is not opened, with the number of each reason.
#[derive(Clone, Copy, PartialEq, Eq, Debug, Error)]
pub enum OpenError {
    /// There are more than 4,096 values, or weights.
    #[error("more than 4,096 items")]
    TooManyItems = 1,
    /// A value is above 1,000,000,000,000 or below its negative.
    #[error("value out of range")]
    ValueOutOfRange = 2,
    /// A weight is 0 or above 1,000.
    #[error("weight out of range")]
    WeightOutOfRange = 4,
    /// An allocation failed.
    #[error("out of memory")]
    NoMemory = 13,
}

fn is_value(v: i64) -> bool
    ensures { IsTrue result ↔ IsValue v }
{
    v.unsigned_abs() <= MAX_VALUE
}

fn is_weight(w: u32) -> bool
    ensures { IsTrue result ↔ IsWeight w }
{
    1 <= w && w <= MAX_WEIGHT
}

/// Returns an error if there are too many values or weights, or if one of them is out of range.
fn check(opening: &[i64], weights: &[u32]) -> Result<(), OpenError>
    ensures ok { IfOk result (λ _. (length opening.now ≤ MAX_ITEMS) × (length weights.now ≤ MAX_ITEMS)
        × All IsValue opening.now × All IsWeight weights.now) }
    ensures many { IsErrOf result OpenError.TooManyItems
        ↔ ((MAX_ITEMS < length opening.now) ⊎ (MAX_ITEMS < length weights.now)) }
    ensures range { IsErrOf result OpenError.ValueOutOfRange ↔ ((length opening.now ≤ MAX_ITEMS)
        × (length weights.now ≤ MAX_ITEMS) × Any (λ v. ¬ IsValue v) opening.now) }
    ensures weights { IsErrOf result OpenError.WeightOutOfRange ↔ ((length opening.now ≤ MAX_ITEMS)
        × (length weights.now ≤ MAX_ITEMS) × All IsValue opening.now × Any (λ w. ¬ IsWeight w) weights.now) }
    ensures memory { ¬ IsErrOf result OpenError.NoMemory }
{
    if opening.len() > MAX_ITEMS || weights.len() > MAX_ITEMS {
        return Err(OpenError::TooManyItems);
    }
    if !opening.iter().all(|v| is_value(*v)) {
        return Err(OpenError::ValueOutOfRange);
    }
    if !weights.iter().all(|w| is_weight(*w)) {
        return Err(OpenError::WeightOutOfRange);
    }
    Ok(())
}

/// Creates the metric with these weights.
pub(crate) fn metric_of(alloc: Global, weights: &[u32]) -> Result<Weighted, AllocError>
    requires count_within_max { length weights.now ≤ MAX_ITEMS }
    requires range { All IsWeight weights.now }
    ensures { IfOk result (λ m. m ≡ weights.now) }
{
    let Ok(metric) = Weighted::new(weights.to_vec(alloc)?) else {
        unreachable!()
    };
    Ok(metric)
}

/// Creates an engine with these values and weights.
pub(crate) fn engine_of(
    alloc: Global,
    opening: &[i64],
    weights: &[u32],
) -> Result<EmbeddedEngine, NoMemory>
    requires count_within_max { length opening.now ≤ MAX_ITEMS }
    requires range { All IsValue opening.now }
    requires weights { (length weights.now ≤ MAX_ITEMS) × All IsWeight weights.now }
    ensures { IfOk result (λ e. e ≡ schedule_of opening.now weights.now []) }
{
    let items = Store::of_valid(alloc, opening)?;
    let metric = metric_of(alloc, weights)?;
    let weights = weights.to_vec(alloc)?;
    Ok(EmbeddedEngine {
        machine: Machine::new(alloc, items, metric)?,
        weights,
        active: 0,
        index: Index::new(alloc),
        spare: None,
    })
}

impl EmbeddedEngine {
    /// Creates an engine of items with these opening values and weights; an item past the weights has weight 1.
    ///
    /// # Errors
    /// `TooManyItems`, `ValueOutOfRange` or `WeightOutOfRange` if and only if the arguments are invalid in this way,
    /// the first that applies; otherwise `NoMemory` if an allocation failed.
    pub fn new(alloc: Global, opening: &[i64], weights: &[u32]) -> Result<EmbeddedEngine, OpenError>
        ensures ok { IfOk result (λ e. e ≡ schedule_of opening.now weights.now []) }
        ensures many { IsErrOf result OpenError.TooManyItems
            ↔ ((MAX_ITEMS < length opening.now) ⊎ (MAX_ITEMS < length weights.now)) }
        ensures range { IsErrOf result OpenError.ValueOutOfRange ↔ ((length opening.now ≤ MAX_ITEMS)
            × (length weights.now ≤ MAX_ITEMS) × Any (λ v. ¬ IsValue v) opening.now) }
        ensures weights { IsErrOf result OpenError.WeightOutOfRange ↔ ((length opening.now ≤ MAX_ITEMS)
            × (length weights.now ≤ MAX_ITEMS) × All IsValue opening.now × Any (λ w. ¬ IsWeight w) weights.now) }
    {
        check(opening, weights)?;
        match engine_of(alloc, opening, weights) {
            Ok(engine) => Ok(engine),
            Err(_) => Err(OpenError::NoMemory),
        }
    }
}
