//! Stores and distances by hand. No clause can state that a store's allocation succeeds; its bounds, and the metric
//! meant, are in constants and definitions, which could contain other numbers and be proved.

ghost use Rattle.std.specs.Prelude.{◌≡◌, length};

use esr_items::{ItemId, ItemsError, Metric, Plain, Store, Weighted};
use std::alloc::Global;
use std::process::Abort;

const MAX_VALUE: i64 = 1_000_000_000_000;

/// Returns a store of these values.
fn store_of(rt: &impl Abort, alloc: Global, values: &[i64]) -> Store
    ensures { length result ≡ length values.now }
{
    let Ok(values) = values.to_vec(alloc) else {
        panic!(rt; "memory")
    };
    let Ok(store) = Store::new(alloc, values) else {
        panic!(rt; "a store")
    };
    store
}

/// No clause can state that a store's allocation succeeds: one that always fails would be proved, and keep no value.
#[test]
fn a_store_keeps_two_values_of_each_item(rt: HostRuntime) {
    let mut store = store_of(&rt, rt.alloc(), &[7, -MAX_VALUE]);
    let a = ItemId(0);
    let b = ItemId(1);
    assert!(rt; store.len() == 2);
    store.write(a, 9);
    store.write(b, MAX_VALUE);
    assert!(rt; store.read(a) == 9);
    assert!(rt; store.committed(a) == 7);
    store.keep(a);
    store.undo(b);
    assert!(rt; store.committed(a) == 9);
    assert!(rt; store.read(b) == -MAX_VALUE);
}

/// Returns whether a store of these values is refused with this error.
fn refuses(alloc: Global, values: &[i64], wanted: ItemsError) -> bool {
    match values.to_vec(alloc) {
        Ok(values) => Store::new(alloc, values).err() == Some(wanted),
        Err(_) => false,
    }
}

/// The bounds are constants that no clause compares with the formats: a store that takes more could be proved.
#[test]
fn a_store_names_what_it_refuses(rt: HostRuntime) {
    let alloc = rt.alloc();
    assert!(rt; refuses(alloc, &[0, MAX_VALUE + 1], ItemsError::ValueOutOfRange));
    assert!(rt; refuses(alloc, &[MAX_VALUE + 1; 4097], ItemsError::TooManyItems));
}

/// A distance of 1 between any two values that differ is a metric too: a definition of that would be proved.
#[test]
fn plain_distances_are_differences(rt: HostRuntime) {
    let x = ItemId(0);
    assert!(rt; Plain.distance(x, -MAX_VALUE, MAX_VALUE) == 2_000_000_000_000);
    assert!(rt; Plain.distance(x, 3, 3) == 0);
}

/// Returns a metric of these weights.
fn metric_of(rt: &impl Abort, alloc: Global, weights: &[u32]) -> Weighted {
    let Ok(weights) = weights.to_vec(alloc) else {
        panic!(rt; "memory")
    };
    let Ok(metric) = Weighted::new(weights) else {
        panic!(rt; "a metric")
    };
    metric
}

/// A definition that forgets the weights is a metric too; and what an item without one counts is a definition's.
#[test]
fn weighted_distances_are_differences_times_weights(rt: HostRuntime) {
    let metric = metric_of(&rt, rt.alloc(), &[3, 1000]);
    assert!(rt; metric.distance(ItemId(0), 107, 100) == 21);
    assert!(rt; metric.distance(ItemId(1), -MAX_VALUE, MAX_VALUE) == 2_000_000_000_000_000);
    assert!(rt; metric.distance(ItemId(2), 3, 5) == 2);
}

/// Returns whether these weights are refused with this error.
fn refuses_weights(alloc: Global, weights: &[u32], wanted: ItemsError) -> bool {
    match weights.to_vec(alloc) {
        Ok(weights) => Weighted::new(weights).err() == Some(wanted),
        Err(_) => false,
    }
}

/// The bounds are constants that no clause compares with the formats: a metric that takes more could be proved.
#[test]
fn a_weighted_metric_names_what_it_refuses(rt: HostRuntime) {
    let alloc = rt.alloc();
    assert!(rt; refuses_weights(alloc, &[1, 0], ItemsError::WeightOutOfRange));
    assert!(rt; refuses_weights(alloc, &[1001], ItemsError::WeightOutOfRange));
    assert!(rt; refuses_weights(alloc, &[0; 4097], ItemsError::TooManyItems));
}
