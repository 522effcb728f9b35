//! The values that a query read, by item, and the costs of versions.
ghost use Rattle.std.specs.Prelude.{◌≡◌, ◌≤◌, ◌<◌, ◌++◌, ◌∷◌, [], ℕ, All, IfOk, OnOk, length};
ghost use Rattle.esr_base.specs.declared.limits.TheConstants.{MAX_READS};
ghost use Rattle.esr_items.specs.Values.{IsValue};
ghost use Rattle.esr_stream.specs.Reads.{AreReadsInRange, distance_sum, list_at, offset_cost, values_of};

use esr_items::{ItemId, Metric};
use esr_order::{Access, distance_to, empty_lists};
use std::alloc::{AllocError, Global};

/// The number that is added to each cost, so that amounts below zero can be written as unsigned integers.
pub const OFFSET: u64 = 1 << 44;

/// Appends the value of a read to the list of its item, if there is one.
fn put_value(values_read: &mut Vec<Vec<i64>>, read: Access) -> Result<(), AllocError>
    ensures count { OnOk result (length values_read.new.items ≡ length values_read.old.items) }
    ensures values { OnOk result ((x : ℕ) → x < length values_read.old.items
        → list_at values_read.new.items x ≡ list_at values_read.old.items x ++ values_of (read ∷ []) x) }
{
    if read.writes {
        return Ok(());
    }
    let x = read.item.0 as usize;
    if x < values_read.len() {
        values_read[x].push(read.value)?;
    }
    Ok(())
}

/// Returns the values that these accesses read of each of the first `items` items.
///
/// # Errors
///
/// An allocation failed.
pub fn values_by_item(
    alloc: Global,
    accesses: &[Access],
    items: u32,
) -> Result<Vec<Vec<i64>>, AllocError>
    ensures count { IfOk result (λ values_read. length values_read.items ≡ items) }
    ensures values { IfOk result (λ values_read. (x : ℕ) → x < items → list_at values_read.items x ≡ values_of accesses.now x) }
{
    let mut values_read = empty_lists(alloc, items)?;
    for access in accesses {
        put_value(&mut values_read, *access)?;
    }
    Ok(values_read)
}

/// Returns the sum of the distances of the values from a version of the item, by a loop, which is out of line.
#[inline(never)]
fn distance_of_several<M: Metric>(metric: &M, x: ItemId, values: &[i64], version: i64) -> u64
    requires count_within_max { length values.now ≤ MAX_READS }
    requires values { All IsValue values.now }
    requires version { IsValue version }
    ensures { result ≡ distance_sum (M.distance_by (M.weights metric.now)) x.0 values.now version }
{
    distance_to(metric, x, values, version)
}

/// Returns the sum of the distances of the values from a version of the item. Most queries read an item at most once, which takes
/// no loop.
fn total_distance<M: Metric>(metric: &M, x: ItemId, values: &[i64], version: i64) -> u64
    requires count_within_max { length values.now ≤ MAX_READS }
    requires values { All IsValue values.now }
    requires version { IsValue version }
    ensures { result ≡ distance_sum (M.distance_by (M.weights metric.now)) x.0 values.now version }
{
    if 1 < values.len() {
        return distance_of_several(metric, x, values, version);
    }
    if values.is_empty() {
        0
    } else {
        metric.distance(x, values[0], version)
    }
}

/// Returns the cost of a version of an item, plus the offset.
pub fn offset_cost<M: Metric>(metric: &M, values_read: &[Vec<i64>], x: ItemId, version: i64) -> u64
    requires item { x.0 < length values_read.now }
    requires reads_in_range { AreReadsInRange values_read.now }
    requires version { IsValue version }
    ensures { result ≡ offset_cost (M.distance_by (M.weights metric.now)) values_read.now x.0 version }
{
    total_distance(metric, x, &values_read[x.0 as usize], version) + OFFSET
}
