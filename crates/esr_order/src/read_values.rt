//! The values that a query read, in one list for each item, and their distances from a version of the item. Audits of a
//! query share these functions; each fills the lists from its own form of a read.
ghost use Rattle.std.specs.Prelude.{◌≡◌, ◌≤◌, [], ℕ, All, IfOk, length};
ghost use Rattle.esr_base.specs.declared.limits.TheConstants.{MAX_READS};
ghost use Rattle.esr_items.specs.Values.{IsValue};
ghost use Rattle.esr_order.specs.ReadValues.{distance_sum, list_at};

use esr_items::{ItemId, Metric};
use std::alloc::{AllocError, Global};

/// Returns `count` empty lists.
///
/// # Errors
///
/// An allocation failed.
pub fn empty_lists(alloc: Global, count: u32) -> Result<Vec<Vec<i64>>, AllocError>
    ensures count { IfOk result (λ lists. length lists.items ≡ count) }
    ensures none { IfOk result (λ lists. (x : ℕ) → list_at lists.items x ≡ []) }
{
    let mut lists = Vec::with_capacity(alloc, count as usize)?;
    for _i in 0..count {
        lists.push(Vec::new(alloc))?;
    }
    Ok(lists)
}

/// Returns the sum of the distances of the values from a version of the item.
pub fn distance_to<M: Metric>(metric: &M, x: ItemId, values: &[i64], version: i64) -> u64
    requires count_within_max { length values.now ≤ MAX_READS }
    requires values { All IsValue values.now }
    requires version { IsValue version }
    ensures { result ≡ distance_sum (M.distance_by (M.weights metric.now)) x.0 values.now version }
{
    let mut sum = 0u64;
    for value in values {
        sum += metric.distance(x, *value, version);
    }
    sum
}
