//! The error of the sum of the values that a query read. The distance adds up absolute differences times the weights. In the
//! sum, errors in opposite directions cancel and are not multiplied by weights. As each weight is at least 1, the error of the
//! sum is at most the distance.

use esr_history::TxnId;
use esr_order::accesses_of;
use esr_outcomes::Auditor;
use std::alloc::{AllocError, Global};

/// Returns by how much the sum of the values that a query read differs from the sum of the values of the same items after
/// these updates. An item that was read several times counts as often in both sums. For the updates before the nearest
/// placement, the result is at most the distance.
pub fn sum_error(
    alloc: Global,
    auditor: &Auditor<'_>,
    query: TxnId,
    updates_before: &[TxnId],
) -> Result<u64, AllocError> {
    let placement_values = auditor.values_after(alloc, updates_before)?;
    let mut error = 0i128;
    for access in &accesses_of(alloc, auditor.history(), query)? {
        let item = access.item.0 as usize;
        let placement_value = placement_values.get(item).copied().unwrap_or(0);
        let difference = i128::from(access.value).saturating_sub(i128::from(placement_value));
        error = error.saturating_add(difference);
    }
    Ok(u64::try_from(error.unsigned_abs()).unwrap_or(u64::MAX))
}
