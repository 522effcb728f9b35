//! The nearest moment of a committed query, in words: what each item that it read was there, and how far off the reads
//! of it are.

use crate::prose::{Block, MAX_POINTS, add_paragraph, add_point, push_more};
use crate::reads::sum_of_reads;
use crate::subject::Subject;
use esr_audit::Finding;
use esr_items::ItemId;
use esr_text::{first, push_number, push_value};
use esr_trace::{ObservedRead, QueryTrace};
use std::alloc::{AllocError, Global};

/// An item that was read, as it was at the nearest moment.
#[derive(Clone, Copy)]
struct There {
    item: ItemId,
    value: i64,
    /// The sum of the differences of its reads.
    off: u64,
}

/// Returns the sum of the differences of an item's reads from a value.
fn off(trace: &QueryTrace, subject: &Subject<'_>, item: ItemId, there: i64) -> u64 {
    let mut sum = 0u64;
    for observed in &trace.observed_reads {
        if observed.item == item {
            let gap = there
                .abs_diff(observed.value)
                .saturating_mul(observed.count);
            sum = sum.saturating_add(gap);
        }
    }
    sum.saturating_mul(subject.weight(item))
}

/// Returns whether an item is in the list.
fn is_there(items: &[There], item: ItemId) -> bool {
    for there in items {
        if there.item == item {
            return true;
        }
    }
    false
}

/// The items that were read, each once, in the order of their first reads.
fn items_read(
    alloc: Global,
    trace: &QueryTrace,
    subject: &Subject<'_>,
    values: &[i64],
) -> Result<Vec<There>, AllocError> {
    let mut items: Vec<There> = Vec::new(alloc);
    for ObservedRead { item, .. } in &trace.observed_reads {
        if !is_there(&items, *item) {
            let value = values.get(item.0 as usize).copied().unwrap_or(0);
            items.push(There {
                item: *item,
                value,
                off: off(trace, subject, *item, value),
            })?;
        }
    }
    Ok(items)
}

/// An item at the nearest moment.
fn push_there(out: &mut String, subject: &Subject<'_>, there: There) -> Result<(), AllocError> {
    out.push_str(subject.item(there.item))?;
    out.push(' ')?;
    push_value(out, there.value)?;
    if there.off == 0 {
        return out.push_str(", as read");
    }
    out.push_str(": the values read are off by ")?;
    push_number(out, there.off)?;
    let weight = subject.weight(there.item);
    if weight < 2 {
        return Ok(());
    }
    out.push_str(", because a difference counts ")?;
    push_number(out, weight)?;
    out.push_str(" times")
}

/// The places of the items, those that are off most first.
fn ranking(alloc: Global, items: &[There]) -> Result<Vec<(u64, usize)>, AllocError> {
    let mut ranks = Vec::new(alloc);
    let mut place = 0usize;
    for there in items {
        ranks.push((u64::MAX.saturating_sub(there.off), place))?;
        place = place.saturating_add(1);
    }
    ranks.sort_unstable();
    Ok(ranks)
}

/// The items, those that are off most first.
fn push_items(
    alloc: Global,
    blocks: &mut Vec<Block>,
    subject: &Subject<'_>,
    items: &[There],
) -> Result<(), AllocError> {
    let ranks = ranking(alloc, items)?;
    for (_, place) in first(&ranks, MAX_POINTS) {
        if let Some(there) = items.get(*place) {
            push_there(add_point(alloc, blocks)?, subject, *there)?;
        }
    }
    push_more(alloc, blocks, items.len(), "item", "items")
}

/// Appends the sum of the values read and the sum at the nearest moment.
fn push_sums(out: &mut String, items: &[There], read: i64) -> Result<(), AllocError> {
    let mut sum = 0i64;
    for there in items {
        sum = sum.saturating_add(there.value);
    }
    out.push_str("In total they were ")?;
    push_value(out, sum)?;
    let gap = sum.abs_diff(read);
    if gap == 0 {
        return out.push_str(" there, the total that the report computes.");
    }
    out.push_str(" there: the sum of the values read is off by ")?;
    push_number(out, gap)?;
    out.push('.')
}

/// Appends the values of these items at the nearest moment.
fn push_all(
    alloc: Global,
    blocks: &mut Vec<Block>,
    subject: &Subject<'_>,
    trace: &QueryTrace,
    items: &[There],
) -> Result<(), AllocError> {
    add_paragraph(alloc, blocks)?.push_str(if items.len() == 1 {
        "In the nearest state, the value was:"
    } else {
        "In the nearest state, the values were:"
    })?;
    push_items(alloc, blocks, subject, items)?;
    match sum_of_reads(trace, subject) {
        Some(read) => push_sums(add_paragraph(alloc, blocks)?, items, read),
        None => Ok(()),
    }
}

/// Appends the value of each item at the nearest moment, if a read differs from it.
pub fn push_nearest(
    alloc: Global,
    blocks: &mut Vec<Block>,
    subject: &Subject<'_>,
    trace: &QueryTrace,
    finding: &Finding,
) -> Result<(), AllocError> {
    if finding.distance == 0 {
        return Ok(());
    }
    let values = subject.auditor.values_after(alloc, &finding.before)?;
    let items = items_read(alloc, trace, subject, &values)?;
    push_all(alloc, blocks, subject, trace, &items)
}
