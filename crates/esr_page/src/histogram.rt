//! The histogram of distances. Its bins are the numbers of digits: the distance 0, 1 to 9, 10 to 99, and so on.

use crate::audits::AuditedDistance;
use esr_text::push_number;
use std::alloc::{AllocError, Global};

/// The maximum number of digits of a distance.
const MAX_DIGITS: usize = 20;

/// Returns the number of digits of a distance, or 0 for the distance 0.
fn digit_count(distance: u64) -> usize {
    let mut bound = 1u64;
    for digits in 0..MAX_DIGITS {
        if distance < bound {
            return digits;
        }
        bound = bound.saturating_mul(10);
    }
    MAX_DIGITS
}

/// Returns how many distances have each number of digits.
fn counts_of(alloc: Global, distances: &[AuditedDistance]) -> Result<Vec<u64>, AllocError> {
    let mut counts = vec![in alloc; 0u64; MAX_DIGITS + 1]?;
    for audited in distances {
        if let Some(count) = counts.get_mut(digit_count(audited.distance)) {
            *count = count.saturating_add(1);
        }
    }
    Ok(counts)
}

/// Appends the range of a bin: "exact" for 0 digits, otherwise from `least`, which is the least distance with this number of
/// digits, to the greatest.
fn push_range(out: &mut String, digits: usize, least: u64) -> Result<(), AllocError> {
    if digits == 0 {
        return out.push_str("exact");
    }
    out.push_str("off by ")?;
    push_number(out, least)?;
    out.push_str(" to ")?;
    // (a distance of 20 digits is at most 2^64 - 1)
    let next = least.checked_mul(10);
    push_number(out, next.map_or(u64::MAX, |next| next.saturating_sub(1)))
}

/// Appends the bar of a count, in proportion to the largest count, unless the count is 0.
fn push_bar(out: &mut String, digits: usize, count: u64, max_count: u64) -> Result<(), AllocError> {
    if count == 0 {
        return Ok(());
    }
    let share = count.saturating_mul(80).checked_div(max_count).unwrap_or(0);
    // (the colours of charges and of distances)
    let class = if digits == 0 { "chg" } else { "dis" };
    write!(out, "<i class='{class}' style='width:{share}%'></i>")
}

/// Appends the row of a bin: its range, a bar and the number of distances in it.
fn push_row(
    out: &mut String,
    digits: usize,
    least: u64,
    count: u64,
    max_count: u64,
) -> Result<(), AllocError> {
    out.push_str("<li><span class='bin'>")?;
    push_range(out, digits, least)?;
    out.push_str("</span><span class='bar'>")?;
    push_bar(out, digits, count, max_count)?;
    out.push_str("<b>")?;
    push_number(out, count)?;
    out.push_str("</b></span></li>\n")
}

/// Returns the number of bins up to the last that is not empty.
fn row_count(counts: &[u64]) -> usize {
    let mut last = 0usize;
    for (digits, count) in counts.iter().enumerate() {
        if *count > 0 {
            last = digits;
        }
    }
    last.saturating_add(1)
}

/// Appends one row for each bin up to the last that is not empty.
fn push_rows(out: &mut String, counts: &[u64]) -> Result<(), AllocError> {
    let max_count = counts.iter().copied().max().unwrap_or(0);
    let mut least = 1u64;
    for (digits, count) in counts.iter().take(row_count(counts)).enumerate() {
        push_row(out, digits, least, *count, max_count)?;
        if digits > 0 {
            least = least.saturating_mul(10);
        }
    }
    Ok(())
}

/// Appends the histogram, unless no query has committed.
pub fn push_histogram(
    alloc: Global,
    out: &mut String,
    distances: &[AuditedDistance],
) -> Result<(), AllocError> {
    if distances.is_empty() {
        return Ok(());
    }
    let counts = counts_of(alloc, distances)?;
    out.push_str("<h2>How many queries were off</h2>\n<ul class='hist'>\n")?;
    push_rows(out, &counts)?;
    out.push_str("</ul>\n")
}
