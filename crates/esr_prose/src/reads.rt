//! Describes the reads of a query in sentences: each value, its line and its writer.

use crate::prose::{Block, MAX_POINTS, add_paragraph, add_point, push_more};
use crate::subject::Subject;
use esr_history::TxnId;
use esr_items::ItemId;
use esr_outcomes::{TxnOutcome, outcome_of};
use esr_text::{first, push_count, push_number, push_value};
use esr_trace::{ObservedRead, QueryTrace};
use std::alloc::{AllocError, Global};

/// The words for what became of an update whose value was read before it had ended.
fn push_fate(out: &mut String, subject: &Subject<'_>, writer: TxnId) -> Result<(), AllocError> {
    out.push_str(match outcome_of(subject.history, writer) {
        TxnOutcome::Committed => "; it committed only in ",
        TxnOutcome::Aborted => "; it aborted later, in ",
        TxnOutcome::Active => "; it never ended",
    })?;
    let Some(place) = subject.end_place(writer) else {
        return Ok(());
    };
    subject.push_line(out, place)?;
    if subject
        .end_place(subject.query)
        .is_some_and(|end| end < place)
    {
        out.push_str(", after ")?;
        out.push_str(subject.name(subject.query))?;
    }
    Ok(())
}

/// The words for whose value was read.
fn push_source(
    out: &mut String,
    subject: &Subject<'_>,
    observed: &ObservedRead,
) -> Result<(), AllocError> {
    let Some(writer) = observed.writer else {
        return out.push_str(", as at the start");
    };
    if !observed.is_dirty {
        out.push_str(", as ")?;
        out.push_str(subject.name(writer))?;
        return out.push_str(" had left it");
    }
    out.push_str(", which ")?;
    out.push_str(subject.name(writer))?;
    out.push_str(" had written but not committed")?;
    if observed.overwritten {
        out.push_str(", and overwrote later")?;
    }
    push_fate(out, subject, writer)
}

/// A value that was read.
fn push_observed(
    out: &mut String,
    subject: &Subject<'_>,
    observed: &ObservedRead,
) -> Result<(), AllocError> {
    out.push_str(subject.item(observed.item))?;
    out.push(' ')?;
    push_value(out, observed.value)?;
    if observed.count > 1 {
        out.push_str(", ")?;
        push_number(out, observed.count)?;
        out.push_str(" times, first in ")?;
    } else {
        out.push_str(", in ")?;
    }
    subject.push_line(out, observed.place)?;
    push_source(out, subject, observed)
}

/// Returns the number of different values read of an item.
fn observed_reads_of(trace: &QueryTrace, item: ItemId) -> u64 {
    let mut count = 0u64;
    for observed in &trace.observed_reads {
        if observed.item == item {
            count = count.saturating_add(1);
        }
    }
    count
}

/// Returns the sum of the values read, if there are several items, each was read once, and all have weight 1.
pub fn sum_of_reads(trace: &QueryTrace, subject: &Subject<'_>) -> Option<i64> {
    let mut sum = 0i64;
    for observed in &trace.observed_reads {
        let again = observed_reads_of(trace, observed.item);
        if observed.count > 1 || again > 1 || subject.weight(observed.item) > 1 {
            return None;
        }
        sum = sum.saturating_add(observed.value);
    }
    if trace.observed_reads.len() > 1 {
        Some(sum)
    } else {
        None
    }
}

/// Appends that nothing was read, unless the first sentence of a committed query says so.
fn push_nothing(
    alloc: Global,
    blocks: &mut Vec<Block>,
    subject: &Subject<'_>,
) -> Result<(), AllocError> {
    if subject.finding.is_some() {
        return Ok(());
    }
    add_paragraph(alloc, blocks)?.push_str("It read no item.")
}

/// Appends the number of values read.
fn push_intro(out: &mut String, count: usize) -> Result<(), AllocError> {
    out.push_str("It read ")?;
    push_count(out, count as u64, " value:", " values:")
}

/// Appends the sum of the reads.
fn push_sum(out: &mut String, sum: i64) -> Result<(), AllocError> {
    out.push_str("In total they are ")?;
    push_value(out, sum)?;
    out.push('.')
}

/// Appends the reads of the query.
pub fn push_reads(
    alloc: Global,
    blocks: &mut Vec<Block>,
    subject: &Subject<'_>,
    trace: &QueryTrace,
) -> Result<(), AllocError> {
    let count = trace.observed_reads.len();
    if count == 0 {
        return push_nothing(alloc, blocks, subject);
    }
    push_intro(add_paragraph(alloc, blocks)?, count)?;
    for observed in first(&trace.observed_reads, MAX_POINTS) {
        push_observed(add_point(alloc, blocks)?, subject, observed)?;
    }
    push_more(alloc, blocks, count, "value", "values")?;
    match sum_of_reads(trace, subject) {
        Some(sum) => push_sum(add_paragraph(alloc, blocks)?, sum),
        None => Ok(()),
    }
}
