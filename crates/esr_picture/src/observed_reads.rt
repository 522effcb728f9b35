//! The reads of a lane: the values that it was read with, and those that did not stay, since their writer aborted,
//! came later, or wrote over them. A lane may have the value of one all the same, of another update: its piece is green
//! then, since audits compare values and nothing else, and the writer of the value is kept as well.

use esr_cert::Chain;
use esr_items::ItemId;
use esr_report::name_of_transaction;
use esr_svg::{SameValue, TransientRead, TransientReads};
use esr_trace::{Audited, ObservedRead, Positions, QueryTrace, WriterEnd};
use std::alloc::{AllocError, Global};

/// Returns the values that were read of an item, without repetitions, with the number of reads of each.
pub fn read_counts_by_value(
    alloc: Global,
    trace: &QueryTrace,
    item: ItemId,
) -> Result<Vec<(i64, u64)>, AllocError> {
    let mut counts: Vec<(i64, u64)> = Vec::new(alloc);
    for observed in &trace.observed_reads {
        if observed.item == item {
            add_count(&mut counts, observed.value, observed.count)?;
        }
    }
    Ok(counts)
}

/// Adds a number of reads of a value.
fn add_count(counts: &mut Vec<(i64, u64)>, value: i64, count: u64) -> Result<(), AllocError> {
    let place = counts.iter().position(|other| other.0 == value);
    if let Some(place) = place
        && let Some(other) = counts.get_mut(place)
    {
        other.1 = other.1.saturating_add(count);
        return Ok(());
    }
    counts.push((value, count))?;
    Ok(())
}

/// Returns whether a value that was read is a version of its item.
fn is_installed(trace: &QueryTrace, observed: &ObservedRead) -> bool {
    match observed.writer {
        Some(writer) => trace.end(writer) == WriterEnd::Committed && !observed.overwritten,
        None => true,
    }
}

/// Returns for each version of a chain whether the query read it, and not only a value equal to it.
pub fn read_flags_by_version(
    alloc: Global,
    trace: &QueryTrace,
    chain: &Chain,
    positions: &Positions,
) -> Result<Vec<bool>, AllocError> {
    let mut seen = vec![in alloc; false; chain.writers.len().saturating_add(1)]?;
    for observed in &trace.observed_reads {
        if observed.item == chain.item
            && is_installed(trace, observed)
            && let Some(version) = version_read(chain, positions, observed)
            && let Some(is_seen) = seen.get_mut(version)
        {
            *is_seen = true;
        }
    }
    Ok(seen)
}

/// Returns the version of a chain that was read, if it is one.
fn version_read(chain: &Chain, positions: &Positions, observed: &ObservedRead) -> Option<usize> {
    let Some(writer) = observed.writer else {
        return Some(0);
    };
    let position = positions.of(writer)?;
    let index = chain.writers.binary_search(&position).ok()?;
    Some(index.saturating_add(1))
}

/// Returns what happened to a value that was read, if it did not become a version.
fn reason_not_installed(
    audited_query: &Audited<'_>,
    trace: &QueryTrace,
    observed: &ObservedRead,
) -> Option<&'static str> {
    let writer = observed.writer?;
    let has_ended = audited_query
        .history
        .facts(writer)
        .is_some_and(|facts| facts.end.is_some());
    match trace.end(writer) {
        WriterEnd::Aborted => Some("aborted"),
        WriterEnd::Later if has_ended => Some("committed later"),
        WriterEnd::Later => Some("never ended"),
        WriterEnd::Committed if observed.overwritten => Some("overwrote it"),
        WriterEnd::Committed => None,
    }
}

/// Returns the first of these versions of a chain that has a value.
fn same_value<'a>(
    audited_query: &Audited<'a>,
    chain: &Chain,
    versions: &[(i64, usize)],
    value: i64,
) -> Option<SameValue<'a>> {
    let (_, version) = versions.iter().find(|(other, _)| *other == value)?;
    let Some(index) = version.checked_sub(1) else {
        return Some(SameValue::Opening);
    };
    let position = *chain.writers.get(index)?;
    let update = *audited_query
        .finding
        .problem
        .updates()
        .get(position as usize)?;
    let name = name_of_transaction(audited_query.transactions, update);
    Some(SameValue::Update(name))
}

/// A value that was read of an item, if it did not stay.
fn transient_read_of<'a>(
    audited_query: &Audited<'a>,
    trace: &QueryTrace,
    observed: &ObservedRead,
    chain: &Chain,
    versions: &[(i64, usize)],
) -> Option<TransientRead<'a>> {
    let reason = reason_not_installed(audited_query, trace, observed)?;
    let writer = observed.writer?;
    Some(TransientRead {
        value: observed.value,
        writer: name_of_transaction(audited_query.transactions, writer),
        reason,
        same: same_value(audited_query, chain, versions, observed.value),
    })
}

/// The transient reads of the item of a chain, whose lane has these versions.
pub fn transient_reads_of<'a>(
    audited_query: &Audited<'a>,
    trace: &QueryTrace,
    chain: &Chain,
    versions: &[(i64, usize)],
) -> TransientReads<'a> {
    let mut transient_reads = TransientReads {
        first: None,
        more: 0,
    };
    for observed in &trace.observed_reads {
        if observed.item == chain.item
            && let Some(transient_read) = transient_read_of(
                audited_query,
                trace,
                observed,
                chain,
                versions,
            )
        {
            transient_reads.add(transient_read);
        }
    }
    transient_reads
}
