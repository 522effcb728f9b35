//! Which transactions have a lane: all of a short script; else the query, and the transactions that concern it.

use crate::causes::ranking;
use crate::source::{PlacedQuery, Source};
use esr_history::{Entry, Refusal, Reply, TxnId};
use esr_outcomes::{Auditor, kind_of, outcome_of};
use esr_report::name_of_transaction;
use esr_text::first;
use esr_timeline_data::{Arrow, Lane, Nearest};
use esr_trace::{NearestPlacement, QueryTrace, off_reads, opening_distance, relevant_updates};
use esr_wording::{TxnCounts, class_of};
use std::alloc::{AllocError, Global};

/// The maximum number of lanes.
pub const MAX_LANES: usize = 12;

/// The maximum number of updates that have lanes before all others, since they were charged most.
pub const MAX_CHARGERS: usize = 3;

/// The maximum number of reads that are off whose causes have lanes before the other updates.
const MAX_CAUSES: usize = 6;

/// With at most this many lanes, the writers of the values that were read have lanes too.
const FEW_LANES: usize = 6;

/// Returns the transaction that blocked an event.
pub fn blocker_of(reply: Reply) -> Option<TxnId> {
    match reply {
        Reply::Refused(
            Refusal::BlockedByLock(txn)
            | Refusal::BlockedByImport(txn)
            | Refusal::BlockedByExport(txn),
        ) => Some(txn),
        _ => None,
    }
}

/// Adds a transaction that has no lane yet, if there is space for one more.
fn push_new(chosen: &mut Vec<TxnId>, txn: TxnId, upper_bound: usize) -> Result<(), AllocError> {
    if chosen.len() < upper_bound && !chosen.contains(&txn) {
        chosen.push(txn)?;
    }
    Ok(())
}

/// Returns the other transaction of an entry that blocked the query, or that the query blocked.
fn opponent_of(entry: Entry, query: TxnId) -> Option<TxnId> {
    let blocker = blocker_of(entry.reply)?;
    let txn = entry.txn()?;
    if txn == query {
        Some(blocker)
    } else if blocker == query {
        Some(txn)
    } else {
        None
    }
}

/// Adds the transactions that blocked the query, and those that it blocked.
fn push_opponents(
    chosen: &mut Vec<TxnId>,
    source: Source<'_>,
    query: TxnId,
) -> Result<(), AllocError> {
    let log = source.history.log();
    for place in 0..log.len() {
        if let Some(entry) = log.get(place)
            && let Some(opponent) = opponent_of(entry, query)
        {
            push_new(chosen, opponent, MAX_LANES)?;
        }
    }
    Ok(())
}

/// Adds the writers of the values that the query read.
fn push_writers(chosen: &mut Vec<TxnId>, trace: &QueryTrace) -> Result<(), AllocError> {
    for observed in &trace.observed_reads {
        if let Some(writer) = observed.writer {
            push_new(chosen, writer, FEW_LANES)?;
        }
    }
    Ok(())
}

/// Returns the updates whose charges explain the reads that are off, the greatest distance first.
fn explaining(alloc: Global, arrows: &[Arrow<'_>]) -> Result<Vec<TxnId>, AllocError> {
    let mut updates = Vec::new(alloc);
    for index in &ranking(alloc, arrows)? {
        if let Some(arrow) = arrows.get(*index)
            && arrow.explained > 0
        {
            push_new(&mut updates, arrow.update, MAX_LANES)?;
        }
    }
    Ok(updates)
}

/// Returns the updates that were charged most, at most `upper_bound`.
pub fn chargers(
    alloc: Global,
    trace: &QueryTrace,
    upper_bound: usize,
) -> Result<Vec<TxnId>, AllocError> {
    relevant_updates(alloc, trace, &[], &[], upper_bound)
}

/// Returns the query and the transactions that concern it, in the order of their begins: the updates that were charged most,
/// the causes of the reads that are off, the updates whose charges explain them, the other updates that it was charged by,
/// the transactions that blocked it or that it blocked, and the writers of the values that it read.
pub fn concerned(
    alloc: Global,
    source: Source<'_>,
    query: TxnId,
    trace: &QueryTrace,
    causes: &[TxnId],
    arrows: &[Arrow<'_>],
) -> Result<Vec<TxnId>, AllocError> {
    let mut due = chargers(alloc, trace, MAX_CHARGERS)?;
    due.extend_from_slice(first(causes, MAX_CAUSES))?;
    let explaining = explaining(alloc, arrows)?;
    let mut chosen = relevant_updates(alloc, trace, &due, &explaining, MAX_LANES - 1)?;
    chosen.push(query)?;
    push_opponents(&mut chosen, source, query)?;
    push_writers(&mut chosen, trace)?;
    sorted(alloc, &chosen)
}

/// Returns some transactions, in the order of their begins.
pub fn sorted(alloc: Global, chosen: &[TxnId]) -> Result<Vec<TxnId>, AllocError> {
    let mut numbers: Vec<u32> = chosen.iter().map(|txn| txn.0).collect(alloc)?;
    numbers.sort_unstable();
    numbers.iter().map(|number| TxnId(*number)).collect(alloc)
}

/// Returns the transactions that began first, at most `upper_bound`.
pub fn first_begun(
    alloc: Global,
    source: Source<'_>,
    upper_bound: usize,
) -> Result<Vec<TxnId>, AllocError> {
    let begun = source.history.begun_count().min(upper_bound).min(MAX_LANES);
    let mut chosen = Vec::new(alloc);
    for number in 0..begun as u32 {
        chosen.push(TxnId(number.saturating_add(1)))?;
    }
    Ok(chosen)
}

/// Returns whether the first of two queries, each with its distance and its import, is farther off: it has the greater distance,
/// or the same and the greater import.
fn is_farther(a: (u64, u64), b: (u64, u64)) -> bool {
    a.0 > b.0 || (a.0 == b.0 && a.1 > b.1)
}

/// Returns the committed query with the greatest distance.
pub fn farthest_query(alloc: Global, auditor: &Auditor<'_>) -> Result<Option<TxnId>, AllocError> {
    let mut best = None;
    let mut upper_bound = (0, 0);
    for txn in auditor.commits() {
        if let Some(audit) = auditor.summary(alloc, *txn)? {
            let measure = (audit.distance, audit.import);
            if best.is_none() || is_farther(measure, upper_bound) {
                best = Some(*txn);
                upper_bound = measure;
            }
        }
    }
    Ok(best)
}

/// Returns the nearest placement of a committed query, or one without items for other lanes.
fn placement_of(
    alloc: Global,
    source: Source<'_>,
    lane: &Lane<'_>,
) -> Result<NearestPlacement, AllocError> {
    if lane.distance.is_none() {
        return Ok(NearestPlacement::none(alloc));
    }
    source.placement(alloc, lane.txn)
}

/// Returns the number of updates that committed before a query did.
fn count_committed(source: Source<'_>, query: TxnId) -> u64 {
    let mut count = 0u64;
    for txn in source.auditor.commits() {
        if *txn == query {
            return count;
        }
        if !source.history.facts(*txn).is_some_and(|facts| facts.query) {
            count = count.saturating_add(1);
        }
    }
    count
}

/// Returns the one of some updates that committed last, with the index of the entry.
fn last_of(source: Source<'_>, updates: &[TxnId]) -> Option<(TxnId, usize)> {
    let mut last: Option<(TxnId, usize)> = None;
    for update in updates {
        let facts = source.history.facts(*update);
        let end = facts.and_then(|facts| facts.end).unwrap_or(0) as usize;
        if last.is_none_or(|(_, place)| place < end) {
            last = Some((*update, end));
        }
    }
    last
}

/// Returns the nearest placement of a query.
pub fn nearest_to<'a>(
    alloc: Global,
    source: Source<'a>,
    placed: &PlacedQuery<'_>,
    trace: &QueryTrace,
) -> Result<Nearest<'a>, AllocError> {
    let finding = placed.finding;
    let last = last_of(source, &finding.before);
    Ok(Nearest {
        query: name_of_transaction(source.transactions, finding.query),
        distance: finding.distance,
        off_reads: off_reads(source.history, &placed.placement, trace),
        opening_distance: opening_distance(alloc, source.history, trace)?,
        updates: finding.before.len() as u64,
        committed: count_committed(source, finding.query),
        last: last.map_or("", |(txn, _)| name_of_transaction(source.transactions, txn)),
        step: last.map_or(0, |(_, place)| (place as u64).saturating_add(1)),
    })
}

/// Returns for each lane the nearest placement of its query.
pub fn placements_of(
    alloc: Global,
    source: Source<'_>,
    lanes: &[Lane<'_>],
) -> Result<Vec<NearestPlacement>, AllocError> {
    let mut all = Vec::new(alloc);
    for lane in lanes {
        all.push(placement_of(alloc, source, lane)?)?;
    }
    Ok(all)
}

/// Returns the lane of a transaction.
fn lane_of<'a>(alloc: Global, source: Source<'a>, txn: TxnId) -> Result<Lane<'a>, AllocError> {
    let facts = source.history.facts(txn);
    let import = source.history.import(txn);
    Ok(Lane {
        txn,
        name: name_of_transaction(source.transactions, txn),
        kind: kind_of(source.history, txn),
        limit: facts.map_or(0, |facts| facts.limit),
        charged: import,
        here: import,
        drawn: 0,
        outcome: outcome_of(source.history, txn),
        distance: source.distance(alloc, txn)?,
        in_state: None,
    })
}

/// Returns the lanes of some transactions.
pub fn lanes_of<'a>(
    alloc: Global,
    source: Source<'a>,
    chosen: &[TxnId],
) -> Result<Vec<Lane<'a>>, AllocError> {
    let mut lanes = Vec::new(alloc);
    for txn in chosen {
        lanes.push(lane_of(alloc, source, *txn)?)?;
    }
    Ok(lanes)
}

/// Notes which updates are before the nearest placement of the placed query, if there is one.
pub fn note_sides(source: Source<'_>, lanes: &mut [Lane<'_>]) {
    let Some(placed) = source.placed else {
        return;
    };
    for index in 0..lanes.len() {
        if let Some(lane) = lanes.get_mut(index)
            && !lane.is_query()
        {
            lane.in_state = Some(placed.placement.has_before(lane.txn));
        }
    }
}

/// Returns the numbers of the transactions of some lanes by their kinds, as seen from a query.
pub fn counts_of(source: Source<'_>, query: TxnId, lanes: &[Lane<'_>]) -> TxnCounts {
    let facts = source.history.facts(query);
    let end = facts.and_then(|facts| facts.end);
    let mut counts = TxnCounts::none();
    for lane in lanes {
        counts.note(class_of(source.history, lane.txn, end));
    }
    counts
}

/// Returns the lane of a transaction among these, if it has one.
pub fn lane_at(lanes: &[Lane<'_>], txn: TxnId) -> Option<usize> {
    lanes.iter().position(|lane| lane.txn == txn)
}
