//! The row of each query in the table and the charts. One pass over the log counts reads; the results of the audits
//! are added.

use crate::audits::AuditedDistance;
use esr_history::{Entry, Event, Reply, TxnId};
use esr_outcomes::{TxnOutcome, outcome_of};
use esr_report::name_of_transaction;
use esr_views::Recording;
use std::alloc::{AllocError, Global};

/// Where links to a query lead.
#[derive(Clone, Copy, PartialEq, Eq)]
pub enum Target {
    /// To its timeline, picture and prose.
    Details,
    /// To its row of the table.
    TableRow,
    /// Nowhere: the table ends before it.
    Nothing,
}

/// The data of a query.
#[derive(Clone, Copy)]
pub struct QueryRow<'a> {
    pub query: TxnId,
    pub name: &'a str,
    pub is_strict: bool,
    pub limit: u64,
    pub charged: u64,
    pub reads: u64,
    pub outcome: TxnOutcome,
    /// What its audit found, if it has committed.
    pub audited: Option<AuditedDistance>,
    pub target: Target,
}

impl QueryRow<'_> {
    /// The distance, if it has one.
    pub fn distance(&self) -> Option<u64> {
        self.audited.map(|audited| audited.distance)
    }

    /// Returns the error of the sum of its reads, if it has one.
    pub fn sum_error(&self) -> Option<u64> {
        self.audited.map(|audited| audited.sum_error)
    }
}

/// Appends the start of a link to a query, or of an element without a link if it leads nowhere: its other attributes
/// and its content follow.
pub fn open_link(out: &mut String, target: Target, name: &str) -> Result<(), AllocError> {
    match target {
        Target::Details => write!(out, "<a href='#q-{name}'"),
        Target::TableRow => write!(out, "<a href='#r-{name}'"),
        Target::Nothing => out.push_str("<a"),
    }
}

/// The queries of a history, in the order of their numbers, and the place of each transaction among them.
#[derive(Drop)]
pub struct QueryRows<'a> {
    pub rows: Vec<QueryRow<'a>>,
    place_of: Vec<Option<usize>>,
}

/// A query, as it began and ended, if it is one.
fn row_of<'a>(recording: &'a Recording<'_>, query: TxnId) -> Option<QueryRow<'a>> {
    let facts = recording.history.facts(query)?;
    if !facts.query {
        return None;
    }
    Some(QueryRow {
        query,
        name: name_of_transaction(&recording.transactions, query),
        is_strict: facts.strict,
        limit: facts.limit,
        charged: recording.history.import(query),
        reads: 0,
        outcome: outcome_of(&recording.history, query),
        audited: None,
        target: Target::TableRow,
    })
}

/// The queries, as they began and ended.
fn queries_of<'a>(
    alloc: Global,
    recording: &'a Recording<'_>,
) -> Result<QueryRows<'a>, AllocError> {
    let begun = recording.history.begun_count();
    let last = u32::try_from(begun).unwrap_or(u32::MAX);
    let mut rows = Vec::new(alloc);
    for number in 0..last.saturating_add(1) {
        if let Some(row) = row_of(recording, TxnId(number)) {
            rows.push(row)?;
        }
    }
    let mut place_of = vec![in alloc; None; begun.saturating_add(1)]?;
    put_places(&mut place_of, &rows);
    Ok(QueryRows { rows, place_of })
}

/// Puts the place of each row at the number of its query.
fn put_places(place_of: &mut [Option<usize>], rows: &[QueryRow<'_>]) {
    let mut next = 0usize;
    for row in rows {
        if let Some(place) = place_of.get_mut(row.query.0 as usize) {
            *place = Some(next);
        }
        next = next.saturating_add(1);
    }
}

impl<'a> QueryRows<'a> {
    /// Counts an entry if it is a read of a query.
    fn note(&mut self, entry: Entry) {
        if let (Event::Read { txn, .. }, Reply::Value(_)) = (entry.event, entry.reply)
            && let Some(row) = self.of(txn)
        {
            row.reads = row.reads.saturating_add(1);
        }
    }

    /// The row of a query.
    pub fn of(&mut self, query: TxnId) -> Option<&mut QueryRow<'a>> {
        let place = self.place_of.get(query.0 as usize).copied().flatten()?;
        self.rows.get_mut(place)
    }
}

/// The queries of a script, with what their audits find.
pub fn rows_of<'a>(
    alloc: Global,
    recording: &'a Recording<'_>,
    found: &[AuditedDistance],
) -> Result<QueryRows<'a>, AllocError> {
    let mut all = queries_of(alloc, recording)?;
    let log = recording.history.log();
    for place in 0..log.len() {
        if let Some(entry) = log.get(place) {
            all.note(entry);
        }
    }
    for found in found {
        if let Some(row) = all.of(found.query) {
            row.audited = Some(*found);
        }
    }
    Ok(all)
}
