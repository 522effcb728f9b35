//! What explains the value of a read: the write of it, or of the value that its item has in the nearest placement. If the
//! update was not charged, the note names the charged update that it follows (`predecessors`).
//!
//! Both are found along the entries of the item, from the read or from the last entry back. An update holds the lock of an
//! item until it ends, so the last write of an update before the placement is that of the value there.

use crate::causes::Causes;
use crate::source::Source;
use esr_history::{Event, TxnId};
use esr_items::ItemId;
use esr_outcomes::{TxnOutcome, outcome_of};
use esr_report::name_of_transaction;
use esr_timeline_data::{Mark, Note, NotedWrite, Writer, WriterStatus};
use esr_trace::NearestPlacement;

/// An accepted write.
#[derive(Clone, Copy)]
struct Write {
    update: TxnId,
    value: i64,
    place: usize,
}

/// Returns the write of an entry, if it is an accepted one.
fn write_at(source: Source<'_>, index: u64) -> Option<Write> {
    let entry = source.history.log().get(index as usize)?;
    match entry.event {
        Event::Write { txn, value, .. } if !entry.is_refused() => Some(Write {
            update: txn,
            value,
            place: index as usize,
        }),
        _ => None,
    }
}

/// Returns whether an update had aborted before an entry.
fn had_aborted(source: Source<'_>, update: TxnId, place: usize) -> bool {
    let end = source.history.facts(update).and_then(|facts| facts.end);
    outcome_of(source.history, update) == TxnOutcome::Aborted
        && end.is_some_and(|end| (end as usize) < place)
}

/// Returns the write of the value that the read of an entry returned, unless that is the opening value.
fn write_read(source: Source<'_>, place: usize) -> Option<Write> {
    let mut next = source.history.earlier_on_item(place as u64);
    for _ in 0..source.history.log().len() {
        let index = next?;
        if let Some(write) = write_at(source, index)
            && !had_aborted(source, write.update, place)
        {
            return Some(write);
        }
        next = source.history.earlier_on_item(index);
    }
    None
}

/// Returns the write of the value of an item in a placement, unless that is the opening value.
fn write_kept(source: Source<'_>, placement: &NearestPlacement, item: ItemId) -> Option<Write> {
    let mut next = source.history.last_on_item(item);
    for _ in 0..source.history.log().len() {
        let index = next?;
        if let Some(write) = write_at(source, index)
            && placement.has_before(write.update)
        {
            return Some(write);
        }
        next = source.history.earlier_on_item(index);
    }
    None
}

/// Returns the writer of a value, or the opening value if there is no write of it.
fn writer_of(source: Source<'_>, write: Option<Write>) -> Writer<'_> {
    match write {
        Some(write) => Writer::Update(
            name_of_transaction(source.transactions, write.update),
            (write.place as u64).saturating_add(1),
        ),
        None => Writer::Opening,
    }
}

/// Returns the writer of the value that the read of an entry returned.
pub fn writer_read(source: Source<'_>, place: usize) -> Writer<'_> {
    writer_of(source, write_read(source, place))
}

/// Returns the state that the writer of a value had when the read of an entry returned the value.
pub fn status_of(source: Source<'_>, writer: Writer<'_>, place: usize) -> WriterStatus {
    let Writer::Update(_, step) = writer else {
        return WriterStatus::Committed;
    };
    let Some(write) = write_at(source, step.saturating_sub(1)) else {
        return WriterStatus::Committed;
    };
    let facts = source.history.facts(write.update);
    let end = facts.and_then(|facts| facts.end);
    if end.is_some_and(|end| (end as usize) < place) {
        WriterStatus::Committed
    } else if outcome_of(source.history, write.update) == TxnOutcome::Aborted {
        WriterStatus::Aborted
    } else {
        WriterStatus::Active
    }
}

/// Returns the writer of the value of an item in a placement.
pub fn writer_in<'a>(source: Source<'a>, placement: &NearestPlacement, item: ItemId) -> Writer<'a> {
    writer_of(source, write_kept(source, placement, item))
}

/// Returns a write as a note.
fn wrote<'a>(source: Source<'a>, write: Write) -> Note<'a> {
    Note::Wrote(NotedWrite {
        update: name_of_transaction(source.transactions, write.update),
        value: write.value,
        place: write.place,
        follows: None,
    })
}

/// Returns the name of the charged update that the writer of an entry follows, unless it was charged itself or is before the
/// nearest placement.
fn followed_by<'a>(source: Source<'a>, causes: &Causes, place: usize) -> Option<&'a str> {
    let write = write_at(source, place as u64)?;
    match causes.cause_of(write.update) {
        Some(cause) if cause != write.update => {
            Some(name_of_transaction(source.transactions, cause))
        }
        _ => None,
    }
}

/// Returns a note with the name of the charged update that its writer follows.
fn completed<'a>(source: Source<'a>, causes: &Causes, note: Option<Note<'a>>) -> Option<Note<'a>> {
    match note {
        Some(Note::Wrote(write)) => Some(Note::Wrote(NotedWrite {
            follows: followed_by(source, causes, write.place),
            ..write
        })),
        _ => note,
    }
}

/// Completes the notes at the reads of the lane of a query with these causes.
pub fn complete_notes<'a>(
    source: Source<'a>,
    causes: &Causes,
    marks: &mut [Mark<'a>],
    query_lane: usize,
) {
    for index in 0..marks.len() {
        if let Some(mark) = marks.get_mut(index)
            && mark.lane == query_lane
        {
            mark.note = completed(source, causes, mark.note);
        }
    }
}

/// Returns what explains the value that the read of an entry returned, if it is off or its writer is not before the nearest
/// placement.
pub fn note_of<'a>(
    source: Source<'a>,
    placement: &NearestPlacement,
    place: usize,
    item: ItemId,
    is_off: bool,
) -> Option<Note<'a>> {
    let late = write_read(source, place).filter(|write| !placement.has_before(write.update));
    match (late, is_off) {
        (Some(write), true) => Some(wrote(source, write)),
        (None, true) => write_kept(source, placement, item).map(|write| wrote(source, write)),
        (Some(_), false) => Some(Note::Equals(writer_in(source, placement, item))),
        (None, false) => None,
    }
}
