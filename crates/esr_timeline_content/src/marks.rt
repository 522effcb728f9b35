//! The marks on lanes: one pass over the log. An event that was blocked and tried again at once has one mark.

use crate::lanes::{blocker_of, lane_at, placements_of};
use crate::notes::{note_of, status_of, writer_in, writer_read};
use crate::source::Source;
use esr_history::{Entry, Event, Refusal, Reply};
use esr_items::{ItemId, Metric};
use esr_report::name_of_transaction;
use esr_timeline_data::{
    Action, Arrow, Cause, Excess, Lane, ListedRead, Mark, Mistakes, Note, Writer, WriterStatus,
};
use esr_trace::{Exceeded, NearestPlacement};
use std::alloc::{AllocError, Global};

/// Returns the line of an entry, or 0 if it is not known.
pub fn line_at(source: Source<'_>, place: usize) -> u32 {
    source.lines.get(place).copied().unwrap_or(0)
}

/// Returns what blocked an event, if a lock or a limit did.
fn cause_of(reply: Reply) -> Option<Cause> {
    match reply {
        Reply::Refused(Refusal::BlockedByLock(_)) => Some(Cause::Lock),
        Reply::Refused(Refusal::BlockedByImport(_)) => Some(Cause::Import),
        Reply::Refused(Refusal::BlockedByExport(_)) => Some(Cause::Export),
        _ => None,
    }
}

/// Returns the value of an event, if it is a write.
fn value_written(event: Event) -> Option<i64> {
    match event {
        Event::Write { value, .. } => Some(value),
        _ => None,
    }
}

/// Returns the action of an entry, unless it was refused for a mistake.
fn action_of(entry: Entry) -> Option<Action> {
    if let Some(cause) = cause_of(entry.reply) {
        return Some(Action::Blocked {
            value: value_written(entry.event),
            cause,
            times: 1,
            excess: None,
        });
    }
    match (entry.event, entry.reply) {
        (_, Reply::Begun(_)) => Some(Action::Begin),
        (_, Reply::Value(value)) => Some(Action::Read {
            value,
            nearest: None,
        }),
        (Event::Write { value, .. }, Reply::Wrote) => Some(Action::Write { value }),
        (_, Reply::Committed) => Some(Action::Commit),
        (_, Reply::Aborted) => Some(Action::Abort),
        _ => None,
    }
}

/// Returns the item of an entry.
fn item_of(event: Event) -> Option<ItemId> {
    match event {
        Event::Read { item, .. } | Event::Write { item, .. } => Some(item),
        _ => None,
    }
}

/// Returns the name of the item of an entry, or nothing.
fn item_name<'a>(source: Source<'a>, event: Event) -> &'a str {
    match item_of(event) {
        Some(item) => source.items.name_of(item.0).unwrap_or(""),
        None => "",
    }
}

/// Returns the weight of the item of an entry, or 1.
fn item_weight(source: Source<'_>, event: Event) -> u64 {
    match item_of(event) {
        Some(item) => source.history.metric().distance(item, 0, 1),
        None => 1,
    }
}

/// Returns the name of the transaction that blocked an entry, or nothing.
fn blocker_name<'a>(source: Source<'a>, reply: Reply) -> &'a str {
    match blocker_of(reply) {
        Some(txn) => name_of_transaction(source.transactions, txn),
        None => "",
    }
}

/// Returns the action of a read with the value in the nearest placement, if that is another one.
fn compared(value: i64, placement: &NearestPlacement, item: ItemId) -> Action {
    Action::Read {
        value,
        nearest: placement.value(item.0).filter(|there| *there != value),
    }
}

/// Returns the mark of an entry with this action on a lane.
fn mark_with<'a>(
    source: Source<'a>,
    lane: usize,
    place: usize,
    entry: Entry,
    action: Action,
) -> Mark<'a> {
    Mark {
        lane,
        place,
        line: line_at(source, place),
        action,
        item: item_name(source, entry.event),
        weight: item_weight(source, entry.event),
        blocker: blocker_name(source, entry.reply),
        is_key: false,
        writer: None,
        writer_status: WriterStatus::Committed,
        state_writer: None,
        note: None,
    }
}

/// Compares the mark of a read of a query with this nearest placement, and adds a note if its value needs one.
fn compare<'a>(
    source: Source<'a>,
    placement: &NearestPlacement,
    mark: &mut Mark<'a>,
    event: Event,
) {
    let Action::Read { value, .. } = mark.action else {
        return;
    };
    let Some(item) = item_of(event) else {
        return;
    };
    if placement.value(item.0).is_none() {
        return;
    }
    mark.action = compared(value, placement, item);
    let is_off = placement.value(item.0) != Some(value);
    mark.note = note_of(source, placement, mark.place, item, is_off);
    // Only a read that is off or has a note shows the writer there, which is searched along the entries of the item.
    if is_off || mark.note.is_some() {
        mark.state_writer = Some(writer_in(source, placement, item));
    }
}

/// Returns the mark of an entry, if its transaction has a lane.
fn mark_of<'a>(
    source: Source<'a>,
    lanes: &[Lane<'a>],
    placements: &[NearestPlacement],
    place: usize,
    entry: Entry,
) -> Option<Mark<'a>> {
    let lane = lane_at(lanes, entry.txn()?)?;
    let mut mark = mark_with(source, lane, place, entry, action_of(entry)?);
    if matches!(mark.action, Action::Read { .. }) {
        let writer = writer_read(source, place);
        mark.writer = Some(writer);
        mark.writer_status = status_of(source, writer, place);
    }
    if let Some(placement) = placements.get(lane) {
        compare(source, placement, &mut mark, entry.event);
    }
    Some(mark)
}

/// Returns whether an entry was refused for a mistake, and its transaction has a lane or is not known.
fn is_mistake(lanes: &[Lane<'_>], entry: Entry) -> bool {
    if !entry.is_refused() || cause_of(entry.reply).is_some() {
        return false;
    }
    match entry.txn() {
        Some(txn) => lane_at(lanes, txn).is_some(),
        None => true,
    }
}

/// Returns the entries of some lanes that were refused for a mistake.
pub fn mistakes_on(source: Source<'_>, lanes: &[Lane<'_>]) -> Mistakes {
    let mut mistakes = Mistakes {
        count: 0,
        first: 0,
        second: 0,
    };
    let log = source.history.log();
    for place in 0..log.len() {
        if let Some(entry) = log.get(place)
            && is_mistake(lanes, entry)
        {
            let step = (place as u64).saturating_add(1);
            mistakes.count = mistakes.count.saturating_add(1);
            match mistakes.count {
                1 => mistakes.first = step,
                2 => mistakes.second = step,
                _ => {}
            }
        }
    }
    mistakes
}

/// Returns whether a mark is of the same event as the last one of its lane, which was blocked too.
fn is_retry(last: &Mark<'_>, mark: &Mark<'_>) -> bool {
    match (last.action, mark.action) {
        (
            Action::Blocked { value, cause, .. },
            Action::Blocked {
                value: next,
                cause: now,
                ..
            },
        ) => {
            value == next && cause == now && last.item == mark.item && last.blocker == mark.blocker
        }
        _ => false,
    }
}

/// The marks so far, and the last one of each lane.
#[derive(Drop)]
struct Marks<'a> {
    marks: Vec<Mark<'a>>,
    last: Vec<Option<usize>>,
}

impl<'a> Marks<'a> {
    /// Counts one more attempt of the last event of the lane, if the mark is of the same event.
    fn is_counted(&mut self, mark: &Mark<'a>) -> bool {
        let Some(index) = self.last.get(mark.lane).copied().flatten() else {
            return false;
        };
        let Some(last) = self.marks.get_mut(index) else {
            return false;
        };
        if !is_retry(last, mark) {
            return false;
        }
        if let Action::Blocked { times, .. } = &mut last.action {
            *times = times.saturating_add(1);
        }
        true
    }

    /// Adds a mark.
    fn push(&mut self, mark: Mark<'a>) -> Result<(), AllocError> {
        if self.is_counted(&mark) {
            return Ok(());
        }
        let index = self.marks.len();
        if let Some(last) = self.last.get_mut(mark.lane) {
            *last = Some(index);
        }
        self.marks.push(mark)?;
        Ok(())
    }
}

/// Adds the marks on some lanes, in the order of their entries.
fn push_marks<'a>(
    all: &mut Marks<'a>,
    source: Source<'a>,
    lanes: &[Lane<'a>],
    placements: &[NearestPlacement],
) -> Result<(), AllocError> {
    let log = source.history.log();
    for place in 0..log.len() {
        if let Some(entry) = log.get(place)
            && let Some(mark) = mark_of(source, lanes, placements, place, entry)
        {
            all.push(mark)?;
        }
    }
    Ok(())
}

/// Returns the marks on some lanes, in the order of their entries.
pub fn marks_of<'a>(
    alloc: Global,
    source: Source<'a>,
    lanes: &[Lane<'a>],
) -> Result<Vec<Mark<'a>>, AllocError> {
    let placements = placements_of(alloc, source, lanes)?;
    let mut all = Marks {
        marks: Vec::new(alloc),
        last: vec![in alloc; None; lanes.len()]?,
    };
    push_marks(&mut all, source, lanes, &placements)?;
    let Marks { marks, .. } = all;
    Ok(marks)
}

/// Returns the marks that are on some of the lanes before, on these lanes.
pub fn marks_on<'a>(
    alloc: Global,
    marks: &[Mark<'a>],
    before: &[Lane<'a>],
    lanes: &[Lane<'a>],
) -> Result<Vec<Mark<'a>>, AllocError> {
    let mut moved = Vec::new(alloc);
    for mark in marks {
        if let Some(txn) = before.get(mark.lane).map(|lane| lane.txn)
            && let Some(lane) = lane_at(lanes, txn)
        {
            let mut mark = *mark;
            mark.lane = lane;
            moved.push(mark)?;
        }
    }
    Ok(moved)
}

/// Returns the index of the last mark at or before an entry.
fn index_at(marks: &[Mark<'_>], place: usize) -> Option<usize> {
    marks
        .partition_point(|mark| mark.place <= place)
        .checked_sub(1)
}

/// Returns the index of the last read of the item by the query before a charge.
fn read_before(marks: &[Mark<'_>], arrow: &Arrow<'_>) -> Option<usize> {
    let mut found = None;
    for (index, mark) in marks.iter().enumerate() {
        if mark.lane == arrow.to
            && mark.place < arrow.place
            && mark.item == arrow.item
            && matches!(mark.action, Action::Read { .. })
        {
            found = Some(index);
        }
    }
    found
}

/// Marks the entry of a charge, and the read that a write is charged for.
fn mark_charge(marks: &mut [Mark<'_>], arrow: &Arrow<'_>) {
    if let Some(index) = index_at(marks, arrow.place)
        && let Some(mark) = marks.get_mut(index)
    {
        mark.is_key = true;
    }
    if let Some(index) = read_before(marks, arrow)
        && let Some(mark) = marks.get_mut(index)
    {
        mark.is_key = true;
    }
}

/// Returns whether an event was blocked.
fn is_blocked(action: Action) -> bool {
    matches!(action, Action::Blocked { .. })
}

/// Marks the blocked events, if they are to be drawn.
fn mark_blocked(marks: &mut [Mark<'_>], has_blocked: bool) {
    for index in 0..marks.len() {
        if let Some(mark) = marks.get_mut(index) {
            mark.is_key = has_blocked && is_blocked(mark.action);
        }
    }
}

/// Returns the index of the write that explains a read, if it is on a lane.
fn write_of(marks: &[Mark<'_>], read: &Mark<'_>) -> Option<usize> {
    let Some(Note::Wrote(write)) = read.note else {
        return None;
    };
    marks
        .binary_search_by_key(&write.place, |mark| mark.place)
        .ok()
}

/// Marks the event at an index.
fn mark_at(marks: &mut [Mark<'_>], index: usize) {
    if let Some(mark) = marks.get_mut(index) {
        mark.is_key = true;
    }
}

/// Returns the indices of the reads that are off, those with the greatest distances first, at most `upper_bound`.
fn farthest_reads(
    alloc: Global,
    marks: &[Mark<'_>],
    upper_bound: usize,
) -> Result<Vec<usize>, AllocError> {
    let mut ranks = Vec::new(alloc);
    for (index, mark) in marks.iter().enumerate() {
        let distance = mark.distance();
        if distance > 0 {
            ranks.push((u64::MAX.saturating_sub(distance), index))?;
        }
    }
    ranks.sort_unstable();
    ranks.truncate(upper_bound);
    ranks.iter().map(|rank| rank.1).collect(alloc)
}

/// Marks the reads that are off, those with the greatest distances first, at most `upper_bound`, and the writes that explain
/// them on lanes that are drawn. A charge does not always do: the update may have committed before the query began.
fn mark_off_reads(
    alloc: Global,
    marks: &mut [Mark<'_>],
    upper_bound: usize,
) -> Result<(), AllocError> {
    for index in &farthest_reads(alloc, marks, upper_bound)? {
        let write = marks.get(*index).and_then(|read| write_of(marks, read));
        mark_at(marks, *index);
        if let Some(write) = write {
            mark_at(marks, write);
        }
    }
    Ok(())
}

/// Returns the number of reads that are off.
pub fn count_off_reads(marks: &[Mark<'_>]) -> usize {
    let mut count = 0usize;
    for mark in marks {
        if mark.distance() > 0 {
            count = count.saturating_add(1);
        }
    }
    count
}

/// Returns whether the writer of the value of a read is not before the nearest placement: the note is of its write then.
fn is_late(mark: &Mark<'_>) -> bool {
    match (mark.writer, mark.note) {
        (Some(Writer::Update(_, step)), Some(Note::Wrote(write))) => step == write.step(),
        _ => false,
    }
}

/// Returns a mark as a row of the table of the reads on a lane, if it is a read there, and whether it is off.
fn listed_read<'a>(mark: &Mark<'a>, lane: usize) -> Option<(ListedRead<'a>, bool)> {
    let Action::Read { value, nearest } = mark.action else {
        return None;
    };
    if mark.lane != lane {
        return None;
    }
    let read = ListedRead {
        step: (mark.place as u64).saturating_add(1),
        item: mark.item,
        weight: mark.weight,
        value,
        writer: mark.writer.unwrap_or(Writer::Opening),
        writer_status: mark.writer_status,
        state: nearest.unwrap_or(value),
        state_writer: mark.state_writer.unwrap_or(Writer::Opening),
        is_late: is_late(mark),
        distance: mark.distance(),
    };
    Some((read, nearest.is_some()))
}

/// Returns all reads on a lane that are off, those with the greatest distances first.
pub fn off_reads_on<'a>(
    alloc: Global,
    marks: &[Mark<'a>],
    lane: usize,
) -> Result<Vec<ListedRead<'a>>, AllocError> {
    let mut reads = Vec::new(alloc);
    for index in &farthest_reads(alloc, marks, usize::MAX)? {
        if let Some(mark) = marks.get(*index)
            && let Some((read, true)) = listed_read(mark, lane)
        {
            reads.push(read)?;
        }
    }
    Ok(reads)
}

/// Returns the other reads on a lane, in the order of their entries.
pub fn exact_reads_on<'a>(
    alloc: Global,
    marks: &[Mark<'a>],
    lane: usize,
) -> Result<Vec<ListedRead<'a>>, AllocError> {
    let mut reads = Vec::new(alloc);
    for mark in marks {
        if let Some((read, false)) = listed_read(mark, lane) {
            reads.push(read)?;
        }
    }
    Ok(reads)
}

/// Notes the sums that would have exceeded limits, which are in the order of their entries.
pub fn note_excesses(marks: &mut [Mark<'_>], exceeded: &[Exceeded]) {
    for index in 0..marks.len() {
        if let Some(mark) = marks.get_mut(index) {
            note_excess(mark, exceeded);
        }
    }
}

/// Notes the sum that would have exceeded a limit, if the event was refused because of one.
fn note_excess(mark: &mut Mark<'_>, exceeded: &[Exceeded]) {
    let place = mark.place;
    if let Action::Blocked { excess, .. } = &mut mark.action
        && let Ok(index) = exceeded.binary_search_by_key(&place, |other| other.place)
        && let Some(found) = exceeded.get(index)
    {
        *excess = Some(Excess {
            used: found.used,
            due: found.due,
            limit: found.limit,
        });
    }
}

/// Returns whether a mark is a read of a query.
fn is_query_read(mark: &Mark<'_>, lanes: &[Lane<'_>]) -> bool {
    let is_query = lanes.get(mark.lane).is_some_and(|lane| lane.is_query());
    is_query && matches!(mark.action, Action::Read { .. })
}

/// Marks the reads of queries.
pub fn mark_query_reads(marks: &mut [Mark<'_>], lanes: &[Lane<'_>]) {
    for index in 0..marks.len() {
        if marks
            .get(index)
            .is_some_and(|mark| is_query_read(mark, lanes))
        {
            mark_at(marks, index);
        }
    }
}

/// Marks the events that these charges depend on, at most `upper_bound` reads that are off, and the blocked events if they
/// are to be drawn.
pub fn mark_keys(
    alloc: Global,
    marks: &mut [Mark<'_>],
    arrows: &[Arrow<'_>],
    upper_bound: usize,
    has_blocked: bool,
) -> Result<(), AllocError> {
    mark_blocked(marks, has_blocked);
    mark_off_reads(alloc, marks, upper_bound)?;
    for arrow in arrows {
        mark_charge(marks, arrow);
    }
    Ok(())
}

/// Returns whether a mark bounds its lane.
pub fn is_bound(action: Action) -> bool {
    matches!(action, Action::Begin | Action::Commit | Action::Abort)
}

/// Returns the marks that charges depend on, and those that bound lanes.
pub fn keys_of<'a>(alloc: Global, marks: &[Mark<'a>]) -> Result<Vec<Mark<'a>>, AllocError> {
    let mut keys = Vec::new(alloc);
    for mark in marks {
        if mark.is_key || is_bound(mark.action) {
            keys.push(*mark)?;
        }
    }
    Ok(keys)
}
