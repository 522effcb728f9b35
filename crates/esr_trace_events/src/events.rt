//! The trace events of an entry. The unit of time is a microsecond, and a step takes 1,000: the slice of a transaction
//! lasts from the beginning of its first step to the end of its last one, and the slice of an event lies within its step,
//! so that slices are nested.

use crate::charges::Charge;
use crate::json::{push_more_number, push_more_value, push_more_word, push_word};
use esr_history::{Entry, Event, Facts, Reply, TxnId, TxnOutcome};
use esr_items::ItemId;
use esr_order::outcome_of;
use esr_report::name_of_transaction;
use esr_views::Recording;
use std::alloc::AllocError;

/// The microseconds of a step.
const STEP: u64 = 1_000;

/// From the beginning of a step to the slice of its event, and how long that lasts.
const BEFORE: u64 = 100;

const LENGTH: u64 = 800;

/// From the beginning of a step to the start of the flow of a charge, and to its end.
const FLOW_START: u64 = 300;

const FLOW_END: u64 = 600;

/// Returns the beginning of a step.
fn start_of(place: usize) -> u64 {
    (place as u64).saturating_add(1).saturating_mul(STEP)
}

/// Returns the name of an item.
fn item_name<'a>(recording: &'a Recording<'_>, item: ItemId) -> &'a str {
    recording.items.name_of(item.0).unwrap_or("")
}

/// Returns the name of a transaction.
fn txn_name<'a>(recording: &'a Recording<'_>, txn: TxnId) -> &'a str {
    name_of_transaction(&recording.transactions, txn)
}

/// Begins an event: its name, its kind and its track.
fn open_event(
    out: &mut String,
    name: &str,
    category: &str,
    phase: &str,
    txn: TxnId,
    time: u64,
) -> Result<(), AllocError> {
    out.push_str(",\n{")?;
    push_word(out, "name", name)?;
    push_more_word(out, "cat", category)?;
    push_more_word(out, "ph", phase)?;
    push_more_number(out, "pid", 1)?;
    push_more_number(out, "tid", u64::from(txn.0))?;
    push_more_number(out, "ts", time)
}

/// Appends the name and the order of the track of a transaction.
fn push_track(out: &mut String, name: &str, kind: &str, txn: TxnId) -> Result<(), AllocError> {
    let number = txn.0;
    write!(
        out,
        ",\n{{\"name\":\"thread_name\",\"ph\":\"M\",\"pid\":1,\"tid\":{number},\"args\":{{\"name\":\"{name} ({kind})\"}}}}"
    )?;
    write!(
        out,
        ",\n{{\"name\":\"thread_sort_index\",\"ph\":\"M\",\"pid\":1,\"tid\":{number},\"args\":{{\"sort_index\":{number}}}}}"
    )
}

/// Appends the step and the line of an entry, at the beginning of the arguments.
fn push_step(out: &mut String, recording: &Recording<'_>, place: usize) -> Result<(), AllocError> {
    let step = (place as u64).saturating_add(1);
    write!(out, ",\"args\":{{\"step\":{step}")?;
    match recording.lines.get(place) {
        Some(line) => push_more_number(out, "line", u64::from(*line)),
        None => Ok(()),
    }
}

/// Returns the name of an outcome.
fn outcome_word(outcome: TxnOutcome) -> &'static str {
    match outcome {
        TxnOutcome::Active => "active",
        TxnOutcome::Committed => "committed",
        TxnOutcome::Aborted => "aborted",
    }
}

/// Appends the slice of a transaction that begins at a place.
fn push_transaction(
    out: &mut String,
    recording: &Recording<'_>,
    place: usize,
    txn: TxnId,
    facts: Facts,
) -> Result<(), AllocError> {
    let name = txn_name(recording, txn);
    let kind = if facts.query { "query" } else { "update" };
    push_track(out, name, kind, txn)?;
    let last = facts
        .end
        .unwrap_or(recording.history.log().len().saturating_sub(1) as u64);
    let steps = last.saturating_add(1).saturating_sub(place as u64);
    open_event(out, name, "transaction", "X", txn, start_of(place))?;
    push_more_number(out, "dur", steps.saturating_mul(STEP))?;
    push_step(out, recording, place)?;
    push_more_word(out, "kind", kind)?;
    push_more_number(out, "limit", facts.limit)?;
    push_more_number(out, "import", recording.history.import(txn))?;
    let outcome = outcome_of(&recording.history, txn);
    push_more_word(out, "outcome", outcome_word(outcome))?;
    out.push_str("}}")
}

/// The kind of an event.
#[derive(Clone, Copy)]
struct Operation<'a> {
    verb: &'static str,
    txn: TxnId,
    item: &'a str,
}

/// Returns what an event does, unless it is a begin.
fn operation_of<'a>(recording: &'a Recording<'_>, event: Event) -> Option<Operation<'a>> {
    let (verb, txn, item) = match event {
        Event::Read { txn, item } => ("read", txn, item_name(recording, item)),
        Event::Write { txn, item, .. } => ("write", txn, item_name(recording, item)),
        Event::Commit { txn } => ("commit", txn, ""),
        Event::Abort { txn } => ("abort", txn, ""),
        Event::BeginUpdate { .. } | Event::BeginQuery { .. } => return None,
    };
    Some(Operation { verb, txn, item })
}

/// Returns the value that was read or written.
fn value_of(entry: Entry) -> Option<i64> {
    match (entry.event, entry.reply) {
        (_, Reply::Value(value)) => Some(value),
        (Event::Write { value, .. }, _) => Some(value),
        _ => None,
    }
}

/// Appends the name of the slice of an event.
fn open_slice(
    out: &mut String,
    operation: Operation<'_>,
    is_blocked: bool,
    place: usize,
) -> Result<(), AllocError> {
    let verb = operation.verb;
    let item = operation.item;
    let category = if is_blocked { "blocked" } else { verb };
    let blocked = if is_blocked { "blocked: " } else { "" };
    let space = if item.is_empty() { "" } else { " " };
    write!(
        out,
        ",\n{{\"name\":\"{blocked}{verb}{space}{item}\",\"cat\":\"{category}\",\"ph\":\"X\",\"pid\":1"
    )?;
    push_more_number(out, "tid", u64::from(operation.txn.0))?;
    push_more_number(out, "ts", start_of(place).saturating_add(BEFORE))?;
    push_more_number(out, "dur", LENGTH)
}

/// Appends what blocked an event.
fn push_blocker(
    out: &mut String,
    recording: &Recording<'_>,
    reply: Reply,
) -> Result<(), AllocError> {
    let Reply::Refused(why) = reply else {
        return Ok(());
    };
    let Some(blocker) = why.blocker() else {
        return Ok(());
    };
    push_more_word(out, "blocked_by", why.words())?;
    push_more_word(out, "of", txn_name(recording, blocker))
}

/// Appends the slice of an event that was accepted or blocked.
fn push_slice(
    out: &mut String,
    recording: &Recording<'_>,
    place: usize,
    entry: Entry,
    operation: Operation<'_>,
) -> Result<(), AllocError> {
    open_slice(out, operation, entry.is_refused(), place)?;
    push_step(out, recording, place)?;
    if !operation.item.is_empty() {
        push_more_word(out, "item", operation.item)?;
    }
    if let Some(value) = value_of(entry) {
        push_more_value(out, "value", value)?;
    }
    push_blocker(out, recording, entry.reply)?;
    out.push_str("}}")
}

/// Returns whether an event was refused for a mistake, so that nothing is written about it.
fn is_mistaken(reply: Reply) -> bool {
    match reply {
        Reply::Refused(why) => why.blocker().is_none(),
        _ => false,
    }
}

/// Appends the track and the slices of an entry.
pub fn push_entry(
    out: &mut String,
    recording: &Recording<'_>,
    place: usize,
    entry: Entry,
) -> Result<(), AllocError> {
    if is_mistaken(entry.reply) {
        return Ok(());
    }
    if let Reply::Begun(txn) = entry.reply {
        return match recording.history.facts(txn) {
            Some(facts) => push_transaction(out, recording, place, txn, facts),
            None => Ok(()),
        };
    }
    match operation_of(recording, entry.event) {
        Some(operation) => push_slice(out, recording, place, entry, operation),
        None => Ok(()),
    }
}

/// Appends an end of the flow of a charge.
fn push_flow_end(
    out: &mut String,
    recording: &Recording<'_>,
    phase: &str,
    txn: TxnId,
    time: u64,
    id: u64,
    charge: &Charge,
) -> Result<(), AllocError> {
    open_event(out, "charge", "charge", phase, txn, time)?;
    push_more_number(out, "id", id)?;
    out.push_str(",\"bp\":\"e\",\"args\":{")?;
    push_word(out, "item", item_name(recording, charge.change.item))?;
    push_more_number(out, "amount", charge.amount)?;
    out.push_str("}}")
}

/// Appends the flow of a charge, from the update to the query.
pub fn push_flow(
    out: &mut String,
    recording: &Recording<'_>,
    place: usize,
    id: u64,
    charge: &Charge,
) -> Result<(), AllocError> {
    let start = start_of(place).saturating_add(FLOW_START);
    let end = start_of(place).saturating_add(FLOW_END);
    push_flow_end(out, recording, "s", charge.update, start, id, charge)?;
    push_flow_end(out, recording, "f", charge.query, end, id, charge)
}
