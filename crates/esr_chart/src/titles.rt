//! The titles of marks and charges, which are shown when a pointer is over them.

use crate::excess::push_parts;
use crate::reads::push_writer;
use esr_outcomes::TxnKind;
use esr_text::{push_number, push_value};
use esr_timeline_data::{Action, Arrow, Cause, Excess, Lane, Mark, Note, NotedWrite, Writer};
use esr_wording::outcome_words;
use std::alloc::AllocError;

/// Appends the step of an entry, as `explain` counts it, and its line.
fn push_step(out: &mut String, place: usize, line: u32) -> Result<(), AllocError> {
    let step = place.saturating_add(1);
    write!(out, "step {step}")?;
    if line > 0 {
        write!(out, ", line {line}")?;
    }
    out.push_str(": ")
}

/// Returns what a limit or a lock of a transaction did.
fn cause_words(cause: Cause) -> &'static str {
    match cause {
        Cause::Lock => "the lock of ",
        Cause::Import => "the limit of ",
        Cause::Export => "the limit of ",
    }
}

/// Appends the sum that would have exceeded a limit, with its parts.
fn push_excess(out: &mut String, excess: Option<Excess>) -> Result<(), AllocError> {
    let Some(excess) = excess else {
        return Ok(());
    };
    out.push_str(": the sum would have been ")?;
    push_parts(out, excess)?;
    out.push_str(" = ")?;
    push_number(out, excess.sum())?;
    out.push_str(" of ")?;
    push_number(out, excess.limit)
}

/// Appends a blocked event.
fn push_blocked(
    out: &mut String,
    name: &str,
    mark: &Mark<'_>,
    value: Option<i64>,
    (cause, excess): (Cause, Option<Excess>),
    times: u64,
) -> Result<(), AllocError> {
    let item = mark.item;
    write!(out, "{name} was blocked from ")?;
    match value {
        Some(value) => {
            out.push_str("writing ")?;
            push_value(out, value)?;
            write!(out, " to {item} by ")?;
        }
        None => write!(out, "reading {item} by ")?,
    }
    out.push_str(cause_words(cause))?;
    out.push_str(mark.blocker)?;
    if times > 1 {
        write!(out, ", {times} times")?;
    }
    push_excess(out, excess)
}

/// Returns the name of the kind of a transaction.
pub fn kind_of(lane: &Lane<'_>) -> &'static str {
    match lane.kind {
        TxnKind::Update => "update",
        TxnKind::Query => "query",
        TxnKind::StrictQuery => "strict query",
    }
}

/// Appends a blank and the writer of a value.
fn push_writer_after(out: &mut String, writer: Option<Writer<'_>>) -> Result<(), AllocError> {
    if writer.is_some() {
        out.push(' ')?;
    }
    push_writer(out, writer, true)
}

/// Appends the value of the item in the nearest placement with its writer, if a read is off.
fn push_nearest(
    out: &mut String,
    nearest: Option<i64>,
    writer: Option<Writer<'_>>,
) -> Result<(), AllocError> {
    match nearest {
        Some(there) => {
            out.push_str(", which is ")?;
            push_value(out, there)?;
            push_writer_after(out, writer)?;
            out.push_str(" in the nearest state")
        }
        None => Ok(()),
    }
}

/// Appends a write that explains the value of a read.
fn push_write(out: &mut String, write: &NotedWrite<'_>) -> Result<(), AllocError> {
    let update = write.update;
    write!(out, "; {update} wrote ")?;
    push_value(out, write.value)?;
    out.push_str(" in step ")?;
    push_number(out, write.step())?;
    match write.follows {
        Some(charged) => write!(out, " and comes after {charged}"),
        None => Ok(()),
    }
}

/// Appends what explains the value of a read.
fn push_note(out: &mut String, note: Option<Note<'_>>) -> Result<(), AllocError> {
    match note {
        Some(Note::Wrote(write)) => push_write(out, &write),
        Some(Note::Equals(writer)) => {
            out.push_str(", as in the nearest state")?;
            push_writer_after(out, Some(writer))
        }
        None => Ok(()),
    }
}

/// Appends what happened at a mark.
fn push_action(out: &mut String, lane: &Lane<'_>, mark: &Mark<'_>) -> Result<(), AllocError> {
    let name = lane.name;
    let item = mark.item;
    match mark.action {
        Action::Begin => {
            let kind = kind_of(lane);
            write!(out, "{name} began as {kind} with limit ")?;
            push_number(out, lane.limit)
        }
        Action::Read { value, nearest } => {
            write!(out, "{name} read {item}: ")?;
            push_value(out, value)?;
            push_writer_after(out, mark.writer)?;
            push_nearest(out, nearest, mark.state_writer)?;
            push_note(out, mark.note)
        }
        Action::Write { value } => {
            write!(out, "{name} wrote {item}: ")?;
            push_value(out, value)
        }
        Action::Blocked {
            value,
            cause,
            times,
            excess,
        } => push_blocked(out, name, mark, value, (cause, excess), times),
        Action::Commit => write!(out, "{name} committed"),
        Action::Abort => write!(out, "{name} aborted"),
    }
}

/// Appends the title of a mark.
pub fn push_mark_title(
    out: &mut String,
    lane: &Lane<'_>,
    mark: &Mark<'_>,
) -> Result<(), AllocError> {
    out.push_str("<title>")?;
    push_step(out, mark.place, mark.line)?;
    push_action(out, lane, mark)?;
    out.push_str("</title>")
}

/// Appends the title of a charge.
pub fn push_charge_title(
    out: &mut String,
    update: &str,
    query: &str,
    arrow: &Arrow<'_>,
) -> Result<(), AllocError> {
    let item = arrow.item;
    out.push_str("<title>")?;
    push_step(out, arrow.place, arrow.line)?;
    write!(out, "{update} charged {query} ")?;
    push_number(out, arrow.amount)?;
    write!(out, " for {item}: ")?;
    push_change(out, arrow)?;
    out.push_str("</title>")
}

/// Appends the values whose difference was charged, and how often if more than once.
pub fn push_change(out: &mut String, arrow: &Arrow<'_>) -> Result<(), AllocError> {
    push_value(out, arrow.old)?;
    out.push(' ')?;
    push_new(out, arrow)
}

/// Appends the second of the values whose difference was charged, and how often if more than once.
pub fn push_new(out: &mut String, arrow: &Arrow<'_>) -> Result<(), AllocError> {
    out.push_str("to ")?;
    push_value(out, arrow.new)?;
    let reads = arrow.reads();
    if reads > 1 {
        out.push_str(", ")?;
        push_number(out, reads)?;
        out.push_str(" reads")?;
    }
    Ok(())
}

/// Appends the outcome of a lane as a phrase.
pub fn push_outcome_words(out: &mut String, lane: &Lane<'_>) -> Result<(), AllocError> {
    out.push_str(outcome_words(lane.outcome))?;
    match lane.distance {
        Some(distance) => {
            out.push_str(", off by ")?;
            push_number(out, distance)
        }
        None => Ok(()),
    }
}
