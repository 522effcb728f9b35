//! The marks of a band with their labels.

use crate::elements::{close_text, open_centred, push_circle, push_cross, push_square};
use crate::excess::push_excess;
use crate::layout::{Band, Column, TEXT_ROW};
use crate::reads::{all_rows, class_of_row, has_row, push_row};
use crate::titles::push_mark_title;
use esr_text::{push_number, push_value};
use esr_timeline_data::{Action, Cause, Lane, Scene};
use std::alloc::AllocError;

/// Appends the sign of a mark.
fn push_sign(out: &mut String, action: Action, x: u32, y: u32) -> Result<(), AllocError> {
    match action {
        Action::Read { nearest, .. } => {
            push_circle(out, if nearest.is_some() { "mo" } else { "mr" }, x, y)
        }
        Action::Write { .. } => push_square(out, x, y),
        Action::Blocked { .. } => push_cross(out, x, y),
        Action::Begin | Action::Commit | Action::Abort => {
            let top = y.saturating_sub(9);
            let bottom = y.saturating_add(9);
            write!(out, "<path class='lf' d='M{x} {top}V{bottom}'/>")
        }
    }
}

/// Appends the value of a write.
fn push_mark_value(out: &mut String, value: i64, x: u32, y: u32) -> Result<(), AllocError> {
    open_centred(out, "lb ha", x, y)?;
    push_value(out, value)?;
    close_text(out)
}

/// Appends the rows below a read.
fn push_rows(out: &mut String, column: &Column<'_>, top: u32) -> Result<(), AllocError> {
    let mut y = top;
    for row in all_rows() {
        if has_row(column, *row) {
            open_centred(out, class_of_row(&column.mark, *row), column.x, y)?;
            push_row(out, column, *row)?;
            close_text(out)?;
            y = y.saturating_add(TEXT_ROW);
        }
    }
    Ok(())
}

/// Appends the lock or the limit that blocked an event.
fn push_cause(
    out: &mut String,
    lane: &Lane<'_>,
    blocker: &str,
    cause: Cause,
) -> Result<(), AllocError> {
    if cause == Cause::Lock {
        return write!(out, "lock of {blocker}");
    }
    if blocker == lane.name {
        out.push_str("its limit")
    } else {
        write!(out, "limit of {blocker}")
    }
}

/// Appends what was blocked: a read, or the write of a value.
fn push_attempt(out: &mut String, value: Option<i64>, x: u32, y: u32) -> Result<(), AllocError> {
    open_centred(out, "lb bl ha", x, y)?;
    match value {
        Some(value) => {
            out.push_str("tried to write ")?;
            push_value(out, value)?;
        }
        None => out.push_str("tried to read")?,
    }
    close_text(out)
}

/// Appends what blocked an event, and how often if more than once.
fn push_blocker(
    out: &mut String,
    lane: &Lane<'_>,
    column: &Column<'_>,
    (cause, times): (Cause, u64),
    y: u32,
) -> Result<(), AllocError> {
    open_centred(out, "lb bl ha", column.x, y)?;
    push_cause(out, lane, column.mark.blocker, cause)?;
    if times > 1 {
        out.push_str(", ")?;
        push_number(out, times)?;
        out.push_str(" times")?;
    }
    close_text(out)
}

/// Appends the value below a mark, or what blocked the event.
fn push_value_label(
    out: &mut String,
    lane: &Lane<'_>,
    column: &Column<'_>,
    top: u32,
) -> Result<(), AllocError> {
    let y = top.saturating_add(43);
    match column.mark.action {
        Action::Read { .. } => push_rows(out, column, y),
        Action::Write { value } => push_mark_value(out, value, column.x, y),
        Action::Blocked {
            value,
            cause,
            times,
            excess,
        } => {
            let next = y.saturating_add(TEXT_ROW);
            push_attempt(out, value, column.x, y)?;
            push_blocker(out, lane, column, (cause, times), next)?;
            push_excess(out, column, excess, next.saturating_add(TEXT_ROW))
        }
        Action::Begin | Action::Commit | Action::Abort => Ok(()),
    }
}

/// Appends a blank and a weight, if it is not 1.
pub fn push_weight(out: &mut String, weight: u64) -> Result<(), AllocError> {
    if weight <= 1 {
        return Ok(());
    }
    out.push_str(" (weight ")?;
    push_number(out, weight)?;
    out.push(')')
}

/// Appends the item of a mark, and its weight if it was read.
fn push_item(out: &mut String, column: &Column<'_>, y: u32) -> Result<(), AllocError> {
    open_centred(out, "lb ha", column.x, y)?;
    out.push_str(column.mark.item)?;
    if matches!(column.mark.action, Action::Read { .. }) {
        push_weight(out, column.mark.weight)?;
    }
    close_text(out)
}

/// Appends the labels of a mark.
fn push_labels(
    out: &mut String,
    lane: &Lane<'_>,
    column: &Column<'_>,
    top: u32,
) -> Result<(), AllocError> {
    if !column.has_label || column.mark.item.is_empty() {
        return Ok(());
    }
    push_item(out, column, top.saturating_add(7))?;
    push_value_label(out, lane, column, top)
}

/// Appends a mark with its labels.
fn push_mark(
    out: &mut String,
    lane: &Lane<'_>,
    column: &Column<'_>,
    top: u32,
) -> Result<(), AllocError> {
    out.push_str("<g>")?;
    push_mark_title(out, lane, &column.mark)?;
    push_sign(out, column.mark.action, column.x, top.saturating_add(23))?;
    out.push_str("\n")?;
    push_labels(out, lane, column, top)?;
    out.push_str("</g>\n")
}

/// Appends the marks of a band.
pub fn push_marks_in(
    out: &mut String,
    scene: &Scene<'_>,
    band: &Band<'_>,
) -> Result<(), AllocError> {
    for column in &band.columns {
        if let Some(lane) = scene.lanes.get(column.mark.lane) {
            push_mark(out, lane, column, band.lane_top(column.mark.lane))?;
        }
    }
    Ok(())
}
