//! The rows of text below a read: the value that was read and its writer; if the read is off, the value in the nearest state
//! and its writer, and by how much; and what explains that. The layout counts and measures these rows, and the marks draw
//! them.

use crate::excess::count_excess_rows;
use crate::layout::Column;
use esr_text::{letters_of, number_letters, push_number, push_value};
use esr_timeline_data::{Action, Mark, Note, NotedWrite, Writer};
use std::alloc::AllocError;

/// A row below a read.
#[derive(Clone, Copy, PartialEq, Eq)]
pub enum Row {
    /// `read 9`, and its writer unless that has a separate row.
    Value,
    /// `(of u1)`, if the read is off `(of u1, step 57)`, or `(opening)`.
    Writer,
    /// `state 12`, and its writer unless that has a separate row.
    State,
    StateWriter,
    /// `off by 3`.
    Off,
    /// `u2 comes after u1`.
    After,
}

static ROWS: [Row; 6] = [
    Row::Value,
    Row::Writer,
    Row::State,
    Row::StateWriter,
    Row::Off,
    Row::After,
];

/// Returns the rows in the order in which they are drawn.
pub fn all_rows() -> &'static [Row] {
    &ROWS
}

/// Returns whether writers are below the values, and not in the same rows.
fn are_writers_below(column: &Column<'_>) -> bool {
    column.is_folded || column.mark.distance() == 0
}

/// Returns whether the value of the nearest state is below a read: if it is off, or exact only because two updates wrote the
/// same.
fn has_state(mark: &Mark<'_>) -> bool {
    mark.distance() > 0 || matches!(mark.note, Some(Note::Equals(_)))
}

/// Returns the write that explains why a read is off.
fn noted_write<'a>(mark: &Mark<'a>) -> Option<NotedWrite<'a>> {
    match mark.note {
        Some(Note::Wrote(write)) => Some(write),
        _ => None,
    }
}

/// Returns whether a row is below a read.
pub fn has_row(column: &Column<'_>, row: Row) -> bool {
    let mark = &column.mark;
    match row {
        Row::Value => true,
        Row::Writer => mark.writer.is_some() && are_writers_below(column),
        Row::State => has_state(mark),
        Row::StateWriter => has_state(mark) && are_writers_below(column),
        Row::Off => mark.distance() > 0,
        Row::After => noted_write(mark).is_some_and(|write| write.follows.is_some()),
    }
}

/// Returns the number of rows below a mark after the first one.
pub fn count_more_rows(column: &Column<'_>) -> u32 {
    if let Action::Blocked { excess, .. } = column.mark.action {
        return if column.has_label {
            count_excess_rows(column, excess).saturating_add(1)
        } else {
            0
        };
    }
    let mut count = 0u32;
    if matches!(column.mark.action, Action::Read { .. }) && column.has_label {
        for row in all_rows() {
            if has_row(column, *row) {
                count = count.saturating_add(1);
            }
        }
    }
    count.saturating_sub(1)
}

/// Returns the value that was read.
fn value_of(mark: &Mark<'_>) -> i64 {
    match mark.action {
        Action::Read { value, .. } => value,
        _ => 0,
    }
}

/// Returns the value in the nearest state.
fn value_there(mark: &Mark<'_>) -> i64 {
    match mark.action {
        Action::Read {
            nearest: Some(there),
            ..
        } => there,
        _ => value_of(mark),
    }
}

/// Returns the letters of a writer: of `(of u1)`, `(of u1, step 57)` or `(opening)`.
fn writer_letters(writer: Option<Writer<'_>>, has_step: bool) -> usize {
    match writer {
        Some(Writer::Update(update, step)) if has_step => update
            .len()
            .saturating_add(number_letters(step))
            .saturating_add(12),
        Some(Writer::Update(update, _)) => update.len().saturating_add(5),
        Some(Writer::Opening) => 9,
        None => 0,
    }
}

/// Returns the letters of a value, with the writer if that is in the same row.
fn value_letters(column: &Column<'_>, value: i64, writer: Option<Writer<'_>>) -> usize {
    let letters = letters_of(value);
    if are_writers_below(column) {
        letters
    } else {
        letters
            .saturating_add(writer_letters(writer, has_state(&column.mark)))
            .saturating_add(1)
    }
}

/// Returns the letters of `u2 comes after u1`.
fn after_letters(write: NotedWrite<'_>) -> usize {
    let charged = write.follows.map_or(0, |charged| charged.len());
    write
        .update
        .len()
        .saturating_add(charged)
        .saturating_add(13)
}

/// Returns the letters of a row.
fn row_letters(column: &Column<'_>, row: Row) -> usize {
    let mark = &column.mark;
    match row {
        Row::Value => value_letters(column, value_of(mark), mark.writer).saturating_add(5),
        Row::Writer => writer_letters(mark.writer, has_state(mark)),
        Row::State => {
            value_letters(column, value_there(mark), mark.state_writer).saturating_add(6)
        }
        Row::StateWriter => writer_letters(mark.state_writer, true),
        Row::Off => number_letters(mark.distance()).saturating_add(7),
        Row::After => noted_write(mark).map_or(0, after_letters),
    }
}

/// Returns the letters of the longest row below a read.
pub fn read_letters(column: &Column<'_>) -> usize {
    let mut letters = 0usize;
    for row in all_rows() {
        if has_row(column, *row) {
            letters = letters.max(row_letters(column, *row));
        }
    }
    letters
}

/// Appends a writer, and the step of its write if that is asked for.
pub fn push_writer(
    out: &mut String,
    writer: Option<Writer<'_>>,
    has_step: bool,
) -> Result<(), AllocError> {
    match writer {
        Some(Writer::Update(update, step)) if has_step => {
            write!(out, "(of {update}, step ")?;
            push_number(out, step)?;
            out.push(')')
        }
        Some(Writer::Update(update, _)) => write!(out, "(of {update})"),
        Some(Writer::Opening) => out.push_str("(opening)"),
        None => Ok(()),
    }
}

/// Appends a value, and the writer if that is in the same row.
fn push_value_with(
    out: &mut String,
    column: &Column<'_>,
    value: i64,
    writer: Option<Writer<'_>>,
) -> Result<(), AllocError> {
    push_value(out, value)?;
    if are_writers_below(column) || writer.is_none() {
        return Ok(());
    }
    out.push(' ')?;
    push_writer(out, writer, has_state(&column.mark))
}

/// Appends which charged update the update of a write comes after.
fn push_after(out: &mut String, write: NotedWrite<'_>) -> Result<(), AllocError> {
    let update = write.update;
    let charged = write.follows.unwrap_or("");
    write!(out, "{update} comes after {charged}")
}

/// Appends the text of a row.
pub fn push_row(out: &mut String, column: &Column<'_>, row: Row) -> Result<(), AllocError> {
    let mark = &column.mark;
    match row {
        Row::Value => {
            out.push_str("read ")?;
            push_value_with(out, column, value_of(mark), mark.writer)
        }
        Row::Writer => push_writer(out, mark.writer, has_state(mark)),
        Row::State => {
            out.push_str("state ")?;
            push_value_with(out, column, value_there(mark), mark.state_writer)
        }
        Row::StateWriter => push_writer(out, mark.state_writer, true),
        Row::Off => {
            out.push_str("off by ")?;
            push_number(out, mark.distance())
        }
        Row::After => match noted_write(mark) {
            Some(write) => push_after(out, write),
            None => Ok(()),
        },
    }
}

/// Returns the class of a row.
pub fn class_of_row(mark: &Mark<'_>, row: Row) -> &'static str {
    if mark.distance() > 0 {
        "lb rd ha"
    } else if row == Row::Value {
        "lb ha"
    } else {
        "lb gy ha"
    }
}
