//! A ledger for people: columns as wide as their widest cell, numbers aligned right and words left.

use crate::ledger_columns::{Column, LEDGER_COLUMNS, content_of};
use crate::rows::Row;
use crate::spans::{LineSpan, Spans};
use crate::words::{Content, push_cell};
use esr_report::{Names, name_of_transaction};
use std::alloc::{AllocError, Global};

/// Returns whether the text of a column is left-aligned.
fn is_of_words(column: Column) -> bool {
    matches!(column, Column::Name | Column::Kind | Column::Outcome)
}

/// Returns the number of a number's decimal digits.
fn digits_of(number: u64) -> usize {
    let mut digits = itoa::Buffer::new();
    digits.format(number).len()
}

/// Returns the width of a cell.
fn width_of(content: Content<'_>) -> usize {
    match content {
        Content::Number(number) => digits_of(number),
        Content::Word(word) => word.len(),
        Content::Value(_) | Content::Nothing => 1,
    }
}

/// The widths of the columns.
#[derive(Clone, Copy)]
struct Widths([usize; 15]);

impl Widths {
    /// Widens the columns to their heads.
    fn of_heads() -> Widths {
        let mut widths = Widths([0; 15]);
        for (width, (_, _, head)) in widths.0.iter_mut().zip(LEDGER_COLUMNS.iter()) {
            *width = head.len();
        }
        widths
    }

    /// Widens the columns to the cells of a row.
    fn widen(&mut self, name: &str, row: &Row, span: LineSpan) {
        for (width, (column, _, _)) in self.0.iter_mut().zip(LEDGER_COLUMNS.iter()) {
            *width = (*width).max(width_of(content_of(*column, name, row, span)));
        }
    }
}

/// Appends `count` spaces.
fn push_spaces(out: &mut String, count: usize) -> Result<(), AllocError> {
    for _ in 0..count {
        out.push_str(" ")?;
    }
    Ok(())
}

/// Appends the content of a cell, aligned.
fn push_aligned(
    out: &mut String,
    column: Column,
    content: Content<'_>,
    width: usize,
) -> Result<(), AllocError> {
    let spaces = width.saturating_sub(width_of(content));
    if !is_of_words(column) {
        push_spaces(out, spaces)?;
    }
    match content {
        Content::Nothing => out.push_str("-")?,
        content => push_cell(out, content)?,
    }
    if is_of_words(column) {
        push_spaces(out, spaces)?;
    }
    Ok(())
}

/// Appends the heads. Those of the blocking reasons are below the words "blocked by".
fn push_heads(out: &mut String, widths: &Widths) -> Result<(), AllocError> {
    let mut before = 0usize;
    for (width, (column, _, _)) in widths.0.iter().zip(LEDGER_COLUMNS.iter()) {
        if *column == Column::BlockedByLock {
            push_spaces(out, before)?;
            out.push_str("blocked by\n")?;
        }
        before = before.saturating_add(*width).saturating_add(2);
    }
    for (width, (column, _, head)) in widths.0.iter().zip(LEDGER_COLUMNS.iter()) {
        if *column != Column::TxnNumber {
            out.push_str("  ")?;
        }
        push_aligned(out, *column, Content::Word(head), *width)?;
    }
    out.push_str("\n")
}

/// Appends a row, with its name and lines.
fn push_row(
    out: &mut String,
    widths: &Widths,
    name: &str,
    row: &Row,
    span: LineSpan,
) -> Result<(), AllocError> {
    for (width, (column, _, _)) in widths.0.iter().zip(LEDGER_COLUMNS.iter()) {
        if *column != Column::TxnNumber {
            out.push_str("  ")?;
        }
        push_aligned(out, *column, content_of(*column, name, row, span), *width)?;
    }
    out.push_str("\n")
}

/// Returns the widths of the columns of a ledger.
fn widths_of(transactions: &Names, spans: &Spans, rows: &[Row]) -> Widths {
    let mut widths = Widths::of_heads();
    for row in rows {
        let name = name_of_transaction(transactions, row.number);
        widths.widen(name, row, spans.of(row.number));
    }
    widths
}

/// Returns a ledger for people.
pub fn ledger_text(
    alloc: Global,
    transactions: &Names,
    spans: &Spans,
    rows: &[Row],
) -> Result<Vec<u8>, AllocError> {
    let widths = widths_of(transactions, spans, rows);
    let mut out = String::new(alloc);
    push_heads(&mut out, &widths)?;
    for row in rows {
        let name = name_of_transaction(transactions, row.number);
        push_row(&mut out, &widths, name, row, spans.of(row.number))?;
    }
    Ok(out.into_bytes())
}
