//! The table below the lanes: for each update that explains reads that are off, why it is on its side of the line.
//!
//! The texts are monospaced, so the width of each column is known. If the table is too wide, the amounts are below the words to
//! which they belong. Rejected: a sentence for each update, since the sums of twenty of them are not comparable.

use crate::elements::{close_text, open_before, push_text};
use crate::layout::MARGIN;
use crate::scene::{Entry, Row};
use esr_text::{number_letters, push_number};
use std::alloc::{AllocError, Global};

/// The maximum width of a table in which amounts are next to the words.
const MAX_WIDTH: u32 = 1060;

/// The width of a letter.
const LETTER: u32 = 7;

/// The distance from line to line, between two rows, and between two columns.
const LINE: u32 = 14;

const ROW_GAP: u32 = 7;

const COLUMN_GAP: u32 = 16;

/// The letters between words and their amount.
const AMOUNT_GAP: usize = 2;

/// The distance of the first row from the sentences above it.
const TOP_GAP: u32 = 4;

/// The distance of the legend from the last row.
const BOTTOM_GAP: u32 = 8;

/// The columns of a table.
#[derive(Drop)]
pub struct Table {
    widths: Vec<u32>,
    /// Whether the amounts are below the words.
    is_folded: bool,
}

/// Returns the letters of an amount.
fn amount_letters(entry: &Entry) -> usize {
    match entry.amount {
        Some(amount) => number_letters(amount),
        None => 0,
    }
}

/// Returns whether an entry has words and an amount, one below the other.
fn has_two_lines(entry: &Entry, is_folded: bool) -> bool {
    is_folded && entry.amount.is_some() && !entry.words.is_empty()
}

/// Returns the letters of the widest line of an entry.
fn entry_letters(entry: &Entry, is_folded: bool) -> usize {
    let words = entry.words.len();
    let amount = amount_letters(entry);
    if amount == 0 || words == 0 || is_folded {
        words.max(amount)
    } else {
        words.saturating_add(amount).saturating_add(AMOUNT_GAP)
    }
}

/// Returns the letters of the widest line of a cell.
fn cell_letters(cell: &[Entry], is_folded: bool) -> usize {
    let mut letters = 0usize;
    for entry in cell {
        letters = letters.max(entry_letters(entry, is_folded));
    }
    letters
}

/// Returns the number of lines of a cell.
fn count_lines(cell: &[Entry], is_folded: bool) -> usize {
    let mut lines = 0usize;
    for entry in cell {
        let more = if has_two_lines(entry, is_folded) {
            2
        } else {
            1
        };
        lines = lines.saturating_add(more);
    }
    lines
}

/// Returns the width of a column.
fn column_width(rows: &[Row], column: usize, is_folded: bool) -> u32 {
    let mut letters = 0usize;
    for row in rows {
        if let Some(cell) = row.cells.get(column) {
            letters = letters.max(cell_letters(cell, is_folded));
        }
    }
    (letters.min(1000) as u32).saturating_mul(LETTER)
}

/// Returns the widths of the columns.
fn widths_of(alloc: Global, rows: &[Row], is_folded: bool) -> Result<Vec<u32>, AllocError> {
    let count = rows.first().map_or(0, |row| row.cells.len());
    let mut widths = Vec::new(alloc);
    for column in 0..count {
        widths.push(column_width(rows, column, is_folded))?;
    }
    Ok(widths)
}

/// Returns the width of some columns together.
fn total_width(widths: &[u32]) -> u32 {
    let mut width = 0u32;
    for column in widths {
        width = width.saturating_add(*column).saturating_add(COLUMN_GAP);
    }
    width.saturating_sub(COLUMN_GAP)
}

/// Returns the height of a row.
fn row_height(row: &Row, is_folded: bool) -> u32 {
    let mut lines = 1usize;
    for cell in &row.cells {
        lines = lines.max(count_lines(cell, is_folded));
    }
    (lines.min(1000) as u32)
        .saturating_mul(LINE)
        .saturating_add(ROW_GAP)
}

impl Table {
    /// Returns the columns of these rows.
    pub fn of(alloc: Global, rows: &[Row]) -> Result<Table, AllocError> {
        let widths = widths_of(alloc, rows, false)?;
        if total_width(&widths) <= MAX_WIDTH {
            return Ok(Table {
                widths,
                is_folded: false,
            });
        }
        Ok(Table {
            widths: widths_of(alloc, rows, true)?,
            is_folded: true,
        })
    }

    /// Returns the width.
    pub fn width(&self) -> u32 {
        total_width(&self.widths)
    }

    /// Returns the height of these rows, or 0 if there are none.
    pub fn height(&self, rows: &[Row]) -> u32 {
        let mut height = 0u32;
        for row in rows {
            height = height.saturating_add(row_height(row, self.is_folded));
        }
        match height {
            0 => 0,
            height => height.saturating_add(TOP_GAP + BOTTOM_GAP),
        }
    }

    /// Appends the rows, the first with its baseline at `y`.
    pub fn push(&self, out: &mut String, rows: &[Row], y: u32) -> Result<(), AllocError> {
        let mut y = y.saturating_add(TOP_GAP);
        let mut is_head = true;
        for row in rows {
            if !is_head {
                push_rule(out, y.saturating_sub(LINE), self.width())?;
            }
            self.push_row(out, row, is_head, y)?;
            y = y.saturating_add(row_height(row, self.is_folded));
            is_head = false;
        }
        Ok(())
    }

    /// Appends a row.
    fn push_row(
        &self,
        out: &mut String,
        row: &Row,
        is_head: bool,
        y: u32,
    ) -> Result<(), AllocError> {
        let mut x = MARGIN;
        for (cell, width) in row.cells.iter().zip(self.widths.iter()) {
            let right = x.saturating_add(*width);
            self.push_cell(out, cell, is_head, (x, right), y)?;
            x = right.saturating_add(COLUMN_GAP);
        }
        Ok(())
    }

    /// Appends a cell between two edges.
    fn push_cell(
        &self,
        out: &mut String,
        cell: &[Entry],
        is_head: bool,
        edges: (u32, u32),
        y: u32,
    ) -> Result<(), AllocError> {
        let mut y = y;
        for entry in cell {
            let next = y.saturating_add(LINE);
            let is_folded = has_two_lines(entry, self.is_folded);
            let low = if is_folded { next } else { y };
            push_entry(out, entry, is_head, edges, (y, low))?;
            y = low.saturating_add(LINE);
        }
        Ok(())
    }
}

/// Appends the words of an entry, and its amount at the right edge, with their baselines.
fn push_entry(
    out: &mut String,
    entry: &Entry,
    is_head: bool,
    (left, right): (u32, u32),
    (y, low): (u32, u32),
) -> Result<(), AllocError> {
    if !entry.words.is_empty() {
        let class = if is_head { "f q" } else { "f" };
        push_text(out, class, left, y, &entry.words)?;
    }
    if let Some(amount) = entry.amount {
        open_before(out, "f", right, low)?;
        push_number(out, amount)?;
        close_text(out, "")?;
    }
    out.push_str("\n")
}

/// Appends the rule between two rows.
fn push_rule(out: &mut String, y: u32, width: u32) -> Result<(), AllocError> {
    write!(
        out,
        "<rect class='j' x='{MARGIN}' y='{y}' width='{width}' height='1'></rect>"
    )
}
