//! The frame of a list below the drawing: a sentence, cells next to one another, and the number and the sum of the entries that are
//! left out.

use crate::elements::{close_text, open_text};
use crate::grid::{Grid, Position};
use crate::layout::MARGIN;
use crate::table::{SPACE, lines_of, push_lines, rows_height, sentences_height};
use esr_text::push_number;
use std::alloc::{AllocError, Global};

/// Entries that are left out of a list: their number and the sum of their amounts.
#[derive(Clone, Copy)]
pub struct Omitted {
    pub count: usize,
    pub amount: u64,
}

/// A list without its entries.
#[derive(Drop)]
pub struct Listing {
    /// The sentence above the cells.
    lines: Vec<String>,
    /// The number of cells.
    pub count: usize,
    grid: Grid,
    omitted: Omitted,
    /// The class of the last line.
    class: &'static str,
}

/// The size of the cells of a list.
#[derive(Clone, Copy)]
pub struct Cells {
    pub count: usize,
    pub width: u32,
}

impl Listing {
    /// Returns the list with this sentence and these cells in a picture of this width.
    pub fn of(
        alloc: Global,
        words: &str,
        cells: Cells,
        omitted: Omitted,
        class: &'static str,
        width: u32,
    ) -> Result<Listing, AllocError> {
        let space = width.saturating_sub(2 * MARGIN);
        Ok(Listing {
            lines: lines_of(alloc, words, space)?,
            count: cells.count,
            grid: Grid::of(cells.count, cells.width, space),
            omitted,
            class,
        })
    }

    /// Returns the height with the distance to the legend.
    pub fn height(&self) -> u32 {
        let rest = if self.omitted.count > 0 { 1 } else { 0 };
        let rows = self.grid.count_rows().saturating_add(rest);
        sentences_height(&self.lines)
            .saturating_add(rows_height(rows))
            .saturating_add(2 * SPACE)
    }

    /// Appends the sentence, whose first baseline is at `y`. Returns the baseline of the first row of cells.
    pub fn push_words(&self, out: &mut String, y: u32) -> Result<u32, AllocError> {
        push_lines(out, &self.lines, y)
    }

    /// Returns the position of a cell, if the baseline of the first row is at `top`.
    pub fn position(&self, index: usize, top: u32) -> Position {
        self.grid.position(index, top)
    }

    /// Appends the number and the sum of the entries that are left out, below the cells.
    pub fn push_omitted(&self, out: &mut String, top: u32) -> Result<(), AllocError> {
        if self.omitted.count == 0 {
            return Ok(());
        }
        let y = top.saturating_add(rows_height(self.grid.count_rows()));
        open_text(out, self.class, MARGIN, y)?;
        out.push_str("and ")?;
        push_number(out, self.omitted.count as u64)?;
        out.push_str(" more, together ")?;
        push_number(out, self.omitted.amount)?;
        close_text(out)
    }
}
