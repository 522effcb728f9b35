//! Cells of equal width in rows, for the lists below the drawing.

use crate::layout::MARGIN;
use crate::table::{LIST_GAP, ROW};

/// The position of a text: its left edge and its baseline.
#[derive(Clone, Copy)]
pub struct Position {
    pub x: u32,
    pub y: u32,
}

/// A list of cells in rows.
#[derive(Clone, Copy)]
pub struct Grid {
    count: usize,
    in_row: usize,
    /// The distance of two cells in a row.
    step: u32,
}

impl Grid {
    /// Returns a grid of `count` cells of this width, with as many in a row as fit into the space, at least one.
    pub fn of(count: usize, width: u32, space: u32) -> Grid {
        let step = width.saturating_add(LIST_GAP);
        let in_row = space
            .saturating_add(LIST_GAP)
            .checked_div(step)
            .unwrap_or(1);
        Grid {
            count,
            in_row: (in_row as usize).max(1),
            step,
        }
    }

    /// Returns the number of rows.
    pub fn count_rows(self) -> usize {
        self.count
            .saturating_add(self.in_row.saturating_sub(1))
            .checked_div(self.in_row)
            .unwrap_or(0)
    }

    /// Returns the position of a cell, if the baseline of the first row is at `top`.
    pub fn position(self, index: usize, top: u32) -> Position {
        let row = index.checked_div(self.in_row).unwrap_or(0);
        let column = index.saturating_sub(row.saturating_mul(self.in_row));
        Position {
            x: MARGIN.saturating_add((column.min(1000) as u32).saturating_mul(self.step)),
            y: top.saturating_add((row.min(1000) as u32).saturating_mul(ROW)),
        }
    }
}
