//! The sum of charges that would have exceeded a limit, below a cross: `61 + 61 = 122 > 120`, in one row or in two.

use crate::elements::{close_text, open_centred};
use crate::layout::{Column, TEXT_ROW};
use esr_text::{number_letters, push_number};
use esr_timeline_data::Excess;
use std::alloc::AllocError;

/// The maximum number of letters of a sum in one row.
const MAX_LETTERS: usize = 30;

/// Returns the letters of the parts: `61 + 61`.
fn parts_letters(excess: Excess) -> usize {
    number_letters(excess.used)
        .saturating_add(number_letters(excess.due))
        .saturating_add(3)
}

/// Returns the letters of the sum and the limit: `= 122 > 120`.
fn sum_letters(excess: Excess) -> usize {
    number_letters(excess.sum())
        .saturating_add(number_letters(excess.limit))
        .saturating_add(5)
}

/// Returns the letters of the parts, the sum and the limit in one row.
fn row_letters(excess: Excess) -> usize {
    parts_letters(excess)
        .saturating_add(sum_letters(excess))
        .saturating_add(1)
}

/// Returns whether the sum is in two rows.
fn is_in_two_rows(column: &Column<'_>, excess: Excess) -> bool {
    column.is_folded || row_letters(excess) > MAX_LETTERS
}

/// Returns the number of rows of a sum, or 0 if there is none.
pub fn count_excess_rows(column: &Column<'_>, excess: Option<Excess>) -> u32 {
    match excess {
        Some(excess) if is_in_two_rows(column, excess) => 2,
        Some(_) => 1,
        None => 0,
    }
}

/// Returns the letters of the longest row of a sum, or 0 if there is none.
pub fn excess_letters(column: &Column<'_>, excess: Option<Excess>) -> usize {
    match excess {
        Some(excess) if is_in_two_rows(column, excess) => {
            parts_letters(excess).max(sum_letters(excess))
        }
        Some(excess) => row_letters(excess),
        None => 0,
    }
}

/// Appends the charges before an event, and that of the event.
pub fn push_parts(out: &mut String, excess: Excess) -> Result<(), AllocError> {
    push_number(out, excess.used)?;
    out.push_str(" + ")?;
    push_number(out, excess.due)
}

/// Appends the sum and the limit.
fn push_sum(out: &mut String, excess: Excess) -> Result<(), AllocError> {
    out.push_str("= ")?;
    push_number(out, excess.sum())?;
    out.push_str(" > ")?;
    push_number(out, excess.limit)
}

/// Appends the sum that would have exceeded a limit, with its parts, if there is one.
pub fn push_excess(
    out: &mut String,
    column: &Column<'_>,
    excess: Option<Excess>,
    y: u32,
) -> Result<(), AllocError> {
    let Some(excess) = excess else {
        return Ok(());
    };
    open_centred(out, "lb bl ha", column.x, y)?;
    push_parts(out, excess)?;
    if is_in_two_rows(column, excess) {
        close_text(out)?;
        open_centred(out, "lb bl ha", column.x, y.saturating_add(TEXT_ROW))?;
    } else {
        out.push(' ')?;
    }
    push_sum(out, excess)?;
    close_text(out)
}
