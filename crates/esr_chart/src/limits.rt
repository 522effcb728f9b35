//! The bar of a limit below the lane of a query, which fills up with each charge.

use crate::elements::push_rect;
use crate::layout::{Band, charges_at_or_before, charges_between};
use esr_history::MAX_LIMIT;
use esr_timeline_data::{Lane, Scene};
use std::alloc::AllocError;

/// The height of a bar.
const HEIGHT: u32 = 10;

/// The least height of an amount, in tenths of a pixel.
const LEAST_TENTHS: u32 = 10;

/// Returns the height of an amount in a bar in tenths of a pixel, to scale, but at least [`LEAST_TENTHS`] if there is any.
fn tenths_of(amount: u64, limit: u64) -> u32 {
    let whole = HEIGHT.saturating_mul(10);
    let share = u128::from(amount.min(limit))
        .saturating_mul(u128::from(whole))
        .checked_div(u128::from(limit))
        .unwrap_or(0)
        .min(u128::from(whole)) as u32;
    if amount > 0 {
        share.max(LEAST_TENTHS)
    } else {
        0
    }
}

/// A part of a bar with one height, in tenths of a pixel.
#[derive(Clone, Copy)]
struct Part {
    start: u32,
    end: u32,
    tenths: u32,
}

/// Appends a part of a bar.
fn push_part(out: &mut String, part: Part, top: u32) -> Result<(), AllocError> {
    let width = part.end.saturating_sub(part.start);
    if part.tenths == 0 || width == 0 {
        return Ok(());
    }
    let whole = top.saturating_add(HEIGHT).saturating_mul(10);
    let edge = whole.saturating_sub(part.tenths);
    let (y, of_y) = (edge / 10, edge % 10);
    let (height, of_height) = (part.tenths / 10, part.tenths % 10);
    let x = part.start;
    write!(
        out,
        "<rect class='lu' x='{x}' y='{y}.{of_y}' width='{width}' height='{height}.{of_height}'/>\n"
    )
}

/// Appends the parts of a bar in a band.
fn push_parts(
    out: &mut String,
    scene: &Scene<'_>,
    band: &Band<'_>,
    number: usize,
    lane: &Lane<'_>,
    top: u32,
) -> Result<(), AllocError> {
    let span = band.span(number);
    let earlier = charges_between(&scene.all_charges, 0, band.first_place());
    let before = lane.sum_of(number, earlier);
    let mut part = Part {
        start: span.start,
        end: span.start,
        tenths: tenths_of(before, lane.limit),
    };
    for column in &band.columns {
        let arrows = charges_at_or_before(&scene.all_charges, column.mark.place);
        let tenths = tenths_of(lane.sum_of(number, arrows), lane.limit);
        if tenths != part.tenths && column.x >= span.start && column.x <= span.end {
            part.end = column.x;
            push_part(out, part, top)?;
            part.start = column.x;
            part.tenths = tenths;
        }
    }
    part.end = span.end;
    push_part(out, part, top)
}

/// Returns whether a lane has a bar: that of a query with a limit.
pub fn has_bar(lane: &Lane<'_>) -> bool {
    lane.is_query() && lane.limit > 0 && lane.limit < MAX_LIMIT
}

/// Appends the bar of the limit of a lane in a band, if it has one.
pub fn push_limit(
    out: &mut String,
    scene: &Scene<'_>,
    band: &Band<'_>,
    number: usize,
    lane: &Lane<'_>,
) -> Result<(), AllocError> {
    if !has_bar(lane) {
        return Ok(());
    }
    let span = band.span(number);
    let top = band.lane_top(number).saturating_add(span.bar_row());
    push_parts(out, scene, band, number, lane, top)?;
    let width = span.end.saturating_sub(span.start);
    push_rect(out, "lf", span.start, top, width, HEIGHT)
}
