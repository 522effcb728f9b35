//! The bands of a timeline: lanes, charges, heads, marks and the axis, each over the ones before. The columns are placed so
//! that no arrow crosses a label. An arrow that passes a head above a lane has a gap there.

use crate::elements::{
    close_text, open_centred, open_rect, open_text, push_continued, push_text, push_vertical,
};
use crate::head::prefix_of;
use crate::layout::{
    Band, Column, GAP, Layout, MARGIN, STEP_ROW, Span, TEXT_ROW, charges_at, charges_between,
    column_at, fits_one_row, limit_width, name_width, rows_above,
};
use crate::limits::push_limit;
use crate::signs::{push_marks_in, push_weight};
use crate::titles::{kind_of, push_change, push_charge_title, push_new};
use esr_history::MAX_LIMIT;
use esr_outcomes::TxnOutcome;
use esr_text::{push_number, push_value};
use esr_timeline_data::{Arrow, Lane, Scene};
use esr_wording::outcome_words;
use std::alloc::AllocError;

/// Appends the limit of a transaction.
fn push_limit_words(out: &mut String, limit: u64, y: u32) -> Result<(), AllocError> {
    open_text(out, "lb gy ha", MARGIN, y)?;
    if limit >= MAX_LIMIT {
        out.push_str("largest limit")?;
    } else {
        out.push_str("limit ")?;
        push_number(out, limit)?;
    }
    close_text(out)
}

/// Appends the notes on the charges of a transaction, in brackets: how much of them is to the queries that are drawn, and how
/// much of that is drawn.
fn push_notes(out: &mut String, lane: &Lane<'_>) -> Result<(), AllocError> {
    let mut joint = " (";
    if lane.has_here_note() {
        out.push_str(joint)?;
        push_number(out, lane.here)?;
        out.push_str(" here")?;
        joint = ", ";
    }
    if lane.has_drawn_note() {
        out.push_str(joint)?;
        push_number(out, lane.drawn)?;
        out.push_str(" drawn")?;
    }
    if lane.count_notes() > 0 {
        out.push(')')?;
    }
    Ok(())
}

/// Appends a note on the charges of a transaction, in front of its lane.
fn push_note_row(out: &mut String, amount: u64, words: &str, y: u32) -> Result<(), AllocError> {
    open_text(out, "lb ch ha", MARGIN, y)?;
    out.push('(')?;
    push_number(out, amount)?;
    out.push_str(words)?;
    close_text(out)
}

/// Appends the notes on the charges of a transaction in front of its lane, each in a separate row below `y`.
fn push_note_rows(out: &mut String, lane: &Lane<'_>, y: u32) -> Result<(), AllocError> {
    let mut next = y.saturating_add(TEXT_ROW);
    if lane.has_here_note() {
        push_note_row(out, lane.here, " here)", next)?;
        next = next.saturating_add(TEXT_ROW);
    }
    if lane.has_drawn_note() {
        push_note_row(out, lane.drawn, " drawn)", next)?;
    }
    Ok(())
}

/// Appends the charges of a transaction, above its lane with the notes.
fn push_charged(
    out: &mut String,
    lane: &Lane<'_>,
    is_above: bool,
    x: u32,
    y: u32,
) -> Result<(), AllocError> {
    let class = if lane.charged > 0 {
        "lb ch ha"
    } else {
        "lb gy ha"
    };
    open_text(out, class, x, y)?;
    out.push_str("charged ")?;
    push_number(out, lane.charged)?;
    if is_above {
        push_notes(out, lane)?;
    }
    close_text(out)
}

/// Appends the name of a transaction in front of its lane, and in the band in which it begins also its kind, its limit
/// and its charges.
fn push_head_in_front(
    out: &mut String,
    lane: &Lane<'_>,
    top: u32,
    has_head: bool,
) -> Result<(), AllocError> {
    push_text(out, "nm ha", MARGIN, top.saturating_add(20), lane.name)?;
    if !has_head {
        return Ok(());
    }
    let kind = kind_of(lane);
    push_text(out, "lb gy ha", MARGIN, top.saturating_add(34), kind)?;
    push_limit_words(out, lane.limit, top.saturating_add(47))?;
    let y = top.saturating_add(60);
    push_charged(out, lane, false, MARGIN, y)?;
    push_note_rows(out, lane, y)
}

/// Appends the name of a transaction above its lane, and in the band in which it begins also its kind, its limit and its
/// charges.
fn push_head_above(
    out: &mut String,
    lane: &Lane<'_>,
    top: u32,
    has_head: bool,
) -> Result<(), AllocError> {
    let y = top.saturating_add(13);
    push_text(out, "nm ha", MARGIN, y, lane.name)?;
    if !has_head {
        return Ok(());
    }
    let x = MARGIN.saturating_add(name_width(lane)).saturating_add(GAP);
    push_text(out, "lb gy ha", x, y, kind_of(lane))?;
    let y = y.saturating_add(TEXT_ROW);
    push_limit_words(out, lane.limit, y)?;
    if fits_one_row(lane) {
        let x = MARGIN.saturating_add(limit_width(lane)).saturating_add(GAP);
        push_charged(out, lane, true, x, y)
    } else {
        push_charged(out, lane, true, MARGIN, y.saturating_add(TEXT_ROW))
    }
}

/// Appends the heads of the lanes.
fn push_heads(out: &mut String, scene: &Scene<'_>, band: &Band<'_>) -> Result<(), AllocError> {
    let mut number = 0usize;
    for lane in &scene.lanes {
        let span = band.span(number);
        let top = band.head_top(number);
        if span.is_drawn && band.has_heads_above() {
            push_head_above(out, lane, top, span.has_head)?;
        } else if span.is_drawn {
            push_head_in_front(out, lane, top, span.has_head)?;
        }
        number = number.saturating_add(1);
    }
    Ok(())
}

/// Returns the class of the band of a lane.
pub fn band_class(lane: &Lane<'_>) -> &'static str {
    let is_outside = lane.in_state == Some(false);
    match (lane.is_query(), lane.outcome != TxnOutcome::Committed) {
        (false, false) if is_outside => "bo",
        (false, true) if is_outside => "bo op",
        (false, false) => "bu",
        (false, true) => "bu op",
        (true, false) => "bq",
        (true, true) => "bq op",
    }
}

/// Appends the rectangle of a lane.
fn push_band_rect(
    out: &mut String,
    lane: &Lane<'_>,
    span: Span,
    top: u32,
) -> Result<(), AllocError> {
    let width = span.end.saturating_sub(span.start);
    let y = top.saturating_add(14);
    open_rect(out, band_class(lane), span.start, y, width, 18)?;
    out.push_str(" rx='4'/>\n")
}

/// Appends a lane without its head, its marks and its outcome.
fn push_lane(
    out: &mut String,
    scene: &Scene<'_>,
    band: &Band<'_>,
    number: usize,
    lane: &Lane<'_>,
) -> Result<(), AllocError> {
    let span = band.span(number);
    if !span.is_drawn {
        return Ok(());
    }
    let top = band.lane_top(number);
    push_band_rect(out, lane, span, top)?;
    if !span.has_outcome {
        push_continued(out, span.end.saturating_add(2), top.saturating_add(23))?;
    }
    push_limit(out, scene, band, number, lane)
}

/// Appends the lanes without their heads, their marks and their outcomes.
fn push_lanes(out: &mut String, scene: &Scene<'_>, band: &Band<'_>) -> Result<(), AllocError> {
    let mut number = 0usize;
    for lane in &scene.lanes {
        push_lane(out, scene, band, number, lane)?;
        number = number.saturating_add(1);
    }
    Ok(())
}

/// Appends the distance of a committed query, below its outcome.
fn push_distance(out: &mut String, distance: u64, x: u32, y: u32) -> Result<(), AllocError> {
    if distance == 0 {
        return push_text(out, "lb gn ha", x, y, "exact");
    }
    open_text(out, "lb rd ha", x, y)?;
    out.push_str("off by ")?;
    push_number(out, distance)?;
    close_text(out)
}

/// Appends the outcome of a lane, at its end.
fn push_outcome(out: &mut String, lane: &Lane<'_>, end: u32, top: u32) -> Result<(), AllocError> {
    let x = end.saturating_add(8);
    let words = outcome_words(lane.outcome);
    push_text(out, "lb ha", x, top.saturating_add(27), words)?;
    match lane.distance {
        Some(distance) => push_distance(out, distance, x, top.saturating_add(41)),
        None => Ok(()),
    }
}

/// Appends the outcomes of the lanes that end in a band.
fn push_outcomes(out: &mut String, scene: &Scene<'_>, band: &Band<'_>) -> Result<(), AllocError> {
    let mut number = 0usize;
    for lane in &scene.lanes {
        let span = band.span(number);
        if span.is_drawn && span.has_outcome {
            push_outcome(out, lane, span.end, band.lane_top(number))?;
        }
        number = number.saturating_add(1);
    }
    Ok(())
}

/// Returns the ends of the arrow of a charge: it leads from the band of the update, or the label below or above it,
/// down to the band of the query or the label above that, or up to the bar of its limit.
fn ends_of(band: &Band<'_>, place: usize, from: usize, to: usize) -> (u32, u32) {
    let starts_at_label = has_label_on(&band.columns, place, from);
    if from > to {
        let start = if starts_at_label { 0 } else { 14 };
        let end = band.lane_top(to).saturating_add(band.span(to).arrow_row());
        return (band.lane_top(from).saturating_add(start), end);
    }
    let ends_at_label = has_label_on(&band.columns, place, to);
    let start = if starts_at_label { 47 } else { 32 };
    let top = band.lane_top(to);
    let end = if ends_at_label {
        top.saturating_sub(3)
    } else {
        top.saturating_add(13)
    };
    (band.lane_top(from).saturating_add(start), end)
}

/// Returns the x of an entry.
fn x_at(columns: &[Column<'_>], place: usize) -> u32 {
    column_at(columns, place).map_or(0, |column| column.x)
}

/// Returns whether an entry has a label on a lane.
fn has_label_on(columns: &[Column<'_>], place: usize, lane: usize) -> bool {
    column_at(columns, place).is_some_and(|column| column.has_label && column.mark.lane == lane)
}

/// Returns the name of the transaction of a lane.
fn name_at<'a>(scene: &Scene<'a>, lane: usize) -> &'a str {
    scene.lanes.get(lane).map_or("", |lane| lane.name)
}

/// Returns the upper and the lower edge of the rows of the head above a lane that are at x, if there are any. The lower edge
/// of the last row is that of the head.
fn gap_of_head(lane: &Lane<'_>, band: &Band<'_>, number: usize, x: u32) -> Option<(u32, u32)> {
    let span = band.span(number);
    if !span.is_drawn || !band.has_heads_above() {
        return None;
    }
    let left = x.saturating_sub(4);
    let (name, first, second) = rows_above(lane, span.has_head);
    let top = match (left < name, left < first, left < second) {
        (true, _, _) => 0,
        (false, true, _) => 15,
        (false, false, true) => 28,
        (false, false, false) => return None,
    };
    let bottom = match (left < second, left < first) {
        (true, _) => 46,
        (false, true) if second == 0 => 33,
        (false, true) => 30,
        (false, false) if first == 0 => 20,
        (false, false) => 17,
    };
    let edge = band.head_top(number);
    Some((edge.saturating_add(top), edge.saturating_add(bottom)))
}

/// Returns the upper and the lower edge of the text of another charge of an entry, to the query of this lane.
fn gap_of_charge(
    arrows: &[Arrow<'_>],
    band: &Band<'_>,
    number: usize,
    place: usize,
) -> Option<(u32, u32)> {
    let mut charges = charges_at(arrows, place).iter();
    if !charges.any(|arrow| arrow.to == number) {
        return None;
    }
    let span = band.span(number);
    let top = band
        .lane_top(number)
        .saturating_add(span.amount_row())
        .saturating_sub(11);
    Some((
        top,
        top.saturating_add(span.charge_height()).saturating_add(2),
    ))
}

/// Appends the end of a part of an arrow, and the start of the next one, in the direction of the arrow.
fn push_gap(
    out: &mut String,
    gap: Option<(u32, u32)>,
    is_upward: bool,
    x: u32,
) -> Result<(), AllocError> {
    match gap {
        Some((top, bottom)) if is_upward => write!(out, "V{bottom}M{x} {top}"),
        Some((top, bottom)) => write!(out, "V{top}M{x} {bottom}"),
        None => Ok(()),
    }
}

/// Appends the way of the arrow of a charge to the lane of the query, with gaps at the texts that it passes: on its way up also
/// the head above the lane of the update.
fn push_passage(
    out: &mut String,
    scene: &Scene<'_>,
    band: &Band<'_>,
    arrow: &Arrow<'_>,
    from: usize,
    x: u32,
) -> Result<(), AllocError> {
    let is_upward = from > arrow.to;
    let first = if is_upward { 0 } else { 1 };
    for count in first..from.abs_diff(arrow.to) {
        let number = if is_upward {
            from.saturating_sub(count)
        } else {
            from.saturating_add(count)
        };
        let lane = scene.lanes.get(number);
        let head = lane.and_then(|lane| gap_of_head(lane, band, number, x));
        let charge = gap_of_charge(&scene.arrows, band, number, arrow.place);
        let (next, last) = if is_upward {
            (charge, head)
        } else {
            (head, charge)
        };
        push_gap(out, next, is_upward, x)?;
        push_gap(out, last, is_upward, x)?;
    }
    Ok(())
}

/// Appends the way of the arrow of a charge from the lane of the update.
fn push_way(
    out: &mut String,
    scene: &Scene<'_>,
    band: &Band<'_>,
    arrow: &Arrow<'_>,
    from: usize,
) -> Result<(), AllocError> {
    let x = x_at(&band.columns, arrow.place);
    let (start, end) = ends_of(band, arrow.place, from, arrow.to);
    write!(out, "M{x} {start}")?;
    push_passage(out, scene, band, arrow, from, x)?;
    write!(out, "V{end}")
}

/// Returns the class of the arrow of a charge.
fn class_of(arrow: &Arrow<'_>) -> &'static str {
    if arrow.is_early_read() { "ar er" } else { "ar" }
}

/// Appends the arrow of a charge.
fn push_arrow(
    out: &mut String,
    scene: &Scene<'_>,
    band: &Band<'_>,
    arrow: &Arrow<'_>,
) -> Result<(), AllocError> {
    let Some(from) = arrow.from else {
        return Ok(());
    };
    let prefix = prefix_of(scene);
    let class = class_of(arrow);
    write!(
        out,
        "<path class='{class}' marker-end='url(#{prefix}-timeline-tip)' d='"
    )?;
    push_way(out, scene, band, arrow, from)?;
    out.push_str("'>")?;
    let update = name_at(scene, from);
    push_charge_title(out, update, name_at(scene, arrow.to), arrow)?;
    out.push_str("</path>\n")
}

/// Appends the arrows of the charges in a band.
fn push_arrows(out: &mut String, scene: &Scene<'_>, band: &Band<'_>) -> Result<(), AllocError> {
    for arrow in charges_between(&scene.arrows, band.first_place(), band.end_place()) {
        push_arrow(out, scene, band, arrow)?;
    }
    Ok(())
}

/// Appends the change of a charge in one row.
fn push_change_in_row(
    out: &mut String,
    arrow: &Arrow<'_>,
    x: u32,
    y: u32,
) -> Result<(), AllocError> {
    open_centred(out, "lb gy ha", x, y)?;
    push_change(out, arrow)?;
    close_text(out)
}

/// Appends the change of a charge in two rows.
fn push_change_in_rows(
    out: &mut String,
    arrow: &Arrow<'_>,
    x: u32,
    y: u32,
) -> Result<(), AllocError> {
    open_centred(out, "lb gy ha", x, y)?;
    push_value(out, arrow.old)?;
    close_text(out)?;
    open_centred(out, "lb gy ha", x, y.saturating_add(TEXT_ROW))?;
    push_new(out, arrow)?;
    close_text(out)
}

/// Appends the amount of a charge with its item, in one row or in two. Returns the baseline of the last row.
fn push_amount_words(
    out: &mut String,
    column: &Column<'_>,
    arrow: &Arrow<'_>,
    y: u32,
) -> Result<u32, AllocError> {
    open_centred(out, "lb ch ha", column.x, y)?;
    out.push('+')?;
    push_number(out, arrow.amount)?;
    let mut last = y;
    if column.is_folded {
        close_text(out)?;
        last = y.saturating_add(TEXT_ROW);
        open_centred(out, "lb ch ha", column.x, last)?;
    } else {
        out.push(' ')?;
    }
    out.push_str("for ")?;
    out.push_str(arrow.item)?;
    push_weight(out, arrow.weight)?;
    close_text(out)?;
    Ok(last)
}

/// Appends the amount of a charge, below the lane of the query, and the change below it.
fn push_amount(out: &mut String, band: &Band<'_>, arrow: &Arrow<'_>) -> Result<(), AllocError> {
    let Some(column) = column_at(&band.columns, arrow.place) else {
        return Ok(());
    };
    let top = band.lane_top(arrow.to);
    let y = top.saturating_add(band.span(arrow.to).amount_row());
    let y = push_amount_words(out, column, arrow, y)?.saturating_add(TEXT_ROW);
    if column.is_folded {
        push_change_in_rows(out, arrow, column.x, y)
    } else {
        push_change_in_row(out, arrow, column.x, y)
    }
}

/// Appends the amounts of the charges in a band.
fn push_amounts(out: &mut String, scene: &Scene<'_>, band: &Band<'_>) -> Result<(), AllocError> {
    for arrow in charges_between(&scene.arrows, band.first_place(), band.end_place()) {
        push_amount(out, band, arrow)?;
    }
    Ok(())
}

/// Appends the faint line below a column, from the lanes to the axis.
fn push_grid(out: &mut String, band: &Band<'_>) -> Result<(), AllocError> {
    let floor = band.floor().saturating_add(2);
    for column in &band.columns {
        push_vertical(out, "gd", column.x, band.top, floor)?;
    }
    Ok(())
}

/// Appends the step of a column.
fn push_step(out: &mut String, column: &Column<'_>, y: u32) -> Result<(), AllocError> {
    let row = (column.row.min(10) as u32).saturating_mul(STEP_ROW);
    open_centred(out, "lb gy", column.x, y.saturating_add(row))?;
    push_number(out, (column.mark.place as u64).saturating_add(1))?;
    close_text(out)
}

/// Appends the step of each column.
fn push_axis(out: &mut String, band: &Band<'_>) -> Result<(), AllocError> {
    let y = band.floor().saturating_add(14);
    push_text(out, "lb gy", MARGIN, y, "step")?;
    for column in &band.columns {
        push_step(out, column, y)?;
    }
    Ok(())
}

/// Appends a band, each part over the ones before.
fn push_band(out: &mut String, scene: &Scene<'_>, band: &Band<'_>) -> Result<(), AllocError> {
    push_grid(out, band)?;
    push_lanes(out, scene, band)?;
    push_arrows(out, scene, band)?;
    push_heads(out, scene, band)?;
    push_outcomes(out, scene, band)?;
    push_amounts(out, scene, band)?;
    push_marks_in(out, scene, band)?;
    push_axis(out, band)
}

/// Appends the bands.
pub fn push_bands(
    out: &mut String,
    scene: &Scene<'_>,
    layout: &Layout<'_>,
) -> Result<(), AllocError> {
    for band in &layout.bands {
        push_band(out, scene, band)?;
    }
    Ok(())
}
