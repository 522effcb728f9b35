//! The lanes of a picture, and the line across them.

use crate::elements::{
    close_text, open_before, open_centred, open_text, push_ground, push_horizontal, push_straight,
    push_text, push_vertical,
};
use crate::layout::{Layout, MARGIN, TRANSIENT_READ_INDENT, TransientReadLineCount};
use crate::parts::push_segment;
use crate::scene::{Lane, LaneReads, ReadValue, SameValue, Scene, TransientRead, TransientReads};
use crate::slots::slot_after;
use crate::widths::{
    TransientReadWidths, difference_width, has_long_form, has_terms, long_difference_width,
    transient_read_widths, width_of,
};
use esr_text::{push_number, push_value};
use std::alloc::{AllocError, Global};

/// Appends the rest of the reads of an item, without the start of the text: how often the value was read, or the second
/// value, or how many more values there are.
fn push_rest(
    out: &mut String,
    count: u64,
    more: usize,
    second: Option<i64>,
) -> Result<(), AllocError> {
    match second {
        None => {
            push_number(out, count)?;
            out.push_str(" times")?;
        }
        Some(value) if more == 1 => {
            out.push_str("and ")?;
            push_value(out, value)?;
        }
        Some(_) => write!(out, "and {more} more values")?,
    }
    out.push_str("</text>")
}

/// Returns whether an item was read more than once.
fn is_read_again(read: &LaneReads) -> bool {
    read.values.len() > 1 || read.count > 1
}

/// Appends the rest of the reads of an item, if it was read more than once.
fn push_more(out: &mut String, read: &LaneReads, y: u32) -> Result<(), AllocError> {
    if !is_read_again(read) {
        return Ok(());
    }
    let more = read.values.len().saturating_sub(1);
    let shown = if more > 0 {
        read.values.get(1)
    } else {
        read.values.first()
    };
    open_text(out, class_of(shown), MARGIN, y)?;
    push_rest(
        out,
        read.count,
        more,
        read.values.get(1).map(|second| second.value),
    )
}

/// Returns the class of the text on a read: red if it is off at the line.
fn class_of(read: Option<&ReadValue>) -> &'static str {
    match read {
        Some(read) if read.off > 0 => "m r",
        _ => "m g",
    }
}

/// Appends the first value that was read of an item.
fn push_first(out: &mut String, read: &ReadValue, y: u32) -> Result<(), AllocError> {
    open_text(out, class_of(Some(read)), MARGIN, y)?;
    out.push_str("read ")?;
    push_value(out, read.value)?;
    out.push_str("</text>")
}

/// Appends the weight of an item above its name, unless it is 1.
fn push_weight(out: &mut String, lane: &Lane<'_>, y: u32) -> Result<(), AllocError> {
    if lane.weight == 1 {
        return Ok(());
    }
    open_text(out, "m q", MARGIN, y)?;
    out.push_str("weight ")?;
    push_number(out, lane.weight)?;
    out.push_str("</text>")
}

/// Returns the part of a whole, in hundredths.
fn percent(part: u64, whole: u64) -> u64 {
    let share = u128::from(part.min(whole))
        .saturating_mul(100)
        .checked_div(u128::from(whole))
        .unwrap_or(0);
    share.min(100) as u64
}

/// Returns the width of a bar, of at least 2.
fn bar_width(part: u64, whole: u64, width: u32) -> u32 {
    let share = u128::from(part.min(whole))
        .saturating_mul(u128::from(width))
        .checked_div(u128::from(whole))
        .unwrap_or(0);
    (share.min(u128::from(width)) as u32).max(2)
}

/// Appends a bar.
pub fn push_bar(
    out: &mut String,
    class: &str,
    x: u32,
    y: u32,
    width: u32,
) -> Result<(), AllocError> {
    write!(
        out,
        "<rect class='{class}' x='{x}' y='{y}' width='{width}' height='6'>"
    )
}

/// Appends the share of a lane in the distance as a bar, unless it is 0.
fn push_share(
    out: &mut String,
    lane: &Lane<'_>,
    distance: u64,
    y: u32,
    layout: &Layout,
) -> Result<(), AllocError> {
    if lane.difference == 0 {
        return Ok(());
    }
    push_bar(out, "j", MARGIN, y, layout.label_width)?;
    out.push_str("</rect>")?;
    let width = bar_width(lane.difference, distance, layout.label_width);
    push_bar(out, "i", MARGIN, y, width)?;
    let (name, percent) = (lane.name, percent(lane.difference, distance));
    write!(
        out,
        "<title>{name} has {percent} % of the distance</title></rect>"
    )
}

/// Appends the text in front of a lane, and right below it the share, which must not seem to be that of the next lane.
fn push_label(
    out: &mut String,
    lane: &Lane<'_>,
    distance: u64,
    y: u32,
    layout: &Layout,
) -> Result<(), AllocError> {
    push_text(out, "m n", MARGIN, y.saturating_sub(6), lane.name)?;
    push_weight(out, lane, y.saturating_sub(23))?;
    if let Some(read) = lane.read.values.first() {
        push_first(out, read, y.saturating_add(12))?;
    }
    push_more(out, &lane.read, y.saturating_add(28))?;
    let below = if is_read_again(&lane.read) { 35 } else { 19 };
    push_share(out, lane, distance, y.saturating_add(below), layout)
}

/// Appends a lane without the line.
fn push_lane(
    alloc: Global,
    out: &mut String,
    scene: &Scene<'_>,
    lane: &Lane<'_>,
    y: u32,
    layout: &Layout,
) -> Result<(), AllocError> {
    push_label(out, lane, scene.distance, y, layout)?;
    let mut index = 0usize;
    for segment in &lane.segments {
        let from = segment.from;
        if from > 0 {
            let x = layout.x(from);
            push_vertical(out, "t", x, y.saturating_sub(9), y.saturating_add(9))?;
        }
        let to = slot_after(&lane.segments, index, scene.last_slot());
        push_segment(
            alloc,
            out,
            lane.name,
            segment,
            (from, scene.query_slot, to),
            y,
            layout,
        )?;
        index = index.saturating_add(1);
    }
    Ok(())
}

/// Appends the lanes without the line.
fn push_lanes(
    alloc: Global,
    out: &mut String,
    scene: &Scene<'_>,
    layout: &Layout,
) -> Result<(), AllocError> {
    let mut number = 0u8;
    for lane in &scene.lanes {
        push_lane(alloc, out, scene, lane, layout.y(number), layout)?;
        number = number.saturating_add(1);
    }
    Ok(())
}

/// Appends the end of the text on a value that is not a version, of at most as many letters as `ending_letters` says.
fn push_ending(
    out: &mut String,
    same: Option<SameValue<'_>>,
    more: usize,
) -> Result<(), AllocError> {
    match same {
        Some(SameValue::Opening) => out.push_str("; same as the opening value"),
        Some(SameValue::Update(update)) => write!(out, "; {update} wrote the same"),
        None if more > 0 => write!(out, "; and {more} more"),
        None => Ok(()),
    }
}

/// Appends the boxes below the text on a value that is not a version.
fn push_transient_grounds(
    out: &mut String,
    widths: TransientReadWidths,
    x: u32,
    y: u32,
    is_folded: bool,
) -> Result<(), AllocError> {
    let TransientReadWidths {
        value_width,
        reason_width,
    } = widths;
    if !is_folded {
        return push_ground(out, x, y, value_width.saturating_add(reason_width));
    }
    push_ground(out, x, y, value_width)?;
    push_ground(out, x, y.saturating_add(16), reason_width)
}

/// Appends the text on a value that is not a version.
fn push_transient_read(
    out: &mut String,
    transient_read: TransientRead<'_>,
    more: usize,
    x: u32,
    y: u32,
    is_folded: bool,
) -> Result<(), AllocError> {
    open_text(out, "m q o", x, y)?;
    out.push_str("read ")?;
    push_value(out, transient_read.value)?;
    out.push_str(" of ")?;
    out.push_str(transient_read.writer)?;
    out.push(',')?;
    if is_folded {
        out.push_str("</text>")?;
        open_text(out, "m q o", x, y.saturating_add(16))?;
    } else {
        out.push(' ')?;
    }
    out.push_str("which ")?;
    out.push_str(transient_read.reason)?;
    push_ending(out, transient_read.same, more)?;
    out.push_str("</text>\n")
}

/// Appends the values of a lane that were read and are not versions.
fn push_transient_reads(
    out: &mut String,
    transient_reads: &TransientReads<'_>,
    y: u32,
    layout: &Layout,
) -> Result<(), AllocError> {
    let Some(transient_read) = transient_reads.first else {
        return Ok(());
    };
    let left = layout.transient_left;
    let top = y.saturating_sub(4);
    push_horizontal(
        out,
        "u s",
        top,
        left.saturating_add(4),
        left.saturating_add(30),
    )?;
    let x = left.saturating_add(TRANSIENT_READ_INDENT);
    let is_folded = layout.transient_read_lines == TransientReadLineCount::Two;
    push_transient_grounds(out, transient_read_widths(transient_reads), x, y, is_folded)?;
    push_transient_read(out, transient_read, transient_reads.more, x, y, is_folded)
}

/// Appends the values that were read and are not versions, lane by lane.
fn push_all_transient_reads(
    out: &mut String,
    lanes: &[Lane<'_>],
    layout: &Layout,
) -> Result<(), AllocError> {
    let mut number = 0u8;
    for lane in lanes {
        push_transient_reads(
            out,
            &lane.transient_reads,
            layout.y(number).saturating_add(44),
            layout,
        )?;
        number = number.saturating_add(1);
    }
    Ok(())
}

/// Appends the differences of the reads of a lane that are off, each as often as its value was read: `3 + 7`.
fn push_terms(out: &mut String, lane: &Lane<'_>) -> Result<(), AllocError> {
    let mut joint = "";
    for read in &lane.read.values {
        if read.off > 0 {
            for _ in 0..read.count {
                out.push_str(joint)?;
                push_number(out, read.off.checked_div(lane.weight).unwrap_or(0))?;
                joint = " + ";
            }
        }
    }
    Ok(())
}

/// Appends the factors of the distance of a lane: the differences of its reads or their sum, and the weight.
fn push_factors(out: &mut String, lane: &Lane<'_>) -> Result<(), AllocError> {
    match (has_terms(lane), lane.weight > 1) {
        (true, true) => {
            out.push('(')?;
            push_terms(out, lane)?;
            out.push(')')?;
        }
        (true, false) => push_terms(out, lane)?,
        _ => push_number(out, lane.difference.checked_div(lane.weight).unwrap_or(0))?,
    }
    if lane.weight > 1 {
        out.push_str(" x ")?;
        push_number(out, lane.weight)?;
    }
    out.push_str(" = ")
}

/// Appends the distance of a lane, with its factors if they are to be shown.
fn push_off(out: &mut String, lane: &Lane<'_>, is_long: bool) -> Result<(), AllocError> {
    out.push_str("off by ")?;
    if is_long {
        push_factors(out, lane)?;
    }
    push_number(out, lane.difference)?;
    out.push_str("</text>\n")
}

/// Appends the start of the text of a lane at the line, of this width, on the side where there is space.
fn open_at_line(
    out: &mut String,
    class: &str,
    x: u32,
    y: u32,
    width: u32,
    is_left_of_line: bool,
) -> Result<(), AllocError> {
    let y = y.saturating_add(24);
    if is_left_of_line {
        let end = x.saturating_sub(10);
        push_ground(out, end.saturating_sub(width), y, width)?;
        open_before(out, class, end, y)
    } else {
        let start = x.saturating_add(10);
        push_ground(out, start, y, width)?;
        open_text(out, class, start, y)
    }
}

/// Appends the distance of a lane where the line crosses it.
fn push_crossing(
    out: &mut String,
    lane: &Lane<'_>,
    query_slot: u8,
    y: u32,
    layout: &Layout,
) -> Result<(), AllocError> {
    let x = layout.x(query_slot);
    let is_left_of_line = layout.are_differences_left_of_line(query_slot);
    if lane.difference == 0 {
        open_at_line(out, "m g o", x, y, width_of(7), is_left_of_line)?;
        return out.push_str("as read</text>\n");
    }
    write!(out, "<circle class='c' cx='{x}' cy='{y}' r='5'/>")?;
    let is_long = has_long_form(lane) && layout.has_space_for_terms(query_slot);
    let width = if is_long {
        long_difference_width(lane)
    } else {
        difference_width(lane)
    };
    open_at_line(out, "m r o", x, y, width, is_left_of_line)?;
    push_off(out, lane, is_long)
}

/// Appends the distance of each lane where the line crosses it.
fn push_crossings(out: &mut String, scene: &Scene<'_>, layout: &Layout) -> Result<(), AllocError> {
    let mut number = 0u8;
    for lane in &scene.lanes {
        push_crossing(out, lane, scene.query_slot, layout.y(number), layout)?;
        number = number.saturating_add(1);
    }
    Ok(())
}

/// Appends the line, and the name of the query below it.
fn push_line(out: &mut String, scene: &Scene<'_>, layout: &Layout) -> Result<(), AllocError> {
    let x = layout.x(scene.query_slot);
    let top = layout.boxes_top().saturating_sub(6);
    let floor = layout.lanes_bottom();
    let query_name = scene.query_name;
    write!(
        out,
        "<path class='l' d='M{x} {top}V{floor}'><title>the nearest placement of {query_name}</title></path>\n"
    )?;
    let middle = layout.name_x(query_name, scene.query_slot);
    open_centred(out, "m n", middle, floor.saturating_add(16))?;
    close_text(out, query_name)?;
    out.push_str("\n")
}

/// Appends the axis: the updates one after another, from before all of them to after the last.
fn push_axis(out: &mut String, scene: &Scene<'_>, layout: &Layout) -> Result<(), AllocError> {
    let y = layout.lanes_bottom().saturating_add(32);
    let (start, end) = (layout.x(0), layout.lanes_end());
    let has_updates = !scene.updates.is_empty() || scene.omitted_updates > 0;
    let first = if has_updates {
        "before all updates"
    } else {
        "the start"
    };
    push_straight(out, scene.query_name, y, start, end)?;
    push_text(out, "q", MARGIN, y.saturating_add(4), "serial order")?;
    push_text(out, "q", start, y.saturating_add(18), first)?;
    if has_updates && end > start.saturating_add(280) {
        open_before(out, "q", end, y.saturating_add(18))?;
        close_text(out, "after all of them")?;
    }
    out.push_str("\n")
}

/// Appends the lanes and the line.
pub fn push_audit(
    alloc: Global,
    out: &mut String,
    scene: &Scene<'_>,
    layout: &Layout,
) -> Result<(), AllocError> {
    push_lanes(alloc, out, scene, layout)?;
    push_axis(out, scene, layout)?;
    push_line(out, scene, layout)?;
    push_all_transient_reads(out, &scene.lanes, layout)?;
    push_crossings(out, scene, layout)
}
