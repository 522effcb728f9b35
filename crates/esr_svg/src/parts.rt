//! The parts of a stretch: the versions that are drawn, and between them several that are not.
//!
//! Green is a version whose value was read, and nothing else: several versions are grey, whatever was read of them, and
//! their text counts those that were read. The version at the line is always drawn, so that its value can be compared.

use crate::elements::{open_text, push_ground, push_horizontal_titled};
use crate::layout::Layout;
use crate::scene::{LanePart, LaneSegment};
use crate::widths::{BEFORE_LINE, part_text_width, part_width};
use esr_text::{push_count, push_number, push_value};
use std::alloc::{AllocError, Global};

/// The bounds of the parts of a stretch, one more than there are parts.
#[derive(Drop)]
struct Bounds {
    places: Vec<u32>,
}

/// Returns the width that some parts need.
fn needed(parts: &[LanePart]) -> u32 {
    let mut width = 0u32;
    for part in parts {
        width = width.saturating_add(part_width(*part));
    }
    width
}

/// Adds the end of each part, so that all end at `end`: each part gets the width that it needs, and an equal share of the
/// rest.
fn spread(
    places: &mut Vec<u32>,
    parts: &[LanePart],
    start: u32,
    end: u32,
) -> Result<(), AllocError> {
    let rest = end.saturating_sub(start).saturating_sub(needed(parts));
    let share = rest.checked_div(parts.len().min(1000) as u32).unwrap_or(0);
    let mut place = start;
    for part in parts {
        place = place
            .saturating_add(part_width(*part))
            .saturating_add(share)
            .min(end);
        places.push(place)?;
    }
    if let Some(last) = places.last_mut() {
        *last = end;
    }
    Ok(())
}

/// Returns where the parts of a stretch begin and end, if the line crosses the part at an index.
fn bounds_at_line(
    alloc: Global,
    parts: &[LanePart],
    index: usize,
    start: u32,
    line_x: u32,
    end: u32,
) -> Result<Vec<u32>, AllocError> {
    let mut places = Vec::new(alloc);
    places.push(start)?;
    if parts.len() < 2 {
        places.push(end)?;
        return Ok(places);
    }
    // The first part, if the line crosses it, ends after the line; another one begins before it.
    let (count, middle) = if index == 0 {
        (1, line_x.saturating_add(BEFORE_LINE))
    } else {
        (index, line_x.saturating_sub(BEFORE_LINE))
    };
    let (before, after) = match (parts.get(..count), parts.get(count..)) {
        (Some(before), Some(after)) => (before, after),
        _ => (parts, parts),
    };
    spread(&mut places, before, start, middle)?;
    spread(&mut places, after, middle, end)?;
    Ok(places)
}

/// Returns where the parts of a stretch begin and end.
fn bounds_of(
    alloc: Global,
    segment: &LaneSegment,
    start: u32,
    line_x: u32,
    end: u32,
) -> Result<Bounds, AllocError> {
    if let Some(index) = segment.at_line {
        let places = bounds_at_line(alloc, &segment.parts, index, start, line_x, end)?;
        return Ok(Bounds { places });
    }
    let mut places = Vec::new(alloc);
    places.push(start)?;
    spread(&mut places, &segment.parts, start, end)?;
    Ok(Bounds { places })
}

/// Returns the class of a part.
fn class_of(part: LanePart) -> &'static str {
    match part {
        LanePart::Several { .. } => "v s",
        LanePart::Version { reads: 0, .. } => "v",
        LanePart::Version { reads: 1, .. } => "u",
        LanePart::Version { reads, .. } if reads > 9 => "u z",
        LanePart::Version { .. } => "u y",
    }
}

/// Appends the text of a version: its value and how often it was read.
fn push_version(out: &mut String, value: i64, reads: u64) -> Result<(), AllocError> {
    push_value(out, value)?;
    if reads > 1 {
        out.push_str(", ")?;
        push_number(out, reads)?;
        out.push_str(" reads")?;
    }
    Ok(())
}

/// Appends the text of several versions: how many there are, after the first ones of the stretch how many others, and how
/// many of them have a value that was read.
fn push_several(
    out: &mut String,
    versions: usize,
    fitting: usize,
    is_first: bool,
) -> Result<(), AllocError> {
    push_number(out, versions as u64)?;
    out.push_str(if is_first { " values" } else { " others" })?;
    if fitting > 0 {
        out.push_str(" (")?;
        push_number(out, fitting as u64)?;
        out.push_str(" read)")?;
    }
    Ok(())
}

/// Appends the text of a part.
fn push_part_text(
    out: &mut String,
    part: LanePart,
    is_first: bool,
    x: u32,
    y: u32,
) -> Result<(), AllocError> {
    push_ground(out, x, y, part_text_width(part))?;
    match part {
        LanePart::Version { value, reads } => {
            open_text(out, "m o", x, y)?;
            push_version(out, value, reads)?;
        }
        LanePart::Several { versions, fitting } => {
            open_text(out, "m q", x, y)?;
            push_several(out, versions, fitting, is_first)?;
        }
    }
    out.push_str("</text>\n")
}

/// Appends the title of a part.
fn push_title(out: &mut String, item: &str, part: LanePart) -> Result<(), AllocError> {
    match part {
        LanePart::Version { value, reads } => {
            write!(out, "{item} is ")?;
            push_value(out, value)?;
            out.push_str(", ")?;
            match reads {
                0 => out.push_str("which was not read"),
                1 => out.push_str("as read"),
                _ => push_count(out, reads, "", " times as read"),
            }
        }
        LanePart::Several { versions, fitting } => {
            write!(out, "{item} has ")?;
            push_count(out, versions as u64, " value", " values")?;
            out.push_str(" here, ")?;
            push_number(out, fitting as u64)?;
            out.push_str(" as read")
        }
    }
}

/// Returns where the text of a part begins.
fn text_start(segment: &LaneSegment, index: usize, start: u32, line_x: u32) -> u32 {
    if index > 0 && segment.at_line == Some(index) {
        line_x.saturating_add(8)
    } else {
        start.saturating_add(10)
    }
}

/// Returns whether a part is the first of several versions in its stretch.
fn is_first_several(parts: &[LanePart], index: usize) -> bool {
    let first = parts
        .iter()
        .position(|part| matches!(part, LanePart::Several { .. }));
    first == Some(index)
}

/// Appends a part of a stretch.
fn push_part(
    out: &mut String,
    item: &str,
    part: LanePart,
    y: u32,
    start: u32,
    end: u32,
) -> Result<(), AllocError> {
    let left = start.saturating_add(4);
    let right = end.saturating_sub(4);
    push_horizontal_titled(out, class_of(part), y, left, right)?;
    push_title(out, item, part)?;
    out.push_str("</title></path>")
}

/// Appends the parts of a stretch, which begins and ends at these slots.
pub fn push_segment(
    alloc: Global,
    out: &mut String,
    item: &str,
    segment: &LaneSegment,
    slots: (u8, u8, u8),
    y: u32,
    layout: &Layout,
) -> Result<(), AllocError> {
    let (from, query_slot, to) = slots;
    let line_x = layout.x(query_slot);
    let bounds = bounds_of(alloc, segment, layout.x(from), line_x, layout.x(to))?;
    let mut index = 0usize;
    for part in &segment.parts {
        let start = bounds.places.get(index).copied().unwrap_or(0);
        let end = bounds
            .places
            .get(index.saturating_add(1))
            .copied()
            .unwrap_or(start);
        push_part(out, item, *part, y, start, end)?;
        let x = text_start(segment, index, start, line_x);
        let is_first = is_first_several(&segment.parts, index);
        push_part_text(out, *part, is_first, x, y.saturating_sub(13))?;
        index = index.saturating_add(1);
    }
    Ok(())
}
