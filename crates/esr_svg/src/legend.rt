//! The legend: what each colour and line means, of those that occur in the picture, in rows as wide as it is.

use crate::elements::{push_horizontal, push_straight, push_text, push_vertical};
use crate::lanes::push_bar;
use crate::layout::{LEGEND_ROW_HEIGHT, Layout, MARGIN};
use crate::scene::{Lane, LanePart, LaneSegment, Scene, have_transient_read};
use std::alloc::AllocError;

/// A symbol that the legend of a picture explains.
#[derive(Clone, Copy, PartialEq, Eq)]
enum Key {
    Read,
    Again,
    Other,
    Several,
    Change,
    Write,
    Writes,
    Off,
    AnotherFits,
    TransientRead,
    Before,
    After,
    Must,
    First,
    Nearest,
    Share,
}

fn keys() -> &'static [Key] {
    &KEYS
}

/// The keys, in the order in which they are drawn.
static KEYS: [Key; 16] = [
    Key::Read,
    Key::Again,
    Key::Other,
    Key::Several,
    Key::Change,
    Key::Nearest,
    Key::Off,
    Key::AnotherFits,
    Key::Share,
    Key::Before,
    Key::After,
    Key::Writes,
    Key::Write,
    Key::First,
    Key::TransientRead,
    Key::Must,
];

/// The width of a key with its text.
const KEY_WIDTH: u32 = 230;

/// Returns the meaning of a key.
fn words_of(key: Key) -> &'static str {
    match key {
        Key::Read => "equal to what was read",
        Key::Again => "read more than once",
        Key::Other => "other value",
        Key::Several => "values that are not drawn",
        Key::Change => "the value changes",
        Key::Write => "write by the box above",
        Key::Writes => "down to what it wrote",
        Key::Off => "read that is off",
        Key::AnotherFits => "one is off, another fits",
        Key::TransientRead => "read before commit",
        Key::Before => "update before the line",
        Key::After => "update after the line",
        Key::Must => "has to be before the line",
        Key::First => "has to come before",
        Key::Nearest => "the nearest state",
        Key::Share => "share of the distance",
    }
}

/// Returns the key of a part of a lane.
fn key_of(part: LanePart) -> Key {
    match part {
        LanePart::Version { reads: 0, .. } => Key::Other,
        LanePart::Version { reads, .. } if reads > 1 => Key::Again,
        LanePart::Version { .. } => Key::Read,
        LanePart::Several { .. } => Key::Several,
    }
}

/// Returns whether a lane has a part of this key.
fn has_part(lane: &Lane<'_>, key: Key) -> bool {
    for segment in &lane.segments {
        if segment.parts.iter().any(|part| key_of(*part) == key) {
            return true;
        }
    }
    false
}

/// Returns whether a read of a lane differs from the version at the line.
fn is_off(lane: &Lane<'_>) -> bool {
    lane.difference > 0
}

/// Returns whether the version at the line is of this stretch and has a value that was read.
fn is_read_at_line(segment: &LaneSegment) -> bool {
    let part = segment.at_line.and_then(|index| segment.parts.get(index));
    matches!(part, Some(LanePart::Version { reads, .. }) if *reads > 0)
}

/// Returns whether a read of a lane has the value of the version at the line.
fn fits_at_line(lane: &Lane<'_>) -> bool {
    lane.segments.iter().any(is_read_at_line)
}

/// Returns whether a stretch begins at a box.
fn is_written(segment: &LaneSegment) -> bool {
    segment.from > 0
}

/// Returns whether a lane has the write of an update that is drawn.
fn has_write(lane: &Lane<'_>) -> bool {
    lane.segments.iter().any(is_written)
}

/// Returns whether a stretch has a gap between two parts.
fn has_gap(segment: &LaneSegment) -> bool {
    segment.parts.len() > 1
}

/// Returns whether a lane has a gap, which is where its value changes.
fn has_change(lane: &Lane<'_>) -> bool {
    lane.segments.len() > 1 || lane.segments.iter().any(has_gap)
}

/// Returns whether the picture has what a key means.
fn occurs(scene: &Scene<'_>, key: Key) -> bool {
    match key {
        Key::Read | Key::Again | Key::Other | Key::Several => {
            scene.lanes.iter().any(|lane| has_part(lane, key))
        }
        Key::Change => scene.lanes.iter().any(has_change),
        Key::Write => scene.lanes.iter().any(has_write),
        Key::Writes => scene.updates.iter().any(|update| update.reach > 0),
        Key::TransientRead => have_transient_read(&scene.lanes),
        Key::Before => scene
            .updates
            .iter()
            .any(|update| update.slot < scene.query_slot),
        Key::After => scene
            .updates
            .iter()
            .any(|update| update.slot > scene.query_slot),
        Key::Must => scene.updates.iter().any(|update| update.must),
        Key::First => !scene.arrows.is_empty(),
        Key::Nearest => !scene.lanes.is_empty(),
        Key::Off => scene
            .lanes
            .iter()
            .any(|lane| is_off(lane) && !fits_at_line(lane)),
        Key::AnotherFits => scene
            .lanes
            .iter()
            .any(|lane| is_off(lane) && fits_at_line(lane)),
        Key::Share => scene.lanes.iter().any(is_off),
    }
}

/// Returns how many keys are in a row of a picture of this width.
fn row_length(width: u32) -> u32 {
    width
        .saturating_sub(MARGIN)
        .checked_div(KEY_WIDTH)
        .unwrap_or(1)
        .max(1)
}

/// Returns how many rows the legend has in a picture of this width.
pub fn count_rows(scene: &Scene<'_>, width: u32) -> u32 {
    let mut count = 0u32;
    for key in keys() {
        if occurs(scene, *key) {
            count = count.saturating_add(1);
        }
    }
    let length = row_length(width);
    count
        .saturating_add(length.saturating_sub(1))
        .checked_div(length)
        .unwrap_or(count)
}

/// Appends a small box.
fn push_box(out: &mut String, class: &str, x: u32, y: u32) -> Result<(), AllocError> {
    let top = y.saturating_sub(10);
    write!(
        out,
        "<rect class='{class}' x='{x}' y='{top}' width='26' height='12' rx='3'/>"
    )
}

/// Appends a bar that is half full.
fn push_share(out: &mut String, x: u32, y: u32) -> Result<(), AllocError> {
    push_bar(out, "j", x, y, 26)?;
    out.push_str("</rect>")?;
    push_bar(out, "i", x, y, 13)?;
    out.push_str("</rect>")
}

/// Appends two pieces of a lane with a gap between them.
fn push_change(out: &mut String, x: u32, y: u32) -> Result<(), AllocError> {
    push_horizontal(out, "u", y, x, x.saturating_add(9))?;
    push_horizontal(out, "v", y, x.saturating_add(17), x.saturating_add(26))
}

/// Appends a line from above to below.
fn push_across(out: &mut String, class: &str, x: u32, y: u32) -> Result<(), AllocError> {
    let middle = x.saturating_add(13);
    push_vertical(out, class, middle, y.saturating_sub(9), y.saturating_add(9))
}

/// Appends the line across a lane of this class that is off, with its circle.
fn push_off(out: &mut String, class: &str, x: u32, y: u32) -> Result<(), AllocError> {
    push_horizontal(out, class, y, x, x.saturating_add(26))?;
    push_across(out, "l", x, y)?;
    let middle = x.saturating_add(13);
    write!(out, "<circle class='c' cx='{middle}' cy='{y}' r='5'/>")
}

/// Appends the sign of a key.
fn push_sign(
    out: &mut String,
    query_name: &str,
    key: Key,
    x: u32,
    y: u32,
) -> Result<(), AllocError> {
    let middle = y.saturating_sub(4);
    let right = x.saturating_add(26);
    match key {
        Key::Read => push_horizontal(out, "u", middle, x, right),
        Key::Again => push_horizontal(out, "u y", middle, x, right),
        Key::Other => push_horizontal(out, "v", middle, x, right),
        Key::Several => push_horizontal(out, "v s", middle, x, right),
        Key::Change => push_change(out, x, middle),
        Key::Write => push_across(out, "t", x, middle),
        Key::Writes => push_across(out, "d", x, middle),
        Key::Off => push_off(out, "v", x, middle),
        Key::AnotherFits => push_off(out, "u", x, middle),
        Key::TransientRead => push_horizontal(out, "u s", middle, x, right),
        Key::Before => push_box(out, "b", x, y),
        Key::After => push_box(out, "a", x, y),
        Key::Must => push_box(out, "b e", x, y),
        Key::First => push_straight(out, query_name, middle, x, x.saturating_add(24)),
        Key::Nearest => {
            let top = y.saturating_sub(12);
            push_vertical(out, "l", x.saturating_add(13), top, y.saturating_add(2))
        }
        Key::Share => push_share(out, x, y.saturating_sub(8)),
    }
}

/// Appends the keys that occur.
pub fn push_keys(out: &mut String, scene: &Scene<'_>, layout: &Layout) -> Result<(), AllocError> {
    let length = row_length(layout.width);
    let mut place = 0u32;
    for key in keys() {
        if occurs(scene, *key) {
            let column = place.checked_rem(length).unwrap_or(0);
            let row = place.checked_div(length).unwrap_or(0);
            let x = MARGIN.saturating_add(KEY_WIDTH.saturating_mul(column));
            let y = layout
                .legend_baseline()
                .saturating_add(LEGEND_ROW_HEIGHT.saturating_mul(row));
            push_sign(out, scene.query_name, *key, x, y)?;
            push_text(out, "q", x.saturating_add(34), y, words_of(*key))?;
            place = place.saturating_add(1);
        }
    }
    out.push_str("\n")
}
