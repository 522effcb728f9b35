//! The legend: what each sign means, of those that occur, in rows as wide as the picture.

use crate::bands::band_class;
use crate::elements::{push_circle, push_continued, push_cross, push_rect, push_square, push_text};
use crate::layout::{Band, Layout, MARGIN, charges_between};
use crate::limits::has_bar;
use esr_outcomes::TxnOutcome;
use esr_timeline_data::{Action, Lane, Scene};
use std::alloc::AllocError;

/// A symbol that the legend of a timeline explains.
#[derive(Clone, Copy, PartialEq, Eq)]
enum Key {
    Read,
    Off,
    Write,
    Blocked,
    Charge,
    EarlyRead,
    Limit,
    InState,
    Outside,
    Open,
    Continued,
}

static KEYS: [Key; 11] = [
    Key::Read,
    Key::Off,
    Key::Write,
    Key::Blocked,
    Key::Charge,
    Key::EarlyRead,
    Key::Limit,
    Key::InState,
    Key::Outside,
    Key::Open,
    Key::Continued,
];

fn keys() -> &'static [Key] {
    &KEYS
}

/// The width of a key with its words.
const KEY_WIDTH: u32 = 234;

/// From row to row.
const ROW: u32 = 20;

/// Returns what a key means.
fn words_of(key: Key) -> &'static str {
    match key {
        Key::Read => "read",
        Key::Off => "read that is off",
        Key::Write => "write",
        Key::Blocked => "refused, not executed",
        Key::Charge => "charge for a change",
        Key::EarlyRead => "charge: read before commit",
        Key::Limit => "used part of the limit",
        Key::InState => "in the nearest state",
        Key::Outside => "not in the nearest state",
        Key::Open => "aborted or still active",
        Key::Continued => "continues further down",
    }
}

/// Returns whether an action is of a kind.
fn is_of(action: Action, key: Key) -> bool {
    matches!(
        (key, action),
        (Key::Read, Action::Read { nearest: None, .. })
            | (
                Key::Off,
                Action::Read {
                    nearest: Some(_),
                    ..
                }
            )
            | (Key::Write, Action::Write { .. })
            | (Key::Blocked, Action::Blocked { .. })
    )
}

/// Returns whether a band has an action of a kind.
fn has_action(band: &Band<'_>, key: Key) -> bool {
    band.columns
        .iter()
        .any(|column| is_of(column.mark.action, key))
}

/// Returns whether a band has the arrow of a charge of a kind.
fn has_charge(scene: &Scene<'_>, band: &Band<'_>, key: Key) -> bool {
    charges_between(&scene.arrows, band.first_place(), band.end_place())
        .iter()
        .any(|arrow| arrow.is_early_read() == (key == Key::EarlyRead))
}

/// Returns whether a lane of a band continues in the next one.
fn has_continued(band: &Band<'_>) -> bool {
    band.spans
        .iter()
        .any(|span| span.is_drawn && !span.has_outcome)
}

/// Returns whether the bar of the limit of a lane is filled.
fn is_filled(lane: &Lane<'_>) -> bool {
    has_bar(lane) && lane.charged > 0
}

/// Returns whether a lane is of a committed update on this side of the nearest placement.
fn has_side(lane: &Lane<'_>, is_before: bool) -> bool {
    let is_committed = lane.outcome == TxnOutcome::Committed;
    is_committed && !lane.is_query() && lane.in_state == Some(is_before)
}

/// Returns whether a key occurs.
fn occurs(scene: &Scene<'_>, layout: &Layout<'_>, key: Key) -> bool {
    match key {
        Key::Read | Key::Off | Key::Write | Key::Blocked => {
            layout.bands.iter().any(|band| has_action(band, key))
        }
        Key::Charge | Key::EarlyRead => layout
            .bands
            .iter()
            .any(|band| has_charge(scene, band, key)),
        Key::Limit => scene.lanes.iter().any(is_filled),
        Key::InState => scene.lanes.iter().any(|lane| has_side(lane, true)),
        Key::Outside => scene.lanes.iter().any(|lane| has_side(lane, false)),
        Key::Open => scene
            .lanes
            .iter()
            .any(|lane| lane.outcome != TxnOutcome::Committed),
        Key::Continued => layout.bands.iter().any(has_continued),
    }
}

/// Returns how many keys there are in a row of a picture of this width.
fn row_length(width: u32) -> u32 {
    width
        .saturating_sub(MARGIN)
        .checked_div(KEY_WIDTH)
        .unwrap_or(1)
        .max(1)
}

/// Returns how many keys occur.
fn count_keys(scene: &Scene<'_>, layout: &Layout<'_>) -> u32 {
    let mut count = 0u32;
    for key in keys() {
        if occurs(scene, layout, *key) {
            count = count.saturating_add(1);
        }
    }
    count
}

/// Returns the height of the legend of a picture of this width.
pub fn legend_height(scene: &Scene<'_>, layout: &Layout<'_>, width: u32) -> u32 {
    let length = row_length(width);
    let count = count_keys(scene, layout);
    let rows = count
        .saturating_add(length.saturating_sub(1))
        .checked_div(length)
        .unwrap_or(count);
    rows.saturating_mul(ROW)
}

/// Appends the arrow of a charge.
fn push_arrow(out: &mut String, class: &str, x: u32, y: u32, tip: &str) -> Result<(), AllocError> {
    let end = x.saturating_add(24);
    write!(
        out,
        "<path class='{class}' marker-end='url(#{tip})' d='M{x} {y}H{end}'/>"
    )
}

/// Returns the class of a lane that is not of a committed transaction, or nothing.
fn open_class(lanes: &[Lane<'_>]) -> &'static str {
    for lane in lanes {
        if lane.outcome != TxnOutcome::Committed {
            return band_class(lane);
        }
    }
    ""
}

/// Appends the sign of a key.
fn push_sign(
    out: &mut String,
    scene: &Scene<'_>,
    key: Key,
    (x, y): (u32, u32),
    tip: &str,
) -> Result<(), AllocError> {
    let middle = x.saturating_add(13);
    let height = y.saturating_sub(4);
    let top = y.saturating_sub(9);
    match key {
        Key::Read => push_circle(out, "mr", middle, height),
        Key::Off => push_circle(out, "mo", middle, height),
        Key::Write => push_square(out, middle, height),
        Key::Blocked => push_cross(out, middle, height),
        Key::Charge => push_arrow(out, "ar", x, height, tip),
        Key::EarlyRead => push_arrow(out, "ar er", x, height, tip),
        Key::Limit => {
            push_rect(out, "lu", x, height, 26, 5)?;
            push_rect(out, "lf", x, top, 26, 10)
        }
        Key::InState => push_rect(out, "bu", x, top, 26, 10),
        Key::Outside => push_rect(out, "bo", x, top, 26, 10),
        Key::Open => push_rect(out, open_class(&scene.lanes), x, top, 26, 10),
        Key::Continued => {
            push_rect(out, "bu", x, top, 15, 10)?;
            push_continued(out, x.saturating_add(17), height)
        }
    }
}

/// Appends the legend of a picture of this width.
pub fn push_legend(
    out: &mut String,
    scene: &Scene<'_>,
    layout: &Layout<'_>,
    width: u32,
    y: u32,
    tip: &str,
) -> Result<(), AllocError> {
    let length = row_length(width);
    let mut place = 0u32;
    for key in keys() {
        if occurs(scene, layout, *key) {
            let column = place.checked_rem(length).unwrap_or(0);
            let row = place.checked_div(length).unwrap_or(0);
            let x = MARGIN.saturating_add(KEY_WIDTH.saturating_mul(column));
            let low = y.saturating_add(ROW.saturating_mul(row));
            push_sign(out, scene, *key, (x, low), tip)?;
            push_text(out, "gy", x.saturating_add(34), low, words_of(*key))?;
            place = place.saturating_add(1);
        }
    }
    Ok(())
}
