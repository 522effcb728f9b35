//! The layout of a picture: the places and sizes of its parts, in pixels, and its sentences, wrapped to its width.
//!
//! The query's line is the vertical line at the place of the query in the serial order. A transient read returned a value
//! that is never committed: its writer aborted, or wrote the item again (the dirty and intermediate reads of Adya, 1999).

use crate::legend::count_rows;
use crate::scene::{Arrow, Lane, MAX_LANES, Scene};
use crate::slots::{Slots, lanes_left};
use crate::table::Table;
use crate::texts::Texts;
use crate::widths::{
    box_width, difference_width, long_difference_width, transient_read_widths, width_of,
};
use std::alloc::{AllocError, Global};

/// The width that a picture should not exceed. It does so only if the slots of the updates or a word that cannot be wrapped
/// need more; callers limit the slots by [`updates_to_keep`].
const PREFERRED_MAX_WIDTH: u32 = 1100;

/// The minimum width of a picture.
const MIN_WIDTH: u32 = 480;

/// The distance from the edge of the picture to its texts.
pub const MARGIN: u32 = 20;

/// The distance from line to line in the box of errors.
pub const ERROR_LINE_HEIGHT: u32 = 18;

/// The distance from line to line of sentences.
pub const SENTENCE_LINE_HEIGHT: u32 = 20;

/// The distance from lane to lane if no lane has a transient read or a weight.
const BASE_LANE_PITCH: u32 = 76;

/// What one line of text about transient reads adds to the distance from lane to lane.
const ONE_TRANSIENT_READ_LINE_HEIGHT: u32 = 24;

/// What two lines of text about transient reads add to the distance from lane to lane.
const TWO_TRANSIENT_READ_LINES_HEIGHT: u32 = 40;

/// What a line with the weight of an item adds to the distance from lane to lane.
const WEIGHT_LINE_HEIGHT: u32 = 16;

/// The distance from the query's line to a text about a transient read.
const AFTER_LINE: u32 = 8;

/// The distance from the dashed green line of a transient read to the text about it, with that line.
pub const TRANSIENT_READ_INDENT: u32 = 38;

/// The distance from row to row of the legend.
pub const LEGEND_ROW_HEIGHT: u32 = 22;

/// In how many lines the texts about transient reads are written.
#[derive(Clone, Copy, PartialEq, Eq)]
pub enum TransientReadLineCount {
    None,
    One,
    Two,
}

/// The places, sizes and texts of a picture.
#[derive(Drop)]
pub struct Layout {
    slots: Slots,
    pub texts: Texts,
    /// The table of the reasons, and its height.
    pub table: Table,
    table_height: u32,
    pub width: u32,
    /// The width of the boxes of updates.
    pub box_width: u32,
    /// The width of the text in front of a lane.
    pub label_width: u32,
    pub transient_read_lines: TransientReadLineCount,
    /// The left edge of the texts about transient reads.
    pub transient_left: u32,
    /// Whether the weight of some item is above 1.
    has_weights: bool,
    /// The height of the highest arrow that arches over other boxes.
    max_arch_height: u32,
    lane_count: u8,
    legend_rows: u32,
    /// The width of the widest difference, which is written next to the query's line.
    difference_width: u32,
    /// The width of the widest text that has a difference and the weight of its item.
    long_difference_width: u32,
}

/// The maximum width of each kind of text over the lanes.
#[derive(Clone, Copy)]
struct MaxWidths {
    difference: u32,
    long_difference: u32,
    /// The width of the text about transient reads, in one line.
    transient_read: u32,
    /// The width of the same text, in two lines.
    folded_transient_read: u32,
}

impl MaxWidths {
    /// Raises each maximum to the width of this lane's text.
    fn include(&mut self, lane: &Lane<'_>) {
        let transient_read = transient_read_widths(&lane.transient_reads);
        self.difference = self.difference.max(difference_width(lane));
        self.long_difference = self.long_difference.max(long_difference_width(lane));
        self.transient_read = self.transient_read.max(
            transient_read
                .value_width
                .saturating_add(transient_read.reason_width),
        );
        self.folded_transient_read = self.folded_transient_read.max(
            transient_read.value_width.max(transient_read.reason_width),
        );
    }
}

/// Returns the maximum width of each kind of text over these lanes.
fn max_widths(lanes: &[Lane<'_>]) -> MaxWidths {
    let mut widths = MaxWidths {
        difference: 0,
        long_difference: 0,
        transient_read: 0,
        folded_transient_read: 0,
    };
    for lane in lanes {
        widths.include(lane);
    }
    widths.long_difference = widths.long_difference.max(widths.difference);
    widths
}

/// Returns the height of an arrow between two slots, which grows with the number of slots between them, or 0 if the slots
/// are adjacent.
pub fn arch_height(from: u8, to: u8) -> u32 {
    let span = to.saturating_sub(from);
    if span < 2 {
        return 0;
    }
    u32::from(span).saturating_mul(8).saturating_add(10).min(90)
}

/// Returns whether an arrow leads from a box to the next box. Between the two there may be the slot of the query.
pub fn is_straight(from: u8, to: u8, query_slot: u8) -> bool {
    let span = to.saturating_sub(from);
    span < 2 || (span == 2 && to == query_slot.saturating_add(1))
}

/// Returns the height of the highest arrow that arches over other boxes.
fn max_arch_height(arrows: &[Arrow], query_slot: u8) -> u32 {
    let mut highest = 0u32;
    for arrow in arrows {
        if !is_straight(arrow.from, arrow.to, query_slot) {
            highest = highest.max(arch_height(arrow.from, arrow.to));
        }
    }
    highest
}

/// Returns whether a text of this width fits between `x` and the preferred maximum width.
fn fits_preferred_width(x: u32, width: u32) -> bool {
    x.saturating_add(width).saturating_add(30) <= PREFERRED_MAX_WIDTH
}

/// Returns the width that the differences need to the right of the query's line, which is at `x`, or 0 if they are written
/// to its left.
fn width_right_of_line(x: u32, widths: MaxWidths) -> u32 {
    if fits_preferred_width(x, widths.long_difference) {
        widths.long_difference
    } else if fits_preferred_width(x, widths.difference) {
        widths.difference
    } else {
        0
    }
}

/// Returns the left edge of the texts about transient reads: after the query's line, so that none crosses it, or if there is
/// no space, at the start of the lanes.
fn transient_left(query_slot: u8, slots: &Slots, widths: MaxWidths) -> u32 {
    let left = slots.x(query_slot).saturating_add(AFTER_LINE);
    let text = TRANSIENT_READ_INDENT.saturating_add(widths.folded_transient_read);
    if left.saturating_add(text).saturating_add(MARGIN) <= PREFERRED_MAX_WIDTH {
        left
    } else {
        slots.x(0)
    }
}

/// Returns half the width of the name of the query, which is centred below the query's line.
fn half_name_width(query_name: &str) -> u32 {
    width_of(query_name.len()) / 2
}

/// Returns the width that the lanes, the texts about transient reads, the differences and the name of the query need, at
/// least [`MIN_WIDTH`]. The name alone makes no picture wider than [`PREFERRED_MAX_WIDTH`], since [`Layout::name_x`] shifts
/// it to the left.
fn needed_width(scene: &Scene<'_>, slots: &Slots, widths: MaxWidths) -> u32 {
    let x = slots.x(scene.query_slot);
    let differences = x
        .saturating_add(width_right_of_line(x, widths))
        .saturating_add(30);
    let name = x
        .saturating_add(half_name_width(scene.query_name))
        .saturating_add(30)
        .min(PREFERRED_MAX_WIDTH);
    let transient_reads = match widths.folded_transient_read {
        0 => 0,
        width => transient_left(scene.query_slot, slots, widths)
            .saturating_add(TRANSIENT_READ_INDENT)
            .saturating_add(width),
    };
    slots
        .end()
        .max(transient_reads)
        .saturating_add(MARGIN)
        .max(differences)
        .max(name)
        .max(MIN_WIDTH)
}

/// Returns in how many lines the texts about transient reads, with this left edge, are written in a picture of this width.
fn transient_read_line_count(left: u32, widths: MaxWidths, width: u32) -> TransientReadLineCount {
    let end = left
        .saturating_add(TRANSIENT_READ_INDENT)
        .saturating_add(widths.transient_read)
        .saturating_add(MARGIN);
    if widths.transient_read == 0 {
        TransientReadLineCount::None
    } else if end <= width {
        TransientReadLineCount::One
    } else {
        TransientReadLineCount::Two
    }
}

impl Layout {
    /// Lays out a scene.
    pub fn of(alloc: Global, scene: &Scene<'_>) -> Result<Layout, AllocError> {
        let mut slots = Slots::of(alloc, scene)?;
        let widths = max_widths(&scene.lanes);
        let table = Table::of(alloc, &scene.rows)?;
        let width = needed_width(scene, &slots, widths).max(
            table.width().saturating_add(2 * MARGIN),
        );
        let transient_left = transient_left(scene.query_slot, &slots, widths);
        slots.extend_to(width.saturating_sub(MARGIN));
        let texts = Texts::of(alloc, scene, width)?;
        Ok(Layout {
            width,
            box_width: box_width(&scene.updates),
            label_width: lanes_left(&scene.lanes).saturating_sub(40),
            transient_read_lines: transient_read_line_count(transient_left, widths, width),
            transient_left,
            has_weights: scene.lanes.iter().any(|lane| lane.weight > 1),
            max_arch_height: max_arch_height(&scene.arrows, scene.query_slot),
            lane_count: scene.lanes.len().min(MAX_LANES) as u8,
            legend_rows: count_rows(scene, width),
            difference_width: widths.difference,
            long_difference_width: widths.long_difference,
            table_height: table.height(&scene.rows),
            table,
            slots,
            texts,
        })
    }

    /// Returns the middle of a slot, from the left edge of the picture.
    pub fn x(&self, slot: u8) -> u32 {
        self.slots.x(slot)
    }

    /// Returns the right end of the lanes.
    pub fn lanes_end(&self) -> u32 {
        self.slots.end()
    }

    /// Returns the middle of the name of the query: the x coordinate of the query's line, or less if the name would
    /// otherwise pass the right edge.
    pub fn name_x(&self, query_name: &str, query_slot: u8) -> u32 {
        let last = self
            .width
            .saturating_sub(MARGIN.saturating_add(half_name_width(query_name)));
        self.x(query_slot).min(last)
    }

    /// Returns the height of the heading.
    pub fn heading_height(&self) -> u32 {
        lines_height(&self.texts.heading, SENTENCE_LINE_HEIGHT)
    }

    /// Returns the upper edge of the boxes.
    pub fn boxes_top(&self) -> u32 {
        self.max_arch_height
            .saturating_add(34)
            .saturating_add(self.heading_height())
            .saturating_add(lines_height(&self.texts.sentences, SENTENCE_LINE_HEIGHT))
    }

    /// Returns the upper edge of the lanes.
    fn lanes_top(&self) -> u32 {
        self.boxes_top().saturating_add(42)
    }

    /// Returns the distance from lane to lane.
    fn pitch(&self) -> u32 {
        let transient_reads = match self.transient_read_lines {
            TransientReadLineCount::None => 0,
            TransientReadLineCount::One => ONE_TRANSIENT_READ_LINE_HEIGHT,
            TransientReadLineCount::Two => TWO_TRANSIENT_READ_LINES_HEIGHT,
        };
        let weights = if self.has_weights {
            WEIGHT_LINE_HEIGHT
        } else {
            0
        };
        BASE_LANE_PITCH
            .saturating_add(transient_reads)
            .saturating_add(weights)
    }

    /// Returns the middle of a lane.
    pub fn y(&self, lane: u8) -> u32 {
        self.lanes_top()
            .saturating_add(36)
            .saturating_add(self.pitch().saturating_mul(u32::from(lane)))
    }

    /// Returns the lower edge of the lanes.
    pub fn lanes_bottom(&self) -> u32 {
        self.lanes_top()
            .saturating_add(8)
            .saturating_add(self.pitch().saturating_mul(u32::from(self.lane_count)))
    }

    /// Returns whether the differences with their weights fit between the query's line and the preferred maximum width.
    pub fn has_space_for_terms(&self, query_slot: u8) -> bool {
        fits_preferred_width(self.x(query_slot), self.long_difference_width)
    }

    /// Returns whether the differences are written to the left of the query's line, because they do not fit to its right
    /// even without weights.
    pub fn are_differences_left_of_line(&self, query_slot: u8) -> bool {
        let x = self.x(query_slot);
        !fits_preferred_width(x, self.long_difference_width)
            && !fits_preferred_width(x, self.difference_width)
    }

    /// Returns the height of the picture above the origin, where the box that lists the lines with errors is, or 0 if no
    /// line has an error.
    pub fn height_above_origin(&self) -> u32 {
        if self.texts.errors.is_empty() {
            return 0;
        }
        let count = self.texts.errors.len().min(100) as u32;
        count.saturating_mul(ERROR_LINE_HEIGHT).saturating_add(20)
    }

    /// Returns the baseline of the first row of the table.
    pub fn table_baseline(&self) -> u32 {
        self.lanes_bottom()
            .saturating_add(74)
            .saturating_add(lines_height(&self.texts.omissions, SENTENCE_LINE_HEIGHT))
    }

    /// Returns the baseline of the first row of the legend.
    pub fn legend_baseline(&self) -> u32 {
        self.table_baseline()
            .saturating_add(4)
            .saturating_add(self.table_height)
    }

    /// Returns the height of the picture below the origin: all but the box of errors.
    pub fn height_below_origin(&self) -> u32 {
        self.legend_baseline()
            .saturating_add(LEGEND_ROW_HEIGHT.saturating_mul(self.legend_rows))
    }
}

/// Returns the height of lines of text, given the distance from line to line.
fn lines_height(lines: &[String], line_height: u32) -> u32 {
    (lines.len().min(1000) as u32).saturating_mul(line_height)
}

/// Estimates, from the average width of a slot in this scene, how many updates fit into a picture of the preferred maximum
/// width. Returns `None` if all fit.
pub fn updates_to_keep(alloc: Global, scene: &Scene<'_>) -> Result<Option<usize>, AllocError> {
    let count = scene.updates.len();
    let slots = Slots::of(alloc, scene)?;
    let end = slots.end().saturating_add(MARGIN);
    if end <= PREFERRED_MAX_WIDTH {
        return Ok(None);
    }
    let space = PREFERRED_MAX_WIDTH.saturating_sub(slots.x(0).saturating_add(MARGIN)) as usize;
    let used = end.saturating_sub(slots.x(0)) as usize;
    let fitting = count.saturating_mul(space).checked_div(used).unwrap_or(0);
    Ok(Some(fitting.min(count.saturating_sub(1))))
}
