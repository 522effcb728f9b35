//! The width of each text, which is known without measuring: names and numbers are in a font of one width, none wider
//! than 0.61 of its height, and sentences in one whose letters are on average not wider than 0.64 of it.

use crate::scene::{
    Lane, LanePart, LaneReads, LaneSegment, ReadValue, SameValue, TransientReads, Update,
};
use esr_text::{letters_of, number_letters};

/// Returns the width of letters of a name, a value or a sentence.
pub fn width_of(letters: usize) -> u32 {
    (letters.min(4000) as u32).saturating_mul(8)
}

/// Returns the letters of the longest of some values.
fn widest_value(values: &[ReadValue]) -> usize {
    let mut widest = 0usize;
    for read in values {
        widest = widest.max(letters_of(read.value));
    }
    widest
}

/// Returns the letters of the second line on the reads of an item.
fn more_letters(read: &LaneReads) -> usize {
    let more = read.values.len().saturating_sub(1);
    if more > 1 {
        number_letters(more as u64).saturating_add(16)
    } else {
        number_letters(read.count).saturating_add(6)
    }
}

/// Returns the width of the text in front of a lane.
pub fn label_width(lane: &Lane<'_>) -> u32 {
    let read = widest_value(&lane.read.values).saturating_add(5);
    let weight = if lane.weight > 1 {
        number_letters(lane.weight).saturating_add(7)
    } else {
        0
    };
    let letters = lane.name.len().max(read).max(weight);
    width_of(letters.max(more_letters(&lane.read)).max(12))
}

/// Returns the letters of `, 2 reads` with the number of reads, if there is more than one.
fn times_letters(reads: u64) -> usize {
    if reads > 1 {
        number_letters(reads).saturating_add(8)
    } else {
        0
    }
}

/// Returns the letters of a part of a stretch.
fn part_letters(part: LanePart) -> usize {
    match part {
        LanePart::Version { value, reads } => {
            letters_of(value).saturating_add(times_letters(reads))
        }
        LanePart::Several { versions, fitting } => {
            let count = number_letters(versions as u64).saturating_add(7);
            if fitting > 0 {
                count
                    .saturating_add(number_letters(fitting as u64))
                    .saturating_add(8)
            } else {
                count
            }
        }
    }
}

/// Returns the width of the text of a part of a stretch.
pub fn part_text_width(part: LanePart) -> u32 {
    width_of(part_letters(part))
}

/// Returns the width that a part of a stretch needs.
pub fn part_width(part: LanePart) -> u32 {
    part_text_width(part).saturating_add(24)
}

/// Returns the width that some parts need.
fn parts_width(parts: &[LanePart]) -> u32 {
    let mut width = 0u32;
    for part in parts {
        width = width.saturating_add(part_width(*part));
    }
    width
}

/// From the line to the start of the part that it crosses.
pub const BEFORE_LINE: u32 = 12;

/// Returns the width that a stretch needs from its start to the line and from the line to its end, or to its end alone.
///
/// The text of the first part is in front of the line, that of another part after it.
pub fn segment_widths(segment: &LaneSegment) -> (u32, Option<u32>) {
    let Some(index) = segment.at_line else {
        return (parts_width(&segment.parts), None);
    };
    let split = index.max(1).min(segment.parts.len());
    let before = parts_width(segment.parts.get(..split).unwrap_or(&[]));
    let after = parts_width(segment.parts.get(split..).unwrap_or(&[]));
    (
        before.saturating_add(BEFORE_LINE),
        Some(after.saturating_add(BEFORE_LINE)),
    )
}

/// Returns the width of the boxes of updates, which fits the longest name.
pub fn box_width(updates: &[Update<'_>]) -> u32 {
    let mut letters = 0usize;
    for update in updates {
        letters = letters.max(update.name.len());
    }
    width_of(letters).saturating_add(20)
}

/// Returns the width of the text `off by` with the difference of a lane.
pub fn difference_width(lane: &Lane<'_>) -> u32 {
    width_of(number_letters(lane.difference).saturating_add(7))
}

/// The maximum number of differences of reads that are shown one by one.
const MAX_TERMS: u64 = 3;

/// Returns whether the differences of the reads of a lane that are off are shown one by one: two or three.
pub fn has_terms(lane: &Lane<'_>) -> bool {
    let mut count = 0u64;
    for read in &lane.read.values {
        if read.off > 0 {
            count = count.saturating_add(read.count);
        }
    }
    count > 1 && count <= MAX_TERMS
}

/// Returns whether a lane has a longer text on its difference, with a weight or with several terms.
pub fn has_long_form(lane: &Lane<'_>) -> bool {
    lane.difference > 0 && (lane.weight > 1 || has_terms(lane))
}

/// Returns the letters of the differences of the reads of a lane that are off: of `3 + 7`.
fn terms_letters(lane: &Lane<'_>) -> usize {
    let mut letters = 0usize;
    for read in &lane.read.values {
        if read.off > 0 {
            let difference = read.off.checked_div(lane.weight).unwrap_or(0);
            let term = number_letters(difference).saturating_add(3);
            letters = letters.saturating_add(term.saturating_mul(
                read.count.min(MAX_TERMS) as usize,
            ));
        }
    }
    letters
}

/// Returns the width of this text with its terms and its weight, as `off by (3 + 7) x 4 = 40`, or 0 if it has neither.
pub fn long_difference_width(lane: &Lane<'_>) -> u32 {
    if !has_long_form(lane) {
        return 0;
    }
    let difference = lane.difference.checked_div(lane.weight).unwrap_or(0);
    let terms = if has_terms(lane) {
        terms_letters(lane).saturating_add(2)
    } else {
        number_letters(difference)
    };
    let factor = number_letters(lane.weight).saturating_add(6);
    difference_width(lane).saturating_add(width_of(terms.saturating_add(factor)))
}

/// The widths of the two parts of the text about a transient read.
#[derive(Clone, Copy)]
pub struct TransientReadWidths {
    pub value_width: u32,
    pub reason_width: u32,
}

/// Returns the maximum number of letters of the end of the text about a transient read.
fn ending_letters(same: Option<SameValue<'_>>, more: usize) -> usize {
    match same {
        Some(SameValue::Opening) => 27,
        Some(SameValue::Update(update)) => update.len().saturating_add(17),
        None if more > 0 => number_letters(more as u64).saturating_add(11),
        None => 0,
    }
}

/// Returns the widths of the text about the transient reads of a lane.
pub fn transient_read_widths(transient_reads: &TransientReads<'_>) -> TransientReadWidths {
    let Some(transient_read) = transient_reads.first else {
        return TransientReadWidths {
            value_width: 0,
            reason_width: 0,
        };
    };
    let ending = ending_letters(transient_read.same, transient_reads.more);
    let value = letters_of(transient_read.value)
        .saturating_add(transient_read.writer.len())
        .saturating_add(10);
    let reason = transient_read
        .reason
        .len()
        .saturating_add(ending)
        .saturating_add(7);
    TransientReadWidths {
        value_width: width_of(value),
        reason_width: width_of(reason),
    }
}
