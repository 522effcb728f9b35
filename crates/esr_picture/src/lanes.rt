//! The stretches of a lane: from each update that is drawn and wrote the item to the next one.
//!
//! A stretch has one version or several. Of several, the one at the line is drawn, the one of the update with which the stretch
//! begins if it was read, and a few others whose value was read, so that green always is a value that was read; the rest is
//! counted.

use crate::arrow_reduction::Slots;
use esr_cert::Chain;
use esr_svg::{LanePart, LaneReads, LaneSegment, ReadValue};
use esr_text::letters_of;
use std::alloc::{AllocError, Global};

/// The maximum number of letters of the values that were read and are drawn within a stretch of several, if there are two.
const MAX_LETTERS: usize = 40;

/// The versions of an item.
#[derive(Drop)]
pub struct LaneVersions<'a> {
    pub chain: &'a Chain,
    pub values: Vec<i64>,
    /// The number of reads of each value.
    pub reads: Vec<u64>,
    /// For each version whether the query read this version, and not only the same value of another one.
    pub seen: Vec<bool>,
    /// The version at the line.
    pub at_line: usize,
    /// The maximum number of versions with a value that was read that are drawn within a stretch of several.
    pub reads_drawn: usize,
}

/// A stretch: its first slot, its first version, and the one after its last.
#[derive(Clone, Copy)]
struct Range {
    from: u8,
    start: usize,
    end: usize,
}

/// Returns how many reads had a value.
fn count_of(counts: &[(i64, u64)], value: i64) -> u64 {
    for (read, count) in counts {
        if *read == value {
            return *count;
        }
    }
    0
}

/// Returns how many reads of an item had each of some values.
pub fn reads_of_values(
    alloc: Global,
    values: &[i64],
    counts: &[(i64, u64)],
) -> Result<Vec<u64>, AllocError> {
    let mut reads = Vec::new(alloc);
    for value in values {
        reads.push(count_of(counts, *value))?;
    }
    Ok(reads)
}

/// Returns the values that were read of an item of this weight, without repetitions, with their differences from the value at
/// the line, and the number of reads.
pub fn reads_in(
    alloc: Global,
    counts: &[(i64, u64)],
    at_line: i64,
    weight: u64,
) -> Result<LaneReads, AllocError> {
    let mut values = Vec::new(alloc);
    let mut count = 0u64;
    for (value, times) in counts {
        values.push(ReadValue {
            value: *value,
            count: *times,
            off: value.abs_diff(at_line).saturating_mul(weight),
        })?;
        count = count.saturating_add(*times);
    }
    Ok(LaneReads { values, count })
}

/// Returns the stretches of a lane.
fn ranges_of(alloc: Global, chain: &Chain, slots: &Slots) -> Result<Vec<Range>, AllocError> {
    let mut ranges = Vec::new(alloc);
    let mut last = Range {
        from: 0,
        start: 0,
        end: 1,
    };
    for writer in &chain.writers {
        let slot = slots.of(*writer);
        if slot != 0 {
            ranges.push(last)?;
            last.from = slot;
            last.start = last.end;
        }
        last.end = last.end.saturating_add(1);
    }
    ranges.push(last)?;
    Ok(ranges)
}

impl LaneVersions<'_> {
    /// Returns a version as a part.
    fn part(&self, version: usize) -> LanePart {
        LanePart::Version {
            value: self.values.get(version).copied().unwrap_or(0),
            reads: self.reads.get(version).copied().unwrap_or(0),
        }
    }

    /// Returns the value at the line.
    pub fn value_at_line(&self) -> i64 {
        self.values.get(self.at_line).copied().unwrap_or(0)
    }

    /// Returns whether a version has a value that was read.
    fn fits(&self, version: usize) -> bool {
        self.reads.get(version).is_some_and(|reads| *reads > 0)
    }

    /// Returns whether the query read a version, and not only the same value of another one.
    fn is_seen(&self, version: usize) -> bool {
        self.seen.get(version) == Some(&true)
    }

    /// Returns whether a version of a stretch is drawn even if there is little space: the one at the line, and one that was
    /// read and that a drawn update wrote.
    fn is_due(&self, range: Range, version: usize) -> bool {
        let is_of_update = range.from > 0 && version == range.start;
        version == self.at_line || (is_of_update && self.is_seen(version))
    }

    /// Returns the versions of a stretch that are drawn even if there is little space.
    fn due(&self, alloc: Global, range: Range) -> Result<Vec<usize>, AllocError> {
        let mut due = Vec::new(alloc);
        for version in range.start..range.end {
            if self.is_due(range, version) {
                due.push(version)?;
            }
        }
        Ok(due)
    }

    /// Returns the rank of a version among those whose value was read: less for one that was read itself, and then for one
    /// that is closer to the line.
    fn rank(&self, version: usize) -> (bool, usize, usize) {
        let is_seen = self.is_seen(version);
        (!is_seen, version.abs_diff(self.at_line), version)
    }

    /// Returns the other versions of a stretch whose value was read, those with the least rank first.
    fn candidates(
        &self,
        alloc: Global,
        range: Range,
    ) -> Result<Vec<(bool, usize, usize)>, AllocError> {
        let mut ranks = Vec::new(alloc);
        for version in range.start..range.end {
            if self.fits(version) && !self.is_due(range, version) {
                ranks.push(self.rank(version))?;
            }
        }
        ranks.sort_unstable();
        Ok(ranks)
    }

    /// Returns the letters of the value of a version.
    fn letters(&self, version: usize) -> usize {
        letters_of(self.values.get(version).copied().unwrap_or(0))
    }

    /// Returns the versions of a stretch that are drawn, ascending.
    fn drawn(&self, alloc: Global, range: Range) -> Result<Vec<usize>, AllocError> {
        let mut drawn = self.due(alloc, range)?;
        let has_line = range.start <= self.at_line && self.at_line < range.end;
        let upper_bound = self
            .reads_drawn
            .saturating_add(if has_line { 1 } else { 0 });
        let mut letters = 0usize;
        for (_, _, version) in &self.candidates(alloc, range)? {
            letters = letters.saturating_add(self.letters(*version));
            let is_first = letters == self.letters(*version);
            if drawn.len() < upper_bound && (is_first || letters <= MAX_LETTERS) {
                drawn.push(*version)?;
            }
        }
        drawn.sort_unstable();
        Ok(drawn)
    }

    /// Adds the versions from `start` to `end` as one part, if there are any.
    fn push_hidden(
        &self,
        parts: &mut Vec<LanePart>,
        start: usize,
        end: usize,
    ) -> Result<(), AllocError> {
        let versions = end.saturating_sub(start);
        if versions == 0 {
            return Ok(());
        }
        if versions == 1 {
            parts.push(self.part(start))?;
            return Ok(());
        }
        let fits = self.reads.get(start..end).unwrap_or(&[]);
        let fitting = fits.iter().filter(|reads| **reads > 0).count();
        parts.push(LanePart::Several { versions, fitting })?;
        Ok(())
    }

    /// Returns a stretch.
    fn segment(&self, alloc: Global, range: Range) -> Result<LaneSegment, AllocError> {
        let drawn = self.drawn(alloc, range)?;
        let mut parts = Vec::new(alloc);
        let mut at_line = None;
        let mut next = range.start;
        for version in &drawn {
            self.push_hidden(&mut parts, next, *version)?;
            if *version == self.at_line {
                at_line = Some(parts.len());
            }
            parts.push(self.part(*version))?;
            next = version.saturating_add(1);
        }
        self.push_hidden(&mut parts, next, range.end)?;
        Ok(LaneSegment {
            from: range.from,
            parts,
            at_line,
        })
    }

    /// Returns the stretches of the lane.
    pub fn segments(&self, alloc: Global, slots: &Slots) -> Result<Vec<LaneSegment>, AllocError> {
        let mut segments = Vec::new(alloc);
        for range in &ranges_of(alloc, self.chain, slots)? {
            segments.push(self.segment(alloc, *range)?)?;
        }
        Ok(segments)
    }
}

/// Returns the values of the versions that are drawn, each with its version.
pub fn versions_drawn(
    alloc: Global,
    segments: &[LaneSegment],
) -> Result<Vec<(i64, usize)>, AllocError> {
    let mut drawn = Vec::new(alloc);
    let mut version = 0usize;
    for segment in segments {
        version = push_versions(&mut drawn, &segment.parts, version)?;
    }
    Ok(drawn)
}

/// Adds the versions among some parts, of which the first begins with `version`, and returns the version after them.
fn push_versions(
    drawn: &mut Vec<(i64, usize)>,
    parts: &[LanePart],
    version: usize,
) -> Result<usize, AllocError> {
    let mut next = version;
    for part in parts {
        match part {
            LanePart::Version { value, .. } => {
                drawn.push((*value, next))?;
                next = next.saturating_add(1);
            }
            LanePart::Several { versions, .. } => next = next.saturating_add(*versions),
        }
    }
    Ok(next)
}
