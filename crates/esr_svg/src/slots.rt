//! The place of each slot. Every gap between two slots is as wide as the boxes of the updates and the parts of the lanes
//! need, so a picture of short names and values is narrow, and no text meets another.

use crate::scene::{Lane, LaneSegment, Scene};
use crate::widths::{BEFORE_LINE, box_width, label_width, segment_widths};
use std::alloc::{AllocError, Global};

/// The least gap between two boxes.
const GAP: u32 = 24;

/// The least width from one slot to a later one.
#[derive(Clone, Copy)]
struct Need {
    from: u8,
    to: u8,
    width: u32,
}

/// The place of each slot, from that before all updates to that at which the lanes end.
#[derive(Drop)]
pub struct Slots {
    places: Vec<u32>,
}

/// Returns the x coordinate at which the lanes begin: after the widest text in front of one.
pub fn lanes_left(lanes: &[Lane<'_>]) -> u32 {
    let mut widest = 96u32;
    for lane in lanes {
        widest = widest.max(label_width(lane));
    }
    widest.saturating_add(40)
}

/// Returns the slot at which the stretch at an index ends.
pub fn slot_after(segments: &[LaneSegment], index: usize, last: u8) -> u8 {
    match segments.get(index.saturating_add(1)) {
        Some(next) => next.from,
        None => last,
    }
}

/// Adds the widths that a stretch needs.
fn push_needs(
    needs: &mut Vec<Need>,
    segment: &LaneSegment,
    to: u8,
    query_slot: u8,
) -> Result<(), AllocError> {
    let from = segment.from;
    match segment_widths(segment) {
        (width, None) => needs.push(Need { from, to, width })?,
        (before, Some(after)) => {
            needs.push(Need {
                from,
                to: query_slot,
                width: before,
            })?;
            needs.push(Need {
                from: query_slot,
                to,
                width: after,
            })?;
        }
    }
    Ok(())
}

/// Adds the widths that the stretches of a lane need.
fn push_lane_needs(
    needs: &mut Vec<Need>,
    lane: &Lane<'_>,
    query_slot: u8,
    last: u8,
) -> Result<(), AllocError> {
    let mut index = 0usize;
    for segment in &lane.segments {
        let to = slot_after(&lane.segments, index, last);
        push_needs(needs, segment, to, query_slot)?;
        index = index.saturating_add(1);
    }
    Ok(())
}

/// Returns the widths that the stretches of all lanes need.
fn needs_of(alloc: Global, scene: &Scene<'_>) -> Result<Vec<Need>, AllocError> {
    let mut needs = Vec::new(alloc);
    for lane in &scene.lanes {
        push_lane_needs(&mut needs, lane, scene.query_slot, scene.last_slot())?;
    }
    Ok(needs)
}

/// Returns half the width of the box or the line at a slot.
fn half_of(slot: u8, query_slot: u8, last: u8, width: u32) -> u32 {
    if slot == 0 || slot == last {
        0
    } else if slot == query_slot {
        BEFORE_LINE
    } else {
        width / 2
    }
}

/// Returns the first place for a slot that leaves enough space to the earlier ones.
fn place_of(places: &[u32], needs: &[Need], slot: u8, gap: u32) -> u32 {
    let mut place = places.last().copied().unwrap_or(0).saturating_add(gap);
    for need in needs {
        if need.to == slot
            && let Some(from) = places.get(need.from as usize)
        {
            place = place.max(from.saturating_add(need.width));
        }
    }
    place
}

impl Slots {
    /// Returns the places of the slots of a scene.
    pub fn of(alloc: Global, scene: &Scene<'_>) -> Result<Slots, AllocError> {
        let needs = needs_of(alloc, scene)?;
        let width = box_width(&scene.updates);
        let last = scene.last_slot();
        let mut places = Vec::new(alloc);
        places.push(lanes_left(&scene.lanes))?;
        for slot in 1..last.saturating_add(1) {
            let before = half_of(slot.saturating_sub(1), scene.query_slot, last, width);
            let gap = before
                .saturating_add(half_of(slot, scene.query_slot, last, width))
                .saturating_add(GAP);
            places.push(place_of(&places, &needs, slot, gap))?;
        }
        Ok(Slots { places })
    }

    /// Returns the place of a slot.
    pub fn x(&self, slot: u8) -> u32 {
        self.places.get(slot as usize).copied().unwrap_or(0)
    }

    /// Lets the lanes end at a place, if they end before it.
    pub fn extend_to(&mut self, end: u32) {
        if let Some(last) = self.places.last_mut() {
            *last = end.max(*last);
        }
    }

    /// Returns where lanes end.
    pub fn end(&self) -> u32 {
        self.places.last().copied().unwrap_or(0)
    }
}
