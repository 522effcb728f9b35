//! The arrows between the updates that are drawn. An arrow that others imply is omitted, also if the path of the others
//! passes through updates that are not drawn. `Problem::before` lists its pairs (an update, and a later one that must follow
//! it) in ascending order, so one pass over them computes the drawn ancestors of each update, as a set of bits. At most 30 updates are drawn, so 64 bits suffice.

use crate::selection::Choice;
use esr_cert::Problem;
use std::alloc::{AllocError, Global};

/// The slot of each update, by position: 0 if it is not drawn.
#[derive(Drop)]
pub struct Slots {
    slots: Vec<u8>,
}

impl Slots {
    /// Assigns slots from 1: to the drawn updates before the line, to the line, and to the drawn updates after it.
    pub fn new(
        alloc: Global,
        count: usize,
        choice: &Choice,
        line_slot: u8,
    ) -> Result<Slots, AllocError> {
        let mut slots = vec![in alloc; 0u8; count]?;
        assign_slots(&mut slots, &choice.before, 0);
        assign_slots(&mut slots, &choice.after, line_slot);
        Ok(Slots { slots })
    }

    /// Returns the slot of the update at a position: 0 if it is not drawn.
    pub fn of(&self, position: u32) -> u8 {
        self.slots.get(position as usize).copied().unwrap_or(0)
    }
}

/// Assigns the slots after `previous` to the updates, in order.
fn assign_slots(slots: &mut [u8], updates: &[u32], previous: u8) {
    let mut slot = previous;
    for update in updates {
        slot = slot.saturating_add(1);
        if let Some(place) = slots.get_mut(*update as usize) {
            *place = slot;
        }
    }
}

/// Returns the bit of a slot.
fn bit(slot: u8) -> u64 {
    1u64.checked_shl(u32::from(slot)).unwrap_or(0)
}

/// Returns for each update, by position, the slots of the drawn updates from which a path of pairs leads to it.
///
/// The pairs ascend, and each leads from a lower position to a higher one. So when a pair is processed, all
/// predecessors of its first update are known.
fn ancestors(alloc: Global, problem: &Problem, slots: &Slots) -> Result<Vec<u64>, AllocError> {
    let mut ancestors = vec![in alloc; 0u64; problem.updates().len()]?;
    for (first, second) in problem.before() {
        let before = ancestors.get(*first as usize).copied().unwrap_or(0) | bit(slots.of(*first));
        if let Some(all) = ancestors.get_mut(*second as usize) {
            *all |= before;
        }
    }
    Ok(ancestors)
}

/// Returns the union of the ancestors of the updates in these slots.
fn union_of_ancestors(ancestors_by_slot: &[(u8, u64)], members: u64) -> u64 {
    let mut all = 0;
    for (slot, ancestors) in ancestors_by_slot {
        if members & bit(*slot) != 0 {
            all |= *ancestors;
        }
    }
    all
}

/// An arrow from one slot to another.
#[derive(Clone, Copy)]
pub struct SlotPair {
    pub from: u8,
    pub to: u8,
}

/// Appends the arrows that lead to the update in slot `to`: one from each of its drawn ancestors that is not an ancestor of
/// another drawn ancestor.
fn arrows_to(
    arrows: &mut Vec<SlotPair>,
    ancestors_by_slot: &[(u8, u64)],
    to: u8,
    ancestors: u64,
) -> Result<(), AllocError> {
    let implied = union_of_ancestors(ancestors_by_slot, ancestors);
    for (from, _) in ancestors_by_slot {
        if ancestors & !implied & bit(*from) != 0 {
            arrows.push(SlotPair { from: *from, to })?;
        }
    }
    Ok(())
}

/// Returns the arrows between the updates that are drawn, without those that others imply.
pub fn arrows(
    alloc: Global,
    problem: &Problem,
    drawn: &[u32],
    slots: &Slots,
) -> Result<Vec<SlotPair>, AllocError> {
    let ancestors = ancestors(alloc, problem, slots)?;
    let mut ancestors_by_slot = Vec::new(alloc);
    for update in drawn {
        // All updates that are not drawn share slot 0, so its bit is cleared.
        let all = ancestors.get(*update as usize).copied().unwrap_or(0) & !1;
        ancestors_by_slot.push((slots.of(*update), all))?;
    }
    let mut arrows = Vec::new(alloc);
    for (slot, all) in &ancestors_by_slot {
        arrows_to(&mut arrows, &ancestors_by_slot, *slot, *all)?;
    }
    Ok(arrows)
}
