//! Finds the lanes that a picture has to show so that it does not contradict its line: if all drawn lanes were green at
//! another place, a reader would expect the line there.
//!
//! For each place between two updates, in the order of the picture, the costs of the drawn lanes are added up. If a
//! place costs less than the line, the undrawn lane that costs most there is drawn too, until no such place is left.
//! All lanes together cost least at the line, so this terminates.

use crate::selection::Crossing;
use esr_cert::{Chain, Problem};
use esr_history::MAX_TRANSACTIONS;
use std::alloc::{AllocError, Global};

/// The index of each update in the order of the picture.
#[derive(Drop)]
pub struct Places {
    places: Vec<u32>,
    /// The number of updates before the line.
    line: usize,
    /// The number of updates before the first possible place of the query.
    first: usize,
}

impl Places {
    /// Orders the updates: first those of the set, then the others, each by position. The query has to follow the
    /// updates in `must`.
    pub fn new(alloc: Global, inside: &[bool], must: &[u32]) -> Result<Places, AllocError> {
        let line = inside.iter().filter(|is_inside| **is_inside).count();
        let mut places = Vec::new(alloc);
        let mut before = 0u32;
        let mut after = line.min(MAX_TRANSACTIONS) as u32;
        for is_inside in inside {
            let next = if *is_inside { &mut before } else { &mut after };
            places.push(*next)?;
            *next = next.saturating_add(1);
        }
        let mut all = Places {
            places,
            line,
            first: 0,
        };
        for position in must {
            all.first = all.first.max(all.of(*position).saturating_add(1));
        }
        Ok(all)
    }

    /// The place of the update at a position.
    fn of(&self, position: u32) -> usize {
        self.places.get(position as usize).copied().unwrap_or(0) as usize
    }

    /// Returns whether the query could be at a place that is not the line.
    fn is_other(&self, place: usize) -> bool {
        place >= self.first && place != self.line
    }

    /// Returns the cost of a lane after `place` updates. The indices of its writers ascend, because those before the
    /// line are its first ones.
    fn cost_at(&self, chain: &Chain, place: usize) -> u64 {
        let version = chain
            .writers
            .partition_point(|writer| self.of(*writer) < place);
        chain.costs.get(version).copied().unwrap_or(0)
    }
}

/// The total cost of some lanes at each place.
#[derive(Drop)]
pub struct Costs {
    /// The cost before all updates.
    first: i128,
    /// The increase of the cost after each update.
    changes: Vec<i128>,
}

impl Costs {
    /// Those of no lane.
    pub fn none(alloc: Global, updates: usize) -> Result<Costs, AllocError> {
        Ok(Costs {
            first: 0,
            changes: vec![in alloc; 0i128; updates]?,
        })
    }

    /// Adds a lane.
    pub fn add(&mut self, chain: &Chain, places: &Places) {
        let mut last = i128::from(chain.costs.first().copied().unwrap_or(0));
        self.first = self.first.saturating_add(last);
        for (writer, cost) in chain.writers.iter().zip(chain.costs.iter().skip(1)) {
            let cost = i128::from(*cost);
            if let Some(change) = self.changes.get_mut(places.of(*writer)) {
                *change = change.saturating_add(cost.saturating_sub(last));
            }
            last = cost;
        }
    }

    /// Returns the number of other possible places with the cost at the line.
    pub fn count_ties(&self, places: &Places, at_line: u64) -> u64 {
        let at_line = i128::from(at_line);
        let mut sum = self.first;
        let mut ties = if sum == at_line && places.is_other(0) {
            1u64
        } else {
            0u64
        };
        for (place, change) in (1usize..).zip(self.changes.iter()) {
            sum = sum.saturating_add(*change);
            if sum == at_line && places.is_other(place) {
                ties = ties.saturating_add(1);
            }
        }
        ties
    }

    /// Returns the place with the least cost, if it is less than the cost at the line.
    pub fn cheaper_place(&self, places: &Places) -> Option<usize> {
        let mut sum = self.first;
        let mut at_line = sum;
        let mut least = (places.first == 0).then_some((sum, 0));
        for (place, change) in (1usize..).zip(self.changes.iter()) {
            sum = sum.saturating_add(*change);
            if place == places.line {
                at_line = sum;
            }
            if place >= places.first && least.is_none_or(|(least, _)| sum < least) {
                least = Some((sum, place));
            }
        }
        let (least, place) = least?;
        (least < at_line).then_some(place)
    }
}

/// Returns the lanes that cost more at a place than at the line, of those that are not among these, the costliest first.
pub fn all_against(
    alloc: Global,
    problem: &Problem,
    crossings: &[Crossing],
    places: &Places,
    place: usize,
    drawn: &[usize],
) -> Result<Vec<usize>, AllocError> {
    let mut ranks = Vec::new(alloc);
    for (lane, (chain, crossing)) in problem.chains().iter().zip(crossings.iter()).enumerate() {
        let more = places.cost_at(chain, place).saturating_sub(crossing.off);
        if more > 0 && !drawn.contains(&lane) {
            ranks.push((u64::MAX.saturating_sub(more), lane))?;
        }
    }
    ranks.sort_unstable();
    ranks.iter().map(|rank| rank.1).collect(alloc)
}

/// The lane that costs most more at a place than at the line, of those that are not among these.
pub fn against(
    chains: &[Chain],
    crossings: &[Crossing],
    places: &Places,
    place: usize,
    drawn: &[usize],
) -> Option<usize> {
    let mut upper_bound = 0;
    let mut found = None;
    for (lane, (chain, crossing)) in chains.iter().zip(crossings.iter()).enumerate() {
        let more = places.cost_at(chain, place).saturating_sub(crossing.off);
        if more > upper_bound && !drawn.contains(&lane) {
            upper_bound = more;
            found = Some(lane);
        }
    }
    found
}
