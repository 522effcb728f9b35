//! Which charges explain the reads that are off.
//!
//! A read is off if the nearest placement has another value of its item. If the writer of the value is not before the
//! placement, the read was too late, and the charges by this writer, or by a charged update that it follows
//! (`predecessors`), explain why it is not before it. Otherwise the read was too early, and the charges for the item by
//! updates before the placement explain how the value changed since. Charges that explain the same reads are a group.
//! Rejected: all charges for the item, since those after a read that was too late explain nothing.

use crate::predecessors::ChargedPredecessors;
use crate::source::{PlacedQuery, Source};
use esr_history::{Event, TxnId};
use esr_items::ItemId;
use esr_timeline_data::{Arrow, Relation};
use esr_trace::{NearestPlacement, ObservedRead, QueryTrace};
use std::alloc::{AllocError, Global};

/// The distances of the reads of a query that are off, by what explains them. All are 0 if the query is not off.
#[derive(Drop)]
pub struct Causes {
    /// For each item: the distance of the reads of values that were replaced before the placement.
    by_item: Vec<u64>,
    /// For each update by its number: the distance of the reads of values that were written by it, or by updates that
    /// follow it, and that are not before the placement.
    by_writer: Vec<u64>,
    /// The nearest placement.
    placement: NearestPlacement,
    /// The charged updates that the updates that are not before the placement follow.
    predecessors: ChargedPredecessors,
}

/// Returns the element at an index, or 0.
fn at(values: &[u64], index: u32) -> u64 {
    values.get(index as usize).copied().unwrap_or(0)
}

/// Adds a value to the element at an index.
fn add(values: &mut [u64], index: u32, value: u64) {
    if let Some(sum) = values.get_mut(index as usize) {
        *sum = sum.saturating_add(value);
    }
}

impl Causes {
    /// Returns the causes of a query that is not off.
    pub fn none(alloc: Global) -> Causes {
        Causes {
            by_item: Vec::new(alloc),
            by_writer: Vec::new(alloc),
            placement: NearestPlacement::none(alloc),
            predecessors: ChargedPredecessors::none(alloc),
        }
    }

    /// Returns whether an update is before the placement.
    fn has_before(&self, update: TxnId) -> bool {
        self.placement.has_before(update)
    }

    /// Returns the update whose charges explain a read that was too late, or nothing if it was too early.
    pub fn late_cause(&self, observed: &ObservedRead) -> Option<TxnId> {
        match observed.writer {
            Some(writer) if !self.has_before(writer) => Some(self.predecessors.at(writer)),
            _ => None,
        }
    }

    /// Returns the update whose charges explain why this one is not before the placement, or nothing if it is before it.
    pub fn cause_of(&self, update: TxnId) -> Option<TxnId> {
        if self.has_before(update) {
            None
        } else {
            Some(self.predecessors.at(update))
        }
    }

    /// Notes reads that have this distance.
    fn note(&mut self, observed: &ObservedRead, distance: u64) {
        match self.late_cause(observed) {
            Some(cause) => add(&mut self.by_writer, cause.0, distance),
            None => add(&mut self.by_item, observed.item.0, distance),
        }
    }

    /// Notes the reads that are off.
    fn note_all(&mut self, source: Source<'_>, observed_reads: &[ObservedRead]) {
        for observed in observed_reads {
            let distance = self.placement.distance(source.history, observed);
            if distance > 0 {
                self.note(observed, distance.saturating_mul(observed.count));
            }
        }
    }

    /// Notes the placement and the distances of a committed query.
    fn fill(
        &mut self,
        alloc: Global,
        source: Source<'_>,
        placed: &PlacedQuery<'_>,
        trace: &QueryTrace,
    ) -> Result<(), AllocError> {
        let count = source.history.begun_count().saturating_add(1);
        let query = placed.finding.query;
        self.placement = placed.placement.copy(alloc)?;
        self.by_item = vec![in alloc; 0u64; source.history.items() as usize]?;
        self.by_writer = vec![in alloc; 0u64; count]?;
        self.predecessors = ChargedPredecessors::of(alloc, source, query, trace, &self.placement)?;
        self.note_all(source, &trace.observed_reads);
        Ok(())
    }

    /// Returns the causes of the placed query. There are none unless it is off.
    pub fn of(alloc: Global, source: Source<'_>, trace: &QueryTrace) -> Result<Causes, AllocError> {
        let mut causes = Causes::none(alloc);
        if let Some(placed) = source.placed
            && placed.finding.distance > 0
        {
            causes.fill(alloc, source, placed, trace)?;
        }
        Ok(causes)
    }

    /// Returns the cause of each read of the placed query that is off, those of the farthest reads first.
    pub fn of_reads(
        &self,
        alloc: Global,
        source: Source<'_>,
        trace: &QueryTrace,
    ) -> Result<Vec<TxnId>, AllocError> {
        match source.placed {
            Some(placed) => {
                let problem = &placed.finding.problem;
                self.placement.causes(alloc, source.history, problem, trace)
            }
            None => Ok(Vec::new(alloc)),
        }
    }

    /// Returns the distance of the reads that a charge explains, or 0.
    pub fn explained(&self, update: TxnId, item: ItemId) -> u64 {
        if self.has_before(update) {
            at(&self.by_item, item.0)
        } else {
            at(&self.by_writer, update.0)
        }
    }

    /// Returns the number of the group of an update that is not before the placement: the items are first.
    fn group_after(&self, update: TxnId) -> usize {
        self.by_item.len().saturating_add(update.0 as usize)
    }

    /// Returns the number of the group of a charge.
    pub fn group(&self, update: TxnId, item: ItemId) -> usize {
        if self.has_before(update) {
            item.0 as usize
        } else {
            self.group_after(update)
        }
    }

    /// Returns the number of the group of the charges that explain a read.
    pub fn group_of(&self, observed: &ObservedRead) -> usize {
        match self.late_cause(observed) {
            Some(cause) => self.group_after(cause),
            None => observed.item.0 as usize,
        }
    }

    /// Returns the read with the greatest distance, of equal ones the first, if a read is off.
    pub fn farthest(&self, source: Source<'_>, trace: &QueryTrace) -> Option<ObservedRead> {
        let mut farthest = None;
        let mut greatest = 0u64;
        for observed in &trace.observed_reads {
            let distance = self.placement.distance(source.history, observed);
            if distance > greatest {
                greatest = distance;
                farthest = Some(*observed);
            }
        }
        farthest
    }

    /// Returns how a charge for an event explains reads.
    pub fn relation(&self, update: TxnId, event: Event) -> Relation {
        if self.has_before(update) {
            Relation::Change
        } else if matches!(event, Event::Read { .. }) {
            Relation::Read
        } else {
            Relation::Writer
        }
    }
}

/// Returns the rank of a charge among those that explain as much, and its order among those with the same rank: the first change of
/// an item is first, and else the greatest amount.
fn rank_of(arrow: &Arrow<'_>) -> (u8, u64) {
    let greatest = u64::MAX.saturating_sub(arrow.amount);
    match arrow.relation {
        _ if arrow.explained == 0 => (0, greatest),
        Relation::Change => (0, arrow.place as u64),
        Relation::Read => (1, greatest),
        Relation::Writer => (2, greatest),
    }
}

/// Returns the indices of some charges in the order of the distances that they explain, the greatest first; of those that
/// explain the same, the changes of an item first, in their order, then the charges for reads, then the greatest amounts.
fn sorted(alloc: Global, arrows: &[Arrow<'_>]) -> Result<Vec<usize>, AllocError> {
    let mut ranks = Vec::new(alloc);
    for (index, arrow) in arrows.iter().enumerate() {
        let explained = u64::MAX.saturating_sub(arrow.explained);
        let (rank, order) = rank_of(arrow);
        ranks.push((explained, rank, order, index))?;
    }
    ranks.sort_unstable();
    ranks.iter().map(|rank| rank.3).collect(alloc)
}

/// Returns the number of groups of these charges.
fn count_groups(arrows: &[Arrow<'_>]) -> usize {
    let mut count = 0usize;
    for arrow in arrows {
        count = count.max(arrow.group.saturating_add(1));
    }
    count
}

/// Returns how many charges of the group were before this one, and counts it. Charges that explain nothing are after all
/// others.
fn round_of(counts: &mut [usize], arrow: &Arrow<'_>) -> usize {
    if arrow.explained == 0 {
        return usize::MAX;
    }
    match counts.get_mut(arrow.group) {
        Some(count) => {
            let round = *count;
            *count = round.saturating_add(1);
            round
        }
        None => usize::MAX,
    }
}

/// Returns the indices of some charges: of each group the charge that explains its reads best, the groups with the greatest
/// distance first, then the second ones, and so on; then the charges that explain nothing, the greatest amounts first.
pub fn ranking(alloc: Global, arrows: &[Arrow<'_>]) -> Result<Vec<usize>, AllocError> {
    let sorted = sorted(alloc, arrows)?;
    let mut counts = vec![in alloc; 0usize; count_groups(arrows)]?;
    let mut ranks = Vec::new(alloc);
    for (place, index) in sorted.iter().enumerate() {
        if let Some(arrow) = arrows.get(*index) {
            ranks.push((round_of(&mut counts, arrow), place, *index))?;
        }
    }
    ranks.sort_unstable();
    ranks.iter().map(|rank| rank.2).collect(alloc)
}
