//! Searches for versions that can take the excess of an update (`amounts`).
//!
//! A search starts from an update with an excess, the *source*, and follows residual arcs until it finds a *target*: a version
//! that the sweep has not passed and that has residual capacity. Each path carries its bottleneck or the rest of the excess,
//! whichever is less, to all targets that its last update overwrites. A search ends when an arc of a path is saturated or the
//! excess is used up. If it finds no target, no later search can succeed from an update that it has reached, and these updates are
//! *dead*.
//!
//! Searches keep what they learn (Koenig and Likhachev, Adaptive A*, AAMAS 2005): each update has a *bound*, which is at most
//! its distance, the number of arcs from it to the nearest target. The bound of an update that the sweep passes is 1, or 2 if it
//! has an excess, since then all versions that it overwrites are full. A search that reaches an update with bound 1 tests whether
//! it still overwrites a target, and raises the bound to 2 if not. A search expands the updates in the order of the bound
//! of the whole path: the number of arcs from the source to the update, plus the update's bound. When the search ends, the whole
//! path has at least `least` arcs through each update that it has expanded. So the bound of the update is at least `least` minus
//! the number of arcs to it.
//!
//! The bounds stay valid since a distance never falls. The sweep only removes targets. A path goes along arcs on which the
//! distance falls by one, so the arcs that it opens lead from a smaller distance to a larger one. If a search continues after a
//! path, the opened arcs can lead from an update whose scan has passed them. The bound of that update has to take them into
//! account (`note_opened_arcs`). Otherwise the update can become dead although a path leads from it to a target. Then its
//! excess stays, and the streaming audit finds no answer. No contract constrains the amounts, so an invalid bound could only make
//! a path longer, or leave an excess where it is.
//!
//! The updates that a search has reached and not yet expanded are in one stack for each bound of the whole path. If an update
//! leads to one with the same bound of the whole path, the search continues there, and returns to the rest of the arcs only if
//! that fails. So a search that meets exact bounds visits little more than its path.
//!
//! Rejected: breadth-first searches, each of which continues after a path. They visit 3 to 5 times the accesses, since each
//! explores all updates that are nearer to the source than the target is. Also rejected: a path for each target, which follows 8 per
//! cent more arcs over 65,000 updates of nine writes, and a count of the targets of each update, which the sweep has to keep for
//! each version that it passes.
use crate::amounts::{ProposedAmount, ProposedAmounts};
use crate::frontier::{Frontier, NO_ENTRY, Origin, Reached};
use crate::labels::{DEAD, Labels};
use crate::query::AuditedQuery;
use crate::residual::ResidualArc;
use crate::update_reads::UpdateRead;
use esr_items::Metric;
use esr_order::{NOBODY, VersionLink};
use std::alloc::{AllocError, Global};

/// The number of accesses after which no further search starts, divided by the number of updates. The hardest load that was
/// measured, whose updates write two neighbors in a ring, needs about half of it.
const MAX_VISITS_PER_UPDATE: u64 = 600;

/// The end of a scan of an update's arcs.
#[derive(Clone, Copy)]
enum Scan {
    /// All arcs have been followed.
    Finished,
    /// An arc leads to an update that is to be expanded next.
    Paused,
}

/// An amount that was moved along a path.
#[derive(Clone, Copy)]
struct Routed {
    amount: u64,
    /// Whether it saturates an arc of the path.
    saturates: bool,
}

/// The state of the searches, which share their memory.
#[derive(Drop)]
pub struct SearchState {
    /// How many more accesses the searches may visit.
    visits_left: u64,
    /// The labels of the updates.
    labels: Labels,
    /// The updates that the current search has reached.
    frontier: Frontier,
    /// The residual capacities of the arcs of the current path, from its end.
    capacities: Vec<u64>,
    /// The least bound of the updates to which the update leads whose arcs are followed.
    low: u16,
    /// The update whose excess the current search routes.
    source: u16,
}

impl SearchState {
    /// Returns the state before the first search.
    ///
    /// # Errors
    ///
    /// An allocation failed.
    pub fn new(alloc: Global, updates: usize) -> Result<SearchState, AllocError> {
        Ok(SearchState {
            visits_left: MAX_VISITS_PER_UPDATE.saturating_mul(updates as u64),
            labels: Labels::new(alloc, updates)?,
            frontier: Frontier::new(alloc, updates)?,
            capacities: Vec::new(alloc),
            low: DEAD,
            source: NOBODY,
        })
    }

    /// Begins a search from an update with an excess.
    fn begin(&mut self, source: u16) -> Result<(), AllocError> {
        self.source = source;
        self.labels.begin_search();
        let bound = self.labels.bound(source);
        let _reached = self.labels.reach(source);
        self.frontier.begin(source, bound)
    }

    /// Returns the bound of an update. Raises it to 2 if the update overwrites no target: later it overwrites none either.
    fn bound_now(&mut self, amounts: &ProposedAmounts, update: u16) -> u16 {
        let bound = self.labels.bound(update);
        if 1 < bound || amounts.overwrites_target(update, self.source) {
            return bound;
        }
        self.labels.raise_bound(update, 2);
        2
    }

    /// Follows an arc from a reached update to another update, unless this search has reached that one already or it is dead.
    /// Returns whether the search continues there at once.
    fn follow(
        &mut self,
        amounts: &ProposedAmounts,
        origin: Origin,
        arc: ResidualArc,
        update: u16,
    ) -> Result<bool, AllocError> {
        if let Some(bound) = self.labels.reach(update) {
            self.low = self.low.min(bound);
            return Ok(false);
        }
        self.follow_new(amounts, origin, arc, update)
    }

    /// Follows an arc to an update that this search has not reached before. Returns whether the search continues there at once. It
    /// is out of line, so that `follow` is inlined: most arcs lead to an update that the search has reached.
    #[inline(never)]
    fn follow_new(
        &mut self,
        amounts: &ProposedAmounts,
        origin: Origin,
        arc: ResidualArc,
        update: u16,
    ) -> Result<bool, AllocError> {
        let bound = self.bound_now(amounts, update);
        self.low = self.low.min(bound);
        self.frontier.push(origin, arc, update, bound)
    }

    /// Follows the arcs of a version that an update writes, and of the version that it overwrites. Returns whether the search
    /// continues at one of them at once.
    fn follow_version(
        &mut self,
        amounts: &ProposedAmounts,
        origin: Origin,
        id: u32,
        link: VersionLink,
        amount: ProposedAmount,
    ) -> Result<bool, AllocError> {
        let mut continues = false;
        if amount.can_increase_overwritten() {
            let arc = ResidualArc::Increase(id);
            continues = self.follow(amounts, origin, arc, link.overwritten_writer)?;
        }
        if link.overwriter != NOBODY && 0 < amount.value() {
            let arc = ResidualArc::Decrease(id);
            continues |= self.follow(amounts, origin, arc, link.overwriter)?;
        }
        if amounts.reads.is_empty() {
            return Ok(continues);
        }
        continues |= self.follow_readers(amounts, origin, id)?;
        if amount.may_repay() {
            continues |= self.follow_borrowers(amounts, origin, amounts.overwritten(id))?;
        }
        Ok(continues)
    }

    /// Follows the arcs to the readers of a version that an update writes: each can raise its amount, which lowers what the update
    /// itself has to carry.
    fn follow_readers(
        &mut self,
        amounts: &ProposedAmounts,
        origin: Origin,
        version: u32,
    ) -> Result<bool, AllocError> {
        let mut continues = false;
        let reads = &amounts.reads;
        let mut next = reads.first_of_version(version);
        for _ in 0..reads.len() {
            let Some(read) = reads.get(next) else {
                return Ok(continues);
            };
            self.visits_left = self.visits_left.saturating_sub(1);
            continues |= self.follow(amounts, origin, ResidualArc::Raise(next), read.reader)?;
            next = reads.next_of(read);
        }
        Ok(continues)
    }

    /// Follows the arcs to the readers with a loan from a version that an update overwrites: each loan can decrease.
    fn follow_borrowers(
        &mut self,
        amounts: &ProposedAmounts,
        origin: Origin,
        version: u32,
    ) -> Result<bool, AllocError> {
        let mut continues = false;
        let reads = &amounts.reads;
        let mut next = reads.first_of_version(version);
        for _ in 0..reads.len() {
            let Some(read) = reads.get(next) else {
                return Ok(continues);
            };
            self.visits_left = self.visits_left.saturating_sub(1);
            if 0 < read.loan {
                continues |= self.follow(amounts, origin, ResidualArc::Repay(next), read.reader)?;
            }
            next = reads.next_of(read);
        }
        Ok(continues)
    }

    /// Follows the arcs of a read of an update: to the overwriter of the version, and to the writer if the read raises its amount.
    fn follow_read(
        &mut self,
        amounts: &ProposedAmounts,
        origin: Origin,
        r: u32,
        read: UpdateRead,
    ) -> Result<bool, AllocError> {
        let mut continues = false;
        if read.overwriter != NOBODY {
            continues = self.follow(amounts, origin, ResidualArc::Borrow(r), read.overwriter)?;
        }
        if 0 < read.raise && read.writer != NOBODY {
            continues |= self.follow(amounts, origin, ResidualArc::Lower(r), read.writer)?;
        }
        Ok(continues)
    }

    /// Follows the arcs of a reached update from its place on, until one leads to an update that is to be expanded next.
    fn scan(&mut self, amounts: &ProposedAmounts, entry: u16) -> Result<Scan, AllocError> {
        let Some(reached) = self.frontier.get(entry) else {
            return Ok(Scan::Finished);
        };
        let origin = Origin {
            entry,
            steps: reached.steps,
        };
        self.low = reached.low;
        let own = amounts.versions_of(reached.update);
        let place = reached.place as usize;
        let mut id = own.first.saturating_add(reached.place as u32);
        for j in place..own.links.len().min(own.amounts.len()) {
            self.visits_left = self.visits_left.saturating_sub(1);
            if self.follow_version(amounts, origin, id, own.links[j], own.amounts[j])? {
                self.frontier
                    .set_place(entry, j.saturating_add(1), self.low);
                return Ok(Scan::Paused);
            }
            id = id.saturating_add(1);
        }
        if amounts.reads.is_empty() {
            return Ok(Scan::Finished);
        }
        self.scan_reads(amounts, origin, reached, own.links.len())
    }

    /// Follows the arcs of the reads of a reached update. `versions` is the number of its versions.
    fn scan_reads(
        &mut self,
        amounts: &ProposedAmounts,
        origin: Origin,
        reached: Reached,
        versions: usize,
    ) -> Result<Scan, AllocError> {
        let reads = &amounts.reads;
        let own = reads.of_update(reached.update);
        let first = (reached.place as usize).saturating_sub(versions);
        let mut r = reads
            .first_of_update(reached.update)
            .saturating_add(u32::try_from(first).unwrap_or(u32::MAX));
        for j in first..own.len() {
            self.visits_left = self.visits_left.saturating_sub(1);
            if self.follow_read(amounts, origin, r, own[j])? {
                self.frontier.set_place(
                    origin.entry,
                    versions.saturating_add(j).saturating_add(1),
                    self.low,
                );
                return Ok(Scan::Paused);
            }
            r = r.saturating_add(1);
        }
        Ok(Scan::Finished)
    }

    /// Ends the expansion of an update. It is one arc farther from a target than the nearest of the updates to which it leads.
    fn finish(&mut self, entry: u16) {
        if let Some(reached) = self.frontier.get(entry) {
            self.labels
                .raise_bound(reached.update, self.low.saturating_add(1));
        }
        self.frontier.finish(entry);
    }

    /// Raises the bounds of the expanded updates after a search that found a target.
    fn raise_bounds(&mut self) {
        let mut entry = self.frontier.expanded();
        for _ in 0..self.frontier.len() {
            let Some(reached) = self.frontier.get(entry) else {
                return;
            };
            let bound = self.frontier.bound_of(reached.steps);
            self.labels.raise_bound(reached.update, bound);
            entry = reached.next;
        }
    }

    /// Makes later searches skip the updates that this search reached: none of them leads to a target.
    fn exclude_reached(&mut self) {
        for entry in 0..self.frontier.len() {
            if let Some(reached) = self.frontier.get(entry) {
                self.labels.exclude(reached.update);
            }
        }
    }

    /// Returns the bottleneck of the path from the source to a reached update, and stores the residual capacities of its arcs.
    fn bottleneck<M: Metric>(
        &mut self,
        query: &AuditedQuery<M>,
        amounts: &ProposedAmounts,
        end: u16,
    ) -> Result<u64, AllocError> {
        self.capacities.clear();
        let mut least = u64::MAX;
        let mut entry = end;
        for _ in 0..self.frontier.len() {
            let Some(reached) = self.frontier.get(entry) else {
                return Ok(least);
            };
            if reached.predecessor == NO_ENTRY {
                return Ok(least);
            }
            let capacity = reached.arc.capacity(query, amounts);
            self.capacities.push(capacity)?;
            least = least.min(capacity);
            entry = reached.predecessor;
        }
        Ok(least)
    }

    /// Augments along the path from the source to a reached update by an amount, after `bottleneck`.
    fn augment(&self, amounts: &mut ProposedAmounts, end: u16, amount: u64) {
        let mut entry = end;
        for capacity in &self.capacities {
            let Some(reached) = self.frontier.get(entry) else {
                return;
            };
            reached
                .arc
                .augment(amounts, reached.update, amount, *capacity);
            entry = reached.predecessor;
        }
    }

    /// Lowers the bounds of the updates on the path to a reached update: the path has opened an arc from each of them to the one
    /// before it.
    fn note_opened_arcs(&mut self, amounts: &ProposedAmounts, end: u16) {
        let mut entry = end;
        for _ in 0..self.frontier.len() {
            let Some(reached) = self.frontier.get(entry) else {
                return;
            };
            let Some(previous) = self.frontier.get(reached.predecessor) else {
                return;
            };
            let bound = self.bound_now(amounts, previous.update);
            self.frontier
                .set_place(entry, reached.place as usize, reached.low.min(bound));
            entry = reached.predecessor;
        }
    }

    /// Returns whether a reached update overwrites a target. Once its arcs are followed, it overwrites none: `route` has filled them.
    fn has_target(&mut self, amounts: &ProposedAmounts, entry: u16) -> bool {
        match self.frontier.get(entry) {
            None => false,
            Some(reached) => reached.place == 0 && self.bound_now(amounts, reached.update) <= 1,
        }
    }

    /// Moves an amount along the path to the targets that a reached update overwrites: as much as the path and the targets can take,
    /// at most `excess`.
    fn route<M: Metric>(
        &mut self,
        query: &AuditedQuery<M>,
        amounts: &mut ProposedAmounts,
        entry: u16,
        excess: u64,
    ) -> Result<Routed, AllocError> {
        let bottleneck = self.bottleneck(query, amounts, entry)?;
        let update = self
            .frontier
            .get(entry)
            .map_or(NOBODY, |reached| reached.update);
        let most = excess.min(bottleneck);
        let amount = amounts.fill_targets(query, update, self.source, most);
        self.augment(amounts, entry, amount);
        Ok(Routed {
            amount,
            saturates: bottleneck <= amount,
        })
    }

    /// Searches for targets from an update with an excess. Returns the rest of the excess for which another search may find one.
    fn search<M: Metric>(
        &mut self,
        query: &AuditedQuery<M>,
        amounts: &mut ProposedAmounts,
        source: u16,
        excess: u64,
    ) -> Result<u64, AllocError> {
        let mut left = excess;
        self.begin(source)?;
        for _ in 0..self.visits_left {
            let Some(entry) = self.frontier.next_entry() else {
                self.exclude_reached();
                return Ok(0);
            };
            if self.has_target(amounts, entry) {
                let routed = self.route(query, amounts, entry, left)?;
                left = left.saturating_sub(routed.amount);
                if left == 0 || routed.saturates {
                    self.raise_bounds();
                    self.frontier.clear();
                    return Ok(left);
                }
                self.note_opened_arcs(amounts, entry);
            }
            match self.scan(amounts, entry)? {
                Scan::Paused => {}
                Scan::Finished => self.finish(entry),
            }
        }
        self.frontier.clear();
        Ok(0)
    }

    /// Moves as much as possible of the excess of the update that the sweep has just passed to earlier versions.
    ///
    /// # Errors
    ///
    /// An allocation failed.
    pub fn route_excess<M: Metric>(
        &mut self,
        query: &AuditedQuery<M>,
        amounts: &mut ProposedAmounts,
        update: u16,
        excess: u64,
    ) -> Result<(), AllocError> {
        // the versions that it overwrites are full, so no target is one arc away
        self.labels.raise_bound(update, 2);
        let mut excess = excess;
        for _ in 0..self.visits_left {
            if excess == 0 || self.visits_left == 0 {
                return Ok(());
            }
            excess = self.search(query, amounts, update, excess)?;
        }
        Ok(())
    }
}
