//! The updates that a search has reached (`search`). Those that are not yet expanded are in one stack for each bound of the whole
//! path from the source to a target through them.
use crate::residual::ResidualArc;
use std::alloc::{AllocError, Global};

/// The largest bound of any path. A longer path counts as one of this length.
const MAX_BOUND: u16 = 4094;

/// The index of no reached update.
pub const NO_ENTRY: u16 = u16::MAX;

/// An update that the current search has reached.
#[derive(Clone, Copy)]
pub struct Reached {
    /// The arc by which the search reached it.
    pub arc: ResidualArc,
    pub update: u16,
    /// The index of the update from which the search reached it; `NO_ENTRY` for the source.
    pub predecessor: u16,
    /// The index of the next one in its stack, or `NO_ENTRY`.
    pub next: u16,
    /// The number of arcs from the source.
    pub steps: u16,
    /// How many accesses of the update have been followed: first its versions, then its reads.
    pub place: u16,
    /// The least bound of the updates to which these lead.
    pub low: u16,
}

/// A reached update whose arcs are followed.
#[derive(Clone, Copy)]
pub struct Origin {
    /// Its index.
    pub entry: u16,
    /// The number of arcs from the source.
    pub steps: u16,
}

/// The updates that the current search has reached.
#[derive(Drop)]
pub struct Frontier {
    /// In the order in which the search reached them.
    reached: Vec<Reached>,
    /// For each bound of the whole path, the index of the top of a stack of updates that have not been expanded.
    stacks: Vec<u16>,
    /// The largest bound: `MAX_BOUND`, or less if there are fewer updates.
    max_bound: u16,
    /// The index of the top of the stack of the expanded updates.
    expanded: u16,
    /// The least bound of the whole path of an update that has not been expanded. It never falls during a search.
    least: u16,
    /// The largest bound of the whole path so far.
    most: u16,
}

impl Frontier {
    /// Returns the state before the first search among this number of updates.
    ///
    /// # Errors
    ///
    /// An allocation failed.
    pub fn new(alloc: Global, updates: usize) -> Result<Frontier, AllocError> {
        let max_bound = u16::try_from(updates).unwrap_or(MAX_BOUND).min(MAX_BOUND);
        Ok(Frontier {
            reached: Vec::new(alloc),
            stacks: vec![in alloc; NO_ENTRY; max_bound as usize + 1]?,
            max_bound,
            expanded: NO_ENTRY,
            least: 0,
            most: 0,
        })
    }

    /// Begins a search from an update with this bound. All stacks of updates that have not been expanded must be empty.
    ///
    /// # Errors
    ///
    /// An allocation failed.
    pub fn begin(&mut self, source: u16, bound: u16) -> Result<(), AllocError> {
        self.reached.clear();
        self.expanded = NO_ENTRY;
        self.least = bound.min(self.max_bound);
        self.most = self.least;
        self.set_top(self.least, 0);
        self.reached.push(Reached {
            arc: ResidualArc::Raise(u32::MAX),
            update: source,
            predecessor: NO_ENTRY,
            next: NO_ENTRY,
            steps: 0,
            place: 0,
            low: u16::MAX,
        })?;
        Ok(())
    }

    /// Adds an update with this bound. Returns whether it is to be expanded next.
    ///
    /// # Errors
    ///
    /// An allocation failed.
    pub fn push(
        &mut self,
        origin: Origin,
        arc: ResidualArc,
        update: u16,
        bound: u16,
    ) -> Result<bool, AllocError> {
        let steps = origin.steps.saturating_add(1).min(self.max_bound);
        let whole = steps
            .saturating_add(bound)
            .min(self.max_bound)
            .max(self.least);
        self.most = self.most.max(whole);
        let entry = u16::try_from(self.reached.len()).unwrap_or(NO_ENTRY);
        let next = self.top(whole);
        self.set_top(whole, entry);
        self.reached.push(Reached {
            arc,
            update,
            predecessor: origin.entry,
            next,
            steps,
            place: 0,
            low: u16::MAX,
        })?;
        Ok(whole == self.least)
    }

    /// Returns the number of updates that the search has reached.
    pub fn len(&self) -> u16 {
        u16::try_from(self.reached.len()).unwrap_or(NO_ENTRY)
    }

    /// Returns the update with an index.
    pub fn get(&self, entry: u16) -> Option<Reached> {
        self.reached.get(entry as usize).copied()
    }

    /// Sets how many accesses of an update have been followed, and the least bound of the updates to which these lead.
    pub fn set_place(&mut self, entry: u16, place: usize, low: u16) {
        let entry = entry as usize;
        if entry < self.reached.len() {
            // from a place past the maximum, the scan repeats some accesses
            self.reached[entry].place = u16::try_from(place).unwrap_or(u16::MAX);
            self.reached[entry].low = low;
        }
    }

    /// Returns the index of the next update to expand.
    pub fn next_entry(&mut self) -> Option<u16> {
        for bound in self.least..self.most.saturating_add(1) {
            let top = self.top(bound);
            if top != NO_ENTRY {
                self.least = bound;
                return Some(top);
            }
        }
        None
    }

    /// Moves the update that `next_entry` returned last to the stack of the expanded ones. No update may have been added since.
    pub fn finish(&mut self, entry: u16) {
        let i = entry as usize;
        if i < self.reached.len() {
            let next = self.reached[i].next;
            self.reached[i].next = self.expanded;
            self.set_top(self.least, next);
            self.expanded = entry;
        }
    }

    /// Returns the index of the top of the stack of the expanded updates, or `NO_ENTRY`.
    pub fn expanded(&self) -> u16 {
        self.expanded
    }

    /// Returns a bound of an expanded update that is this number of arcs from the source: the whole path has at least `least` arcs.
    pub fn bound_of(&self, steps: u16) -> u16 {
        self.least.saturating_sub(steps)
    }

    /// Empties the stacks of the updates that have not been expanded.
    pub fn clear(&mut self) {
        for bound in self.least..self.most.saturating_add(1) {
            self.set_top(bound, NO_ENTRY);
        }
    }

    /// Returns the index of the top of the stack with a bound.
    fn top(&self, bound: u16) -> u16 {
        self.stacks.get(bound as usize).copied().unwrap_or(NO_ENTRY)
    }

    fn set_top(&mut self, bound: u16, top: u16) {
        let bound = bound as usize;
        if bound < self.stacks.len() {
            self.stacks[bound] = top;
        }
    }
}
