//! Labels of the updates, kept between searches (`search`).
use std::alloc::{AllocError, Global};

/// The bound of an update from which no search can succeed.
pub const DEAD: u16 = u16::MAX;

/// The label of an update. An update that the current search has not reached takes only these four bytes.
#[derive(Clone, Copy)]
struct Label {
    /// The number of the last search that reached it, or 0.
    last_search: u16,
    /// At most the number of arcs from it to the nearest target, or `DEAD`.
    bound: u16,
}

/// The labels of the updates.
#[derive(Drop)]
pub struct Labels {
    labels: Vec<Label>,
    /// The number of the current search.
    search_number: u16,
}

impl Labels {
    /// Returns the labels before the first search.
    ///
    /// # Errors
    ///
    /// An allocation failed.
    pub fn new(alloc: Global, updates: usize) -> Result<Labels, AllocError> {
        let unreached = Label {
            last_search: 0,
            bound: 1,
        };
        Ok(Labels {
            labels: vec![in alloc; unreached; updates]?,
            search_number: 0,
        })
    }

    /// Begins a search, which has not reached any update.
    pub fn begin_search(&mut self) {
        if self.search_number == u16::MAX {
            self.restart_numbers();
        }
        self.search_number = self.search_number.saturating_add(1);
    }

    /// Forgets the numbers of the searches so far.
    fn restart_numbers(&mut self) {
        for label in &mut self.labels {
            label.last_search = 0;
        }
        self.search_number = 0;
    }

    /// Returns the bound of an update, or `DEAD`.
    pub fn bound(&self, update: u16) -> u16 {
        self.labels
            .get(update as usize)
            .map_or(DEAD, |label| label.bound)
    }

    /// Notes that the current search reaches an update. Returns `None` if it has not reached it before and a search can succeed from
    /// it, and otherwise its bound, or `DEAD`.
    pub fn reach(&mut self, update: u16) -> Option<u16> {
        let i = update as usize;
        if self.labels.len() <= i {
            return Some(DEAD);
        }
        let label = self.labels[i];
        if label.bound == DEAD || label.last_search == self.search_number {
            return Some(label.bound);
        }
        self.labels[i].last_search = self.search_number;
        None
    }

    /// Raises the bound of an update, at least to `bound`.
    pub fn raise_bound(&mut self, update: u16, bound: u16) {
        let i = update as usize;
        if i < self.labels.len() {
            self.labels[i].bound = self.labels[i].bound.max(bound);
        }
    }

    /// Makes later searches skip an update: none can succeed from it.
    pub fn exclude(&mut self, update: u16) {
        self.raise_bound(update, DEAD);
    }
}
