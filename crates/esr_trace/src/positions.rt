//! The positions of the updates of a problem.

use esr_history::TxnId;
use std::alloc::{AllocError, Global};

/// The position of each update of a problem, by the number of its transaction.
#[derive(Drop)]
pub struct Positions {
    of: Vec<Option<u32>>,
}

impl Positions {
    /// Returns the positions of these updates.
    pub fn new(alloc: Global, updates: &[TxnId], begun: usize) -> Result<Positions, AllocError> {
        let mut of = vec![in alloc; None; begun.saturating_add(1)]?;
        let mut position = 0u32;
        for update in updates {
            if let Some(place) = of.get_mut(update.0 as usize) {
                *place = Some(position);
            }
            position = position.saturating_add(1);
        }
        Ok(Positions { of })
    }

    /// Returns the position of an update, if it is one of the problem.
    pub fn of(&self, update: TxnId) -> Option<u32> {
        self.of.get(update.0 as usize).copied().flatten()
    }
}
