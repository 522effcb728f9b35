//! Finds for each update that is not before the nearest placement a charged one that it is or follows.
//!
//! An update that was not charged can be after the placement only because of an update that it follows, directly or not,
//! and that was charged: the query read an item before that one wrote it. One pass over the committed updates in commit
//! order, with a number for each update and two for each item. Rejected: all predecessors of an update, since the charges of
//! one suffice as a cause.

use crate::source::Source;
use esr_history::TxnId;
use esr_order::{Access, accesses_of};
use esr_trace::{NearestPlacement, QueryTrace};
use std::alloc::{AllocError, Global};

/// The charged updates that the updates of a history are or follow. 0 is the number of none.
#[derive(Drop)]
pub struct ChargedPredecessors {
    /// For each update by its number: the sum of its charges to the query.
    charged: Vec<u64>,
    /// For each update by its number: the charged update that it is or follows.
    updates: Vec<u32>,
    /// For each item: the charged update that the last update that wrote it is or follows.
    writers: Vec<u32>,
    /// For each item: the charged update that an update that has read it since is or follows.
    readers: Vec<u32>,
}

/// Returns the number at an index, or 0.
fn number_at(numbers: &[u32], index: u32) -> u32 {
    numbers.get(index as usize).copied().unwrap_or(0)
}

/// Replaces the number at an index.
fn set(numbers: &mut [u32], index: u32, number: u32) {
    if let Some(element) = numbers.get_mut(index as usize) {
        *element = number;
    }
}

/// Returns the charges of a query by the numbers of the updates.
fn charges_of(alloc: Global, trace: &QueryTrace, count: usize) -> Result<Vec<u64>, AllocError> {
    let mut charged = vec![in alloc; 0u64; count]?;
    for sum in &trace.sums_by_update(alloc)? {
        if let Some(amount) = charged.get_mut(sum.number as usize) {
            *amount = sum.amount;
        }
    }
    Ok(charged)
}

/// Returns whether a transaction is a query.
fn is_query(source: Source<'_>, txn: TxnId) -> bool {
    source.history.facts(txn).is_some_and(|facts| facts.query)
}

impl ChargedPredecessors {
    /// Returns the predecessors of no update.
    pub fn none(alloc: Global) -> ChargedPredecessors {
        ChargedPredecessors {
            charged: Vec::new(alloc),
            updates: Vec::new(alloc),
            writers: Vec::new(alloc),
            readers: Vec::new(alloc),
        }
    }

    /// Returns the one of two updates that was charged more, and of equal ones the one that began first.
    fn greater(&self, a: u32, b: u32) -> u32 {
        let first = self.charged.get(a as usize).copied().unwrap_or(0);
        let second = self.charged.get(b as usize).copied().unwrap_or(0);
        if second > first || (second == first && b < a) {
            b
        } else {
            a
        }
    }

    /// Returns the charged update that an update with these accesses is or follows.
    fn find(&self, update: TxnId, accesses: &[Access]) -> u32 {
        if self
            .charged
            .get(update.0 as usize)
            .is_some_and(|sum| *sum > 0)
        {
            return update.0;
        }
        let mut found = 0u32;
        for access in accesses {
            let item = access.item.0;
            found = self.greater(found, number_at(&self.writers, item));
            if access.writes {
                found = self.greater(found, number_at(&self.readers, item));
            }
        }
        found
    }

    /// Notes the accesses of an update that is or follows this charged one.
    fn note(&mut self, charged: u32, accesses: &[Access]) {
        for access in accesses {
            let item = access.item.0;
            if access.writes {
                set(&mut self.writers, item, charged);
                set(&mut self.readers, item, 0);
            } else {
                let reader = self.greater(number_at(&self.readers, item), charged);
                set(&mut self.readers, item, reader);
            }
        }
    }

    /// Notes a committed update.
    fn note_commit(
        &mut self,
        alloc: Global,
        source: Source<'_>,
        update: TxnId,
        is_before: bool,
    ) -> Result<(), AllocError> {
        let accesses = accesses_of(alloc, source.history, update)?;
        let charged = if is_before {
            0
        } else {
            self.find(update, &accesses)
        };
        self.note(charged, &accesses);
        set(&mut self.updates, update.0, charged);
        Ok(())
    }

    /// Notes the updates that committed before a query.
    fn note_commits(
        &mut self,
        alloc: Global,
        source: Source<'_>,
        query: TxnId,
        placement: &NearestPlacement,
    ) -> Result<(), AllocError> {
        for txn in source.auditor.commits() {
            if *txn == query {
                return Ok(());
            }
            if !is_query(source, *txn) {
                self.note_commit(alloc, source, *txn, placement.has_before(*txn))?;
            }
        }
        Ok(())
    }

    /// Returns the predecessors of the updates that committed before a query with this nearest placement.
    pub fn of(
        alloc: Global,
        source: Source<'_>,
        query: TxnId,
        trace: &QueryTrace,
        placement: &NearestPlacement,
    ) -> Result<ChargedPredecessors, AllocError> {
        let items = source.history.items() as usize;
        let numbers = source.history.begun_count().saturating_add(1);
        let mut predecessors = ChargedPredecessors {
            charged: charges_of(alloc, trace, numbers)?,
            updates: vec![in alloc; 0u32; numbers]?,
            writers: vec![in alloc; 0u32; items]?,
            readers: vec![in alloc; 0u32; items]?,
        };
        predecessors.note_commits(alloc, source, query, placement)?;
        Ok(predecessors)
    }

    /// Returns the charged update that an update is or follows, or the update if there is none.
    pub fn at(&self, update: TxnId) -> TxnId {
        match number_at(&self.updates, update.0) {
            0 => update,
            charged => TxnId(charged),
        }
    }
}
