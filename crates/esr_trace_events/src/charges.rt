//! The charges of each entry, with the update and the item, from a replay of the history. The replay returns them by
//! the numbers of the queries; they are shown in the order in which the queries have read the item.

use esr_core::Machine;
use esr_history::{Event, History, Reply, TxnId};
use esr_items::{ItemId, Weighted};
use esr_replay::{MetricRef, Replay};
use std::alloc::{AllocError, Global};

/// A charge of an entry.
#[derive(Clone, Copy)]
pub struct Charge {
    pub update: TxnId,
    pub query: TxnId,
    pub change: Change,
    pub amount: u64,
}

/// The difference that a charge is for.
#[derive(Clone, Copy)]
pub struct Change {
    pub item: ItemId,
    /// The committed value if the item was read, and the current one if it was written.
    pub old: i64,
    /// The value that was read or written.
    pub new: i64,
}

/// A replay that returns the charges of each entry.
#[derive(Drop)]
pub struct Charges<'a> {
    replay: Replay<'a, Weighted>,
    /// The reads of each item by queries that were active at its last write.
    readers: Vec<Vec<TxnId>>,
    /// What each query imported by the last entry and is not returned yet, by its number.
    amounts: Vec<u64>,
}

/// Returns the change that an event would be charged for, if it is a read or a write.
fn change_of(machine: &Machine<MetricRef<'_, Weighted>>, event: Event) -> Option<Change> {
    let item = match event {
        Event::Read { item, .. } | Event::Write { item, .. } => item,
        _ => return None,
    };
    if item.0 >= machine.history().items() {
        return None;
    }
    let current = machine.current(item);
    Some(match event {
        Event::Write { value, .. } => Change {
            item,
            old: current,
            new: value,
        },
        _ => Change {
            item,
            old: machine.committed(item),
            new: current,
        },
    })
}

/// Returns no readers of any item.
fn no_readers(alloc: Global, items: u32) -> Result<Vec<Vec<TxnId>>, AllocError> {
    let mut readers = Vec::new(alloc);
    for _ in 0..items {
        readers.push(Vec::new(alloc))?;
    }
    Ok(readers)
}

/// Returns the transactions among these that are active queries.
fn active(
    alloc: Global,
    machine: &Machine<MetricRef<'_, Weighted>>,
    readers: &[TxnId],
) -> Result<Vec<TxnId>, AllocError> {
    let mut kept = Vec::new(alloc);
    for txn in readers {
        let facts = machine.history().facts(*txn);
        if facts.is_some_and(|facts| facts.query && facts.end.is_none()) {
            kept.push(*txn)?;
        }
    }
    Ok(kept)
}

impl<'a> Charges<'a> {
    /// Creates a replay before the first entry.
    pub fn new(alloc: Global, history: &'a History<Weighted>) -> Result<Charges<'a>, AllocError> {
        let readers = no_readers(alloc, history.items())?;
        let amounts = vec![in alloc; 0u64; history.begun_count().saturating_add(1)]?;
        match Replay::new(alloc, history) {
            Ok(replay) => Ok(Charges {
                replay,
                readers,
                amounts,
            }),
            Err(_) => Err(AllocError),
        }
    }

    /// Notes what the queries imported by the last entry.
    fn note_imports(&mut self) {
        for (query, amount) in self.replay.imports() {
            if let Some(place) = self.amounts.get_mut(query.0 as usize) {
                *place = *amount;
            }
        }
    }

    /// Returns the charges of the last entry to these queries, each once.
    fn charges_to(
        &mut self,
        alloc: Global,
        queries: &[TxnId],
        update: TxnId,
        change: Change,
    ) -> Result<Vec<Charge>, AllocError> {
        let mut charges = Vec::new(alloc);
        for query in queries {
            let Some(place) = self.amounts.get_mut(query.0 as usize) else {
                continue;
            };
            let amount = *place;
            *place = 0;
            if amount > 0 {
                charges.push(Charge {
                    update,
                    query: *query,
                    change,
                    amount,
                })?;
            }
        }
        Ok(charges)
    }

    /// Notes a read. Returns its charge, by the update that has written the item.
    fn note_read(
        &mut self,
        alloc: Global,
        txn: TxnId,
        change: Change,
    ) -> Result<Vec<Charge>, AllocError> {
        let item = change.item;
        if let Some(readers) = self.readers.get_mut(item.0 as usize) {
            readers.push(txn)?;
        }
        if item.0 >= self.replay.machine().history().items() {
            return Ok(Vec::new(alloc));
        }
        match self.replay.machine().writer(item) {
            Some(update) => self.charges_to(alloc, &[txn], update, change),
            None => Ok(Vec::new(alloc)),
        }
    }

    /// Notes a write. Returns its charges.
    fn note_write(
        &mut self,
        alloc: Global,
        update: TxnId,
        change: Change,
    ) -> Result<Vec<Charge>, AllocError> {
        let Some(readers) = self.readers.get_mut(change.item.0 as usize) else {
            return Ok(Vec::new(alloc));
        };
        let queries = active(alloc, self.replay.machine(), readers)?;
        *readers = queries.to_vec(alloc)?;
        self.charges_to(alloc, &queries, update, change)
    }

    /// Executes the next entry. Returns its charges.
    pub fn step(&mut self, alloc: Global) -> Result<Vec<Charge>, AllocError> {
        let Some(entry) = self.replay.next() else {
            return Ok(Vec::new(alloc));
        };
        let change = change_of(self.replay.machine(), entry.event);
        if self.replay.step().is_err() {
            return Err(AllocError);
        }
        self.note_imports();
        let Some(change) = change else {
            return Ok(Vec::new(alloc));
        };
        match (entry.event, entry.reply) {
            (Event::Read { txn, .. }, Reply::Value(_)) => self.note_read(alloc, txn, change),
            (Event::Write { txn, .. }, Reply::Wrote) => self.note_write(alloc, txn, change),
            _ => Ok(Vec::new(alloc)),
        }
    }
}
