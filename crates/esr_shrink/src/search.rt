//! Delta debugging. Keys, which are transactions or the positions of reads and writes, are left out in chunks: first half
//! of them at once, then ever smaller chunks, and at last one at a time until none can be left out.

use crate::case::Operation;
use crate::play::distance_after;
use crate::view::Progress;
use esr_history::{History, TxnId};
use esr_items::Weighted;
use std::alloc::{AllocError, Global};

/// Transactions, and reads and writes, are left out in turn at most this many times.
const MAX_ROUNDS: u32 = 8;

/// One key is left out at a time at most this many times over all keys.
const MAX_PASSES: u32 = 64;

/// The meaning of keys.
#[derive(Clone, Copy, PartialEq, Eq)]
enum Kind {
    /// The numbers of transactions other than the query.
    Transactions,
    /// The positions of reads and writes in the case.
    Operations,
}

/// A search for a small case.
#[derive(Drop)]
pub struct Search<'a, P> {
    pub history: &'a History<Weighted>,
    pub query: TxnId,
    pub at_least: u64,
    pub progress: &'a P,
    /// The number of candidates that were played.
    pub runs: u64,
}

/// Marks the keys.
fn marks_of(alloc: Global, keys: &[u32], count: usize) -> Result<Vec<bool>, AllocError> {
    let mut marks = vec![in alloc; false; count]?;
    for key in keys {
        if let Some(mark) = marks.get_mut(*key as usize) {
            *mark = true;
        }
    }
    Ok(marks)
}

/// Returns some keys without a chunk of this length from a position.
fn without_chunk(
    alloc: Global,
    keys: &[u32],
    start: usize,
    length: usize,
) -> Result<Vec<u32>, AllocError> {
    let start = start.min(keys.len());
    let end = start.saturating_add(length).min(keys.len());
    let mut rest = keys.get(..start).unwrap_or(&[]).to_vec(alloc)?;
    rest.extend_from_slice(keys.get(end..).unwrap_or(&[]))?;
    Ok(rest)
}

impl<P: Progress> Search<'_, P> {
    /// Returns whether an operation at a position is kept with these keys.
    fn is_kept(&self, kind: Kind, marks: &[bool], position: usize, operation: Operation) -> bool {
        match kind {
            Kind::Transactions => {
                operation.txn == self.query || marks.get(operation.txn.0 as usize) == Some(&true)
            }
            Kind::Operations => operation.is_bound() || marks.get(position) == Some(&true),
        }
    }

    /// Returns the case with these keys alone.
    fn candidate(
        &self,
        alloc: Global,
        case: &[Operation],
        kind: Kind,
        keys: &[u32],
    ) -> Result<Vec<Operation>, AllocError> {
        let count = match kind {
            Kind::Transactions => self.history.begun_count().saturating_add(1),
            Kind::Operations => case.len(),
        };
        let marks = marks_of(alloc, keys, count)?;
        let mut kept = Vec::new(alloc);
        let mut position = 0usize;
        for operation in case {
            if self.is_kept(kind, &marks, position, *operation) {
                kept.push(*operation)?;
            }
            position = position.saturating_add(1);
        }
        Ok(kept)
    }

    /// Returns whether the query is still off after these operations.
    pub fn is_off(&mut self, alloc: Global, case: &[Operation]) -> Result<bool, AllocError> {
        self.runs = self.runs.saturating_add(1);
        self.progress.show(self.runs, case.len() as u64);
        let distance = distance_after(alloc, self.history, case, self.query)?;
        Ok(distance.is_some_and(|distance| distance >= self.at_least))
    }

    /// Returns whether the query is still off with these keys alone.
    fn is_off_with(
        &mut self,
        alloc: Global,
        case: &[Operation],
        kind: Kind,
        keys: &[u32],
    ) -> Result<bool, AllocError> {
        let candidate = self.candidate(alloc, case, kind, keys)?;
        self.is_off(alloc, &candidate)
    }

    /// Leaves out each chunk of this length that can be left out.
    fn pass(
        &mut self,
        alloc: Global,
        case: &[Operation],
        kind: Kind,
        mut keys: Vec<u32>,
        length: usize,
    ) -> Result<Vec<u32>, AllocError> {
        let chunks = keys
            .len()
            .checked_div(length)
            .unwrap_or(0)
            .saturating_add(1);
        let mut start = 0usize;
        for _ in 0..chunks {
            let rest = without_chunk(alloc, &keys, start, length)?;
            if rest.len() < keys.len() && self.is_off_with(alloc, case, kind, &rest)? {
                keys = rest;
            } else {
                start = start.saturating_add(length);
            }
        }
        Ok(keys)
    }

    /// Leaves out ever smaller chunks.
    fn halve(
        &mut self,
        alloc: Global,
        case: &[Operation],
        kind: Kind,
        mut keys: Vec<u32>,
    ) -> Result<Vec<u32>, AllocError> {
        let mut length = keys.len().div_ceil(2);
        for _ in 0..32 {
            if length < 2 {
                break;
            }
            keys = self.pass(alloc, case, kind, keys, length)?;
            length = length.min(keys.len()).div_ceil(2);
        }
        Ok(keys)
    }

    /// Leaves out one key at a time until none can be left out.
    fn single(
        &mut self,
        alloc: Global,
        case: &[Operation],
        kind: Kind,
        mut keys: Vec<u32>,
    ) -> Result<Vec<u32>, AllocError> {
        for _ in 0..MAX_PASSES {
            let before = keys.len();
            keys = self.pass(alloc, case, kind, keys, 1)?;
            if keys.len() == before {
                break;
            }
        }
        Ok(keys)
    }

    /// Returns the case with as few of these keys as were found to be enough.
    fn reduce(
        &mut self,
        alloc: Global,
        case: &[Operation],
        kind: Kind,
        keys: Vec<u32>,
    ) -> Result<Vec<Operation>, AllocError> {
        let halved = self.halve(alloc, case, kind, keys)?;
        let kept = self.single(alloc, case, kind, halved)?;
        self.candidate(alloc, case, kind, &kept)
    }

    /// Returns the other transactions of a case, each once.
    fn transactions(&self, alloc: Global, case: &[Operation]) -> Result<Vec<u32>, AllocError> {
        let mut keys = Vec::new(alloc);
        for operation in case {
            if operation.txn != self.query {
                keys.push(operation.txn.0)?;
            }
        }
        keys.sort_unstable();
        keys.dedup();
        Ok(keys)
    }

    /// Returns one round: transactions, then reads and writes.
    fn round(&mut self, alloc: Global, case: &[Operation]) -> Result<Vec<Operation>, AllocError> {
        let transactions = self.transactions(alloc, case)?;
        let fewer = self.reduce(alloc, case, Kind::Transactions, transactions)?;
        let operations = accesses_of(alloc, &fewer)?;
        self.reduce(alloc, &fewer, Kind::Operations, operations)
    }

    /// Returns a small case in which the query is still off, of one in which it is.
    pub fn smallest(
        &mut self,
        alloc: Global,
        mut case: Vec<Operation>,
    ) -> Result<Vec<Operation>, AllocError> {
        for _ in 0..MAX_ROUNDS {
            let before = case.len();
            case = self.round(alloc, &case)?;
            if case.len() == before {
                break;
            }
        }
        Ok(case)
    }
}

/// Returns the positions of the reads and writes of a case.
fn accesses_of(alloc: Global, case: &[Operation]) -> Result<Vec<u32>, AllocError> {
    let mut keys = Vec::new(alloc);
    let mut position = 0u32;
    for operation in case {
        if !operation.is_bound() {
            keys.push(position)?;
        }
        position = position.saturating_add(1);
    }
    Ok(keys)
}
