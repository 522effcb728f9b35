//! Ranks the updates that a timeline and a picture of a query show first, if there is no space for all of them.
//!
//! The causes of the reads that are off come first, the farthest read first. The cause of a read is one update: the writer of
//! the value that was read, if it is not before the nearest placement, or else the first update before the placement that
//! changed the item after that value. If the cause changes sides, with the updates that have to move with it, the item has the
//! value that was read. Updates that explain charges of the causes follow, and then those that were charged most. The three that were charged most are named
//! in a picture, so they have a place before: a lane, or a box after the causes of the two farthest reads. Timeline and
//! picture use this one rule, so that both show the same updates. Rejected: a separate rule for each, by charges and by items: a reader then searches the
//! updates of one in the other.

use crate::positions::Positions;
use crate::trace::{ObservedRead, QueryTrace};
use esr_cert::{Chain, Problem};
use esr_history::{History, TxnId};
use esr_items::{ItemId, Metric, Weighted};
use esr_order::{Access, accesses_of};
use std::alloc::{AllocError, Global};

/// The nearest placement of a query.
#[derive(Drop)]
pub struct NearestPlacement {
    /// For each transaction by its number: whether it is an update before the placement.
    is_before: Vec<bool>,
    /// For each item: the number of the update that wrote its value in the placement, or 0 for the opening value.
    writers: Vec<u32>,
    /// For each item: its value in the placement.
    values: Vec<i64>,
}

/// The reads of one value of an item that are off, with their cause.
#[derive(Clone, Copy)]
pub struct ExplainedRead {
    pub cause: TxnId,
    pub item: u32,
    pub value: i64,
    pub count: u64,
    /// The distance of all of them.
    pub distance: u64,
    /// Whether the update that had written the value overwrote it before its end.
    pub is_overwritten: bool,
}

/// The updates of a problem, with their positions.
#[derive(Drop)]
struct Updates<'a> {
    problem: &'a Problem,
    positions: Positions,
}

/// Returns the chain of an item.
fn chain_of(problem: &Problem, item: ItemId) -> Option<&Chain> {
    let chains = problem.chains();
    let place = chains.partition_point(|chain| chain.item.0 < item.0);
    chains.get(place).filter(|chain| chain.item == item)
}

impl<'a> Updates<'a> {
    /// Returns the updates of a problem.
    fn of(
        alloc: Global,
        history: &History<Weighted>,
        problem: &'a Problem,
    ) -> Result<Updates<'a>, AllocError> {
        Ok(Updates {
            problem,
            positions: Positions::new(alloc, problem.updates(), history.begun_count())?,
        })
    }

    /// Returns the update that wrote an item next after this writer, or after the opening value.
    fn next_writer(&self, item: ItemId, writer: Option<TxnId>) -> Option<TxnId> {
        let chain = chain_of(self.problem, item)?;
        let version = match writer {
            Some(writer) => {
                let own = self.positions.of(writer)?;
                chain.writers.partition_point(|position| *position <= own)
            }
            None => 0,
        };
        let next = chain.writers.get(version)?;
        self.problem.updates().get(*next as usize).copied()
    }
}

/// Returns flags for the updates before a placement.
fn flags_of(alloc: Global, before: &[TxnId], count: usize) -> Result<Vec<bool>, AllocError> {
    let mut flags = vec![in alloc; false; count]?;
    for update in before {
        if let Some(flag) = flags.get_mut(update.0 as usize) {
            *flag = true;
        }
    }
    Ok(flags)
}

impl NearestPlacement {
    /// Notes the writes of an update.
    fn note(&mut self, update: TxnId, accesses: &[Access]) {
        for access in accesses {
            let item = access.item.0 as usize;
            if access.writes {
                if let Some(writer) = self.writers.get_mut(item) {
                    *writer = update.0;
                }
                if let Some(value) = self.values.get_mut(item) {
                    *value = access.value;
                }
            }
        }
    }

    /// Returns the placement after these updates, which are in the order of their commits.
    pub fn after(
        alloc: Global,
        history: &History<Weighted>,
        before: &[TxnId],
    ) -> Result<NearestPlacement, AllocError> {
        let numbers = history.begun_count().saturating_add(1);
        let mut placement = NearestPlacement {
            is_before: flags_of(alloc, before, numbers)?,
            writers: vec![in alloc; 0u32; history.items() as usize]?,
            values: history.opening_values().to_vec(alloc)?,
        };
        for update in before {
            let accesses = accesses_of(alloc, history, *update)?;
            placement.note(*update, &accesses);
        }
        Ok(placement)
    }

    /// Returns a copy.
    pub fn copy(&self, alloc: Global) -> Result<NearestPlacement, AllocError> {
        Ok(NearestPlacement {
            is_before: self.is_before.to_vec(alloc)?,
            writers: self.writers.to_vec(alloc)?,
            values: self.values.to_vec(alloc)?,
        })
    }

    /// Returns whether a transaction is an update before the placement.
    pub fn has_before(&self, txn: TxnId) -> bool {
        self.is_before.get(txn.0 as usize) == Some(&true)
    }

    /// Returns a placement without items, which no read differs from.
    pub fn none(alloc: Global) -> NearestPlacement {
        NearestPlacement {
            is_before: Vec::new(alloc),
            writers: Vec::new(alloc),
            values: Vec::new(alloc),
        }
    }

    /// Returns the value of an item.
    pub fn value(&self, item: u32) -> Option<i64> {
        self.values.get(item as usize).copied()
    }

    /// Returns the update that wrote the value of an item, unless it is the opening value.
    pub fn writer(&self, item: u32) -> Option<TxnId> {
        match self.writers.get(item as usize) {
            Some(0) | None => None,
            Some(number) => Some(TxnId(*number)),
        }
    }

    /// Returns the first update before the placement that changed an item after this writer, or after the opening value.
    fn changer(&self, updates: &Updates<'_>, item: ItemId, writer: Option<TxnId>) -> Option<TxnId> {
        updates
            .next_writer(item, writer)
            .filter(|update| self.has_before(*update))
    }

    /// Returns the cause of a read that is off.
    fn cause(&self, updates: &Updates<'_>, observed: &ObservedRead) -> Option<TxnId> {
        match observed.writer {
            Some(writer) if !self.has_before(writer) => Some(writer),
            writer => match self.changer(updates, observed.item, writer) {
                Some(changer) => Some(changer),
                None => self.writer(observed.item.0),
            },
        }
    }

    /// Returns the distance of one read of a value.
    pub fn distance(&self, history: &History<Weighted>, observed: &ObservedRead) -> u64 {
        let Some(value) = self.value(observed.item.0) else {
            return 0;
        };
        let weight = history.metric().distance(observed.item, 0, 1);
        observed.value.abs_diff(value).saturating_mul(weight)
    }

    /// Returns the distances of the reads that are off as ranks, the farthest first.
    fn off_ranks(
        &self,
        alloc: Global,
        history: &History<Weighted>,
        trace: &QueryTrace,
    ) -> Result<Vec<(u64, usize, usize)>, AllocError> {
        let mut ranks = Vec::new(alloc);
        for (index, observed) in trace.observed_reads.iter().enumerate() {
            let distance = self.distance(history, observed);
            if distance > 0 {
                ranks.push((u64::MAX.saturating_sub(distance), observed.place, index))?;
            }
        }
        ranks.sort_unstable();
        Ok(ranks)
    }

    /// Returns the reads of the query of a problem that are off with their causes, the farthest first.
    pub fn explained(
        &self,
        alloc: Global,
        history: &History<Weighted>,
        problem: &Problem,
        trace: &QueryTrace,
    ) -> Result<Vec<ExplainedRead>, AllocError> {
        let updates = Updates::of(alloc, history, problem)?;
        let mut explained = Vec::new(alloc);
        for (rank, _, index) in &self.off_ranks(alloc, history, trace)? {
            if let Some(observed) = trace.observed_reads.get(*index)
                && let Some(cause) = self.cause(&updates, observed)
            {
                let distance = u64::MAX.saturating_sub(*rank);
                explained.push(ExplainedRead {
                    cause,
                    item: observed.item.0,
                    value: observed.value,
                    count: observed.count,
                    distance: distance.saturating_mul(observed.count),
                    is_overwritten: observed.overwritten,
                })?;
            }
        }
        Ok(explained)
    }

    /// Returns the cause of each read of the query of a problem that is off, those of the farthest reads first.
    pub fn causes(
        &self,
        alloc: Global,
        history: &History<Weighted>,
        problem: &Problem,
        trace: &QueryTrace,
    ) -> Result<Vec<TxnId>, AllocError> {
        let explained = self.explained(alloc, history, problem, trace)?;
        explained.iter().map(|read| read.cause).collect(alloc)
    }
}

/// Adds an update that is not there yet, if there is space for one more.
fn push_new(chosen: &mut Vec<TxnId>, update: TxnId, upper_bound: usize) -> Result<(), AllocError> {
    if chosen.len() < upper_bound && !chosen.contains(&update) {
        chosen.push(update)?;
    }
    Ok(())
}

/// Adds some updates.
fn push_all(
    chosen: &mut Vec<TxnId>,
    updates: &[TxnId],
    upper_bound: usize,
) -> Result<(), AllocError> {
    for update in updates {
        push_new(chosen, *update, upper_bound)?;
    }
    Ok(())
}

/// Returns the updates to show, at most `upper_bound`: the causes of the reads that are off, then these others that explain
/// them, and then the updates that were charged most.
pub fn relevant_updates(
    alloc: Global,
    trace: &QueryTrace,
    causes: &[TxnId],
    others: &[TxnId],
    upper_bound: usize,
) -> Result<Vec<TxnId>, AllocError> {
    let mut chosen = Vec::new(alloc);
    push_all(&mut chosen, causes, upper_bound)?;
    push_all(&mut chosen, others, upper_bound)?;
    for sum in &trace.sums_by_update(alloc)? {
        push_new(&mut chosen, TxnId(sum.number), upper_bound)?;
    }
    Ok(chosen)
}
