//! The trace of a query: each value that it read and the writer of that value, and its charges with the updates that
//! were charged.
//!
//! A trace notes the entries of a replay (`traces`), which knows the charges, the writers and the values: it has no
//! charge rule, so it is right for every metric. The trace of a query that is active or has aborted is as complete as
//! that of a committed query.

use crate::traces::{ItemState, Step};
use esr_history::{Event, History, TxnId};
use esr_items::{ItemId, Metric};
use esr_replay::imported;
use std::alloc::{AllocError, Global};

/// The maximum number of first charges.
const MAX_CHARGES: usize = 12;

/// The outcome of a transaction at the end of the query. It differs from `TxnOutcome`, which is that at the end of the
/// history: an update that committed after the query is as late as one that is still active.
#[derive(Clone, Copy)]
pub enum WriterEnd {
    /// It committed before the query did.
    Committed,
    Aborted,
    /// It committed after the query did, or not at all.
    Later,
}

/// A value that the query read of an item, and how often.
#[derive(Clone, Copy)]
pub struct ObservedRead {
    pub item: ItemId,
    pub value: i64,
    /// The update that had written it, unless it is the opening value.
    pub writer: Option<TxnId>,
    /// True if that update was still active at that time.
    pub is_dirty: bool,
    pub count: u64,
    /// True if that update overwrote the value.
    pub overwritten: bool,
    /// The place of the first such read in the log.
    pub place: usize,
}

/// The operation that caused a charge.
#[derive(Clone, Copy, PartialEq, Eq)]
pub enum Cause {
    /// The query read a value that an update had changed and not committed.
    Read,
    /// An update changed a value that the query had read so often.
    Write { reads: u64 },
}

/// A charge to the query, or several one after another of reads that were alike.
#[derive(Clone, Copy)]
pub struct ChargeGroup {
    pub update: TxnId,
    pub item: ItemId,
    /// The total charge.
    pub amount: u64,
    /// The number of charges.
    pub count: u64,
    pub cause: Cause,
    /// The values before and after the update's change.
    pub old: i64,
    pub new: i64,
    /// The place of the first in the log.
    pub place: usize,
}

impl ChargeGroup {
    /// Returns whether another charge is of the same update, item and values.
    fn is_like(&self, other: &ChargeGroup) -> bool {
        self.cause == Cause::Read
            && other.cause == Cause::Read
            && self.update == other.update
            && self.item == other.item
            && self.old == other.old
            && self.new == other.new
    }

    /// Takes another one in.
    fn take_in(&mut self, other: &ChargeGroup) {
        self.amount = self.amount.saturating_add(other.amount);
        self.count = self.count.saturating_add(other.count);
    }
}

/// A sum of charges, of a transaction or an item of that number.
#[derive(Clone, Copy)]
pub struct Sum {
    pub number: u32,
    pub amount: u64,
}

/// Returns the total of some sums.
pub(crate) fn total_of(sums: &[Sum]) -> u64 {
    let mut total = 0u64;
    for sum in sums {
        total = total.saturating_add(sum.amount);
    }
    total
}

/// Returns the outcome of a transaction.
fn end_in(ends: &[WriterEnd], txn: TxnId) -> WriterEnd {
    ends.get(txn.0 as usize)
        .copied()
        .unwrap_or(WriterEnd::Later)
}

/// Adds to the sum of that number.
fn add_to(sums: &mut [u64], number: u32, amount: u64) {
    if let Some(sum) = sums.get_mut(number as usize) {
        *sum = sum.saturating_add(amount);
    }
}

/// The sums above 0, most first.
fn ranking(alloc: Global, sums: &[u64]) -> Result<Vec<Sum>, AllocError> {
    let mut ranks = Vec::new(alloc);
    for (number, amount) in (0u32..65_536).zip(sums.iter()) {
        if *amount > 0 {
            ranks.push((u64::MAX.saturating_sub(*amount), number))?;
        }
    }
    ranks.sort_unstable();
    let mut ranking = Vec::new(alloc);
    for (rank, number) in &ranks {
        ranking.push(Sum {
            number: *number,
            amount: u64::MAX.saturating_sub(*rank),
        })?;
    }
    Ok(ranking)
}

/// The trace of a query.
#[derive(Drop)]
pub struct QueryTrace {
    query: TxnId,
    /// The number of reads of each item.
    reads: Vec<u64>,
    ends: Vec<WriterEnd>,
    /// The charges of the query by update number and by item number.
    by_update: Vec<u64>,
    by_item: Vec<u64>,
    /// Each value that the query read of an item, once.
    pub observed_reads: Vec<ObservedRead>,
    /// All charges, each by itself.
    pub all_charges: Vec<ChargeGroup>,
    /// The first charges, those of the same reads as one.
    pub charges: Vec<ChargeGroup>,
    /// True if charges were dropped.
    is_cut: bool,
    /// The number of updates that committed before the query.
    pub committed: u64,
    /// The place of the query's begin in the log.
    pub begin: Option<usize>,
    pub is_strict: bool,
    has_ended: bool,
}

impl QueryTrace {
    /// Returns the trace of a query before the first entry.
    pub fn new<M: Metric>(
        alloc: Global,
        history: &History<M>,
        query: TxnId,
    ) -> Result<QueryTrace, AllocError> {
        let numbers = history.begun_count().saturating_add(1);
        let items = history.items() as usize;
        let facts = history.facts(query);
        Ok(QueryTrace {
            query,
            reads: vec![in alloc; 0u64; items]?,
            ends: vec![in alloc; WriterEnd::Later; numbers]?,
            by_update: vec![in alloc; 0u64; numbers]?,
            by_item: vec![in alloc; 0u64; items]?,
            observed_reads: Vec::new(alloc),
            all_charges: Vec::new(alloc),
            charges: Vec::new(alloc),
            is_cut: false,
            committed: 0,
            begin: facts.map(|facts| facts.begin as usize),
            is_strict: facts.is_some_and(|facts| facts.strict),
            has_ended: false,
        })
    }

    /// Returns whether the trace is that of a query.
    pub fn is_of(&self, query: TxnId) -> bool {
        self.query == query
    }

    /// Returns the outcome of a transaction.
    pub fn end(&self, txn: TxnId) -> WriterEnd {
        end_in(&self.ends, txn)
    }

    /// Records a charge, if it is above 0.
    fn charge(&mut self, charge: ChargeGroup) -> Result<(), AllocError> {
        if charge.amount == 0 {
            return Ok(());
        }
        add_to(&mut self.by_update, charge.update.0, charge.amount);
        add_to(&mut self.by_item, charge.item.0, charge.amount);
        self.all_charges.push(charge)?;
        self.keep(charge)
    }

    /// Stores a charge, if there is space.
    fn keep(&mut self, charge: ChargeGroup) -> Result<(), AllocError> {
        let is_cut = self.is_cut;
        if let Some(last) = self.charges.last_mut() {
            if !is_cut && last.is_like(&charge) {
                last.take_in(&charge);
                return Ok(());
            }
        }
        if self.charges.len() < MAX_CHARGES {
            self.charges.push(charge)?;
        } else {
            self.is_cut = true;
        }
        Ok(())
    }

    /// Notes a value that the query read.
    fn see(&mut self, seen: ObservedRead) -> Result<(), AllocError> {
        for observed in &mut self.observed_reads {
            if observed.item == seen.item
                && observed.value == seen.value
                && observed.writer == seen.writer
                && observed.is_dirty == seen.is_dirty
            {
                observed.count = observed.count.saturating_add(1);
                return Ok(());
            }
        }
        self.observed_reads.push(seen)?;
        Ok(())
    }

    /// Records that an update overwrote its own value, which the query may have read. It scans all observed reads, so
    /// it is called only for such writes.
    fn overwrite(&mut self, item: ItemId, update: TxnId, value: i64) {
        for observed in &mut self.observed_reads {
            if observed.item == item && observed.writer == Some(update) {
                observed.overwritten = observed.value != value;
            }
        }
    }

    /// Notes an accepted read of the query, which was charged this amount.
    fn note_read(
        &mut self,
        place: usize,
        item: ItemId,
        before: ItemState,
        amount: u64,
    ) -> Result<(), AllocError> {
        add_to(&mut self.reads, item.0, 1);
        if let Some(update) = before.writer {
            self.charge(ChargeGroup {
                update,
                item,
                amount,
                count: 1,
                cause: Cause::Read,
                old: before.committed,
                new: before.current,
                place,
            })?;
        }
        self.see(ObservedRead {
            item,
            value: before.current,
            writer: before.writer.or(before.keeper),
            is_dirty: before.writer.is_some(),
            count: 1,
            overwritten: false,
            place,
        })
    }

    /// Notes an accepted write, by which the query was charged this amount.
    fn note_write(
        &mut self,
        place: usize,
        update: TxnId,
        item: ItemId,
        value: i64,
        before: ItemState,
        amount: u64,
    ) -> Result<(), AllocError> {
        let reads = self.reads.get(item.0 as usize).copied().unwrap_or(0);
        if reads == 0 {
            return Ok(());
        }
        if before.writer == Some(update) {
            self.overwrite(item, update, value);
        }
        self.charge(ChargeGroup {
            update,
            item,
            amount,
            count: 1,
            cause: Cause::Write { reads },
            old: before.current,
            new: value,
            place,
        })
    }

    /// Notes an accepted commit, of a query or an update.
    fn note_commit(&mut self, txn: TxnId, is_query: bool) {
        if txn == self.query {
            self.has_ended = true;
        }
        if !is_query && !self.has_ended {
            self.committed = self.committed.saturating_add(1);
            self.note_end(txn, WriterEnd::Committed);
        }
    }

    /// Notes an accepted abort.
    fn note_abort(&mut self, txn: TxnId) {
        if txn == self.query {
            self.has_ended = true;
        }
        self.note_end(txn, WriterEnd::Aborted);
    }

    fn note_end(&mut self, txn: TxnId, end: WriterEnd) {
        if let Some(place) = self.ends.get_mut(txn.0 as usize) {
            *place = end;
        }
    }

    /// Notes an accepted entry, by which each query imported this.
    pub fn note<M: Metric>(
        &mut self,
        history: &History<M>,
        step: Step,
        imports: &[(TxnId, u64)],
    ) -> Result<(), AllocError> {
        let place = step.place;
        match (step.entry.event, step.before) {
            (Event::Write { txn, item, value }, Some(before)) => {
                let amount = imported(imports, self.query);
                self.note_write(place, txn, item, value, before, amount)?;
            }
            (Event::Read { txn, item }, Some(before)) if txn == self.query => {
                let amount = imported(imports, self.query);
                self.note_read(place, item, before, amount)?;
            }
            (Event::Commit { txn }, _) => {
                let is_query = history.facts(txn).is_some_and(|facts| facts.query);
                self.note_commit(txn, is_query);
            }
            (Event::Abort { txn }, _) => self.note_abort(txn),
            _ => {}
        }
        Ok(())
    }

    /// Returns the charges by update, in descending order.
    pub fn sums_by_update(&self, alloc: Global) -> Result<Vec<Sum>, AllocError> {
        ranking(alloc, &self.by_update)
    }

    /// Returns the charges by item, in descending order.
    pub fn sums_by_item(&self, alloc: Global) -> Result<Vec<Sum>, AllocError> {
        ranking(alloc, &self.by_item)
    }

    /// The sum of all charges.
    pub fn charge_sum(&self) -> u64 {
        let mut sum = 0u64;
        for amount in &self.by_item {
            sum = sum.saturating_add(*amount);
        }
        sum
    }
}
