//! The values that a query read, each once, and their distances in a placement.
//!
//! The distance of a read depends on the value alone, so all reads of one value of an item are one reading. Rejected: the
//! distances of items, since of two values that were read of an item one may be nearer and the other farther.

use crate::trace::{ObservedRead, QueryTrace};
use esr_history::History;
use esr_items::{ItemId, Metric, Weighted};
use esr_report::Names;
use esr_text::push_value;
use std::alloc::{AllocError, Global};

/// A value that a query read of an item.
#[derive(Clone, Copy)]
pub struct Reading {
    pub item: u32,
    pub value: i64,
    /// How often it was read.
    pub count: u64,
    /// Whether the query read no other value of the item.
    pub is_only: bool,
}

/// A reading with a distance, or with the difference of two.
#[derive(Clone, Copy)]
pub struct ReadSum {
    pub reading: Reading,
    pub amount: u64,
}

/// Returns the total of some sums.
pub fn total_of_reads(sums: &[ReadSum]) -> u64 {
    let mut total = 0u64;
    for sum in sums {
        total = total.saturating_add(sum.amount);
    }
    total
}

impl Reading {
    /// Returns the reading of an observed read.
    fn of(observed: &ObservedRead) -> Reading {
        Reading {
            item: observed.item.0,
            value: observed.value,
            count: observed.count,
            is_only: true,
        }
    }

    /// Returns whether two readings are of the same value of the same item.
    pub fn is_same(&self, other: &Reading) -> bool {
        self.item == other.item && self.value == other.value
    }

    /// Returns the distance of all its reads if the item has this value.
    pub fn distance(&self, history: &History<Weighted>, there: i64) -> u64 {
        let weight = history.metric().distance(ItemId(self.item), 0, 1);
        let one = self.value.abs_diff(there).saturating_mul(weight);
        one.saturating_mul(self.count)
    }

    /// Appends the name of the item, and the value if the query read others too.
    pub fn push_name(&self, out: &mut String, items: &Names) -> Result<(), AllocError> {
        out.push_str(items.name_of(self.item).unwrap_or(""))?;
        if self.is_only {
            return Ok(());
        }
        out.push_str(" (")?;
        push_value(out, self.value)?;
        out.push(')')
    }
}

/// The readings of a query, ascending by item and value.
#[derive(Drop)]
pub struct Readings {
    list: Vec<Reading>,
}

/// Returns the indices of the observed reads of a query, ascending by item and value.
fn order_of(alloc: Global, observed_reads: &[ObservedRead]) -> Result<Vec<usize>, AllocError> {
    let mut ranks = Vec::new(alloc);
    for (index, observed) in observed_reads.iter().enumerate() {
        ranks.push((observed.item.0, observed.value, index))?;
    }
    ranks.sort_unstable();
    ranks.iter().map(|rank| rank.2).collect(alloc)
}

/// Adds a reading after those of smaller items and values.
fn add(list: &mut Vec<Reading>, mut reading: Reading) -> Result<(), AllocError> {
    if let Some(last) = list.last_mut()
        && last.item == reading.item
    {
        if last.value == reading.value {
            last.count = last.count.saturating_add(reading.count);
            return Ok(());
        }
        last.is_only = false;
        reading.is_only = false;
    }
    list.push(reading)?;
    Ok(())
}

impl Readings {
    /// Returns the readings of the query of a trace.
    pub fn of(alloc: Global, trace: &QueryTrace) -> Result<Readings, AllocError> {
        let observed_reads = &trace.observed_reads;
        let mut list = Vec::new(alloc);
        for index in &order_of(alloc, observed_reads)? {
            if let Some(observed) = observed_reads.get(*index) {
                add(&mut list, Reading::of(observed))?;
            }
        }
        Ok(Readings { list })
    }

    /// Returns the index of the first reading of an item, or of a greater one.
    pub fn start(&self, item: u32) -> usize {
        self.list.partition_point(|reading| reading.item < item)
    }

    /// Returns the index after the last reading of an item, or of a smaller one.
    pub fn end(&self, item: u32) -> usize {
        self.list.partition_point(|reading| reading.item <= item)
    }

    /// Returns the reading at an index.
    pub fn at(&self, index: usize) -> Option<Reading> {
        self.list.get(index).copied()
    }

    /// Returns the readings of these indices, with their amounts.
    pub fn sums(
        &self,
        alloc: Global,
        ranks: &[(u8, u64, usize)],
    ) -> Result<Vec<ReadSum>, AllocError> {
        let mut sums = Vec::new(alloc);
        for (_, rank, index) in ranks {
            if let Some(reading) = self.list.get(*index) {
                sums.push(ReadSum {
                    reading: *reading,
                    amount: u64::MAX.saturating_sub(*rank),
                })?;
            }
        }
        Ok(sums)
    }

    /// Returns the reading of a value of an item.
    pub fn find(&self, item: u32, value: i64) -> Option<Reading> {
        let of_item = self
            .list
            .get(self.start(item)..self.end(item))
            .unwrap_or(&[]);
        of_item
            .iter()
            .find(|reading| reading.value == value)
            .copied()
    }
}
