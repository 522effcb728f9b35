//! The reads of the updates, as arcs of the flow that is proposed for the versions (`amounts`). No contract constrains it.
//!
//! A closed set that contains an update contains the writer of each version that the update reads; with the overwriter of this
//! version, it contains the update. In the network these are two arcs of unlimited capacity: from the reader to the writer, whose
//! flow is the *raise* of the amount by the read, and from the overwriter to the reader, whose flow is the *loan*. A version that
//! no update overwrites has no second arc, and an opening value has no first one.
//!
//! The reads are in a separate table, in commit order, so updates that only write pay nothing for them. It is filled when the
//! first search starts: without an excess, no read has a raise or a loan. Rejected: to fill it before the sweep, which
//! makes the audits of the load `few` of `bench/audit` take 1.5 times the time.
use crate::amounts::{NONE, elements_of, opening_id, to_u16_or_nobody};
use crate::query::AuditedQuery;
use esr_items::Metric;
use esr_order::{Access, NOBODY};
use std::alloc::{AllocError, Global};

/// A read of a version by an update.
#[derive(Clone, Copy)]
pub struct UpdateRead {
    /// The flow from the reader to the writer.
    pub raise: u64,
    /// The flow from the overwriter to the reader.
    pub loan: u64,
    /// The id of the version that it reads.
    pub version: u32,
    /// The id that the read itself has among the accesses.
    pub id: u32,
    /// The index of the next read of the same version, or `NONE`.
    next: u32,
    /// The position in commit order of the reader.
    pub reader: u16,
    /// The position in commit order of the update that wrote the version; `NOBODY` for an opening value.
    pub writer: u16,
    /// The position in commit order of the update that overwrites the version; `NOBODY` if none does.
    pub overwriter: u16,
}

/// The current version of an item while the reads are listed.
#[derive(Clone, Copy)]
struct CurrentVersion {
    id: u32,
    /// The index of the last read of it, or `NONE`.
    last_read: u32,
    /// The position in commit order of its writer; `NOBODY` for an opening value.
    writer: u16,
}

/// The reads of the updates in commit order.
#[derive(Drop)]
pub struct UpdateReads {
    reads: Vec<UpdateRead>,
    /// The index of the first read of each update, and the end of the last update's reads.
    starts: Vec<u32>,
    /// For each version, the index of the last read of it, or `NONE`. Empty before the reads are listed.
    first_of_version: Vec<u32>,
}

impl UpdateReads {
    /// Returns no reads.
    pub fn new(alloc: Global) -> UpdateReads {
        UpdateReads {
            reads: Vec::new(alloc),
            starts: Vec::new(alloc),
            first_of_version: Vec::new(alloc),
        }
    }

    /// Returns the reads of the updates. `first_accesses` has the index of the first access of each update, `versions` is the number
    /// of versions, and `read_count` at least the number of reads: a growing list would leave each of its earlier blocks in the heap.
    pub fn of<M: Metric>(
        alloc: Global,
        query: &AuditedQuery<M>,
        first_accesses: &[u32],
        versions: usize,
        read_count: usize,
        buffer: &mut Vec<Access>,
    ) -> Result<UpdateReads, AllocError> {
        let mut reads = UpdateReads {
            reads: Vec::with_capacity(alloc, read_count)?,
            starts: Vec::with_capacity(alloc, query.update_count().saturating_add(1))?,
            first_of_version: vec![in alloc; NONE; versions]?,
        };
        let mut current = opening_versions(alloc, query.items())?;
        for i in 0..query.update_count() {
            let accesses = query.accesses(i, buffer)?;
            let first_access = first_accesses.get(i).copied().unwrap_or(NONE);
            let first_version = first_access.saturating_add(query.items());
            reads.push_update(&mut current, accesses, to_u16_or_nobody(i), first_version)?;
        }
        reads.push_start()?;
        for version in &current {
            reads.end_version(*version, NOBODY);
        }
        Ok(reads)
    }

    /// Notes that the reads of the next update begin here.
    fn push_start(&mut self) -> Result<(), AllocError> {
        let start = u32::try_from(self.reads.len()).unwrap_or(NONE);
        self.starts.push(start)?;
        Ok(())
    }

    /// Appends the reads of an update. `first_version` is the id of its first access.
    fn push_update(
        &mut self,
        current: &mut [CurrentVersion],
        accesses: &[Access],
        update: u16,
        first_version: u32,
    ) -> Result<(), AllocError> {
        self.push_start()?;
        let mut id = first_version;
        for access in accesses {
            let x = access.item.0 as usize;
            if x < current.len() {
                let version = current[x];
                current[x] = if access.writes {
                    self.end_version(version, update);
                    CurrentVersion {
                        id,
                        last_read: NONE,
                        writer: update,
                    }
                } else {
                    self.push(version, update, id)?
                };
            }
            id = id.saturating_add(1);
        }
        Ok(())
    }

    /// Appends a read of a version by the update at the position `reader`. Returns the version with this read.
    fn push(
        &mut self,
        version: CurrentVersion,
        reader: u16,
        id: u32,
    ) -> Result<CurrentVersion, AllocError> {
        let r = u32::try_from(self.reads.len()).unwrap_or(NONE);
        self.reads.push(UpdateRead {
            raise: 0,
            loan: 0,
            version: version.id,
            id,
            next: version.last_read,
            reader,
            writer: version.writer,
            overwriter: NOBODY,
        })?;
        Ok(CurrentVersion {
            last_read: r,
            ..version
        })
    }

    /// Notes the reads of a version for its id, and for each of them the update that overwrites the version.
    fn end_version(&mut self, version: CurrentVersion, overwriter: u16) {
        let id = version.id as usize;
        if id < self.first_of_version.len() {
            self.first_of_version[id] = version.last_read;
        }
        let mut r = version.last_read as usize;
        for _ in 0..self.reads.len() {
            if self.reads.len() <= r {
                return;
            }
            self.reads[r].overwriter = overwriter;
            r = self.reads[r].next as usize;
        }
    }

    /// Returns the number of reads.
    pub fn len(&self) -> usize {
        self.reads.len()
    }

    /// Returns whether the reads are listed.
    pub fn is_listed(&self) -> bool {
        !self.first_of_version.is_empty()
    }

    /// Returns whether no update reads, or the reads are not listed.
    pub fn is_empty(&self) -> bool {
        self.reads.is_empty()
    }

    /// Returns the index of the first read of an update.
    pub fn first_of_update(&self, update: u16) -> u32 {
        self.starts.get(update as usize).copied().unwrap_or(NONE)
    }

    /// Returns the reads of an update.
    pub fn of_update(&self, update: u16) -> &[UpdateRead] {
        elements_of(&self.reads, &self.starts, update)
    }

    /// Returns the index of a read of a version, from which `next_of` leads to the others, or `NONE`.
    pub fn first_of_version(&self, version: u32) -> u32 {
        self.first_of_version
            .get(version as usize)
            .copied()
            .unwrap_or(NONE)
    }

    /// Returns a read.
    pub fn get(&self, r: u32) -> Option<UpdateRead> {
        self.reads.get(r as usize).copied()
    }

    /// Returns the index of the next read of the same version.
    pub fn next_of(&self, read: UpdateRead) -> u32 {
        read.next
    }

    /// Adds to the raise by a read.
    pub fn add_raise(&mut self, r: u32, more: u64) {
        let r = r as usize;
        if r < self.reads.len() {
            self.reads[r].raise = self.reads[r].raise.saturating_add(more);
        }
    }

    /// Subtracts from the raise by a read.
    pub fn subtract_raise(&mut self, r: u32, less: u64) {
        let r = r as usize;
        if r < self.reads.len() {
            self.reads[r].raise = self.reads[r].raise.saturating_sub(less);
        }
    }

    /// Adds to the loan of a read.
    pub fn add_loan(&mut self, r: u32, more: u64) {
        let r = r as usize;
        if r < self.reads.len() {
            self.reads[r].loan = self.reads[r].loan.saturating_add(more);
        }
    }

    /// Subtracts from the loan of a read.
    pub fn subtract_loan(&mut self, r: u32, less: u64) {
        let r = r as usize;
        if r < self.reads.len() {
            self.reads[r].loan = self.reads[r].loan.saturating_sub(less);
        }
    }
}

/// Returns the versions of the items before all updates.
fn opening_versions(alloc: Global, items: u32) -> Result<Vec<CurrentVersion>, AllocError> {
    let mut versions = Vec::with_capacity(alloc, items as usize)?;
    for x in 0..items {
        versions.push(CurrentVersion {
            id: opening_id(items, x),
            last_read: NONE,
            writer: NOBODY,
        })?;
    }
    Ok(versions)
}
