//! Links the versions of the items: for each access of a committed update, the version that it overwrites, the update that wrote
//! that one, and the update that overwrites its own.
//!
//! An audit that streams (`esr_stream`) proposes an amount for each version. Which version overwrites which does not depend on
//! the query: the updates of a query are those that committed before it, so their positions in commit order are the same for
//! each query, and an overwriter that committed later counts as none. So the index keeps the links, and an audit has nothing
//! to list. A link takes 8 bytes. The links are in the order of the accesses in `AccessRows`.
//!
//! No contract constrains the links: a caller uses them only to propose amounts, and checks these. After a failed allocation
//! they can be wrong. Rejected: a list of the versions for each audit, with the cost of the version that each overwrites. It
//! takes a quarter of the instructions of an audit over 65,000 updates of nine writes, and 16 bytes for an access in place of 8.
use crate::accesses::Access;
use crate::rows::AccessRows;
use crate::scan::is_update;
use esr_history::{History, TxnId};
use esr_items::{ItemId, Metric};
use std::alloc::{AllocError, Global};

/// The position in commit order of no update.
pub const NOBODY: u16 = u16::MAX;

/// The number of no version.
pub const NO_VERSION: u32 = 1 << 31;

/// The neighbors of the version that an access writes.
#[derive(Clone, Copy)]
pub struct VersionLink {
    /// The number of the version that it overwrites: the index of its access, or `u32::MAX` less its item for an opening value. So
    /// in a list of the opening values, from the last item to the first, and then of the accesses, it is at this number plus the
    /// number of items, wrapped. `NO_VERSION` for a read, and for a write that the same update overwrites later.
    pub overwritten: u32,
    /// The position in commit order of the update that wrote the version that it overwrites; `NOBODY` for an opening value.
    pub overwritten_writer: u16,
    /// The position in commit order of the update that overwrites it; `NOBODY` if none does.
    pub overwriter: u16,
}

/// The link of a read, and of a write that the same update overwrites later.
const UNUSED: VersionLink = VersionLink {
    overwritten: NO_VERSION,
    overwritten_writer: NOBODY,
    overwriter: NOBODY,
};

/// Returns an index as a number of a version.
fn to_number(i: usize) -> u32 {
    u32::try_from(i).unwrap_or(NO_VERSION)
}

/// The last version of an item.
#[derive(Clone, Copy)]
struct LastVersion {
    /// As in `VersionLink::overwritten`.
    number: u32,
    /// The position in commit order of its writer; `NOBODY` for an opening value.
    writer: u16,
}

/// The links of the accesses of the committed updates.
#[derive(Drop)]
pub struct VersionLinks {
    links: Vec<VersionLink>,
    /// The index of the first access of each update.
    starts: Vec<u32>,
    /// The last version of each item.
    last: Vec<LastVersion>,
    /// The number of reads among the accesses.
    read_count: usize,
}

impl VersionLinks {
    /// Returns the links of no accesses.
    pub fn new(alloc: Global) -> VersionLinks {
        VersionLinks {
            links: Vec::new(alloc),
            starts: Vec::new(alloc),
            last: Vec::new(alloc),
            read_count: 0,
        }
    }

    /// Returns the links of no accesses, with capacity for those of this many.
    pub fn with_capacity(alloc: Global, accesses: usize) -> Result<VersionLinks, AllocError> {
        Ok(VersionLinks {
            links: Vec::with_capacity(alloc, accesses)?,
            starts: Vec::new(alloc),
            last: Vec::new(alloc),
            read_count: 0,
        })
    }

    /// Returns the links, in the order of the accesses.
    pub fn links(&self) -> &[VersionLink] {
        &self.links
    }

    /// Returns the index of the first access of each update.
    pub fn starts(&self) -> &[u32] {
        &self.starts
    }

    /// Returns the number of reads among the accesses.
    pub fn read_count(&self) -> usize {
        self.read_count
    }

    /// Appends the accesses of the updates among these transactions, which committed next.
    pub(crate) fn add_updates<M: Metric>(
        &mut self,
        history: &History<M>,
        rows: &AccessRows,
        commits: &[TxnId],
    ) -> Result<(), AllocError> {
        for t in commits {
            if is_update(history, *t) {
                self.push_update(rows.row(*t))?;
            }
        }
        Ok(())
    }

    /// Appends the accesses of the update that committed next.
    fn push_update(&mut self, accesses: &[Access]) -> Result<(), AllocError> {
        let update = u16::try_from(self.starts.len()).unwrap_or(NOBODY);
        let start = to_number(self.links.len());
        self.starts.push(start)?;
        for access in accesses {
            if access.writes {
                self.push_write(access.item, update)?;
            } else {
                self.read_count = self.read_count.saturating_add(1);
                self.links.push(UNUSED)?;
            }
        }
        Ok(())
    }

    /// Makes the opening values of the items up to this one their last versions, if they have none.
    fn add_items(&mut self, x: ItemId) -> Result<(), AllocError> {
        for item in self.last.len()..(x.0 as usize).saturating_add(1) {
            self.last.push(LastVersion {
                number: u32::MAX.saturating_sub(to_number(item)),
                writer: NOBODY,
            })?;
        }
        Ok(())
    }

    /// Appends a write by the update at a position.
    fn push_write(&mut self, x: ItemId, update: u16) -> Result<(), AllocError> {
        self.add_items(x)?;
        let x = x.0 as usize;
        let number = to_number(self.links.len());
        let link = if x < self.last.len() {
            let overwritten = self.last[x];
            self.last[x] = LastVersion {
                number,
                writer: update,
            };
            self.overwrite(overwritten, update)
        } else {
            UNUSED
        };
        self.links.push(link)?;
        Ok(())
    }

    /// Returns the link of a write by the update at a position, which overwrites a version. If the same update wrote that version,
    /// its write no longer counts, and the new one takes its link.
    fn overwrite(&mut self, version: LastVersion, update: u16) -> VersionLink {
        let i = version.number as usize;
        if i < self.links.len() {
            if version.writer == update {
                let link = self.links[i];
                self.links[i] = UNUSED;
                return link;
            }
            self.links[i].overwriter = update;
        }
        VersionLink {
            overwritten: version.number,
            overwritten_writer: version.writer,
            overwriter: NOBODY,
        }
    }
}
