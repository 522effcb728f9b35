//! Indexes the commits of a growing history, and the accesses of the committed updates.
//!
//! An audit needs the committed transactions in the order of their commits, and the accesses of the updates among them.
//! Without an index it looks at the end of each transaction and sorts the ends, and it walks along the links of each
//! update. A caller that audits several queries keeps an index instead. The index reads each entry of the log once, is
//! lent to each audit, and is extended by the new entries. It does not hold the history: `IsIndexOf` relates it to the
//! entries that it has read. The relation holds for longer logs too, since later entries do not affect it. The index also
//! links each version of an item to the one that it overwrites (`versions`). The relation does not mention these links.
use crate::accesses::Access;
use crate::rows::AccessRows;
use crate::scan::push_committer;
use crate::versions::VersionLinks;
use esr_history::{History, TxnId};
use esr_items::Metric;
use std::alloc::{AllocError, Global};
use std::marker::Model;

/// The transactions that committed in the entries read so far, in commit order, and the accesses of the updates among
/// them.
#[derive(Drop)]
pub struct Index {
    read: usize,
    commits: Vec<TxnId>,
    rows: AccessRows,
    versions: VersionLinks,
}

impl Model for Index {
    ghost use Rattle.esr_order.specs.Index.{Indexed};

    ghost Value = { Indexed };

    ghost view = { λ i. record { read = i.read; commits = i.commits.items; rows = i.rows } };
}

impl Index {
    ghost use Rattle.std.specs.Prelude.{◌≡◌, [], IfOk, OnOk, length};
    ghost use Rattle.esr_order.specs.Index.{IsIndexOf, IsWholeIndexOf};
    ghost use Rattle.esr_order.specs.Scans.{accesses_in};

    /// Creates the index of an empty log.
    pub fn new(alloc: Global) -> Index
        ensures { result ≡ record { read = 0; commits = []; rows = [] } }
    {
        Index {
            read: 0,
            commits: Vec::new(alloc),
            rows: AccessRows::new(alloc),
            versions: VersionLinks::new(alloc),
        }
    }

    /// Creates the index of a history.
    pub fn of<M: Metric>(alloc: Global, history: &History<M>) -> Result<Index, AllocError>
        ensures { IfOk result (IsWholeIndexOf history.now.schedule.entries) }
    {
        let mut index = Index {
            read: 0,
            commits: Vec::new(alloc),
            rows: AccessRows::with_capacity_for(alloc, history.log().len())?,
            versions: VersionLinks::with_capacity(alloc, history.log().len())?,
        };
        index.extend(history)?;
        Ok(index)
    }

    /// Reads the entries that are new. An error leaves it the index of the entries that it has read.
    pub fn extend<M: Metric>(&mut self, history: &History<M>) -> Result<(), AllocError>
        requires { IsIndexOf history.now.schedule.entries self.old }
        ensures index { IsIndexOf history.now.schedule.entries self.new }
        ensures whole { OnOk result (self.new.read ≡ length history.now.schedule.entries) }
    {
        let log = history.log();
        let count = log.len();
        let first = self.commits.len();
        'entries: while self.read < count {
            let Some(entry) = log.get(self.read) else {
                unreachable!()
            };
            push_committer(&mut self.commits, entry)?;
            self.read += 1;
        }
        self.rows.extend(history, &self.commits[first..])?;
        self.versions
            .add_updates(history, &self.rows, &self.commits[first..])
    }

    /// Returns the committed transactions in commit order.
    pub fn commits(&self) -> &[TxnId]
        ensures { result.now ≡ self.now.commits }
    {
        &self.commits
    }

    /// Returns the reads and writes of a transaction, in order. The index has read the whole history. If the index has no
    /// row for the transaction, as for a query, its accesses are listed in `list` and borrowed from there.
    ///
    /// # Errors
    ///
    /// An allocation failed.
    #[tactic(auto, using(crate::proofs::Indexes::index_rows))]
    pub fn accesses_of<'a, M: Metric>(
        &'a self,
        history: &History<M>,
        t: TxnId,
        list: &'a mut Vec<Access>,
    ) -> Result<&'a [Access], AllocError>
        requires { IsWholeIndexOf history.now.schedule.entries self.now }
        ensures { IfOk result (λ accesses. accesses.now ≡ accesses_in history.now.schedule.entries t.0) }
    {
        self.rows.accesses_of(history, t, list)
    }

    /// Returns the links between the versions that the committed updates wrote. No contract constrains them.
    pub fn versions(&self) -> &VersionLinks {
        &self.versions
    }

    /// Returns the accesses to which the links belong. No contract constrains them.
    pub fn linked_accesses(&self) -> &[Access] {
        self.rows.all()
    }

    /// Returns the accesses of the committed updates.
    pub(crate) fn rows(&self) -> &AccessRows
        ensures { result.now ≡ self.now.rows }
    {
        &self.rows
    }
}
