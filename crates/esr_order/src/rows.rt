//! Records the reads and writes of committed updates while the history grows.
//!
//! An update does nothing after it has committed. So its accesses are fixed then: they are listed once, along the links of the
//! log, and stored in a row, found by transaction number. An audit reads the row twice, to find the relevant updates and to
//! gather pairs and chains. Without rows, 251 audits of one script walked along the links of 65,000 updates 251 times, from
//! entry to entry. The rows are consecutive in one list, in commit order, which is the order in which audits read them.
//!
//! A missing row, for example that of a query, is listed along the links. So the result does not depend on which rows exist,
//! and an audit without any rows (`AccessRows::new`) finds the same. Rejected: storing instead the pairs that end in each
//! update, and a chain for each item, which are fixed too. They take 4 bytes for a pair and 12 for a write instead of 16 for an
//! operation, but an order lists pairs by their first update, so they would have to be sorted for each query.
use crate::accesses::{Access, list_accesses};
use crate::scan::is_update;
use esr_history::{History, TxnId};
use esr_items::Metric;
use std::alloc::{AllocError, Global};
use std::marker::Model;

/// The bounds of a row.
#[derive(Clone, Copy)]
struct RowSpan {
    begin: u32,
    end: u32,
}

/// The reads and writes of committed updates, one row for each update.
#[derive(Drop)]
pub struct AccessRows {
    /// The bounds of each row, by transaction number.
    spans: Vec<RowSpan>,
    accesses: Vec<Access>,
}

impl Model for AccessRows {
    ghost use Rattle.std.specs.Prelude.{List, map, All, length};
    ghost use Rattle.esr_order.specs.Scans.{Access as AccessValue};
    ghost use Rattle.esr_order.specs.AccessRows.{row_in, IsWithin};

    ghost Value = { List (List AccessValue) };

    ghost view = { λ r. map (row_in r.accesses.items) r.spans.items };

    ghost invariant = { λ r. All (IsWithin (length r.accesses.items)) r.spans.items };
}

impl AccessRows {
    ghost use Rattle.std.specs.Prelude.{◌≡◌, ◌⊎◌, ◌<◌, [], ℕ, All, IsTrue, IfOk, OnOk, length, map};
    ghost use Rattle.esr_history.specs.Events.{is_committed};
    ghost use Rattle.esr_history.specs.Machine.{accepted_in};
    ghost use Rattle.esr_order.specs.Scans.{accesses_in};
    ghost use Rattle.esr_order.specs.AccessRows.{row_at, AreRowsOf};

    /// Returns no rows.
    pub fn new(alloc: Global) -> AccessRows
        ensures { result ≡ [] }
    {
        AccessRows {
            spans: Vec::new(alloc),
            accesses: Vec::new(alloc),
        }
    }

    /// Returns no rows, with capacity for this many accesses. A growing list would leave each of its earlier blocks in
    /// the heap.
    pub fn with_capacity_for(alloc: Global, accesses: usize) -> Result<AccessRows, AllocError>
        ensures { IfOk result (λ rows. rows ≡ []) }
    {
        Ok(AccessRows {
            spans: Vec::new(alloc),
            accesses: Vec::with_capacity(alloc, accesses)?,
        })
    }

    /// Returns the accesses of all rows, in the order in which the updates committed. No contract constrains them.
    pub fn all(&self) -> &[Access] {
        &self.accesses
    }

    /// Returns the row of a transaction, or an empty one if there is none.
    pub(crate) fn row(&self, t: TxnId) -> &[Access]
        ensures { result.now ≡ row_at self.now t.0 }
    {
        match self.spans.get(t.0 as usize) {
            None => &[],
            Some(span) => &self.accesses[span.begin as usize..span.end as usize],
        }
    }

    /// Extends the spans to the transactions up to a number.
    fn make_places(&mut self, last: usize) -> Result<(), AllocError>
        ensures rows { (u : ℕ) → row_at self.new u ≡ row_at self.old u }
        ensures place { OnOk result (last < length self.new) }
    {
        while self.spans.len() <= last {
            self.spans.push(RowSpan { begin: 0, end: 0 })?;
        }
        Ok(())
    }

    /// Puts down a row of a transaction.
    fn put(&mut self, t: TxnId, row: &[Access]) -> Result<(), AllocError>
        ensures others { (u : ℕ) → (row_at self.new u ≡ row_at self.old u)
            ⊎ ((u ≡ t.0) × (row_at self.new u ≡ row.now)) }
        ensures row { OnOk result (row_at self.new t.0 ≡ row.now) }
    {
        self.make_places(t.0 as usize)?;
        let begin = self.accesses.len();
        self.accesses.extend_from_slice(row)?;
        let end = self.accesses.len();
        if end > u32::MAX as usize {
            return Err(AllocError);
        }
        self.spans[t.0 as usize] = RowSpan {
            begin: begin as u32,
            end: end as u32,
        };
        Ok(())
    }

    /// Adds rows of the updates among these committed transactions. After an error the rows are still rows of the
    /// history.
    pub fn extend<M: Metric>(
        &mut self,
        history: &History<M>,
        commits: &[TxnId],
    ) -> Result<(), AllocError>
        requires rows { AreRowsOf history.now.schedule.entries self.old }
        requires committed { All (λ t. IsTrue (is_committed (accepted_in history.now.schedule) t.0)) commits.now }
        ensures { AreRowsOf history.now.schedule.entries self.new }
    {
        let mut accesses = Vec::new(*self.accesses.allocator());
        for t in commits {
            if is_update(history, *t) {
                list_accesses(history, *t, &mut accesses)?;
                self.put(*t, &accesses)?;
            }
        }
        Ok(())
    }

    /// Returns the reads and writes of a transaction, in order: its row, or if it has none, the accesses found along
    /// its links, which are collected in `list`.
    pub fn accesses_of<'a, M: Metric>(
        &'a self,
        history: &History<M>,
        t: TxnId,
        list: &'a mut Vec<Access>,
    ) -> Result<&'a [Access], AllocError>
        requires { AreRowsOf history.now.schedule.entries self.now }
        ensures { IfOk result (λ accesses. accesses.now ≡ accesses_in history.now.schedule.entries t.0) }
    {
        let row = self.row(t);
        if !row.is_empty() {
            return Ok(row);
        }
        list_accesses(history, t, list)?;
        Ok(list)
    }
}
