//! A committed query, with the data that its audit reads.
ghost use Rattle.std.specs.Prelude.{◌≡◌, ◌<◌, ◌+◌, ◌*◌, ℕ, Bool, All, IfOk, IfSome, length, map};
ghost use Rattle.esr_items.specs.Values.{IsValue, value_at};
ghost use Rattle.esr_history.specs.Machine.{IsLegal};
ghost use Rattle.esr_history.specs.Queries.{cost, must};
ghost use Rattle.esr_bound.specs.Amounts.{cost_by};
ghost use Rattle.esr_order.specs.Chains.{nth};
ghost use Rattle.esr_order.specs.Index.{IsWholeIndexOf};
ghost use Rattle.esr_order.specs.Scans.{accesses_in};
ghost use Rattle.esr_stream.specs.Query.{cost_in, updates_of};
ghost use Rattle.esr_stream.specs.declared.reads.TheConstants.{OFFSET};

use crate::reads::{OFFSET, offset_cost, values_by_item};
use esr_base::MAX_VALUE;
use esr_history::{History, TxnId};
use esr_items::{ItemId, Metric};
use esr_order::{Access, Index, VersionLinks, count_must, is_committed_query, updates_before};
use std::alloc::{AllocError, Global};
use std::marker::Model;

/// A committed query of a history, with its audit's data.
#[derive(Drop)]
pub struct AuditedQuery<'a, M: Metric> {
    history: &'a History<M>,
    index: &'a Index,
    query: TxnId,
    /// The updates that committed before the query, in commit order.
    updates: Vec<TxnId>,
    /// The values that the query read, by item.
    values_read: Vec<Vec<i64>>,
}

impl<'a, M: Metric> Model for AuditedQuery<'a, M> {
    ghost use Rattle.std.specs.Prelude.{◌≡◌, length, map, true};
    ghost use Rattle.esr_history.specs.Queries.{is_committed_query, updates_committed_before};
    ghost use Rattle.esr_order.specs.Index.{IsWholeIndexOf};
    ghost use Rattle.esr_stream.specs.Query.{AreValuesRead, QueryView};

    ghost Value = { QueryView };

    ghost view = { λ a. record {
      schedule = a.history.now.schedule;
      query = a.query.0;
      values_read = a.values_read.items;
    } };

    ghost invariant = { λ a. IsWholeIndexOf a.history.now.schedule.entries a.index.now
        × (is_committed_query a.history.now.schedule a.query.0 ≡ true)
        × (map (λ t. t.0) a.updates.items ≡ updates_committed_before a.history.now.schedule a.query.0)
        × AreValuesRead a.history.now.schedule a.query.0 a.values_read.items };
}

impl<'a, M: Metric> AuditedQuery<'a, M> {
    /// Returns a query with its audit's data, or `None` if the transaction is not a committed query.
    ///
    /// # Errors
    ///
    /// An allocation failed.
    pub fn of(
        alloc: Global,
        history: &'a History<M>,
        index: &'a Index,
        query: TxnId,
    ) -> Result<Option<AuditedQuery<'a, M>>, AllocError>
        requires { IsWholeIndexOf history.now.schedule.entries index.now }
        ensures schedule { IfOk result (λ found. IfSome found (λ a. a.schedule ≡ history.entry.now.schedule)) }
        ensures query { IfOk result (λ found. IfSome found (λ a. a.query ≡ query.0)) }
    {
        let _invariant = history.log(); // brings the invariant into the proof
        if !is_committed_query(history, query) {
            return Ok(None);
        }
        let updates = updates_before(alloc, history, index.commits(), query)?;
        let mut list = Vec::new(alloc);
        let reads = index.accesses_of(history, query, &mut list)?;
        let values_read = values_by_item(alloc, reads, history.items())?;
        Ok(Some(AuditedQuery {
            history,
            index,
            query,
            updates,
            values_read,
        }))
    }

    /// Returns the history.
    pub fn history(&self) -> &'a History<M>
        ensures schedule { result.now.schedule ≡ self.now.schedule }
        ensures legal { IsLegal M.distance_by self.now.schedule }
        ensures costs { (S : ℕ → Bool) → cost_by (length self.now.schedule.opening) (cost_in M.distance_by self.now)
            self.now.schedule self.now.query S ≡ length self.now.schedule.opening * OFFSET + cost M.distance_by self.now.schedule self.now.query S }
    {
        let _invariant = self.history.log(); // brings the invariant into the proof
        self.history
    }

    /// Returns the number of the query.
    pub fn query(&self) -> TxnId
        ensures { result.0 ≡ self.now.query }
    {
        self.query
    }

    /// Returns the updates that committed before the query, in commit order.
    pub fn updates(&self) -> &[TxnId]
        ensures len { length result.now ≡ length (updates_of self.now) }
        ensures updates { map (λ t. t.0) result.now ≡ updates_of self.now }
    {
        self.updates.as_slice()
    }

    /// Returns the number of the updates that committed before the query.
    pub fn update_count(&self) -> usize
        ensures { result ≡ length (updates_of self.now) }
    {
        self.updates.len()
    }

    /// Returns how many of these updates every closed set contains.
    pub fn mandatory_count(&self) -> usize
        ensures { result ≡ length (must self.now.schedule self.now.query) }
    {
        count_must(self.history, &self.updates, self.query)
    }

    /// Returns the reads and writes of the update at a position, in order. `list` is as in `Index::accesses_of`.
    ///
    /// # Errors
    ///
    /// An allocation failed.
    pub fn accesses<'b>(
        &self,
        i: usize,
        list: &'b mut Vec<Access>,
    ) -> Result<&'b [Access], AllocError>
    where
        'a: 'b,
        requires { i < length (updates_of self.now) }
        ensures accesses { IfOk result (λ row. row.now ≡ accesses_in self.now.schedule.entries (nth (updates_of self.now) i)) }
        ensures items { IfOk result (λ row. All (λ a. a.item.0 < length self.now.schedule.opening) row.now) }
        ensures values { IfOk result (λ row. All (λ a. IsValue a.value) row.now) }
    {
        let _invariant = self.history.log(); // brings the invariant into the proof
        let row = self.index.accesses_of(self.history, self.updates[i], list)?;
        Ok(row)
    }

    /// Returns the links between the versions that the committed updates wrote.
    pub fn versions(&self) -> &'a VersionLinks {
        self.index.versions()
    }

    /// Returns the accesses to which these links belong.
    pub fn linked_accesses(&self) -> &'a [Access] {
        self.index.linked_accesses()
    }

    /// Returns the number of items.
    pub fn items(&self) -> u32
        ensures { result ≡ length self.now.schedule.opening }
    {
        self.history.items()
    }

    /// Returns the cost of a version of an item, plus the offset.
    pub fn cost(&self, x: ItemId, version: i64) -> u64
        requires item { x.0 < length self.now.schedule.opening }
        requires version { IsValue version }
        ensures { result ≡ cost_in M.distance_by self.now x.0 version }
    {
        offset_cost(self.history.metric(), &self.values_read, x, version)
    }

    /// Returns the cost of the opening value of an item, plus the offset.
    pub fn opening_cost(&self, x: ItemId) -> u64
        requires { x.0 < length self.now.schedule.opening }
        ensures { result ≡ cost_in M.distance_by self.now x.0 (value_at self.now.schedule.opening x.0) }
    {
        self.cost(x, self.history.opening(x))
    }

    /// Returns the cost of a version of an item, plus the offset, or the offset if there is no such item or version.
    pub fn cost_or_zero(&self, x: ItemId, version: i64) -> u64 {
        if x.0 < self.items() && version.unsigned_abs() <= MAX_VALUE {
            self.cost(x, version)
        } else {
            OFFSET
        }
    }

    /// Returns the cost of the opening value of an item, plus the offset, or the offset if there is no such item.
    pub fn opening_cost_or_zero(&self, x: ItemId) -> u64 {
        if x.0 < self.items() {
            self.opening_cost(x)
        } else {
            OFFSET
        }
    }
}
