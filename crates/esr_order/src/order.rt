//! Builds the order of a query's updates: the updates, a sparse set of conflicting pairs, and the writers of each item
//! with the values that they left.
//!
//! `of` orders all updates that committed before the query, for tests and other callers. `relevant`, for the audit, orders
//! only those that can affect the query's reads. Both orders have the same smallest closed set of least cost. The pairs
//! have the same closed sets as the whole conflict order, with at most two pairs for each operation. `take_chain` moves
//! chains out of an order one by one, so that an audit's costs can reuse the memory of the values.

ghost use Rattle.std.specs.Prelude.{◌≡◌, ◌↔◌, ◌<◌, ◌≤◌, ◌*◌, ◌^◌, length, map, filter, ℕ, AllPairs, ◌≢◌, false, IfOk, IsErrOf, option_map};
ghost use Rattle.std.specs.List.{range_with_len};
ghost use Rattle.esr_base.specs.declared.limits.TheConstants.{MAX_TRANSACTIONS};
ghost use Rattle.esr_history.specs.Queries.{is_committed_query, must};
ghost use Rattle.esr_order.specs.Chains.{links_view, nth};
ghost use Rattle.esr_order.specs.declared.order.OrderError.TheVariants.{NoMemory};
ghost use Rattle.esr_order.specs.Orders.{ConflictOrder, IsConflictOrder, IsConflictOrderOn, chain_at, operations_of};
ghost use Rattle.esr_order.specs.AccessRows.{AreRowsOf};
ghost use Rattle.esr_order.specs.Index.{IsWholeIndexOf};
ghost use Rattle.esr_order.specs.Relevant.{AreRelevant};
ghost use Rattle.esr_order.specs.Placements.{is_among};
ghost use Rattle.esr_history.specs.Serial.{is_before};
ghost use Rattle.esr_history.specs.Machine.{accepted_in};
ghost use Rattle.esr_history.specs.Operations.{commit_order, operations};

use crate::backward_scan::pairs_and_chains;
use crate::index::Index;
use crate::links::Links;
use crate::rows::AccessRows;
use crate::scan::{committed, count_must, is_committed_query, updates_before};
use crate::search::relevant_of;
use esr_history::{History, TxnId};
use esr_items::{ItemId, Metric};
use std::alloc::{AllocError, Global};
use std::marker::Model;
use std::mem;
use thiserror::Error;

/// Why there is no order of a query.
#[derive(Clone, Copy, PartialEq, Eq, Debug, Error)]
pub enum OrderError {
    /// The transaction is not a query, or has not committed.
    #[error("not a committed query")]
    NotACommittedQuery,
    /// An allocation failed.
    #[error("out of memory")]
    NoMemory,
}

impl From<AllocError> for OrderError {
    ghost from_gives = { λ _ e. e ≡ NoMemory };

    fn from(_: AllocError) -> OrderError {
        OrderError::NoMemory
    }
}

/// Updates that committed before a query, all of them or only the relevant ones; the conflict order among them; and the
/// versions of the items that they leave. Updates are identified by their positions in commit order, which is a serial order of them.
#[derive(Drop)]
pub struct Order {
    /// These updates in commit order.
    commits: Vec<TxnId>,
    /// Pairs of positions of conflicting updates, the earlier first.
    before: Vec<(u32, u32)>,
    /// The positions of the updates that the query must see.
    must: Vec<u32>,
    /// For each item, the updates that wrote it.
    chains: Vec<Links>,
}

impl Model for Order {
    ghost Value = { ConflictOrder };

    ghost view = { λ o. record {
      commits = o.commits.items;
      before = o.before.items;
      must = o.must.items;
      chains = map links_view o.chains.items;
    } };
}

/// Returns the positions 0 to n - 1.
fn first_positions(alloc: Global, n: usize) -> Result<Vec<u32>, AllocError>
    requires { n < 2 ^ 32 }
    ensures { IfOk result (λ v. v.items ≡ range_with_len 0 n) }
{
    (0..n).map(|i| i as u32).collect(alloc)
}

/// Builds the order of these updates, of which the query must have seen the first ones. `writers` has the capacities to
/// reserve for the chains of the items, or is empty.
fn among<M: Metric>(
    alloc: Global,
    history: &History<M>,
    rows: &AccessRows,
    commits: Vec<TxnId>,
    first: usize,
    writers: &[u32],
) -> Result<Order, AllocError>
    requires rows { AreRowsOf history.now.schedule.entries rows.now }
    requires once { AllPairs (λ t u. t ≢ u) (map (λ t. t.0) commits.items) }
    requires count_within_max { length commits.items ≤ MAX_TRANSACTIONS }
    requires keeps { AllPairs (λ u v. is_before history.now.schedule v u ≡ false) (map (λ t. t.0) commits.items) }
    requires first { first ≤ length commits.items }
    ensures commits { IfOk result (λ o. o.commits ≡ commits.items) }
    ensures order { IfOk result (λ o. (q : ℕ) → map (nth (map (λ t. t.0) commits.items)) (range_with_len 0 first)
        ≡ must history.now.schedule q → IsConflictOrderOn history.now.schedule q (map (λ t. t.0) commits.items) o) }
    ensures sparse { IfOk result (λ o. length o.before ≤ 2 * length
        (filter (λ p. is_among (map (λ t. t.0) commits.items) p.txn) (operations history.now.schedule))) }
{
    let _invariant = history.log(); // brings the invariant into the proof
    let gathered = pairs_and_chains(alloc, history, rows, &commits, writers)?;
    let must = first_positions(alloc, first)?;
    Ok(Order {
        commits,
        before: gathered.pairs,
        must,
        chains: gathered.chains,
    })
}

/// Builds the order of the relevant updates of a query, given all committed transactions and the rows of their accesses.
fn relevant_with<M: Metric>(
    alloc: Global,
    history: &History<M>,
    committed: &[TxnId],
    rows: &AccessRows,
    q: TxnId,
) -> Result<Order, OrderError>
    requires list { map (λ t. t.0) committed.now ≡ commit_order (accepted_in history.now.schedule) }
    requires rows { AreRowsOf history.now.schedule.entries rows.now }
    ensures relevant { IfOk result (λ o. AreRelevant history.now.schedule q.0 (map (λ t. t.0) o.commits)) }
    ensures ok { IfOk result (λ o. IsConflictOrderOn history.now.schedule q.0 (map (λ t. t.0) o.commits) o) }
    ensures not_committed_query { IsErrOf result OrderError.NotACommittedQuery
        ↔ (is_committed_query history.now.schedule q.0 ≡ false) }
{
    let _invariant = history.log(); // brings the invariant into the proof
    if !is_committed_query(history, q) {
        return Err(OrderError::NotACommittedQuery);
    }
    let updates = updates_before(alloc, history, committed, q)?;
    let first = count_must(history, &updates, q);
    let relevant = relevant_of(alloc, history, rows, &updates, first, q)?;
    let order = among(
        alloc,
        history,
        rows,
        relevant.updates,
        first,
        &relevant.writes,
    )?;
    Ok(order)
}

impl Order {
    /// Builds the order of a committed query of a legal history.
    pub fn of<M: Metric>(alloc: Global, history: &History<M>, q: TxnId) -> Result<Order, OrderError>
        ensures ok { IfOk result (λ o. IsConflictOrder history.now.schedule q.0 o) }
        ensures sparse { IfOk result (λ o. length o.before ≤ 2 * length (operations_of history.now.schedule q.0)) }
        ensures not_committed_query { IsErrOf result OrderError.NotACommittedQuery
            ↔ (is_committed_query history.now.schedule q.0 ≡ false) }
    {
        let _invariant = history.log(); // brings the invariant into the proof
        if !is_committed_query(history, q) {
            return Err(OrderError::NotACommittedQuery);
        }
        let committed = committed(alloc, history)?;
        let commits = updates_before(alloc, history, &committed, q)?;
        let first = count_must(history, &commits, q);
        let rows = AccessRows::new(alloc);
        let order = among(alloc, history, &rows, commits, first, &[])?;
        Ok(order)
    }

    /// Builds the order of the relevant updates of a committed query of a legal history: those that wrote an item that it
    /// read, those from which a chain of conflicts leads to such an update, and those that it must have seen.
    pub fn relevant<M: Metric>(
        alloc: Global,
        history: &History<M>,
        q: TxnId,
    ) -> Result<Order, OrderError>
        ensures relevant { IfOk result (λ o. AreRelevant history.now.schedule q.0 (map (λ t. t.0) o.commits)) }
        ensures ok { IfOk result (λ o. IsConflictOrderOn history.now.schedule q.0 (map (λ t. t.0) o.commits) o) }
        ensures not_committed_query { IsErrOf result OrderError.NotACommittedQuery
            ↔ (is_committed_query history.now.schedule q.0 ≡ false) }
    {
        if !is_committed_query(history, q) {
            return Err(OrderError::NotACommittedQuery);
        }
        let committed = committed(alloc, history)?;
        Order::relevant_in(alloc, history, &committed, q)
    }

    /// Like `relevant`, for a caller that has the list of committed transactions in commit order, `committed`, which can
    /// be reused for many queries.
    pub fn relevant_in<M: Metric>(
        alloc: Global,
        history: &History<M>,
        committed: &[TxnId],
        q: TxnId,
    ) -> Result<Order, OrderError>
        requires { map (λ t. t.0) committed.now ≡ commit_order (accepted_in history.now.schedule) }
        ensures relevant { IfOk result (λ o. AreRelevant history.now.schedule q.0 (map (λ t. t.0) o.commits)) }
        ensures ok { IfOk result (λ o. IsConflictOrderOn history.now.schedule q.0 (map (λ t. t.0) o.commits) o) }
        ensures not_committed_query { IsErrOf result OrderError.NotACommittedQuery
            ↔ (is_committed_query history.now.schedule q.0 ≡ false) }
    {
        relevant_with(alloc, history, committed, &AccessRows::new(alloc), q)
    }

    /// Like `relevant`, for a caller that keeps an index of the whole history.
    #[tactic(auto, using(crate::proofs::Indexes::index_whole, crate::proofs::Indexes::index_rows))]
    pub fn relevant_by_index<M: Metric>(
        alloc: Global,
        history: &History<M>,
        index: &Index,
        q: TxnId,
    ) -> Result<Order, OrderError>
        requires { IsWholeIndexOf history.now.schedule.entries index.now }
        ensures relevant { IfOk result (λ o. AreRelevant history.now.schedule q.0 (map (λ t. t.0) o.commits)) }
        ensures ok { IfOk result (λ o. IsConflictOrderOn history.now.schedule q.0 (map (λ t. t.0) o.commits) o) }
        ensures not_committed_query { IsErrOf result OrderError.NotACommittedQuery
            ↔ (is_committed_query history.now.schedule q.0 ≡ false) }
    {
        relevant_with(alloc, history, index.commits(), index.rows(), q)
    }

    /// Returns the updates of the order, in commit order: those that committed before the query, or the relevant ones among
    /// them.
    pub fn commits(&self) -> &[TxnId]
        ensures { result.now ≡ self.now.commits }
    {
        &self.commits
    }

    /// Pairs of positions of updates of which the first is before the second in the
    /// conflict order, ascending. The sets that hold with an update all updates before
    /// it are those that hold with the second of each pair the first.
    pub fn before(&self) -> &[(u32, u32)]
        ensures { result.now ≡ self.now.before }
    {
        &self.before
    }

    /// Returns the positions of the updates that a strict query must have seen: those that committed before it began.
    /// Empty for any other query.
    pub fn must(&self) -> &[u32]
        ensures { result.now ≡ self.now.must }
    {
        &self.must
    }

    /// Returns the parts of the order: its updates, the pairs, and the positions that must be seen.
    pub fn into_parts(self) -> (Vec<TxnId>, Vec<(u32, u32)>, Vec<u32>)
        ensures commits { result.0.items ≡ self.commits }
        ensures before { result.1.items ≡ self.before }
        ensures must { result.2.items ≡ self.must }
    {
        (self.commits, self.before, self.must)
    }

    /// Returns the updates that wrote the item, if there are any.
    pub fn chain(&self, x: ItemId) -> Option<&Links>
        ensures { option_map (λ l. links_view l.now) result ≡ chain_at self.now x.0 }
    {
        match self.chains.get(x.0 as usize) {
            Some(links) if !links.writers.is_empty() => Some(links),
            _ => None,
        }
    }

    /// Takes the updates that wrote the item, and the values that they left, out of the order, if there are any.
    pub fn take_chain(&mut self, alloc: Global, x: ItemId) -> Option<Links>
        ensures chain { option_map links_view result ≡ chain_at self.old x.0 }
        ensures others { (y : ℕ) → y ≢ x.0 → chain_at self.new y ≡ chain_at self.old y }
        ensures commits { self.new.commits ≡ self.old.commits }
        ensures before { self.new.before ≡ self.old.before }
        ensures must { self.new.must ≡ self.old.must }
    {
        let chain = self.chains.get_mut(x.0 as usize)?;
        let links = mem::replace(chain, Links::empty(alloc));
        if links.writers.is_empty() {
            return None;
        }
        Some(links)
    }
}
