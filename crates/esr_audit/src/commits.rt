//! The committed updates and the committed queries of a history, each in commit order. An audit of a whole history computes
//! the two lists once for all queries.
ghost use Rattle.std.specs.Prelude.{◌≡◌, ◌≤◌, not, filter, map, All, IfOk, IsTrue, vec_len};
ghost use Rattle.esr_base.specs.declared.limits.TheConstants.{MAX_TRANSACTIONS};
ghost use Rattle.esr_history.specs.Events.{is_query};
ghost use Rattle.esr_history.specs.Machine.{accepted_in};
ghost use Rattle.esr_history.specs.Operations.{commit_order};
ghost use Rattle.esr_history.specs.Queries.{is_committed_query};
ghost use Rattle.esr_history.specs.Serial.{committed_updates};
ghost use Rattle.esr_audit.specs.Findings.{committed_queries};

use crate::reads::is_query;
use esr_history::{History, NoMemory, TxnId};
use esr_items::Metric;
use esr_order::committed;
use std::alloc::{AllocError, Global};

/// The transactions that committed, and those of each kind, in the order of their commits.
#[derive(Drop)]
pub struct CommitLists {
    pub all: Vec<TxnId>,
    pub updates: Vec<TxnId>,
    pub queries: Vec<TxnId>,
}

/// Separates the transactions into queries and updates.
fn lists_among<M: Metric>(
    alloc: Global,
    history: &History<M>,
    txns: Vec<TxnId>,
) -> Result<CommitLists, AllocError>
    ensures all { IfOk result (λ lists. lists.all.items ≡ txns.items) }
    ensures updates { IfOk result (λ lists. lists.updates.items
        ≡ filter (λ t. not (is_query (accepted_in history.now.schedule) t.0)) txns.items) }
    ensures queries { IfOk result (λ lists. lists.queries.items
        ≡ filter (λ t. is_query (accepted_in history.now.schedule) t.0) txns.items) }
{
    let mut updates = Vec::new(alloc);
    let mut queries = Vec::new(alloc);
    for t in &txns {
        if is_query(history, *t) {
            queries.push(*t)?;
        } else {
            updates.push(*t)?;
        }
    }
    Ok(CommitLists {
        all: txns,
        updates,
        queries,
    })
}

/// Returns the committed transactions of a history, and among them the updates and the queries, each in commit order.
pub fn commit_lists<M: Metric>(alloc: Global, history: &History<M>) -> Result<CommitLists, NoMemory>
    ensures all { IfOk result (λ lists. map (λ t. t.0) lists.all.items ≡ commit_order (accepted_in history.now.schedule)) }
    ensures updates { IfOk result (λ lists. map (λ t. t.0) lists.updates.items
        ≡ committed_updates history.now.schedule) }
    ensures queries { IfOk result (λ lists. map (λ t. t.0) lists.queries.items
        ≡ committed_queries history.now.schedule) }
    ensures committed { IfOk result (λ lists. All (λ t. IsTrue
        (is_committed_query history.now.schedule t.0)) lists.queries.items) }
    ensures count_within_max { IfOk result (λ lists. vec_len lists.queries ≤ MAX_TRANSACTIONS) }
{
    let _invariant = history.log(); // brings the invariant into the proof
    let txns = committed(alloc, history)?;
    let lists = lists_among(alloc, history, txns)?;
    Ok(lists)
}
