//! The reads of a query, grouped by item, in order.
ghost use Rattle.std.specs.Prelude.{◌≡◌, not, filter, map, IfOk};
ghost use Rattle.esr_history.specs.Events.{is_query};
ghost use Rattle.esr_history.specs.Machine.{accepted_in};
ghost use Rattle.esr_history.specs.Queries.{reads_by};
ghost use Rattle.esr_audit.specs.Reads.{item_read_in, item_read_of};

use esr_history::{History, TxnId};
use esr_items::Metric;
use esr_order::{Access, accesses_of};
use std::alloc::{AllocError, Global};

/// A value that was read of an item.
#[derive(Clone, Copy)]
pub struct ItemRead {
    pub item: u32,
    pub value: i64,
}

/// Returns the reads among these accesses.
fn item_reads_among(alloc: Global, accesses: &[Access]) -> Result<Vec<ItemRead>, AllocError>
    ensures { IfOk result (λ v. v.items ≡ map item_read_in (filter (λ a. not a.writes) accesses.now)) }
{
    accesses
        .iter()
        .filter(|a| !a.writes)
        .map(|a| ItemRead {
            item: a.item.0,
            value: a.value,
        })
        .collect(alloc)
}

/// Returns the reads of the query, in order.
pub fn item_reads<M: Metric>(
    alloc: Global,
    history: &History<M>,
    q: TxnId,
) -> Result<Vec<ItemRead>, AllocError>
    ensures { IfOk result (λ v. v.items ≡ map item_read_of (reads_by history.now.schedule q.0)) }
{
    let accesses = accesses_of(alloc, history, q)?;
    item_reads_among(alloc, &accesses)
}

/// Returns whether the transaction is a query.
pub fn is_query<M: Metric>(history: &History<M>, t: TxnId) -> bool
    ensures { result ≡ is_query (accepted_in history.now.schedule) t.0 }
{
    match history.facts(t) {
        None => false,
        Some(facts) => facts.query,
    }
}
