//! The accepted events of a history, as far as they can concern a query.

use esr_history::{Entry, Event, History, TxnId};
use esr_items::{ItemId, Weighted};
use std::alloc::{AllocError, Global};

/// An accepted event, with the transaction that executes it; of a begin, the one that begins.
#[derive(Clone, Copy)]
pub struct Operation {
    pub txn: TxnId,
    pub event: Event,
}

impl Operation {
    /// Returns whether it begins or ends a transaction.
    pub fn is_bound(self) -> bool {
        !matches!(self.event, Event::Read { .. } | Event::Write { .. })
    }

    /// Returns whether it ends a transaction.
    fn is_end(self) -> bool {
        matches!(self.event, Event::Commit { .. } | Event::Abort { .. })
    }

    /// Returns the item that it reads or writes.
    pub fn item(self) -> Option<ItemId> {
        match self.event {
            Event::Read { item, .. } | Event::Write { item, .. } => Some(item),
            _ => None,
        }
    }
}

/// Returns the operation of an entry, if it was accepted.
fn operation_of(entry: Entry) -> Option<Operation> {
    if entry.is_refused() {
        return None;
    }
    Some(Operation {
        txn: entry.txn()?,
        event: entry.event,
    })
}

/// Returns whether an operation concerns a query: after its end, at the given place, only the ends of other transactions do, and
/// other queries never do.
fn is_kept(history: &History<Weighted>, query: TxnId, place: usize, operation: Operation) -> bool {
    let Some(facts) = history.facts(operation.txn) else {
        return false;
    };
    let end = history.facts(query).and_then(|facts| facts.end);
    let is_before_end = end.is_none_or(|end| place as u64 <= end);
    (operation.txn == query || !facts.query) && (is_before_end || operation.is_end())
}

/// Returns the accepted events that can concern a query, in their order.
pub fn case_of(
    alloc: Global,
    history: &History<Weighted>,
    query: TxnId,
) -> Result<Vec<Operation>, AllocError> {
    let mut case = Vec::new(alloc);
    let log = history.log();
    for place in 0..log.len() {
        if let Some(entry) = log.get(place)
            && let Some(operation) = operation_of(entry)
            && is_kept(history, query, place, operation)
        {
            case.push(operation)?;
        }
    }
    Ok(case)
}

/// Marks the begins among operations.
fn begun_among(alloc: Global, case: &[Operation], count: usize) -> Result<Vec<bool>, AllocError> {
    let mut begun = vec![in alloc; false; count]?;
    for operation in case {
        if matches!(
            operation.event,
            Event::BeginUpdate { .. } | Event::BeginQuery { .. }
        )
            && let Some(mark) = begun.get_mut(operation.txn.0 as usize)
        {
            *mark = true;
        }
    }
    Ok(begun)
}

/// Returns the operations of transactions whose begin is among them.
pub fn without_strangers(
    alloc: Global,
    case: &[Operation],
    count: usize,
) -> Result<Vec<Operation>, AllocError> {
    let begun = begun_among(alloc, case, count)?;
    let mut kept = Vec::new(alloc);
    for operation in case {
        if begun.get(operation.txn.0 as usize) == Some(&true) {
            kept.push(*operation)?;
        }
    }
    Ok(kept)
}
