//! Plays operations on a machine. A transaction has a new number there, the next one at its begin.

use crate::case::Operation;
use esr_audit::{AuditError, audit_query};
use esr_core::Machine;
use esr_history::{Event, History, Reply, TxnId};
use esr_items::{Metric, Weighted};
use esr_replay::{MetricRef, empty_machine};
use std::alloc::{AllocError, Global};

/// The new number of each transaction, by its number before; 0 if it has not begun.
#[derive(Drop)]
pub struct Numbers {
    numbers: Vec<u32>,
}

impl Numbers {
    /// Returns no numbers, for transactions with numbers below `count`.
    pub fn new(alloc: Global, count: usize) -> Result<Numbers, AllocError> {
        Ok(Numbers {
            numbers: vec![in alloc; 0u32; count]?,
        })
    }

    /// Returns the new number of a transaction.
    pub fn of(&self, txn: TxnId) -> TxnId {
        TxnId(self.numbers.get(txn.0 as usize).copied().unwrap_or(0))
    }

    /// Notes the new number of a transaction that has begun.
    pub fn note(&mut self, txn: TxnId, reply: Reply) {
        if let Reply::Begun(begun) = reply
            && let Some(number) = self.numbers.get_mut(txn.0 as usize)
        {
            *number = begun.0;
        }
    }

    /// Returns the event of an operation, with the new number.
    pub fn renumbered(&self, operation: Operation) -> Event {
        let txn = self.of(operation.txn);
        match operation.event {
            Event::Read { item, .. } => Event::Read { txn, item },
            Event::Write { item, value, .. } => Event::Write { txn, item, value },
            Event::Commit { .. } => Event::Commit { txn },
            Event::Abort { .. } => Event::Abort { txn },
            begin => begin,
        }
    }
}

/// Plays one operation. Returns whether it was accepted.
pub fn play_one<M: Metric>(
    machine: &mut Machine<M>,
    numbers: &mut Numbers,
    operation: Operation,
) -> Result<bool, AllocError> {
    let Ok(reply) = machine.step(numbers.renumbered(operation)) else {
        return Err(AllocError);
    };
    numbers.note(operation.txn, reply);
    Ok(!matches!(reply, Reply::Refused(_)))
}

/// Plays operations until one is refused. Returns whether all were accepted.
fn play(
    machine: &mut Machine<MetricRef<'_, Weighted>>,
    numbers: &mut Numbers,
    case: &[Operation],
) -> Result<bool, AllocError> {
    for operation in case {
        if !play_one(machine, numbers, *operation)? {
            return Ok(false);
        }
    }
    Ok(true)
}

/// Returns the distance of a query after these operations, if all are accepted and it commits.
pub fn distance_after(
    alloc: Global,
    history: &History<Weighted>,
    case: &[Operation],
    query: TxnId,
) -> Result<Option<u64>, AllocError> {
    let mut numbers = Numbers::new(alloc, history.begun_count().saturating_add(1))?;
    match empty_machine(alloc, history) {
        Ok(mut machine) => distance_on(alloc, &mut machine, &mut numbers, case, query),
        Err(_) => Err(AllocError),
    }
}

/// Like `distance_after`, on an empty machine.
fn distance_on(
    alloc: Global,
    machine: &mut Machine<MetricRef<'_, Weighted>>,
    numbers: &mut Numbers,
    case: &[Operation],
    query: TxnId,
) -> Result<Option<u64>, AllocError> {
    if !play(machine, numbers, case)? {
        return Ok(None);
    }
    match audit_query(alloc, machine.history(), numbers.of(query)) {
        Ok(finding) => Ok(Some(finding.distance)),
        Err(AuditError::NoMemory) => Err(AllocError),
        Err(_) => Ok(None),
    }
}
