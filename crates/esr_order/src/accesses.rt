//! Lists the reads and writes of transactions, along their links instead of by a scan of the log. The search for near
//! updates, the audit and explanations all use this list.
ghost use Rattle.std.specs.Prelude.{◌≡◌, IfOk, OnOk};
ghost use Rattle.esr_history.specs.Operations.{answer};
ghost use Rattle.esr_order.specs.Scans.{access_in, access_at, accesses_in};

use esr_history::{Entry, Event, History, Log, Reply, TxnId};
use esr_items::{ItemId, Metric};
use std::alloc::{AllocError, Global};

/// An accepted read or write of an item, with the value read or written. The value is the first field, so that the
/// three fields take 16 bytes instead of 24.
#[derive(Clone, Copy)]
pub struct Access {
    pub value: i64,
    pub item: ItemId,
    pub writes: bool,
}

/// Returns the value in a reply.
fn answer_of(reply: Reply) -> i64
    ensures { result ≡ answer reply }
{
    match reply {
        Reply::Value(value) => value,
        _ => 0,
    }
}

/// Returns the access of an entry, if it is an accepted read or write.
pub fn access_in(entry: Entry) -> Option<Access>
    ensures { result ≡ access_in entry }
{
    if entry.is_refused() {
        return None;
    }
    match entry.event {
        Event::Read { txn: _, item } => Some(Access {
            item,
            writes: false,
            value: answer_of(entry.reply),
        }),
        Event::Write {
            txn: _,
            item,
            value,
        } => Some(Access {
            item,
            writes: true,
            value,
        }),
        _ => None,
    }
}

/// Returns the access of the entry at an index.
fn access_at(log: &Log, i: u64) -> Option<Access>
    ensures { result ≡ access_at log.now.entries i }
{
    log.get(i as usize).and_then(access_in)
}

/// Replaces the contents of the list by the reads and writes of a transaction, in order. Follows the transaction's
/// links.
pub fn list_accesses<M: Metric>(
    history: &History<M>,
    t: TxnId,
    accesses: &mut Vec<Access>,
) -> Result<(), AllocError>
    ensures { OnOk result (accesses.new.items ≡ accesses_in history.now.schedule.entries t.0) }
{
    let log = history.log();
    accesses.clear();
    let mut next = history.last_of_txn(t);
    while let Some(i) = next {
        if let Some(access) = access_at(log, i) {
            accesses.push(access)?;
        }
        next = history.earlier_of_txn(i);
    }
    accesses.reverse();
    Ok(())
}

/// Returns the reads and writes of a transaction, in order.
pub fn accesses_of<M: Metric>(
    alloc: Global,
    history: &History<M>,
    t: TxnId,
) -> Result<Vec<Access>, AllocError>
    ensures { IfOk result (λ v. v.items ≡ accesses_in history.now.schedule.entries t.0) }
{
    let mut accesses = Vec::new(alloc);
    list_accesses(history, t, &mut accesses)?;
    Ok(accesses)
}
