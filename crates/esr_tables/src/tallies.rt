//! The numbers of each transaction's lines that were accepted, and that were blocked for each reason: one pass over
//! the entries, with a few numbers for each transaction.

ghost use Rattle.std.specs.Prelude.{◌≡◌, ◌<◌, ◌++◌, ◌∷◌, [], List, length, All, IfOk};
ghost use Rattle.esr_history.specs.declared.event.Entry.{Entry};
ghost use Rattle.esr_history.specs.BackLinks.{begun_count};
ghost use Rattle.esr_tables.specs.Rows.{tally_of};
ghost use Rattle.esr_tables.specs.Entries.{with_reply, IsCountable, AreTallies};

use esr_history::{Entry, History, Refusal, Reply};
use esr_items::Weighted;
use std::alloc::{AllocError, Global};

/// The counts of a transaction's lines, by their replies.
#[derive(Clone, Copy)]
pub struct Tally {
    /// Accepted reads.
    pub reads: u64,
    /// Accepted writes.
    pub writes: u64,
    /// Blocked by a lock.
    pub blocked_by_lock: u64,
    /// Blocked by the import limit of a query.
    pub blocked_by_import: u64,
    /// Blocked by the export limit of an update.
    pub blocked_by_export: u64,
}

/// No line.
const NONE: Tally = Tally {
    reads: 0,
    writes: 0,
    blocked_by_lock: 0,
    blocked_by_import: 0,
    blocked_by_export: 0,
};

/// Returns the tally with one more reply.
fn with_reply(tally: Tally, reply: Reply) -> Tally
    requires { IsCountable tally }
    ensures { result ≡ with_reply tally reply }
{
    match reply {
        Reply::Value(_) => Tally {
            reads: tally.reads + 1,
            ..tally
        },
        Reply::Wrote => Tally {
            writes: tally.writes + 1,
            ..tally
        },
        Reply::Refused(Refusal::BlockedByLock(_)) => Tally {
            blocked_by_lock: tally.blocked_by_lock + 1,
            ..tally
        },
        Reply::Refused(Refusal::BlockedByImport(_)) => Tally {
            blocked_by_import: tally.blocked_by_import + 1,
            ..tally
        },
        Reply::Refused(Refusal::BlockedByExport(_)) => Tally {
            blocked_by_export: tally.blocked_by_export + 1,
            ..tally
        },
        _ => tally,
    }
}

/// Counts an entry for the transaction that it is of.
fn count(tallies: &mut Vec<Tally>, entry: Entry)
    requires { All IsCountable tallies.old.items }
    ensures length { length tallies.new.items ≡ length tallies.old.items }
    ensures tallies { (es : List Entry) → AreTallies es tallies.old.items
        → AreTallies (es ++ entry ∷ []) tallies.new.items }
{
    let Some(txn) = entry.txn() else {
        return;
    };
    let t = txn.0 as usize;
    if t < tallies.len() {
        tallies[t] = with_reply(tallies[t], entry.reply);
    }
}

/// Returns the tallies of the transactions, by number; transaction 0 does not exist.
pub fn tallies(alloc: Global, history: &History<Weighted>) -> Result<Vec<Tally>, AllocError>
    ensures length { IfOk result (λ v. begun_count history.now.schedule.entries < length v.items) }
    ensures tallies { IfOk result (λ v. AreTallies history.now.schedule.entries v.items) }
{
    let log = history.log();
    let mut tallies = vec![in alloc; NONE; history.begun_count().saturating_add(1)]?;
    for place in 0..log.len() {
        let Some(entry) = log.get(place) else {
            unreachable!()
        };
        count(&mut tallies, entry);
    }
    Ok(tallies)
}
