//! The export of each update. A history stores imports and no exports, so a machine replays it. This takes the time and
//! memory of a second run; the machine is dropped before the rows are built. If no query imported anything, no update
//! exported anything, and nothing is replayed.

ghost use Rattle.std.specs.Prelude.{◌≡◌, ◌<◌, ◌≤◌, ◌+◌, true, map, replicate, IfOk};
ghost use Rattle.std.specs.List.{range_with_len};
ghost use Rattle.esr_history.specs.BackLinks.{begun_count};
ghost use Rattle.esr_history.specs.Machine.{charges_in, export_in};
ghost use Rattle.esr_history.specs.Totals.{all_imports};
ghost use Rattle.esr_items.specs.Weights.{weighted};

use esr_core::Machine;
use esr_history::{History, NoMemory, TxnId};
use esr_items::Weighted;
use esr_replay::{MetricRef, Replay};
use std::alloc::{AllocError, Global};

/// Returns the transaction that began after `index` others.
pub fn nth_txn(history: &History<Weighted>, index: usize) -> TxnId
    requires { index < begun_count history.now.schedule.entries }
    ensures { result.0 ≡ index + 1 }
{
    let _invariant = history.log(); // brings the invariant into the proof
    TxnId(index as u32 + 1)
}

/// Returns what the transactions of a machine exported, starting with the nonexistent transaction 0.
fn exports_in(
    alloc: Global,
    machine: &Machine<MetricRef<'_, Weighted>>,
    count: usize,
) -> Result<Vec<u64>, AllocError>
    requires { count ≤ 65536 }
    ensures { IfOk result (λ v. v.items ≡ map (export_in (charges_in weighted machine.now)) (range_with_len 0 count)) }
{
    let mut exports = Vec::new(alloc);
    for number in 0..count {
        exports.push(machine.export(TxnId(number as u32)))?;
    }
    Ok(exports)
}

/// Returns whether no transaction imported anything.
fn imports_nothing(history: &History<Weighted>) -> bool
    ensures { result ≡ true → all_imports weighted history.now.schedule ≡ 0 }
{
    for index in 0..history.begun_count() {
        if history.import(nth_txn(history, index)) > 0 {
            return false;
        }
    }
    true
}

/// Returns what each transaction exported, from a machine that replays the history.
fn replayed_exports(
    alloc: Global,
    history: &History<Weighted>,
    count: usize,
) -> Result<Vec<u64>, NoMemory>
    requires { count ≤ 65536 }
    ensures { IfOk result (λ v. v.items ≡ map (export_in (charges_in weighted history.now.schedule))
        (range_with_len 0 count)) }
{
    let mut replay = Replay::new(alloc, history)?;
    replay.finish()?;
    let exports = exports_in(alloc, replay.machine(), count)?;
    Ok(exports)
}

/// Returns zero exports for `count` transactions.
fn no_exports(alloc: Global, count: usize) -> Result<Vec<u64>, AllocError>
    ensures { IfOk result (λ v. v.items ≡ replicate count 0) }
{
    vec![in alloc; 0u64; count]
}

/// Returns what each transaction exported, by number; transaction 0 does not exist.
pub fn exports(alloc: Global, history: &History<Weighted>) -> Result<Vec<u64>, NoMemory>
    ensures { IfOk result (λ v. v.items ≡ map (export_in (charges_in weighted history.now.schedule))
        (range_with_len 0 (begun_count history.now.schedule.entries + 1))) }
{
    let _invariant = history.log(); // brings the invariant into the proof
    let count = history.begun_count().saturating_add(1);
    if imports_nothing(history) {
        let exports = no_exports(alloc, count)?;
        return Ok(exports);
    }
    replayed_exports(alloc, history, count)
}
