//! Audits a whole script: it is run without its output, and the serial order, the finding of each committed query,
//! and the totals are written. All of it is a function of the history, so the number of workers makes no difference.

ghost use Rattle.esr_board.specs.declared.board.TheConstants.{MAX_SEATS};
ghost use Rattle.std.specs.Prelude.{◌≡◌, ◌≤◌, ℕ, List, Some, false};
ghost use Rattle.esr_base.specs.Watch.{inner, failed};
ghost use Rattle.esr_script.specs.Audit.{IsAuditedBy, IsAuditedScript, audit_output};
ghost use Rattle.esr_script.specs.Parts.{is_read_fault, is_write_fault};
ghost use Rattle.esr_script.specs.Ends.{IsReachedBy};
ghost use Rattle.esr_script.specs.ReaderToWriter.{ReadsAndWrites};
ghost use Rattle.esr_script.specs.Text.{final};

use crate::audited_script::AuditedScript;
use crate::fault::RunFault;
use crate::output::send_all;
use crate::silent_run::replay;
use esr_board::Gate;
use esr_history::Watched;
use esr_lint::Observer;
use std::alloc::Global;
use std::io::{Read, Write};
use std::thread::Threads;

/// Runs a script and returns the output of its audit.
#[tactic(auto, using(crate::proofs::Handed::handed_on))]
fn prepare<T: Threads + Sync, R: Read, G: Gate + Sync, O: Observer>(
    rt: &T,
    alloc: Global,
    reader: &mut Watched<R>,
    workers: u64,
    gate: &G,
    observer: &mut O,
) -> Result<Vec<u8>, RunFault>
    requires reader { failed reader.old ≡ false }
    requires workers { (1 ≤ workers) × (workers ≤ MAX_SEATS) }
    ensures ready { (input : List ℕ) → R.remaining (inner reader.old) ≡ Some input
        → IsReachedBy (λ out. out.items ≡ audit_output (final input)) ⊥ input (R.remaining (inner reader.new)) result }
    ensures reader { failed reader.new ≡ is_read_fault result }
    ensures write { is_write_fault result ≡ false }
{
    let script = replay(alloc, reader, observer)?;
    script.into_audit_output(rt, workers, gate)
}

/// Runs a script without printing its replies, and audits its whole history with `workers` threads, 1 to 64. A worker
/// calls the gate before each audit.
///
/// # Errors
/// `Read` if a read fails; `LineTooLong`, `HistoryFull` and `TooManyLines` if `run` would end so; `NoMemory` if an
/// allocation fails.
#[tactic(auto, using(crate::proofs::Handed::handed_on))]
pub fn audit_silently<T: Threads + Sync, R: Read, G: Gate + Sync, O: Observer>(
    rt: &T,
    alloc: Global,
    reader: &mut Watched<R>,
    workers: u64,
    gate: &G,
    observer: &mut O,
) -> Result<AuditedScript, RunFault>
    requires reader { failed reader.old ≡ false }
    requires workers { (1 ≤ workers) × (workers ≤ MAX_SEATS) }
    ensures audited { (input : List ℕ) → R.remaining (inner reader.old) ≡ Some input
        → IsReachedBy (IsAuditedScript (final input)) ⊥ input (R.remaining (inner reader.new)) result }
    ensures reader { failed reader.new ≡ is_read_fault result }
    ensures write { is_write_fault result ≡ false }
{
    let script = replay(alloc, reader, observer)?;
    script.into_audited(rt, workers, gate)
}

/// Runs a script without writing its output, audits its whole history with `workers` threads, 1 to 64, and writes the
/// committed updates in a serial order, the result of each committed query, and the totals. A worker calls the gate
/// before each audit.
///
/// # Errors
/// `LineTooLong`, `HistoryFull` and `TooManyLines` if `run` would return them. After a fault other than `Write`
/// nothing was written, after `Write` a prefix of the output. `NotACommittedQuery` is never returned.
#[tactic(auto, using(crate::proofs::Handed::handed_on))]
pub fn audit<T: Threads + Sync, R: Read, W: Write, G: Gate + Sync, O: Observer>(
    rt: &T,
    alloc: Global,
    reader: &mut Watched<R>,
    writer: &mut Watched<W>,
    workers: u64,
    gate: &G,
    observer: &mut O,
) -> Result<(), RunFault>
    requires reader { failed reader.old ≡ false }
    requires writer { failed writer.old ≡ false }
    requires workers { (1 ≤ workers) × (workers ≤ MAX_SEATS) }
    ensures { ReadsAndWrites R.remaining W.contents reader.old reader.new writer.old writer.new
        IsAuditedBy result }
{
    let mut out = prepare(rt, alloc, reader, workers, gate, observer)?;
    send_all(&mut out, writer)
}
