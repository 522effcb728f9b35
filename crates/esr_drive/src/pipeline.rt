//! A drive, from its reader to its writer. If a read or a write fails, that is the result, whatever else occurred.

ghost use Rattle.esr_board.specs.declared.board.TheConstants.{MAX_SEATS};
ghost use Rattle.std.specs.Prelude.{◌≡◌, ℕ, List, ◌≤◌, ◌↔◌, true, false, None, map, IfOk, IfErr, IfSome, IsErrOf, IsTrue};
ghost use Rattle.esr_grammar.specs.Lines.{lines};
ghost use Rattle.std.specs.Io.KnownBytes.{Appends};
ghost use Rattle.esr_base.specs.Watch.{inner, failed};
ghost use Rattle.esr_dump.specs.RoundTrip.{IsDump};
ghost use Rattle.esr_drive.specs.Drive.{HasWorkers, IsDriveBy, IsDriveText, IsRenderingOf};
ghost use Rattle.esr_plan.specs.Text.{names_of, text_of};
ghost use Rattle.esr_drive.specs.Driven.{IsDriven};
ghost use Rattle.esr_items.specs.Weights.{weighted};
ghost use Rattle.esr_session.specs.Engine.{AreTotals};
ghost use Rattle.esr_plan.specs.Calls.{all_answers};
ghost use Rattle.esr_drive.specs.Faults.{IsTextFault, IsEngineFault};
ghost use Rattle.esr_plan.specs.DrivePlans.{plan_in, IsSound};
ghost use Rattle.esr_plan.specs.Plan.{line_limit_fault, weights_of};

use crate::blocks::{Driven, drive_blocks};
use crate::findings::push_findings;
use crate::form::DriveOutput;
use crate::parts::TextParts;
use crate::pieces::push_blocks;
use esr_board::Gate;
use esr_dump::script_with_names;
use esr_history::Watched;
use esr_items::Store;
use esr_lint::{LineOutcome, Observer};
use esr_plan::{
    DriveFault, DrivePlan, begun_names, drive_plan_of, metric_of, push_items, read_all,
};
use esr_report::totals_line;
use esr_session::LEDGER_PARTS;
use std::alloc::{AllocError, Global};
use std::io::{Read, Write};
use std::marker::Brand;
use std::sync::Wait;
use std::sync::ledger::Blank;
use std::thread::Threads;

/// Reads a drive file to its end, runs each of its blocks by a session on its own thread, and writes the output in
/// the requested form. The observer sees the line with a fault, if there is one.
pub fn drive<R: Threads + Wait + Sync, I: Read, O: Write, G: Gate + Sync, V: Observer>(
    rt: &R,
    alloc: Global,
    reader: &mut Watched<I>,
    writer: &mut Watched<O>,
    form: DriveOutput,
    gate: &G,
    observer: &mut V,
) -> Result<(), DriveFault>
    requires reader { failed reader.old ≡ false }
    requires writer { failed writer.old ≡ false }
    requires workers { HasWorkers form }
    ensures text { IfSome (I.remaining (inner reader.old)) (λ input. (written : List ℕ)
        × Appends (O.contents (inner writer.old)) (O.contents (inner writer.new)) written
        × IsDriveBy form input (I.remaining (inner reader.new)) result written) }

    // If a read or a write has failed, that is the result.
    ensures reader { IsTrue (failed reader.new) ↔ IsErrOf result DriveFault.Read }
    ensures writer { IsTrue (failed writer.new) ↔ IsErrOf result DriveFault.Write }
{
    let bytes = read_all(alloc, reader)?;
    let text = text_in(rt, alloc, &bytes, form, gate, observer)?;
    text.send(writer).map_err(|_| DriveFault::Write)
}

/// Returns the output for the bytes of a file.
fn text_in<R: Threads + Wait + Sync, G: Gate + Sync, V: Observer>(
    rt: &R,
    alloc: Global,
    bytes: &[u8],
    form: DriveOutput,
    gate: &G,
    observer: &mut V,
) -> Result<TextParts, DriveFault>
    requires read { line_limit_fault 0 (lines bytes.now) ≡ None }
    requires workers { HasWorkers form }
    ensures text { IfOk result (IsDriveText form bytes.now) }
    ensures faults { IfErr result (IsTextFault bytes.now) }
{
    let drive_plan = match drive_plan_of(alloc, bytes, observer.hash_seed()) {
        Ok(drive_plan) => drive_plan,
        Err(fault) => {
            show_line(bytes, fault, observer);
            return Err(fault);
        }
    };
    let driven = match run_plan(rt, alloc, &drive_plan, gate) {
        Ok(driven) => driven,
        Err(fault) => return Err(fault),
    };
    match text_from(rt, alloc, form, &drive_plan, &driven) {
        Ok(text) => Ok(text),
        Err(_) => Err(DriveFault::NoMemory),
    }
}

/// Shows the observer the line with a fault.
fn show_line<V: Observer>(bytes: &[u8], fault: DriveFault, observer: &mut V) {
    let DriveFault::BadScript { line: number, .. } = fault else {
        return;
    };
    let mut count = 0u64;
    for line in bytes.split(|b| *b == b'\n') {
        count = count.saturating_add(1);
        if count == number {
            return observer.see_line(number, line, LineOutcome::Rejected);
        }
    }
}

/// Runs the blocks of a plan on a separate engine.
fn run_plan<R: Threads + Wait + Sync, G: Gate + Sync>(
    rt: &R,
    alloc: Global,
    drive_plan: &DrivePlan<'_>,
    gate: &G,
) -> Result<Driven, DriveFault>
    requires { IsSound drive_plan.now }
    ensures ok { IfOk result (λ d. IsDriven drive_plan.now.values.items (weights_of drive_plan.now.weights.items)
        (map (λ b. b.items) drive_plan.now.blocks.items) d.history.schedule (map (λ r. r.items) d.replies.items)) }
    ensures totals { IfOk result (λ d. AreTotals weighted d.history.schedule d.totals) }
    ensures err { IfErr result (IsEngineFault (map (λ b. b.items) drive_plan.now.blocks.items)) }
{
    let items = Store::of_valid(alloc, &drive_plan.values)?;
    let metric = metric_of(alloc, drive_plan.weights.as_slice())?;
    drive_blocks::<Brand, R, G>(
        rt,
        alloc,
        Blank::new(LEDGER_PARTS),
        items,
        metric,
        drive_plan.blocks.as_slice(),
        gate,
    )
}

/// Returns the text of the blocks' results, in the requested form.
fn text_from<R: Threads + Sync>(
    rt: &R,
    alloc: Global,
    form: DriveOutput,
    drive_plan: &DrivePlan<'_>,
    driven: &Driven,
) -> Result<TextParts, AllocError>
    requires workers { HasWorkers form }
    requires sound { IsSound drive_plan.now }
    requires driven { IsDriven drive_plan.now.values.items (weights_of drive_plan.now.weights.items)
        (map (λ b. b.items) drive_plan.now.blocks.items) driven.now.history.schedule
        (map (λ r. r.items) driven.now.replies.items) }
    requires totals { AreTotals weighted driven.now.history.schedule driven.now.totals }
    ensures { IfOk result (IsRenderingOf form (plan_in drive_plan.now) driven.now.history.schedule
        (all_answers (map (λ b. b.items) drive_plan.now.blocks.items) (map (λ r. r.items) driven.now.replies.items))) }
{
    match form {
        DriveOutput::Text { audit_workers } => {
            answers_from(rt, alloc, audit_workers, drive_plan, driven)
        }
        DriveOutput::Script => script_from(alloc, drive_plan, driven),
    }
}

/// Returns the history of the blocks as a script.
fn script_from(
    alloc: Global,
    drive_plan: &DrivePlan<'_>,
    driven: &Driven,
) -> Result<TextParts, AllocError>
    requires driven { IsDriven drive_plan.now.values.items (weights_of drive_plan.now.weights.items)
        (map (λ b. b.items) drive_plan.now.blocks.items) driven.now.history.schedule
        (map (λ r. r.items) driven.now.replies.items) }
    ensures { IfOk result (IsDump drive_plan.now.names (names_of driven.now.history.schedule
        (all_answers (map (λ b. b.items) drive_plan.now.blocks.items) (map (λ r. r.items) driven.now.replies.items)))
        driven.now.history.schedule) }
{
    let blocks = drive_plan.blocks.as_slice();
    let replies = driven.replies.as_slice();
    let names = begun_names(alloc, &driven.history, blocks, replies)?;
    let script = script_with_names(alloc, &drive_plan.names, &names, &driven.history)?;
    let mut text = TextParts::new(alloc);
    text.push(script)?;
    Ok(text)
}

/// Returns the replies of the blocks, the finding of each query, and the totals.
fn answers_from<R: Threads + Sync>(
    rt: &R,
    alloc: Global,
    workers: u64,
    drive_plan: &DrivePlan<'_>,
    driven: &Driven,
) -> Result<TextParts, AllocError>
    requires workers { (1 ≤ workers) × (workers ≤ MAX_SEATS) }
    requires sound { IsSound drive_plan.now }
    requires driven { IsDriven drive_plan.now.values.items (weights_of drive_plan.now.weights.items)
        (map (λ b. b.items) drive_plan.now.blocks.items) driven.now.history.schedule
        (map (λ r. r.items) driven.now.replies.items) }
    requires totals { AreTotals weighted driven.now.history.schedule driven.now.totals }
    ensures { IfOk result (λ text. text ≡ text_of (plan_in drive_plan.now) driven.now.history.schedule
        (all_answers (map (λ b. b.items) drive_plan.now.blocks.items) (map (λ r. r.items) driven.now.replies.items))) }
{
    let blocks = drive_plan.blocks.as_slice();
    let replies = driven.replies.as_slice();
    let totals = driven.totals;
    let names = begun_names(alloc, &driven.history, blocks, replies)?;
    let mut text = TextParts::new(alloc);
    let mut start = Vec::new(alloc);
    push_items(
        &mut start,
        &drive_plan.names,
        drive_plan.values.as_slice(),
        drive_plan.weights.as_slice(),
    )?;
    text.push(start)?;
    push_blocks(rt, alloc, &mut text, &names, blocks, replies)?;
    let mut end = Vec::new(alloc);
    push_findings(rt, alloc, &mut end, &driven.history, &names, workers)?;
    totals_line(&mut end, totals.import, totals.export, totals.entries)?;
    text.push(end)?;
    Ok(text)
}
