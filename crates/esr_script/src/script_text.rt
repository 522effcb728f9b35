//! Writes a text of a whole script: it is run without its output, and a view renders its final state. After a fault
//! other than a failed write nothing was written.

ghost use Rattle.std.specs.Prelude.{◌≡◌, ◌⊎◌, ℕ, List, IfOk, IfErr, false, Some};
ghost use Rattle.esr_base.specs.Watch.{inner, failed};
ghost use Rattle.esr_script.specs.Ends.{IsReachedBy, IsWhole};
ghost use Rattle.esr_script.specs.Parts.{is_read_fault, is_write_fault};
ghost use Rattle.esr_script.specs.ReaderToWriter.{ReadsAndWrites};
ghost use Rattle.esr_script.specs.ScriptView.{IsRenderedBy};
ghost use Rattle.esr_script.specs.Text.{ScriptState, final};
ghost use Rattle.esr_views.specs.QueryAnswers.{IsRecorded};

use crate::entry_lines::EntryLines;
use crate::fault::RunFault;
use crate::output::send_all;
use crate::script::Script;
use crate::silent_run::replay;
use esr_history::Watched;
use esr_lint::Observer;
use esr_views::{Recording, ScriptView};
use std::alloc::Global;
use std::io::{Read, Write};

/// Returns the text of a view, or the fault of the run if there is none.
fn text_about<S: ScriptView>(
    alloc: Global,
    recording: &Recording<'_>,
    render_script: &S,
) -> Result<Vec<u8>, RunFault>
    ensures text { (s : ScriptState) → IsRecorded s recording.now
        → IfOk result (λ text. S.IsTextOf render_script.now s text.items) }
    ensures faults { IfErr result (λ e. (e ≡ RunFault.NoMemory) ⊎ (e ≡ RunFault.NotACommittedQuery)) }
    ensures read { is_read_fault result ≡ false }
    ensures write { is_write_fault result ≡ false }
{
    match render_script.text_of(alloc, recording) {
        Ok(Some(text)) => Ok(text),
        Ok(None) => Err(RunFault::NotACommittedQuery),
        Err(_) => Err(RunFault::NoMemory),
    }
}

/// Returns the text of a view of a script's final state.
fn text_of<S: ScriptView>(
    alloc: Global,
    script: Script,
    lines: Option<&[u32]>,
    render_script: &S,
) -> Result<Vec<u8>, RunFault>
    ensures text { IfOk result (λ text. S.IsTextOf render_script.now script text.items) }
    ensures faults { IfErr result (λ e. (e ≡ RunFault.NoMemory) ⊎ (e ≡ RunFault.NotACommittedQuery)) }
    ensures read { is_read_fault result ≡ false }
    ensures write { is_write_fault result ≡ false }
{
    let Some(lines) = lines else {
        return Err(RunFault::NoMemory);
    };
    match script.recording(lines) {
        Ok(recording) => text_about(alloc, &recording, render_script),
        Err(_) => Err(RunFault::NoMemory),
    }
}

/// Runs a script, and returns the text of a view of it.
#[tactic(auto, using(crate::proofs::Handed::handed_on))]
fn script_view_text<R: Read, S: ScriptView, O: Observer>(
    alloc: Global,
    reader: &mut Watched<R>,
    render_script: &S,
    observer: &mut O,
) -> Result<Vec<u8>, RunFault>
    requires reader { failed reader.old ≡ false }
    ensures text { (input : List ℕ) → R.remaining (inner reader.old) ≡ Some input
        → IsReachedBy (λ text. S.IsTextOf render_script.now (final input) text.items) (IsWhole input)
        input (R.remaining (inner reader.new)) result }
    ensures reader { failed reader.new ≡ is_read_fault result }
    ensures write { is_write_fault result ≡ false }
{
    let mut numbering = EntryLines::new(alloc, observer);
    let script = replay(alloc, reader, &mut numbering)?;
    script.show_transactions(&mut numbering);
    text_of(alloc, script, numbering.lines(), render_script)
}

/// Runs a script without writing its output, and writes the text of a view of it.
///
/// # Errors
/// `LineTooLong`, `HistoryFull` and `TooManyLines` if `run` would return them; `NotACommittedQuery` if the view has
/// nothing to show; `NoMemory` also if no text is made. After a fault other than `Write` nothing was written, after
/// `Write` a prefix of the text.
#[tactic(auto, using(crate::proofs::Handed::handed_on))]
pub fn render_script<R: Read, W: Write, S: ScriptView, O: Observer>(
    alloc: Global,
    reader: &mut Watched<R>,
    writer: &mut Watched<W>,
    render_script: &S,
    observer: &mut O,
) -> Result<(), RunFault>
    requires reader { failed reader.old ≡ false }
    requires writer { failed writer.old ≡ false }
    ensures { ReadsAndWrites R.remaining W.contents reader.old reader.new writer.old writer.new
        (λ input. IsRenderedBy (S.IsTextOf render_script.now (final input)) input) result }
{
    let mut text = script_view_text(alloc, reader, render_script, observer)?;
    send_all(&mut text, writer)
}
