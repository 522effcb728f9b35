//! A run over a script, from its reader to its writer.
//!
//! The output is written before the run waits for more input, so the program can be used at a terminal and as a
//! coprocess; the last flush is checked, so an Ok means that the last bytes were taken too.

ghost use Rattle.std.specs.Prelude.{◌≡◌, ℕ, List, [], ◌++◌, Option, Err, IsErrOf, false, ◌||◌};
ghost use Rattle.std.specs.Io.KnownBytes.{Appends};
ghost use Rattle.esr_base.specs.Watch.{inner, failed};
ghost use Rattle.esr_script.specs.Run.{IsRunBy};
ghost use Rattle.esr_script.specs.Parts.{IsHeldRun, is_read_fault, is_write_fault};
ghost use Rattle.esr_script.specs.ReaderToWriter.{ReadsAndWrites};

use crate::fault::RunFault;
use crate::input::InputBuffer;
use crate::lines::answer_lines;
use crate::output::{OUTPUT_ROOM, send_all};
use crate::script::Script;
use crate::text_buffer::TextBuffer;
use esr_history::Watched;
use esr_lint::Observer;
use std::alloc::Global;
use std::io::{Read, Write};

/// Reads a script to its end and writes its text.
///
/// The output is written before the run waits for more input. After a fault other than `Write`, exactly the text of
/// the lines before it was written; after `Write` a prefix of the output was.
pub fn run<R: Read, W: Write, O: Observer>(
    alloc: Global,
    reader: &mut Watched<R>,
    writer: &mut Watched<W>,
    observer: &mut O,
) -> Result<(), RunFault>
    requires reader { failed reader.old ≡ false }
    requires writer { failed writer.old ≡ false }
    ensures { ReadsAndWrites R.remaining W.contents reader.old reader.new writer.old writer.new
        IsRunBy result }
{
    let Ok(mut pending) = InputBuffer::new(alloc) else {
        return Err(RunFault::NoMemory);
    };
    let Ok(mut out) = TextBuffer::with_capacity(alloc, OUTPUT_ROOM) else {
        return Err(RunFault::NoMemory);
    };
    let mut script = Script::new(alloc, observer.hash_seed());
    let mut lines = 0;
    let ended = answer_lines(
        reader,
        writer,
        &mut pending,
        &mut lines,
        &mut script,
        &mut out,
        observer,
    );
    let mut text = out.take_text();
    let ended = send_rest(ended, &mut text, writer);
    observer.see_end(lines);
    ended
}

/// Returns whether the reader or the writer has failed.
fn is_lost(ended: Result<(), RunFault>) -> bool
    ensures { result ≡ (is_read_fault ended || is_write_fault ended) }
{
    matches!(ended, Err(RunFault::Read | RunFault::Write))
}

/// Sends the rest of the output of a run that ended so, unless the reader or the writer has failed.
#[tactic(auto, using(crate::proofs::Handed::handed_on))]
fn send_rest<W: Write>(
    ended: Result<(), RunFault>,
    out: &mut Vec<u8>,
    writer: &mut Watched<W>,
) -> Result<(), RunFault>
    requires read { IsErrOf ended RunFault.Read → out.old.items ≡ [] }
    requires writer { failed writer.old ≡ is_write_fault ended }
    ensures text { (input sent : List ℕ) (left : Option (List ℕ)) → IsHeldRun input left out.old.items ended sent
        → (rest : List ℕ) × Appends (W.contents (inner writer.old)) (W.contents (inner writer.new)) rest
        × IsRunBy input left result (sent ++ rest) }
    ensures read { is_read_fault result ≡ is_read_fault ended }
    ensures writer { failed writer.new ≡ is_write_fault result }
{
    if is_lost(ended) {
        return ended;
    }
    send_all(out, writer)?;
    ended
}
