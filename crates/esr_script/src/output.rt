//! Writes the output of a run. The line of an audit names all updates before the query, half a megabyte for 65,000
//! updates, so after a write the buffer releases its capacity beyond the usual one.

ghost use Rattle.std.specs.Prelude.{◌≡◌, ℕ, List, [], OnOk, IfErr, ◌||◌};
ghost use Rattle.std.specs.Io.KnownBytes.{Appends};
ghost use Rattle.esr_base.specs.Watch.{inner, failed, BeginsWith};
ghost use Rattle.esr_script.specs.Parts.{is_write_fault};

use crate::fault::RunFault;
use esr_history::Watched;
use std::io::Write;

/// The capacity of an empty output buffer. A line of names may increase it.
pub const OUTPUT_ROOM: usize = 65536;

/// Writes a text and flushes it.
pub fn send<W: Write>(text: &[u8], writer: &mut Watched<W>) -> Result<(), RunFault>
    ensures ok { OnOk result (Appends (W.contents (inner writer.old)) (W.contents (inner writer.new)) text.now) }
    ensures err { IfErr result (λ e. (e ≡ RunFault.Write) × ((sent : List ℕ) × BeginsWith text.now sent
        × Appends (W.contents (inner writer.old)) (W.contents (inner writer.new)) sent)) }
    ensures failed { failed writer.new ≡ (failed writer.old || is_write_fault result) }
{
    match writer.send_all(text) {
        Ok(()) => Ok(()),
        Err(_) => Err(RunFault::Write),
    }
}

/// Writes out what the buffer holds, flushes it and empties the buffer.
pub fn send_all<W: Write>(out: &mut Vec<u8>, writer: &mut Watched<W>) -> Result<(), RunFault>
    ensures ok { OnOk result ((out.new.items ≡ [])
        × Appends (W.contents (inner writer.old)) (W.contents (inner writer.new)) out.old.items) }
    ensures err { IfErr result (λ e. (e ≡ RunFault.Write) × ((sent : List ℕ) × BeginsWith out.old.items sent
        × Appends (W.contents (inner writer.old)) (W.contents (inner writer.new)) sent)) }
    ensures failed { failed writer.new ≡ (failed writer.old || is_write_fault result) }
{
    send(out, writer)?;
    out.clear();
    out.shrink_to(OUTPUT_ROOM);
    Ok(())
}
