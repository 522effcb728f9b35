//! Goes over a whole script without its output: the loop of a run (`lines`), with a sink that drops the text. So even a
//! fault at the last line leaves nothing written.

ghost use Rattle.std.specs.Prelude.{◌≡◌, ℕ, List, Some, false};
ghost use Rattle.esr_base.specs.Watch.{inner, failed};
ghost use Rattle.esr_script.specs.Text.{final};
ghost use Rattle.esr_script.specs.Ends.{IsReachedBy};
ghost use Rattle.esr_script.specs.Parts.{is_read_fault, is_write_fault};

use crate::fault::RunFault;
use crate::input::InputBuffer;
use crate::lines::answer_lines;
use crate::script::Script;
use crate::sink::Dropped;
use crate::text_buffer::TextBuffer;
use esr_history::Watched;
use esr_lint::Observer;
use std::alloc::Global;
use std::io::Read;

/// Runs all lines of the input, and returns the final state. Their output is dropped.
#[tactic(auto, using(crate::proofs::Handed::handed_on))]
pub fn replay<R: Read, O: Observer>(
    alloc: Global,
    reader: &mut Watched<R>,
    observer: &mut O,
) -> Result<Script, RunFault>
    requires reader { failed reader.old ≡ false }
    ensures replay { (input : List ℕ) → R.remaining (inner reader.old) ≡ Some input
        → IsReachedBy (λ script. final input ≡ script) ⊥ input (R.remaining (inner reader.new)) result }
    ensures reader { failed reader.new ≡ is_read_fault result }
    ensures write { is_write_fault result ≡ false }
{
    let Ok(mut pending) = InputBuffer::new(alloc) else {
        return Err(RunFault::NoMemory);
    };
    let mut script = Script::new(alloc, observer.hash_seed());
    let mut out = TextBuffer::new(alloc);
    let mut lines = 0;
    let ended = answer_lines(
        reader,
        &mut Dropped,
        &mut pending,
        &mut lines,
        &mut script,
        &mut out,
        observer,
    );
    observer.see_end(lines);
    ended?;
    Ok(script)
}
