//! Goes over the lines of a script, from its reader to a sink.
//!
//! Bytes that were read and not yet used are in `input`, text that the sink has not yet taken in `out`. Between two
//! steps, the lines so far, executed one after another, have led to the script's state and to the text taken so far,
//! followed by that in `out` (`InputProgress`). The sink takes the text before the run waits for input, so that a
//! person at a terminal sees each reply, and also when much text has accumulated.

ghost use Rattle.esr_grammar.specs.declared.limits.TheConstants.{MAX_LINE_BYTES};
ghost use Rattle.std.specs.Prelude.{◌≡◌, ℕ, List, [], ◌++◌, Some, IsErrOf, IfErr, IfOk, OnOk, false, ◌≤◌, ◌⊎◌, ◌||◌, length};
ghost use Rattle.std.specs.Io.KnownBytes.{Appends, Consumes, IsAtEnd, Keeps};
ghost use Rattle.esr_base.specs.Watch.{inner, failed, BeginsWith};
ghost use Rattle.esr_script.specs.Text.{start};
ghost use Rattle.esr_script.specs.Parts.{IsHeldRun, is_read_fault, is_write_fault};
ghost use Rattle.esr_script.specs.Replays.{IsReplay};

use crate::answers::{answer_last, answer_next};
use crate::fault::RunFault;
use crate::input::InputBuffer;
use crate::script::Script;
use crate::sink::Sink;
use crate::text_buffer::TextBuffer;
use esr_grammar::{Next, next_line};
use esr_history::Watched;
use esr_lint::Observer;
use std::io::Read;

const OUTPUT_FULL: usize = 32768;

/// Shows the observer the number of lines so far, lets the sink take the output, and empties the buffer.
fn hand_over<S: Sink, O: Observer>(
    sink: &mut S,
    out: &mut TextBuffer,
    count: u64,
    observer: &mut O,
) -> Result<(), RunFault>
    ensures ok { OnOk result ((out.new ≡ []) × Appends (S.contents sink.old) (S.contents sink.new) out.old) }
    ensures err { IfErr result (λ e. (e ≡ RunFault.Write) × ((sent : List ℕ) × BeginsWith out.old sent
        × Appends (S.contents sink.old) (S.contents sink.new) sent)) }
    ensures failed { S.has_failed sink.new ≡ (S.has_failed sink.old || is_write_fault result) }
{
    observer.see_progress(count);
    let taken = sink.take(out.text());
    out.clear();
    taken
}

/// Executes line after line, and counts them. Output that is not yet taken is in `out`. It is a separate function, since the
/// compiler would move the fields of `out` for each line if they were locals of its caller.
#[inline(never)]
#[tactic(auto, using(crate::proofs::Handed::handed_on))]
pub fn answer_lines<R: Read, S: Sink, O: Observer>(
    reader: &mut Watched<R>,
    sink: &mut S,
    pending: &mut InputBuffer,
    count: &mut u64,
    script: &mut Script,
    out: &mut TextBuffer,
    observer: &mut O,
) -> Result<(), RunFault>
    requires pending { pending.old ≡ [] }
    requires count { count.old ≡ 0 }
    requires script { script.old ≡ start }
    requires out { out.old ≡ [] }
    requires reader { failed reader.old ≡ false }
    requires sink { S.has_failed sink.old ≡ false }
    ensures text { (input : List ℕ) → R.remaining (inner reader.old) ≡ Some input → (sent : List ℕ)
        × Appends (S.contents sink.old) (S.contents sink.new) sent
        × IsHeldRun input (R.remaining (inner reader.new)) out.new result sent }
    ensures replay { is_write_fault result ≡ false → (input : List ℕ) → R.remaining (inner reader.old) ≡ Some input
        → IsReplay input (R.remaining (inner reader.new)) result script.new }
    ensures read { IsErrOf result RunFault.Read → out.new ≡ [] }
    ensures reader { failed reader.new ≡ is_read_fault result }
    ensures sink { S.has_failed sink.new ≡ is_write_fault result }
{
    'lines: loop {
        let next = next_line(pending.bytes());
        if let Next::More = next {
            let received = read_on(reader, sink, pending, out, *count, observer)?;
            if received == 0 {
                return answer_last(pending, count, script, sink, out, observer);
            }
            continue 'lines;
        }
        answer_next(next, pending, *count, script, sink, out, observer)?;
        if out.len() >= OUTPUT_FULL {
            hand_over(sink, out, *count + 1, observer)?;
        }
        *count += 1;
    }
}

/// Lets the sink take the output, and then reads once. Returns the number of bytes read: 0 at the end of the input.
#[tactic(auto, using(crate::proofs::Handed::handed_on))]
fn read_on<R: Read, S: Sink, O: Observer>(
    reader: &mut Watched<R>,
    sink: &mut S,
    pending: &mut InputBuffer,
    out: &mut TextBuffer,
    count: u64,
    observer: &mut O,
) -> Result<usize, RunFault>
    requires short { length pending.old ≤ MAX_LINE_BYTES }
    requires reader { failed reader.old ≡ false }
    requires sink { S.has_failed sink.old ≡ false }
    ensures ok { IfOk result (λ n. (more : List ℕ) × (length more ≡ n) × (pending.new ≡ pending.old ++ more)
        × Consumes (R.remaining (inner reader.old)) (R.remaining (inner reader.new)) more
        × (n ≡ 0 → IsAtEnd (R.remaining (inner reader.new)))) }
    ensures sent { is_write_fault result ≡ false → (out.new ≡ [])
        × Appends (S.contents sink.old) (S.contents sink.new) out.old }
    ensures read { IsErrOf result RunFault.Read → (pending.new ≡ pending.old)
        × Keeps (R.remaining (inner reader.old)) (R.remaining (inner reader.new)) }
    ensures write { IsErrOf result RunFault.Write → (sent : List ℕ) × BeginsWith out.old sent
        × Appends (S.contents sink.old) (S.contents sink.new) sent }
    ensures faults { IfErr result (λ e. (e ≡ RunFault.Read) ⊎ (e ≡ RunFault.Write)) }
    ensures reader { failed reader.new ≡ is_read_fault result }
    ensures sink { S.has_failed sink.new ≡ is_write_fault result }
{
    hand_over(sink, out, count, observer)?;
    pending.fill(reader)
}
