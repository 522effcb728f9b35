//! Executes the lines of the buffered bytes. A line is read in the input buffer and not copied. The observer sees
//! each line with its outcome, and changes nothing. If no one reads the text, it is cleared after each line, and a line
//! may append none.

ghost use Rattle.esr_grammar.specs.declared.limits.TheConstants.{MAX_LINES, MAX_LINE_BYTES};
ghost use Rattle.std.specs.Prelude.{◌≡◌, ◌≢◌, ℕ, List, ◌+◌, ◌++◌, ◌≤◌, ◌⊎◌, [], Option, Err, OnOk, IfOk, IfErr, IsErrOf, false, length};
ghost use Rattle.std.specs.Io.KnownBytes.{IsAtEnd};
ghost use Rattle.esr_script.specs.Replays.{IsReplay};
ghost use Rattle.esr_grammar.specs.Lines.{line_len, IsNext};
ghost use Rattle.esr_script.specs.Text.{answer};
ghost use Rattle.esr_script.specs.Parts.{InputProgress, IsAnswer, IsHeldRun, IsUnread, is_read_fault, is_write_fault, without_outcome};

use crate::fault::RunFault;
use crate::input::InputBuffer;
use crate::script::Script;
use crate::sink::{Audience, Sink};
use crate::text_buffer::TextBuffer;
use esr_grammar::{MAX_LINES, Next};
use esr_lint::{LineOutcome, Observer};

/// Returns the number of bytes of the next line, if it can be executed.
fn next_length(next: Next, count: u64) -> Result<usize, RunFault>
    requires { next ≢ Next.More }
    ensures ok { IfOk result (λ length. (next ≡ Next.Line length) × (count ≢ MAX_LINES)) }
    ensures many { IsErrOf result RunFault.TooManyLines → count ≡ MAX_LINES }
    ensures long { IsErrOf result RunFault.LineTooLong → (next ≡ Next.TooLong) × (count ≢ MAX_LINES) }
    ensures faults { IfErr result (λ e. (e ≡ RunFault.TooManyLines) ⊎ (e ≡ RunFault.LineTooLong)) }
{
    if count == MAX_LINES {
        return Err(RunFault::TooManyLines);
    }
    match next {
        Next::Line(length) => Ok(length),
        Next::TooLong => Err(RunFault::LineTooLong),
        Next::More => unreachable!(),
    }
}

/// Passes a line and its outcome to the observer.
#[inline(always)]
fn show<O: Observer>(
    observer: &mut O,
    number: u64,
    line: &[u8],
    answered: Result<LineOutcome, RunFault>,
) -> Result<(), RunFault>
    ensures { result ≡ without_outcome answered }
{
    match answered {
        Ok(LineOutcome::Accepted) => observer.see_accepted(number),
        Ok(LineOutcome::NoEvent) => {}
        Ok(outcome) => observer.see_line(number, line, outcome),
        Err(fault) => return Err(fault),
    }
    Ok(())
}

/// Executes the line after `count` lines, and passes it and its outcome to the observer.
#[inline(always)]
fn answer<S: Sink, O: Observer>(
    line: &[u8],
    count: u64,
    script: &mut Script,
    sink: &S,
    out: &mut TextBuffer,
    observer: &mut O,
) -> Result<(), RunFault>
    requires { count ≤ MAX_LINES }
    ensures { IsAnswer (S.contents sink.now) (answer script.old line.now) script.new out.old out.new result }
{
    let audience = sink.audience();
    let answered = script.answer(line, audience, out);
    let ended = show(observer, count + 1, line, answered);
    if let Audience::NoReader = audience {
        out.clear();
    }
    ended
}

/// Executes the next line, and continues after its line feed.
#[tactic(auto, using(crate::proofs::Handed::handed_on))]
pub fn answer_next<S: Sink, O: Observer>(
    next: Next,
    pending: &mut InputBuffer,
    count: u64,
    script: &mut Script,
    sink: &S,
    out: &mut TextBuffer,
    observer: &mut O,
) -> Result<(), RunFault>
    requires next { IsNext next pending.old }
    requires is_complete { next ≢ Next.More }
    requires count { count ≤ MAX_LINES }
    ensures count_within_max { OnOk result (count ≢ MAX_LINES) }
    ensures text { OnOk result ((text gone : List ℕ) × (out.old ++ text ≡ gone ++ out.new)
        × IsUnread (S.contents sink.now) gone × ((input written : List ℕ) (left : Option (List ℕ)) → InputProgress input left pending.old count script.old written
        → InputProgress input left pending.new (count + 1) script.new (written ++ text))) }
    ensures held { IfErr result (λ e. (input sent : List ℕ) (left : Option (List ℕ))
        → InputProgress input left pending.old count script.old (sent ++ out.old)
        → (gone : List ℕ) × IsUnread (S.contents sink.now) gone × IsHeldRun input left out.new (Err e)
        (sent ++ gone)) }
    ensures replay { IfErr result (λ e. (input written : List ℕ) (left : Option (List ℕ))
        → InputProgress input left pending.old count script.old written → IsReplay input left (Err e) script.new) }
    ensures read { is_read_fault result ≡ false }
    ensures write { is_write_fault result ≡ false }
{
    let length = next_length(next, count)?;
    answer(
        &pending.bytes()[..length],
        count,
        script,
        sink,
        out,
        observer,
    )?;
    pending.skip(length + 1);
    Ok(())
}

/// Executes the last line, if it has no line feed, and counts it.
pub fn answer_last<S: Sink, O: Observer>(
    pending: &InputBuffer,
    count: &mut u64,
    script: &mut Script,
    sink: &S,
    out: &mut TextBuffer,
    observer: &mut O,
) -> Result<(), RunFault>
    requires short { length pending.now ≤ MAX_LINE_BYTES }
    requires count { count.old ≤ MAX_LINES }
    ensures held { (input sent : List ℕ) (left : Option (List ℕ))
        → InputProgress input left pending.now count.old script.old (sent ++ out.old)
        → IsAtEnd left → line_len pending.now ≡ length pending.now → (gone : List ℕ)
        × IsUnread (S.contents sink.now) gone × IsHeldRun input left out.new result (sent ++ gone) }
    ensures replay { (input written : List ℕ) (left : Option (List ℕ))
        → InputProgress input left pending.now count.old script.old written
        → IsAtEnd left → line_len pending.now ≡ length pending.now → IsReplay input left result script.new }
    ensures read { is_read_fault result ≡ false }
    ensures write { is_write_fault result ≡ false }
{
    let line = pending.bytes();
    if line.is_empty() {
        return Ok(());
    }
    if *count == MAX_LINES {
        return Err(RunFault::TooManyLines);
    }
    let ended = answer(line, *count, script, sink, out, observer);
    *count += u64::from(ended.is_ok());
    ended
}
