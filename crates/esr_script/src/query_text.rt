//! Writes a text about one query of a script: runs the whole script without its replies, audits the query, and writes what a
//! view renders. Nothing is written unless the run and the rendering succeed.

ghost use Rattle.std.specs.Prelude.{◌≡◌, ℕ, List, IfOk, IfErr, Ok, true, false, Some};
ghost use Rattle.esr_base.specs.Watch.{inner, failed};
ghost use Rattle.esr_script.specs.Ends.{IsReachedBy, IsNoQuery, IsReportedBy, is_query};
ghost use Rattle.esr_script.specs.Parts.{is_read_fault, is_write_fault};
ghost use Rattle.esr_script.specs.ReaderToWriter.{ReadsAndWrites};
ghost use Rattle.esr_script.specs.Text.{final};

use crate::fault::RunFault;
use crate::output::send_all;
use crate::query::ask;
use esr_history::Watched;
use esr_lint::Observer;
use esr_views::QueryView;
use std::alloc::{AllocError, Global};
use std::io::{Read, Write};

/// Returns the text, or `RunFault::NoMemory` if an allocation failed.
fn text_or_fault(text: Result<Vec<u8>, AllocError>) -> Result<Vec<u8>, RunFault>
    ensures ok { IfOk result (λ made. text ≡ Ok made) }
    ensures faults { IfErr result (λ e. e ≡ RunFault.NoMemory) }
    ensures no_read_fault { is_read_fault result ≡ false }
    ensures no_write_fault { is_write_fault result ≡ false }
{
    match text {
        Ok(text) => Ok(text),
        Err(_) => Err(RunFault::NoMemory),
    }
}

/// Runs a script, and returns the view's text for the query of that name.
#[tactic(auto, using(crate::proofs::Handed::handed_on))]
fn view_text<R: Read, T: QueryView, O: Observer>(
    alloc: Global,
    reader: &mut Watched<R>,
    name: &str,
    view: &T,
    observer: &mut O,
) -> Result<Vec<u8>, RunFault>
    requires reader { failed reader.old ≡ false }
    ensures text { (input : List ℕ) → R.remaining (inner reader.old) ≡ Some input
        → IsReachedBy (λ text. (is_query input name.now ≡ true)
        × T.IsTextOf view.now (final input) name.now text.items)
        (IsNoQuery input name.now) input (R.remaining (inner reader.new)) result }
    ensures reader { failed reader.new ≡ is_read_fault result }
    ensures no_write_fault { is_write_fault result ≡ false }
{
    let mut audited = ask(alloc, reader, name, observer)?;
    text_or_fault(view.text_of(alloc, &mut audited))
}

/// Runs a script without writing its replies, and writes the view's text for the query of that name. The observer receives
/// each line with its outcome.
///
/// # Errors
/// The errors of `ask`; `NoMemory` if the rendering runs out of memory; `Write` if a write failed, when a prefix of the text may
/// have been written. After every other error nothing was written.
#[tactic(auto, using(crate::proofs::Handed::handed_on))]
pub fn render_query<R: Read, W: Write, T: QueryView, O: Observer>(
    alloc: Global,
    reader: &mut Watched<R>,
    writer: &mut Watched<W>,
    name: &str,
    view: &T,
    observer: &mut O,
) -> Result<(), RunFault>
    requires reader { failed reader.old ≡ false }
    requires writer { failed writer.old ≡ false }
    ensures { ReadsAndWrites R.remaining W.contents reader.old reader.new writer.old writer.new
        (λ input. IsReportedBy (T.IsTextOf view.now (final input) name.now) input name.now) result }
{
    let mut text = view_text(alloc, reader, name, view, observer)?;
    send_all(&mut text, writer)
}
