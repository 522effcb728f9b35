//! Asks a script for one of its queries: the whole script is run without its output, and the query is audited. An
//! unbound name denotes transaction 0, as in a script, which is not a committed query, so no rule for the syntax of
//! the argument is needed.

ghost use Rattle.std.specs.Prelude.{◌≡◌, ℕ, List, Some, false};
ghost use Rattle.esr_base.specs.Watch.{inner, failed};
ghost use Rattle.esr_script.specs.QueryAnswers.{IsAuditedQuery};
ghost use Rattle.esr_script.specs.Parts.{is_read_fault, is_write_fault};

use crate::fault::RunFault;
use crate::silent_run::replay;
use esr_history::Watched;
use esr_lint::Observer;
use esr_views::AuditedQuery;
use std::alloc::Global;
use std::io::Read;

/// Runs a script without writing its output, and returns its audited query of that name.
///
/// # Errors
/// `NotACommittedQuery` exactly if the run has no fault and the name does not denote a committed query.
/// `LineTooLong`, `HistoryFull` and `TooManyLines` if `run` would return them. `Write` is never returned.
#[tactic(auto, using(crate::proofs::Handed::handed_on))]
pub fn ask<R: Read, O: Observer>(
    alloc: Global,
    reader: &mut Watched<R>,
    name: &str,
    observer: &mut O,
) -> Result<AuditedQuery, RunFault>
    requires reader { failed reader.old ≡ false }
    ensures audited { (input : List ℕ) → R.remaining (inner reader.old) ≡ Some input
        → IsAuditedQuery input name.now (R.remaining (inner reader.new)) result }
    ensures reader { failed reader.new ≡ is_read_fault result }
    ensures no_write_fault { is_write_fault result ≡ false }
{
    let script = replay(alloc, reader, observer)?;
    script.audited_query(name, observer)
}
