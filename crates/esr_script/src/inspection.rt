//! Checks a script for faults: nothing is written, and the observer sees the lines and then the transactions.

ghost use Rattle.std.specs.Prelude.{◌≡◌, ⊤, ℕ, List, Some, false};
ghost use Rattle.esr_base.specs.Watch.{inner, failed};
ghost use Rattle.esr_script.specs.Ends.{IsReachedBy};
ghost use Rattle.esr_script.specs.Parts.{is_read_fault};

use crate::fault::RunFault;
use crate::silent_run::replay;
use esr_history::Watched;
use esr_lint::Observer;
use std::alloc::Global;
use std::io::Read;

/// Runs a script without writing its output, and shows the observer each line, and then each transaction.
#[tactic(auto, using(crate::proofs::Handed::handed_on))]
pub fn lint<R: Read, O: Observer>(
    alloc: Global,
    reader: &mut Watched<R>,
    observer: &mut O,
) -> Result<(), RunFault>
    requires { failed reader.old ≡ false }
    ensures end { (input : List ℕ) → R.remaining (inner reader.old) ≡ Some input
        → IsReachedBy (λ _. ⊤) ⊥ input (R.remaining (inner reader.new)) result }
    ensures reader { failed reader.new ≡ is_read_fault result }
{
    replay(alloc, reader, observer)?.show_transactions(observer);
    Ok(())
}
