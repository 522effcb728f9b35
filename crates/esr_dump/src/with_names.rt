//! Writes a history as a script with given names, for example those of the file that it was read from. If a script cannot
//! contain the names of the items, or of the transactions, numbers replace all of them (`i0`, `t1`), so every history has
//! a script.

ghost use Rattle.std.specs.Prelude.{◌≤◌, IfOk, length};
ghost use Rattle.esr_base.specs.declared.limits.TheConstants.{MAX_ENTRIES};
ghost use Rattle.esr_dump.specs.RoundTrip.{IsDump};

use crate::name_tables::script_names;
use crate::spelling::script;
use esr_history::History;
use esr_items::Weighted;
use esr_report::NamesByPosition;
use std::alloc::{AllocError, Global};

/// Returns the script of a history whose items and transactions get these names, in the order of their numbers. A run of the
/// script repeats the accepted and the blocked entries of the history.
#[tactic(auto, using(crate::proofs::Names::bounded_begun))]
pub fn script_with_names<I: NamesByPosition, T: NamesByPosition>(
    alloc: Global,
    item_names: &I,
    transaction_names: &T,
    history: &History<Weighted>,
) -> Result<Vec<u8>, AllocError>
    requires entry_count_within_max { length history.now.schedule.entries ≤ MAX_ENTRIES }
    ensures { IfOk result (λ text. IsDump (I.names item_names.now) (T.names transaction_names.now) history.now.schedule
        text.items) }
{
    let item_table = script_names(alloc, item_names, history.items(), "i", 0)?;
    let transaction_count = history.begun_count() as u32;
    let transaction_table = script_names(alloc, transaction_names, transaction_count, "t", 1)?;
    let text = script(alloc, &item_table, &transaction_table, history)?;
    Ok(text)
}
