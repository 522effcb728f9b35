//! The ledger of a script: a row for each accepted begin, in their order.

ghost use Rattle.std.specs.Prelude.{IfOk};
ghost use Rattle.esr_tables.specs.Written.{IsLedger, IsLedgerOf};
ghost use Rattle.esr_views.specs.QueryAnswers.{IsRecorded};
ghost use Rattle.esr_views.specs.State.{ScriptState};

use crate::csv::ledger_csv;
use crate::format::Format;
use crate::json::ledger_json;
use crate::rows::rows_of;
use crate::spans::{spans_in, spans_of};
use crate::text::ledger_text;
use esr_history::History;
use esr_items::Weighted;
use esr_report::Names;
use esr_views::{Recording, ScriptView};
use std::alloc::{AllocError, Global};

/// The data of each transaction of a script: its kind and limit, its charges, the replies to its lines, its end and,
/// for a committed query, its distance from the nearest serial placement.
#[derive(Clone, Copy)]
pub struct Ledger {
    pub format: Format,
}

/// Returns the ledger, as CSV, of a history that was not made by a script. Its lines are those of the script that
/// recreates the history.
pub fn history_ledger(
    alloc: Global,
    history: &History<Weighted>,
    transactions: &Names,
) -> Result<Vec<u8>, AllocError>
    ensures { IfOk result (λ text. IsLedgerOf history.now.schedule transactions.now text.items) }
{
    let Ok(rows) = rows_of(alloc, history) else {
        return Err(AllocError);
    };
    let spans = spans_in(alloc, history)?;
    ledger_csv(alloc, transactions, &spans, &rows)
}

/// Returns the ledger of a script in this form.
fn text_in(alloc: Global, recording: &Recording<'_>, format: Format) -> Result<Vec<u8>, AllocError>
    ensures { (s : ScriptState) → IsRecorded s recording.now → IfOk result (λ text. IsLedger format s text.items) }
{
    let history = &recording.history;
    let Ok(rows) = rows_of(alloc, history) else {
        return Err(AllocError);
    };
    let spans = spans_of(alloc, recording)?;
    match format {
        Format::Text => ledger_text(alloc, &recording.transactions, &spans, &rows),
        Format::Csv => ledger_csv(alloc, &recording.transactions, &spans, &rows),
        Format::Json => ledger_json(alloc, &recording.transactions, &spans, &rows),
    }
}

impl ScriptView for Ledger {
    ghost IsTextOf = { λ l s text. IsLedger l.format s text };

    fn text_of(
        &self,
        alloc: Global,
        recording: &Recording<'_>,
    ) -> Result<Option<Vec<u8>>, AllocError> {
        match text_in(alloc, recording, self.format) {
            Ok(text) => Ok(Some(text)),
            Err(error) => Err(error),
        }
    }
}
