//! A ledger as JSON Lines: an object on each line, for one transaction and its charges. Amounts are numbers, up to 10^18, which
//! a double does not hold exactly. No string needs an escape: names are letters, digits and `_`.

use crate::ledger_columns::{LEDGER_COLUMNS, content_of};
use crate::rows::Row;
use crate::spans::{LineSpan, Spans};
use crate::words::push_member;
use esr_report::{Names, name_of_transaction};
use std::alloc::{AllocError, Global};

/// Appends the object of a transaction, with its name and the first and last of its lines in the script.
fn push_row(out: &mut String, name: &str, row: &Row, span: LineSpan) -> Result<(), AllocError> {
    let mut separator = "{";
    for (column, field, _) in LEDGER_COLUMNS.iter() {
        push_member(out, separator, field, content_of(*column, name, row, span))?;
        separator = ",";
    }
    out.push_str("}\n")
}

/// Returns a ledger as JSON Lines.
pub fn ledger_json(
    alloc: Global,
    transactions: &Names,
    spans: &Spans,
    rows: &[Row],
) -> Result<Vec<u8>, AllocError> {
    let mut out = String::new(alloc);
    for row in rows {
        let name = name_of_transaction(transactions, row.number);
        push_row(&mut out, name, row, spans.of(row.number))?;
    }
    Ok(out.into_bytes())
}
