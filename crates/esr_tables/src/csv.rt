//! A ledger as CSV (RFC 4180): a line of the names of the fields, then a line for each row. Lines end as all lines of
//! this program do, with a line feed. No field is quoted: names are letters, digits and `_`.

ghost use Rattle.std.specs.Prelude.{◌≡◌, ◌++◌, ◌∷◌, [], IfOk, OnOk, decimal, map};
ghost use Rattle.std.specs.List.{flat_map};
ghost use Rattle.esr_tables.specs.Csv.{amounts, separated, outcome_word, head, kind_word, named_line, decimal_or_empty, row_line};
ghost use Rattle.esr_tables.specs.Spans.{first_of, last_of};

use crate::rows::Row;
use crate::spans::{LineSpan, Spans};
use esr_outcomes::{TxnKind, TxnOutcome};
use esr_report::{Names, name_of_transaction};
use std::alloc::{AllocError, Global};

/// Returns the name of a kind.
pub fn kind_word(kind: TxnKind) -> &'static str
    ensures { result.now ≡ kind_word kind }
{
    match kind {
        TxnKind::Update => "update",
        TxnKind::Query => "query",
        TxnKind::StrictQuery => "strict",
    }
}

/// Returns the name of an outcome.
pub fn outcome_word(outcome: TxnOutcome) -> &'static str
    ensures { result.now ≡ outcome_word outcome }
{
    match outcome {
        TxnOutcome::Committed => "committed",
        TxnOutcome::Aborted => "aborted",
        TxnOutcome::Active => "active",
    }
}

/// Appends a number.
fn push_number(out: &mut Vec<u8>, number: u32) -> Result<(), AllocError>
    ensures { OnOk result (out.new.items ≡ out.old.items ++ decimal number) }
{
    let mut digits = itoa::Buffer::new();
    out.extend_from_slice(digits.format(number).as_bytes())
}

/// Appends a comma and a field.
fn push_field(out: &mut Vec<u8>, field: &str) -> Result<(), AllocError>
    ensures { OnOk result (out.new.items ≡ out.old.items ++ separated (field.now ∷ [])) }
{
    out.push(b',')?;
    out.extend_from_slice(field.as_bytes())
}

/// Appends fields, each after a comma.
fn push_all_fields(out: &mut Vec<u8>, fields: &[&str]) -> Result<(), AllocError>
    ensures { OnOk result (out.new.items ≡ out.old.items ++ separated (map (λ field. field.now) fields.now)) }
{
    for field in fields {
        push_field(out, field)?;
    }
    Ok(())
}

/// Returns a number in decimal, or the empty text for `None`.
fn decimal_or_empty(digits: &mut itoa::Buffer, number: Option<u64>) -> &str
    ensures { result.now ≡ decimal_or_empty number }
{
    match number {
        Some(number) => digits.format(number),
        None => "",
    }
}

/// Appends the amounts and the counts of a row.
fn push_amounts_and_counts(out: &mut Vec<u8>, row: &Row) -> Result<(), AllocError>
    ensures { OnOk result (out.new.items ≡ out.old.items ++ separated (amounts row.now)) }
{
    let mut limit = itoa::Buffer::new();
    let mut charged = itoa::Buffer::new();
    let mut left = itoa::Buffer::new();
    let mut reads = itoa::Buffer::new();
    let mut writes = itoa::Buffer::new();
    let mut blocked_by_lock = itoa::Buffer::new();
    let mut blocked_by_import = itoa::Buffer::new();
    let mut blocked_by_export = itoa::Buffer::new();
    push_all_fields(
        out,
        &[
            limit.format(row.limit),
            charged.format(row.charged),
            left.format(row.left),
            reads.format(row.tally.reads),
            writes.format(row.tally.writes),
            blocked_by_lock.format(row.tally.blocked_by_lock),
            blocked_by_import.format(row.tally.blocked_by_import),
            blocked_by_export.format(row.tally.blocked_by_export),
        ],
    )
}

/// Appends the distance of a row.
fn push_distance(out: &mut Vec<u8>, distance: Option<u64>) -> Result<(), AllocError>
    ensures { OnOk result (out.new.items ≡ out.old.items ++ separated (decimal_or_empty distance ∷ [])) }
{
    let mut digits = itoa::Buffer::new();
    push_field(out, decimal_or_empty(&mut digits, distance))
}

/// Appends the first and the last line of a transaction.
fn push_line_span(out: &mut Vec<u8>, span: LineSpan) -> Result<(), AllocError>
    ensures { OnOk result (out.new.items ≡ out.old.items ++ separated (decimal span.first ∷ decimal span.last ∷ [])) }
{
    let mut first = itoa::Buffer::new();
    let mut last = itoa::Buffer::new();
    push_all_fields(out, &[first.format(span.first), last.format(span.last)])
}

/// Appends the line of a row, with the name of its transaction and its first and last lines.
fn push_row(out: &mut Vec<u8>, name: &str, row: &Row, span: LineSpan) -> Result<(), AllocError>
    ensures { OnOk result (out.new.items ≡ out.old.items ++ row_line name.now row.now span.first span.last) }
{
    push_number(out, row.number.0)?;
    push_field(out, name)?;
    push_field(out, kind_word(row.kind))?;
    push_amounts_and_counts(out, row)?;
    push_field(out, outcome_word(row.outcome))?;
    push_distance(out, row.distance)?;
    push_line_span(out, span)?;
    out.push(b'\n')?;
    Ok(())
}

/// The fields of a ledger.
pub const HEAD: &str =
    "number,name,kind,limit,charged,left,reads,writes,blocked_by_lock,blocked_by_import,blocked_by_export,end,distance,first_line,last_line\n";

/// Appends the line of a row.
fn push_named_row(
    out: &mut Vec<u8>,
    transactions: &Names,
    spans: &Spans,
    row: &Row,
) -> Result<(), AllocError>
    ensures { OnOk result (out.new.items ≡ out.old.items
        ++ named_line transactions.now (first_of spans.now) (last_of spans.now) row.now) }
{
    let name = name_of_transaction(transactions, row.number);
    push_row(out, name, row, spans.of(row.number))
}

/// Appends the lines of all rows.
fn push_rows(
    out: &mut Vec<u8>,
    transactions: &Names,
    spans: &Spans,
    rows: &[Row],
) -> Result<(), AllocError>
    ensures { OnOk result (out.new.items ≡ out.old.items
        ++ flat_map (named_line transactions.now (first_of spans.now) (last_of spans.now)) rows.now) }
{
    for row in rows {
        push_named_row(out, transactions, spans, row)?;
    }
    Ok(())
}

/// Returns a ledger as CSV.
pub fn ledger_csv(
    alloc: Global,
    transactions: &Names,
    spans: &Spans,
    rows: &[Row],
) -> Result<Vec<u8>, AllocError>
    ensures { IfOk result (λ text. text.items ≡ head
        ++ flat_map (named_line transactions.now (first_of spans.now) (last_of spans.now)) rows.now) }
{
    let mut out = Vec::new(alloc);
    out.extend_from_slice(HEAD.as_bytes())?;
    push_rows(&mut out, transactions, spans, rows)?;
    Ok(out)
}
