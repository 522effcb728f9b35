//! The explanation of a query for programs: the record that the text for people renders too (`esr_explain`), as CSV and
//! JSON.

use crate::format::Data;
use crate::words::{Content, Field, push_cell, push_members, push_name_array, push_word};
use esr_explain::{Charge, ComparedRead, Explanation, OperationKind, name_of_item};
use esr_history::TxnId;
use esr_report::{Names, name_of_transaction};
use esr_views::{AuditedQuery, QueryView};
use std::alloc::{AllocError, Global};

/// The explanation of a query.
#[derive(Clone, Copy)]
pub struct ExplanationTable {
    pub data: Data,
}

/// The columns after the first, which contains the kind of the row.
const COLUMNS: [&str; 15] = [
    "item",
    "value",
    "nearest",
    "off",
    "operation",
    "update",
    "amount",
    "step",
    "import_left",
    "import_limit",
    "export_left",
    "export_limit",
    "distance",
    "import",
    "sum_error",
];

/// The names of the items and the transactions of a script.
#[derive(Clone, Copy)]
struct ScriptNames<'a> {
    items: &'a Names,
    transactions: &'a Names,
}

/// Returns the fields of a read.
fn read_fields<'a>(names: ScriptNames<'a>, read: ComparedRead) -> [Field<'a>; 4] {
    [
        ("item", Content::Word(name_of_item(names.items, read.item))),
        ("value", Content::Value(read.value)),
        ("nearest", Content::Value(read.nearest_value)),
        ("off", Content::Number(read.distance)),
    ]
}

/// Returns the name of an operation.
fn operation_word(operation: OperationKind) -> &'static str {
    match operation {
        OperationKind::Read => "read",
        OperationKind::Write => "write",
    }
}

/// Returns the fields of a charge.
fn charge_fields<'a>(names: ScriptNames<'a>, charge: Charge) -> [Field<'a>; 9] {
    let conflict = charge.conflict;
    let update = name_of_transaction(names.transactions, conflict.update);
    [
        (
            "operation",
            Content::Word(operation_word(conflict.operation)),
        ),
        ("update", Content::Word(update)),
        (
            "item",
            Content::Word(name_of_item(names.items, conflict.item)),
        ),
        ("amount", Content::Number(charge.amount)),
        ("step", Content::Number(charge.step)),
        ("import_left", Content::Number(charge.import_left)),
        ("import_limit", Content::Number(charge.import_limit)),
        ("export_left", Content::Number(charge.export_left)),
        ("export_limit", Content::Number(charge.export_limit)),
    ]
}

/// Returns by how much the sum of the values read differs from the sum of the values of the nearest placement. Weights do
/// not count.
fn sum_error(reads: &[ComparedRead]) -> u64 {
    let mut error = 0i128;
    for read in reads {
        let difference = i128::from(read.value).saturating_sub(i128::from(read.nearest_value));
        error = error.saturating_add(difference);
    }
    u64::try_from(error.unsigned_abs()).unwrap_or(u64::MAX)
}

/// Returns the fields of the sums.
fn sums_fields(explained: &Explanation<'_>) -> [Field<'static>; 3] {
    [
        ("distance", Content::Number(explained.distance)),
        ("import", Content::Number(explained.import)),
        ("sum_error", Content::Number(sum_error(&explained.reads))),
    ]
}

/// Appends the value of the field with this name, or nothing if no field has it.
fn push_field(out: &mut String, fields: &[Field<'_>], name: &str) -> Result<(), AllocError> {
    for (field, value) in fields {
        if *field == name {
            return push_cell(out, *value);
        }
    }
    Ok(())
}

/// Appends a row of CSV with these fields.
fn push_row(out: &mut String, kind: &str, fields: &[Field<'_>]) -> Result<(), AllocError> {
    out.push_str(kind)?;
    for column in COLUMNS.iter() {
        out.push_str(",")?;
        push_field(out, fields, column)?;
    }
    out.push_str("\n")
}

/// Appends the first row of CSV, the names of the columns.
fn push_column_names(out: &mut String) -> Result<(), AllocError> {
    out.push_str("row")?;
    for column in COLUMNS.iter() {
        out.push_str(",")?;
        out.push_str(column)?;
    }
    out.push_str("\n")
}

/// Appends a row of CSV for each update.
fn push_update_rows(
    out: &mut String,
    names: ScriptNames<'_>,
    kind: &str,
    updates: &[TxnId],
) -> Result<(), AllocError> {
    for update in updates {
        let name = name_of_transaction(names.transactions, *update);
        push_row(out, kind, &[("update", Content::Word(name))])?;
    }
    Ok(())
}

/// Appends a row of CSV for each read.
fn push_read_rows(
    out: &mut String,
    names: ScriptNames<'_>,
    reads: &[ComparedRead],
) -> Result<(), AllocError> {
    for read in reads {
        push_row(out, "read", &read_fields(names, *read))?;
    }
    Ok(())
}

/// Appends a row of CSV for each charge.
fn push_charge_rows(
    out: &mut String,
    names: ScriptNames<'_>,
    charges: &[Charge],
) -> Result<(), AllocError> {
    for charge in charges {
        push_row(out, "charge", &charge_fields(names, *charge))?;
    }
    Ok(())
}

/// Returns an explanation as CSV.
fn explanation_csv(
    alloc: Global,
    names: ScriptNames<'_>,
    explained: &Explanation<'_>,
) -> Result<String, AllocError> {
    let mut out = String::new(alloc);
    push_column_names(&mut out)?;
    push_read_rows(&mut out, names, &explained.reads)?;
    push_charge_rows(&mut out, names, &explained.charges)?;
    push_update_rows(&mut out, names, "before", explained.before)?;
    push_update_rows(&mut out, names, "after", &explained.after)?;
    push_row(&mut out, "sums", &sums_fields(explained))?;
    Ok(out)
}

/// Appends an array with an object for each read.
fn push_read_objects(
    out: &mut String,
    names: ScriptNames<'_>,
    reads: &[ComparedRead],
) -> Result<(), AllocError> {
    let mut open = "[{";
    for read in reads {
        out.push_str(open)?;
        push_members(out, &read_fields(names, *read))?;
        open = "},{";
    }
    out.push_str(if reads.is_empty() { "[]" } else { "}]" })
}

/// Appends an array with an object for each charge.
fn push_charge_objects(
    out: &mut String,
    names: ScriptNames<'_>,
    charges: &[Charge],
) -> Result<(), AllocError> {
    let mut open = "[{";
    for charge in charges {
        out.push_str(open)?;
        push_members(out, &charge_fields(names, *charge))?;
        open = "},{";
    }
    out.push_str(if charges.is_empty() { "[]" } else { "}]" })
}

/// Returns an explanation as JSON.
fn explanation_json(
    alloc: Global,
    names: ScriptNames<'_>,
    query: TxnId,
    explained: &Explanation<'_>,
) -> Result<String, AllocError> {
    let mut out = String::new(alloc);
    out.push_str("{\"name\":")?;
    push_word(&mut out, name_of_transaction(names.transactions, query))?;
    out.push_str(",\"reads\":")?;
    push_read_objects(&mut out, names, &explained.reads)?;
    out.push_str(",\"charges\":")?;
    push_charge_objects(&mut out, names, &explained.charges)?;
    out.push_str(",\"before\":")?;
    push_name_array(&mut out, names.transactions, explained.before)?;
    out.push_str(",\"after\":")?;
    push_name_array(&mut out, names.transactions, &explained.after)?;
    out.push_str(",")?;
    push_members(&mut out, &sums_fields(explained))?;
    out.push_str("}\n")?;
    Ok(out)
}

/// Returns the explanation of an audited query as a table.
fn explanation_table(
    alloc: Global,
    data: Data,
    audited: &AuditedQuery,
) -> Result<Vec<u8>, AllocError> {
    let names = ScriptNames {
        items: &audited.items,
        transactions: &audited.transactions,
    };
    let Ok(explained) = Explanation::of(alloc, &audited.history, &audited.finding) else {
        return Err(AllocError);
    };
    let table = match data {
        Data::Csv => explanation_csv(alloc, names, &explained)?,
        Data::Json => explanation_json(alloc, names, audited.finding.query, &explained)?,
    };
    Ok(table.into_bytes())
}

impl QueryView for ExplanationTable {
    ghost IsTextOf = { λ _ _ _ _. Unit {0} };

    fn text_of(&self, alloc: Global, audited: &mut AuditedQuery) -> Result<Vec<u8>, AllocError> {
        explanation_table(alloc, self.data, audited)
    }
}
