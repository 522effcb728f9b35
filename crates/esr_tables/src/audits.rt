//! The audits of the committed queries of a script, for programs: a row for each query, in the order of their commits.
//!
//! The audits come from the caller, so `esr audit` computes them with the same threads and the same index whatever the
//! format is. Rejected: a `ScriptView` that audits one query after another.

use crate::format::Data;
use crate::words::{Content, push_members, push_name_array, push_number};
use esr_audit::{Summaries, Summary};
use esr_history::{History, TxnId};
use esr_items::Weighted;
use esr_report::{Names, name_of_transaction};
use std::alloc::{AllocError, Global};

/// The names of the fields. The updates before the position are separated by blanks.
const HEAD: &str = "number,name,limit,import,distance,before\n";

/// The audit of a query.
#[derive(Clone, Copy)]
struct Audited<'a> {
    name: &'a str,
    limit: u64,
    transactions: &'a Names,
    summary: &'a Summary,
    before: &'a [TxnId],
}

/// Appends a query's row as CSV.
fn push_csv(out: &mut String, audited: Audited<'_>) -> Result<(), AllocError> {
    let summary = audited.summary;
    push_number(out, u64::from(summary.query.0))?;
    out.push_str(",")?;
    out.push_str(audited.name)?;
    for amount in [audited.limit, summary.import, summary.distance] {
        out.push_str(",")?;
        push_number(out, amount)?;
    }
    let mut between = ",";
    if audited.before.is_empty() {
        out.push_str(between)?;
    }
    for update in audited.before {
        out.push_str(between)?;
        out.push_str(name_of_transaction(audited.transactions, *update))?;
        between = " ";
    }
    out.push_str("\n")
}

/// Appends a query's object as JSON.
fn push_json(out: &mut String, audited: Audited<'_>) -> Result<(), AllocError> {
    let summary = audited.summary;
    let fields = [
        ("number", Content::Number(u64::from(summary.query.0))),
        ("name", Content::Word(audited.name)),
        ("limit", Content::Number(audited.limit)),
        ("import", Content::Number(summary.import)),
        ("distance", Content::Number(summary.distance)),
    ];
    out.push_str("{")?;
    push_members(out, &fields)?;
    out.push_str(",\"before\":")?;
    push_name_array(out, audited.transactions, audited.before)?;
    out.push_str("}\n")
}

/// Appends the audit of a query.
fn push_summary(
    alloc: Global,
    out: &mut String,
    data: Data,
    transactions: &Names,
    history: &History<Weighted>,
    summary: &Summary,
) -> Result<(), AllocError> {
    let before = summary.before.to_vec(alloc)?;
    let facts = history.facts(summary.query);
    let audited = Audited {
        name: name_of_transaction(transactions, summary.query),
        limit: facts.map_or(0, |facts| facts.limit),
        transactions,
        summary,
        before: &before,
    };
    match data {
        Data::Csv => push_csv(out, audited),
        Data::Json => push_json(out, audited),
    }
}

/// Returns the audits of a history as a table.
pub fn audit_table(
    alloc: Global,
    data: Data,
    transactions: &Names,
    history: &History<Weighted>,
    found: &Summaries,
) -> Result<Vec<u8>, AllocError> {
    let mut out = String::new(alloc);
    if data == Data::Csv {
        out.push_str(HEAD)?;
    }
    for summary in &found.summaries {
        push_summary(alloc, &mut out, data, transactions, history, summary)?;
    }
    Ok(out.into_bytes())
}
