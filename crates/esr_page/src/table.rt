//! The table of all queries. Name, distance and charges come first, so that a narrow screen shows them without scrolling.
//! It is complete without scripts; if a browser runs the script of the page, a press on the head
//! of a column sorts by it, and only the first 50 rows are shown until all are requested.

use crate::rows::{QueryRow, Target};
use esr_history::MAX_LIMIT;
use esr_text::{first, push_number};
use esr_wording::outcome_words;
use std::alloc::AllocError;

/// The maximum number of rows.
pub const MAX_ROWS: usize = 2000;

const HEADINGS: &str =
    "<h2 id='all'>All queries</h2>\n<div class='wide' tabindex='0' role='group' aria-label='Table'><table>\n<thead><tr><th scope='col'>Name</th><th scope='col' class='num'>Off by</th><th scope='col' class='num'>Charged</th><th scope='col' class='num'>Sum off by</th><th scope='col' class='num'>Limit</th><th scope='col' class='num'>Left</th><th scope='col' class='num'>Reads</th><th scope='col'>Kind</th><th scope='col'>Ended</th><th scope='col' class='num'>Number</th></tr></thead>\n<tbody>\n";

/// Appends a cell with a number.
pub fn push_cell(out: &mut String, number: u64) -> Result<(), AllocError> {
    out.push_str("<td class='num'>")?;
    push_number(out, number)?;
    out.push_str("</td>")
}

/// Appends the name of a query, as a link if the query is described in detail.
fn push_name(out: &mut String, row: &QueryRow<'_>) -> Result<(), AllocError> {
    let name = row.name;
    if row.target == Target::Details {
        write!(out, "<th scope='row'><a href='#q-{name}'>{name}</a></th>")
    } else {
        write!(out, "<th scope='row'>{name}</th>")
    }
}

/// Appends a cell with a number, if there is one.
fn push_known(out: &mut String, number: Option<u64>) -> Result<(), AllocError> {
    match number {
        Some(number) => push_cell(out, number),
        None => out.push_str("<td class='num'>-</td>"),
    }
}

/// Appends the limit of a query, and the rest of it.
fn push_limit(out: &mut String, limit: u64, charged: u64) -> Result<(), AllocError> {
    if limit >= MAX_LIMIT {
        return out.push_str("<td class='num'>none</td><td class='num'>-</td>");
    }
    push_cell(out, limit)?;
    push_cell(out, limit.saturating_sub(charged))
}

/// Appends a row.
fn push_row(out: &mut String, row: &QueryRow<'_>) -> Result<(), AllocError> {
    let name = row.name;
    write!(out, "<tr id='r-{name}'>")?;
    push_name(out, row)?;
    push_known(out, row.distance())?;
    push_cell(out, row.charged)?;
    push_known(out, row.sum_error())?;
    push_limit(out, row.limit, row.charged)?;
    push_cell(out, row.reads)?;
    out.push_str(if row.is_strict {
        "<td>strict</td>"
    } else {
        "<td>query</td>"
    })?;
    write!(out, "<td>{}</td>", outcome_words(row.outcome))?;
    push_cell(out, u64::from(row.query.0))?;
    out.push_str("</tr>\n")
}

/// Appends the table.
pub fn push_table(out: &mut String, rows: &[QueryRow<'_>]) -> Result<(), AllocError> {
    if rows.is_empty() {
        return Ok(());
    }
    out.push_str(HEADINGS)?;
    for row in first(rows, MAX_ROWS) {
        push_row(out, row)?;
    }
    out.push_str("</tbody></table></div>\n")?;
    push_count_of_rows(out, rows.len())
}

/// Appends how many rows there are, if some of them are left out.
pub fn push_count_of_rows(out: &mut String, count: usize) -> Result<(), AllocError> {
    if count <= MAX_ROWS {
        return Ok(());
    }
    out.push_str("<p>These are the first ")?;
    push_number(out, MAX_ROWS as u64)?;
    out.push_str(" of ")?;
    push_number(out, count as u64)?;
    out.push_str(".</p>\n")
}
