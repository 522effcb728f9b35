//! The page, in its order.

ghost use Rattle.std.specs.Prelude.{IfOk};
ghost use Rattle.esr_page.specs.Page.{IsPage};

use crate::audits::{Audits, audit_all, rank};
use crate::chart::push_charts;
use crate::details::{describe_farthest, heading_of, next_heading_of};
use crate::histogram::push_histogram;
use crate::rows::{QueryRow, QueryRows, Target, open_link, rows_of};
use crate::style::{head, script};
use crate::table::push_table;
use crate::updates::push_updates;
use esr_history::TxnId;
use esr_lint::Notes;
use esr_report::{Names, name_of_transaction};
use esr_text::{first, markup_or_nothing, push_count, push_number, push_sanitized};
use esr_trace::{Part, traces_of};
use esr_views::{Recording, ScriptView};
use std::alloc::{AllocError, Global};

/// The page about a script.
#[derive(Drop)]
pub struct Page<'a, T, P, W> {
    /// The number of queries with a timeline, a picture and prose: those with the greatest distances.
    pub worst: u64,
    pub timeline: &'a T,
    pub picture: &'a P,
    pub words: &'a W,
    pub metadata: PageMetadata<'a>,
}

/// What a page says about itself: its file and date, the version of the program, and the lines with errors of the script.
#[derive(Clone, Copy)]
pub struct PageMetadata<'a> {
    /// The name of the file, or nothing for standard input.
    pub file: Option<&'a str>,
    /// The date, or nothing if the clock cannot be read.
    pub date: Option<&'a str>,
    pub version: &'a str,
    pub notes: &'a Notes,
}

/// Appends the file, the date and the version of the program.
fn push_metadata(out: &mut String, metadata: PageMetadata<'_>) -> Result<(), AllocError> {
    out.push_str("<p class='origin'>")?;
    push_sanitized(out, metadata.file.unwrap_or("standard input"))?;
    if let Some(date) = metadata.date {
        out.push_str(", ")?;
        push_sanitized(out, date)?;
    }
    out.push_str(", esr ")?;
    push_sanitized(out, metadata.version)?;
    out.push_str("</p>\n")
}

/// Appends the lines with errors in a red box, if there are any.
fn push_errors(alloc: Global, out: &mut String, notes: &Notes) -> Result<(), AllocError> {
    let count = notes.count();
    if count == 0 {
        return Ok(());
    }
    out.push_str("<div class='errors' role='alert'><p>")?;
    push_count(
        out,
        count,
        " line of the script has an error and is left out",
        " lines of the script have errors and are left out",
    )?;
    out.push_str(" here. esr lint lists all errors.</p>\n<ul>\n")?;
    let text = notes.text(alloc)?;
    for line in text.lines() {
        out.push_str("<li>")?;
        push_sanitized(out, line)?;
        out.push_str("</li>\n")?;
    }
    out.push_str("</ul></div>\n")
}

/// The total distance and charges of the committed queries.
#[derive(Clone, Copy)]
struct PageTotals<'a> {
    queries: u64,
    exact: u64,
    distance: u64,
    charged: u64,
    farthest: Option<Farthest<'a>>,
    /// The query whose sum has the greatest error.
    sum: Option<Farthest<'a>>,
}

/// The query with the greatest amount of a kind.
#[derive(Clone, Copy)]
struct Farthest<'a> {
    name: &'a str,
    amount: u64,
    target: Target,
}

/// Returns the query with the greatest amount of two, the first of them if they are equal. An amount of 0 does not count.
fn farther<'a>(
    farthest: Option<Farthest<'a>>,
    row: &QueryRow<'a>,
    amount: u64,
) -> Option<Farthest<'a>> {
    if amount <= farthest.map_or(0, |farthest| farthest.amount) {
        return farthest;
    }
    Some(Farthest {
        name: row.name,
        amount,
        target: row.target,
    })
}

/// The sums over the queries that committed.
fn totals_of<'a>(rows: &[QueryRow<'a>]) -> PageTotals<'a> {
    let mut totals = PageTotals {
        queries: 0,
        exact: 0,
        distance: 0,
        charged: 0,
        farthest: None,
        sum: None,
    };
    for row in rows {
        let Some(distance) = row.distance() else {
            continue;
        };
        totals.queries = totals.queries.saturating_add(1);
        totals.exact = totals.exact.saturating_add(u64::from(distance == 0));
        totals.distance = totals.distance.saturating_add(distance);
        totals.charged = totals.charged.saturating_add(row.charged);
        totals.farthest = farther(totals.farthest, row, distance);
        totals.sum = farther(totals.sum, row, row.sum_error().unwrap_or(0));
    }
    totals
}

/// Appends the numbers of queries and updates, and the greatest distance.
fn push_sums(out: &mut String, totals: PageTotals<'_>, updates: u64) -> Result<(), AllocError> {
    out.push_str("<p>")?;
    push_count(
        out,
        totals.queries,
        " committed query",
        " committed queries",
    )?;
    out.push_str(" among ")?;
    push_count(out, updates, " committed update", " committed updates")?;
    out.push_str(".</p>\n<dl>\n<div><dt>Exact</dt><dd>")?;
    push_number(out, totals.exact)?;
    out.push_str(" of ")?;
    push_number(out, totals.queries)?;
    out.push_str("</dd></div>\n<div><dt>Total distance</dt><dd>")?;
    push_number(out, totals.distance)?;
    out.push_str("</dd></div>\n<div><dt>Total charged</dt><dd>")?;
    push_number(out, totals.charged)?;
    out.push_str("</dd></div>\n")?;
    if let Some(farthest) = totals.farthest {
        push_farthest(out, "Largest distance", farthest)?;
    }
    if let Some(farthest) = totals.sum {
        push_farthest(out, "Largest error of a sum", farthest)?;
    }
    out.push_str("</dl>\n")
}

/// Appends the greatest amount of a kind, with a link to its query.
fn push_farthest(out: &mut String, kind: &str, farthest: Farthest<'_>) -> Result<(), AllocError> {
    let name = farthest.name;
    write!(out, "<div><dt>{kind}</dt><dd>")?;
    open_link(out, farthest.target, name)?;
    write!(out, ">{name}</a>, ")?;
    push_number(out, farthest.amount)?;
    out.push_str("</dd></div>\n")
}

/// The committed updates in a serial order, folded away.
fn push_order(out: &mut String, names: &Names, order: &[TxnId]) -> Result<(), AllocError> {
    out.push_str(
        "<h2>Serial order</h2>\n<p>Run one after another in this order, the updates would have left the same values.</p>\n<details><summary>",
    )?;
    push_count(out, order.len() as u64, " update", " updates")?;
    out.push_str("</summary>\n<p class='order'>")?;
    let mut joint = "";
    for update in order {
        out.push_str(joint)?;
        out.push_str(name_of_transaction(names, *update))?;
        joint = ", ";
    }
    out.push_str("</p></details>\n")
}

/// Appends the part above all queries: the metadata, the lines with errors and the sums.
fn push_summary(
    alloc: Global,
    out: &mut String,
    metadata: PageMetadata<'_>,
    all: &QueryRows<'_>,
    audits: &Audits<'_>,
) -> Result<(), AllocError> {
    out.push_str(head())?;
    push_metadata(out, metadata)?;
    push_errors(alloc, out, metadata.notes)?;
    push_sums(out, totals_of(&all.rows), audits.order.len() as u64)
}

/// Appends the part about all queries: the histogram, the charts, the table of the queries and that of the updates.
fn push_overview(
    alloc: Global,
    out: &mut String,
    recording: &Recording<'_>,
    all: &mut QueryRows<'_>,
    audits: &Audits<'_>,
) -> Result<(), AllocError> {
    push_histogram(alloc, out, &audits.found)?;
    push_charts(alloc, out, all, &audits.found)?;
    let rows = in_order(alloc, &all.rows)?;
    push_table(out, &rows)?;
    push_updates(alloc, out, recording, &all.rows)
}

/// Returns the queries in the order of the table: the committed ones with the greatest distance first, then the others.
fn in_order<'a>(alloc: Global, rows: &[QueryRow<'a>]) -> Result<Vec<QueryRow<'a>>, AllocError> {
    let mut ranks = Vec::new(alloc);
    for (index, row) in rows.iter().enumerate() {
        let distance = row.distance();
        let is_open = distance.is_none();
        ranks.push((
            is_open,
            rank(distance.unwrap_or(0), row.charged, row.query),
            index,
        ))?;
    }
    ranks.sort_unstable();
    let mut ordered = Vec::new(alloc);
    for (_, _, index) in &ranks {
        if let Some(row) = rows.get(*index) {
            ordered.push(*row)?;
        }
    }
    Ok(ordered)
}

/// Returns the document with this body. No contract specifies the body, so it is tested for well-formedness, and
/// replaced by an empty one if the test fails. This does not occur.
fn document(alloc: Global, body: String) -> Result<Vec<u8>, AllocError>
    ensures { IfOk result (λ text. IsPage text.items) }
{
    let body = markup_or_nothing(alloc, body)?;
    let text = format!(in alloc; "<!DOCTYPE html><html lang='en'>{body}</html>\n")?;
    Ok(text.into_bytes())
}

impl<T: Part, P: Part, W: Part> Page<'_, T, P, W> {
    /// All that the document has within its outermost element, one after another.
    fn push_body(
        &self,
        alloc: Global,
        out: &mut String,
        recording: &Recording<'_>,
        audits: &Audits<'_>,
        all: &mut QueryRows<'_>,
        explained: &[TxnId],
    ) -> Result<(), AllocError> {
        let traces = traces_of(alloc, &recording.history, explained)?;
        push_summary(alloc, out, self.metadata, all, audits)?;
        let worst = first(explained, 1);
        let others = explained.get(1..).unwrap_or(&[]);
        out.push_str(heading_of(&all.rows, worst))?;
        self.push_details(alloc, out, recording, &audits.auditor, worst, &traces)?;
        push_overview(alloc, out, recording, all, audits)?;
        out.push_str(next_heading_of(others))?;
        self.push_details(alloc, out, recording, &audits.auditor, others, &traces)?;
        push_order(out, &recording.transactions, &audits.order)?;
        out.push_str(script())
    }

    /// Returns the content of the document's outermost element.
    fn body(
        &self,
        alloc: Global,
        recording: &Recording<'_>,
        audits: &Audits<'_>,
        count: usize,
    ) -> Result<String, AllocError> {
        let mut all = rows_of(alloc, recording, &audits.found)?;
        let explained = describe_farthest(alloc, &mut all, count)?;
        let mut out = String::new(alloc);
        self.push_body(alloc, &mut out, recording, audits, &mut all, &explained)?;
        Ok(out)
    }

    /// The page about a script.
    fn about(&self, alloc: Global, recording: &Recording<'_>) -> Result<Vec<u8>, AllocError>
        ensures { IfOk result (λ text. IsPage text.items) }
    {
        let count = usize::try_from(self.worst).unwrap_or(usize::MAX);
        let audits = audit_all(alloc, &recording.history)?;
        let body = self.body(alloc, recording, &audits, count)?;
        document(alloc, body)
    }
}

impl<T: Part, P: Part, W: Part> ScriptView for Page<'_, T, P, W> {
    ghost IsTextOf = { λ _ _ text. IsPage text };

    fn text_of(
        &self,
        alloc: Global,
        recording: &Recording<'_>,
    ) -> Result<Option<Vec<u8>>, AllocError> {
        match self.about(alloc, recording) {
            Ok(text) => Ok(Some(text)),
            Err(error) => Err(error),
        }
    }
}
