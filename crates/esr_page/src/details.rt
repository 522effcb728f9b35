//! Picture and prose of the queries that were farthest off. A page is given what makes these, and does not know it.

use crate::audits::rank;
use crate::page::Page;
use crate::rows::{QueryRow, QueryRows, Target};
use crate::table::MAX_ROWS;
use esr_audit::Finding;
use esr_history::TxnId;
use esr_outcomes::Auditor;
use esr_report::name_of_transaction;
use esr_text::{first, push_number};
use esr_trace::{Audited, Part, Traced, Traces, sum_error};
use esr_views::Recording;
use std::alloc::{AllocError, Global};

/// The committed queries, those that were farthest off first.
fn farthest(alloc: Global, rows: &[QueryRow<'_>]) -> Result<Vec<(u64, u64, u32)>, AllocError> {
    let mut ranks = Vec::new(alloc);
    for row in rows {
        if let Some(distance) = row.distance() {
            ranks.push(rank(distance, row.charged, row.query))?;
        }
    }
    ranks.sort_unstable();
    Ok(ranks)
}

/// Marks the queries of these ranks, and returns them.
fn mark(
    alloc: Global,
    all: &mut QueryRows<'_>,
    ranks: &[(u64, u64, u32)],
) -> Result<Vec<TxnId>, AllocError> {
    let mut explained = Vec::new(alloc);
    for (_, _, number) in ranks {
        let query = TxnId(*number);
        if let Some(row) = all.of(query) {
            row.target = Target::Details;
            explained.push(query)?;
        }
    }
    Ok(explained)
}

/// Notes that no link leads to the queries of these ranks.
fn mark_unlisted(all: &mut QueryRows<'_>, ranks: &[(u64, u64, u32)]) {
    for (_, _, number) in ranks {
        if let Some(row) = all.of(TxnId(*number)) {
            row.target = Target::Nothing;
        }
    }
}

/// Marks the `count` queries with the greatest distances, and returns them in descending order. The table lists the
/// committed queries in this order, so no link leads to those after its last row.
pub fn describe_farthest(
    alloc: Global,
    all: &mut QueryRows<'_>,
    count: usize,
) -> Result<Vec<TxnId>, AllocError> {
    let ranks = farthest(alloc, &all.rows)?;
    mark_unlisted(all, ranks.get(MAX_ROWS..).unwrap_or(&[]));
    mark(alloc, all, first(&ranks, count))
}

/// Appends the heading of a query, and the start of its pictures.
fn push_heading(
    out: &mut String,
    name: &str,
    distance: u64,
    sum_error: u64,
) -> Result<(), AllocError> {
    write!(out, "<section id='q-{name}'><h3>{name}: ")?;
    if distance == 0 {
        out.push_str("exact")?;
    } else {
        out.push_str("off by ")?;
        push_number(out, distance)?;
        out.push_str(", its sum by ")?;
        push_number(out, sum_error)?;
    }
    out.push_str("</h3>\n<div class='seen'>\n")
}

/// Appends the start of a part that scrolls by itself.
fn open_part(out: &mut String, part: &str, name: &str) -> Result<(), AllocError> {
    write!(
        out,
        "<div class='wide' tabindex='0' role='group' aria-label='{part} of {name}'>\n"
    )
}

impl<T: Part, P: Part, W: Part> Page<'_, T, P, W> {
    /// Appends the timeline, the picture and the sentences of a query, within its section.
    fn push(
        &self,
        alloc: Global,
        out: &mut String,
        audited: &Audited<'_>,
        auditor: &Auditor<'_>,
        lines: &[u32],
        traced: Traced<'_>,
    ) -> Result<(), AllocError> {
        let name = name_of_transaction(audited.transactions, audited.finding.query);
        open_part(out, "Timeline", name)?;
        self.timeline
            .push(alloc, out, audited, auditor, lines, traced)?;
        out.push_str("</div>\n")?;
        open_part(out, "Picture", name)?;
        self.picture
            .push(alloc, out, audited, auditor, lines, traced)?;
        out.push_str("</div>\n</div>\n")?;
        self.words.push(alloc, out, audited, auditor, lines, traced)
    }

    /// A query with picture and words.
    fn push_explained(
        &self,
        alloc: Global,
        out: &mut String,
        recording: &Recording<'_>,
        auditor: &Auditor<'_>,
        finding: &Finding,
        traced: Traced<'_>,
    ) -> Result<(), AllocError> {
        let audited = Audited {
            items: &recording.items,
            transactions: &recording.transactions,
            history: &recording.history,
            finding,
        };
        let name = name_of_transaction(&recording.transactions, finding.query);
        let sum_error = sum_error(alloc, auditor, finding.query, &finding.before)?;
        push_heading(out, name, finding.distance, sum_error)?;
        self.push(alloc, out, &audited, auditor, recording.lines, traced)?;
        write!(
            out,
            "<p><a href='#r-{name}'>{name} in the table</a></p></section>\n"
        )
    }

    /// Appends pictures and sentences of these queries, which are among those of the traces.
    pub fn push_details(
        &self,
        alloc: Global,
        out: &mut String,
        recording: &Recording<'_>,
        auditor: &Auditor<'_>,
        explained: &[TxnId],
        traces: &Traces,
    ) -> Result<(), AllocError> {
        for query in explained {
            if let Some(finding) = auditor.finding(alloc, *query)?
                && let Some(traced) = traces.of(*query)
            {
                self.push_explained(alloc, out, recording, auditor, &finding, traced)?;
            }
        }
        Ok(())
    }
}

/// Returns the heading of the queries described in detail: those with the greatest distances, or if all were exact,
/// those with the largest charges.
pub fn heading_of(rows: &[QueryRow<'_>], explained: &[TxnId]) -> &'static str {
    if explained.is_empty() {
        ""
    } else if rows.iter().any(|row| row.distance().unwrap_or(0) > 0) {
        "<h2>Largest distance</h2>\n"
    } else {
        "<h2>All exact; the query with the largest charges</h2>\n"
    }
}

/// Returns the heading of the other queries in detail, if there are any.
pub fn next_heading_of(explained: &[TxnId]) -> &'static str {
    if explained.is_empty() {
        ""
    } else {
        "<h2>Next queries in detail</h2>\n"
    }
}
