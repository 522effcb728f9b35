//! The charts: a column for each committed query, in the order of their commits, in one chart with its distance and in
//! another one with its charges and its limit, unless that is above the chart. One chart for both was rejected: charges are
//! often some hundred times the distance, which is then a line of a pixel. Columns are elements of the page and not a
//! picture, so that they are as wide as there is space, and each is a link with its own title. If a few queries have far
//! larger amounts than all others, the chart ends below them, so that the others are seen; a logarithmic scale was
//! rejected, since a bar would no longer show its amount by its length.

use crate::audits::AuditedDistance;
use crate::rows::{QueryRow, QueryRows, open_link};
use esr_text::{first, push_count, push_number};
use std::alloc::{AllocError, Global};

/// So many queries have names below their columns.
const MAX_NAMED: usize = 12;

/// So many columns there are at most.
const MAX_COLUMNS: usize = 1000;

/// The chart ends at this multiple of the amount of all but the largest queries.
const FARTHEST: u64 = 5;

/// The quantity that a chart shows.
#[derive(Clone, Copy, PartialEq, Eq)]
enum Measure {
    Distance,
    Charges,
}

/// Returns the amount of a query.
fn amount_of(row: &QueryRow<'_>, measure: Measure) -> u64 {
    match measure {
        Measure::Distance => row.distance().unwrap_or(0),
        Measure::Charges => row.charged,
    }
}

/// Returns the class of the bars.
fn class_of(measure: Measure) -> &'static str {
    match measure {
        Measure::Distance => "dis",
        Measure::Charges => "chg",
    }
}

/// The height of an amount, in thousandths of the chart's.
fn height(amount: u64, top: u64) -> u64 {
    let share = if top < 1_000_000_000_000_000 {
        amount.min(top).saturating_mul(1000).checked_div(top)
    } else {
        amount.min(top).checked_div(top / 1000)
    };
    share.unwrap_or(0).min(1000)
}

/// A bar of such a class.
fn push_bar(out: &mut String, class: &str, amount: u64, top: u64) -> Result<(), AllocError> {
    let height = height(amount, top);
    let (whole, part) = (height / 10, height % 10);
    write!(
        out,
        "<i class='{class}' style='bottom:0;height:{whole}.{part}%'></i>"
    )
}

/// Appends the mark of a limit, unless it is above the chart.
fn push_limit(out: &mut String, limit: u64, top: u64) -> Result<(), AllocError> {
    if limit > top {
        return Ok(());
    }
    let height = height(limit, top);
    let (whole, part) = (height / 10, height % 10);
    write!(out, "<i class='lim' style='bottom:{whole}.{part}%'></i>")
}

/// Appends the description of a column.
fn push_words(out: &mut String, row: &QueryRow<'_>) -> Result<(), AllocError> {
    out.push_str(row.name)?;
    out.push_str(": limit ")?;
    push_number(out, row.limit)?;
    out.push_str(", charged ")?;
    push_number(out, row.charged)?;
    out.push_str(", off by ")?;
    push_number(out, row.distance().unwrap_or(0))
}

/// Appends a column. If it continues above the chart, a gap through all its bars shows this: a torn end for each bar
/// overlapped that of the previous bar, and was invisible on narrow bars.
fn push_column(
    out: &mut String,
    row: &QueryRow<'_>,
    top: u64,
    measure: Measure,
) -> Result<(), AllocError> {
    let name = row.name;
    out.push_str("<li>")?;
    open_link(out, row.target, name)?;
    out.push_str(" title='")?;
    push_words(out, row)?;
    let amount = amount_of(row, measure);
    let end = if amount > top { " cut" } else { "" };
    write!(out, "'><span class='col{end}' aria-hidden='true'>")?;
    push_bar(out, class_of(measure), amount, top)?;
    if measure == Measure::Charges {
        push_limit(out, row.limit, top)?;
    }
    write!(out, "</span><span class='nam'>{name}</span></a></li>\n")
}

/// The columns of these queries.
fn push_columns(
    out: &mut String,
    all: &mut QueryRows<'_>,
    found: &[AuditedDistance],
    top: u64,
    measure: Measure,
) -> Result<(), AllocError> {
    for found in first(found, MAX_COLUMNS) {
        if let Some(row) = all.of(found.query) {
            push_column(out, row, top, measure)?;
        }
    }
    Ok(())
}

/// Returns the amounts of the committed queries, ascending.
fn amounts_of(
    alloc: Global,
    rows: &[QueryRow<'_>],
    measure: Measure,
) -> Result<Vec<u64>, AllocError> {
    let mut amounts = Vec::new(alloc);
    for row in rows {
        if row.distance().is_some() {
            amounts.push(amount_of(row, measure))?;
        }
    }
    amounts.sort_unstable();
    Ok(amounts)
}

/// Returns the largest amount if a quarter of the queries, and one at least, is left out.
fn usual_amount(amounts: &[u64]) -> u64 {
    let largest = (amounts.len() / 4).max(1);
    let others = amounts.len().saturating_sub(largest);
    amounts
        .get(..others)
        .and_then(<[u64]>::last)
        .copied()
        .unwrap_or(0)
}

/// Returns the amount at the top of the chart: the largest amount; if that is more than a multiple of most others, this
/// multiple; if all are 0, the highest limit.
fn top_of(rows: &[QueryRow<'_>], amounts: &[u64]) -> u64 {
    let upper_bound = amounts.last().copied().unwrap_or(0);
    let end = usual_amount(amounts).saturating_mul(FARTHEST);
    if end > 0 && upper_bound > end {
        end
    } else if upper_bound > 0 {
        upper_bound
    } else {
        rows.iter().map(|row| row.limit).max().unwrap_or(0).max(1)
    }
}

/// Returns the heading of a chart.
fn heading_of(measure: Measure) -> &'static str {
    match measure {
        Measure::Distance => "<h2>Distances, in the order of the commits</h2>\n",
        Measure::Charges => "<h2>Charges, in the order of the commits</h2>\n",
    }
}

/// Returns the legend of a chart.
fn legend_of(measure: Measure) -> &'static str {
    match measure {
        Measure::Distance => "<p class='key'><span><i class='dis'></i> off by</span></p>\n",
        Measure::Charges => {
            "<p class='key'><span><i class='chg'></i> charged</span> <span><i class='lim'></i> limit, unless it is above the chart</span></p>\n"
        }
    }
}

/// Appends the legend of a chart, the amount at its top, and how many columns go beyond it.
fn push_legend(
    out: &mut String,
    top: u64,
    amounts: &[u64],
    measure: Measure,
) -> Result<(), AllocError> {
    let count = amounts.len();
    let above = amounts.iter().filter(|amount| **amount > top).count();
    out.push_str(legend_of(measure))?;
    out.push_str("<p>The top of the chart is ")?;
    push_number(out, top)?;
    out.push('.')?;
    if above > 0 {
        out.push_str(" Beyond it, with a gap below the top: ")?;
        push_count(out, above as u64, " query", " queries")?;
        out.push('.')?;
    }
    if count > MAX_COLUMNS {
        out.push_str(" It has the first ")?;
        push_number(out, MAX_COLUMNS as u64)?;
        out.push_str(" of ")?;
        push_number(out, count as u64)?;
        out.push_str(" queries.")?;
    }
    out.push_str("</p>\n")
}

/// Appends the charts of the committed queries. A chart of distances that are all 0 is left out.
pub fn push_charts(
    alloc: Global,
    out: &mut String,
    all: &mut QueryRows<'_>,
    found: &[AuditedDistance],
) -> Result<(), AllocError> {
    if found.is_empty() {
        return out.push_str("<p>No query has committed.</p>\n");
    }
    if found.iter().any(|found| found.distance > 0) {
        push_chart(alloc, out, all, found, Measure::Distance)?;
    }
    push_chart(alloc, out, all, found, Measure::Charges)
}

/// Appends a chart.
fn push_chart(
    alloc: Global,
    out: &mut String,
    all: &mut QueryRows<'_>,
    found: &[AuditedDistance],
    measure: Measure,
) -> Result<(), AllocError> {
    let amounts = amounts_of(alloc, &all.rows, measure)?;
    let top = top_of(&all.rows, &amounts);
    out.push_str(heading_of(measure))?;
    let class = if found.len() > MAX_NAMED {
        "chart many"
    } else {
        "chart few"
    };
    write!(
        out,
        "<div class='wide' tabindex='0' role='group' aria-label='Chart'><ol class='{class}'>\n"
    )?;
    push_columns(out, all, found, top, measure)?;
    out.push_str("</ol></div>\n")?;
    push_legend(out, top, &amounts, measure)
}
