//! The table of the updates that were charged, by the amount that each exported, with the number of reports that it
//! exported to. A machine replays the history, because a history keeps only what each query imported in all. If no query
//! imported anything, no update exported anything, and nothing is replayed.

use crate::rows::QueryRow;
use crate::table::{MAX_ROWS, push_cell, push_count_of_rows};
use esr_history::{History, MAX_LIMIT, TxnId};
use esr_items::Weighted;
use esr_outcomes::outcome_of;
use esr_report::name_of_transaction;
use esr_text::{first, push_count, push_number};
use esr_trace_events::{Charge, Charges};
use esr_views::Recording;
use esr_wording::outcome_words;
use std::alloc::{AllocError, Global};

const HEADINGS: &str =
    "<div class='wide' tabindex='0' role='group' aria-label='Updates'><table>\n<thead><tr><th scope='col'>Update</th><th scope='col' class='num'>Exported</th><th scope='col' class='num'>Reports</th><th scope='col' class='num'>Limit</th><th scope='col'>Ended</th></tr></thead>\n<tbody>\n";

/// The charges of all updates: what each exported, and the pairs of an update and a query with a charge.
#[derive(Drop)]
struct Exports {
    amounts: Vec<u64>,
    pairs: Vec<(u32, u32)>,
}

impl Exports {
    /// Notes a charge.
    fn note(&mut self, charge: &Charge) -> Result<(), AllocError> {
        if let Some(amount) = self.amounts.get_mut(charge.update.0 as usize) {
            *amount = amount.saturating_add(charge.amount);
        }
        self.pairs.push((charge.update.0, charge.query.0))?;
        Ok(())
    }

    /// Notes some charges.
    fn note_all(&mut self, charges: &[Charge]) -> Result<(), AllocError> {
        for charge in charges {
            self.note(charge)?;
        }
        Ok(())
    }

    /// Notes the charges of the next `count` entries of a replay.
    fn note_entries(
        &mut self,
        alloc: Global,
        charges: &mut Charges<'_>,
        count: usize,
    ) -> Result<(), AllocError> {
        for _ in 0..count {
            self.note_all(&charges.step(alloc)?)?;
        }
        Ok(())
    }

    /// Returns the number of queries that each update exported to.
    fn reports(&mut self, alloc: Global) -> Result<Vec<u64>, AllocError> {
        let mut reports = vec![in alloc; 0u64; self.amounts.len()]?;
        self.pairs.sort_unstable();
        let mut last = None;
        for pair in &self.pairs {
            if let (true, Some(count)) = (last != Some(*pair), reports.get_mut(pair.0 as usize)) {
                *count = count.saturating_add(1);
            }
            last = Some(*pair);
        }
        Ok(reports)
    }
}

/// Returns the charges of all updates.
fn exports_of(alloc: Global, history: &History<Weighted>) -> Result<Exports, AllocError> {
    let count = history.begun_count().saturating_add(1);
    let mut exports = Exports {
        amounts: vec![in alloc; 0u64; count]?,
        pairs: Vec::new(alloc),
    };
    let mut charges = Charges::new(alloc, history)?;
    exports.note_entries(alloc, &mut charges, history.log().len())?;
    Ok(exports)
}

/// An update that was charged.
#[derive(Clone, Copy)]
struct UpdateRow {
    update: TxnId,
    amount: u64,
    reports: u64,
}

/// Returns the updates that were charged, those that exported most first.
fn rows_of(alloc: Global, exports: &mut Exports) -> Result<Vec<UpdateRow>, AllocError> {
    let reports = exports.reports(alloc)?;
    let mut ranks = Vec::new(alloc);
    for (number, amount) in (0u32..65_536).zip(exports.amounts.iter()) {
        if *amount > 0 {
            ranks.push((u64::MAX.saturating_sub(*amount), number))?;
        }
    }
    ranks.sort_unstable();
    let mut rows = Vec::new(alloc);
    for (rank, number) in &ranks {
        rows.push(UpdateRow {
            update: TxnId(*number),
            amount: u64::MAX.saturating_sub(*rank),
            reports: reports.get(*number as usize).copied().unwrap_or(0),
        })?;
    }
    Ok(rows)
}

/// Appends a row.
fn push_row(out: &mut String, recording: &Recording<'_>, row: UpdateRow) -> Result<(), AllocError> {
    let name = name_of_transaction(&recording.transactions, row.update);
    let facts = recording.history.facts(row.update);
    let limit = facts.map_or(0, |facts| facts.limit);
    write!(out, "<tr><th scope='row'>{name}</th>")?;
    push_cell(out, row.amount)?;
    push_cell(out, row.reports)?;
    if limit >= MAX_LIMIT {
        out.push_str("<td class='num'>none</td>")?;
    } else {
        push_cell(out, limit)?;
    }
    let outcome = outcome_words(outcome_of(&recording.history, row.update));
    write!(out, "<td>{outcome}</td></tr>\n")
}

/// Appends the heading of the table, with the number of updates that were charged.
fn push_heading(out: &mut String, count: u64, total: u64) -> Result<(), AllocError> {
    out.push_str("<h2 id='updates'>Updates by what they exported</h2>\n<p>")?;
    push_count(out, count, " update exported ", " updates exported ")?;
    push_number(out, total)?;
    out.push_str(
        " in total, by changing values that reports had read, or by writes that reports read before the commit.</p>\n",
    )
}

/// Appends the table of the updates that were charged, if there are any. `queries` are all queries.
pub fn push_updates(
    alloc: Global,
    out: &mut String,
    recording: &Recording<'_>,
    queries: &[QueryRow<'_>],
) -> Result<(), AllocError> {
    if queries.iter().all(|query| query.charged == 0) {
        return Ok(());
    }
    let mut exports = exports_of(alloc, &recording.history)?;
    let rows = rows_of(alloc, &mut exports)?;
    if rows.is_empty() {
        return Ok(());
    }
    let mut total = 0u64;
    for row in &rows {
        total = total.saturating_add(row.amount);
    }
    push_heading(out, rows.len() as u64, total)?;
    out.push_str(HEADINGS)?;
    for row in first(&rows, MAX_ROWS) {
        push_row(out, recording, *row)?;
    }
    out.push_str("</tbody></table></div>\n")?;
    push_count_of_rows(out, rows.len())
}
