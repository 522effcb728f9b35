//! Why the reads of a query are off: a sentence for each update that explains some, or a row of the table if these are many.

use esr_history::TxnId;
use esr_outcomes::{TxnOutcome, outcome_of};
use esr_report::name_of_transaction;
use esr_svg::{Entry, Row, Scene};
use esr_text::{first, push_count, push_number, push_value};
use esr_trace::{
    Alternative, Audited, MAX_ALTERNATIVES, NearestPlacement, QueryTrace, ReadSum, Reading, Reason,
    Reasons, is_overwritten, total_of_reads,
};
use esr_wording::push_certificate;
use std::alloc::{AllocError, Global};

/// The maximum number of updates that have sentences and no table.
const MAX_SENTENCES: usize = 3;

/// The maximum number of reads in a cell, and of updates.
const MAX_READS: usize = 6;

const MAX_UPDATES: usize = 4;

/// The maximum number of letters of a read in one line.
const MAX_LETTERS: usize = 16;

/// Returns an entry of words and an amount.
fn entry(alloc: Global, words: &str, amount: Option<u64>) -> Result<Entry, AllocError> {
    Ok(Entry {
        words: String::from_str(alloc, words)?,
        amount,
    })
}

/// Returns a cell of one entry.
fn cell(alloc: Global, words: &str, amount: Option<u64>) -> Result<Vec<Entry>, AllocError> {
    let mut cell = Vec::new(alloc);
    cell.push(entry(alloc, words, amount)?)?;
    Ok(cell)
}

/// Returns the row of the headings.
fn head_row(alloc: Global) -> Result<Row, AllocError> {
    let mut cells = Vec::new(alloc);
    cells.push(cell(alloc, "update", None)?)?;
    cells.push(cell(alloc, "in state", None)?)?;
    cells.push(cell(alloc, "reads off", None)?)?;
    cells.push(cell(alloc, "moves with it", None)?)?;
    cells.push(cell(alloc, "nearer then", None)?)?;
    cells.push(cell(alloc, "farther then", None)?)?;
    cells.push(cell(alloc, "off by then", None)?)?;
    Ok(Row { cells })
}

/// Adds the number and the sum of the reads that are not named, and the sum of all if there are several.
fn push_totals(alloc: Global, cell: &mut Vec<Entry>, sums: &[ReadSum]) -> Result<(), AllocError> {
    let total = total_of_reads(sums);
    let others = sums.len().saturating_sub(MAX_READS);
    if others > 0 {
        let mut words = String::new(alloc);
        push_number(&mut words, others as u64)?;
        words.push_str(" more")?;
        let named = total_of_reads(first(sums, MAX_READS));
        cell.push(Entry {
            words,
            amount: Some(total.saturating_sub(named)),
        })?;
    }
    if sums.len() > 1 {
        cell.push(entry(alloc, "together", Some(total))?)?;
    }
    Ok(())
}

/// Adds a read with its amount. If the query read several values of the item, the value is next to the name or below it.
fn push_read(
    alloc: Global,
    cell: &mut Vec<Entry>,
    audited: &Audited<'_>,
    sum: ReadSum,
) -> Result<(), AllocError> {
    let ReadSum { reading, amount } = sum;
    let mut words = String::new(alloc);
    reading.push_name(&mut words, audited.items)?;
    let is_long = words.len() > MAX_LETTERS;
    if is_long {
        words.clear();
        words.push_str(audited.items.name_of(reading.item).unwrap_or(""))?;
    }
    cell.push(Entry {
        words,
        amount: Some(amount),
    })?;
    if is_long && !reading.is_only {
        let mut value = String::new(alloc);
        value.push('(')?;
        push_value(&mut value, reading.value)?;
        value.push(')')?;
        cell.push(Entry {
            words: value,
            amount: None,
        })?;
    }
    Ok(())
}

/// Returns a cell of reads with their amounts. It says which of them had values that were overwritten.
fn reads_cell(
    alloc: Global,
    audited: &Audited<'_>,
    sums: &[ReadSum],
    overwritten: &[Reading],
) -> Result<Vec<Entry>, AllocError> {
    let mut cell = Vec::new(alloc);
    for sum in first(sums, MAX_READS) {
        push_read(alloc, &mut cell, audited, *sum)?;
        if is_overwritten(overwritten, &sum.reading) {
            cell.push(entry(alloc, "overwritten", None)?)?;
        }
    }
    push_totals(alloc, &mut cell, sums)?;
    Ok(cell)
}

/// Returns the updates that change sides with the one of a row.
fn others_cell(
    alloc: Global,
    audited: &Audited<'_>,
    others: &[TxnId],
) -> Result<Vec<Entry>, AllocError> {
    let mut cell = Vec::new(alloc);
    for update in first(others, MAX_UPDATES) {
        let name = name_of_transaction(audited.transactions, *update);
        cell.push(entry(alloc, name, None)?)?;
    }
    let rest = others.len().saturating_sub(MAX_UPDATES);
    if rest > 0 {
        let mut words = String::new(alloc);
        push_number(&mut words, rest as u64)?;
        words.push_str(" more")?;
        cell.push(Entry {
            words,
            amount: None,
        })?;
    }
    Ok(cell)
}

/// Returns the distance then.
fn result_cell(
    alloc: Global,
    distance: u64,
    alternative: &Alternative,
) -> Result<Vec<Entry>, AllocError> {
    if alternative.required.is_some() {
        return cell(alloc, "excluded", None);
    }
    let more = alternative
        .farther_total()
        .saturating_sub(alternative.nearer_total());
    let mut result = cell(alloc, "", Some(distance.saturating_add(more)))?;
    if more == 0 {
        result.push(entry(alloc, "as far off", None)?)?;
    }
    Ok(result)
}

/// Returns why an update cannot be in the nearest state.
fn absence_words(audited: &Audited<'_>, update: TxnId) -> &'static str {
    match outcome_of(audited.history, update) {
        TxnOutcome::Aborted => "aborted",
        TxnOutcome::Active => "not ended",
        TxnOutcome::Committed => "later",
    }
}

/// Adds the cells of an update that could be on the other side.
fn push_alternative(
    alloc: Global,
    cells: &mut Vec<Vec<Entry>>,
    audited: &Audited<'_>,
    alternative: &Alternative,
) -> Result<(), AllocError> {
    cells.push(others_cell(alloc, audited, &alternative.others)?)?;
    cells.push(reads_cell(alloc, audited, &alternative.nearer, &[])?)?;
    cells.push(reads_cell(alloc, audited, &alternative.farther, &[])?)?;
    cells.push(result_cell(alloc, audited.finding.distance, alternative)?)?;
    Ok(())
}

/// Returns the row of an update.
fn row_of(alloc: Global, audited: &Audited<'_>, reason: &Reason) -> Result<Row, AllocError> {
    let mut cells = Vec::new(alloc);
    let name = name_of_transaction(audited.transactions, reason.update);
    let side = match &reason.alternative {
        Some(alternative) if alternative.is_added => "no",
        Some(_) => "yes",
        None => absence_words(audited, reason.update),
    };
    cells.push(cell(alloc, name, None)?)?;
    cells.push(cell(alloc, side, None)?)?;
    cells.push(reads_cell(alloc, audited, &reason.reads, &reason.overwritten)?)?;
    match &reason.alternative {
        Some(alternative) => push_alternative(alloc, &mut cells, audited, alternative)?,
        None => cells.push(cell(alloc, "cannot be in it", None)?)?,
    }
    Ok(Row { cells })
}

/// Returns the row of the updates that have no row.
fn rest_row(alloc: Global, rest: &[Reason]) -> Result<Row, AllocError> {
    let mut words = String::new(alloc);
    push_number(&mut words, rest.len() as u64)?;
    words.push_str(" more")?;
    let mut distance = 0u64;
    for reason in rest {
        distance = distance.saturating_add(reason.distance());
    }
    let mut cells = Vec::new(alloc);
    cells.push(cell(alloc, &words, None)?)?;
    cells.push(cell(alloc, "", None)?)?;
    cells.push(cell(alloc, "", Some(distance))?)?;
    Ok(Row { cells })
}

/// Returns the table.
fn rows_of(
    alloc: Global,
    audited: &Audited<'_>,
    reasons: &Reasons,
) -> Result<Vec<Row>, AllocError> {
    let mut rows = Vec::new(alloc);
    rows.push(head_row(alloc)?)?;
    for reason in first(&reasons.reasons, MAX_ALTERNATIVES) {
        rows.push(row_of(alloc, audited, reason)?)?;
    }
    if !reasons.rest().is_empty() {
        rows.push(rest_row(alloc, reasons.rest())?)?;
    }
    Ok(rows)
}

/// Adds a sentence on an alternative, unless it would change nothing.
fn push_sentence(
    alloc: Global,
    sentences: &mut Vec<String>,
    audited: &Audited<'_>,
    alternative: &Option<Alternative>,
) -> Result<(), AllocError> {
    if let Some(alternative) = alternative {
        let finding = audited.finding;
        let query = name_of_transaction(audited.transactions, finding.query);
        let mut words = String::new(alloc);
        alternative.push(
            &mut words,
            audited.items,
            audited.transactions,
            (query, finding.distance),
        )?;
        if !words.is_empty() {
            sentences.push(words)?;
        }
    }
    Ok(())
}

/// Adds a sentence on an update that explains reads.
fn push_reason(
    alloc: Global,
    sentences: &mut Vec<String>,
    audited: &Audited<'_>,
    reason: &Reason,
) -> Result<(), AllocError> {
    let mut words = String::new(alloc);
    reason.push(&mut words, audited)?;
    if !words.is_empty() {
        sentences.push(words)?;
    }
    Ok(())
}

/// Returns whether the update of a reason has to be before a strict query.
fn is_required(reason: &Reason) -> bool {
    match &reason.alternative {
        Some(alternative) => alternative.required.is_some(),
        None => false,
    }
}

/// Appends how to read the table.
fn push_table_words(
    out: &mut String,
    audited: &Audited<'_>,
    reasons: &Reasons,
) -> Result<(), AllocError> {
    let query = name_of_transaction(audited.transactions, audited.finding.query);
    write!(out, "Why {query} is off: ")?;
    push_number(out, reasons.off)?;
    out.push_str(" of its ")?;
    push_count(
        out,
        reasons.all,
        " read in all is off",
        " reads in all are off",
    )?;
    out.push_str(
        ", because of these updates, that of the farthest read first. If an update changed sides of the line, the reads in its row would be exact. But others would have to move with it, other reads would be nearer or farther, and ",
    )?;
    write!(out, "{query} would be off by as much or more.")?;
    if reasons
        .reasons
        .iter()
        .any(|reason| !reason.overwritten.is_empty())
    {
        out.push_str(
            " Overwritten: the writer of the value overwrote it before the end, so no state has it.",
        )?;
    }
    if reasons.reasons.iter().any(|reason| is_required(reason)) {
        write!(
            out,
            " Excluded: {query} is strict and has to follow the update, or one that moves with it."
        )?;
    }
    Ok(())
}

/// Adds the sentence on what proves that no state is nearer.
fn push_proof(
    alloc: Global,
    sentences: &mut Vec<String>,
    audited: &Audited<'_>,
) -> Result<(), AllocError> {
    let mut words = String::new(alloc);
    let query = name_of_transaction(audited.transactions, audited.finding.query);
    push_certificate(&mut words, query)?;
    sentences.push(words)?;
    Ok(())
}

/// Adds to a scene why the reads of a query are off.
pub fn add_reasons(
    alloc: Global,
    scene: &mut Scene<'_>,
    audited: &Audited<'_>,
    placement: &NearestPlacement,
    trace: &QueryTrace,
) -> Result<(), AllocError> {
    if audited.finding.distance == 0 {
        return Ok(());
    }
    let reasons = Reasons::of(alloc, audited, placement, trace, MAX_ALTERNATIVES)?;
    push_sentence(alloc, &mut scene.reasons, audited, &reasons.without_all)?;
    push_sentence(alloc, &mut scene.reasons, audited, &reasons.with_all)?;
    if reasons.reasons.len() > MAX_SENTENCES {
        let mut words = String::new(alloc);
        push_table_words(&mut words, audited, &reasons)?;
        scene.reasons.push(words)?;
        scene.rows = rows_of(alloc, audited, &reasons)?;
    } else {
        for reason in &reasons.reasons {
            push_reason(alloc, &mut scene.reasons, audited, reason)?;
        }
    }
    push_proof(alloc, &mut scene.reasons, audited)
}
