//! The rows of a ledger: a history's data about each transaction. A few columns are computed for all transactions at
//! once; audits run one after another, by one index. The rows of 65,000 transactions take 6 MB.

ghost use Rattle.std.specs.Prelude.{◌≡◌, ◌<◌, ◌≤◌, ◌+◌, ◌++◌, ◌∷◌, [], List, length, map, IfOk, OnOk};
ghost use Rattle.std.specs.List.{range_with_len};
ghost use Rattle.esr_history.specs.declared.event.Entry.{Entry};
ghost use Rattle.esr_history.specs.BackLinks.{begun_count};
ghost use Rattle.esr_history.specs.Events.{is_query, limit_of};
ghost use Rattle.esr_history.specs.Machine.{charges_in, accepted_in, export_in};
ghost use Rattle.esr_items.specs.Weights.{weighted};
ghost use Rattle.esr_outcomes.specs.Outcomes.{distance_of};
ghost use Rattle.esr_tables.specs.Rows.{import_or_export, row_of, rows_of, tally_of};
ghost use Rattle.esr_tables.specs.Entries.{AreColumns, AreTallies};

use crate::exports::{exports, nth_txn};
use crate::tallies::{Tally, tallies};
use esr_history::{History, NoMemory, TxnId};
use esr_items::Weighted;
use esr_outcomes::{Auditor, TxnKind, TxnOutcome, kind_of, outcome_of};
use std::alloc::{AllocError, Global};

/// A history's data about a transaction.
#[derive(Clone, Copy)]
pub struct Row {
    pub number: TxnId,
    pub kind: TxnKind,
    pub limit: u64,
    /// The import of a query, or the export of an update.
    pub charged: u64,
    /// The rest of the limit.
    pub left: u64,
    pub tally: Tally,
    pub outcome: TxnOutcome,
    /// The distance of a committed query from the nearest serial placement.
    pub distance: Option<u64>,
}

/// The columns of all transactions, by their numbers.
#[derive(Drop)]
struct Columns {
    /// The first is of no transaction; transaction 1 has the second.
    tallies: Vec<Tally>,
    /// The first is of no transaction; transaction 1 has the second.
    exports: Vec<u64>,
}

/// Computes the columns of all transactions.
fn columns_of(alloc: Global, history: &History<Weighted>) -> Result<Columns, NoMemory>
    ensures { IfOk result (λ c. AreColumns history.now.schedule c) }
{
    let exports = exports(alloc, history)?;
    let tallies = tallies(alloc, history)?;
    Ok(Columns { tallies, exports })
}

/// Returns the limit of a transaction.
fn limit_of(history: &History<Weighted>, t: TxnId) -> u64
    ensures { result ≡ limit_of (accepted_in history.now.schedule) t.0 }
{
    match history.facts(t) {
        Some(facts) => facts.limit,
        None => 0,
    }
}

/// Returns whether a transaction is a query.
fn is_query(history: &History<Weighted>, t: TxnId) -> bool
    ensures { result ≡ is_query (accepted_in history.now.schedule) t.0 }
{
    match history.facts(t) {
        Some(facts) => facts.query,
        None => false,
    }
}

/// Returns what a transaction imported as a query, or exported as an update, given the exports of all.
fn import_or_export(history: &History<Weighted>, exports: &[u64], t: TxnId) -> u64
    requires exports { exports.now ≡ map (export_in (charges_in weighted history.now.schedule))
        (range_with_len 0 (begun_count history.now.schedule.entries + 1)) }
    requires begun { t.0 ≤ begun_count history.now.schedule.entries }
    ensures { result ≡ import_or_export weighted history.now.schedule t.0 }
{
    if is_query(history, t) {
        return history.import(t);
    }
    match exports.get(t.0 as usize) {
        Some(export) => *export,
        None => 0,
    }
}

/// Returns the tally of a transaction.
fn tally_at(tallies: &[Tally], t: TxnId) -> Tally
    requires { t.0 < length tallies.now }
    ensures { (es : List Entry) → AreTallies es tallies.now → result ≡ tally_of es t.0 }
{
    tallies[t.0 as usize]
}

/// Returns the row of a transaction that has begun, with its distance.
fn row_of(history: &History<Weighted>, columns: &Columns, t: TxnId, distance: Option<u64>) -> Row
    requires columns { AreColumns history.now.schedule columns.now }
    requires begun { (1 ≤ t.0) × (t.0 ≤ begun_count history.now.schedule.entries) }
    requires distance { distance ≡ distance_of weighted history.now.schedule t.0 }
    ensures { result ≡ row_of weighted history.now.schedule t.0 }
{
    let limit = limit_of(history, t);
    let charged = import_or_export(history, &columns.exports, t);
    Row {
        number: t,
        kind: kind_of(history, t),
        limit,
        charged,
        left: limit.saturating_sub(charged),
        tally: tally_at(&columns.tallies, t),
        outcome: outcome_of(history, t),
        distance,
    }
}

/// Appends a row.
fn push_row(rows: &mut Vec<Row>, row: Row) -> Result<(), AllocError>
    ensures { OnOk result (rows.new.items ≡ rows.old.items ++ row ∷ []) }
{
    rows.push(row)?;
    Ok(())
}

/// Returns the rows of all transactions, in the order of their numbers.
pub fn rows_of(alloc: Global, history: &History<Weighted>) -> Result<Vec<Row>, NoMemory>
    ensures { IfOk result (λ v. v.items ≡ rows_of weighted history.now.schedule) }
{
    let columns = columns_of(alloc, history)?;
    let auditor = Auditor::of(alloc, history)?;
    let mut rows = Vec::new(alloc);
    for index in 0..history.begun_count() {
        let t = nth_txn(history, index);
        let distance = auditor.distance(alloc, t)?;
        push_row(&mut rows, row_of(history, &columns, t, distance))?;
    }
    Ok(rows)
}
