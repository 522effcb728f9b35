//! The maximum and the median of numbers of many runs, and which run is the worst.

ghost use Rattle.std.specs.Prelude.{◌≡◌, ◌++◌, [], IfOk, OnOk, map, sum};
ghost use Rattle.std.specs.List.{cons_option};
ghost use Rattle.esr_explore.specs.Columns.{has_given_up, runs_given_up, median, number_in, numbers_of, inconsistency_at};
ghost use Rattle.esr_explore.specs.Severity.{amount_of, greatest, severity_of, worst_run};
ghost use Rattle.esr_explore.specs.Turns.{saturated_u64};

use crate::measure::Measure;
use crate::run_summary::{QueryInconsistency, RunSummary};
use std::alloc::{AllocError, Global};

/// The maximum and the lower median of some numbers.
#[derive(Clone, Copy)]
pub struct MaxAndMedian {
    pub maximum: u64,
    pub median: u64,
}

/// Returns the maximum and the median of some numbers, 0 and 0 if there are none.
pub fn max_and_median(numbers: Vec<u64>) -> Result<MaxAndMedian, AllocError>
    ensures maximum { IfOk result (λ found. found.maximum ≡ greatest numbers.items) }
    ensures median { IfOk result (λ found. found.median ≡ median numbers.items) }
{
    let mut numbers = numbers;
    numbers.sort()?;
    let count = numbers.len();
    if count == 0 {
        return Ok(MaxAndMedian {
            maximum: 0,
            median: 0,
        });
    }
    Ok(MaxAndMedian {
        maximum: numbers[count - 1],
        median: numbers[(count - 1) / 2],
    })
}

/// A statistic of a run: how often a session was blocked, or the import or the distance of a query if it committed.
#[derive(Clone, Copy)]
pub enum Column {
    Blocked(usize),
    Import(usize),
    Distance(usize),
}

/// Returns the outcome of a query, by its index among those of the file, if it committed.
fn inconsistency_at(run_summary: &RunSummary, query: usize) -> Option<QueryInconsistency>
    ensures { result ≡ inconsistency_at query run_summary.now }
{
    run_summary.inconsistencies.get(query).copied().flatten()
}

/// Returns the value of a run in a column, if it has one.
fn number_in(run_summary: &RunSummary, column: Column) -> Option<u64>
    ensures { result ≡ number_in column run_summary.now }
{
    match column {
        Column::Blocked(session) => run_summary.blocked_counts.get(session).copied(),
        Column::Import(query) => match inconsistency_at(run_summary, query) {
            Some(inconsistency) => Some(inconsistency.import),
            None => None,
        },
        Column::Distance(query) => match inconsistency_at(run_summary, query) {
            Some(inconsistency) => Some(inconsistency.distance),
            None => None,
        },
    }
}

/// Appends a number, if there is one.
fn push_some(numbers: &mut Vec<u64>, number: Option<u64>) -> Result<(), AllocError>
    ensures { OnOk result (numbers.new.items ≡ numbers.old.items ++ cons_option number []) }
{
    let Some(number) = number else {
        return Ok(());
    };
    numbers.push(number)?;
    Ok(())
}

/// Returns the numbers of a column, of the runs that have one.
pub fn column_values(
    alloc: Global,
    summaries: &[RunSummary],
    column: Column,
) -> Result<Vec<u64>, AllocError>
    ensures { IfOk result (λ numbers. numbers.items ≡ numbers_of column summaries.now) }
{
    let mut numbers = Vec::new(alloc);
    for run_summary in summaries {
        push_some(&mut numbers, number_in(run_summary, column))?;
    }
    Ok(numbers)
}

/// Returns whether a line of the session was given up.
fn has_given_up(run_summary: &RunSummary, session: usize) -> bool
    ensures { result ≡ has_given_up session run_summary.now }
{
    run_summary
        .given_up_counts
        .get(session)
        .copied()
        .unwrap_or(0)
        > 0
}

/// Returns in how many runs a line of the session was given up.
pub fn runs_given_up(summaries: &[RunSummary], session: usize) -> u64
    ensures { result ≡ runs_given_up session summaries.now }
{
    let runs = summaries
        .iter()
        .filter(|run_summary| has_given_up(*run_summary, session));
    runs.count() as u64
}

/// Returns the import or the distance of a query, 0 if it did not commit.
fn amount_of(inconsistency: Option<QueryInconsistency>, measure: Measure) -> u64
    ensures { result ≡ amount_of measure inconsistency }
{
    let Some(inconsistency) = inconsistency else {
        return 0;
    };
    match measure {
        Measure::Import => inconsistency.import,
        Measure::Distance => inconsistency.distance,
        Measure::Blocked => 0,
    }
}

/// Returns the maximum over the queries of a run.
fn greatest(inconsistencies: &[Option<QueryInconsistency>], measure: Measure) -> u64
    ensures { result ≡ greatest (map (amount_of measure) inconsistencies.now) }
{
    let mut greatest = 0u64;
    for inconsistency in inconsistencies {
        greatest = greatest.max(amount_of(*inconsistency, measure));
    }
    greatest
}

/// Returns the sum of some counts, at most the maximum of 64 bits.
fn sum_of(counts: &[u64]) -> u64
    ensures { result ≡ saturated_u64 (sum counts.now) }
{
    let mut sum = 0u64;
    for count in counts {
        sum = sum.saturating_add(*count);
    }
    sum
}

/// Returns the severity of a run by a measure.
fn severity_of(run_summary: &RunSummary, measure: Measure) -> u64
    ensures { result ≡ severity_of measure run_summary.now }
{
    match measure {
        Measure::Blocked => sum_of(&run_summary.blocked_counts),
        Measure::Import | Measure::Distance => greatest(&run_summary.inconsistencies, measure),
    }
}

/// Returns the index of the first run of the greatest severity, or 0 without runs.
pub fn worst_run(summaries: &[RunSummary], measure: Measure) -> u64
    ensures { result ≡ worst_run measure summaries.now }
{
    let mut worst = 0u64;
    let mut greatest_severity = 0u64;
    for i in 0..summaries.len() {
        let severity = severity_of(&summaries[i], measure);
        if severity > greatest_severity {
            greatest_severity = severity;
            worst = i as u64;
        }
    }
    worst
}
