//! Texts of outcomes, and lists of names in sentences.

use esr_history::TxnId;
use esr_outcomes::TxnOutcome;
use esr_report::{Names, name_of_transaction};
use esr_text::{push_count, push_number};
use std::alloc::AllocError;

/// The maximum number of names in a list; the number of the others follows.
pub const MAX_NAMES: usize = 3;

/// Returns the text of an outcome.
pub fn outcome_words(outcome: TxnOutcome) -> &'static str {
    match outcome {
        TxnOutcome::Committed => "committed",
        TxnOutcome::Aborted => "aborted",
        TxnOutcome::Active => "still active",
    }
}

/// Appends which command proves that no state is nearer to a query.
pub fn push_certificate(out: &mut String, query: &str) -> Result<(), AllocError> {
    write!(
        out,
        "No allowed set of updates is nearer: the certificate of esr certify {query} proves it."
    )
}

/// Returns the separator before the name at `place`: nothing, a comma or `and`.
fn joint(place: usize, count: usize) -> &'static str {
    if place == 0 {
        ""
    } else if place.saturating_add(1) == count && count <= MAX_NAMES {
        " and "
    } else {
        ", "
    }
}

/// Appends how many are not listed by name, if there are any.
pub fn push_rest(out: &mut String, rest: usize) -> Result<(), AllocError> {
    if rest > 0 {
        out.push_str(" and ")?;
        push_number(out, rest as u64)?;
        out.push_str(" more")?;
    }
    Ok(())
}

/// Appends the names of some updates in their order: all, or the last ones and how many are before them.
pub fn push_names(
    out: &mut String,
    transactions: &Names,
    updates: &[TxnId],
) -> Result<(), AllocError> {
    let earlier = updates.len().saturating_sub(MAX_NAMES);
    let mut place = 0usize;
    for update in updates.get(earlier..).unwrap_or(&[]) {
        out.push_str(joint(place, updates.len()))?;
        out.push_str(name_of_transaction(transactions, *update))?;
        place = place.saturating_add(1);
    }
    if earlier > 0 {
        out.push_str(" and ")?;
        push_count(out, earlier as u64, " earlier update", " earlier updates")?;
    }
    Ok(())
}
