//! The updates on one side of the nearest placement by name: those that are in it, or those that are not, whichever are fewer.

use crate::source::{PlacedQuery, Source};
use esr_history::TxnId;
use esr_report::name_of_transaction;
use esr_text::first;
use esr_wording::push_rest;
use std::alloc::{AllocError, Global};

/// The maximum number of names in a sentence.
const MAX_NAMES: usize = 6;

/// The updates that committed before a query, in the order of their commits.
#[derive(Drop)]
struct Sides {
    /// Those in the nearest placement.
    before: Vec<TxnId>,
    /// Those not in it.
    after: Vec<TxnId>,
    /// Those not in it whose place has no effect on the items that the query read.
    irrelevant: Vec<TxnId>,
}

impl Sides {
    /// Returns the updates that committed before the query, by their side of its nearest placement.
    fn of(
        alloc: Global,
        source: Source<'_>,
        placed: &PlacedQuery<'_>,
    ) -> Result<Sides, AllocError> {
        let mut sides = Sides {
            before: Vec::new(alloc),
            after: Vec::new(alloc),
            irrelevant: Vec::new(alloc),
        };
        let relevant = placed.finding.problem.updates();
        let mut next = 0usize;
        for txn in source.auditor.commits() {
            if *txn == placed.finding.query {
                break;
            }
            let is_relevant = relevant.get(next) == Some(txn);
            if is_relevant {
                next = next.saturating_add(1);
            }
            if source.history.facts(*txn).is_some_and(|facts| facts.query) {
                continue;
            }
            match (placed.placement.has_before(*txn), is_relevant) {
                (true, _) => sides.before.push(*txn)?,
                (false, true) => sides.after.push(*txn)?,
                (false, false) => sides.irrelevant.push(*txn)?,
            }
        }
        Ok(sides)
    }
}

/// Appends a sentence with the names of some updates, and the number of the others, or nothing if there are none.
fn push_sentence(
    out: &mut String,
    source: Source<'_>,
    start: &str,
    updates: &[TxnId],
) -> Result<(), AllocError> {
    if updates.is_empty() {
        return Ok(());
    }
    out.push_str(if out.is_empty() { "" } else { " " })?;
    out.push_str(start)?;
    let mut joint = "";
    for update in first(updates, MAX_NAMES) {
        out.push_str(joint)?;
        out.push_str(name_of_transaction(source.transactions, *update))?;
        joint = ", ";
    }
    push_rest(out, updates.len().saturating_sub(MAX_NAMES))?;
    out.push('.')
}

/// Returns a sentence with the updates that are in the nearest placement, or sentences with those that are not if these are fewer,
/// in the order of their commits, or nothing if all updates are on one side, or only one is in it, which the sentence above names.
pub fn sides_of(
    alloc: Global,
    source: Source<'_>,
    placed: &PlacedQuery<'_>,
) -> Result<String, AllocError> {
    let mut words = String::new(alloc);
    let sides = Sides::of(alloc, source, placed)?;
    let not_before = sides.after.len().saturating_add(sides.irrelevant.len());
    if sides.before.len() < 2 || not_before == 0 {
        return Ok(words);
    }
    if sides.before.len() <= not_before {
        push_sentence(&mut words, source, "In it: ", &sides.before)?;
    } else {
        push_sentence(&mut words, source, "Not in it: ", &sides.after)?;
        push_sentence(
            &mut words,
            source,
            "Without effect on these reads: ",
            &sides.irrelevant,
        )?;
    }
    Ok(words)
}
