//! Describes the charges of a query in sentences: the amount, the line and the cause of each, and the sums by item and
//! by update.

use crate::prose::{Block, MAX_POINTS, add_paragraph, add_point};
use crate::subject::Subject;
use esr_history::{MAX_LIMIT, TxnId};
use esr_items::ItemId;
use esr_text::{first, push_count, push_number, push_value};
use esr_trace::{Cause, ChargeGroup, QueryTrace};
use esr_wording::{MAX_NAMES, push_rest};
use std::alloc::{AllocError, Global};

/// Appends the values before and after an update's change.
fn push_change(out: &mut String, charge: &ChargeGroup) -> Result<(), AllocError> {
    out.push_str(" from ")?;
    push_value(out, charge.old)?;
    out.push_str(" to ")?;
    push_value(out, charge.new)
}

/// Why a charge was made.
fn push_cause(
    out: &mut String,
    subject: &Subject<'_>,
    charge: &ChargeGroup,
) -> Result<(), AllocError> {
    let query = subject.name(subject.query);
    let update = subject.name(charge.update);
    let item = subject.item(charge.item);
    match charge.cause {
        Cause::Read => {
            write!(out, ": {query} read {item}, which {update} had changed")?;
            push_change(out, charge)?;
            out.push_str(" and not committed")
        }
        Cause::Write { reads } => {
            write!(out, ": {update} changed {item}")?;
            push_change(out, charge)?;
            write!(out, ", and {query} had read it")?;
            if reads > 1 {
                out.push(' ')?;
                push_number(out, reads)?;
                out.push_str(" times")?;
            }
            Ok(())
        }
    }
}

/// Appends the number of later lines with the same charge.
fn push_later_lines(out: &mut String, count: u64) -> Result<(), AllocError> {
    let later = count.saturating_sub(1);
    if later == 0 {
        return Ok(());
    }
    out.push_str(" and ")?;
    push_count(out, later, " later one", " later ones")
}

/// Appends the weight of an item, unless it is 1.
fn push_weight(out: &mut String, subject: &Subject<'_>, item: ItemId) -> Result<(), AllocError> {
    let weight = subject.weight(item);
    if weight < 2 {
        return Ok(());
    }
    out.push_str("; a difference of ")?;
    out.push_str(subject.item(item))?;
    out.push_str(" counts ")?;
    push_number(out, weight)?;
    out.push_str(" times")
}

/// A charge.
fn push_charge(
    out: &mut String,
    subject: &Subject<'_>,
    charge: &ChargeGroup,
) -> Result<(), AllocError> {
    push_number(out, charge.amount)?;
    out.push_str(" in ")?;
    subject.push_line(out, charge.place)?;
    push_later_lines(out, charge.count)?;
    push_cause(out, subject, charge)?;
    push_weight(out, subject, charge.item)
}

/// Appends the total charge and the limit, and whether a list of charges follows.
fn push_intro(
    out: &mut String,
    subject: &Subject<'_>,
    has_charges: bool,
) -> Result<(), AllocError> {
    let import = subject.history.import(subject.query);
    let limit = match subject.history.facts(subject.query) {
        Some(facts) => facts.limit,
        None => 0,
    };
    out.push_str("It was charged ")?;
    if import == 0 {
        out.push_str("nothing")?;
    } else {
        push_number(out, import)?;
    }
    if limit < MAX_LIMIT {
        out.push_str(" of its limit of ")?;
        push_number(out, limit)?;
    } else {
        out.push_str(" of the largest limit")?;
    }
    out.push_str(if has_charges { ":" } else { "." })
}

/// Appends the number and the sum of the charges that are not listed.
fn push_more_charges(
    alloc: Global,
    blocks: &mut Vec<Block>,
    trace: &QueryTrace,
) -> Result<(), AllocError> {
    let mut more = trace.all_charges.len() as u64;
    let mut sum = trace.charge_sum();
    for charge in &trace.charges {
        more = more.saturating_sub(charge.count);
        sum = sum.saturating_sub(charge.amount);
    }
    if more == 0 {
        return Ok(());
    }
    let out = add_point(alloc, blocks)?;
    push_number(out, sum)?;
    out.push_str(" by ")?;
    push_count(out, more, " more charge", " more charges")
}

/// A name with a sum, in a row of such.
fn push_sum(out: &mut String, joint: &str, name: &str, amount: u64) -> Result<(), AllocError> {
    out.push_str(joint)?;
    out.push_str(name)?;
    out.push(' ')?;
    push_number(out, amount)
}

/// The grouping of charges.
#[derive(Clone, Copy)]
enum By {
    Item,
    Update,
}

/// Sums of charges, most first, each with its name.
fn push_sums_by(
    alloc: Global,
    out: &mut String,
    subject: &Subject<'_>,
    trace: &QueryTrace,
    by: By,
) -> Result<(), AllocError> {
    let sums = match by {
        By::Item => trace.sums_by_item(alloc)?,
        By::Update => trace.sums_by_update(alloc)?,
    };
    let mut joint = " ";
    for sum in first(&sums, MAX_NAMES) {
        let name = match by {
            By::Item => subject.item(ItemId(sum.number)),
            By::Update => subject.name(TxnId(sum.number)),
        };
        push_sum(out, joint, name, sum.amount)?;
        joint = ", ";
    }
    push_rest(out, sums.len().saturating_sub(MAX_NAMES))
}

/// The sums by item and by update.
fn push_sums(
    alloc: Global,
    out: &mut String,
    subject: &Subject<'_>,
    trace: &QueryTrace,
) -> Result<(), AllocError> {
    out.push_str("By item:")?;
    push_sums_by(alloc, out, subject, trace, By::Item)?;
    out.push_str(". By update:")?;
    push_sums_by(alloc, out, subject, trace, By::Update)?;
    out.push('.')
}

/// The charges one by one, and their sums.
fn push_each(
    alloc: Global,
    blocks: &mut Vec<Block>,
    subject: &Subject<'_>,
    trace: &QueryTrace,
) -> Result<(), AllocError> {
    for charge in first(&trace.charges, MAX_POINTS) {
        push_charge(add_point(alloc, blocks)?, subject, charge)?;
    }
    push_more_charges(alloc, blocks, trace)?;
    if trace.all_charges.len() < 2 {
        return Ok(());
    }
    push_sums(alloc, add_paragraph(alloc, blocks)?, subject, trace)
}

/// Appends the charges of the query.
pub fn push_charges(
    alloc: Global,
    blocks: &mut Vec<Block>,
    subject: &Subject<'_>,
    trace: &QueryTrace,
) -> Result<(), AllocError> {
    let has_charges = !trace.charges.is_empty();
    push_intro(add_paragraph(alloc, blocks)?, subject, has_charges)?;
    if has_charges {
        push_each(alloc, blocks, subject, trace)
    } else {
        Ok(())
    }
}
