//! The charges between lanes, as a machine that replays the history makes them: those to one query from its trace, those to all
//! queries of a short script from a replay.

use crate::causes::{Causes, ranking};
use crate::lanes::lane_at;
use crate::marks::line_at;
use crate::source::Source;
use esr_history::{Event, TxnId};
use esr_items::Metric;
use esr_report::name_of_transaction;
use esr_timeline_data::{Arrow, ChargeSum, ChargedEvent, Lane, ListedCharge, Relation};
use esr_trace::QueryTrace;
use esr_trace_events::{Change, Charge, Charges};
use std::alloc::{AllocError, Global};

/// A charge of an entry to the query of a lane.
#[derive(Clone, Copy)]
struct LaneCharge {
    to: usize,
    place: usize,
    update: TxnId,
    change: Change,
    amount: u64,
}

/// Returns the kind of an event that was charged.
fn charged_event(event: Event) -> ChargedEvent {
    match event {
        Event::Read { .. } => ChargedEvent::Read,
        _ => ChargedEvent::Write,
    }
}

/// Returns the arrow of a charge.
fn arrow_of<'a>(
    source: Source<'a>,
    causes: &Causes,
    lanes: &[Lane<'a>],
    charge: LaneCharge,
) -> Arrow<'a> {
    let Change { item, old, new } = charge.change;
    let entry = source.history.log().get(charge.place);
    let event = entry.map_or(ChargedEvent::Write, |entry| charged_event(entry.event));
    Arrow {
        update: charge.update,
        from: lane_at(lanes, charge.update),
        to: charge.to,
        place: charge.place,
        line: line_at(source, charge.place),
        item: source.items.name_of(item.0).unwrap_or(""),
        weight: source.history.metric().distance(item, 0, 1),
        amount: charge.amount,
        event,
        old,
        new,
        explained: causes.explained(charge.update, item),
        relation: entry.map_or(Relation::Writer, |entry| {
            causes.relation(charge.update, entry.event)
        }),
        group: causes.group(charge.update, item),
    }
}

/// Returns the charges to the query of a trace, which has the first lane.
pub fn charges_in<'a>(
    alloc: Global,
    source: Source<'a>,
    causes: &Causes,
    lanes: &[Lane<'a>],
    trace: &QueryTrace,
) -> Result<Vec<Arrow<'a>>, AllocError> {
    let mut arrows = Vec::new(alloc);
    for charge in &trace.all_charges {
        let charge = LaneCharge {
            to: 0,
            place: charge.place,
            update: charge.update,
            change: Change {
                item: charge.item,
                old: charge.old,
                new: charge.new,
            },
            amount: charge.amount,
        };
        arrows.push(arrow_of(source, causes, lanes, charge))?;
    }
    Ok(arrows)
}

/// Adds the charges of an entry to the queries that have lanes.
fn push_charges<'a>(
    arrows: &mut Vec<Arrow<'a>>,
    source: Source<'a>,
    causes: &Causes,
    lanes: &[Lane<'a>],
    place: usize,
    charges: &[Charge],
) -> Result<(), AllocError> {
    for charge in charges {
        if let Some(to) = lane_at(lanes, charge.query) {
            let charge = LaneCharge {
                to,
                place,
                update: charge.update,
                change: charge.change,
                amount: charge.amount,
            };
            arrows.push(arrow_of(source, causes, lanes, charge))?;
        }
    }
    Ok(())
}

/// Adds the charges of the entries of a replay.
fn push_all_charges<'a>(
    alloc: Global,
    arrows: &mut Vec<Arrow<'a>>,
    charges: &mut Charges<'_>,
    source: Source<'a>,
    lanes: &[Lane<'a>],
) -> Result<(), AllocError> {
    let causes = Causes::none(alloc);
    for place in 0..source.history.log().len() {
        let charges = charges.step(alloc)?;
        push_charges(arrows, source, &causes, lanes, place, &charges)?;
    }
    Ok(())
}

/// Returns the charges to all queries that have lanes, in the order of their entries. They explain no read.
pub fn charges_to_all<'a>(
    alloc: Global,
    source: Source<'a>,
    lanes: &[Lane<'a>],
) -> Result<Vec<Arrow<'a>>, AllocError> {
    let mut arrows = Vec::new(alloc);
    let mut charges = Charges::new(alloc, source.history)?;
    push_all_charges(alloc, &mut arrows, &mut charges, source, lanes)?;
    Ok(arrows)
}

/// Returns the same charges between other lanes: those to queries that have one of them.
pub fn between<'a>(
    alloc: Global,
    arrows: &[Arrow<'a>],
    before: &[Lane<'a>],
    lanes: &[Lane<'a>],
) -> Result<Vec<Arrow<'a>>, AllocError> {
    let mut moved = Vec::new(alloc);
    for arrow in arrows {
        if let Some(query) = before.get(arrow.to)
            && let Some(to) = lane_at(lanes, query.txn)
        {
            let mut arrow = *arrow;
            arrow.from = lane_at(lanes, arrow.update);
            arrow.to = to;
            moved.push(arrow)?;
        }
    }
    Ok(moved)
}

/// Returns the charges by updates that have lanes.
pub fn drawable<'a>(alloc: Global, arrows: &[Arrow<'a>]) -> Result<Vec<Arrow<'a>>, AllocError> {
    let mut kept = Vec::new(alloc);
    for arrow in arrows {
        if arrow.from.is_some() {
            kept.push(*arrow)?;
        }
    }
    Ok(kept)
}

/// Returns the export of a transaction.
fn export_of(exports: &[u64], txn: TxnId) -> Option<u64> {
    exports.get(txn.0 as usize).copied()
}

/// Returns the lanes. The lane of an update has its export, and the sum of these charges by it.
pub fn with_exports<'a>(
    alloc: Global,
    lanes: &[Lane<'a>],
    arrows: &[Arrow<'a>],
    exports: &[u64],
) -> Result<Vec<Lane<'a>>, AllocError> {
    let mut noted = Vec::with_capacity(alloc, lanes.len())?;
    for (number, lane) in lanes.iter().enumerate() {
        let mut lane = *lane;
        if !lane.is_query() {
            lane.here = lane.sum_of(number, arrows);
            lane.charged = export_of(exports, lane.txn).unwrap_or(lane.here);
        }
        noted.push(lane)?;
    }
    Ok(noted)
}

/// Returns the lanes with the sums of the charges that are drawn.
pub fn with_drawn<'a>(
    alloc: Global,
    lanes: &[Lane<'a>],
    arrows: &[Arrow<'a>],
) -> Result<Vec<Lane<'a>>, AllocError> {
    let mut noted = Vec::with_capacity(alloc, lanes.len())?;
    for (number, lane) in lanes.iter().enumerate() {
        let mut lane = *lane;
        lane.drawn = lane.sum_of(number, arrows);
        noted.push(lane)?;
    }
    Ok(noted)
}

/// Returns the sum of some charges.
pub fn sum_of(arrows: &[Arrow<'_>]) -> u64 {
    let mut sum = 0u64;
    for arrow in arrows {
        sum = sum.saturating_add(arrow.amount);
    }
    sum
}

/// Returns the index of the greatest charge by an update, of equal ones the first.
fn greatest_by(arrows: &[Arrow<'_>], update: TxnId) -> Option<usize> {
    let mut found = None;
    let mut greatest = 0u64;
    for (index, arrow) in arrows.iter().enumerate() {
        if arrow.update == update && arrow.amount > greatest {
            found = Some(index);
            greatest = arrow.amount;
        }
    }
    found
}

/// Adds the index of the greatest charge by each of these updates, unless it is there.
fn push_greatest_by(
    kept: &mut Vec<usize>,
    arrows: &[Arrow<'_>],
    updates: &[TxnId],
) -> Result<(), AllocError> {
    for update in updates {
        if let Some(index) = greatest_by(arrows, *update)
            && !kept.contains(&index)
        {
            kept.push(index)?;
        }
    }
    Ok(())
}

/// Returns the first charges of the ranking, at most `upper_bound`, and the greatest one by each of these updates, in the
/// order of their entries.
pub fn greatest<'a>(
    alloc: Global,
    arrows: &[Arrow<'a>],
    upper_bound: usize,
    updates: &[TxnId],
) -> Result<Vec<Arrow<'a>>, AllocError> {
    let mut kept = ranking(alloc, arrows)?;
    kept.truncate(upper_bound);
    push_greatest_by(&mut kept, arrows, updates)?;
    kept.sort_unstable();
    let mut greatest = Vec::new(alloc);
    for index in &kept {
        if let Some(arrow) = arrows.get(*index) {
            greatest.push(*arrow)?;
        }
    }
    Ok(greatest)
}

/// Returns the sums of the charges to the query of a trace by update, the greatest first.
pub fn charge_sums<'a>(
    alloc: Global,
    source: Source<'a>,
    trace: &QueryTrace,
) -> Result<Vec<ChargeSum<'a>>, AllocError> {
    let mut sums = Vec::new(alloc);
    for sum in &trace.sums_by_update(alloc)? {
        sums.push(ChargeSum {
            update: name_of_transaction(source.transactions, TxnId(sum.number)),
            amount: sum.amount,
        })?;
    }
    Ok(sums)
}

/// Returns whether the charge of an entry is among these charges, which are in the order of their entries.
fn has_charge_of(drawn: &[Arrow<'_>], place: usize) -> bool {
    let index = drawn.partition_point(|arrow| arrow.place < place);
    drawn.get(index).is_some_and(|arrow| arrow.place == place)
}

/// Returns the indices of the charges to a query that are not among the drawn ones, the greatest charge first.
fn undrawn_indices(
    alloc: Global,
    charges: &[Arrow<'_>],
    drawn: &[Arrow<'_>],
) -> Result<Vec<usize>, AllocError> {
    let mut ranks = Vec::new(alloc);
    for (index, charge) in charges.iter().enumerate() {
        if !has_charge_of(drawn, charge.place) {
            ranks.push((u64::MAX.saturating_sub(charge.amount), index))?;
        }
    }
    ranks.sort_unstable();
    ranks.iter().map(|rank| rank.1).collect(alloc)
}

/// Returns the charges to a query that are not among the drawn ones, the greatest first. Both are in the order of their entries.
pub fn undrawn_charges<'a>(
    alloc: Global,
    source: Source<'a>,
    charges: &[Arrow<'a>],
    drawn: &[Arrow<'a>],
) -> Result<Vec<ListedCharge<'a>>, AllocError> {
    let mut undrawn = Vec::new(alloc);
    for index in &undrawn_indices(alloc, charges, drawn)? {
        if let Some(arrow) = charges.get(*index) {
            undrawn.push(ListedCharge {
                update: name_of_transaction(source.transactions, arrow.update),
                arrow: *arrow,
            })?;
        }
    }
    Ok(undrawn)
}
