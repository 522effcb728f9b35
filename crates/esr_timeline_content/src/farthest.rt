//! The farthest read of a query, with the charge that explains it best.

use crate::causes::{Causes, ranking};
use crate::source::{PlacedQuery, Source};
use esr_history::{Event, TxnId};
use esr_report::name_of_transaction;
use esr_timeline_data::{Arrow, Farthest, Reason};
use esr_trace::{Audited, ObservedRead, QueryTrace, Reasons};
use std::alloc::{AllocError, Global};

/// Returns the first charge of a group that explains reads in this order.
fn first_of_group<'a>(arrows: &[Arrow<'a>], order: &[usize], group: usize) -> Option<Arrow<'a>> {
    for index in order {
        if let Some(arrow) = arrows.get(*index)
            && arrow.explained > 0
            && arrow.group == group
        {
            return Some(*arrow);
        }
    }
    None
}

/// Returns the first charge of a group that explains reads and came after an entry.
fn first_after<'a>(arrows: &[Arrow<'a>], group: usize, place: usize) -> Option<Arrow<'a>> {
    arrows
        .iter()
        .find(|arrow| arrow.explained > 0 && arrow.group == group && arrow.place > place)
        .copied()
}

/// Returns the charge that explains a read best: of its group the first in the ranking, or if the read came too early the first
/// one after it.
fn best_charge<'a>(
    alloc: Global,
    causes: &Causes,
    observed: &ObservedRead,
    arrows: &[Arrow<'a>],
) -> Result<Option<Arrow<'a>>, AllocError> {
    let group = causes.group_of(observed);
    if causes.late_cause(observed).is_some() {
        return Ok(first_of_group(arrows, &ranking(alloc, arrows)?, group));
    }
    Ok(first_after(arrows, group, observed.place))
}

/// Returns whether a charge is for a read of the query.
fn is_of_read(source: Source<'_>, arrow: &Arrow<'_>) -> bool {
    match source.history.log().get(arrow.place) {
        Some(entry) => matches!(entry.event, Event::Read { .. }),
        None => false,
    }
}

/// Returns the reason that a charge is for a read.
fn reason_of<'a>(source: Source<'a>, arrow: &Arrow<'a>) -> Reason<'a> {
    Reason {
        update: name_of_transaction(source.transactions, arrow.update),
        item: arrow.item,
        step: (arrow.place as u64).saturating_add(1),
        is_read: is_of_read(source, arrow),
    }
}

/// Returns a read of a query with the charge that explains it best.
fn explained<'a>(
    source: Source<'a>,
    query: TxnId,
    causes: &Causes,
    observed: &ObservedRead,
    arrow: Option<Arrow<'a>>,
) -> Farthest<'a> {
    let writer = match (causes.late_cause(observed), observed.writer) {
        (Some(_), Some(writer)) => name_of_transaction(source.transactions, writer),
        _ => "",
    };
    Farthest {
        query: name_of_transaction(source.transactions, query),
        item: source.items.name_of(observed.item.0).unwrap_or(""),
        step: (observed.place as u64).saturating_add(1),
        writer,
        reason: match arrow {
            Some(arrow) => Some(reason_of(source, &arrow)),
            None => None,
        },
    }
}

/// Returns the farthest read of a query with these charges, if a read is off.
pub fn farthest_read<'a>(
    alloc: Global,
    source: Source<'a>,
    query: TxnId,
    causes: &Causes,
    trace: &QueryTrace,
    arrows: &[Arrow<'a>],
) -> Result<Option<Farthest<'a>>, AllocError> {
    match causes.farthest(source, trace) {
        Some(observed) => {
            let arrow = best_charge(alloc, causes, &observed, arrows)?;
            Ok(Some(explained(source, query, causes, &observed, arrow)))
        }
        None => Ok(None),
    }
}

/// Returns why the cause of the farthest read is before the nearest placement of a query or not, or nothing if no read is off.
pub fn reason_of_farthest(
    alloc: Global,
    source: Source<'_>,
    placed: &PlacedQuery<'_>,
    trace: &QueryTrace,
) -> Result<String, AllocError> {
    let mut words = String::new(alloc);
    let audited = Audited {
        items: source.items,
        transactions: source.transactions,
        history: source.history,
        finding: placed.finding,
    };
    let reasons = Reasons::of(alloc, &audited, &placed.placement, trace, 1)?;
    if let Some(reason) = reasons.reasons.first() {
        reason.push(&mut words, &audited)?;
    }
    Ok(words)
}
