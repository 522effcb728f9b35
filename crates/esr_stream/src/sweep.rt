//! Proposes amounts: sweeps over the updates in reverse order, and stores the amounts (`amounts`).
use crate::amounts::{ProposedAmounts, to_u16_or_nobody};
use crate::query::AuditedQuery;
use crate::search::SearchState;
use esr_items::Metric;
use std::alloc::{AllocError, Global};

/// Distributes the amounts of the updates from the last one back to the position `first`.
fn sweep<M: Metric>(
    alloc: Global,
    query: &AuditedQuery<M>,
    first: usize,
    amounts: &mut ProposedAmounts,
) -> Result<(), AllocError> {
    let mut searches = SearchState::new(alloc, query.update_count())?;
    let mut buffer = Vec::new(alloc);
    for i in (first..query.update_count()).rev() {
        let update = to_u16_or_nobody(i);
        let excess = amounts.distribute(query, update);
        if 0 < excess {
            amounts.list_reads(alloc, query, &mut buffer)?;
            searches.route_excess(query, amounts, update, excess)?;
        }
    }
    Ok(())
}

/// Returns proposed amounts: for the opening values by item, then for each access of the updates in commit order. The sweep
/// goes back to the position `first`.
///
/// # Errors
///
/// An allocation failed.
pub fn propose_amounts<'a, M: Metric>(
    alloc: Global,
    query: &AuditedQuery<'a, M>,
    first: usize,
) -> Result<ProposedAmounts<'a>, AllocError> {
    let mut amounts = ProposedAmounts::of(alloc, query)?;
    sweep(alloc, query, first, &mut amounts)?;
    amounts.store_reads();
    Ok(amounts)
}
