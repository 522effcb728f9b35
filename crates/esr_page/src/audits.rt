//! The audits of the committed queries of a page. Of each, the distance and the error of its sum are stored: so a page
//! needs little more memory than one audit. The findings of the few queries that are described in detail are computed
//! when they are described.

use esr_history::{History, TxnId};
use esr_items::Weighted;
use esr_outcomes::Auditor;
use esr_trace::sum_error;
use std::alloc::{AllocError, Global};

/// The distance of a committed query, and the error of the sum of its reads.
#[derive(Clone, Copy)]
pub struct AuditedDistance {
    pub query: TxnId,
    pub distance: u64,
    pub sum_error: u64,
}

/// The committed updates, and what audits find of the committed queries, in the order of their commits.
#[derive(Drop)]
pub struct Audits<'a> {
    pub auditor: Auditor<'a>,
    pub order: Vec<TxnId>,
    pub found: Vec<AuditedDistance>,
}

/// Returns the sort key of a query in the order by descending distance, then by descending charges.
pub fn rank(distance: u64, charged: u64, query: TxnId) -> (u64, u64, u32) {
    let far = u64::MAX.saturating_sub(distance);
    let dear = u64::MAX.saturating_sub(charged);
    (far, dear, query.0)
}

/// Audits all committed queries of a history.
pub fn audit_all<'a>(
    alloc: Global,
    history: &'a History<Weighted>,
) -> Result<Audits<'a>, AllocError> {
    let auditor = Auditor::of(alloc, history)?;
    let mut order = Vec::new(alloc);
    let mut found = Vec::new(alloc);
    for txn in auditor.commits() {
        match auditor.summary(alloc, *txn)? {
            Some(audit) => found.push(AuditedDistance {
                query: *txn,
                distance: audit.distance,
                sum_error: sum_error(alloc, &auditor, *txn, &audit.before)?,
            })?,
            None => order.push(*txn)?,
        }
    }
    Ok(Audits {
        auditor,
        order,
        found,
    })
}
