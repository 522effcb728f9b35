//! The input of a timeline: a script that has been run, and its audits.
//!
//! The audit of the query that a timeline is about is computed once. All parts of the timeline read it here. Rejected: each part
//! asks the auditor, which audits the query again each time.

use esr_audit::Finding;
use esr_history::{History, TxnId};
use esr_items::Weighted;
use esr_outcomes::Auditor;
use esr_report::Names;
use esr_trace::NearestPlacement;
use std::alloc::{AllocError, Global};

/// A script that has been run.
#[derive(Clone, Copy)]
pub struct Source<'a> {
    /// The names of the items, in the order of their numbers, from 0.
    pub items: &'a Names,
    /// The names of the transactions, in the order of their numbers, from 1.
    pub transactions: &'a Names,
    pub history: &'a History<Weighted>,
    /// The auditor of the history.
    pub auditor: &'a Auditor<'a>,
    /// The line of each entry of the history, from 1.
    pub lines: &'a [u32],
    /// The query that the timeline is about, or that is farthest off, if it has committed.
    pub placed: Option<&'a PlacedQuery<'a>>,
}

/// A committed query with its nearest placement.
#[derive(Drop)]
pub struct PlacedQuery<'a> {
    pub finding: &'a Finding,
    pub placement: NearestPlacement,
}

impl<'a> PlacedQuery<'a> {
    /// Returns the query of a finding.
    pub fn of(
        alloc: Global,
        history: &History<Weighted>,
        finding: &'a Finding,
    ) -> Result<PlacedQuery<'a>, AllocError> {
        Ok(PlacedQuery {
            finding,
            placement: NearestPlacement::after(alloc, history, &finding.before)?,
        })
    }
}

impl<'a> Source<'a> {
    /// Returns the placed query, if it is this one.
    pub fn placed_as(self, query: TxnId) -> Option<&'a PlacedQuery<'a>> {
        self.placed.filter(|placed| placed.finding.query == query)
    }

    /// Returns the distance of a query, if it has committed.
    pub fn distance(self, alloc: Global, query: TxnId) -> Result<Option<u64>, AllocError> {
        match self.placed_as(query) {
            Some(placed) => Ok(Some(placed.finding.distance)),
            None => self.auditor.distance(alloc, query),
        }
    }

    /// Returns the nearest placement of a query, or one without items if it has not committed.
    pub fn placement(self, alloc: Global, query: TxnId) -> Result<NearestPlacement, AllocError> {
        if let Some(placed) = self.placed_as(query) {
            return placed.placement.copy(alloc);
        }
        match self.auditor.summary(alloc, query)? {
            Some(audit) => NearestPlacement::after(alloc, self.history, &audit.before),
            None => Ok(NearestPlacement::none(alloc)),
        }
    }
}
