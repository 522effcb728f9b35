//! The results and errors of audits. A certificate refers to an update by its index in the problem, a finding by its
//! transaction number.

ghost use Rattle.std.specs.Prelude.{◌≡◌};
ghost use Rattle.esr_audit.specs.declared.finding.AuditError.TheVariants.{NoMemory};
ghost use Rattle.esr_audit.specs.Findings.{audit_error_of};

use crate::ranges::TxnList;
use esr_cert::{Certificate, Problem};
use esr_history::{NoMemory, TxnId};
use esr_order::OrderError;
use thiserror::Error;

/// The result of the audit of a committed query, also if its distance is 0.
///
/// A placement of the query is a serialization order of the updates that committed before it, and a position in that order.
/// The distance of a placement is the sum, over the query's reads, of the absolute difference between the value read and the
/// value at that position, times the weight of the item. A strict query is placed after all updates that committed before it
/// began.
#[derive(Drop)]
pub struct Finding {
    pub query: TxnId,
    /// The least distance of all placements.
    pub distance: u64,
    /// The amount charged to the query, which is at least the distance.
    pub import: u64,
    /// The updates ahead of the query in the nearest placement, in commit order: of the placements with the least distance, the
    /// one with the fewest.
    pub before: Vec<TxnId>,
    /// The closure problem. The least cost of its closed sets is the distance.
    pub problem: Problem,
    /// A closed set and a flow whose value is the cost of the set, so that no closed set costs less.
    pub certificate: Certificate,
}

/// The summary of the audit of a committed query: a finding without its problem and its certificate, which take the most
/// memory, and with its updates in compressed form. The history determines all fields.
#[derive(Drop)]
pub struct Summary {
    pub query: TxnId,
    /// The least distance of all placements.
    pub distance: u64,
    /// The amount charged to the query, which is at least the distance.
    pub import: u64,
    /// The updates ahead of the query in the nearest placement, in commit order: of the placements with the least distance, the
    /// one with the fewest.
    pub before: TxnList,
}

/// The result of the audit of a whole history.
#[derive(Drop)]
pub struct Book {
    /// The committed updates in commit order, which is a serialization order.
    pub order: Vec<TxnId>,
    /// The finding of each committed query, in commit order.
    pub findings: Vec<Finding>,
}

/// The result of the audit of a whole history, with summaries in place of findings.
#[derive(Drop)]
pub struct Summaries {
    /// The committed updates in commit order, which is a serialization order.
    pub order: Vec<TxnId>,
    /// The summary of each committed query, in commit order.
    pub summaries: Vec<Summary>,
}

/// The reasons for a failed audit.
#[derive(Clone, Copy, PartialEq, Eq, Debug, Error)]
pub enum AuditError {
    /// The transaction is not a query, or has not committed.
    #[error("not a committed query")]
    NotACommittedQuery = 1,
    /// An allocation failed.
    #[error("out of memory")]
    NoMemory = 2,
    /// The number of worker threads is not from 1 to 64.
    #[error("workers out of range")]
    WorkersOutOfRange = 3,
}

impl From<NoMemory> for AuditError {
    ghost from_gives = { λ _ e. e ≡ NoMemory };

    fn from(_: NoMemory) -> AuditError {
        AuditError::NoMemory
    }
}

impl From<OrderError> for AuditError {
    ghost from_gives = { λ why e. e ≡ audit_error_of why };

    fn from(why: OrderError) -> AuditError {
        match why {
            OrderError::NotACommittedQuery => AuditError::NotACommittedQuery,
            OrderError::NoMemory => AuditError::NoMemory,
        }
    }
}
