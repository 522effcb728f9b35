//! The residual arcs of the flow that is proposed for the versions (`amounts`), in the reversed network.
use crate::amounts::ProposedAmounts;
use crate::query::AuditedQuery;
use esr_items::Metric;

/// A residual arc into an update, with the id of a version or the index of a read.
#[derive(Clone, Copy, PartialEq, Eq)]
pub enum ResidualArc {
    /// The amount of this version, which the update overwrites, can decrease.
    Decrease(u32),
    /// The amount of a version that the update writes can increase. This version overwrites it.
    Increase(u32),
    /// The raise by this read of the update can increase.
    Raise(u32),
    /// The raise by this read of a version that the update writes can decrease.
    Lower(u32),
    /// The loan of this read, of a version that the update overwrites, can increase.
    Borrow(u32),
    /// The loan of this read of the update can decrease.
    Repay(u32),
}

impl ResidualArc {
    /// Returns the residual capacity of the arc.
    pub fn capacity<M: Metric>(self, query: &AuditedQuery<M>, amounts: &ProposedAmounts) -> u64 {
        match self {
            ResidualArc::Decrease(id) => amounts.amount(id).value(),
            ResidualArc::Increase(id) => amounts.overwritten_residual(query, id),
            ResidualArc::Raise(_) | ResidualArc::Borrow(_) => u64::MAX,
            ResidualArc::Lower(r) => amounts.reads.get(r).map_or(0, |read| read.raise),
            ResidualArc::Repay(r) => amounts.reads.get(r).map_or(0, |read| read.loan),
        }
    }

    /// Moves an amount along the arc into `update`. `capacity` is the residual capacity of the arc.
    pub fn augment(self, amounts: &mut ProposedAmounts, update: u16, amount: u64, capacity: u64) {
        match self {
            ResidualArc::Decrease(id) => amounts.decrease(id, amount, update),
            ResidualArc::Increase(id) => {
                amounts.increase_overwritten(id, amount, amount < capacity);
            }
            ResidualArc::Raise(r) => amounts.reads.add_raise(r, amount),
            ResidualArc::Lower(r) => amounts.reads.subtract_raise(r, amount),
            ResidualArc::Borrow(r) => amounts.borrow(r, amount),
            ResidualArc::Repay(r) => amounts.reads.subtract_loan(r, amount),
        }
    }
}
