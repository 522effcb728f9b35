//! Defines certificates, and their faults in the order in which they are checked.
//!
//! A certificate may contain the number of augmentations that led to its flow. A count above nodes times arcs is
//! refused, as the last of all faults, since it does not affect minimality. A smaller count cannot be verified, so a
//! bundle for a third party should omit it.

ghost use Rattle.std.specs.Prelude.{◌≡◌};
ghost use Rattle.esr_cert.specs.Faults.{fault_number};

use thiserror::Error;

/// A set of updates and a flow that show the least cost of a problem.
#[derive(Drop)]
pub struct Certificate {
    /// The positions of the set's updates, ascending.
    pub set: Vec<u32>,
    /// For each chain the amounts on its arcs.
    pub chain_flow: Vec<Vec<u64>>,
    /// For each pair (u, v) the amount on the arc from v back to u.
    pub back_flow: Vec<u64>,
    /// For each update that a set must hold the amount on the arc from the source.
    pub must_flow: Vec<u64>,
    /// The value of the flow, which is the cost of the set.
    pub worth: u64,
    /// How many augmentations led to the flow, if known.
    pub augmentations: Option<u64>,
}

/// Why a certificate is refused: the first that applies.
#[derive(Clone, Copy, Debug, PartialEq, Eq, Error)]
pub enum Fault {
    /// The set is not strictly ascending.
    #[error("set not ascending")]
    SetNotAscending = 1,
    /// The set contains a position without an update.
    #[error("unknown update in the set")]
    UnknownUpdate = 2,
    /// The set lacks a predecessor of one of its updates, or an update that it must contain.
    #[error("set not closed")]
    SetNotClosed = 3,
    /// A list of amounts has not one for each arc, or an amount is above its arc's capacity.
    #[error("amount above its capacity")]
    OverCapacity = 4,
    /// At an update the amounts in differ from the amounts out.
    #[error("flow not conserved")]
    NotConserved = 5,
    /// The worth is not the flow's, or not the set's cost.
    #[error("the flow's value is not the set's cost")]
    WorthNotCost = 6,
    /// The count of augmentations is above nodes times arcs.
    #[error("too many augmentations")]
    TooManyAugmentations = 7,
}

impl Fault {
    /// Returns the number of the fault.
    pub fn number(self) -> u8
        ensures { result ≡ fault_number self }
    {
        self as u8
    }
}
