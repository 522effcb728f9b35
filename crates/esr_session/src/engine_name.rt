//! Names an engine in contracts: a type parameter whose members are the opening values, the numbers of the metric and a
//! `Ledger`.
//!
//! So the type system rejects a session of another engine, and no precondition is needed.
ghost use Rattle.std.specs.Prelude.{◌≡◌, ℕ, ℤ, List, []};
ghost use Rattle.esr_session.specs.declared.engine_name.TheConstants.{LEDGER_PARTS};

use std::marker::{Brand, PhantomData};
use std::sync::ledger::Ledger;

/// The most sessions of an engine.
pub const MAX_SESSIONS: usize = 64;

/// The parts of an engine's ledger: one for each session that there can be, and one for the engine.
pub const LEDGER_PARTS: u64 = MAX_SESSIONS as u64 + 1;

/// Which engine it is: its ledger, its opening values and the numbers of its metric. The call of a function that is
/// generic over it picks them, so two engines never have the same one.
pub trait Naming: Ledger {
    ghost opening: { List ℤ };

    ghost weights: { List ℕ };
}

impl Naming for Brand {
    ghost opening = { [] };

    ghost weights = { [] };
}

/// Keeps in its type how many parts the ledger has.
#[derive(Drop)]
pub(crate) struct Cut<N: Naming> {
    of: PhantomData<N>,
    ghost parts: { N.parts ≡ LEDGER_PARTS },
}

impl<N: Naming> Cut<N> {
    pub(crate) fn new() -> Cut<N>
        requires { N.parts ≡ LEDGER_PARTS }
    {
        Cut { of: PhantomData }
    }

    /// Returns the number of parts, which brings the type's invariant into a proof.
    pub(crate) fn parts(&self) -> u64
        ensures count { result ≡ LEDGER_PARTS }
        ensures parts { N.parts ≡ LEDGER_PARTS }
    {
        let _of = &self.of; // brings the ledger's parts into the proof
        LEDGER_PARTS
    }
}
