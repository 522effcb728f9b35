//! Residual arcs, the steps of paths: forward or backward over an arc, and their packed form of four bytes, which the
//! adjacency rows of a network store.

ghost use Rattle.std.specs.Prelude.{◌≡◌, ◌<◌};
ghost use Rattle.std.proofs.Common.{ap};
ghost use Rattle.esr_cert.specs.declared.residual.ResidualArc.{ResidualArc};
ghost use Rattle.esr_cert.specs.ResidualArcs.{arc_of, rank_of, opposite};
ghost use Rattle.esr_cert.specs.PackedArcs.{step_of, packed_arc, packed_arc-step_of};

use std::marker::Model;

/// A residual arc, one step of a path: forward over the arc with a number, or backward over it.
#[derive(Clone, Copy)]
pub enum ResidualArc {
    Forward(u32),
    Backward(u32),
}

impl ResidualArc {
    /// Returns the number of the arc that it goes over.
    pub fn arc(self) -> u32
        ensures { result ≡ arc_of self }
    {
        match self {
            ResidualArc::Forward(i) => i,
            ResidualArc::Backward(i) => i,
        }
    }

    /// Returns the rank in the order of residual arcs: by arc, forward before backward.
    pub fn rank(self) -> u64
        ensures { result ≡ rank_of self }
    {
        match self {
            ResidualArc::Forward(i) => 2 * u64::from(i),
            ResidualArc::Backward(i) => 2 * u64::from(i) + 1,
        }
    }

    /// Returns the residual arc in the other direction.
    pub fn opposite(self) -> ResidualArc
        ensures { result ≡ opposite self }
    {
        match self {
            ResidualArc::Forward(i) => ResidualArc::Backward(i),
            ResidualArc::Backward(i) => ResidualArc::Forward(i),
        }
    }
}

/// A residual arc packed into four bytes: the number of its arc, plus 2^31 if it is backward.
#[derive(Clone, Copy, Debug)]
pub struct PackedResidualArc {
    encoded: u32,
}

impl Model for PackedResidualArc {
    ghost Value = { ResidualArc };

    ghost view = { λ s. step_of s.encoded };

    ghost inverse = { λ s. record { encoded = packed_arc s } };

    ghost inverse_ok = { λ a h. ap (λ n. record { encoded = n }) (packed_arc-step_of a.encoded) };
}

impl PackedResidualArc {
    /// Packs a residual arc into four bytes.
    pub fn of(step: ResidualArc) -> PackedResidualArc
        requires { arc_of step < 2147483648 }
        ensures { result ≡ step }
    {
        let encoded = match step {
            ResidualArc::Forward(i) => i,
            ResidualArc::Backward(i) => i + 2_147_483_648,
        };
        PackedResidualArc { encoded }
    }

    /// Unpacks the residual arc.
    pub fn unpack(self) -> ResidualArc
        ensures { result ≡ self }
    {
        if self.encoded < 2_147_483_648 {
            ResidualArc::Forward(self.encoded)
        } else {
            ResidualArc::Backward(self.encoded - 2_147_483_648)
        }
    }
}
