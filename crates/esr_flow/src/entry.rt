//! Packs the data that a search needs of a step into four bytes: the node that it leads to, and whether it and its
//! opposite have residual capacity.
//!
//! A search tests each step that it reads, and the backward search tests its opposite, so both flags are stored with
//! the node. With entries of 40 bytes instead of 4, an audit of many updates took half as long again. An entry does not
//! contain its step: the network has the steps in the same order, and a search looks one up only when it visits a node.

use std::marker::Model;

/// The node that a step leads to, and whether the step and its opposite have residual capacity.
#[derive(Clone, Copy)]
pub struct AdjacencyEntry {
    pub to: u32,
    pub has_residual: bool,
    pub opposite_has_residual: bool,
}

/// An entry in four bytes, since a search reads one for each step: four times the node, plus 2 if the opposite has
/// residual capacity, plus 1 if the step has.
#[derive(Clone, Copy)]
pub struct ShortEntry {
    number: u32,
}

impl Model for ShortEntry {
    ghost use Rattle.esr_flow.specs.declared.entry.AdjacencyEntry.{AdjacencyEntry};

    ghost Value = { AdjacencyEntry };

    ghost use Rattle.std.proofs.Common.{ap};
    ghost use Rattle.esr_flow.specs.ShortEntry.{entry_in, packed_entry, packed_entry-entry_in};

    ghost view = { λ e. entry_in e.number };

    ghost inverse = { λ e. record { number = packed_entry e } };

    ghost inverse_ok = { λ a h. ap (λ n. record { number = n }) (packed_entry-entry_in a.number) };
}

impl ShortEntry {
    ghost use Rattle.std.specs.Prelude.{◌≡◌, ◌<◌};

    /// Packs an entry into four bytes.
    pub fn of(entry: AdjacencyEntry) -> ShortEntry
        requires { entry.to < 1073741824 }
        ensures { result ≡ entry }
    {
        let opposite_has_residual = if entry.opposite_has_residual { 2 } else { 0 };
        let has_residual = if entry.has_residual { 1 } else { 0 };
        ShortEntry {
            number: entry.to * 4 + opposite_has_residual + has_residual,
        }
    }

    /// Unpacks the entry.
    pub fn entry(self) -> AdjacencyEntry
        ensures { result ≡ self }
    {
        AdjacencyEntry {
            to: self.number / 4,
            has_residual: self.number % 2 == 1,
            opposite_has_residual: 1 < self.number % 4,
        }
    }
}
