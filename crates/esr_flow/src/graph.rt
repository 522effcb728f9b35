//! A problem's network, the steps that start at each node, and for each step an adjacency entry: where it leads, and
//! whether it and its opposite have residual capacity.
//!
//! The amounts are in a list by arcs, to which the laws refer; only augmentations change it. If an augmentation changes
//! which of an arc's two steps have residual capacity, the entries of both are rewritten. They have the same indices as
//! the steps, in rows that ascend by arcs, so that a binary search finds them.
ghost use Rattle.std.specs.Prelude.{◌≡◌, ◌+◌, ◌<◌, length, get_or, set, Some};
ghost use Rattle.esr_cert.specs.Flow.{within};
ghost use Rattle.esr_cert.specs.Network.{network};
ghost use Rattle.esr_flow.specs.Residual.{left_of, residual_capacity, finish};
ghost use Rattle.esr_cert.specs.ResidualArcs.{arc_of};
ghost use Rattle.esr_cert.specs.Adjacency.{span_at};
ghost use Rattle.esr_flow.specs.Graphs.{IsGraphOf};

use crate::entry::{AdjacencyEntry, ShortEntry};
use esr_cert::{Adjacency, Arc, PackedResidualArc, Problem, ResidualArc};
use std::alloc::{AllocError, Global};

/// The network of a problem, and for each node the steps that start at it.
#[derive(Drop)]
pub struct ResidualGraph<'a> {
    pub problem: &'a Problem,
    pub adjacency: &'a Adjacency,
    pub node_count: usize,
    pub source: usize,
    pub sink: usize,
    ghost kept: { IsGraphOf problem.now adjacency.now node_count source sink },
}

impl<'a> ResidualGraph<'a> {
    ghost use Rattle.std.specs.Prelude.{◌≡◌, ◌<◌, length, set, IfOk};
    ghost use Rattle.esr_cert.specs.ResidualArcs.{arc_of, step_at};
    ghost use Rattle.esr_cert.specs.Adjacency.{span_at, row_in};
    ghost use Rattle.esr_flow.specs.ResidualGraph.{AreEntries, network_arcs};

    /// Returns the steps that start at a node.
    pub fn steps_at(&self, v: usize) -> &[PackedResidualArc]
        requires node { v < self.now.node_count }
        ensures { result.now ≡ row_in self.now.adjacency.now.steps.items (span_at self.now.adjacency.now.spans.items v) }
    {
        self.adjacency.row(&self.adjacency.steps, v)
    }

    /// Returns the entries of a node.
    pub fn row<'b>(&self, entries: &'b [ShortEntry], v: usize) -> &'b [ShortEntry]
        requires entries { length entries.now ≡ length self.now.adjacency.now.steps.items }
        requires node { v < self.now.node_count }
        ensures { result.now ≡ row_in entries.now (span_at self.now.adjacency.now.spans.items v) }
    {
        self.adjacency.row(entries, v)
    }

    /// Returns the entries of all steps, with the residual capacities of a flow. They are put into their rows arc by
    /// arc, like the steps, since the arcs of a chain are consecutive.
    pub fn entries(&self, alloc: Global, flow: &[u64]) -> Result<Vec<ShortEntry>, AllocError>
        requires flow { length flow.now ≡ length (network_arcs self.now) }
        ensures { IfOk result (λ entries. AreEntries self.now flow.now entries.items) }
    {
        let none = ShortEntry::of(AdjacencyEntry {
            to: 0,
            has_residual: false,
            opposite_has_residual: false,
        });
        let mut entries = vec![in alloc; none; self.adjacency.steps.len()]?;
        let mut counts = vec![in alloc; 0usize; self.node_count]?;
        for i in 0..flow.len() {
            let arc = self.problem.arc(i as u32);
            let (along, against) = entries_of(arc, flow[i]);
            put_next(self.adjacency, &mut counts, &mut entries, arc.from, along);
            put_next(self.adjacency, &mut counts, &mut entries, arc.to, against);
        }
        Ok(entries)
    }

    /// Returns the index of a step's entry.
    fn place_of(&self, step: ResidualArc) -> usize
        requires arc { arc_of step < length (network_arcs self.now) }
        ensures inside { result < length self.now.adjacency.now.steps.items }
        ensures place { step_at self.now.adjacency.now.steps.items result ≡ step }
    {
        let node = finish_of(self.problem, step.opposite());
        self.adjacency.place_of(node as usize, step)
    }

    /// Sets the amount on an arc. Rewrites the entries of its two steps if this changes which of them have residual
    /// capacity.
    pub fn set_amount(&self, flow: &mut [u64], entries: &mut [ShortEntry], arc: u32, amount: u64)
        requires arc { arc < length (network_arcs self.now) }
        requires flow { length flow.old ≡ length (network_arcs self.now) }
        requires entries { AreEntries self.now flow.old entries.old }
        ensures flow { flow.new ≡ set flow.old arc amount }
        ensures entries { AreEntries self.now flow.new entries.new }
    {
        let ends = self.problem.arc(arc);
        let (has_residual, opposite_has_residual) = have_capacity(
            ends.capacity,
            flow[arc as usize],
        );
        let (ahead_now, back_now) = have_capacity(ends.capacity, amount);
        flow[arc as usize] = amount;
        if ahead_now == has_residual && back_now == opposite_has_residual {
            return;
        }
        let (along, against) = entries_of(ends, amount);
        let place = self.place_of(ResidualArc::Forward(arc));
        entries[place] = along;
        let place = self.place_of(ResidualArc::Backward(arc));
        entries[place] = against;
    }
}

/// Returns whether the forward step and the backward step over an arc with this capacity have residual capacity if the
/// arc carries this amount.
pub fn have_capacity(capacity: Option<u64>, amount: u64) -> (bool, bool)
    ensures has_residual { result.0 ≡ within 1 (left_of capacity amount) }
    ensures opposite_has_residual { result.1 ≡ within 1 (Some amount) }
{
    let has_residual = match capacity {
        None => true,
        Some(limit) => amount < limit,
    };
    (has_residual, 1 <= amount)
}

/// Returns the residual capacity of a step, or `None` if it is unlimited.
pub fn residual_capacity_of(problem: &Problem, flow: &[u64], step: ResidualArc) -> Option<u64>
    requires arc { arc_of step < length (network problem.now).arcs }
    requires flow { length flow.now ≡ length (network problem.now).arcs }
    ensures { result ≡ residual_capacity (network problem.now).arcs flow.now step }
{
    match step {
        ResidualArc::Forward(i) => match problem.arc(i).capacity {
            None => None,
            Some(limit) => Some(limit.saturating_sub(flow[i as usize])),
        },
        ResidualArc::Backward(i) => Some(flow[i as usize]),
    }
}

/// Returns the entries of the two steps of an arc that carries this amount.
fn entries_of(arc: Arc, amount: u64) -> (ShortEntry, ShortEntry)
    requires node_numbers_fit { (arc.from < 1073741824) × (arc.to < 1073741824) }
    ensures along { result.0 ≡ record {
      to = arc.to;
      has_residual = within 1 (left_of arc.capacity amount);
      opposite_has_residual = within 1 (Some amount);
    } }
    ensures against { result.1 ≡ record {
      to = arc.from;
      has_residual = within 1 (Some amount);
      opposite_has_residual = within 1 (left_of arc.capacity amount);
    } }
{
    let (along, against) = have_capacity(arc.capacity, amount);
    let has_residual = ShortEntry::of(AdjacencyEntry {
        to: arc.to,
        has_residual: along,
        opposite_has_residual: against,
    });
    let opposite_has_residual = ShortEntry::of(AdjacencyEntry {
        to: arc.from,
        has_residual: against,
        opposite_has_residual: along,
    });
    (has_residual, opposite_has_residual)
}

/// Puts an entry at the next free index of a node's row, after the `counts[node]` entries that it has.
fn put_next(
    adjacency: &Adjacency,
    counts: &mut Vec<usize>,
    entries: &mut Vec<ShortEntry>,
    node: u32,
    entry: ShortEntry,
)
    requires span { node < length adjacency.now.spans.items }
    requires count { node < length counts.old.items }
    requires count_within_max { get_or counts.old.items node 0 < 4294967296 }
    requires place { (span_at adjacency.now.spans.items node).begin + get_or counts.old.items node 0
        < length entries.old.items }
    ensures counts { counts.new.items ≡ set counts.old.items node (get_or counts.old.items node 0 + 1) }
    ensures entries { entries.new.items
        ≡ set entries.old.items ((span_at adjacency.now.spans.items node).begin + get_or counts.old.items node 0) entry }
{
    let node = node as usize;
    let count = counts[node];
    entries[adjacency.spans[node].begin as usize + count] = entry;
    counts[node] = count + 1;
}

/// Returns the node that a step leads to.
pub fn finish_of(problem: &Problem, step: ResidualArc) -> u32
    requires { arc_of step < length (network problem.now).arcs }
    ensures { result ≡ finish (network problem.now).arcs step }
{
    match step {
        ResidualArc::Forward(i) => problem.arc(i).to,
        ResidualArc::Backward(i) => problem.arc(i).from,
    }
}
