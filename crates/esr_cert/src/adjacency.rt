//! Lays out the steps that start at each node, in consecutive rows.
//!
//! A first pass counts the steps of each node, and a second one puts each into its row, so nothing is sorted, and each
//! row ascends by arc number. The check and the solver share these rows. Before, each had its own: 17 MB in addition to
//! 19 in the largest audits.
//!
//! Only clauses read `_arcs`, `_nodes` and `_begin`. They are not ghost values, since a ghost value is inferred from
//! the other arguments of a call, which do not determine the arcs.
ghost use Rattle.std.specs.Prelude.{◌≡◌, ◌+◌, ◌<◌, ◌≤◌, length, set, sum, Contains, IfOk};
ghost use Rattle.std.specs.List.Sorted.{IsNonDecreasingBy};
ghost use Rattle.esr_cert.specs.ResidualArcs.{arc_of, rank_of, step_at};
ghost use Rattle.esr_cert.specs.Adjacency.{row_in, span_at, lengthen, residual_arcs_below, AreDegrees, AreBegun, AreRows, AreSteps, Counted, IsAdjacencyUpTo};
ghost use Rattle.esr_cert.specs.Network.{EndsAreNodes};
ghost use Rattle.esr_cert.specs.ChainArcs.{HasChainArcs};
ghost use Rattle.esr_base.specs.declared.limits.TheConstants.{MAX_TRANSACTIONS};
ghost use Rattle.esr_cert.specs.declared.adjacency.TheConstants.{MAX_ARCS};

use crate::arcs::{Arcs, arc_head, arc_tail};
use crate::problem::Chain;
use crate::residual::{PackedResidualArc, ResidualArc};
use std::alloc::{AllocError, Global};

/// The bounds of a node's row.
#[derive(Clone, Copy, Debug)]
pub struct Span {
    pub begin: u32,
    pub end: u32,
}

/// The largest number of arcs whose steps have numbers of 32 bits.
pub const MAX_ARCS: usize = 2_147_483_647;

/// Counts the steps of the arcs of a chain, which begin at a number.
fn count_links(
    _arcs: &Arcs,
    _nodes: usize,
    source: u32,
    chain: &Chain,
    _begin: usize,
    degrees: &mut Vec<u32>,
)
    requires count_within_max { length _arcs.now ≤ MAX_ARCS }
    requires ends { EndsAreNodes _arcs.now _nodes }
    requires source { source ≤ MAX_TRANSACTIONS }
    requires links { HasChainArcs _arcs.now source chain.now _begin }
    requires counted { Counted _arcs.now _nodes (residual_arcs_below _begin) degrees.old.items }
    ensures { Counted _arcs.now _nodes (residual_arcs_below (_begin + length chain.now.costs.items)) degrees.new.items }
{
    for j in 0..chain.costs.len() {
        let from = arc_tail(chain, source, j);
        degrees[from as usize] += 1;
        let to = arc_head(chain, source, j);
        degrees[to as usize] += 1;
    }
}

/// Counts the steps of the arcs from a number on.
fn count_others(arcs: &Arcs, _nodes: usize, first: usize, degrees: &mut Vec<u32>)
    requires count_within_max { length arcs.now ≤ MAX_ARCS }
    requires ends { EndsAreNodes arcs.now _nodes }
    requires first { first ≤ length arcs.now }
    requires counted { Counted arcs.now _nodes (residual_arcs_below first) degrees.old.items }
    ensures { Counted arcs.now _nodes (residual_arcs_below (length arcs.now)) degrees.new.items }
{
    for i in first..arcs.len() {
        let arc = arcs.at(i as u32);
        let from = arc.from as usize;
        degrees[from] += 1;
        let to = arc.to as usize;
        degrees[to] += 1;
    }
}

/// Returns how many steps start at each node: its outgoing and its incoming arcs. The ends of a chain's arcs are read
/// off the chain, since finding an arc by its number needs a look-up.
fn degrees_of(alloc: Global, node_count: usize, arcs: &Arcs) -> Result<Vec<u32>, AllocError>
    requires count_within_max { length arcs.now ≤ MAX_ARCS }
    requires ends { EndsAreNodes arcs.now node_count }
    ensures { IfOk result (λ degrees. AreDegrees arcs.now node_count degrees.items) }
{
    let mut degrees = vec![in alloc; 0u32; node_count]?;
    let (chains, source) = arcs.chains();
    let mut begin = 0;
    for chain in chains {
        count_links(arcs, node_count, source, chain, begin, &mut degrees);
        begin += chain.costs.len();
    }
    count_others(arcs, node_count, begin, &mut degrees);
    Ok(degrees)
}

/// Returns empty, consecutive spans for rows of these lengths.
fn begin_rows(alloc: Global, lengths: &[u32]) -> Result<Vec<Span>, AllocError>
    requires { sum lengths.now ≤ 4294967294 }
    ensures { IfOk result (λ spans. AreBegun lengths.now spans.items) }
{
    let mut spans = Vec::with_capacity(alloc, lengths.len())?;
    let mut begin = 0;
    for length in lengths {
        spans.push(Span { begin, end: begin })?;
        begin += *length;
    }
    Ok(spans)
}

/// The steps of all nodes, and the bounds of each node's row.
#[derive(Debug, Drop)]
pub struct Adjacency {
    pub spans: Vec<Span>,
    pub steps: Vec<PackedResidualArc>,
}

impl Adjacency {
    /// Returns a node's part of a list that has one element for each step, in the order of `steps`.
    pub fn row<'a, T>(&self, list: &'a [T], v: usize) -> &'a [T]
        requires node { v < length self.now.spans.items }
        requires ordered { (span_at self.now.spans.items v).begin ≤ (span_at self.now.spans.items v).end }
        requires inside { (span_at self.now.spans.items v).end ≤ length list.now }
        ensures { result.now ≡ row_in list.now (span_at self.now.spans.items v) }
    {
        let span = self.spans[v];
        &list[span.begin as usize..span.end as usize]
    }

    /// Returns the index of a step that starts at a node.
    pub fn place_of(&self, v: usize, step: ResidualArc) -> usize
        requires node { v < length self.now.spans.items }
        requires ordered { (span_at self.now.spans.items v).begin ≤ (span_at self.now.spans.items v).end }
        requires inside { (span_at self.now.spans.items v).end ≤ length self.now.steps.items }
        requires ascending { IsNonDecreasingBy rank_of (row_in self.now.steps.items (span_at self.now.spans.items v)) }
        requires starts { Contains (row_in self.now.steps.items (span_at self.now.spans.items v)) step }
        ensures inside { result < length self.now.steps.items }
        ensures place { step_at self.now.steps.items result ≡ step }
    {
        let rank = step.rank();
        let row = self.row(&self.steps, v);
        self.spans[v].begin as usize + row.partition_point(|packed| packed.unpack().rank() < rank)
    }

    /// Adds a step to a node's row.
    fn add_step(&mut self, node: usize, step: ResidualArc)
        requires node { node < length self.old.spans.items }
        requires arc { arc_of step < 2147483648 }
        requires in_bounds { (span_at self.old.spans.items node).end < length self.old.steps.items }
        requires count_within_max { length self.old.steps.items < 4294967296 }
        ensures spans { self.new.spans.items ≡ lengthen self.old.spans.items node }
        ensures steps { self.new.steps.items ≡ set self.old.steps.items (span_at self.old.spans.items node).end step }
    {
        let place = self.spans[node].end;
        self.steps[place as usize] = PackedResidualArc::of(step);
        self.spans[node].end = place + 1;
    }
}

/// Puts the steps of the arcs of a chain, which begin at a number, into their rows.
fn lay_links(
    _arcs: &Arcs,
    _nodes: usize,
    source: u32,
    chain: &Chain,
    begin: usize,
    adjacency: &mut Adjacency,
)
    requires count_within_max { length _arcs.now ≤ MAX_ARCS }
    requires ends { EndsAreNodes _arcs.now _nodes }
    requires source { source ≤ MAX_TRANSACTIONS }
    requires links { HasChainArcs _arcs.now source chain.now begin }
    requires adjacency { IsAdjacencyUpTo _arcs.now _nodes begin adjacency.old.spans.items adjacency.old.steps.items }
    ensures { IsAdjacencyUpTo _arcs.now _nodes (begin + length chain.now.costs.items) adjacency.new.spans.items adjacency.new.steps.items }
{
    for j in 0..chain.costs.len() {
        let number = (begin + j) as u32;
        let from = arc_tail(chain, source, j);
        adjacency.add_step(from as usize, ResidualArc::Forward(number));
        let to = arc_head(chain, source, j);
        adjacency.add_step(to as usize, ResidualArc::Backward(number));
    }
}

/// Puts the steps of the arcs from a number on into their rows.
fn lay_others(arcs: &Arcs, _nodes: usize, first: usize, adjacency: &mut Adjacency)
    requires count_within_max { length arcs.now ≤ MAX_ARCS }
    requires ends { EndsAreNodes arcs.now _nodes }
    requires first { first ≤ length arcs.now }
    requires adjacency { IsAdjacencyUpTo arcs.now _nodes first adjacency.old.spans.items adjacency.old.steps.items }
    ensures { IsAdjacencyUpTo arcs.now _nodes (length arcs.now) adjacency.new.spans.items adjacency.new.steps.items }
{
    for i in first..arcs.len() {
        let number = i as u32;
        let arc = arcs.at(number);
        adjacency.add_step(arc.from as usize, ResidualArc::Forward(number));
        adjacency.add_step(arc.to as usize, ResidualArc::Backward(number));
    }
}

/// Returns for each node the steps that start at it: counts them, then puts each into its row.
#[tactic(auto, using(crate::proofs::ChainArcsLaws::starts_first))]
pub fn adjacency_of(alloc: Global, node_count: usize, arcs: &Arcs) -> Result<Adjacency, AllocError>
    requires count_within_max { length arcs.now ≤ MAX_ARCS }
    requires ends { EndsAreNodes arcs.now node_count }
    ensures adjacency { IfOk result (λ adjacency. AreRows arcs.now node_count adjacency.spans.items adjacency.steps.items) }
    ensures steps { IfOk result (λ adjacency. AreSteps arcs.now adjacency.steps.items) }
{
    let spans = begin_rows(alloc, &degrees_of(alloc, node_count, arcs)?)?;
    let steps = vec![in alloc; PackedResidualArc::of(ResidualArc::Forward(0)); 2 * arcs.len()]?;
    let mut adjacency = Adjacency { spans, steps };
    let (chains, source) = arcs.chains();
    let mut begin = 0;
    // arcs are added in ascending order, so each row is sorted, and `place_of` can use binary search
    for chain in chains {
        lay_links(arcs, node_count, source, chain, begin, &mut adjacency);
        begin += chain.costs.len();
    }
    lay_others(arcs, node_count, begin, &mut adjacency);
    Ok(adjacency)
}
