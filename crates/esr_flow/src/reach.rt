//! Finds the nodes that the source reaches in the residual network of a flow.
//!
//! If a draft is already a maximum flow, this is all that remains to be done. It makes passes over the arcs until none
//! marks a node: forward over those of the chains in commit order, which mark nearly all, and backward over those of
//! the pairs, so that an update is marked before its predecessors. Usually both ends of an arc are marked already, or
//! neither is. The problem's lists show that, and the arc itself is looked up only if they differ. Passes over all
//! arcs, forward and then backward, took up to nine rounds instead of five, and looked up each arc. A breadth-first
//! search reads a four-byte entry for each step, from rows that are far apart, and visits the arcs in the order of
//! these rows.
//!
//! A marked node is reachable at any time; that all reachable nodes are marked follows once a round of full passes
//! marks nothing. Before each such round, passes only skim the arcs: usually nearly all updates up to some position are
//! reachable, so they skip the arcs before the first unmarked update. If they have marked everything, one pass over all
//! arcs confirms it. When each pass covered all arcs, the passes took a fifth of an audit's instructions.
ghost use Rattle.std.specs.Prelude.{◌≡◌, ℕ, ◌+◌, ◌-◌, ◌<◌, ◌≤◌, true, false, length, get_or, IfOk, IfSome};
ghost use Rattle.esr_flow.specs.ResidualGraph.{network_arcs, network_of};
ghost use Rattle.esr_flow.specs.Reached.{AreReached, IsKeptOver, IsKept, HasChainArcs, first_back};
ghost use Rattle.esr_flow.specs.Search.{ReachesNoSink, is_marked};

use crate::graph::{ResidualGraph, have_capacity};
use esr_cert::Chain;
use std::alloc::{AllocError, Global};

/// How many passes are made there and back.
const MAX_PASSES: usize = 100;

/// Marks the end of an arc that a residual step reaches from its marked other end. Returns whether it marked anything.
fn spread(graph: &ResidualGraph, flow: &[u64], marks: &mut [bool], i: usize) -> bool
    requires flow { length flow.now ≡ length (network_arcs graph.now) }
    requires arc { i < length (network_arcs graph.now) }
    requires reached { AreReached (network_of graph.now) flow.now marks.old }
    ensures reached { AreReached (network_of graph.now) flow.now marks.new }
    ensures marks { result ≡ false → marks.new ≡ marks.old }
    ensures kept { result ≡ false → IsKeptOver (network_arcs graph.now) flow.now marks.old i }
{
    let arc = graph.problem.arc(i as u32);
    let from = arc.from as usize;
    let to = arc.to as usize;
    if marks[from] == marks[to] {
        return false;
    }
    let (has_residual, opposite_has_residual) = have_capacity(arc.capacity, flow[i]);
    if marks[from] && has_residual {
        marks[to] = true;
        return true;
    }
    if marks[to] && opposite_has_residual {
        marks[from] = true;
        return true;
    }
    false
}

/// Returns whether a node is marked.
fn is_marked(marks: &[bool], node: usize) -> bool
    ensures { result ≡ is_marked marks.now node }
{
    marks.get(node).copied().unwrap_or(false)
}

/// Returns whether the arc at an index of a chain leads from a writer to a writer, both of which are marked or neither.
fn is_link_alike(chain: &Chain, marks: &[bool], place: usize) -> bool
    ensures place { result ≡ true → (0 < place) × (place < length chain.now.writers.items) }
    ensures ends { result ≡ true → is_marked marks.now (get_or chain.now.writers.items (place - 1) 0)
        ≡ is_marked marks.now (get_or chain.now.writers.items place 0) }
{
    if place == 0 || place >= chain.writers.len() {
        return false;
    }
    let from = chain.writers[place - 1];
    let to = chain.writers[place];
    is_marked(marks, from as usize) == is_marked(marks, to as usize)
}

/// Returns whether there is a pair at an index, both updates of which are marked or neither.
fn is_pair_alike(pairs: &[(u32, u32)], marks: &[bool], place: usize) -> bool
    ensures place { result ≡ true → place < length pairs.now }
    ensures ends { result ≡ true → is_marked marks.now (get_or pairs.now place (0, 0)).1
        ≡ is_marked marks.now (get_or pairs.now place (0, 0)).0 }
{
    if place >= pairs.len() {
        return false;
    }
    let (first, second) = pairs[place];
    is_marked(marks, second as usize) == is_marked(marks, first as usize)
}

/// Returns the first node that is not marked.
fn first_unmarked(marks: &[bool]) -> u32 {
    let mut low = 0u32;
    for mark in marks {
        if !*mark {
            return low;
        }
        low = low.saturating_add(1);
    }
    low
}

/// Marks the end of an arc, if there is one with that number, as `spread` does.
fn spread_if(graph: &ResidualGraph, flow: &[u64], marks: &mut [bool], i: usize) -> bool
    requires flow { length flow.now ≡ length (network_arcs graph.now) }
    requires reached { AreReached (network_of graph.now) flow.now marks.old }
    ensures { AreReached (network_of graph.now) flow.now marks.new }
{
    i < flow.len() && spread(graph, flow, marks, i)
}

/// Skims the arcs of a chain, which begin at a number, on from those between nodes below one. Whether it marked anything.
fn skim_chain(
    graph: &ResidualGraph,
    flow: &[u64],
    marks: &mut [bool],
    chain: &Chain,
    begin: usize,
    low: u32,
) -> bool
    requires flow { length flow.now ≡ length (network_arcs graph.now) }
    requires reached { AreReached (network_of graph.now) flow.now marks.old }
    ensures { AreReached (network_of graph.now) flow.now marks.new }
{
    let start = chain.writers.partition_point(|writer| *writer < low);
    let mut more = false;
    for j in start..chain.costs.len() {
        if !is_link_alike(chain, marks, j)
            && spread_if(graph, flow, marks, begin.saturating_add(j))
        {
            more = true;
        }
    }
    more
}

/// Skims the arcs of all chains, from the first to the last. Whether it marked anything.
fn skim_chains(graph: &ResidualGraph, flow: &[u64], marks: &mut [bool], low: u32) -> bool
    requires flow { length flow.now ≡ length (network_arcs graph.now) }
    requires reached { AreReached (network_of graph.now) flow.now marks.old }
    ensures { AreReached (network_of graph.now) flow.now marks.new }
{
    let mut more = false;
    let mut begin = 0usize;
    for chain in graph.problem.chains() {
        if skim_chain(graph, flow, marks, chain, begin, low) {
            more = true;
        }
        begin = begin.saturating_add(chain.costs.len());
    }
    more
}

/// Skims the arcs of pairs, backward from the last to those whose earlier update comes before a node. The arc of the
/// first pair has the number `first`. Returns whether it marked anything.
fn skim_pairs(
    graph: &ResidualGraph,
    flow: &[u64],
    marks: &mut [bool],
    first: usize,
    low: u32,
) -> bool
    requires flow { length flow.now ≡ length (network_arcs graph.now) }
    requires reached { AreReached (network_of graph.now) flow.now marks.old }
    ensures { AreReached (network_of graph.now) flow.now marks.new }
{
    let pairs = graph.problem.before();
    let start = pairs.partition_point(|pair| pair.0 < low);
    let mut more = false;
    for k in (start..pairs.len()).rev() {
        if !is_pair_alike(pairs, marks, k)
            && spread_if(graph, flow, marks, first.saturating_add(k))
        {
            more = true;
        }
    }
    more
}

/// Marks the updates that must be in the set, and skims arcs until that marks nothing more. The arcs of pairs begin at
/// `first`. It need not mark every reachable node.
fn skim(graph: &ResidualGraph, flow: &[u64], marks: &mut [bool], first: usize)
    requires flow { length flow.now ≡ length (network_arcs graph.now) }
    requires reached { AreReached (network_of graph.now) flow.now marks.old }
    ensures { AreReached (network_of graph.now) flow.now marks.new }
{
    for i in first.saturating_add(graph.problem.before().len())..flow.len() {
        spread_if(graph, flow, marks, i);
    }
    for _ in 0..MAX_PASSES {
        let low = first_unmarked(marks);
        let more = skim_chains(graph, flow, marks, low);
        if !skim_pairs(graph, flow, marks, first, low) && !more {
            return;
        }
    }
}

/// Passes over the arcs of a chain, from `begin` on, from the first to the last. Returns whether it marked anything.
fn pass_chain(
    graph: &ResidualGraph,
    flow: &[u64],
    marks: &mut [bool],
    chain: &Chain,
    begin: usize,
) -> bool
    requires flow { length flow.now ≡ length (network_arcs graph.now) }
    requires chain { HasChainArcs (network_arcs graph.now) chain.now begin }
    requires reached { AreReached (network_of graph.now) flow.now marks.old }
    ensures reached { AreReached (network_of graph.now) flow.now marks.new }
    ensures marks { result ≡ false → marks.new ≡ marks.old }
    ensures kept { result ≡ false → (j : ℕ) → j < length chain.now.costs.items
        → IsKeptOver (network_arcs graph.now) flow.now marks.new (begin + j) }
{
    let mut more = false;
    for j in 0..chain.costs.len() {
        if !is_link_alike(chain, marks, j) && spread(graph, flow, marks, begin + j) {
            more = true;
        }
    }
    more
}

/// Passes over the arcs of all chains, from the first to the last. Returns whether it marked anything.
fn pass_chains(graph: &ResidualGraph, flow: &[u64], marks: &mut [bool]) -> bool
    requires flow { length flow.now ≡ length (network_arcs graph.now) }
    requires reached { AreReached (network_of graph.now) flow.now marks.old }
    ensures reached { AreReached (network_of graph.now) flow.now marks.new }
    ensures marks { result ≡ false → marks.new ≡ marks.old }
    ensures kept { result ≡ false → (i : ℕ) → i < first_back graph.now.problem.now
        → IsKeptOver (network_arcs graph.now) flow.now marks.new i }
{
    let mut more = false;
    let mut begin = 0;
    for chain in graph.problem.chains() {
        if pass_chain(graph, flow, marks, chain, begin) {
            more = true;
        }
        begin += chain.costs.len();
    }
    more
}

/// Passes over the arcs from that of the first pair on, from the last to the first. Returns whether it marked anything.
fn pass_back(graph: &ResidualGraph, flow: &[u64], marks: &mut [bool], first: usize) -> bool
    requires flow { length flow.now ≡ length (network_arcs graph.now) }
    requires first { first ≡ first_back graph.now.problem.now }
    requires reached { AreReached (network_of graph.now) flow.now marks.old }
    ensures reached { AreReached (network_of graph.now) flow.now marks.new }
    ensures kept { result ≡ false → (i : ℕ) → first ≤ i → i < length (network_arcs graph.now)
        → IsKeptOver (network_arcs graph.now) flow.now marks.new i }
    ensures marks { result ≡ false → marks.new ≡ marks.old }
{
    let pairs = graph.problem.before();
    let mut more = false;
    for i in (first..flow.len()).rev() {
        if !is_pair_alike(pairs, marks, i - first) && spread(graph, flow, marks, i) {
            more = true;
        }
    }
    more
}

/// Returns the number of the first arc that is not in a chain; `count` is the number of all arcs.
fn first_back_of(graph: &ResidualGraph, count: usize) -> usize
    requires count { count ≡ length (network_arcs graph.now) }
    ensures { result ≡ first_back graph.now.problem.now }
{
    count - graph.problem.must().len() - graph.problem.before().len()
}

/// Marks all nodes that are reachable from the marked ones. Returns whether the passes sufficed.
fn pass_often(graph: &ResidualGraph, flow: &[u64], marks: &mut [bool]) -> bool
    requires flow { length flow.now ≡ length (network_arcs graph.now) }
    requires reached { AreReached (network_of graph.now) flow.now marks.old }
    ensures reached { AreReached (network_of graph.now) flow.now marks.new }
    ensures kept { result ≡ true → IsKept (network_arcs graph.now) flow.now marks.new }
{
    let first = first_back_of(graph, flow.len());
    for _ in 0..MAX_PASSES {
        skim(graph, flow, marks, first);
        let more = pass_chains(graph, flow, marks);
        if !pass_back(graph, flow, marks, first) && !more {
            return true;
        }
    }
    false
}

/// Marks the nodes that the source reaches. Returns `None` if it reaches the sink, or if `MAX_PASSES` passes do not
/// suffice.
pub fn reach(
    alloc: Global,
    graph: &ResidualGraph,
    flow: &[u64],
) -> Result<Option<Vec<bool>>, AllocError>
    requires flow { length flow.now ≡ length (network_arcs graph.now) }
    ensures { IfOk result (λ r. IfSome r (λ marks. ReachesNoSink (network_of graph.now) flow.now marks.items)) }
{
    let mut marks = vec![in alloc; false; graph.node_count]?;
    marks[graph.source] = true;
    if !pass_often(graph, flow, &mut marks) || marks[graph.sink] {
        return Ok(None);
    }
    Ok(Some(marks))
}
