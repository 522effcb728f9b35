//! Finds further shortest paths of a phase, by depth-first search from the sink back to the source.
//!
//! Every labelled node is reachable from the source, but many of them do not reach the sink: a search from the source
//! runs into these, and one from the sink seldom meets a dead end. Each node has a pointer to the next step to try in a
//! phase. The guarantee of a maximum flow does not depend on paths found here: it follows from the last breadth-first
//! search.
ghost use Rattle.std.specs.Prelude.{◌≡◌, ◌<◌, ◌≤◌, true, length, IfOk, IfSome};
ghost use Rattle.esr_cert.specs.Flow.{within};
ghost use Rattle.esr_flow.specs.Residual.{residual_capacity};
ghost use Rattle.esr_cert.specs.ResidualArcs.{opposite, step_at};
ghost use Rattle.esr_flow.specs.ResidualGraph.{network_arcs, network_of, AreEntries, IsAdjacencyRow, entry_at};
ghost use Rattle.esr_flow.specs.Search.{Guides, IsGuided, label_at};
ghost use Rattle.esr_flow.specs.Maximum.{InArcs};

use crate::entry::ShortEntry;
use crate::graph::{ResidualGraph, finish_of};
use esr_cert::{PackedResidualArc, ResidualArc};
use std::alloc::{AllocError, Global};

/// Returns the first index of a node's adjacency row, at or after `from`, of a step to a greater label whose opposite
/// has residual capacity; the row's length if there is none.
fn next_back(
    graph: &ResidualGraph,
    flow: &[u64],
    labels: &[u32],
    at: usize,
    _steps: &[PackedResidualArc],
    row: &[ShortEntry],
    from: usize,
) -> usize
    requires node { at < graph.now.node_count }
    requires row { IsAdjacencyRow (network_arcs graph.now) flow.now at _steps.now row.now }
    requires flow { length flow.now ≡ length (network_arcs graph.now) }
    requires labels { length labels.now ≡ graph.now.node_count }
    ensures later { from ≤ result }
    ensures residual { result < length row.now → within 1
        (residual_capacity (network_arcs graph.now) flow.now (opposite (step_at _steps.now result))) ≡ true }
    ensures up { result < length row.now → label_at labels.now at < label_at labels.now (entry_at row.now result).to }
{
    let label = labels[at];
    for i in from..row.len() {
        let entry = row[i].entry();
        if entry.opposite_has_residual {
            if label < labels[entry.to as usize] {
                return i;
            }
        }
    }
    // a pointer may be past the row already, and it never goes back
    if from < row.len() { row.len() } else { from }
}

/// Searches depth-first from the sink along rising labels, and backtracks at dead ends. Each node resumes at its
/// pointer.
pub fn next_path(
    alloc: Global,
    graph: &ResidualGraph,
    flow: &[u64],
    entries: &[ShortEntry],
    labels: &[u32],
    next: &mut [usize],
) -> Result<Option<Vec<ResidualArc>>, AllocError>
    requires flow { length flow.now ≡ length (network_arcs graph.now) }
    requires entries { AreEntries graph.now flow.now entries.now }
    requires guides { Guides (network_of graph.now) flow.now labels.now }
    requires next { length next.old ≡ graph.now.node_count }
    ensures { IfOk result (λ found. IfSome found (λ path. IsGuided (network_of graph.now) flow.now labels.now path.items)) }
{
    let mut path = Vec::with_capacity(alloc, labels[graph.source] as usize)?;
    let mut at = graph.sink;
    while at != graph.source {
        let steps = graph.steps_at(at);
        let row = graph.row(entries, at);
        let i = next_back(graph, flow, labels, at, steps, row, next[at]);
        if i < row.len() {
            next[at] = i + 1;
            path.push(steps[i].unpack().opposite())?;
            at = row[i].entry().to as usize;
        } else {
            next[at] = i;
            match path.pop() {
                None => return Ok(None),
                Some(step) => at = finish_of(graph.problem, step) as usize,
            }
        }
    }
    path.reverse();
    Ok(Some(path))
}

/// Moves the pointers at the nodes of a path back by one, since their steps may have residual capacity left.
pub fn put_back(graph: &ResidualGraph, next: &mut [usize], path: &[ResidualArc])
    requires path { InArcs (network_arcs graph.now) path.now }
    requires next { length next.old ≡ graph.now.node_count }
    ensures { length next.new ≡ length next.old }
{
    // each pointer is past the step that was taken, and perhaps only one step of the path is full now
    for step in path {
        let node = finish_of(graph.problem, *step) as usize;
        next[node] = next[node].saturating_sub(1);
    }
}
