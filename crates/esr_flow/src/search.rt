//! Searches the residual network breadth-first until it visits the sink. Returns a shortest path with labels that lead
//! to further ones of its length, or marks of the nodes that the source reaches: the smallest set of least cost.
ghost use Rattle.std.specs.Prelude.{◌≡◌, ℕ, List, ◌-◌, ◌<◌, ◌≤◌, false, length, IfOk};
ghost use Rattle.esr_cert.specs.Network.{Network};
ghost use Rattle.esr_flow.specs.ResidualGraph.{network_arcs, network_of, AreEntries, IsAdjacencyRow};
ghost use Rattle.esr_flow.specs.Search.{Searched, visit_at, is_marked, ComeFromEarlier, IsShortestPath, AfterScan, AfterSearch, FoundSink, IsFound, Guides, label_at};

use crate::entry::ShortEntry;
use crate::graph::ResidualGraph;
use esr_cert::{PackedResidualArc, ResidualArc};
use std::alloc::{AllocError, Global};

/// A node that was reached, by a step from the node of an earlier visit.
#[derive(Clone, Copy)]
pub struct Visit {
    pub node: u32,
    pub level: u32,
    pub step: ResidualArc,
    pub parent: u32,
}

/// Visits each unmarked node that a step of the row leads to, until the sink is visited.
fn scan(
    graph: &ResidualGraph,
    _flow: &[u64],
    steps: &[PackedResidualArc],
    row: &[ShortEntry],
    visits: &mut Vec<Visit>,
    marks: &mut Vec<bool>,
    head: usize,
) -> Result<bool, AllocError>
    requires row { IsAdjacencyRow (network_arcs graph.now) _flow.now (visit_at visits.old.items head).node steps.now row.now }
    requires head { head < length visits.old.items }
    requires searched { Searched (network_of graph.now) _flow.now visits.old.items marks.old.items head }
    requires sink { is_marked marks.old.items graph.now.sink ≡ false }
    ensures { IfOk result
        (λ found. AfterScan (network_of graph.now) _flow.now visits.new.items marks.new.items head found) }
{
    let level = visits[head].level + 1;
    for (i, short) in row.iter().enumerate() {
        let entry = short.entry();
        let node = entry.to as usize;
        if !marks[node] {
            if entry.has_residual {
                visits.push(Visit {
                    node: entry.to,
                    level,
                    step: steps[i].unpack(),
                    parent: head as u32,
                })?;
                marks[node] = true;
                if node == graph.sink {
                    return Ok(true);
                }
            }
        }
    }
    Ok(false)
}

/// Returns the steps from the first visit to the last: if the last is the sink, a shortest path.
fn path_to_last(alloc: Global, visits: &[Visit]) -> Result<Vec<ResidualArc>, AllocError>
    requires some { 0 < length visits.now }
    requires earlier { ComeFromEarlier visits.now }
    ensures shortest { IfOk result (λ path. (net : Network) (flow : List ℕ)
        → FoundSink net flow visits.now → IsShortestPath net flow path.items) }
    ensures steps { IfOk result (λ path. (net : Network) (flow : List ℕ) → FoundSink net flow visits.now
        → length path.items ≡ (visit_at visits.now (length visits.now - 1)).level) }
{
    let mut path = Vec::new(alloc);
    let mut at = visits.len() - 1;
    while at != 0 {
        let visit = visits[at];
        path.push(visit.step)?;
        at = visit.parent as usize;
    }
    path.reverse();
    Ok(path)
}

/// Returns each node's distance to the sink in levels of this search; 0 for nodes that it did not reach.
fn labels_of(
    alloc: Global,
    graph: &ResidualGraph,
    _flow: &[u64],
    visits: &[Visit],
) -> Result<Vec<u32>, AllocError>
    requires { FoundSink (network_of graph.now) _flow.now visits.now }
    ensures guides { IfOk result (λ labels. Guides (network_of graph.now) _flow.now labels.items) }
    ensures source { IfOk result (λ labels. (visit_at visits.now (length visits.now - 1)).level
        ≤ label_at labels.items graph.now.source) }
{
    let last = visits[visits.len() - 1].level;
    let mut labels = vec![in alloc; 0u32; graph.node_count]?;
    for visit in visits {
        // each node is visited once, but that need not be known here
        let label = last.saturating_sub(visit.level);
        let node = visit.node as usize;
        labels[node] = labels[node].max(label);
    }
    Ok(labels)
}

/// The result of a search: a shortest path and labels that lead to further ones of its length, or marks of the nodes
/// that the source reaches.
#[derive(Drop)]
pub enum Found {
    Path(Vec<ResidualArc>, Vec<u32>),
    Reach(Vec<bool>),
}

/// Visits the nodes that the source reaches, the nearest first, until the sink is visited.
fn visit_nodes(
    graph: &ResidualGraph,
    flow: &[u64],
    entries: &[ShortEntry],
    visits: &mut Vec<Visit>,
    marks: &mut Vec<bool>,
) -> Result<bool, AllocError>
    requires entries { AreEntries graph.now flow.now entries.now }
    requires begun { Searched (network_of graph.now) flow.now visits.old.items marks.old.items 0 }
    requires sink { is_marked marks.old.items graph.now.sink ≡ false }
    ensures { IfOk result
        (λ found. AfterSearch (network_of graph.now) flow.now visits.new.items marks.new.items found) }
{
    let mut head = 0;
    while head < visits.len() {
        let node = visits[head].node as usize;
        let steps = graph.steps_at(node);
        let row = graph.row(entries, node);
        if scan(graph, flow, steps, row, visits, marks, head)? {
            return Ok(true);
        }
        head += 1;
    }
    Ok(false)
}

/// Searches the residual network for a path from the source to the sink.
pub fn search(
    alloc: Global,
    graph: &ResidualGraph,
    flow: &[u64],
    entries: &[ShortEntry],
) -> Result<Found, AllocError>
    requires entries { AreEntries graph.now flow.now entries.now }
    ensures { IfOk result (λ found. IsFound (network_of graph.now) flow.now found) }
{
    let mut marks = vec![in alloc; false; graph.node_count]?;
    marks[graph.source] = true;
    let mut visits = Vec::with_capacity(alloc, graph.node_count)?;
    visits.push(Visit {
        node: graph.source as u32,
        level: 0,
        step: ResidualArc::Forward(0),
        parent: 0,
    })?;
    if !visit_nodes(graph, flow, entries, &mut visits, &mut marks)? {
        return Ok(Found::Reach(marks));
    }
    let path = path_to_last(alloc, &visits)?;
    let labels = labels_of(alloc, graph, flow, &visits)?;
    Ok(Found::Path(path, labels))
}
