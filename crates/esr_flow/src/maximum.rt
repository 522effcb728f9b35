//! Computes a maximum flow by augmentations along shortest paths, from the zero flow or from a given flow.
//!
//! The law is stated for labels, not for phases: labels that fall by at most one along each residual arc lead to
//! shortest paths, and still do after an augmentation along one. So the contract is the same as if each shortest path
//! had been searched separately, and the bound by nodes times arcs follows. Every path to the sink has an arc with a
//! limit, so each has a bottleneck, and no amount exceeds the value of the flow.
ghost use Rattle.std.specs.Prelude.{◌≡◌, ℕ, ◌+◌, ◌-◌, ◌*◌, ◌^◌, ◌<◌, ◌≤◌, false, length, set, take, IfOk, List};
ghost use Rattle.esr_cert.specs.declared.range.TheConstants.{MAX_COST};
ghost use Rattle.esr_cert.specs.Network.{network};
ghost use Rattle.esr_cert.specs.ResidualArcs.{arc_of};
ghost use Rattle.esr_flow.specs.Residual.{smaller, bottleneck, shift, raise};
ghost use Rattle.esr_cert.specs.Flow.{amount_at, IsFlow, worth};
ghost use Rattle.esr_flow.specs.Augmentation.{IsReach, Augments, AugmentsFromZero, AugmentsFrom};
ghost use Rattle.esr_flow.specs.ResidualGraph.{network_arcs, network_of, AreEntries};
ghost use Rattle.esr_flow.specs.Search.{IsShortestPath, Guides, IsGuided, ReachesNoSink, is_marked};
ghost use Rattle.esr_flow.specs.Maximum.{InArcs, HasLimit, IsStart};

use crate::entry::ShortEntry;
use crate::flow_check::checked_flow_value;
use crate::graph::{ResidualGraph, residual_capacity_of};
use crate::paths::{next_path, put_back};
use crate::reach::reach;
use crate::search::{Found, search};
use crate::sweep::draft;
use esr_cert::{Problem, ResidualArc};
use std::alloc::{AllocError, Global};

fn smaller_of(a: Option<u64>, b: Option<u64>) -> Option<u64>
    ensures { result ≡ smaller a b }
{
    match a {
        None => b,
        Some(x) => match b {
            None => Some(x),
            Some(y) => Some(x.min(y)),
        },
    }
}

/// Returns the bottleneck of a path: the least residual capacity on it.
fn bottleneck_of(problem: &Problem, flow: &[u64], path: &[ResidualArc]) -> Option<u64>
    requires flow { length flow.now ≡ length (network problem.now).arcs }
    requires path { InArcs (network problem.now).arcs path.now }
    ensures { result ≡ bottleneck (network problem.now).arcs flow.now path.now }
{
    let mut least = None;
    for step in path {
        least = smaller_of(least, residual_capacity_of(problem, flow, *step));
    }
    least
}

/// Returns the amount on the arc of a step after an additional amount is pushed over the step.
fn amount_after(flow: &[u64], amount: u64, step: ResidualArc) -> u64
    requires arc { arc_of step < length flow.now }
    requires fits { amount_at flow.now (arc_of step) + amount < 2 ^ 64 }
    ensures { set flow.now (arc_of step) result ≡ shift flow.now amount step }
{
    match step {
        ResidualArc::Forward(i) => flow[i as usize] + amount,
        ResidualArc::Backward(i) => flow[i as usize].saturating_sub(amount),
    }
}

/// Pushes an amount of flow along a path.
fn raise_along(
    graph: &ResidualGraph,
    flow: &mut [u64],
    entries: &mut [ShortEntry],
    amount: u64,
    path: &[ResidualArc],
)
    requires arc_in_range { InArcs (network_arcs graph.now) path.now }
    requires flow { length flow.old ≡ length (network_arcs graph.now) }
    requires entries { AreEntries graph.now flow.old entries.old }
    requires fits { (k i : ℕ) → amount_at (raise flow.old amount (take k path.now)) i + amount < 2 ^ 64 }
    ensures flow { flow.new ≡ raise flow.old amount path.now }
    ensures entries { AreEntries graph.now flow.new entries.new }
{
    for step in path {
        let after = amount_after(flow, amount, *step);
        graph.set_amount(flow, entries, step.arc(), after);
    }
}

/// Augments along a path that a search found. Returns the amount.
fn augment(
    graph: &ResidualGraph,
    flow: &mut [u64],
    entries: &mut [ShortEntry],
    path: &[ResidualArc],
) -> u64
    requires flow { IsFlow (network_of graph.now) flow.old }
    requires entries { AreEntries graph.now flow.old entries.old }
    requires amounts { (i : ℕ) → amount_at flow.old i ≤ MAX_COST }
    requires small { (f : List ℕ) → IsFlow (network_of graph.now) f → worth (network_of graph.now) f ≤ MAX_COST }
    requires path { IsShortestPath (network_of graph.now) flow.old path.now }
    requires limited { HasLimit (network_of graph.now) }
    ensures augments { Augments (network_of graph.now) flow.old flow.new }
    ensures entries { AreEntries graph.now flow.new entries.new }
    ensures worth { worth (network_of graph.now) flow.new ≡ worth (network_of graph.now) flow.old + result }
{
    match bottleneck_of(graph.problem, flow, path) {
        // each path leaves the source by an arc that has a limit
        None => unreachable!(),
        Some(amount) => {
            raise_along(graph, flow, entries, amount, path);
            amount
        }
    }
}

/// How many augmentations a flow took, in how many phases, and its value.
#[derive(Clone, Copy)]
pub struct FlowSoFar {
    pub augmentations: u64,
    pub phases: u64,
    pub worth: u64,
}

/// Runs one phase, a blocking flow: augments along `first` and along each further path of its length that is found.
fn run_phase(
    alloc: Global,
    graph: &ResidualGraph,
    labels: &[u32],
    first: Vec<ResidualArc>,
    flow: &mut [u64],
    entries: &mut [ShortEntry],
    before: FlowSoFar,
) -> Result<FlowSoFar, AllocError>
    requires small { (f : List ℕ) → IsFlow (network_of graph.now) f → worth (network_of graph.now) f ≤ MAX_COST }
    requires limited { HasLimit (network_of graph.now) }
    requires entries { AreEntries graph.now flow.old entries.old }
    requires guides { Guides (network_of graph.now) flow.old labels.now }
    requires first { IsGuided (network_of graph.now) flow.old labels.now first.items }
    requires start { IsStart (network_of graph.now) flow.old }
    requires count { before.augmentations ≤ before.worth }
    requires worth { before.worth ≡ worth (network_of graph.now) flow.old }
    requires phases { before.phases ≤ before.augmentations }
    ensures takes { IfOk result (λ p. AugmentsFrom (network_of graph.now) flow.old (p.augmentations - before.augmentations)
        flow.new) }
    ensures worth { IfOk result (λ p. p.worth ≡ worth (network_of graph.now) flow.new) }
    ensures entries { IfOk result (λ p. AreEntries graph.now flow.new entries.new) }
    ensures more { IfOk result (λ p. before.augmentations < p.augmentations) }
    ensures phases { IfOk result (λ p. p.phases ≤ p.augmentations) }
{
    let mut next = vec![in alloc; 0usize; graph.node_count]?;
    let mut augmentations = before.augmentations;
    let mut worth = before.worth;
    let mut path = first;
    loop {
        worth += augment(graph, flow, entries, &path);
        augmentations += 1;
        put_back(graph, &mut next, &path);
        match next_path(alloc, graph, flow, entries, labels, &mut next)? {
            None => return Ok(FlowSoFar {
                augmentations,
                phases: before.phases + 1,
                worth,
            }),
            Some(found) => path = found,
        }
    }
}

/// Augments a flow along shortest paths until there is none. Returns the number of augmentations, the worth, and the
/// marks of the nodes that the source then reaches.
fn run_phases(
    alloc: Global,
    graph: &ResidualGraph,
    flow: &mut [u64],
    entries: &mut [ShortEntry],
    value: u64,
) -> Result<(FlowSoFar, Vec<bool>), AllocError>
    requires small { (f : List ℕ) → IsFlow (network_of graph.now) f → worth (network_of graph.now) f ≤ MAX_COST }
    requires limited { HasLimit (network_of graph.now) }
    requires start { IsStart (network_of graph.now) flow.old }
    requires value { value ≡ worth (network_of graph.now) flow.old }
    requires entries { AreEntries graph.now flow.old entries.old }
    ensures takes { IfOk result (λ r. AugmentsFrom (network_of graph.now) flow.old r.0.augmentations flow.new) }
    ensures worth { IfOk result (λ r. r.0.worth ≡ worth (network_of graph.now) flow.new) }
    ensures phases { IfOk result (λ r. r.0.phases ≤ r.0.augmentations) }
    ensures reach { IfOk result (λ r. ReachesNoSink (network_of graph.now) flow.new r.1.items) }
{
    let mut progress = FlowSoFar {
        augmentations: 0,
        phases: 0,
        worth: value,
    };
    loop {
        match search(alloc, graph, flow, entries)? {
            Found::Reach(marks) => return Ok((progress, marks)),
            Found::Path(path, labels) => {
                progress = run_phase(alloc, graph, &labels, path, flow, entries, progress)?;
            }
        }
    }
}

/// A maximum flow, the number of augmentations that led to it, and the marks of the nodes that the source reaches.
#[derive(Drop)]
pub struct MaximumFlow {
    pub flow: Vec<u64>,
    pub augmentations: u64,
    pub phases: u64,
    pub worth: u64,
    pub marks: Vec<bool>,
}

/// Augments a flow with this worth along shortest paths until there is none.
fn maximum_from(
    alloc: Global,
    graph: &ResidualGraph,
    mut flow: Vec<u64>,
    value: u64,
) -> Result<MaximumFlow, AllocError>
    requires small { (f : List ℕ) → IsFlow (network_of graph.now) f → worth (network_of graph.now) f ≤ MAX_COST }
    requires limited { HasLimit (network_of graph.now) }
    requires start { IsStart (network_of graph.now) flow.items }
    requires value { value ≡ worth (network_of graph.now) flow.items }
    ensures takes { IfOk result (λ m. AugmentsFrom (network_of graph.now) flow.items m.augmentations m.flow.items) }
    ensures flow { IfOk result (λ m. IsFlow (network_of graph.now) m.flow.items) }
    ensures worth_is { IfOk result (λ m. m.worth ≡ worth (network_of graph.now) m.flow.items) }
    ensures amounts { IfOk result (λ m. (i : ℕ) → amount_at m.flow.items i ≤ m.worth) }
    ensures phases { IfOk result (λ m. m.phases ≤ m.augmentations) }
    ensures reach { IfOk result (λ m. IsReach (network_of graph.now) m.flow.items (is_marked m.marks.items)) }
    ensures end { IfOk result (λ m. (is_marked m.marks.items graph.now.sink ≡ false)
        × (length m.marks.items ≡ graph.now.node_count)) }
{
    let mut entries = graph.entries(alloc, &flow)?;
    let (taken, marks) = run_phases(alloc, graph, &mut flow, &mut entries, value)?;
    Ok(MaximumFlow {
        flow,
        augmentations: taken.augmentations,
        phases: taken.phases,
        worth: taken.worth,
        marks,
    })
}

/// Augments the flow of zeros along shortest paths until there is none.
pub fn find_maximum(alloc: Global, graph: &ResidualGraph) -> Result<MaximumFlow, AllocError>
    requires small { (f : List ℕ) → IsFlow (network_of graph.now) f → worth (network_of graph.now) f ≤ MAX_COST }
    requires limited { HasLimit (network_of graph.now) }
    ensures takes { IfOk result (λ m. AugmentsFromZero (network_of graph.now) m.augmentations m.flow.items) }
    ensures count_within_max { IfOk result (λ m. m.augmentations ≤ graph.now.node_count * length (network_arcs graph.now)) }
    ensures flow { IfOk result (λ m. IsFlow (network_of graph.now) m.flow.items) }
    ensures worth_is { IfOk result (λ m. m.worth ≡ worth (network_of graph.now) m.flow.items) }
    ensures worth { IfOk result (λ m. m.augmentations ≤ worth (network_of graph.now) m.flow.items) }
    ensures amounts { IfOk result (λ m. (i : ℕ) → amount_at m.flow.items i ≤ m.worth) }
    ensures phases { IfOk result (λ m. m.phases ≤ m.augmentations) }
    ensures reach { IfOk result (λ m. IsReach (network_of graph.now) m.flow.items (is_marked m.marks.items)) }
    ensures end { IfOk result (λ m. (is_marked m.marks.items graph.now.sink ≡ false)
        × (length m.marks.items ≡ graph.now.node_count)) }
{
    let none = vec![in alloc; 0u64; graph.adjacency.steps.len() / 2]?;
    let maximum = maximum_from(alloc, graph, none, 0)?;
    Ok(maximum)
}

/// The outcome of a draft of a flow.
#[derive(Clone, Copy, PartialEq, Eq, Debug)]
pub enum DraftOutcome {
    /// It was a maximum flow.
    Maximum,
    /// It was a flow, which was raised to a maximum one.
    Raised,
    /// It was not a flow; a maximum flow was found from the zero flow.
    NoFlow,
}

/// Finds a maximum flow, and returns it with the outcome of the initial draft: a draft that is a maximum flow is used,
/// any other flow is raised by augmentations, and otherwise the search begins from the zero flow.
pub fn find_swiftly(
    alloc: Global,
    graph: &ResidualGraph,
) -> Result<(MaximumFlow, DraftOutcome), AllocError>
    requires small { (f : List ℕ) → IsFlow (network_of graph.now) f → worth (network_of graph.now) f ≤ MAX_COST }
    requires limited { HasLimit (network_of graph.now) }
    ensures flow { IfOk result (λ m. IsFlow (network_of graph.now) m.0.flow.items) }
    ensures worth_is { IfOk result (λ m. m.0.worth ≡ worth (network_of graph.now) m.0.flow.items) }
    ensures amounts { IfOk result (λ m. (i : ℕ) → amount_at m.0.flow.items i ≤ m.0.worth) }
    ensures reach { IfOk result (λ m. IsReach (network_of graph.now) m.0.flow.items (is_marked m.0.marks.items)) }
    ensures end { IfOk result (λ m. (is_marked m.0.marks.items graph.now.sink ≡ false)
        × (length m.0.marks.items ≡ graph.now.node_count)) }
{
    let flow = draft(alloc, graph)?;
    let Some(worth) = checked_flow_value(alloc, graph, &flow)? else {
        let maximum = find_maximum(alloc, graph)?;
        return Ok((maximum, DraftOutcome::NoFlow));
    };
    let Some(marks) = reach(alloc, graph, &flow)? else {
        let maximum = maximum_from(alloc, graph, flow, worth)?;
        return Ok((maximum, DraftOutcome::Raised));
    };
    let maximum = MaximumFlow {
        flow,
        augmentations: 0,
        phases: 0,
        worth,
        marks,
    };
    Ok((maximum, DraftOutcome::Maximum))
}
