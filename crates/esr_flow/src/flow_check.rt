//! Checks whether a list of amounts is a flow.
//!
//! One pass over the arcs in the order of their numbers adds each amount to the sums of its two nodes. The arcs of a
//! chain are adjacent, so access is sequential. A pass over the nodes would read each amount twice, at scattered places.
ghost use Rattle.std.specs.Prelude.{◌≡◌, ◌≢◌, ℕ, ◌+◌, ◌<◌, ◌≤◌, true, length, get_or, set, IfOk, IfSome};
ghost use Rattle.esr_cert.specs.Network.{arc_at};
ghost use Rattle.esr_cert.specs.Flow.{within, amount_at, inflow, outflow, IsFlow, worth};
ghost use Rattle.esr_flow.specs.ResidualGraph.{network_arcs, network_of};

use crate::graph::ResidualGraph;
use esr_cert::Arc;
use std::alloc::{AllocError, Global};

/// Adds an amount to the sum of a node. Returns false on overflow.
fn add_to(sums: &mut [u64], node: usize, amount: u64) -> bool
    requires { node < length sums.old }
    ensures { result ≡ true → sums.new ≡ set sums.old node (get_or sums.old node 0 + amount) }
{
    match sums[node].checked_add(amount) {
        None => false,
        Some(sum) => {
            sums[node] = sum;
            true
        }
    }
}

/// Returns whether an amount is within the capacity of an arc.
fn is_within(arc: Arc, amount: u64) -> bool
    ensures { result ≡ within amount arc.capacity }
{
    match arc.capacity {
        None => true,
        Some(limit) => amount <= limit,
    }
}

/// Adds the amount of an arc to the inflow of its head and to the outflow of its tail. Returns false if the amount is
/// above the arc's capacity or a sum overflows.
fn add_arc(arc: Arc, amount: u64, inflows: &mut [u64], outflows: &mut [u64]) -> bool
    requires heads { arc.to < length inflows.old }
    requires tails { arc.from < length outflows.old }
    ensures capacity { result ≡ true → within amount arc.capacity ≡ true }
    ensures inflows { result ≡ true → inflows.new ≡ set inflows.old arc.to (get_or inflows.old arc.to 0 + amount) }
    ensures outflows { result ≡ true → outflows.new ≡ set outflows.old arc.from (get_or outflows.old arc.from 0 + amount) }
{
    is_within(arc, amount)
        && add_to(inflows, arc.to as usize, amount)
        && add_to(outflows, arc.from as usize, amount)
}

/// Computes the inflow and the outflow of each node, and returns the greatest amount. Returns `None` if an amount is
/// above the capacity of its arc or a sum overflows.
fn sum_arcs(
    graph: &ResidualGraph,
    flow: &[u64],
    inflows: &mut [u64],
    outflows: &mut [u64],
) -> Option<u64>
    requires flow { length flow.now ≡ length (network_arcs graph.now) }
    requires inflows { length inflows.old ≡ graph.now.node_count }
    requires outflows { length outflows.old ≡ graph.now.node_count }
    requires zero { (v : ℕ) → (get_or inflows.old v 0 ≡ 0) × (get_or outflows.old v 0 ≡ 0) }
    ensures capacities { IfSome result (λ upper_bound. (i : ℕ) → i < length flow.now
        → within (get_or flow.now i 0) (arc_at (network_arcs graph.now) i).capacity ≡ true) }
    ensures upper_bound { IfSome result (λ upper_bound. (i : ℕ) → i < length flow.now → get_or flow.now i 0 ≤ upper_bound) }
    ensures inflows { IfSome result (λ upper_bound. (v : ℕ) → v < graph.now.node_count
        → get_or inflows.new v 0 ≡ inflow (network_arcs graph.now) flow.now v) }
    ensures outflows { IfSome result (λ upper_bound. (v : ℕ) → v < graph.now.node_count
        → get_or outflows.new v 0 ≡ outflow (network_arcs graph.now) flow.now v) }
{
    let mut greatest = 0;
    for i in 0..flow.len() {
        let amount = flow[i];
        if amount == 0 {
            continue;
        }
        let arc = graph.problem.arc(i as u32);
        if !add_arc(arc, amount, inflows, outflows) {
            return None;
        }
        greatest = amount.max(greatest);
    }
    Some(greatest)
}

/// Returns whether inflow equals outflow at each node other than the source and the sink.
fn is_conserved(graph: &ResidualGraph, inflows: &[u64], outflows: &[u64]) -> bool
    requires inflows { length inflows.now ≡ graph.now.node_count }
    requires outflows { length outflows.now ≡ graph.now.node_count }
    ensures { result ≡ true → (v : ℕ) → v < graph.now.node_count → v ≢ graph.now.source → v ≢ graph.now.sink
        → get_or inflows.now v 0 ≡ get_or outflows.now v 0 }
{
    for v in 0..graph.node_count {
        if v != graph.source && v != graph.sink && inflows[v] != outflows[v] {
            return false;
        }
    }
    true
}

/// Returns the value of a flow. Returns `None` if the amounts are not a flow, or if one of them is above that value.
pub fn checked_flow_value(
    alloc: Global,
    graph: &ResidualGraph,
    flow: &[u64],
) -> Result<Option<u64>, AllocError>
    requires flow { length flow.now ≡ length (network_arcs graph.now) }
    ensures flow { IfOk result (λ r. IfSome r (λ value. IsFlow (network_of graph.now) flow.now)) }
    ensures worth { IfOk result (λ r. IfSome r (λ value. value ≡ worth (network_of graph.now) flow.now)) }
    ensures amounts { IfOk result (λ r. IfSome r (λ value. (i : ℕ) → amount_at flow.now i ≤ value)) }
{
    let mut inflows = vec![in alloc; 0u64; graph.node_count]?;
    let mut outflows = vec![in alloc; 0u64; graph.node_count]?;
    let Some(greatest) = sum_arcs(graph, flow, &mut inflows, &mut outflows) else {
        return Ok(None);
    };
    let worth = outflows[graph.source];
    if greatest <= worth && is_conserved(graph, &inflows, &outflows) {
        Ok(Some(worth))
    } else {
        Ok(None)
    }
}
