//! The network of a problem, ready to be solved: the problem keeps its rows, so this allocates nothing.
ghost use Rattle.std.specs.Prelude.{◌≡◌, ◌<◌, true, IfOk};
ghost use Rattle.esr_cert.specs.Problem.{is_well_formed};
ghost use Rattle.esr_cert.specs.Network as networks;
ghost use Rattle.esr_flow.specs.ResidualGraph.{network_of};

use crate::graph::ResidualGraph;
use esr_base::NoMemory;
use esr_cert::Problem;
use std::alloc::Global;

/// Builds the graph of a problem's network.
fn graph_of<'a>(problem: &'a Problem) -> ResidualGraph<'a>
    ensures { network_of result ≡ networks.network problem.now }
{
    let source = problem.updates().len();
    ResidualGraph {
        problem,
        adjacency: problem.adjacency(),
        node_count: source + 2,
        source,
        sink: source + 1,
    }
}

/// The network of a problem, with the rows of steps that the problem contains.
///
/// Its cuts without unlimited arcs are the closed sets, and their capacities are the costs.
#[derive(Drop)]
pub struct Network<'a> {
    pub problem: &'a Problem,
    pub(crate) graph: ResidualGraph<'a>,
    ghost well_formed: { is_well_formed problem.now ≡ true },
    ghost same: { network_of graph ≡ networks.network problem.now },
}

impl<'a> Network<'a> {
    /// Builds the network of the problem, without an allocation.
    pub fn build(_alloc: Global, problem: &'a Problem) -> Result<Network<'a>, NoMemory>
        ensures { IfOk result (λ n. n.problem.now ≡ problem.now) }
    {
        let graph = graph_of(problem);
        let _sound = problem.updates(); // brings the invariant into the proof
        Ok(Network { problem, graph })
    }
}
