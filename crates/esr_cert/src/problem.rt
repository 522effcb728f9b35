//! Closure problems: updates, precedence pairs, the updates that a set must contain, and for each item that the query read
//! a chain of the costs of its versions; with the adjacency lists of the network.
//!
//! `new` checks the rules of shape before those of range, over the whole problem, so `Range` implies that the shape is
//! right. `from_valid_parts` has both as preconditions: the limits of the engine guarantee them for the problem of an audit, and
//! checking them again took a fifth of an audit. The adjacency lists are built with the problem, so checking a certificate
//! allocates nothing. A problem of more than 2,147,483,647 arcs is `NoMemory`: a residual arc packs the number of its arc and
//! its direction into 32 bits.

ghost use Rattle.std.specs.Prelude.{◌≡◌, ◌≢◌, ◌<◌, ◌≤◌, length, map, true, IsOk, IfOk, IfErr, Some, None};
ghost use Rattle.esr_base.specs.declared.limits.TheConstants.{MAX_TRANSACTIONS};
ghost use Rattle.esr_cert.specs.Problem.{update_count, has_valid_shape, is_well_formed};
ghost use Rattle.esr_cert.specs.Faults.{problem_fault, bundle_fault_number};
ghost use Rattle.esr_cert.specs.Network.{arc_at, network};
ghost use Rattle.esr_cert.specs.Adjacency.{IsAdjacencyOf};
ghost use Rattle.esr_cert.specs.ChainStarts.{chain_starts_from, chain_by_arc_from};
ghost use Rattle.esr_cert.specs.Views.{chain_view, problem_of_parts, problem_of};
ghost use Rattle.esr_cert.specs.Problem as spec;

use crate::adjacency::{Adjacency, MAX_ARCS, adjacency_of};
use crate::arcs::{Arcs, arc_count};
use crate::chain_starts::{chain_by_arc_of, chain_starts_of};
use crate::network::Arc;
use crate::parts::have_valid_shape;
use crate::range::is_in_range;
use esr_base::{ItemId, TxnId};
use std::alloc::{AllocError, Global};
use std::marker::Model;
use thiserror::Error;

/// The versions of an item that the query read: its writers, and the cost of each version.
#[derive(Drop)]
pub struct Chain {
    pub item: ItemId,
    /// The positions of the updates that wrote the item, ascending.
    pub writers: Vec<u32>,
    /// The cost of the query's reads with the opening value, and with the value of each writer.
    pub costs: Vec<u64>,
}

/// Why parts are not a valid problem, or bytes not a valid bundle.
#[derive(Clone, Copy, Debug, PartialEq, Eq, Error)]
pub enum BundleFault {
    /// The bytes are no JSON. Parts never have this fault.
    #[error("not JSON")]
    Json = 1,
    /// A rule of shape is broken.
    #[error("wrong shape")]
    Shape = 2,
    /// The shape is right, and a number is out of its range.
    #[error("number out of range")]
    Range = 3,
    /// An allocation failed.
    #[error("out of memory")]
    NoMemory = 4,
}

impl BundleFault {
    /// Returns the number of the fault.
    pub fn number(self) -> u8
        ensures { result ≡ bundle_fault_number self }
    {
        self as u8
    }
}

impl From<AllocError> for BundleFault {
    ghost use Rattle.esr_cert.specs.declared.problem.BundleFault.TheVariants.{NoMemory};

    ghost from_gives = { λ _ e. e ≡ NoMemory };

    fn from(_error: AllocError) -> BundleFault {
        BundleFault::NoMemory
    }
}

/// The updates, the pairs that a closed set respects, and a chain for each item read: a closed set selects one version of it.
#[derive(Drop)]
pub struct ProblemParts {
    pub updates: Vec<TxnId>,
    pub before: Vec<(u32, u32)>,
    pub chains: Vec<Chain>,
    pub must: Vec<u32>,
}

/// A closure problem: to find a closed set of updates of least cost. It has valid parts, and the arrays of their network.
///
/// Shape: no number occurs twice in `updates`; `before` is sorted lexicographically, and the first of each pair is below the
/// second; the items of the chains ascend; in each chain the writers ascend, consecutive writers are a pair of `before`, and
/// there is one more cost than writers; `must` ascends. Range: an update's number is 1 to 65,535; an item's number is at most
/// 4,095; the positions in `before`, `must` and the writers are below the count of updates; and the sum of the chains'
/// maximum costs is at most 2,000,000,000,000,000,000.
#[derive(Drop)]
pub struct Problem {
    parts: ProblemParts,
    chain_starts: Vec<u32>,
    chain_by_arc: Vec<u16>,
    adjacency: Adjacency,
}

/// Returns the arcs of the network of valid parts.
fn arcs_of<'a>(
    parts: &'a ProblemParts,
    chain_starts: &'a [u32],
    chain_by_arc: &'a [u16],
) -> Arcs<'a>
    requires well_formed { is_well_formed (problem_of_parts parts.now) ≡ true }
    requires chain_starts { chain_starts.now ≡ chain_starts_from 0 (problem_of_parts parts.now).chains }
    requires chain_by_arc { chain_by_arc.now ≡ chain_by_arc_from 0 (problem_of_parts parts.now).chains }
    ensures { result ≡ (network (problem_of_parts parts.now)).arcs }
{
    Arcs {
        updates: &parts.updates,
        before: &parts.before,
        chains: &parts.chains,
        must: &parts.must,
        chain_starts,
        chain_by_arc,
    }
}

/// Returns the arrays of the network of valid parts: the first arc of each chain, the chain of each arc of a chain, and the
/// residual arcs of each node.
fn network_index(
    alloc: Global,
    parts: &ProblemParts,
) -> Result<(Vec<u32>, Vec<u16>, Adjacency), AllocError>
    requires well_formed { is_well_formed (problem_of_parts parts.now) ≡ true }
    ensures chain_starts { IfOk result (λ n. n.0.items ≡ chain_starts_from 0 (problem_of_parts parts.now).chains) }
    ensures chain_by_arc { IfOk result (λ n. n.1.items ≡ chain_by_arc_from 0 (problem_of_parts parts.now).chains) }
    ensures adjacency { IfOk result (λ n. IsAdjacencyOf (network (problem_of_parts parts.now)) n.2) }
{
    if arc_count(&parts.before, &parts.chains, &parts.must) > MAX_ARCS as u128 {
        return Err(AllocError);
    }
    let chain_starts = chain_starts_of(alloc, &parts.chains)?;
    let chain_by_arc = chain_by_arc_of(
        alloc,
        &parts.chains,
        chain_starts[parts.chains.len()] as usize,
    )?;
    let adjacency = adjacency_of(
        alloc,
        parts.updates.len() + 2,
        &arcs_of(parts, &chain_starts, &chain_by_arc),
    )?;
    Ok((chain_starts, chain_by_arc, adjacency))
}

impl Model for Problem {
    ghost Value = { spec.Problem };

    ghost view = { λ p. problem_of_parts p.parts };

    ghost invariant = { λ p. (spec.is_well_formed (problem_of_parts p.parts) ≡ true)
        × (p.chain_starts.items ≡ chain_starts_from 0 (problem_of_parts p.parts).chains)
        × (p.chain_by_arc.items ≡ chain_by_arc_from 0 (problem_of_parts p.parts).chains)
        × IsAdjacencyOf (network (problem_of_parts p.parts)) p.adjacency };
}

impl Problem {
    /// Creates a problem from its parts.
    ///
    /// # Errors
    /// `Shape` if the parts break a rule of shape; otherwise `Range` if they break a rule of range. `NoMemory` if an
    /// allocation failed, even if the parts also break a rule.
    pub fn new(
        alloc: Global,
        updates: Vec<TxnId>,
        before: Vec<(u32, u32)>,
        chains: Vec<Chain>,
        must: Vec<u32>,
    ) -> Result<Problem, BundleFault>
        ensures ok { IfOk result (λ p. p ≡ problem_of updates.items before.items chains.items must.items) }
        ensures well_formed { IsOk result → problem_fault (problem_of updates.items before.items chains.items must.items)
            ≡ None }
        ensures err { IfErr result (λ e. e ≢ BundleFault.NoMemory
            → problem_fault (problem_of updates.items before.items chains.items must.items) ≡ Some e) }
    {
        let parts = ProblemParts {
            updates,
            before,
            chains,
            must,
        };
        if !have_valid_shape(alloc, &parts)? {
            return Err(BundleFault::Shape);
        }
        Problem::from_shaped_parts(alloc, parts)
    }

    /// Creates a problem from parts whose shape was checked already.
    ///
    /// # Errors
    /// `Range` if the parts break a rule of range; `NoMemory` if an allocation failed.
    pub fn from_shaped_parts(alloc: Global, parts: ProblemParts) -> Result<Problem, BundleFault>
        requires shape { has_valid_shape (problem_of_parts parts) ≡ true }
        ensures ok { IfOk result (λ p. p ≡ problem_of_parts parts) }
        ensures well_formed { IsOk result → problem_fault (problem_of_parts parts) ≡ None }
        ensures err { IfErr result (λ e. e ≢ BundleFault.NoMemory → problem_fault (problem_of_parts parts) ≡ Some e) }
    {
        if !is_in_range(&parts) {
            return Err(BundleFault::Range);
        }
        let problem = Problem::from_valid_parts(alloc, parts)?;
        Ok(problem)
    }

    /// Creates a problem from valid parts, without checking them again.
    pub fn from_valid_parts(alloc: Global, parts: ProblemParts) -> Result<Problem, AllocError>
        requires well_formed { is_well_formed (problem_of_parts parts) ≡ true }
        ensures { IfOk result (λ p. p ≡ problem_of_parts parts) }
    {
        let (chain_starts, chain_by_arc, adjacency) = network_index(alloc, &parts)?;
        Ok(Problem {
            parts,
            chain_starts,
            chain_by_arc,
            adjacency,
        })
    }

    /// Returns the numbers of the updates. Elsewhere an update is named by its position here.
    pub fn updates(&self) -> &[TxnId]
        ensures list { map (λ t. t.0) result.now ≡ self.now.updates }
        ensures count_within_max { update_count self.now ≤ MAX_TRANSACTIONS }
        ensures well_formed { is_well_formed self.now ≡ true }
    {
        &self.parts.updates
    }

    /// Returns the pairs of updates of which the first comes before the second.
    pub fn before(&self) -> &[(u32, u32)]
        ensures list { result.now ≡ self.now.before }
        ensures well_formed { is_well_formed self.now ≡ true }
    {
        &self.parts.before
    }

    /// Returns the chains, ascending by item.
    pub fn chains(&self) -> &[Chain]
        ensures list { map chain_view result.now ≡ self.now.chains }
        ensures well_formed { is_well_formed self.now ≡ true }
    {
        &self.parts.chains
    }

    /// Returns the updates that a closed set must contain, ascending.
    pub fn must(&self) -> &[u32]
        ensures list { result.now ≡ self.now.must }
        ensures well_formed { is_well_formed self.now ≡ true }
    {
        &self.parts.must
    }

    /// Returns the number of the first arc of each chain, and of the first arc after them all.
    pub(crate) fn chain_starts(&self) -> &[u32]
        ensures list { result.now ≡ chain_starts_from 0 self.now.chains }
    {
        &self.chain_starts
    }

    /// Returns an arc of the network, by its number.
    ///
    /// The arcs in the order of their numbers: for each chain, the path from the source through its writers to the sink,
    /// with the costs of the versions as capacities; for each pair, an unlimited arc from the later to the earlier update;
    /// for each update in `must`, an unlimited arc from the source. The nodes are the positions of the updates, then the
    /// source and the sink.
    pub fn arc(&self, number: u32) -> Arc
        requires { number < length (network self.now).arcs }
        ensures { result ≡ arc_at (network self.now).arcs number }
    {
        arcs_of(&self.parts, &self.chain_starts, &self.chain_by_arc).at(number)
    }

    /// Returns for each node of the network the residual arcs that start there.
    pub fn adjacency(&self) -> &Adjacency
        ensures adjacency { IsAdjacencyOf (network self.now) result.now }
        ensures well_formed { is_well_formed self.now ≡ true }
    {
        &self.adjacency
    }
}
