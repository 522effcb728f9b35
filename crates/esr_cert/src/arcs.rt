//! Numbers the arcs of a problem's network: first those of the chains (a chain for each item that was read: from the source
//! along the item's writers to the sink), then one for each precedence pair, then one from the source to each mandatory update
//! (`must`). A closed set must also contain the mandatory updates.
//!
//! `chain_starts` has the number of the first arc of each chain, and last the number of all chain arcs. `chain_by_arc` has the
//! index of the chain of each chain arc, in two bytes. The solver needs it often: with a binary search instead, a solve took 1.4
//! to 1.7 times as long.
ghost use Rattle.std.specs.Prelude.{◌≡◌, ◌+◌, ◌^◌, ◌<◌, ◌≤◌, [], ◌∷◌, ◌++◌, length, get_or, map, sum_by, List, true};
ghost use Rattle.esr_base.specs.declared.limits.TheConstants.{MAX_ITEMS, MAX_TRANSACTIONS};
ghost use Rattle.esr_cert.specs.Views.{chain_view, problem_of};
ghost use Rattle.esr_cert.specs.Network.{arc_at, arcs_of_chain, network};
ghost use Rattle.esr_cert.specs.declared.network.Arc.{Arc};
ghost use Rattle.esr_cert.specs.Problem.{is_well_formed};
ghost use Rattle.esr_cert.specs.ChainStarts.{chain_starts_from, chain_by_arc_from};
ghost use Rattle.esr_cert.specs.ChainArcs.{HaveChainArcs};

use crate::chain_starts::chain_of_arc;
use crate::network::Arc;
use crate::problem::Chain;
use esr_base::TxnId;
use std::marker::Model;

/// Returns the tail of the `j`-th arc of a chain: the source if `j` is 0, else the writer with the index `j - 1`.
pub fn arc_tail(chain: &Chain, source: u32, j: usize) -> u32
    requires one_more_cost { length chain.now.costs.items ≡ length chain.now.writers.items + 1 }
    requires in_range { j < length chain.now.costs.items }
    ensures { result ≡ get_or (source ∷ chain.now.writers.items) j 0 }
{
    if j == 0 { source } else { chain.writers[j - 1] }
}

/// Returns the head of the `j`-th arc of a chain: the writer with the index `j`, or the sink (`source + 1`) after the last one.
pub fn arc_head(chain: &Chain, source: u32, j: usize) -> u32
    requires one_more_cost { length chain.now.costs.items ≡ length chain.now.writers.items + 1 }
    requires in_range { j < length chain.now.costs.items }
    requires source_within_max { source ≤ MAX_TRANSACTIONS }
    ensures { result ≡ get_or (chain.now.writers.items ++ (source + 1) ∷ []) j 0 }
{
    if j < chain.writers.len() {
        chain.writers[j]
    } else {
        source + 1
    }
}

/// Returns the `j`-th arc of a chain.
fn chain_arc_at(chain: &Chain, source: u32, j: usize) -> Arc
    requires one_more_cost { length chain.now.costs.items ≡ length chain.now.writers.items + 1 }
    requires in_range { j < length chain.now.costs.items }
    requires source_within_max { source ≤ MAX_TRANSACTIONS }
    ensures { result ≡ arc_at (arcs_of_chain source (chain_view chain.now)) j }
{
    Arc {
        from: arc_tail(chain, source, j),
        to: arc_head(chain, source, j),
        capacity: Some(chain.costs[j]),
    }
}

/// A view of a problem as the list of the arcs of its flow network. An arc is computed on request.
#[derive(Drop)]
pub struct Arcs<'a> {
    pub updates: &'a [TxnId],
    /// Precedence pairs of positions of updates: the first update precedes the second.
    pub before: &'a [(u32, u32)],
    pub chains: &'a [Chain],
    /// The positions of the mandatory updates.
    pub must: &'a [u32],
    pub chain_starts: &'a [u32],
    pub chain_by_arc: &'a [u16],
}

impl<'a> Model for Arcs<'a> {
    ghost Value = { List Arc };

    ghost view = { λ a. (network (problem_of a.updates.now a.before.now a.chains.now a.must.now)).arcs };

    ghost invariant = { λ a. (is_well_formed (problem_of a.updates.now a.before.now a.chains.now a.must.now) ≡ true)
        × (a.chain_starts.now ≡ chain_starts_from 0 (map chain_view a.chains.now))
        × (a.chain_by_arc.now ≡ chain_by_arc_from 0 (map chain_view a.chains.now)) };
}

impl<'a> Arcs<'a> {
    /// Returns the number of arcs.
    pub fn len(&self) -> usize
        ensures { result ≡ length self.now }
    {
        self.chain_starts[self.chains.len()] as usize + self.before.len() + self.must.len()
    }

    /// Returns the chains and the source. The arcs of the chains have the lowest numbers.
    pub fn chains(&self) -> (&'a [Chain], u32)
        ensures chain_arcs { HaveChainArcs self.now result.1 result.0.now }
        ensures source_within_max { result.1 ≤ MAX_TRANSACTIONS }
    {
        let source = self.updates.len() as u32;
        (self.chains, source)
    }

    /// Returns the arc with this number.
    pub fn at(&self, number: u32) -> Arc
        requires { number < length self.now }
        ensures { result ≡ arc_at self.now number }
    {
        let source = self.updates.len() as u32;
        let first_pair_arc = self.chain_starts[self.chains.len()];
        if number < first_pair_arc {
            let chain = chain_of_arc(self.chains, self.chain_starts, self.chain_by_arc, number);
            let j = number - self.chain_starts[chain];
            return chain_arc_at(&self.chains[chain], source, j as usize);
        }
        let i = (number - first_pair_arc) as usize;
        let (from, to) = if i < self.before.len() {
            // from the later update to the earlier one, with infinite capacity: in a finite cut, the source side is closed
            (self.before[i].1, self.before[i].0)
        } else {
            (source, self.must[i - self.before.len()])
        };
        Arc {
            from,
            to,
            capacity: None,
        }
    }
}

/// Returns the number of arcs of the chains.
fn chain_arc_count(chains: &[Chain]) -> u128
    requires { length chains.now ≤ MAX_ITEMS }
    ensures value { result ≡ sum_by (λ chain. length chain.costs) (map chain_view chains.now) }
    ensures small { result < 2 ^ 76 }
{
    let mut count: u128 = 0;
    for chain in chains {
        count += chain.costs.len() as u128;
    }
    count
}

/// Returns the number of arcs in the network of the problem with these parts.
pub fn arc_count(before: &[(u32, u32)], chains: &[Chain], must: &[u32]) -> u128
    requires { length chains.now ≤ MAX_ITEMS }
    ensures value { result
        ≡ sum_by (λ chain. length chain.costs) (map chain_view chains.now) + length before.now + length must.now }
    ensures small { result < 2 ^ 77 }
{
    chain_arc_count(chains) + before.len() as u128 + must.len() as u128
}
