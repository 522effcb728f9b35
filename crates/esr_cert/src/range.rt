//! The rules of range: how many there may be of each, and how large. They are those of a history, so that the bundle of
//! any query is in range.
ghost use Rattle.std.specs.Prelude.{◌≡◌, ◌&&◌, map, nat_lt, nat_le};
ghost use Rattle.std.specs.List.{list_all, sum_by};
ghost use Rattle.esr_cert.specs.Problem.{greatest, chain_is_in_range, is_in_range};
ghost use Rattle.esr_cert.specs.Views.{chain_view, problem_of_parts};

use crate::lists::are_below;
use crate::problem::{Chain, ProblemParts};
use esr_base::{MAX_ITEMS, MAX_READS, MAX_TRANSACTIONS, MAX_VALUE, MAX_WEIGHT, TxnId};

/// The largest sum of the greatest cost of each chain: each read of a query is off by at most twice the largest value,
/// weighed.
pub const MAX_COST: u128 = MAX_READS as u128 * 2 * MAX_VALUE as u128 * MAX_WEIGHT as u128;

fn is_update_in_range(number: u32) -> bool
    ensures { result ≡ (nat_lt 0 number && nat_le number MAX_TRANSACTIONS) }
{
    0 < number && number as usize <= MAX_TRANSACTIONS
}

fn are_updates_in_range(updates: &[TxnId]) -> bool
    ensures { result ≡ list_all (λ t. nat_lt 0 t && nat_le t MAX_TRANSACTIONS) (map (λ t. t.0) updates.now) }
{
    for update in updates {
        if !is_update_in_range(update.0) {
            return false;
        }
    }
    true
}

fn chain_is_in_range(chain: &Chain, n: usize) -> bool
    ensures { result ≡ chain_is_in_range n (chain_view chain.now) }
{
    if chain.item.0 as usize >= MAX_ITEMS {
        return false;
    }
    are_below(&chain.writers, n)
}

fn are_chains_in_range(chains: &[Chain], n: usize) -> bool
    ensures { result ≡ list_all (chain_is_in_range n) (map chain_view chains.now) }
{
    for chain in chains {
        if !chain_is_in_range(chain, n) {
            return false;
        }
    }
    true
}

fn are_pairs_in_range(pairs: &[(u32, u32)], n: usize) -> bool
    ensures { result ≡ list_all (λ e. nat_lt e.0 n && nat_lt e.1 n) pairs.now }
{
    pairs
        .iter()
        .all(|(u, v)| (*u as usize) < n && (*v as usize) < n)
}

fn greatest(costs: &[u64]) -> u64
    ensures { result ≡ greatest costs.now }
{
    let mut upper_bound = 0;
    for i in 0..costs.len() {
        if costs[i] > upper_bound {
            upper_bound = costs[i];
        }
    }
    upper_bound
}

fn greatest_costs(chains: &[Chain]) -> u128
    ensures { result ≡ sum_by (λ chain. greatest chain.costs) (map chain_view chains.now) }
{
    let mut sum: u128 = 0;
    for chain in chains {
        sum += u128::from(greatest(&chain.costs));
    }
    sum
}

/// Returns whether the rules of range are satisfied.
pub fn is_in_range(parts: &ProblemParts) -> bool
    ensures { result ≡ is_in_range (problem_of_parts parts.now) }
{
    let n = parts.updates.len();
    if !are_updates_in_range(&parts.updates) {
        return false;
    }
    if !are_chains_in_range(&parts.chains, n) {
        return false;
    }
    if !are_pairs_in_range(&parts.before, n) {
        return false;
    }
    if !are_below(&parts.must, n) {
        return false;
    }
    greatest_costs(&parts.chains) <= MAX_COST
}
