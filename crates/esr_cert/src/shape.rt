//! The shape rules of a problem, over the numbers of an unchecked one (*draft*): lists ascend, each pair has its smaller position
//! first, and consecutive writers of a chain are a pair.
ghost use Rattle.std.specs.Prelude.{◌≡◌, map, nat_lt, true, IfOk};
ghost use Rattle.std.specs.List.{list_all};
ghost use Rattle.esr_cert.specs.Problem.{pair_lt, is_strictly_ascending, is_distinct, are_pairs_ascending, has_pair, are_linked, chain_has_shape, has_valid_shape};
ghost use Rattle.esr_cert.specs.ProblemDrafts.{drafted_chain, drafted_problem};

use crate::draft::{ChainDraft, ProblemDraft};
use std::alloc::{AllocError, Global};

/// Returns whether each number is below the next.
fn is_strictly_ascending(numbers: &[u64]) -> bool
    ensures { result ≡ is_strictly_ascending numbers.now }
{
    for i in 1..numbers.len() {
        if numbers[i] <= numbers[i - 1] {
            return false;
        }
    }
    true
}

/// Returns whether no number occurs twice.
fn is_distinct(alloc: Global, updates: &[u64]) -> Result<bool, AllocError>
    ensures { IfOk result (λ b. b ≡ is_distinct updates.now) }
{
    let mut numbers = updates.to_vec(alloc)?;
    numbers.sort_unstable();
    Ok(is_strictly_ascending(&numbers))
}

fn pair_lt(a: (u64, u64), b: (u64, u64)) -> bool
    ensures { result ≡ pair_lt a b }
{
    a.0 < b.0 || (a.0 == b.0 && a.1 < b.1)
}

/// Returns whether each pair is before the next in lexicographic order.
fn are_pairs_ascending(pairs: &[(u64, u64)]) -> bool
    ensures { result ≡ are_pairs_ascending pairs.now }
{
    for i in 1..pairs.len() {
        if !pair_lt(pairs[i - 1], pairs[i]) {
            return false;
        }
    }
    true
}

fn are_pairs_forward(pairs: &[(u64, u64)]) -> bool
    ensures { result ≡ list_all (λ e. nat_lt e.0 e.1) pairs.now }
{
    pairs.iter().all(|(u, v)| *u < *v)
}

fn are_items_ascending(chains: &[ChainDraft]) -> bool
    ensures { result ≡ is_strictly_ascending (map (λ chain. chain.item) (map drafted_chain chains.now)) }
{
    for i in 1..chains.len() {
        if chains[i].item <= chains[i - 1].item {
            return false;
        }
    }
    true
}

/// Returns whether an ascending list of pairs contains a pair.
fn has_pair(pairs: &[(u64, u64)], u: u64, v: u64) -> bool
    requires { are_pairs_ascending pairs.now ≡ true }
    ensures { result ≡ has_pair pairs.now u v }
{
    pairs.binary_search(&(u, v)).is_ok()
}

/// Returns whether each two consecutive writers are a pair of `before`.
fn are_linked(before: &[(u64, u64)], writers: &[u64]) -> bool
    requires { are_pairs_ascending before.now ≡ true }
    ensures { result ≡ are_linked before.now writers.now }
{
    for i in 1..writers.len() {
        if !has_pair(before, writers[i - 1], writers[i]) {
            return false;
        }
    }
    true
}

/// Returns whether a chain has one more cost than writers, and ascending writers that are linked by pairs.
fn chain_has_shape(before: &[(u64, u64)], chain: &ChainDraft) -> bool
    requires { are_pairs_ascending before.now ≡ true }
    ensures { result ≡ chain_has_shape before.now (drafted_chain chain.now) }
{
    if chain.costs.len() != chain.writers.len() + 1 {
        return false;
    }
    if !is_strictly_ascending(&chain.writers) {
        return false;
    }
    are_linked(before, &chain.writers)
}

/// Returns whether all chains have their shape.
fn chains_have_shape(before: &[(u64, u64)], chains: &[ChainDraft]) -> bool
    requires { are_pairs_ascending before.now ≡ true }
    ensures { result ≡ list_all (chain_has_shape before.now) (map drafted_chain chains.now) }
{
    for chain in chains {
        if !chain_has_shape(before, chain) {
            return false;
        }
    }
    true
}

/// Returns whether a draft satisfies the shape rules.
pub fn has_valid_shape(alloc: Global, draft: &ProblemDraft) -> Result<bool, AllocError>
    ensures { IfOk result (λ b. b ≡ has_valid_shape (drafted_problem draft.now)) }
{
    if !is_distinct(alloc, &draft.updates)? {
        return Ok(false);
    }
    if !are_pairs_ascending(&draft.before) {
        return Ok(false);
    }
    if !are_pairs_forward(&draft.before) {
        return Ok(false);
    }
    if !are_items_ascending(&draft.chains) {
        return Ok(false);
    }
    if !chains_have_shape(&draft.before, &draft.chains) {
        return Ok(false);
    }
    Ok(is_strictly_ascending(&draft.must))
}
