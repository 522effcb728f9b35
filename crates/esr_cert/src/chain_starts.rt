//! Computes the first arc of each chain, and the chain of an arc. A certificate has a list of amounts for each chain,
//! and the check finds an arc's amount by these numbers.
ghost use Rattle.std.specs.Prelude.{◌≡◌, ◌+◌, ◌<◌, ◌≤◌, ◌++◌, length, get_or, map, replicate, sum_by, IfOk};
ghost use Rattle.std.specs.List.Sorted.{IsNonDecreasingBy};
ghost use Rattle.esr_base.specs.declared.limits.TheConstants.{MAX_ITEMS};
ghost use Rattle.esr_cert.specs.ChainStarts.{chain_starts_from, chain_by_arc_from};
ghost use Rattle.esr_cert.specs.Views.{chain_view};

use crate::problem::Chain;
use std::alloc::{AllocError, Global};

/// Returns the number of the first arc of each chain, and of the first arc after them all.
pub fn chain_starts_of(alloc: Global, chains: &[Chain]) -> Result<Vec<u32>, AllocError>
    requires { sum_by (λ chain. length chain.costs.items) chains.now ≤ 4294967295 }
    ensures { IfOk result (λ chain_starts. chain_starts.items ≡ chain_starts_from 0 (map chain_view chains.now)) }
{
    let mut chain_starts = Vec::with_capacity(alloc, chains.len().saturating_add(1))?;
    let mut next = 0;
    for chain in chains {
        chain_starts.push(next)?;
        next += chain.costs.len() as u32;
    }
    chain_starts.push(next)?;
    Ok(chain_starts)
}

/// Returns the last of some rows that begins at or before a number.
pub fn row_at(chain_starts: &[u32], number: u32) -> usize
    requires some { 0 < length chain_starts.now }
    requires zero { get_or chain_starts.now 0 0 ≡ 0 }
    requires rising { IsNonDecreasingBy (λ n. n) chain_starts.now }
    ensures bound { result < length chain_starts.now }
    ensures begun { get_or chain_starts.now result 0 ≤ number }
    ensures last { result + 1 < length chain_starts.now → number < get_or chain_starts.now (result + 1) 0 }
{
    chain_starts.partition_point(|start| *start <= number) - 1
}

fn push_chain(chain_by_arc: &mut Vec<u16>, chain: u16, count: usize) -> Result<(), AllocError>
    ensures { IfOk result (λ _. chain_by_arc.new.items ≡ chain_by_arc.old.items ++ replicate count chain) }
{
    for _ in 0..count {
        chain_by_arc.push(chain)?;
    }
    Ok(())
}

/// Returns the chain of each arc of the chains, which have `count` arcs in total.
pub fn chain_by_arc_of(
    alloc: Global,
    chains: &[Chain],
    count: usize,
) -> Result<Vec<u16>, AllocError>
    requires { length chains.now ≤ MAX_ITEMS }
    ensures { IfOk result (λ chain_by_arc. chain_by_arc.items ≡ chain_by_arc_from 0 (map chain_view chains.now)) }
{
    let mut chain_by_arc = Vec::with_capacity(alloc, count)?;
    for (k, chain) in chains.iter().enumerate() {
        push_chain(&mut chain_by_arc, k as u16, chain.costs.len())?;
    }
    Ok(chain_by_arc)
}

/// Returns the chain of an arc of the chains, by the arc's number: the last that begins at or before the number.
pub fn chain_of_arc(_chains: &[Chain], _starts: &[u32], chain_by_arc: &[u16], number: u32) -> usize
    requires chain_starts { _starts.now ≡ chain_starts_from 0 (map chain_view _chains.now) }
    requires chain_by_arc { chain_by_arc.now ≡ chain_by_arc_from 0 (map chain_view _chains.now) }
    requires early { number < get_or _starts.now (length _chains.now) 0 }
    ensures bound { result < length _starts.now }
    ensures begun { get_or _starts.now result 0 ≤ number }
    ensures last { result + 1 < length _starts.now → number < get_or _starts.now (result + 1) 0 }
{
    usize::from(chain_by_arc[number as usize])
}
