//! Checks the shape of parts, as numbers of any size, for `Problem::new`.
ghost use Rattle.std.specs.Prelude.{◌≡◌, map, IfOk};
ghost use Rattle.esr_cert.specs.Problem.{has_valid_shape};
ghost use Rattle.esr_cert.specs.Views.{chain_view, problem_of_parts};
ghost use Rattle.esr_cert.specs.ProblemDrafts.{drafted_chain, drafted_problem};

use crate::draft::{ChainDraft, ProblemDraft};
use crate::problem::{Chain, ProblemParts};
use crate::shape::has_valid_shape;
use esr_base::TxnId;
use std::alloc::{AllocError, Global};

fn numbers_of(alloc: Global, updates: &[TxnId]) -> Result<Vec<u64>, AllocError>
    ensures { IfOk result (λ v. v.items ≡ map (λ t. t.0) updates.now) }
{
    updates.iter().map(|t| u64::from(t.0)).collect(alloc)
}

fn wide(alloc: Global, positions: &[u32]) -> Result<Vec<u64>, AllocError>
    ensures { IfOk result (λ v. v.items ≡ positions.now) }
{
    let mut numbers = Vec::with_capacity(alloc, positions.len())?;
    for n in positions {
        numbers.push(u64::from(*n))?;
    }
    Ok(numbers)
}

fn wide_pairs(alloc: Global, pairs: &[(u32, u32)]) -> Result<Vec<(u64, u64)>, AllocError>
    ensures { IfOk result (λ v. v.items ≡ pairs.now) }
{
    let mut numbers = Vec::with_capacity(alloc, pairs.len())?;
    for (u, v) in pairs {
        numbers.push((u64::from(*u), u64::from(*v)))?;
    }
    Ok(numbers)
}

fn chain_draft(alloc: Global, chain: &Chain) -> Result<ChainDraft, AllocError>
    ensures { IfOk result (λ d. drafted_chain d ≡ chain_view chain.now) }
{
    let writers = wide(alloc, &chain.writers)?;
    let costs = chain.costs.to_vec(alloc)?;
    Ok(ChainDraft {
        item: u64::from(chain.item.0),
        writers,
        costs,
    })
}

fn chain_drafts(alloc: Global, chains: &[Chain]) -> Result<Vec<ChainDraft>, AllocError>
    ensures { IfOk result (λ v. map drafted_chain v.items ≡ map chain_view chains.now) }
{
    let mut drafts = Vec::new(alloc);
    for chain in chains {
        drafts.push(chain_draft(alloc, chain)?)?;
    }
    Ok(drafts)
}

/// Returns the numbers of parts.
fn draft_of(alloc: Global, parts: &ProblemParts) -> Result<ProblemDraft, AllocError>
    ensures { IfOk result (λ d. drafted_problem d ≡ problem_of_parts parts.now) }
{
    Ok(ProblemDraft {
        updates: numbers_of(alloc, &parts.updates)?,
        before: wide_pairs(alloc, &parts.before)?,
        chains: chain_drafts(alloc, &parts.chains)?,
        must: wide(alloc, &parts.must)?,
    })
}

/// Returns whether parts satisfy the rules of shape.
pub fn have_valid_shape(alloc: Global, parts: &ProblemParts) -> Result<bool, AllocError>
    ensures { IfOk result (λ b. b ≡ has_valid_shape (problem_of_parts parts.now)) }
{
    let draft = draft_of(alloc, parts)?;
    has_valid_shape(alloc, &draft)
}
