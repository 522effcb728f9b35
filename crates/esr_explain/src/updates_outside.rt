//! The updates of a query that are not before its nearest placement: all others that committed before it. The audit
//! itself looks at fewer, those that matter; but which those are is a relation and no list that a definition computes,
//! and a line of them would be one more promise on how the audit works.
ghost use Rattle.std.specs.Prelude.{◌≡◌, ℕ, not, IfOk, map, filter};
ghost use Rattle.std.specs.List.Sorted.{IsNonDecreasing};
ghost use Rattle.esr_order.specs.Placements.{is_among};
ghost use Rattle.esr_explain.specs.Explain.{updates_outside};

use esr_history::{History, TxnId};
use esr_items::Weighted;
use esr_order::{committed, updates_before};
use std::alloc::{AllocError, Global};

/// Returns the numbers of some updates.
fn numbers_of(alloc: Global, updates: &[TxnId]) -> Result<Vec<u32>, AllocError>
    ensures { IfOk result (λ v. v.items ≡ map (λ t. t.0) updates.now) }
{
    updates.iter().map(|t| t.0).collect(alloc)
}

/// Returns the numbers of some updates, ascending.
fn sorted_numbers(alloc: Global, updates: &[TxnId]) -> Result<Vec<u32>, AllocError>
    ensures sorted { IfOk result (λ v. IsNonDecreasing v.items) }
    ensures same { IfOk result (λ v. (u : ℕ) → is_among v.items u ≡ is_among (map (λ t. t.0) updates.now) u) }
{
    let mut numbers = numbers_of(alloc, updates)?;
    numbers.sort_unstable();
    Ok(numbers)
}

/// Returns whether ascending numbers contain that of the update.
#[tactic(auto, using(crate::proofs::Amongst::found_among))]
fn is_among(numbers: &[u32], t: TxnId) -> bool
    requires { IsNonDecreasing numbers.now }
    ensures { result ≡ is_among numbers.now t.0 }
{
    numbers.binary_search(&t.0).is_ok()
}

/// Returns the updates whose numbers are not among these.
#[tactic(auto, using(std::proofs::lemmas::List::take_all))]
fn without(alloc: Global, updates: &[TxnId], numbers: &[u32]) -> Result<Vec<TxnId>, AllocError>
    requires { IsNonDecreasing numbers.now }
    ensures { IfOk result (λ v. v.items ≡ filter (λ t. not (is_among numbers.now t.0)) updates.now) }
{
    let mut kept = Vec::new(alloc);
    for t in updates {
        if !is_among(numbers, *t) {
            kept.push(*t)?;
        }
    }
    Ok(kept)
}

/// Returns the updates that committed before the query did, except these.
pub fn updates_outside(
    alloc: Global,
    history: &History<Weighted>,
    q: TxnId,
    before: &[TxnId],
) -> Result<Vec<TxnId>, AllocError>
    ensures { IfOk result (λ v. map (λ t. t.0) v.items ≡ updates_outside history.now.schedule q.0 (map (λ t. t.0) before.now)) }
{
    let committed = committed(alloc, history)?;
    let updates = updates_before(alloc, history, &committed, q)?;
    let numbers = sorted_numbers(alloc, before)?;
    without(alloc, &updates, &numbers)
}
