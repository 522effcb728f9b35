//! Equality of problems. Only one direction is proved, namely that problems reported as equal are equal, because only a
//! positive verdict depends on it.

ghost use Rattle.std.specs.Prelude.{◌≡◌, ◌↔◌, IsTrue, map};
ghost use Rattle.esr_cert.specs.Views.{chain_view};

use esr_cert::{Chain, Problem};
use esr_history::TxnId;

/// Returns whether two lists of updates are the same.
fn are_same_updates(a: &[TxnId], b: &[TxnId]) -> bool
    ensures { IsTrue result → map (λ t. t.0) a.now ≡ map (λ t. t.0) b.now }
{
    if a.len() != b.len() {
        return false;
    }
    for i in 0..a.len() {
        if a[i].0 != b[i].0 {
            return false;
        }
    }
    true
}

/// Returns whether two lists of pairs are the same.
fn are_same_pairs(a: &[(u32, u32)], b: &[(u32, u32)]) -> bool
    ensures { IsTrue result → a.now ≡ b.now }
{
    if a.len() != b.len() {
        return false;
    }
    for i in 0..a.len() {
        if a[i].0 != b[i].0 || a[i].1 != b[i].1 {
            return false;
        }
    }
    true
}

/// Returns whether two lists of numbers are the same.
fn are_same_numbers(a: &[u32], b: &[u32]) -> bool
    ensures { IsTrue result → a.now ≡ b.now }
{
    a == b
}

/// Returns whether two chains are the same.
fn is_same_chain(a: &Chain, b: &Chain) -> bool
    ensures { IsTrue result ↔ (chain_view a.now ≡ chain_view b.now) }
{
    a.item.0 == b.item.0
        && a.writers.as_slice() == b.writers.as_slice()
        && a.costs.as_slice() == b.costs.as_slice()
}

/// Returns whether two lists of chains are the same.
fn are_same_chains(a: &[Chain], b: &[Chain]) -> bool
    ensures { IsTrue result → map chain_view a.now ≡ map chain_view b.now }
{
    if a.len() != b.len() {
        return false;
    }
    for i in 0..a.len() {
        if !is_same_chain(&a[i], &b[i]) {
            return false;
        }
    }
    true
}

/// Returns whether two problems are the same.
pub fn is_same(a: &Problem, b: &Problem) -> bool
    ensures { IsTrue result → a.now ≡ b.now }
{
    if !are_same_updates(a.updates(), b.updates()) {
        return false;
    }
    if !are_same_pairs(a.before(), b.before()) {
        return false;
    }
    if !are_same_numbers(a.must(), b.must()) {
        return false;
    }
    are_same_chains(a.chains(), b.chains())
}
