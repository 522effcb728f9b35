//! A sparse set of conflicting pairs of updates, with the same closed sets as the whole conflict order: at most two
//! pairs for each operation, whereas the number of all conflicting pairs is quadratic in the writers of an item.
ghost use Rattle.std.specs.Prelude.{◌≡◌, ◌≤◌, ◌<◌, ◌++◌, ℕ, OnOk, AllPairs, Contains, length, reverse};
ghost use Rattle.esr_order.specs.Conflicts.{pair_of, pairs_from};

use std::alloc::AllocError;

/// Adds the pair of two positions, none of a position with itself.
fn conflict(pairs: &mut Vec<(u32, u32)>, i: u32, j: u32) -> Result<(), AllocError>
    ensures { OnOk result (pairs.new.items ≡ pairs.old.items ++ pair_of i j) }
{
    if i != j {
        pairs.push((i, j))?;
    }
    Ok(())
}

/// Adds the pairs of a position with others, from the last of these to the first.
pub fn push_conflicts(pairs: &mut Vec<(u32, u32)>, i: u32, others: &[u32]) -> Result<(), AllocError>
    ensures { OnOk result (pairs.new.items ≡ pairs.old.items ++ reverse (pairs_from i others.now)) }
{
    for k in (0..others.len()).rev() {
        conflict(pairs, i, others[k])?;
    }
    Ok(())
}

/// Puts positions in order, each once.
pub fn sort_and_dedup(positions: &mut Vec<u32>)
    ensures ascending { AllPairs (λ i j. i < j) positions.new.items }
    ensures keeps { (i : ℕ) → Contains positions.old.items i → Contains positions.new.items i }
    ensures adds_none { (i : ℕ) → Contains positions.new.items i → Contains positions.old.items i }
    ensures count_within_max { length positions.new.items ≤ length positions.old.items }
{
    positions.sort_unstable();
    positions.dedup();
}
