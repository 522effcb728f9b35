//! An order drawn from a seed: at each turn one of the remaining lines is chosen, with equal probability. The same
//! seed yields the same order on each machine.

ghost use Rattle.std.specs.Prelude.{◌≡◌, ◌<◌, ◌≤◌, IfNone, IfOk, IfSome, length, slice_index_or, sum};
ghost use Rattle.esr_explore.specs.Orders.{IsOrder};

use std::alloc::{AllocError, Global};

/// Numbers that are drawn one after another (splitmix64).
#[derive(Drop)]
struct Draws {
    state: u64,
}

impl Draws {
    fn next(&mut self) -> u64 {
        self.state = self.state.wrapping_add(0x9e37_79b9_7f4a_7c15);
        let first = (self.state ^ (self.state >> 30)).wrapping_mul(0xbf58_476d_1ce4_e5b9);
        let second = (first ^ (first >> 27)).wrapping_mul(0x94d0_49bb_1331_11eb);
        second ^ (second >> 31)
    }
}

/// Returns the block of the line with this number, among the lines that are left.
fn block_of(left: &[u32], line: u64) -> Option<usize>
    ensures block { IfSome result (λ block. (block < length left.now) × (0 < slice_index_or left.now block 0)) }
    ensures none { IfNone result (sum left.now ≤ line) }
{
    let mut line = line;
    for block in 0..left.len() {
        let lines = u64::from(left[block]);
        if line < lines {
            return Some(block);
        }
        line -= lines;
    }
    None
}

/// Returns the number of lines.
fn sum_of(counts: &[u32]) -> u64
    requires { length counts.now ≤ 256 }
    ensures { result ≡ sum counts.now }
{
    counts.iter().map(|count| u64::from(*count)).sum()
}

/// Returns the order that a seed draws. Each block occurs in it as often as it has lines.
pub fn draw_order(alloc: Global, counts: &[u32], seed: u64) -> Result<Vec<u8>, AllocError>
    requires { length counts.now ≤ 256 }
    ensures { IfOk result (λ order. IsOrder counts.now (sum counts.now) order.items) }
{
    let mut draws = Draws { state: seed };
    let mut left = Vec::from_slice(alloc, counts)?;
    let mut order = Vec::new(alloc);
    let turns = sum_of(counts);
    for turn in 0..turns {
        let line = draws.next() % (turns - turn);
        let Some(block) = block_of(&left, line) else {
            unreachable!()
        };
        left[block] -= 1;
        order.push(block as u8)?;
    }
    Ok(order)
}
