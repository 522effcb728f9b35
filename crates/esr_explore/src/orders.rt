//! All orders.

ghost use Rattle.std.specs.Prelude.{◌≡◌, ℕ, List, ◌+◌, ◌<◌, ◌≤◌, ◌^◌, ◌==◌, ◌∷◌, [], ◌++◌, IfOk, IfNone, IfSome, OnOk, count_by, length, map, flat_map};
ghost use Rattle.std.specs.List.{Contains};
ghost use Rattle.esr_explore.specs.Orders.{AreMoreThan, IsOrder, first_turns, longer, longer_by, turns_of};

use std::alloc::{AllocError, Global};

/// The maximum number of orders that are made.
pub const MAX_ORDERS: usize = 100_000;

/// Returns how often a block occurs in an order.
fn turns_of(order: &[u8], block: u8) -> usize
    ensures { result ≡ turns_of block order.now }
{
    order.iter().filter(|b| **b == block).count()
}

/// Returns the order extended by one turn.
fn with_turn(alloc: Global, order: &[u8], block: u8) -> Result<Vec<u8>, AllocError>
    ensures { IfOk result (λ more. more.items ≡ order.now ++ block ∷ []) }
{
    let mut more = Vec::from_slice(alloc, order)?;
    more.push(block)?;
    Ok(more)
}

/// Appends the order with one more turn of a block, if that has a line left.
fn push_longer_by(
    alloc: Global,
    out: &mut Vec<Vec<u8>>,
    order: &[u8],
    counts: &[u32],
    block: usize,
) -> Result<(), AllocError>
    requires count_within_max { length counts.now ≤ 256 }
    requires number { block < length counts.now }
    ensures { OnOk result (map (λ o. o.items) out.new.items
        ≡ map (λ o. o.items) out.old.items ++ longer_by counts.now order.now block) }
{
    let turns = turns_of(order, block as u8);
    if turns >= counts[block] as usize {
        return Ok(());
    }
    let more = with_turn(alloc, order, block as u8)?;
    out.push(more)?;
    Ok(())
}

/// Appends the order with one more turn, of each block that has a line left.
fn push_longer(
    alloc: Global,
    out: &mut Vec<Vec<u8>>,
    order: &[u8],
    counts: &[u32],
) -> Result<(), AllocError>
    requires { length counts.now ≤ 256 }
    ensures { OnOk result (map (λ o. o.items) out.new.items
        ≡ map (λ o. o.items) out.old.items ++ longer counts.now order.now) }
{
    for block in 0..counts.len() {
        push_longer_by(alloc, out, order, counts, block)?;
    }
    Ok(())
}

/// Returns the orders extended by one turn each, in all ways.
fn next_orders(
    alloc: Global,
    orders: &[Vec<u8>],
    counts: &[u32],
) -> Result<Vec<Vec<u8>>, AllocError>
    requires { length counts.now ≤ 256 }
    ensures { IfOk result (λ next. map (λ o. o.items) next.items
        ≡ flat_map (longer counts.now) (map (λ o. o.items) orders.now)) }
{
    let mut next = Vec::new(alloc);
    for order in orders {
        push_longer(alloc, &mut next, order, counts)?;
    }
    Ok(next)
}

/// Returns the list with the empty order.
fn no_turns(alloc: Global) -> Result<Vec<Vec<u8>>, AllocError>
    ensures { IfOk result (λ orders. map (λ o. o.items) orders.items ≡ [] ∷ []) }
{
    let mut orders = Vec::new(alloc);
    orders.push(Vec::new(alloc))?;
    Ok(orders)
}

/// Returns all orders in which blocks with these numbers of lines take `turns` turns in all, in ascending order. Returns
/// `None` if the orders have more than 100,000 beginnings of some length.
pub fn all_orders(
    alloc: Global,
    counts: &[u32],
    turns: usize,
) -> Result<Option<Vec<Vec<u8>>>, AllocError>
    requires { length counts.now ≤ 256 }
    ensures are { IfOk result (λ found. IfSome found (λ orders.
        map (λ o. o.items) orders.items ≡ first_turns counts.now turns)) }
    ensures every { IfOk result (λ found. IfSome found (λ orders. (order : List ℕ) → IsOrder counts.now turns order
        → Contains (map (λ o. o.items) orders.items) order)) }
    ensures many { IfOk result (λ found. IfNone found (AreMoreThan counts.now turns MAX_ORDERS)) }
{
    let mut orders = no_turns(alloc)?;
    for _turn in 0..turns {
        orders = next_orders(alloc, &orders, counts)?;
        if orders.len() > MAX_ORDERS {
            return Ok(None);
        }
    }
    Ok(Some(orders))
}
