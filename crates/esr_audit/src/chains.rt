//! The chains of a query's problem: for each item that the query read, the writers in commit order, and the cost of the
//! query's reads before the first writer and after each of them.
//!
//! Writers are moved from the order into the chain, and the written values are freed as soon as their distances have been
//! summed, so that the costs of the next item can reuse their memory.
ghost use Rattle.std.specs.Prelude.{◌≡◌, ◌<◌, ◌≤◌, [], ◌∷◌, ◌++◌, ℕ, length, map, All, IfOk, OnOk, option_map};
ghost use Rattle.esr_items.specs.Values.{IsValue};
ghost use Rattle.esr_base.specs.declared.limits.TheConstants.{MAX_READS};
ghost use Rattle.esr_order.specs.Orders.{chain_at};
ghost use Rattle.esr_cert.specs.Views.{chain_view};
ghost use Rattle.esr_order.specs.Chains.{links_view, writers_in};
ghost use Rattle.esr_audit.specs.Reads.{values_of, list_at, distance_sum, version_values, chain_of_item, audit_chain_by, items_in};

use crate::reads::ItemRead;
use esr_cert::Chain;
use esr_history::History;
use esr_items::{ItemId, Metric};
use esr_order::{Links, Order, distance_to, empty_lists};
use std::alloc::{AllocError, Global};

/// Appends a value that was read to the list of its item, if there is one.
fn put_value(lists: &mut Vec<Vec<i64>>, read: ItemRead) -> Result<(), AllocError>
    ensures list_count { OnOk result (length lists.new.items ≡ length lists.old.items) }
    ensures values { OnOk result ((x : ℕ) → x < length lists.old.items
        → list_at lists.new.items x ≡ list_at lists.old.items x ++ values_of (read ∷ []) x) }
{
    let x = read.item as usize;
    if x < lists.len() {
        lists[x].push(read.value)?;
    }
    Ok(())
}

/// Returns the values that were read of each item. Scanning all reads for one item after another would take quadratic
/// time.
fn values_by_item(
    alloc: Global,
    reads: &[ItemRead],
    items: u32,
) -> Result<Vec<Vec<i64>>, AllocError>
    ensures list_count { IfOk result (λ lists. length lists.items ≡ items) }
    ensures values { IfOk result (λ lists. (x : ℕ) → x < items → list_at lists.items x ≡ values_of reads.now x) }
{
    let mut lists = empty_lists(alloc, items)?;
    for read in reads {
        put_value(&mut lists, *read)?;
    }
    Ok(lists)
}

/// Returns the cost of each version: of the opening value, and of the value that each writer left.
fn costs_of<M: Metric>(
    alloc: Global,
    metric: &M,
    x: ItemId,
    values: &[i64],
    opening: i64,
    versions: &[i64],
) -> Result<Vec<u64>, AllocError>
    requires count_within_max { length values.now ≤ MAX_READS }
    requires values_in_range { All IsValue values.now }
    requires opening_in_range { IsValue opening }
    requires versions_in_range { All IsValue versions.now }
    ensures { IfOk result (λ v. v.items ≡ map (distance_sum (M.distance_by (M.weights metric.now)) x.0 values.now)
        (opening ∷ versions.now)) }
{
    let mut costs = Vec::with_capacity(alloc, versions.len().saturating_add(1))?;
    costs.push(distance_to(metric, x, values, opening))?;
    for version in versions {
        costs.push(distance_to(metric, x, values, *version))?;
    }
    Ok(costs)
}

/// Returns the writers and the values of a chain, or empty lists if there is none.
fn writers_and_values(alloc: Global, links: Option<Links>) -> (Vec<u32>, Vec<i64>)
    ensures writers { result.0.items ≡ writers_in (option_map links_view links) }
    ensures values { result.1.items ≡ version_values (option_map links_view links) }
{
    match links {
        None => (Vec::new(alloc), Vec::new(alloc)),
        Some(
            Links {
                writers,
                values,
                ..
            },
        ) => (writers, values),
    }
}

/// Returns the chain of an item, given its writers with the values that they left, and the values that were read of it.
fn chain_of<M: Metric>(
    alloc: Global,
    history: &History<M>,
    links: Option<Links>,
    values: &[i64],
    x: ItemId,
) -> Result<Chain, AllocError>
    requires item_exists { x.0 < length history.now.schedule.opening }
    requires count_within_max { length values.now ≤ MAX_READS }
    requires values_in_range { All IsValue values.now }
    requires versions_in_range { All IsValue (version_values (option_map links_view links)) }
    ensures { IfOk result (λ c. chain_view c ≡ audit_chain_by (M.distance_by history.now.schedule.weights)
        history.now.schedule.opening (option_map links_view links) values.now x.0) }
{
    let (writers, versions) = writers_and_values(alloc, links);
    let costs = costs_of(
        alloc,
        history.metric(),
        x,
        values,
        history.opening(x),
        &versions,
    )?;
    Ok(Chain {
        item: x,
        writers,
        costs,
    })
}

/// Takes the chains of the items that were read out of the order, ascending by item.
pub fn take_chains<M: Metric>(
    alloc: Global,
    history: &History<M>,
    order: &mut Order,
    reads: &[ItemRead],
) -> Result<Vec<Chain>, AllocError>
    requires count_within_max { length reads.now ≤ MAX_READS }
    requires reads_in_range { All (λ r. IsValue r.value) reads.now }
    requires versions_in_range { (x : ℕ) → All IsValue (version_values (chain_at order.old x)) }
    ensures chains { IfOk result (λ v. map chain_view v.items
        ≡ map
        (chain_of_item (M.distance_by history.now.schedule.weights) history.now.schedule.opening order.old reads.now)
        (items_in reads.now (length history.now.schedule.opening))) }
    ensures commits_unchanged { order.new.commits ≡ order.old.commits }
    ensures before_unchanged { order.new.before ≡ order.old.before }
    ensures must_unchanged { order.new.must ≡ order.old.must }
{
    let lists = values_by_item(alloc, reads, history.items())?;
    let mut chains = Vec::new(alloc);
    for x in 0..history.items() {
        let values = &lists[x as usize];
        if !values.is_empty() {
            let links = order.take_chain(alloc, ItemId(x));
            chains.push(chain_of(alloc, history, links, values, ItemId(x))?)?;
        }
    }
    Ok(chains)
}
