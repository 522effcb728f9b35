//! Scans the operations of updates from the last update to the first, and gathers the pairs of conflicting updates and
//! the chains.
//!
//! For each item the scan keeps the writers so far and the readers before the next of them. An operation is paired with
//! the next write of its item, and a write with the reads before that write. Two conflicting operations are in the log
//! in the commit order of their updates, so a scan by updates yields the pairs of the whole log. A backward scan yields
//! all pairs with the same first update together: only these are sorted, and at the end the list is reversed. A forward
//! scan would have to sort all pairs.
//!
//! Capacity is reserved once, by the counts of the search: when a thousand lists grew in turns, each growth left an
//! unused block in the heap. The counts do not affect the result.
ghost use Rattle.std.specs.Prelude.{◌≡◌, ◌<◌, ◌≤◌, ◌++◌, [], ℕ, List, IfOk, OnOk, All, AllPairs, filter, length, map};
ghost use Rattle.std.specs.List.{range_with_len};
ghost use Rattle.esr_base.specs.declared.limits.TheConstants.{MAX_TRANSACTIONS};
ghost use Rattle.esr_order.specs.UpdateOperations.{UpdateOperation};
ghost use Rattle.esr_order.specs.AccessRows.{AreRowsOf};
ghost use Rattle.esr_order.specs.Batches.{operation_at, update_operations};
ghost use Rattle.esr_order.specs.ConflictPairs.{IsLexLess};
ghost use Rattle.esr_order.specs.Conflicts.{on_item, AreConflicts, AreNextPaired};
ghost use Rattle.esr_order.specs.Chains.{chain_from, last_by_update, links_view};
ghost use Rattle.esr_order.specs.Later.{with_operation, readers_with, conflicts_of, batch_conflicts, SummarizeLater};

use crate::accesses::Access;
use crate::chains::{latest_writer, prepend_write, reverse_all};
use crate::conflicts::{push_conflicts, sort_and_dedup};
use crate::links::Links;
use crate::rows::AccessRows;
use esr_history::{History, TxnId};
use esr_items::Metric;
use std::alloc::{AllocError, Global};

/// Prepends an operation of the update at a position to the later ones of its item, given as the chain and the readers
/// before the next write. Adds the positions of the updates with which it conflicts.
fn prepend_operation(
    links: &mut Links,
    readers: &mut Vec<u32>,
    access: Access,
    position: u32,
    conflicts: &mut Vec<u32>,
) -> Result<(), AllocError>
    ensures chain { OnOk result (links_view links.new
        ≡ with_operation (links_view links.old) (operation_at position access)) }
    ensures readers { OnOk result (readers.new.items ≡ readers_with readers.old.items (operation_at position access)) }
    ensures conflicts { OnOk result (conflicts.new.items
        ≡ conflicts.old.items ++ conflicts_of (links_view links.old) readers.old.items (operation_at position access)) }
{
    if let Some(writer) = latest_writer(links) {
        conflicts.push(writer)?;
    }
    if access.writes {
        conflicts.append(readers)?;
        prepend_write(links, position, access.value)?;
    } else {
        readers.push(position)?;
    }
    Ok(())
}

/// Prepends the accesses of the update at a position to the later operations, given as the chain and the readers of
/// each item. Adds the positions of the updates with which it conflicts.
fn prepend_batch(
    chains: &mut [Links],
    readers: &mut [Vec<u32>],
    accesses: &[Access],
    position: u32,
    conflicts: &mut Vec<u32>,
) -> Result<(), AllocError>
    requires linked { All (λ a. a.item.0 < length chains.old) accesses.now }
    requires read { All (λ a. a.item.0 < length readers.old) accesses.now }
    ensures chains_len { OnOk result (length chains.new ≡ length chains.old) }
    ensures readers_len { OnOk result (length readers.new ≡ length readers.old) }
    ensures later { OnOk result ((operations : List UpdateOperation)
        → SummarizeLater (map links_view chains.old) (map (λ r. r.items) readers.old) operations
        → SummarizeLater (map links_view chains.new) (map (λ r. r.items) readers.new)
        (map (operation_at position) accesses.now ++ operations)) }
    ensures conflicts { OnOk result ((operations : List UpdateOperation)
        → SummarizeLater (map links_view chains.old) (map (λ r. r.items) readers.old) operations
        → conflicts.new.items ≡ conflicts.old.items ++ batch_conflicts (map (operation_at position) accesses.now) operations) }
{
    for i in (0..accesses.len()).rev() {
        let x = accesses[i].item.0 as usize;
        prepend_operation(
            &mut chains[x],
            &mut readers[x],
            accesses[i],
            position,
            conflicts,
        )?;
    }
    Ok(())
}

/// Returns an empty chain for each item, with the given capacity for writers, and an empty list of readers.
fn empty_scan(
    alloc: Global,
    items: u32,
    writers: &[u32],
) -> Result<(Vec<Links>, Vec<Vec<u32>>), AllocError>
    ensures chains_len { IfOk result (λ r. length r.0.items ≡ items) }
    ensures readers_len { IfOk result (λ r. length r.1.items ≡ items) }
    ensures later { IfOk result (λ r. SummarizeLater (map links_view r.0.items) (map (λ v. v.items) r.1.items) []) }
{
    let mut chains = Vec::with_capacity(alloc, items as usize)?;
    let mut readers = Vec::with_capacity(alloc, items as usize)?;
    for x in 0..items {
        let spare_capacity = writers.get(x as usize).copied().unwrap_or(0);
        let links = Links::with_capacity_for(alloc, spare_capacity as usize)?;
        chains.push(links)?;
        readers.push(Vec::new(alloc))?;
    }
    Ok((chains, readers))
}

/// Returns the sum of counts, for reserving capacity.
fn total_of(counts: &[u32]) -> usize {
    let mut total = 0usize;
    for count in counts {
        total = total.saturating_add(*count as usize);
    }
    total
}

/// Few pairs of updates that tie them, and the chains of their writes.
#[derive(Drop)]
pub struct PairsAndChains {
    pub pairs: Vec<(u32, u32)>,
    pub chains: Vec<Links>,
}

/// Scans updates backward: adds their accesses to the chains and the readers of each item, which are empty at first,
/// and collects the conflicting pairs. Finally reverses the pairs and the chains.
fn gather_into<M: Metric>(
    alloc: Global,
    history: &History<M>,
    rows: &AccessRows,
    updates: &[TxnId],
    chains: &mut [Links],
    readers: &mut [Vec<u32>],
    pairs: &mut Vec<(u32, u32)>,
) -> Result<(), AllocError>
    requires rows { AreRowsOf history.now.schedule.entries rows.now }
    requires count_within_max { length updates.now ≤ MAX_TRANSACTIONS }
    requires linked { length chains.old ≡ length history.now.schedule.opening }
    requires read { length readers.old ≡ length history.now.schedule.opening }
    requires later { SummarizeLater (map links_view chains.old) (map (λ r. r.items) readers.old) [] }
    requires none { pairs.old.items ≡ [] }
    ensures ascending { OnOk result (AllPairs IsLexLess pairs.new.items) }
    ensures conflicting { OnOk result (AreConflicts (update_operations history.now.schedule updates.now) pairs.new.items) }
    ensures successive_writers_paired { OnOk result ((x : ℕ) → AreNextPaired pairs.new.items
        (filter (λ s. s.writes) (on_item x (update_operations history.now.schedule updates.now)))) }
    ensures len { OnOk result (length chains.new ≡ length chains.old) }
    ensures chains { OnOk result (map links_view chains.new
        ≡ map (λ x. chain_from (last_by_update (update_operations history.now.schedule updates.now) x)
        (length updates.now))
        (range_with_len 0 (length history.now.schedule.opening))) }
{
    let _invariant = history.log(); // brings the invariant into the proof
    let mut list = Vec::new(alloc);
    let mut conflicts = Vec::new(alloc);
    for i in (0..updates.len()).rev() {
        let accesses = rows.accesses_of(history, updates[i], &mut list)?;
        conflicts.clear();
        prepend_batch(chains, readers, accesses, i as u32, &mut conflicts)?;
        sort_and_dedup(&mut conflicts);
        push_conflicts(pairs, i as u32, &conflicts)?;
    }
    pairs.reverse();
    reverse_all(chains);
    Ok(())
}

/// Gathers the pairs and chains of updates in one backward scan. `writers` has the capacities to reserve for the chains
/// of the items, or is empty.
pub fn pairs_and_chains<M: Metric>(
    alloc: Global,
    history: &History<M>,
    rows: &AccessRows,
    updates: &[TxnId],
    writers: &[u32],
) -> Result<PairsAndChains, AllocError>
    requires rows { AreRowsOf history.now.schedule.entries rows.now }
    requires count_within_max { length updates.now ≤ MAX_TRANSACTIONS }
    ensures ascending { IfOk result (λ g. AllPairs IsLexLess g.pairs.items) }
    ensures conflicting { IfOk result (λ g. AreConflicts (update_operations history.now.schedule updates.now) g.pairs.items) }
    ensures successive_writers_paired { IfOk result (λ g. (x : ℕ) → AreNextPaired g.pairs.items
        (filter (λ s. s.writes) (on_item x (update_operations history.now.schedule updates.now)))) }
    ensures chains { IfOk result (λ g. map links_view g.chains.items
        ≡ map (λ x. chain_from (last_by_update (update_operations history.now.schedule updates.now) x)
        (length updates.now))
        (range_with_len 0 (length history.now.schedule.opening))) }
{
    let _invariant = history.log(); // brings the invariant into the proof
    let (mut chains, mut readers) = empty_scan(alloc, history.items(), writers)?;
    // a write is mostly tied to the next of its item alone
    let mut pairs = Vec::with_capacity(alloc, total_of(writers))?;
    gather_into(
        alloc,
        history,
        rows,
        updates,
        &mut chains,
        &mut readers,
        &mut pairs,
    )?;
    // the list lives as long as the order, together with those of other workers
    pairs.shrink_to_fit();
    Ok(PairsAndChains { pairs, chains })
}
