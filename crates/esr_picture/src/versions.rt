//! The values of the versions of an item: its opening value, and then what each of its writers wrote last, found along
//! the item's entries in the log.

use esr_cert::Chain;
use esr_history::{Event, History, TxnId};
use esr_items::{ItemId, Weighted};
use esr_trace::Positions;
use std::alloc::{AllocError, Global};

/// Returns the opening value of an item.
fn opening(history: &History<Weighted>, item: ItemId) -> i64 {
    if item.0 < history.items() {
        history.opening(item)
    } else {
        0
    }
}

/// Returns the writer and the value of the entry at an index, if it is an accepted write.
fn write_at(history: &History<Weighted>, index: u64) -> Option<(TxnId, i64)> {
    let entry = history.log().get(index as usize)?;
    match entry.event {
        Event::Write { txn, value, .. } if !entry.is_refused() => Some((txn, value)),
        _ => None,
    }
}

/// The values of the versions of an item, with those that are found already.
#[derive(Drop)]
struct Versions {
    values: Vec<Option<i64>>,
}

impl Versions {
    /// Notes a write, unless a later write of the same update is known.
    fn note(&mut self, chain: &Chain, position: u32, value: i64) {
        if let Ok(writer) = chain.writers.binary_search(&position)
            && let Some(place) = self.values.get_mut(writer.saturating_add(1))
            && place.is_none()
        {
            *place = Some(value);
        }
    }
}

/// Returns the values of the versions of a chain.
pub fn versions_of(
    alloc: Global,
    history: &History<Weighted>,
    chain: &Chain,
    positions: &Positions,
) -> Result<Vec<i64>, AllocError> {
    let mut versions = Versions {
        values: vec![in alloc; None; chain.writers.len().saturating_add(1)]?,
    };
    let mut next = history.last_on_item(chain.item);
    for _ in 0..history.log().len() {
        let Some(index) = next else {
            break;
        };
        if let Some((writer, value)) = write_at(history, index)
            && let Some(position) = positions.of(writer)
        {
            versions.note(chain, position, value);
        }
        next = history.earlier_on_item(index);
    }
    let opening = opening(history, chain.item);
    versions
        .values
        .iter()
        .map(|value| value.unwrap_or(opening))
        .collect(alloc)
}

/// Returns whether any transaction wrote an item, whatever became of it.
fn is_written(history: &History<Weighted>, item: ItemId) -> bool {
    let mut next = history.last_on_item(item);
    for _ in 0..history.log().len() {
        let Some(index) = next else {
            return false;
        };
        if write_at(history, index).is_some() {
            return true;
        }
        next = history.earlier_on_item(index);
    }
    false
}

/// Returns for each chain whether its item was never written. A picture with nothing else shows these too, so the list is
/// then empty, and also if there is only one.
pub fn unwritten(
    alloc: Global,
    history: &History<Weighted>,
    chains: &[Chain],
) -> Result<Vec<bool>, AllocError> {
    let mut unwritten = Vec::new(alloc);
    for chain in chains {
        unwritten.push(chain.writers.is_empty() && !is_written(history, chain.item))?;
    }
    let count = unwritten.iter().filter(|is| **is).count();
    if count < 2 || count == chains.len() {
        unwritten.clear();
    }
    Ok(unwritten)
}
