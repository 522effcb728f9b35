//! The script of a case: the history of a machine with the items that occur alone, written by `esr_dump`.

use crate::case::Operation;
use crate::play::{Numbers, play_one};
use esr_core::Machine;
use esr_dump::script;
use esr_history::{Event, History, TxnId};
use esr_items::{ItemId, Metric, Store, Weighted};
use esr_report::{Names, name_of_transaction};
use std::alloc::{AllocError, Global};

/// The items of a case, with their new numbers.
#[derive(Drop)]
struct Items {
    /// The new number of each item, by its number before, if it occurs.
    numbers: Vec<Option<u32>>,
    names: Names,
    values: Vec<i64>,
    weights: Vec<u32>,
}

/// Binds a name, unless it is bound already.
fn bind(names: &mut Names, name: &str) -> Result<(), AllocError> {
    if names.len() < 1_000_000 && names.number_of(name).is_none() {
        names.bind(name)?;
    }
    Ok(())
}

/// Returns whether each item occurs in a case.
fn used_in(alloc: Global, case: &[Operation], items: u32) -> Result<Vec<bool>, AllocError> {
    let mut used = vec![in alloc; false; items as usize]?;
    for operation in case {
        if let Some(item) = operation.item()
            && let Some(mark) = used.get_mut(item.0 as usize)
        {
            *mark = true;
        }
    }
    Ok(used)
}

impl Items {
    fn new(alloc: Global) -> Items {
        Items {
            numbers: Vec::new(alloc),
            names: Names::new(alloc),
            values: Vec::new(alloc),
            weights: Vec::new(alloc),
        }
    }

    /// Adds an item, or leaves it out if it does not occur.
    fn add(
        &mut self,
        history: &History<Weighted>,
        names: &Names,
        item: ItemId,
        is_used: bool,
    ) -> Result<(), AllocError> {
        if !is_used || item.0 >= history.items() {
            self.numbers.push(None)?;
            return Ok(());
        }
        let number = self.values.len().min(1_000_000) as u32;
        self.numbers.push(Some(number))?;
        bind(&mut self.names, names.name_of(item.0).unwrap_or(""))?;
        self.values.push(history.opening(item))?;
        let weight = history.metric().distance(item, 0, 1);
        self.weights.push(weight.min(1_000_000) as u32)?;
        Ok(())
    }

    /// Returns an operation with the new number of its item.
    fn renumbered(&self, operation: Operation) -> Operation {
        let txn = operation.txn;
        let event = match operation.event {
            Event::Read { txn, item } => Event::Read {
                txn,
                item: self.of(item),
            },
            Event::Write { txn, item, value } => Event::Write {
                txn,
                item: self.of(item),
                value,
            },
            other => other,
        };
        Operation { txn, event }
    }

    /// Returns the new number of an item.
    fn of(&self, item: ItemId) -> ItemId {
        let number = self.numbers.get(item.0 as usize).copied().flatten();
        ItemId(number.unwrap_or(u32::MAX))
    }
}

/// Returns the items of a case.
fn items_of(
    alloc: Global,
    history: &History<Weighted>,
    names: &Names,
    case: &[Operation],
) -> Result<Items, AllocError> {
    let used = used_in(alloc, case, history.items())?;
    let mut items = Items::new(alloc);
    let mut number = 0u32;
    for is_used in &used {
        items.add(history, names, ItemId(number), *is_used)?;
        number = number.saturating_add(1);
    }
    Ok(items)
}

/// Returns a machine with these items. None is returned if they are not those of a history, which does not happen.
fn machine_of(alloc: Global, items: &Items) -> Result<Option<Machine<Weighted>>, AllocError> {
    let values = items.values.to_vec(alloc)?;
    let weights = items.weights.to_vec(alloc)?;
    let (Ok(store), Ok(metric)) = (Store::new(alloc, values), Weighted::new(weights)) else {
        return Ok(None);
    };
    match Machine::new(alloc, store, metric) {
        Ok(machine) => Ok(Some(machine)),
        Err(_) => Err(AllocError),
    }
}

/// Returns whether an operation begins a transaction.
fn is_begin(event: Event) -> bool {
    matches!(event, Event::BeginUpdate { .. } | Event::BeginQuery { .. })
}

/// Returns the names of the transactions of a case, in the order of their begins.
fn transactions_of(alloc: Global, names: &Names, case: &[Operation]) -> Result<Names, AllocError> {
    let mut kept = Names::new(alloc);
    for operation in case {
        if is_begin(operation.event) {
            bind(&mut kept, name_of_transaction(names, operation.txn))?;
        }
    }
    Ok(kept)
}

/// Returns the numbers of the transactions of a case are below this.
fn count_of(case: &[Operation]) -> usize {
    let mut count = 0usize;
    for operation in case {
        let TxnId(number) = operation.txn;
        count = count.max((number as usize).saturating_add(1));
    }
    count
}

/// Plays a case with these items.
fn play(
    alloc: Global,
    machine: &mut Machine<Weighted>,
    items: &Items,
    case: &[Operation],
) -> Result<(), AllocError> {
    let mut numbers = Numbers::new(alloc, count_of(case))?;
    for operation in case {
        play_one(machine, &mut numbers, items.renumbered(*operation))?;
    }
    Ok(())
}

/// Returns the script of a case after its operations on an empty machine.
fn script_on(
    alloc: Global,
    machine: &mut Machine<Weighted>,
    items: &Items,
    transactions: &Names,
    case: &[Operation],
) -> Result<Option<Vec<u8>>, AllocError> {
    play(alloc, machine, items, case)?;
    let names = transactions_of(alloc, transactions, case)?;
    let text = script(alloc, &items.names, &names, machine.history())?;
    Ok(Some(text))
}

/// Returns the script of a case over these items.
fn script_over(
    alloc: Global,
    items: &Items,
    transactions: &Names,
    case: &[Operation],
) -> Result<Option<Vec<u8>>, AllocError> {
    match machine_of(alloc, items)? {
        Some(mut machine) => script_on(alloc, &mut machine, items, transactions, case),
        None => Ok(None),
    }
}

/// Returns the script of a case.
pub fn script_of(
    alloc: Global,
    history: &History<Weighted>,
    items: &Names,
    transactions: &Names,
    case: &[Operation],
) -> Result<Option<Vec<u8>>, AllocError> {
    let used = items_of(alloc, history, items, case)?;
    script_over(alloc, &used, transactions, case)
}
