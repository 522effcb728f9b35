//! The charges to a query, from a replay of the history (`esr_replay`).
//!
//! A history stores for each query only the sum of its imports. The replay returns what the query imported by each
//! entry; its machine knows the writer of the item and the update's export. A charge of 0 has no line, since it does
//! not contribute to the sums. A charge is named by its entry and not by its line: the history has no lines.
ghost use Rattle.std.specs.Prelude.{◌≡◌, [], ◌<◌, ◌+◌, ◌++◌, IfOk, OnOk, flat_map, slice_get, length};
ghost use Rattle.std.specs.List.{cons_option};
ghost use Rattle.esr_history.specs.Events.{limit_of};
ghost use Rattle.esr_history.specs.Machine.{accepted_in};
ghost use Rattle.esr_items.specs.Weights.{weighted};
ghost use Rattle.esr_explain.specs.Explain.{charge_at, charge_line, charges, conflict, name_of_item, named_charge_line, charge_keyword};

use esr_core::Machine;
use esr_history::{Event, History, NoMemory, TxnId};
use esr_items::{ItemId, Weighted};
use esr_replay::{MetricRef, Replay, imported};
use esr_report::{Names, name_of_transaction, push_line};
use std::alloc::{AllocError, Global};

/// The operations that charge a query: its own reads, and writes of items that it has read.
#[derive(Clone, Copy)]
pub enum OperationKind {
    Read,
    Write,
}

/// An operation on an item, and the update that it meets there.
#[derive(Clone, Copy)]
pub struct Conflict {
    pub operation: OperationKind,
    pub update: TxnId,
    pub item: ItemId,
}

/// The charge to a query by an entry of the history, and the remaining limits of the query and the update after it.
#[derive(Clone, Copy)]
pub struct Charge {
    pub amount: u64,
    pub step: u64,
    pub conflict: Conflict,
    pub import_left: u64,
    pub import_limit: u64,
    pub export_left: u64,
    pub export_limit: u64,
}

/// Returns the name of an item.
pub fn name_of_item(items: &Names, x: ItemId) -> &str
    ensures { result.now ≡ name_of_item items.now x.0 }
{
    match items.name_of(x.0) {
        Some(name) => name,
        None => "",
    }
}

/// Returns the first words of the line of a charge.
fn charge_keyword(operation: OperationKind) -> &'static str
    ensures { result.now ≡ charge_keyword operation }
{
    match operation {
        OperationKind::Read => "charge read",
        OperationKind::Write => "charge write",
    }
}

/// Returns the limit of a transaction.
fn limit(history: &History<Weighted>, t: TxnId) -> u64
    ensures { result ≡ limit_of (accepted_in history.now.schedule) t.0 }
{
    match history.facts(t) {
        Some(facts) => facts.limit,
        None => 0,
    }
}

/// Appends the line of a charge, with these texts for the operation, the update and the item.
fn named_charge_line(
    out: &mut Vec<u8>,
    charge_keyword: &str,
    update: &str,
    item: &str,
    charge: Charge,
) -> Result<(), AllocError>
    ensures { OnOk result (out.new.items ≡ out.old.items ++ named_charge_line charge_keyword.now update.now item.now charge) }
{
    let mut amount = itoa::Buffer::new();
    let mut step = itoa::Buffer::new();
    let mut import_left = itoa::Buffer::new();
    let mut import_limit = itoa::Buffer::new();
    let mut export_left = itoa::Buffer::new();
    let mut export_limit = itoa::Buffer::new();
    push_line(
        out,
        charge_keyword,
        &[
            update,
            item,
            "amount",
            amount.format(charge.amount),
            "step",
            step.format(charge.step),
            "import left",
            import_left.format(charge.import_left),
            "of",
            import_limit.format(charge.import_limit),
            "export left",
            export_left.format(charge.export_left),
            "of",
            export_limit.format(charge.export_limit),
        ],
    )
}

/// Appends the line of a charge.
fn charge_line(
    out: &mut Vec<u8>,
    items: &Names,
    transactions: &Names,
    charge: Charge,
) -> Result<(), AllocError>
    ensures { OnOk result (out.new.items ≡ out.old.items ++ charge_line items.now transactions.now charge) }
{
    let update = name_of_transaction(transactions, charge.conflict.update);
    let item = name_of_item(items, charge.conflict.item);
    named_charge_line(
        out,
        charge_keyword(charge.conflict.operation),
        update,
        item,
        charge,
    )
}

/// Returns the update that an event meets, if a machine is about to execute it.
fn conflict_of(machine: &Machine<MetricRef<'_, Weighted>>, event: Event) -> Option<Conflict>
    ensures { result ≡ conflict machine.now event }
{
    match event {
        Event::Read { txn: _, item } => {
            if item.0 >= machine.history().items() {
                return None;
            }
            match machine.writer(item) {
                Some(update) => Some(Conflict {
                    operation: OperationKind::Read,
                    update,
                    item,
                }),
                None => None,
            }
        }
        Event::Write {
            txn,
            item,
            value: _,
        } => Some(Conflict {
            operation: OperationKind::Write,
            update: txn,
            item,
        }),
        _ => None,
    }
}

/// Executes the next entry of a history. Returns the charge to a query, if it was charged by that.
fn next_charge(
    history: &History<Weighted>,
    replay: &mut Replay<'_, Weighted>,
    q: TxnId,
) -> Result<Option<Charge>, NoMemory>
    requires within { replay.old.count < length replay.old.history.entries }
    requires history { replay.old.history ≡ history.now.schedule }
    ensures history { replay.new.history ≡ replay.old.history }
    ensures count { OnOk result (replay.new.count ≡ replay.old.count + 1) }
    ensures charge { IfOk result (λ c. c ≡ charge_at weighted replay.old.history q.0 replay.old.count
        (slice_get replay.old.history.entries replay.old.count)) }
{
    let Some(entry) = replay.next() else {
        unreachable!()
    };
    let met = conflict_of(replay.machine(), entry.event);
    replay.step()?;
    let amount = imported(replay.imports(), q);
    let Some(conflict) = met else {
        return Ok(None);
    };
    if amount == 0 {
        return Ok(None);
    }
    let machine = replay.machine();
    let import_limit = limit(history, q);
    let export_limit = limit(history, conflict.update);
    Ok(Some(Charge {
        amount,
        step: machine.log().len() as u64,
        conflict,
        import_left: import_limit.saturating_sub(machine.history().import(q)),
        import_limit,
        export_left: export_limit.saturating_sub(machine.export(conflict.update)),
        export_limit,
    }))
}

/// Appends a charge, if there is one.
fn push_if(charges: &mut Vec<Charge>, charge: Option<Charge>) -> Result<(), AllocError>
    ensures { OnOk result (charges.new.items ≡ charges.old.items ++ cons_option charge []) }
{
    if let Some(charge) = charge {
        charges.push(charge)?;
    }
    Ok(())
}

/// Returns all charges to a query, in the order of their entries.
pub fn charges_of(
    alloc: Global,
    history: &History<Weighted>,
    q: TxnId,
) -> Result<Vec<Charge>, NoMemory>
    ensures { IfOk result (λ v. v.items ≡ charges weighted history.now.schedule q.0) }
{
    let mut charges = Vec::new(alloc);
    let mut replay = Replay::new(alloc, history)?;
    for _ in 0..history.log().len() {
        let charge = next_charge(history, &mut replay, q)?;
        push_if(&mut charges, charge)?;
    }
    Ok(charges)
}

/// Appends the lines of some charges.
pub fn push_charges(
    out: &mut Vec<u8>,
    items: &Names,
    transactions: &Names,
    charges: &[Charge],
) -> Result<(), AllocError>
    ensures { OnOk result (out.new.items ≡ out.old.items
        ++ flat_map (charge_line items.now transactions.now) charges.now) }
{
    for charge in charges {
        charge_line(out, items, transactions, *charge)?;
    }
    Ok(())
}
