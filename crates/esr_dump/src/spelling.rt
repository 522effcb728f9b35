//! The script of a history: its items, and the entries that were accepted or blocked, each as the line that requests
//! it.

ghost use Rattle.std.specs.Prelude.{◌≡◌, ◌<◌, ◌++◌, ◌∷◌, IfOk, OnOk, length, flat_map, take};
ghost use Rattle.esr_items.specs.Weights.{weight_of};
ghost use Rattle.esr_dump.specs.RoundTrip.{AreNames, RoundTrips};
ghost use Rattle.esr_dump.specs.Lines.{command_of, declaration, entry_text, is_kept, item_text, items_text, line_of, name_of_item, number_begun, query_command, script};
ghost use Rattle.esr_grammar.specs.Command.{begin_update, write};

use esr_history::{Entry, Event, History, Log, Reply, TxnId};
use esr_items::{ItemId, Metric, Weighted};
use esr_report::{Names, item_line, name_of_transaction, push_line, weighted_item_line};
use std::alloc::{AllocError, Global};

/// Returns the name of an item.
fn name_of_item(items: &Names, x: ItemId) -> &str
    ensures { result.now ≡ name_of_item items.now x.0 }
{
    match items.name_of(x.0) {
        Some(name) => name,
        None => "",
    }
}

/// Returns the weight of an item.
fn weight(metric: &Weighted, x: ItemId) -> u64
    ensures { result ≡ weight_of metric.now x.0 }
{
    metric.distance(x, 0, 1)
}

/// Appends the line that declares an item.
fn push_declaration(
    out: &mut Vec<u8>,
    name: &str,
    value: i64,
    weight: u64,
) -> Result<(), AllocError>
    ensures { OnOk result (out.new.items ≡ out.old.items ++ line_of (declaration name.now value weight)) }
{
    if weight == 1 {
        item_line(out, name, value)
    } else {
        weighted_item_line(out, name, value, weight)
    }
}

/// Appends the line of an item of the history.
fn push_item(
    out: &mut Vec<u8>,
    items: &Names,
    history: &History<Weighted>,
    x: ItemId,
) -> Result<(), AllocError>
    requires { x.0 < length history.now.schedule.opening }
    ensures { OnOk result (out.new.items ≡ out.old.items ++ item_text items.now history.now.schedule x.0) }
{
    let name = name_of_item(items, x);
    push_declaration(out, name, history.opening(x), weight(history.metric(), x))
}

/// Appends the lines of the items.
fn push_items(
    out: &mut Vec<u8>,
    items: &Names,
    history: &History<Weighted>,
) -> Result<(), AllocError>
    ensures { OnOk result (out.new.items ≡ out.old.items ++ items_text items.now history.now.schedule) }
{
    for x in 0..history.items() {
        push_item(out, items, history, ItemId(x))?;
    }
    Ok(())
}

/// Returns whether the script has a line for an event with this reply.
fn is_kept(reply: Reply) -> bool
    ensures { result ≡ is_kept reply }
{
    match reply {
        Reply::Refused(why) => why.blocker().is_some(),
        _ => true,
    }
}

/// Returns the number that a begin got.
fn number_begun(reply: Reply) -> TxnId
    ensures { result.0 ≡ number_begun reply }
{
    match reply {
        Reply::Begun(txn) => txn,
        _ => TxnId(0),
    }
}

/// Appends the line that begins a query.
fn push_query(out: &mut Vec<u8>, name: &str, limit: u64, strict: bool) -> Result<(), AllocError>
    ensures { OnOk result (out.new.items ≡ out.old.items ++ line_of (query_command strict name.now limit)) }
{
    let mut digits = itoa::Buffer::new();
    let limit = digits.format(limit);
    if strict {
        push_line(out, "begin", &[name, "query", limit, "strict"])
    } else {
        push_line(out, "begin", &[name, "query", limit])
    }
}

/// Appends the line that begins an update.
fn push_update(out: &mut Vec<u8>, name: &str, limit: u64) -> Result<(), AllocError>
    ensures { OnOk result (out.new.items ≡ out.old.items ++ line_of (begin_update name.now limit)) }
{
    let mut digits = itoa::Buffer::new();
    push_line(out, "begin", &[name, "update", digits.format(limit)])
}

/// Appends the line of a write.
fn push_write(out: &mut Vec<u8>, txn: &str, item: &str, value: i64) -> Result<(), AllocError>
    ensures { OnOk result (out.new.items ≡ out.old.items ++ line_of (write txn.now item.now value)) }
{
    let mut digits = itoa::Buffer::new();
    push_line(out, "write", &[txn, item, digits.format(value)])
}

/// Appends the line of an event with this reply.
fn push_event(
    out: &mut Vec<u8>,
    items: &Names,
    transactions: &Names,
    entry: Entry,
) -> Result<(), AllocError>
    ensures { OnOk result (out.new.items ≡ out.old.items
        ++ line_of (command_of items.now transactions.now entry.reply entry.event)) }
{
    let begun = name_of_transaction(transactions, number_begun(entry.reply));
    match entry.event {
        Event::BeginUpdate { limit } => push_update(out, begun, limit),
        Event::BeginQuery { limit, strict } => push_query(out, begun, limit, strict),
        Event::Read { txn, item } => {
            let item = name_of_item(items, item);
            push_line(out, "read", &[name_of_transaction(transactions, txn), item])
        }
        Event::Write { txn, item, value } => {
            let item = name_of_item(items, item);
            push_write(out, name_of_transaction(transactions, txn), item, value)
        }
        Event::Commit { txn } => {
            push_line(out, "commit", &[name_of_transaction(transactions, txn)])
        }
        Event::Abort { txn } => push_line(out, "abort", &[name_of_transaction(transactions, txn)]),
    }
}

/// Appends the line of an entry, if the script has one for it.
fn push_entry(
    out: &mut Vec<u8>,
    items: &Names,
    transactions: &Names,
    entry: Entry,
) -> Result<(), AllocError>
    ensures { OnOk result (out.new.items ≡ out.old.items ++ entry_text items.now transactions.now entry) }
{
    if is_kept(entry.reply) {
        push_event(out, items, transactions, entry)
    } else {
        Ok(())
    }
}

/// Appends the lines of the entries.
fn push_entries(
    out: &mut Vec<u8>,
    items: &Names,
    transactions: &Names,
    log: &Log,
) -> Result<(), AllocError>
    ensures { OnOk result (out.new.items ≡ out.old.items
        ++ flat_map (entry_text items.now transactions.now) log.now.entries) }
{
    for i in 0..log.len() {
        let Some(entry) = log.get(i) else {
            unreachable!()
        };
        push_entry(out, items, transactions, entry)?;
    }
    Ok(())
}

/// Returns the lines of a history, with these names.
fn whole(
    alloc: Global,
    items: &Names,
    transactions: &Names,
    history: &History<Weighted>,
) -> Result<Vec<u8>, AllocError>
    ensures { IfOk result (λ text. text.items ≡ script items.now transactions.now history.now.schedule) }
{
    let mut out = Vec::new(alloc);
    push_items(&mut out, items, history)?;
    push_entries(&mut out, items, transactions, history.log())?;
    Ok(out)
}

/// Returns the script of a history, with these names of its items and of its transactions, in the order of their
/// numbers. A run recreates the history: the script requests the accepted and blocked events, and gets the same
/// replies. It needs a name for each item and each transaction.
pub fn script(
    alloc: Global,
    items: &Names,
    transactions: &Names,
    history: &History<Weighted>,
) -> Result<Vec<u8>, AllocError>
    ensures text { IfOk result (λ text. text.items ≡ script items.now transactions.now history.now.schedule) }
    ensures again { AreNames items.now transactions.now history.now.schedule
        → IfOk result (λ text. RoundTrips items.now transactions.now history.now.schedule text.items) }
{
    let _invariant = history.log(); // this and the next line bring invariants into the proof
    let _distinct = (items.len(), transactions.len());
    whole(alloc, items, transactions, history)
}
