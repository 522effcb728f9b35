//! Worked histories and the orders of their queries. The contract of an order permits out of memory or the order that
//! a definition specifies. No clause can state that it is found if memory suffices, or that the definition agrees
//! with a count by hand.

mod audits;
mod brute_force;
mod naive;

use Request::{BeginQuery, BeginStrictQuery, BeginUpdate, Commit, Read, Write};
use audits::{expect_machine_after, machine_after};
use esr_core::{Machine, StepError};
use esr_history::{Event, Reply, TxnId};
use esr_items::{ItemId, Plain};
use esr_order::{Order, OrderError};
use std::alloc::Global;
use std::process::Abort;

/// The short form of an event: the limit of a begin, or else the transaction, item and value.
#[derive(Clone, Copy)]
enum Request {
    BeginUpdate(u64),
    BeginQuery(u64),
    BeginStrictQuery(u64),
    Read(u32, u32),
    Write(u32, u32, i64),
    Commit(u32),
    Abort(u32),
}

fn query(limit: u64, strict: bool) -> Event {
    Event::BeginQuery { limit, strict }
}

fn read(t: u32, x: u32) -> Event {
    Event::Read {
        txn: TxnId(t),
        item: ItemId(x),
    }
}

fn write(t: u32, x: u32, value: i64) -> Event {
    Event::Write {
        txn: TxnId(t),
        item: ItemId(x),
        value,
    }
}

fn event(request: Request) -> Event {
    match request {
        BeginUpdate(limit) => Event::BeginUpdate { limit },
        BeginQuery(limit) => query(limit, false),
        BeginStrictQuery(limit) => query(limit, true),
        Read(t, x) => read(t, x),
        Write(t, x, value) => write(t, x, value),
        Commit(t) => Event::Commit { txn: TxnId(t) },
        Request::Abort(t) => Event::Abort { txn: TxnId(t) },
    }
}

/// Returns the reply to an event, and retries once if an allocation fails.
fn reply_to(m: &mut Machine<Plain>, request: Request) -> Result<Reply, StepError> {
    let event = event(request);
    match m.step(event) {
        Err(StepError::NoMemory) => m.step(event),
        answered => answered,
    }
}

/// Steps the machine, and returns whether the event was accepted.
fn step_is_accepted(m: &mut Machine<Plain>, request: Request) -> bool {
    !matches!(reply_to(m, request), Err(_) | Ok(Reply::Refused(_)))
}

/// Executes the events, and returns whether each was accepted.
fn try_execute_all(m: &mut Machine<Plain>, events: &[Request]) -> bool {
    for request in events {
        if !step_is_accepted(m, *request) {
            return false;
        }
    }
    true
}

/// Plays the events, each of which is accepted.
fn assert_all_accepted(rt: &impl Abort, m: &mut Machine<Plain>, events: &[Request]) {
    assert!(rt; try_execute_all(m, events), "a history");
}

/// Returns the order of a query, and retries once if an allocation fails.
fn query_order(alloc: Global, m: &Machine<Plain>, q: u32) -> Result<Order, OrderError> {
    match Order::of(alloc, m.history(), TxnId(q)) {
        Err(OrderError::NoMemory) => Order::of(alloc, m.history(), TxnId(q)),
        answered => answered,
    }
}

/// Returns whether the updates that wrote an item are these, with these values.
fn chain_equals(order: &Order, x: u32, writers: &[u32], values: &[i64]) -> bool {
    match order.chain(ItemId(x)) {
        Some(links) => links.writers.as_slice() == writers && links.values.as_slice() == values,
        None => false,
    }
}

/// Returns the order of a query, which must have one.
fn expect_order(rt: &impl Abort, alloc: Global, m: &Machine<Plain>, q: u32) -> Order {
    let Ok(order) = query_order(alloc, m, q) else {
        panic!(rt; "an order")
    };
    order
}

/// Returns the order of a query in the history of these events, all of which are accepted.
fn expect_order_after(
    rt: &impl Abort,
    alloc: Global,
    opening: &[i64],
    events: &[Request],
    q: u32,
) -> Order {
    let m = expect_machine_after(rt, alloc, opening, events);
    expect_order(rt, alloc, &m, q)
}

/// Returns whether a transaction has no order.
fn has_no_order(alloc: Global, m: &Machine<Plain>, t: u32) -> bool {
    matches!(
        query_order(alloc, m, t),
        Err(OrderError::NotACommittedQuery)
    )
}

/// Returns whether the events are accepted, and a transaction then has no order.
fn has_no_order_after(alloc: Global, opening: &[i64], events: &[Request], t: u32) -> bool {
    match machine_after(alloc, opening, events) {
        Some(m) => has_no_order(alloc, &m, t),
        None => false,
    }
}

/// A query reads one item before an update and another after the next update, which reads a third item that the first
/// wrote.
const THROUGH_A_THIRD_ITEM: [Request; 12] = [
    BeginQuery(9),
    BeginUpdate(9),
    BeginUpdate(9),
    Read(1, 0),
    Write(2, 0, 6),
    Write(2, 2, 1),
    Commit(2),
    Read(3, 2),
    Write(3, 1, 2),
    Commit(3),
    Read(1, 1),
    Commit(1),
];

/// Two updates overwrite values that a query has read, before it reads again.
const TWO_UPDATES_OVERWRITE_A_READ: [Request; 11] = [
    BeginQuery(100),
    BeginUpdate(100),
    BeginUpdate(100),
    Read(1, 0),
    Write(2, 0, 10),
    Commit(2),
    Write(3, 0, 1),
    Write(3, 1, 8),
    Commit(3),
    Read(1, 1),
    Commit(1),
];

/// An order that is always out of memory keeps its contract: here one ties updates by an item that was not read.
#[test]
fn order_through_a_third_item(rt: HostRuntime) {
    let alloc = rt.alloc();
    let events = &THROUGH_A_THIRD_ITEM;
    assert!(rt; has_no_order_after(alloc, &[0, 0, 0], events, 2));
    assert!(rt; has_no_order_after(alloc, &[0, 0, 0], events, 0));
    check_order_through_a_third_item(&rt, &expect_order_after(&rt, alloc, &[0, 0, 0], events, 1));
}

fn check_order_through_a_third_item(rt: &impl Abort, order: &Order) {
    assert!(rt; order.commits() == &[TxnId(2), TxnId(3)][..]);
    assert!(rt; order.before() == &[(0, 1)][..]);
    assert!(rt; order.must().is_empty());
    assert!(rt; chain_equals(order, 0, &[0], &[6]));
    assert!(rt; chain_equals(order, 1, &[1], &[2]));
    assert!(rt; chain_equals(order, 2, &[0], &[1]));
    assert!(rt; order.chain(ItemId(3)).is_none());
}

/// An order that is always out of memory keeps its contract: here there is one as soon as the report has committed.
#[test]
fn two_updates_overwrite_a_read(rt: HostRuntime) {
    let alloc = rt.alloc();
    let events = &TWO_UPDATES_OVERWRITE_A_READ;
    assert!(rt; has_no_order_after(alloc, &[0, 0], &events[..10], 1));
    let order = expect_order_after(&rt, alloc, &[0, 0], events, 1);
    assert!(rt; order.commits() == &[TxnId(2), TxnId(3)][..]);
    assert!(rt; chain_equals(&order, 0, &[0, 1], &[10, 1]));
}

/// A query begins when an update has committed, and reads what another has written, which aborts.
const QUERY_AFTER_UPDATE: [Request; 9] = [
    BeginUpdate(9),
    Write(1, 0, 5),
    Commit(1),
    BeginQuery(9),
    BeginUpdate(9),
    Write(3, 0, 0),
    Read(2, 0),
    Request::Abort(3),
    Commit(2),
];

/// Like [`QUERY_AFTER_UPDATE`], but the query is strict.
const STRICT_QUERY_AFTER_UPDATE: [Request; 9] = [
    BeginUpdate(9),
    Write(1, 0, 5),
    Commit(1),
    BeginStrictQuery(9),
    BeginUpdate(9),
    Write(3, 0, 0),
    Read(2, 0),
    Request::Abort(3),
    Commit(2),
];

/// Returns whether one update precedes a query, and `must` updates are required to.
fn required_count_is(rt: &impl Abort, alloc: Global, events: &[Request], must: usize) -> bool {
    let order = expect_order_after(rt, alloc, &[0], events, 2);
    order.commits() == &[TxnId(1)][..] && order.must().len() == must
}

/// A definition could ignore `strict`: two histories differ in it alone, and in the updates that must be seen.
#[test]
fn strict_query_requires_committed_updates(rt: HostRuntime) {
    assert!(rt; required_count_is(&rt, rt.alloc(), &STRICT_QUERY_AFTER_UPDATE, 1));
    assert!(rt; required_count_is(&rt, rt.alloc(), &QUERY_AFTER_UPDATE, 0));
}

/// Returns the history of a query, and ten updates of one item, one after another.
fn ten_successive_writers(rt: &impl Abort, alloc: Global) -> Machine<Plain> {
    let mut m = expect_machine_after(rt, alloc, &[0], &[BeginQuery(9)]);
    for u in 2..12u32 {
        assert_all_accepted(rt, &mut m, &[BeginUpdate(9), Write(u, 0, 1), Commit(u)]);
    }
    assert_all_accepted(rt, &mut m, &[Commit(1)]);
    m
}

/// The clause lets an order have two pairs for each operation: ten updates in one line are tied by nine.
#[test]
fn ten_updates_of_one_item(rt: HostRuntime) {
    let m = ten_successive_writers(&rt, rt.alloc());
    check_successive_writers(&rt, &expect_order(&rt, rt.alloc(), &m, 1));
}

/// Checks that the order ties ten updates in one line.
fn check_successive_writers(rt: &impl Abort, order: &Order) {
    let before = order.before();
    assert!(rt; before.len() == 9);
    assert!(rt; before[0] == (0, 1));
    assert!(rt; before[8] == (8, 9));
}
