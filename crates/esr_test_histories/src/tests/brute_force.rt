//! A reference program to compare with the audit: it lists all placements of small histories.
ghost use Rattle.std.specs.Prelude.{◌<◌};

use super::Request::{BeginQuery, BeginStrictQuery, BeginUpdate, Commit, Read, Write};
use super::audits::{audit_of, machine_after};
use super::{Request, step_is_accepted};
use esr_core::Machine;
use esr_history::{Entry, Event, Log, Reply};
use esr_items::{ItemId, Plain};
use std::alloc::{AllocError, Global};

/// Numbers generated from a fixed seed.
#[derive(Drop)]
pub(super) struct Draws {
    pub state: u64,
}

impl Draws {
    /// Returns the next number, below the bound if the bound is above 0.
    pub fn next(&mut self, below: u32) -> u32
        ensures { 0 < below → result < below }
    {
        self.state = self
            .state
            .wrapping_mul(6364136223846793005)
            .wrapping_add(1442695040888963407);
        let high = (self.state >> 33) as u32;
        if below == 0 { 0 } else { high % below }
    }

    /// Draws an event of this query or of one of three updates, of which this is the first.
    fn event(&mut self, query: u32, first: u32) -> Request {
        let kind = self.next(8);
        let item = self.next(2);
        let value = i64::from(self.next(9));
        let update = self.next(3).saturating_add(first);
        match kind {
            0 => Commit(update),
            1 | 2 => Read(query, item),
            3 => Read(update, item),
            _ => Write(update, item, value),
        }
    }
}

/// An accepted read, with the value read, or write, by its place in the log.
#[derive(Clone, Copy)]
struct Operation {
    at: usize,
    txn: u32,
    item: u32,
    value: i64,
    write: bool,
}

fn operation_in(at: usize, entry: Entry) -> Option<Operation> {
    match (entry.event, entry.reply) {
        (Event::Read { txn, item }, Reply::Value(value)) => Some(Operation {
            at,
            txn: txn.0,
            item: item.0,
            value,
            write: false,
        }),
        (Event::Write { txn, item, value }, Reply::Wrote) => Some(Operation {
            at,
            txn: txn.0,
            item: item.0,
            value,
            write: true,
        }),
        _ => None,
    }
}

fn commit_in(entry: Entry) -> Option<u32> {
    match (entry.event, entry.reply) {
        (Event::Commit { txn }, Reply::Committed) => Some(txn.0),
        _ => None,
    }
}

fn operations_in(alloc: Global, log: &Log) -> Result<Vec<Operation>, AllocError> {
    let mut operations = Vec::new(alloc);
    for at in 0..log.len() {
        if let Some(entry) = log.get(at) {
            if let Some(operation) = operation_in(at, entry) {
                operations.push(operation)?;
            }
        }
    }
    Ok(operations)
}

/// Returns whether an operation of v precedes this one and conflicts with it.
fn follows(operations: &[Operation], v: u32, late: Operation) -> bool {
    for early in operations {
        let conflicts = early.item == late.item && (early.write || late.write);
        if early.txn == v && early.at < late.at && conflicts {
            return true;
        }
    }
    false
}

/// Returns whether an operation of v precedes an operation of u that it conflicts with.
fn is_after(operations: &[Operation], u: u32, v: u32) -> bool {
    for late in operations {
        if late.txn == u && follows(operations, v, *late) {
            return true;
        }
    }
    false
}

/// Returns whether none of these updates has to follow `late`.
fn may_precede(operations: &[Operation], before: &[u32], late: u32) -> bool {
    for early in before {
        if is_after(operations, *early, late) {
            return false;
        }
    }
    true
}

/// Returns whether no update of the order precedes an update that it has to follow.
fn keeps_conflicts(operations: &[Operation], order: &[u32]) -> bool {
    for i in 0..order.len() {
        if !may_precede(operations, &order[..i], order[i]) {
            return false;
        }
    }
    true
}

/// Returns the last value that a transaction wrote to an item, if it wrote it.
fn value_from(operations: &[Operation], u: u32, item: u32) -> Option<i64> {
    let mut value = None;
    for o in operations {
        if o.txn == u && o.item == item && o.write {
            value = Some(o.value);
        }
    }
    value
}

/// Returns the update that begins in an entry, if one does.
fn update_in(entry: Entry) -> Option<u32> {
    match (entry.event, entry.reply) {
        (Event::BeginUpdate { .. }, Reply::Begun(txn)) => Some(txn.0),
        _ => None,
    }
}

/// Returns whether this strict query begins in an entry.
fn begins_strictly(entry: Entry, q: u32) -> bool {
    match (entry.event, entry.reply) {
        (Event::BeginQuery { strict: true, .. }, Reply::Begun(txn)) => txn.0 == q,
        _ => false,
    }
}

/// Returns whether a transaction is an update.
fn is_update(log: &Log, t: u32) -> bool {
    for i in 0..log.len() {
        if let Some(entry) = log.get(i) {
            if update_in(entry) == Some(t) {
                return true;
            }
        }
    }
    false
}

/// Returns the update that commits in the entry at a place, if one does.
fn committed_update(log: &Log, i: usize) -> Option<u32> {
    let t = commit_in(log.get(i)?)?;
    if is_update(log, t) { Some(t) } else { None }
}

/// Returns the updates that committed in the first `first` entries.
fn updates_in(alloc: Global, log: &Log, first: usize) -> Result<Vec<u32>, AllocError> {
    let mut updates = Vec::new(alloc);
    for i in 0..first {
        if let Some(t) = committed_update(log, i) {
            updates.push(t)?;
        }
    }
    Ok(updates)
}

/// Returns the number of entries before the commit of a query.
fn count_before(log: &Log, q: u32) -> usize {
    for i in 0..log.len() {
        if let Some(entry) = log.get(i) {
            if commit_in(entry) == Some(q) {
                return i;
            }
        }
    }
    log.len()
}

/// Returns the number of entries before the begin of a strict query; 0 for another query.
fn count_seen(log: &Log, q: u32) -> usize {
    for i in 0..log.len() {
        if let Some(entry) = log.get(i) {
            if begins_strictly(entry, q) {
                return i;
            }
        }
    }
    0
}

/// All orders of three.
static ORDERS: [[usize; 3]; 6] = [
    [0, 1, 2],
    [0, 2, 1],
    [1, 0, 2],
    [1, 2, 0],
    [2, 0, 1],
    [2, 1, 0],
];

/// The input of the reference program: the opening values and the accepted operations of a history, a query, the updates
/// that committed before it, and those that it must have seen.
#[derive(Drop)]
struct Small {
    opening: Vec<i64>,
    operations: Vec<Operation>,
    query: u32,
    updates: Vec<u32>,
    must: Vec<u32>,
}

impl Small {
    fn of(alloc: Global, m: &Machine<Plain>, q: u32) -> Result<Small, AllocError> {
        let history = m.history();
        let mut opening = Vec::new(alloc);
        for x in 0..history.items() {
            opening.push(history.opening(ItemId(x)))?;
        }
        let updates = updates_in(alloc, m.log(), count_before(m.log(), q))?;
        let must = updates_in(alloc, m.log(), count_seen(m.log(), q))?;
        Ok(Small {
            opening,
            operations: operations_in(alloc, m.log())?,
            query: q,
            updates,
            must,
        })
    }

    /// Returns the value of an item after these updates.
    fn value_after(&self, before: &[u32], item: u32) -> i64 {
        let mut value = self.opening.get(item as usize).copied().unwrap_or(0);
        for u in before {
            value = value_from(&self.operations, *u, item).unwrap_or(value);
        }
        value
    }

    /// Returns the distance of what the query read from the values after these updates.
    fn distance_after(&self, before: &[u32]) -> u64 {
        let mut sum = 0u64;
        for o in &self.operations {
            if o.txn == self.query {
                sum = sum.saturating_add(o.value.abs_diff(self.value_after(before, o.item)));
            }
        }
        sum
    }

    /// Returns whether these include the updates that the query must have seen.
    fn are_enough(&self, before: &[u32]) -> bool {
        for u in &self.must {
            if !before.contains(u) {
                return false;
            }
        }
        true
    }

    /// Returns the least distance of the positions in an order that follow all updates that the query must have seen,
    /// with the first such position.
    fn least_in(&self, order: &[u32]) -> (u64, usize) {
        let mut least = (u64::MAX, 0);
        for n in 0..=order.len() {
            let before = &order[..n];
            let distance = self.distance_after(before);
            if distance < least.0 && self.are_enough(before) {
                least = (distance, n);
            }
        }
        least
    }

    /// Returns the updates at these positions, if all of them exist.
    fn order_at(&self, alloc: Global, positions: &[usize]) -> Result<Vec<u32>, AllocError> {
        let mut order = Vec::new(alloc);
        for i in positions {
            if *i < self.updates.len() {
                order.push(self.updates[*i])?;
            }
        }
        Ok(order)
    }

    /// Returns the least distance of all orders of up to three updates, and the smallest number of updates before the
    /// position of a placement with it.
    fn least(&self, alloc: Global) -> Result<(u64, usize), AllocError> {
        let mut least = (u64::MAX, 0);
        for positions in &ORDERS {
            let order = self.order_at(alloc, positions)?;
            let (distance, n) = self.least_in(&order);
            let is_less = distance < least.0 || distance == least.0 && n < least.1;
            if keeps_conflicts(&self.operations, &order) && is_less {
                least = (distance, n);
            }
        }
        Ok(least)
    }
}

/// Returns the least distance of all placements of a query in a history with up to three updates, and the smallest
/// number of updates before the position of a placement with it.
fn least(alloc: Global, m: &Machine<Plain>, q: u32) -> Result<(u64, usize), AllocError> {
    Small::of(alloc, m, q)?.least(alloc)
}

/// Returns the result of [`least`], and retries once if an allocation fails.
pub(super) fn least_or_abort(alloc: Global, m: &Machine<Plain>, q: u32) -> Option<(u64, usize)> {
    match least(alloc, m, q) {
        Ok(found) => Some(found),
        Err(_) => least(alloc, m, q).ok(),
    }
}

/// Lets the machine execute drawn events of a query and of three updates.
fn draw(m: &mut Machine<Plain>, draws: &mut Draws, query: u32, first: u32) {
    for _ in 0..24 {
        let _ = step_is_accepted(m, draws.event(query, first));
    }
}

/// Commits those of four transactions that are active.
fn commit_all(m: &mut Machine<Plain>) {
    for t in 1..5u32 {
        let _ = step_is_accepted(m, Commit(t));
    }
}

/// Draws a history of query 1 and the updates 2, 3 and 4, which begin at once.
fn small_history(alloc: Global, seed: u64) -> Option<Machine<Plain>> {
    let begins = [
        BeginQuery(1000),
        BeginUpdate(1000),
        BeginUpdate(1000),
        BeginUpdate(1000),
    ];
    let mut m = machine_after(alloc, &[0, 0], &begins)?;
    draw(&mut m, &mut Draws { state: seed }, 1, 2);
    commit_all(&mut m);
    Some(m)
}

/// Draws a history of the updates 1, 2 and 3 and the strict query 4, which begins when some of them have committed.
/// At most one update aborts, which has not committed by then.
fn strict_history(alloc: Global, seed: u64) -> Option<Machine<Plain>> {
    let mut draws = Draws { state: seed };
    let mut m = machine_after(
        alloc,
        &[0, 0],
        &[BeginUpdate(1000), BeginUpdate(1000), BeginUpdate(1000)],
    )?;
    draw(&mut m, &mut draws, 4, 1);
    let _begun = step_is_accepted(&mut m, BeginStrictQuery(1000));
    draw(&mut m, &mut draws, 4, 1);
    let aborted = draws.next(3).saturating_add(1);
    let _aborted = step_is_accepted(&mut m, Request::Abort(aborted));
    commit_all(&mut m);
    Some(m)
}

/// Returns the audit's least distance of a query, and its number of updates before the position.
fn audit_result(alloc: Global, m: &Machine<Plain>, q: u32) -> Option<(u64, usize)> {
    let found = audit_of(alloc, m, q).ok()?;
    Some((found.distance, found.before.len()))
}

/// Returns the results of the audit and of the reference program for the query of a history.
fn small_row(alloc: Global, seed: u64) -> Option<((u64, usize), Option<(u64, usize)>)> {
    let m = small_history(alloc, seed)?;
    compare(alloc, &m, 1)
}

/// Returns the results of the audit and of the reference program for a query.
fn compare(
    alloc: Global,
    m: &Machine<Plain>,
    q: u32,
) -> Option<((u64, usize), Option<(u64, usize)>)> {
    let found = audit_result(alloc, m, q)?;
    Some((found, least_or_abort(alloc, m, q)))
}

/// A wrong definition of a placement would be proved: a reference program that lists them all must find the same.
#[test]
fn least_of_all_placements(rt: HostRuntime) {
    let mut far = [0u32; 4];
    for seed in 0..300u64 {
        let Some((found, plain)) = small_row(rt.alloc(), seed) else {
            panic!(rt; "a finding")
        };
        assert!(rt; plain == Some(found), "history {seed}");
        if found.0 > 0 && found.1 < 4 {
            far[found.1] = far[found.1].saturating_add(1);
        }
    }
    // Each count of updates before is far at times.
    assert!(rt; !far.contains(&0));
}

/// Returns the least distance of the placements of a query as if it were not strict.
fn least_if_free(alloc: Global, m: &Machine<Plain>, q: u32) -> Option<u64> {
    let mut small = Small::of(alloc, m, q).ok()?;
    small.must.clear();
    let (distance, _) = small.least(alloc).ok()?;
    Some(distance)
}

/// Returns the results of the audit and of the reference program for the strict query of a history, and the least
/// distance if it were not strict.
fn strict_row(alloc: Global, seed: u64) -> Option<((u64, usize), Option<(u64, usize)>, u64)> {
    let m = strict_history(alloc, seed)?;
    compare_all(alloc, &m, 4)
}

/// Compares like [`compare`], and adds the least distance if the query were not strict.
fn compare_all(
    alloc: Global,
    m: &Machine<Plain>,
    q: u32,
) -> Option<((u64, usize), Option<(u64, usize)>, u64)> {
    let (found, plain) = compare(alloc, m, q)?;
    let free = least_if_free(alloc, m, q)?;
    Some((found, plain, free))
}

/// A definition could treat a strict query like any other: some must be farther here than if they were not strict.
#[test]
fn least_of_all_strict_placements(rt: HostRuntime) {
    let mut farther = 0u32;
    for seed in 0..300u64 {
        let Some((found, plain, free)) = strict_row(rt.alloc(), seed) else {
            panic!(rt; "a finding")
        };
        assert!(rt; plain == Some(found), "history {seed}");
        if free < found.0 {
            farther = farther.saturating_add(1);
        }
    }
    assert!(rt;
        farther > 4,
        "{farther} are farther than if they were not strict"
    );
}
