//! Naive computations to compare with the indexed ones of the engine: scans of the log, a list of locks, and all pairs of
//! conflicting updates.

use super::Request::{BeginQuery, BeginStrictQuery, BeginUpdate, Commit, Read, Write};
use super::audits::open_machine;
use super::brute_force::Draws;
use super::{Request, query_order, step_is_accepted};
use esr_core::Machine;
use esr_history::{Entry, Event, Facts, History, Log, Refusal, Reply, TxnId};
use esr_items::{ItemId, Plain};
use esr_order::{Order, OrderError};
use std::alloc::{AllocError, Global};
use std::process::Abort;

/// Returns the entry at a place, if there is one and it is accepted.
fn accepted_entry(log: &Log, i: usize) -> Option<Entry> {
    match log.get(i) {
        Some(entry) if !entry.is_refused() => Some(entry),
        _ => None,
    }
}

/// Returns the item of a read or a write.
fn item_in(entry: Entry) -> Option<u32> {
    match entry.event {
        Event::Read { item, .. } => Some(item.0),
        Event::Write { item, .. } => Some(item.0),
        _ => None,
    }
}

/// Returns the entry at a place, if it is an accepted operation on an item.
fn accepted_on(log: &Log, i: usize, x: u32) -> Option<Entry> {
    match accepted_entry(log, i) {
        Some(entry) if item_in(entry) == Some(x) => Some(entry),
        _ => None,
    }
}

/// Returns the entry at a place, if it is accepted and belongs to a transaction.
fn accepted_of(log: &Log, i: usize, t: u32) -> Option<Entry> {
    match accepted_entry(log, i) {
        Some(entry) if txn_in(entry) == Some(t) => Some(entry),
        _ => None,
    }
}

/// Returns the transaction that begins in an entry.
fn begun_in(reply: Reply) -> Option<u32> {
    match reply {
        Reply::Begun(txn) => Some(txn.0),
        _ => None,
    }
}

/// Returns the transaction of an entry; for an accepted begin, the one that begins.
fn txn_in(entry: Entry) -> Option<u32> {
    match entry.event {
        Event::Read { txn, .. } => Some(txn.0),
        Event::Write { txn, .. } => Some(txn.0),
        Event::Commit { txn } => Some(txn.0),
        Event::Abort { txn } => Some(txn.0),
        _ => begun_in(entry.reply),
    }
}

/// Returns the value that an entry writes.
fn written_in(entry: Entry) -> Option<i64> {
    match entry.event {
        Event::Write { value, .. } => Some(value),
        _ => None,
    }
}

/// Returns whether a transaction ends in an entry.
fn is_end(entry: Entry) -> bool {
    matches!(entry.event, Event::Commit { .. }) || matches!(entry.event, Event::Abort { .. })
}

/// Returns the last of the first places with an accepted operation on an item.
fn last_on_item(log: &Log, first: usize, x: u32) -> Option<u64> {
    for i in (0..first).rev() {
        if accepted_on(log, i, x).is_some() {
            return Some(i as u64);
        }
    }
    None
}

/// Returns the last of the first places with an accepted entry of a transaction.
fn last_of_txn(log: &Log, first: usize, t: u32) -> Option<u64> {
    for i in (0..first).rev() {
        if accepted_of(log, i, t).is_some() {
            return Some(i as u64);
        }
    }
    None
}

/// Returns the place at which a transaction ended.
fn end_of(log: &Log, t: u32) -> Option<u64> {
    for i in 0..log.len() {
        match accepted_of(log, i, t) {
            Some(entry) if is_end(entry) => return Some(i as u64),
            _ => {}
        }
    }
    None
}

/// Returns the place at which a transaction began.
fn begin_of(log: &Log, t: u32) -> Option<usize> {
    for i in 0..log.len() {
        match log.get(i) {
            Some(entry) if begun_in(entry.reply) == Some(t) => return Some(i),
            _ => {}
        }
    }
    None
}

/// Returns the facts of a transaction.
fn facts_of(log: &Log, t: u32) -> Option<Facts> {
    let begin = begin_of(log, t)?;
    let (query, strict, limit) = match log.get(begin)?.event {
        Event::BeginQuery { limit, strict } => (true, strict, limit),
        Event::BeginUpdate { limit } => (false, false, limit),
        _ => return None,
    };
    Some(Facts {
        query,
        strict,
        limit,
        begin: begin as u64,
        end: end_of(log, t),
    })
}

/// Returns the last accepted operation before a place on the item of the entry there.
fn earlier_on_item(log: &Log, i: usize) -> Option<u64> {
    last_on_item(log, i, item_in(log.get(i)?)?)
}

/// Returns the last accepted entry before a place of the transaction of the entry there.
fn earlier_of_txn(log: &Log, i: usize) -> Option<u64> {
    last_of_txn(log, i, txn_in(log.get(i)?)?)
}

/// Returns whether the links of each entry are those found by scans.
fn entries_agree(history: &History<Plain>) -> bool {
    let log = history.log();
    for i in 0..log.len().saturating_add(2) {
        if history.earlier_on_item(i as u64) != earlier_on_item(log, i)
            || history.earlier_of_txn(i as u64) != earlier_of_txn(log, i)
        {
            return false;
        }
    }
    true
}

fn items_agree(history: &History<Plain>) -> bool {
    let log = history.log();
    for x in 0..history.items().saturating_add(2) {
        if history.last_on_item(ItemId(x)) != last_on_item(log, log.len(), x) {
            return false;
        }
    }
    true
}

fn txns_agree(history: &History<Plain>) -> bool {
    let log = history.log();
    for t in 0..count_begun(log).saturating_add(3) {
        if history.last_of_txn(TxnId(t)) != last_of_txn(log, log.len(), t)
            || history.facts(TxnId(t)) != facts_of(log, t)
        {
            return false;
        }
    }
    true
}

/// Returns the number of transactions begun.
fn count_begun(log: &Log) -> u32 {
    let mut count = 0;
    for i in 0..log.len() {
        if let Some(entry) = log.get(i) {
            count = begun_in(entry.reply).unwrap_or(count);
        }
    }
    count
}

/// Returns for each transaction whether it is a query, and where it ended, if it did.
fn facts_in(alloc: Global, log: &Log) -> Result<Vec<Option<Facts>>, AllocError> {
    let mut facts = Vec::new(alloc);
    for t in 0..count_begun(log).saturating_add(1) {
        facts.push(facts_of(log, t))?;
    }
    Ok(facts)
}

fn facts_at(facts: &[Option<Facts>], t: u32) -> Option<Facts> {
    match facts.get(t as usize) {
        Some(known) => *known,
        None => None,
    }
}

fn is_query(facts: &[Option<Facts>], t: u32) -> bool {
    match facts_at(facts, t) {
        Some(known) => known.query,
        None => false,
    }
}

/// Returns whether a transaction that has begun has not ended before a place.
fn is_active(facts: &[Option<Facts>], t: u32, i: usize) -> bool {
    let Some(known) = facts_at(facts, t) else {
        return false;
    };
    match known.end {
        Some(end) => end >= i as u64,
        None => true,
    }
}

/// Returns the update that, by the entry at a place, holds a lock on an item before the place i: a lock that blocks a
/// write, or every operation.
fn holder(
    log: &Log,
    facts: &[Option<Facts>],
    at: usize,
    x: u32,
    i: usize,
    write: bool,
) -> Option<u32> {
    let entry = accepted_on(log, at, x)?;
    let t = txn_in(entry)?;
    let holds = is_active(facts, t, i) && !is_query(facts, t);
    if holds && (write || written_in(entry).is_some()) {
        Some(t)
    } else {
        None
    }
}

/// Returns the smaller of a number and an optional one.
fn smaller(least: Option<u32>, u: u32) -> Option<u32> {
    match least {
        Some(v) if v < u => least,
        _ => Some(u),
    }
}

/// Returns the smallest update other than t whose lock on an item blocks an operation at a place.
fn conflicting_holder(
    log: &Log,
    facts: &[Option<Facts>],
    t: u32,
    x: u32,
    i: usize,
    write: bool,
) -> Option<u32> {
    let mut least = None;
    for at in 0..i {
        match holder(log, facts, at, x, i, write) {
            Some(u) if u != t => least = smaller(least, u),
            _ => {}
        }
    }
    least
}

/// Returns the smallest other update whose lock blocks the entry at a place.
fn blocker(log: &Log, facts: &[Option<Facts>], i: usize, entry: Entry) -> Option<u32> {
    let x = item_in(entry)?;
    let t = txn_in(entry)?;
    conflicting_holder(log, facts, t, x, i, written_in(entry).is_some())
}

/// Returns whether an entry is a read by a query.
fn is_query_read(facts: &[Option<Facts>], entry: Entry) -> bool {
    match (entry.event, txn_in(entry)) {
        (Event::Write { .. }, _) | (_, None) => false,
        (_, Some(t)) => is_query(facts, t),
    }
}

/// Returns whether the entry at a place was blocked exactly if the list of locks says so.
fn lock_agrees(log: &Log, facts: &[Option<Facts>], i: usize) -> bool {
    let Some(entry) = log.get(i) else {
        return true;
    };
    match entry.reply {
        Reply::Refused(Refusal::BlockedByLock(u)) => blocker(log, facts, i, entry) == Some(u.0),
        Reply::Refused(_) => true,
        _ => is_query_read(facts, entry) || blocker(log, facts, i, entry).is_none(),
    }
}

fn locks_agree(log: &Log, facts: &[Option<Facts>]) -> bool {
    for i in 0..log.len() {
        if !lock_agrees(log, facts, i) {
            return false;
        }
    }
    true
}

/// Returns the entry in which a transaction ended before the place i.
fn end_before(log: &Log, facts: &[Option<Facts>], t: u32, i: usize) -> Option<Entry> {
    let end = facts_at(facts, t)?.end?;
    if end < i as u64 {
        log.get(end as usize)
    } else {
        None
    }
}

/// Returns whether the writes of a transaction are in effect at the place i: it has not aborted before, and has
/// committed if `committed`.
fn persists(log: &Log, facts: &[Option<Facts>], t: u32, i: usize, committed: bool) -> bool {
    match end_before(log, facts, t, i) {
        None => !committed,
        Some(last) => matches!(last.event, Event::Commit { .. }),
    }
}

/// Returns the value written to an item by the entry at a place, if it is in effect at the place i.
fn left_by(
    log: &Log,
    facts: &[Option<Facts>],
    at: usize,
    x: u32,
    i: usize,
    committed: bool,
) -> Option<i64> {
    let entry = accepted_on(log, at, x)?;
    let value = written_in(entry)?;
    if persists(log, facts, txn_in(entry)?, i, committed) {
        Some(value)
    } else {
        None
    }
}

/// Returns the current value of an item before a place, or its committed one.
fn value_at(
    history: &History<Plain>,
    facts: &[Option<Facts>],
    x: u32,
    i: usize,
    committed: bool,
) -> i64 {
    for at in (0..i).rev() {
        if let Some(value) = left_by(history.log(), facts, at, x, i, committed) {
            return value;
        }
    }
    if x < history.items() {
        history.opening(ItemId(x))
    } else {
        0
    }
}

/// Returns the number of a query's reads of an item between two places.
fn count_reads(log: &Log, q: u32, x: u32, begin: usize, end: usize) -> u64 {
    let mut count = 0u64;
    for i in begin..end {
        match accepted_on(log, i, x) {
            Some(entry) if txn_in(entry) == Some(q) => count = count.saturating_add(1),
            _ => {}
        }
    }
    count
}

/// Returns the charge for the entry at the place i to a query that began at a place, while it is active.
fn charge_at(
    history: &History<Plain>,
    facts: &[Option<Facts>],
    q: u32,
    begin: usize,
    i: usize,
) -> u64 {
    let log = history.log();
    let Some(entry) = accepted_entry(log, i) else {
        return 0;
    };
    let Some(x) = item_in(entry) else {
        return 0;
    };
    let current = value_at(history, facts, x, i, false);
    match written_in(entry) {
        Some(value) => { count_reads(log, q, x, begin, i).saturating_mul(value.abs_diff(current)) }
        None if txn_in(entry) == Some(q) => {
            current.abs_diff(value_at(history, facts, x, i, true))
        }
        None => 0,
    }
}

/// Returns the place at which a transaction ended, or the end of the log.
fn end_or_last(log: &Log, facts: &[Option<Facts>], q: u32) -> usize {
    match facts_at(facts, q) {
        Some(Facts { end: Some(end), .. }) => end as usize,
        _ => log.len(),
    }
}

/// Returns the import of a transaction, summed over the entries from its begin to its end.
fn import_of(history: &History<Plain>, facts: &[Option<Facts>], q: u32) -> u64 {
    let begin = begin_of(history.log(), q).unwrap_or(0);
    let mut sum = 0u64;
    for i in begin..end_or_last(history.log(), facts, q) {
        sum = sum.saturating_add(charge_at(history, facts, q, begin, i));
    }
    sum
}

fn import_agrees(history: &History<Plain>, facts: &[Option<Facts>], t: u32) -> bool {
    let naive = if is_query(facts, t) {
        import_of(history, facts, t)
    } else {
        0
    };
    history.import(TxnId(t)) == naive
}

fn imports_agree(history: &History<Plain>, facts: &[Option<Facts>]) -> bool {
    for t in 0..count_begun(history.log()).saturating_add(3) {
        if !import_agrees(history, facts, t) {
            return false;
        }
    }
    true
}

/// Returns whether locks and imports are those of the naive lists.
fn lists_agree(alloc: Global, history: &History<Plain>) -> bool {
    match facts_in(alloc, history.log()) {
        Ok(facts) => locks_agree(history.log(), &facts) && imports_agree(history, &facts),
        Err(_) => false,
    }
}

/// An accepted read or write of an update, by its place in the log and the update's position in commit order.
#[derive(Clone, Copy)]
struct Operation {
    at: usize,
    position: usize,
    item: u32,
    write: bool,
}

fn position_of(commits: &[TxnId], t: u32) -> Option<usize> {
    for i in 0..commits.len() {
        if commits[i].0 == t {
            return Some(i);
        }
    }
    None
}

/// Returns the operation in the entry at a place, if it is one of these updates.
fn operation_at(log: &Log, at: usize, commits: &[TxnId]) -> Option<Operation> {
    let entry = accepted_entry(log, at)?;
    let item = item_in(entry)?;
    let position = position_of(commits, txn_in(entry)?)?;
    let write = written_in(entry).is_some();
    Some(Operation {
        at,
        position,
        item,
        write,
    })
}

fn operations_in(
    alloc: Global,
    log: &Log,
    commits: &[TxnId],
) -> Result<Vec<Operation>, AllocError> {
    let mut operations = Vec::new(alloc);
    for at in 0..log.len() {
        if let Some(operation) = operation_at(log, at, commits) {
            operations.push(operation)?;
        }
    }
    Ok(operations)
}

/// Returns the operations of the update at a position.
fn own_operations(
    alloc: Global,
    operations: &[Operation],
    i: usize,
) -> Result<Vec<Operation>, AllocError> {
    let mut own = Vec::new(alloc);
    for o in operations {
        if o.position == i {
            own.push(*o)?;
        }
    }
    Ok(own)
}

/// Returns whether an operation follows one of these that it conflicts with.
fn follows(own: &[Operation], late: Operation) -> bool {
    for early in own {
        let conflicts = early.item == late.item && (early.write || late.write);
        if early.at < late.at && conflicts {
            return true;
        }
    }
    false
}

/// Returns whether an operation of an update follows one of these that it conflicts with.
fn conflict(operations: &[Operation], own: &[Operation], j: usize) -> bool {
    for late in operations {
        if late.position == j && follows(own, *late) {
            return true;
        }
    }
    false
}

fn is_marked(marks: &[bool], i: usize) -> bool {
    marks.get(i).copied().unwrap_or(false)
}

fn mark(marks: &mut [bool], i: usize) {
    if i < marks.len() {
        marks[i] = true;
    }
}

/// Returns the updates that are reachable from one by an order's pairs, including itself. The pairs are in order and
/// go upward.
fn reach_of(alloc: Global, order: &Order, i: usize) -> Result<Vec<bool>, AllocError> {
    let mut marks = vec![in alloc; false; order.commits().len()]?;
    mark(&mut marks, i);
    for (from, to) in order.before() {
        if is_marked(&marks, *from as usize) {
            mark(&mut marks, *to as usize);
        }
    }
    Ok(marks)
}

/// Returns whether all operations that follow one of these, and conflict with it, are of marked updates.
fn are_all_marked(operations: &[Operation], own: &[Operation], marks: &[bool]) -> bool {
    for late in operations {
        if !is_marked(marks, late.position) && follows(own, *late) {
            return false;
        }
    }
    true
}

/// Returns whether an order's pairs lead from an update to all later ones that conflict with it.
fn row_agrees(alloc: Global, order: &Order, operations: &[Operation], i: usize) -> Option<bool> {
    let marks = reach_of(alloc, order, i).ok()?;
    let own = own_operations(alloc, operations, i).ok()?;
    Some(are_all_marked(operations, &own, &marks))
}

fn rows_agree(alloc: Global, order: &Order, operations: &[Operation]) -> Option<bool> {
    for i in 0..order.commits().len() {
        if !row_agrees(alloc, order, operations, i)? {
            return Some(false);
        }
    }
    Some(true)
}

/// Returns whether the updates of each pair of an order conflict.
fn pairs_conflict(alloc: Global, order: &Order, operations: &[Operation]) -> Option<bool> {
    for (i, j) in order.before() {
        let own = own_operations(alloc, operations, *i as usize).ok()?;
        if i == j || !conflict(operations, &own, *j as usize) {
            return Some(false);
        }
    }
    Some(true)
}

/// Returns whether an order's pairs tie its updates as all pairs of conflicting updates do, and are few.
fn pairs_agree(alloc: Global, log: &Log, order: &Order) -> Option<bool> {
    let operations = operations_in(alloc, log, order.commits()).ok()?;
    let count_within_max = order.before().len() <= operations.len().saturating_mul(2);
    let conflict = pairs_conflict(alloc, order, &operations)?;
    Some(count_within_max && conflict && rows_agree(alloc, order, &operations)?)
}

/// Returns whether an update wrote an item.
fn has_written(operations: &[Operation], i: usize, x: u32) -> bool {
    for o in operations {
        if o.position == i && o.item == x && o.write {
            return true;
        }
    }
    false
}

fn is_listed(writers: &[u32], position: usize) -> bool {
    for writer in writers {
        if *writer as usize == position {
            return true;
        }
    }
    false
}

/// Returns whether each update that wrote an item is among these.
fn all_writers(operations: &[Operation], x: u32, writers: &[u32]) -> bool {
    for o in operations {
        if o.item == x && o.write && !is_listed(writers, o.position) {
            return false;
        }
    }
    true
}

/// Returns whether each of these updates wrote an item.
fn each_wrote(operations: &[Operation], x: u32, writers: &[u32]) -> bool {
    for writer in writers {
        if !has_written(operations, *writer as usize, x) {
            return false;
        }
    }
    true
}

/// Returns whether a chain of an order consists of the updates that wrote the item.
fn chain_agrees(order: &Order, operations: &[Operation], x: u32) -> bool {
    let writers: &[u32] = match order.chain(ItemId(x)) {
        None => &[],
        Some(links) => &links.writers,
    };
    all_writers(operations, x, writers) && each_wrote(operations, x, writers)
}

/// Returns whether a query read an item.
fn has_read(log: &Log, q: u32, x: u32) -> bool {
    count_reads(log, q, x, 0, log.len()) > 0
}

/// Returns the marks of the updates that wrote an item which a query read, and of those that the query must have
/// seen.
fn seeds_of(alloc: Global, log: &Log, order: &Order, q: u32) -> Result<Vec<bool>, AllocError> {
    let mut seeds = vec![in alloc; false; order.commits().len()]?;
    for o in &operations_in(alloc, log, order.commits())? {
        if o.write && has_read(log, q, o.item) {
            mark(&mut seeds, o.position);
        }
    }
    for i in order.must() {
        mark(&mut seeds, *i as usize);
    }
    Ok(seeds)
}

/// Marks the updates from which a row of an order's pairs leads to a marked one. The pairs are in order and go upward.
fn mark_back(order: &Order, marks: &mut [bool]) {
    for (from, to) in order.before().iter().rev() {
        if is_marked(marks, *to as usize) {
            mark(marks, *from as usize);
        }
    }
}

/// Returns the relevant updates of a query: the seeds, and the updates from which pairs lead to a seed.
fn relevant_of(alloc: Global, log: &Log, order: &Order, q: u32) -> Result<Vec<TxnId>, AllocError> {
    let mut marks = seeds_of(alloc, log, order, q)?;
    mark_back(order, &mut marks);
    let commits = order.commits();
    let mut relevant = Vec::new(alloc);
    for i in 0..commits.len() {
        if is_marked(&marks, i) {
            relevant.push(commits[i])?;
        }
    }
    Ok(relevant)
}

/// Returns whether the chains of an order have the writers of each item.
fn chains_agree(alloc: Global, history: &History<Plain>, order: &Order) -> Option<bool> {
    let operations = operations_in(alloc, history.log(), order.commits()).ok()?;
    for x in 0..history.items() {
        if !chain_agrees(order, &operations, x) {
            return Some(false);
        }
    }
    Some(true)
}

/// Returns the order of a query among its relevant updates, or `None` if an allocation fails.
fn relevant_order(alloc: Global, m: &Machine<Plain>, q: u32) -> Option<Order> {
    Order::relevant(alloc, m.history(), TxnId(q)).ok()
}

/// Returns the order of a query, if it is committed; or `None` if an allocation fails.
fn order_if(alloc: Global, m: &Machine<Plain>, q: u32) -> Option<Option<Order>> {
    match query_order(alloc, m, q) {
        Ok(order) => Some(Some(order)),
        Err(OrderError::NotACommittedQuery) => Some(None),
        Err(OrderError::NoMemory) => None,
    }
}

/// Returns whether an order and the one among the relevant updates are those of all pairs.
fn both_agree(
    alloc: Global,
    m: &Machine<Plain>,
    q: u32,
    whole: &Order,
    relevant: &Order,
) -> Option<bool> {
    let log = m.log();
    let updates = relevant_of(alloc, log, whole, q).ok()?;
    let same = relevant.commits() == updates.as_slice()
        && relevant.must().len() == whole.must().len();
    Some(same && pairs_agree(alloc, log, whole)? && pairs_agree(alloc, log, relevant)?)
}

/// Returns whether the order of a query, and that among its relevant updates, are those of all pairs.
fn order_agrees(alloc: Global, m: &Machine<Plain>, q: u32) -> Option<bool> {
    let Some(whole) = order_if(alloc, m, q)? else {
        return Some(true);
    };
    let relevant = relevant_order(alloc, m, q)?;
    Some(chains_agree(alloc, m.history(), &whole)? && both_agree(alloc, m, q, &whole, &relevant)?)
}

/// Returns whether the orders agree, of every `stride`-th transaction.
fn orders_agree(alloc: Global, m: &Machine<Plain>, stride: u32) -> Option<bool> {
    for q in 0..count_begun(m.log()).saturating_add(2) {
        if q.checked_rem(stride) == Some(0) && !order_agrees(alloc, m, q)? {
            return Some(false);
        }
    }
    Some(true)
}

/// Returns whether the indexed forms of a history agree with the naive ones; the orders for every `stride`-th transaction.
fn is_same(alloc: Global, m: &Machine<Plain>, stride: u32) -> bool {
    let history = m.history();
    entries_agree(history)
        && items_agree(history)
        && txns_agree(history)
        && lists_agree(alloc, history)
        && orders_agree(alloc, m, stride) == Some(true)
}

/// Returns whether the forms agree, like [`is_same`], and retries once if an allocation fails.
pub(super) fn agrees(alloc: Global, m: &Machine<Plain>, stride: u32) -> bool {
    is_same(alloc, m, stride) || is_same(alloc, m, stride)
}

/// Draws an event of one of the last eight transactions, or of one that has not begun.
fn any_event(draws: &mut Draws, begun: u32) -> Request {
    let t = begun.saturating_add(1).saturating_sub(draws.next(9));
    let item = draws.next(66);
    let value = i64::from(draws.next(900));
    if draws.next(2) == 0 {
        Read(t, item)
    } else {
        Write(t, item, value)
    }
}

/// Draws the begin of an update, a query or a strict query.
fn any_begin(draws: &mut Draws) -> Request {
    let limit = u64::from(draws.next(4000));
    match draws.next(4) {
        0 => BeginQuery(limit),
        1 => BeginStrictQuery(limit),
        _ => BeginUpdate(limit.saturating_mul(4)),
    }
}

/// Draws the end of a transaction.
fn any_end(draws: &mut Draws, t: u32) -> Request {
    if draws.next(6) == 0 {
        Request::Abort(t)
    } else {
        Commit(t)
    }
}

/// Begins a transaction, and ends the one that began eight before it.
fn round(m: &mut Machine<Plain>, draws: &mut Draws, begun: u32) {
    let _ = step_is_accepted(m, any_begin(draws));
    for _ in 0..8 {
        let _ = step_is_accepted(m, any_event(draws, begun));
    }
    let _ = step_is_accepted(m, any_end(draws, begun.saturating_sub(8)));
}

/// Draws a history of 64 items and 500 transactions, of which eight run at a time.
fn draw_history(alloc: Global, seed: u64) -> Option<Machine<Plain>> {
    let mut m = open_machine(alloc, &[0; 64])?;
    let mut draws = Draws { state: seed };
    for begun in 1..501u32 {
        round(&mut m, &mut draws, begun);
    }
    Some(m)
}

/// Returns the numbers of entries that are refused by a lock, that are aborts, and that are begins of strict queries.
fn counts(log: &Log) -> (u32, u32, u32) {
    let (mut blocked, mut aborts, mut strict) = (0u32, 0u32, 0u32);
    for i in 0..log.len() {
        match log.get(i) {
            Some(
                Entry {
                    reply: Reply::Refused(Refusal::BlockedByLock(_)),
                    ..
                },
            ) => blocked = blocked.saturating_add(1),
            Some(
                Entry {
                    reply: Reply::Aborted,
                    ..
                },
            ) => aborts = aborts.saturating_add(1),
            _ => {}
        }
        match log.get(i) {
            Some(
                Entry {
                    event: Event::BeginQuery { strict: true, .. },
                    ..
                },
            ) => strict = strict.saturating_add(1),
            _ => {}
        }
    }
    (blocked, aborts, strict)
}

/// Fast forms are proved against definitions that may be wrong: scans that share no code with them must agree.
#[test]
fn indexed_forms_agree_with_naive_ones(rt: HostRuntime) {
    let Some(m) = draw_history(rt.alloc(), 11) else {
        panic!(rt; "a history")
    };
    check_draw(&rt, rt.alloc(), &m);
}

fn check_draw(rt: &impl Abort, alloc: Global, m: &Machine<Plain>) {
    let (blocked, aborts, strict) = counts(m.log());
    assert!(rt; blocked > 50 && aborts > 30 && strict > 50);
    assert!(rt; m.log().len() > 4000);
    assert!(rt; agrees(alloc, m, 100));
}
