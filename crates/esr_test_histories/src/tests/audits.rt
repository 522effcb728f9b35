//! Audits of the worked histories.

use super::Request::{BeginQuery, BeginUpdate, Commit, Read, Write};
use super::brute_force::least_or_abort;
use super::naive::agrees;
use super::{
    QUERY_AFTER_UPDATE, Request, STRICT_QUERY_AFTER_UPDATE, THROUGH_A_THIRD_ITEM,
    TWO_UPDATES_OVERWRITE_A_READ, reply_to, try_execute_all,
};
use esr_audit::{AuditError, Book, Finding, audit_history, audit_query};
use esr_cert::check;
use esr_core::{Machine, Totals};
use esr_history::{Refusal, Reply, TxnId};
use esr_items::{Plain, Store};
use std::alloc::Global;
use std::process::Abort;

/// Creates a machine over items that open with these values. Returns `None` if an allocation fails.
fn open_once(alloc: Global, opening: &[i64]) -> Option<Machine<Plain>> {
    let values = opening.to_vec(alloc).ok()?;
    let store = Store::new(alloc, values).ok()?;
    Machine::new(alloc, store, Plain).ok()
}

/// Creates a machine like [`open_once`], and retries once if an allocation fails.
pub(super) fn open_machine(alloc: Global, opening: &[i64]) -> Option<Machine<Plain>> {
    match open_once(alloc, opening) {
        None => open_once(alloc, opening),
        opened => opened,
    }
}

/// Returns a machine that accepted all events.
pub(super) fn machine_after(
    alloc: Global,
    opening: &[i64],
    events: &[Request],
) -> Option<Machine<Plain>> {
    let mut m = open_machine(alloc, opening)?;
    if try_execute_all(&mut m, events) {
        Some(m)
    } else {
        None
    }
}

/// Returns a machine that executed these events, all of which must be accepted.
pub(super) fn expect_machine_after(
    rt: &impl Abort,
    alloc: Global,
    opening: &[i64],
    events: &[Request],
) -> Machine<Plain> {
    let Some(m) = machine_after(alloc, opening, events) else {
        panic!(rt; "a history")
    };
    m
}

/// Audits a query, and retries once if an allocation fails.
pub(super) fn audit_of(alloc: Global, m: &Machine<Plain>, q: u32) -> Result<Finding, AuditError> {
    match audit_query(alloc, m.history(), TxnId(q)) {
        Err(AuditError::NoMemory) => audit_query(alloc, m.history(), TxnId(q)),
        answered => answered,
    }
}

/// Audits the whole history, and retries once if an allocation fails.
fn book_of(alloc: Global, m: &Machine<Plain>) -> Result<Book, AuditError> {
    match audit_history(alloc, m.history()) {
        Err(AuditError::NoMemory) => audit_history(alloc, m.history()),
        answered => answered,
    }
}

/// The finding of a query.
#[derive(Clone, Copy)]
struct Row<'a> {
    query: u32,
    distance: u64,
    import: u64,
    before: &'a [TxnId],
}

/// Returns whether this is the finding, with a certificate that passes the check.
fn has(found: &Finding, row: Row) -> bool {
    found.query == TxnId(row.query)
        && found.distance == row.distance
        && found.import == row.import
        && found.before.as_slice() == row.before
        && check(&found.problem, &found.certificate) == Ok(())
}

/// Returns whether the audit of a query has this result, the plain program too, and whether links, locks and orders
/// are the plain ones.
fn finds(alloc: Global, m: &Machine<Plain>, row: Row) -> bool {
    match audit_of(alloc, m, row.query) {
        Ok(found) => {
            has(&found, row)
                && least_or_abort(alloc, m, row.query) == Some((row.distance, row.before.len()))
                && agrees(alloc, m, 1)
        }
        Err(_) => false,
    }
}

/// Returns whether the events are accepted, and the audit of their history has this result, like [`finds`].
fn finds_in(alloc: Global, opening: &[i64], events: &[Request], row: Row) -> bool {
    match machine_after(alloc, opening, events) {
        Some(m) => finds(alloc, &m, row),
        None => false,
    }
}

/// Returns whether the events are accepted, and the audit of a transaction is then refused.
fn refuses_in(alloc: Global, opening: &[i64], events: &[Request], t: u32) -> bool {
    match machine_after(alloc, opening, events) {
        Some(m) => is_refused(alloc, &m, t),
        None => false,
    }
}

/// Returns whether the audit of a transaction is refused.
fn is_refused(alloc: Global, m: &Machine<Plain>, t: u32) -> bool {
    matches!(audit_of(alloc, m, t), Err(AuditError::NotACommittedQuery))
}

/// Audits a whole history, which must succeed.
fn book_now(rt: &impl Abort, alloc: Global, m: &Machine<Plain>) -> Book {
    let Ok(book) = book_of(alloc, m) else {
        panic!(rt; "a book")
    };
    book
}

/// Audits the whole history of these events, all of which must be accepted.
fn book_in(rt: &impl Abort, alloc: Global, opening: &[i64], events: &[Request]) -> Book {
    let m = expect_machine_after(rt, alloc, opening, events);
    book_now(rt, alloc, &m)
}

/// A history, and the finding of a query.
struct Case {
    name: &'static str,
    opening: &'static [i64],
    events: &'static [Request],
    found: Row<'static>,
}

static CASES: [Case; 9] = [
    Case {
        name: "an update writes beside a report that reads what it wrote",
        opening: &[100],
        events: &[
            BeginUpdate(50),
            BeginQuery(10),
            Write(1, 0, 107),
            Read(2, 0),
            Commit(1),
            Commit(2),
        ],
        found: Row {
            query: 2,
            distance: 0,
            import: 7,
            before: &[TxnId(1)],
        },
    },
    Case {
        name: "the same, where the update aborts",
        opening: &[100],
        events: &[
            BeginUpdate(50),
            BeginQuery(10),
            Write(1, 0, 107),
            Read(2, 0),
            Request::Abort(1),
            Commit(2),
        ],
        found: Row {
            query: 2,
            distance: 7,
            import: 7,
            before: &[],
        },
    },
    Case {
        name: "nearer before the update",
        opening: &[0, 0],
        events: &[
            BeginQuery(5),
            BeginUpdate(5),
            Read(1, 1),
            Write(2, 0, 3),
            Write(2, 1, 5),
            Commit(2),
            Read(1, 0),
            Commit(1),
        ],
        found: Row {
            query: 1,
            distance: 3,
            import: 5,
            before: &[],
        },
    },
    Case {
        name: "the smaller of two sets",
        opening: &[0],
        events: &[
            BeginQuery(9),
            BeginUpdate(4),
            Read(1, 0),
            Write(2, 0, 4),
            Commit(2),
            Read(1, 0),
            Commit(1),
        ],
        found: Row {
            query: 1,
            distance: 4,
            import: 4,
            before: &[],
        },
    },
    Case {
        name: "an order through a third item",
        opening: &[0, 0, 0],
        events: &THROUGH_A_THIRD_ITEM,
        found: Row {
            query: 1,
            distance: 2,
            import: 6,
            before: &[],
        },
    },
    Case {
        name: "a strict report",
        opening: &[0],
        events: &STRICT_QUERY_AFTER_UPDATE,
        found: Row {
            query: 2,
            distance: 5,
            import: 5,
            before: &[TxnId(1)],
        },
    },
    Case {
        name: "the same, not strict",
        opening: &[0],
        events: &QUERY_AFTER_UPDATE,
        found: Row {
            query: 2,
            distance: 0,
            import: 5,
            before: &[],
        },
    },
    Case {
        name: "a query that reads nothing",
        opening: &[7],
        events: &[
            BeginQuery(0),
            Commit(1),
            BeginQuery(0),
            Read(2, 0),
            Commit(2),
        ],
        found: Row {
            query: 1,
            distance: 0,
            import: 0,
            before: &[],
        },
    },
    Case {
        name: "a query that reads an item which no update wrote",
        opening: &[7],
        events: &[
            BeginQuery(0),
            Commit(1),
            BeginQuery(0),
            Read(2, 0),
            Commit(2),
        ],
        found: Row {
            query: 2,
            distance: 0,
            import: 0,
            before: &[],
        },
    },
];

/// A wrong definition of distance or import would be proved: the findings by hand and by plain programs must agree.
#[test]
fn queries_are_audited(rt: HostRuntime) {
    for case in &CASES {
        let found = finds_in(rt.alloc(), case.opening, case.events, case.found);
        assert!(rt; found, "{}", case.name);
    }
}

/// An audit that is always out of memory keeps its contract: here it is refused before the commit, and then answers.
#[test]
fn two_updates_overwrite_a_read(rt: HostRuntime) {
    let alloc = rt.alloc();
    let events = &TWO_UPDATES_OVERWRITE_A_READ;
    let row = Row {
        query: 1,
        distance: 1,
        import: 19,
        before: &[TxnId(2), TxnId(3)],
    };
    // While the report is active, it has no audit.
    assert!(rt; refuses_in(alloc, &[0, 0], &events[..10], 1));
    assert!(rt; finds_in(alloc, &[0, 0], events, row));
    for t in &[0, 2, 4] {
        assert!(rt; refuses_in(alloc, &[0, 0], events, *t), "for {t}");
    }
    check_book(&rt, &book_in(&rt, alloc, &[0, 0], events), row);
}

/// Checks that this is the only finding, with the order of the updates.
fn check_book(rt: &impl Abort, book: &Book, row: Row) {
    assert!(rt; book.order.as_slice() == row.before);
    assert!(rt; book.findings.len() == 1);
    assert!(rt; has(&book.findings[0], row));
}

const EDGE: i64 = 1_000_000_000_000;

const LIMIT: u64 = 2_000_000_000_000;

/// The largest value is a constant that no clause compares with the formats: the next one has to be refused here.
#[test]
fn values_at_the_edge(rt: HostRuntime) {
    let alloc = rt.alloc();
    let events = [BeginQuery(LIMIT), BeginUpdate(LIMIT), Read(1, 0)];
    let mut m = expect_machine_after(&rt, alloc, &[-EDGE], &events);
    play_the_edge(&rt, &mut m);
    check_the_edge(&rt, alloc, &m);
}

/// Writes past the edge, which is refused, and at the edge.
fn play_the_edge(rt: &impl Abort, m: &mut Machine<Plain>) {
    let past = reply_to(m, Write(2, 0, EDGE + 1));
    assert!(rt; past == Ok(Reply::Refused(Refusal::ValueOutOfRange)));
    assert!(rt; try_execute_all(m, &[Write(2, 0, EDGE), Commit(2), Commit(1)]));
}

fn check_the_edge(rt: &impl Abort, alloc: Global, m: &Machine<Plain>) {
    let row = Row {
        query: 1,
        distance: 0,
        import: LIMIT,
        before: &[],
    };
    assert!(rt; finds(alloc, m, row));
    let totals = Totals {
        import: u128::from(LIMIT),
        export: u128::from(LIMIT),
        entries: 7,
    };
    assert!(rt; m.totals() == totals);
}
