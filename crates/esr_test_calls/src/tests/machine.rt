//! Runs short lists of events on a machine with one item, and compares its replies with replies worked out by hand.
//! No clause states that the machine ever replies, since one that is always out of memory keeps its contract, nor that
//! the definitions are those of the documentation.

use OneItemEvent::{BeginQuery, BeginUpdate, Commit, Read, Write};
use esr_core::{Machine, RenewError, StepError, Totals};
use esr_history::Reply::{Aborted, Begun, Committed, Refused, Value, Wrote};
use esr_history::{Event, NoMemory, Refusal, Reply, TxnId};
use esr_items::{ItemId, Plain, Store};
use std::alloc::Global;
use std::process::Abort;

/// An event on the machine's only item. The argument of a begin is its limit, that of every other event its transaction.
#[derive(Clone, Copy)]
enum OneItemEvent {
    BeginUpdate(u64),
    BeginQuery(u64),
    Read(u32),
    Write(u32, i64),
    Commit(u32),
    Abort(u32),
}

/// Returns the event of the machine.
fn event_of(asked: OneItemEvent) -> Event {
    let item = ItemId(0);
    match asked {
        BeginUpdate(limit) => Event::BeginUpdate { limit },
        BeginQuery(limit) => Event::BeginQuery {
            limit,
            strict: false,
        },
        Read(t) => Event::Read {
            txn: TxnId(t),
            item,
        },
        Write(t, value) => Event::Write {
            txn: TxnId(t),
            item,
            value,
        },
        Commit(t) => Event::Commit { txn: TxnId(t) },
        OneItemEvent::Abort(t) => Event::Abort { txn: TxnId(t) },
    }
}

/// Opens a machine with one item.
fn open(alloc: Global, value: i64) -> Result<Machine<Plain>, NoMemory> {
    let Ok(values) = [value].to_vec(alloc) else {
        return Err(NoMemory);
    };
    match Store::new(alloc, values) {
        Ok(items) => Machine::new(alloc, items, Plain),
        Err(_) => Err(NoMemory),
    }
}

/// Opens a machine like [`open`], but retries once if an allocation fails.
fn open_with_retry(rt: &impl Abort, alloc: Global, value: i64) -> Machine<Plain> {
    match open(alloc, value) {
        Ok(machine) => machine,
        Err(_) => open(alloc, value).expect(rt, "memory"),
    }
}

/// Executes an event and checks its reply. If an allocation fails, the machine must be unchanged, and a retry must get
/// the same reply.
fn check_reply(rt: &impl Abort, machine: &mut Machine<Plain>, event: Event, reply: Reply) {
    let totals = machine.totals();
    let entries = machine.log().len();
    let answer = match machine.step(event) {
        Err(error) => {
            assert!(rt; error == StepError::NoMemory);
            assert!(rt; machine.totals() == totals);
            assert!(rt; machine.log().len() == entries);
            machine.step(event)
        }
        Ok(answer) => Ok(answer),
    };
    assert!(rt; answer == Ok(reply));
    assert!(rt; machine.log().len() == entries + 1);
}

/// Executes the events in order and checks each reply.
fn check_replies(rt: &impl Abort, machine: &mut Machine<Plain>, rows: &[(OneItemEvent, Reply)]) {
    for (asked, reply) in rows {
        check_reply(rt, machine, event_of(*asked), *reply);
    }
}

/// Executes the events on a new machine, checks each reply, and checks that its import and its export are both
/// `import` in total.
fn check_run(
    rt: &impl Abort,
    alloc: Global,
    value: i64,
    rows: &[(OneItemEvent, Reply)],
    import: u128,
) {
    let mut machine = open_with_retry(rt, alloc, value);
    check_replies(rt, &mut machine, rows);
    let totals = Totals {
        import,
        export: import,
        entries: rows.len() as u64,
    };
    assert!(rt; machine.totals() == totals);
}

const REPORT_AND_WRITER: [(OneItemEvent, Reply); 6] = [
    (BeginUpdate(50), Begun(TxnId(1))),
    (BeginQuery(10), Begun(TxnId(2))),
    (Write(1, 107), Wrote),
    (Read(2), Value(107)),
    (Commit(1), Committed),
    (Commit(2), Committed),
];

/// Contracts permit a machine that is always out of memory, and a definition could charge more than the distance.
#[test]
fn report_concurrent_with_writer(rt: HostRuntime) {
    check_run(&rt, rt.alloc(), 100, &REPORT_AND_WRITER, 7);
}

const WRITE_THEN_TWO_QUERY_READS: [(OneItemEvent, Reply); 9] = [
    (BeginQuery(10), Begun(TxnId(1))),
    (BeginQuery(5), Begun(TxnId(2))),
    (BeginUpdate(14), Begun(TxnId(3))),
    (BeginUpdate(15), Begun(TxnId(4))),
    (Read(1), Value(0)),
    (Read(1), Value(0)),
    (Read(2), Value(0)),
    (Write(3, 5), Refused(Refusal::BlockedByExport(TxnId(3)))),
    (Write(4, 5), Wrote),
];

/// A definition that refused a write whose charge equals the rest of the limit would also be safe. Here a limit of 15
/// suffices, and 14 does not.
#[test]
fn export_limit_covers_all_queries(rt: HostRuntime) {
    check_run(&rt, rt.alloc(), 0, &WRITE_THEN_TWO_QUERY_READS, 15);
}

const UPGRADE: [(OneItemEvent, Reply); 8] = [
    (BeginUpdate(0), Begun(TxnId(1))),
    (BeginUpdate(0), Begun(TxnId(2))),
    (Read(1), Value(0)),
    (Read(2), Value(0)),
    (Write(1, 1), Refused(Refusal::BlockedByLock(TxnId(2)))),
    (Commit(2), Committed),
    (Write(1, 1), Wrote),
    (Commit(1), Committed),
];

/// A definition that refused every upgrade of a lock would also be serializable. Here the upgrade succeeds once the
/// other reader has ended.
#[test]
fn upgrade_is_blocked_by_a_reader(rt: HostRuntime) {
    check_run(&rt, rt.alloc(), 0, &UPGRADE, 0);
}

const ABORTED: [(OneItemEvent, Reply); 5] = [
    (BeginUpdate(0), Begun(TxnId(1))),
    (Write(1, 5), Wrote),
    (OneItemEvent::Abort(1), Aborted),
    (BeginUpdate(0), Begun(TxnId(2))),
    (Read(2), Value(1)),
];

/// No clause states that an abort can allocate its entry: a machine whose aborts always fail keeps its contract.
#[test]
fn abort_rolls_back(rt: HostRuntime) {
    let mut machine = open_with_retry(&rt, rt.alloc(), 1);
    check_replies(&rt, &mut machine, &ABORTED);
    assert!(rt; machine.history().items() == 1);
    assert!(rt; machine.close().log().len() == 5);
}

/// Renews the machine, and retries once if an allocation fails.
fn renew_with_retry(m: &mut Machine<Plain>, alloc: Global) -> Result<(), RenewError> {
    match m.renew(alloc, Plain) {
        Err(RenewError::NoMemory) => m.renew(alloc, Plain),
        answer => answer,
    }
}

/// A renewal that is always out of memory keeps its contract, and a full history would then stop the machine.
#[test]
fn renewal_starts_from_committed_values(rt: HostRuntime) {
    let mut machine = open_with_retry(&rt, rt.alloc(), 1);
    let m = &mut machine;
    check_replies(
        &rt,
        m,
        &[(BeginUpdate(0), Begun(TxnId(1))), (Write(1, 5), Wrote)],
    );
    assert!(rt; m.has_active());
    assert!(rt; renew_with_retry(m, rt.alloc()) == Err(RenewError::TransactionActive));
    check_replies(&rt, m, &[(Commit(1), Committed)]);
    assert!(rt; renew_with_retry(m, rt.alloc()) == Ok(()));
    assert!(rt; m.log().len() == 0);
    check_replies(
        &rt,
        m,
        &[(BeginUpdate(0), Begun(TxnId(1))), (Read(1), Value(5))],
    );
}
