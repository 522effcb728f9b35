//! Audits by several workers.
ghost use Rattle.std.specs.Prelude.{◌≡◌};
ghost use Rattle.esr_board.specs.Boards.{IsSeatOf, jobs_of};

use crate::tests::barrier::Barrier;
use esr_audit::{AuditError, Book, Finding};
use esr_board::{Board, BoardSeat, Gate, NoGate, audit_parallel, work};
use esr_core::Machine;
use esr_history::{Event, History, Reply, TxnId};
use esr_items::{ItemId, Plain, Store};
use std::alloc::Global;
use std::process::Abort;
use std::thread::Threads;

/// A report reads a and b, and between its reads two updates commit.
const TWO_UPDATES_OVER_A_REPORT: [Event; 11] = [
    Event::BeginQuery {
        limit: 100,
        strict: false,
    },
    Event::BeginUpdate { limit: 100 },
    Event::BeginUpdate { limit: 100 },
    Event::Read {
        txn: TxnId(1),
        item: ItemId(0),
    },
    Event::Write {
        txn: TxnId(2),
        item: ItemId(0),
        value: 10,
    },
    Event::Commit { txn: TxnId(2) },
    Event::Write {
        txn: TxnId(3),
        item: ItemId(0),
        value: 1,
    },
    Event::Write {
        txn: TxnId(3),
        item: ItemId(1),
        value: 8,
    },
    Event::Commit { txn: TxnId(3) },
    Event::Read {
        txn: TxnId(1),
        item: ItemId(1),
    },
    Event::Commit { txn: TxnId(1) },
];

/// A second report reads a.
const A_SECOND_REPORT: [Event; 3] = [
    Event::BeginQuery {
        limit: 100,
        strict: false,
    },
    Event::Read {
        txn: TxnId(4),
        item: ItemId(0),
    },
    Event::Commit { txn: TxnId(4) },
];

/// Returns a machine with the items a and b.
fn machine(rt: &impl Abort, alloc: Global) -> Machine<Plain> {
    let Ok(values) = [0i64, 0].to_vec(alloc) else {
        panic!(rt; "two values")
    };
    let Ok(items) = Store::new(alloc, values) else {
        panic!(rt; "two items")
    };
    let Ok(machine) = Machine::new(alloc, items, Plain) else {
        panic!(rt; "a machine")
    };
    machine
}

/// Gives the machine the events, which it accepts.
fn run_events(rt: &impl Abort, machine: &mut Machine<Plain>, events: &[Event]) {
    for event in events {
        let reply = machine.step(*event);
        assert!(rt;
            !matches!(reply, Err(_) | Ok(Reply::Refused(_))),
            "an event is accepted"
        );
    }
}

/// Audits a history with `workers` threads.
fn audit_by<G: Gate + Sync, R: Threads + Abort + Sync>(
    rt: &R,
    alloc: Global,
    history: &History<Plain>,
    workers: u64,
    gate: &G,
) -> Book {
    let Ok(book) = audit_parallel(rt, alloc, history, workers, gate) else {
        panic!(rt; "{} workers audit", workers)
    };
    book
}

/// Returns whether a finding is that of the first report.
fn is_of_the_first_report(found: &Finding) -> bool {
    found.query == TxnId(1)
        && found.distance == 1
        && found.import == 19
        && found.before.as_slice() == [TxnId(2), TxnId(3)].as_slice()
}

/// Returns a machine that executed the two updates over a report.
fn machine_after_report(rt: &impl Abort, alloc: Global) -> Machine<Plain> {
    let mut machine = machine(rt, alloc);
    run_events(rt, &mut machine, &TWO_UPDATES_OVER_A_REPORT);
    machine
}

/// Returns whether an audit finds the order of the updates, and the finding of the first report.
fn is_of_two_updates(book: &Book) -> bool {
    book.order.as_slice() == [TxnId(2), TxnId(3)].as_slice()
        && book.findings.len() == 1
        && is_of_the_first_report(&book.findings[0])
}

/// By its contract each audit may be out of memory: here one, two and the maximum number of workers find the same.
#[test]
fn each_number_of_workers_finds_the_same(rt: HostRuntime) {
    let m = machine_after_report(&rt, rt.alloc());
    for workers in [1, 2, 64] {
        let book = audit_by(&rt, rt.alloc(), m.history(), workers, &NoGate);
        assert!(rt; is_of_two_updates(&book));
    }
}

/// The maximum number of workers is a constant that no clause compares with the formats: 65 could be proved.
#[test]
fn an_audit_has_1_to_64_workers(rt: HostRuntime) {
    let m = machine_after_report(&rt, rt.alloc());
    for workers in [0, 65] {
        let refused = audit_parallel(&rt, rt.alloc(), m.history(), workers, &NoGate);
        assert!(rt; refused.err() == Some(AuditError::WorkersOutOfRange));
    }
}

/// No contract guarantees a thread time or memory: four workers have nothing to claim here, and the audit still ends.
#[test]
fn an_empty_history_has_no_findings(rt: HostRuntime) {
    let m = machine(&rt, rt.alloc());
    let book = audit_by(&rt, rt.alloc(), m.history(), 4, &NoGate);
    assert!(rt; book.order.is_empty() && book.findings.is_empty());
}

/// No clause states that threads run concurrently or call the gate: one worker for both jobs would wait there in
/// vain.
#[test]
fn two_workers_at_once(rt: HostRuntime) {
    let mut m = machine_after_report(&rt, rt.alloc());
    run_events(&rt, &mut m, &A_SECOND_REPORT);
    let barrier = Barrier::new();
    let book = audit_by(&rt, rt.alloc(), m.history(), 2, &barrier);
    assert!(rt; book.findings.len() == 2);
    assert!(rt; is_of_the_first_report(&book.findings[0]) && book.findings[1].query == TxnId(4));
    barrier.assert_both_entered(&rt);
}

/// Returns a board of `jobs` jobs, and its one seat.
fn one_seat(rt: &impl Abort, alloc: Global, jobs: u64) -> (Board, BoardSeat)
    ensures jobs { jobs_of result.0 ≡ jobs }
    ensures seat { IsSeatOf result.0 result.1 }
{
    let Ok((board, mut seats)) = Board::new(alloc, jobs, 1) else {
        panic!(rt; "a board")
    };
    let Some(seat) = seats.pop() else {
        panic!(rt; "one seat")
    };
    (board, seat)
}

/// The contract permits out of memory in place of this refusal; the job that the seat claimed is not lost by it.
#[test]
fn a_worker_refuses_what_is_no_committed_query(rt: HostRuntime) {
    let m = machine_after_report(&rt, rt.alloc());
    let (board, mut seat) = one_seat(&rt, rt.alloc(), 2);
    let jobs = [TxnId(1), TxnId(2)];
    let share = work(rt.alloc(), m.history(), &jobs, &board, &mut seat, &NoGate);
    assert!(rt; share.err() == Some(AuditError::NotACommittedQuery));

    // The seat has drawn both jobs, and a second call finds nothing more to do.
    let Ok(rest) = work(rt.alloc(), m.history(), &jobs, &board, &mut seat, &NoGate) else {
        panic!(rt; "no job is left")
    };
    assert!(rt; rest.found.is_empty());
    let mut given = Vec::new(rt.alloc());
    given.push(seat).expect(&rt, "memory");
    assert!(rt; board.close(given) == Ok(()));
}

/// By its contract, a worker may claim its job and always be out of memory: here its share has the job's finding.
#[test]
fn a_worker_alone_does_all_jobs(rt: HostRuntime) {
    let m = machine_after_report(&rt, rt.alloc());
    let (board, mut seat) = one_seat(&rt, rt.alloc(), 1);
    let jobs = [TxnId(1)];
    let Ok(share) = work(rt.alloc(), m.history(), &jobs, &board, &mut seat, &NoGate) else {
        panic!(rt; "the report is audited")
    };
    assert!(rt; share.found.len() == 1);
    assert!(rt; share.found[0].0 == 0 && is_of_the_first_report(&share.found[0].1));
}
