//! Sessions on separate threads.
ghost use Rattle.std.specs.Prelude.{◌≡◌, ◌≤◌, [], map};
ghost use Rattle.esr_session.specs.declared.engine_name.TheConstants.{LEDGER_PARTS, MAX_SESSIONS};

use esr_core::StepError;
use esr_history::{Event, Log, Refusal, Reply, TxnId};
use esr_items::{ItemId, Plain, Store};
use esr_session::{
    CloseError, CloseRefused, Closed, Engine, LEDGER_PARTS, Naming, Receipt, Session,
    match_receipts,
};
use std::alloc::Global;
use std::marker::Brand;
use std::process::Abort;
use std::sync::Wait;
use std::sync::ledger::Blank;
use std::thread;
use std::thread::{JoinHandle, Threads};

/// Returns `count` opening values, all zero.
fn zeros(rt: &impl Abort, alloc: Global, count: usize) -> Store {
    let Ok(values) = Vec::from_elem(alloc, 0, count) else {
        panic!(rt; "memory")
    };
    let Ok(items) = Store::new(alloc, values) else {
        panic!(rt; "memory for items")
    };
    items
}

/// Opens an engine over these items, with `count` sessions. If an allocation fails, it is retried once.
fn open_sessions<N: Naming, R: Abort>(
    rt: &R,
    alloc: Global,
    blank: Blank,
    items: Store,
    count: usize,
) -> (Engine<Plain, N>, Vec<Session<Plain, N>>)
    requires name { blank.name ≡ N.name }
    requires parts { (blank.parts ≡ N.parts) × (blank.parts ≡ LEDGER_PARTS) }
    requires opening { map (λ w. w.committed) items ≡ N.opening }
    requires weights { [] ≡ N.weights }
    requires count { (1 ≤ count) × (count ≤ MAX_SESSIONS) }
{
    let Ok(mut engine) = Engine::<Plain, N>::new(alloc, blank, items, Plain) else {
        panic!(rt; "memory for an engine")
    };
    let made = match engine.open_sessions(count) {
        Err(_) => engine.open_sessions(count),
        made => made,
    };
    let Ok(sessions) = made else {
        panic!(rt; "refused twice")
    };
    (engine, sessions)
}

/// By their contracts a call may always find the engine closed, and a close always a foreign receipt.
#[test]
fn four_sessions(rt: HostRuntime) {
    let alloc = rt.alloc();
    let items = zeros(&rt, alloc, 0);
    let closed = begin_and_commit::<Brand, _>(rt, alloc, Blank::new(LEDGER_PARTS), items, 0);
    let items = zeros(&rt, alloc, 0);
    let other = begin_and_commit::<Brand, _>(rt, alloc, Blank::new(LEDGER_PARTS), items, 1);
    check_receipts(&rt, &closed);
    check_foreign(&rt, alloc, closed, other);
}

/// Checks that each session called 200 times, and that each receipt has the event and the reply of the entry at its
/// place.
fn check_receipts(rt: &impl Abort, closed: &Closed<Plain>) {
    let log = closed.history.log();
    assert!(rt; log.len() == 800);
    for list in &closed.receipts {
        assert!(rt; list.len() == 200 && are_placed(log, list));
    }
}

fn are_placed(log: &Log, list: &[Receipt]) -> bool {
    for receipt in list {
        let Some(entry) = log.get(receipt.at as usize) else {
            return false;
        };
        if entry.event != receipt.event || entry.reply != receipt.reply {
            return false;
        }
    }
    true
}

/// Checks that the receipts of another engine's session do not match.
fn check_foreign(rt: &impl Abort, alloc: Global, closed: Closed<Plain>, other: Closed<Plain>) {
    let mut lists = closed.receipts;
    let mut theirs = other.receipts;
    let (Some(_), Some(foreign)) = (lists.pop(), theirs.pop()) else {
        panic!(rt; "four lists of each")
    };
    lists.push(foreign).expect(rt, "memory");
    let answer = match_receipts(alloc, &closed.history, lists.as_slice());
    assert!(rt; matches!(answer, Err(CloseError::ForeignReceipt(_))));
}

/// Lets four sessions begin and commit 100 updates each, on separate threads, and closes the engine, which fails
/// until the last session is returned.
fn begin_and_commit<N, R>(
    rt: R,
    alloc: Global,
    blank: Blank,
    items: Store,
    limit: u64,
) -> Closed<Plain>
where
    N: Naming + Send + Sync + 'static,
    R: Threads + Wait + Abort + Copy + Send + 'static,
    requires name { blank.name ≡ N.name }
    requires parts { (blank.parts ≡ N.parts) × (blank.parts ≡ LEDGER_PARTS) }
    requires opening { map (λ w. w.committed) items ≡ N.opening }
    requires weights { [] ≡ N.weights }
{
    let (engine, sessions) = open_sessions::<N, R>(&rt, alloc, blank, items, 4);
    let back = run_all(rt, alloc, sessions, limit);
    close_twice(&rt, engine, back)
}

/// Runs each session on its own thread.
fn run_all<N, R>(
    rt: R,
    alloc: Global,
    sessions: Vec<Session<Plain, N>>,
    limit: u64,
) -> Vec<Session<Plain, N>>
where
    N: Naming + Send + Sync + 'static,
    R: Threads + Wait + Abort + Copy + Send + 'static,
{
    let mut running = Vec::new(alloc);
    for session in sessions {
        let thread = start(rt, session, limit);
        running.push(thread).expect(&rt, "memory");
    }
    let mut back = Vec::new(alloc);
    for thread in running {
        back.push(thread.join(&rt)).expect(&rt, "memory");
    }
    back
}

/// Closes the engine without one session, which fails, and then with all.
fn close_twice<N: Naming, R: Wait + Abort>(
    rt: &R,
    engine: Engine<Plain, N>,
    sessions: Vec<Session<Plain, N>>,
) -> Closed<Plain> {
    let mut sessions = sessions;
    let Some(kept) = sessions.pop() else {
        panic!(rt; "four sessions")
    };
    let Err(refused) = engine.close(rt, sessions) else {
        panic!(rt; "closed")
    };
    let CloseRefused {
        engine,
        mut sessions,
        error,
    } = refused;
    let missing = CloseError::SessionMissing {
        gathered: 600,
        total: 800,
    };
    assert!(rt; error == missing);
    sessions.push(kept).expect(rt, "memory");
    close_all(rt, engine, sessions)
}

/// Closes the engine with all its sessions.
fn close_all<N: Naming, R: Wait + Abort>(
    rt: &R,
    engine: Engine<Plain, N>,
    sessions: Vec<Session<Plain, N>>,
) -> Closed<Plain> {
    let Ok(closed) = engine.close(rt, sessions) else {
        panic!(rt; "refused")
    };
    closed
}

fn start<N, R>(rt: R, session: Session<Plain, N>, limit: u64) -> JoinHandle<Session<Plain, N>>
where
    N: Naming + Send + Sync + 'static,
    R: Threads + Wait + Abort + Copy + Send + 'static,
{
    let job = move || begin_often(&rt, session, limit);
    let Ok(thread) = thread::spawn(&rt, job) else {
        panic!(rt; "a thread")
    };
    thread
}

/// Begins an update and commits it, 100 times.
fn begin_often<N: Naming, R: Wait>(
    rt: &R,
    session: Session<Plain, N>,
    limit: u64,
) -> Session<Plain, N> {
    let mut session = session;
    for _ in 0..100 {
        begin_once(rt, &mut session, limit);
    }
    session
}

/// Begins an update and commits it.
fn begin_once<N: Naming, R: Wait>(rt: &R, session: &mut Session<Plain, N>, limit: u64) {
    let Some(begun) = call(rt, session, Event::BeginUpdate { limit }) else {
        return;
    };
    if let Reply::Begun(txn) = begun.reply {
        let _committed = call(rt, session, Event::Commit { txn });
    }
}

/// Before the close a receipt is of some legal history: a session that saw no other's writes would keep that clause.
#[test]
fn a_read_finds_what_another_session_wrote(rt: HostRuntime) {
    let alloc = rt.alloc();
    let items = zeros(&rt, alloc, 1);
    read_back::<Brand, _>(rt, alloc, Blank::new(LEDGER_PARTS), items);
}

/// Lets one session write on its own thread, and then the other read.
fn read_back<N, R>(rt: R, alloc: Global, blank: Blank, items: Store)
where
    N: Naming + Send + Sync + 'static,
    R: Threads + Wait + Abort + Copy + Send + 'static,
    requires name { blank.name ≡ N.name }
    requires parts { (blank.parts ≡ N.parts) × (blank.parts ≡ LEDGER_PARTS) }
    requires opening { map (λ w. w.committed) items ≡ N.opening }
    requires weights { [] ≡ N.weights }
{
    let (engine, mut sessions) = open_sessions::<N, R>(&rt, alloc, blank, items, 2);
    let (first, mut second) = last_two(&rt, &mut sessions);
    let first = write_apart(rt, first);
    read_five(&rt, &mut second);
    release(&rt, &mut sessions, first, second);
    let closed = close_all(&rt, engine, sessions);
    assert!(rt; closed.history.log().len() == 6);
    check_list_given_twice(&rt, alloc, closed);
}

/// Takes the last two sessions.
fn last_two<N: Naming>(
    rt: &impl Abort,
    sessions: &mut Vec<Session<Plain, N>>,
) -> (Session<Plain, N>, Session<Plain, N>) {
    let (Some(second), Some(first)) = (sessions.pop(), sessions.pop()) else {
        panic!(rt; "two sessions")
    };
    (first, second)
}

/// Puts two sessions back.
fn release<N: Naming>(
    rt: &impl Abort,
    sessions: &mut Vec<Session<Plain, N>>,
    first: Session<Plain, N>,
    second: Session<Plain, N>,
) {
    sessions.push(first).expect(rt, "memory");
    sessions.push(second).expect(rt, "memory");
}

/// Lets the session write on its own thread.
fn write_apart<N, R>(rt: R, session: Session<Plain, N>) -> Session<Plain, N>
where
    N: Naming + Send + Sync + 'static,
    R: Threads + Wait + Abort + Copy + Send + 'static,
{
    let writer = move || write_five(&rt, session);
    let Ok(thread) = thread::spawn(&rt, writer) else {
        panic!(rt; "a thread")
    };
    thread.join(&rt)
}

/// Makes a call, of which nothing but its receipt is known afterwards.
fn call<N: Naming, R: Wait>(
    rt: &R,
    session: &mut Session<Plain, N>,
    event: Event,
) -> Option<Receipt> {
    session.call(rt, event).ok()
}

/// Lets the second transaction read item 0, as the fifth entry.
fn read_five<N: Naming, R: Wait + Abort>(rt: &R, session: &mut Session<Plain, N>) {
    let _begun = call(rt, session, Event::BeginUpdate { limit: 0 });
    let Some(read) = call(rt, session, read_event(2)) else {
        panic!(rt; "a read")
    };
    let _committed = call(rt, session, Event::Commit { txn: TxnId(2) });
    assert!(rt; read.reply == Reply::Value(5));
    assert!(rt; read.at == 4);
}

/// Checks that a list of receipts passed twice, in place of two lists of the same length, does not match.
fn check_list_given_twice(rt: &impl Abort, alloc: Global, closed: Closed<Plain>) {
    let mut lists = closed.receipts;
    let Some(list) = lists.pop() else {
        panic!(rt; "two lists")
    };
    let same = list.as_slice().to_vec(alloc).expect(rt, "memory");
    let twice = [same, list];
    let answer = match_receipts(alloc, &closed.history, &twice);
    assert!(rt; matches!(answer, Err(CloseError::ForeignReceipt(_))));
}

/// Lets the first transaction write 5 to item 0 and commit.
fn write_five<N: Naming, R: Wait>(rt: &R, session: Session<Plain, N>) -> Session<Plain, N> {
    let mut session = session;
    let _begun = call(rt, &mut session, Event::BeginUpdate { limit: 0 });
    let _wrote = call(rt, &mut session, write_event(1));
    let _committed = call(rt, &mut session, Event::Commit { txn: TxnId(1) });
    session
}

fn read_event(txn: u32) -> Event {
    Event::Read {
        txn: TxnId(txn),
        item: ItemId(0),
    }
}

fn write_event(txn: u32) -> Event {
    Event::Write {
        txn: TxnId(txn),
        item: ItemId(0),
        value: 5,
    }
}

/// By their clauses, a patient call may find the engine closed at once, and a call after the close may still get a
/// reply.
#[test]
fn a_patient_call_takes_its_turns(rt: HostRuntime) {
    let alloc = rt.alloc();
    let items = zeros(&rt, alloc, 1);
    wait_for_a_lock::<Brand, _>(rt, alloc, Blank::new(LEDGER_PARTS), items);
}

/// Lets the second update read, in three turns, a value that the first has written and not committed. A third session
/// makes no call until the engine is closed, and its call then returns that the engine is closed.
fn wait_for_a_lock<N, R>(rt: R, alloc: Global, blank: Blank, items: Store)
where
    N: Naming,
    R: Wait + Abort + Copy,
    requires name { blank.name ≡ N.name }
    requires parts { (blank.parts ≡ N.parts) × (blank.parts ≡ LEDGER_PARTS) }
    requires opening { map (λ w. w.committed) items ≡ N.opening }
    requires weights { [] ≡ N.weights }
{
    let (engine, mut sessions) = open_sessions::<N, R>(&rt, alloc, blank, items, 3);
    let Some(mut idle) = sessions.pop() else {
        panic!(rt; "three sessions")
    };
    let (mut first, mut second) = last_two(&rt, &mut sessions);
    block_on_a_write(&rt, &mut first, &mut second);
    release(&rt, &mut sessions, first, second);
    let closed = close_all(&rt, engine, sessions);
    check_turns(&rt, &closed);
    let late = idle.call(&rt, Event::BeginUpdate { limit: 0 });
    assert!(rt; late == Err(StepError::EngineClosed));
}

/// Lets the second session's transaction read, in three turns, a value that the first session's has written.
fn block_on_a_write<N: Naming, R: Wait + Abort>(
    rt: &R,
    first: &mut Session<Plain, N>,
    second: &mut Session<Plain, N>,
) {
    let _begun = call(rt, first, Event::BeginUpdate { limit: 0 });
    let _wrote = call(rt, first, write_event(1));
    let _begun = call(rt, second, Event::BeginUpdate { limit: 0 });
    let Some(blocked) = call_in_three_turns(rt, second, read_event(2)) else {
        panic!(rt; "a reply")
    };
    assert!(rt; blocked.reply == Reply::Refused(Refusal::BlockedByLock(TxnId(1))));
    assert!(rt; blocked.at == 5);
}

/// Makes a patient call with three turns.
fn call_in_three_turns<N: Naming, R: Wait>(
    rt: &R,
    session: &mut Session<Plain, N>,
    event: Event,
) -> Option<Receipt> {
    session.call_patient(rt, event, 3).ok()
}

/// Checks the two calls of the first session, and the begin and three turns of the second.
fn check_turns(rt: &impl Abort, closed: &Closed<Plain>) {
    assert!(rt; closed.history.log().len() == 6);
    let receipts = &closed.receipts;
    assert!(rt; receipts.len() == 2);
    assert!(rt; receipts[0].len() == 2);
    assert!(rt; receipts[1].len() == 4);
}

/// No contract guarantees memory: after a failed allocation, each call is retried once. The effect of each failed
/// allocation in turn is tested by checks/faults.
#[test]
fn each_call_is_made_once_more(rt: HostRuntime) {
    let alloc = rt.alloc();
    let items = zeros(&rt, alloc, 1);
    call_once_more::<Brand, _>(rt, alloc, Blank::new(LEDGER_PARTS), items);
}

/// Lets sessions write, and commit in a patient call, closes the engine, and compares its receipts.
fn call_once_more<N, R>(rt: R, alloc: Global, blank: Blank, items: Store)
where
    N: Naming,
    R: Wait + Abort + Copy,
    requires name { blank.name ≡ N.name }
    requires parts { (blank.parts ≡ N.parts) × (blank.parts ≡ LEDGER_PARTS) }
    requires opening { map (λ w. w.committed) items ≡ N.opening }
    requires weights { [] ≡ N.weights }
{
    let (engine, mut sessions) = open_sessions::<N, R>(&rt, alloc, blank, items, 2);
    for session in &mut sessions {
        write_once_more(&rt, session);
    }
    let closed = close_once_more(&rt, engine, sessions);
    assert!(rt; closed.history.log().len() == 6);
    match_once_more(&rt, alloc, &closed);
}

/// Lets the session begin an update, write and commit.
fn write_once_more<N: Naming, R: Wait + Abort>(rt: &R, session: &mut Session<Plain, N>) {
    let begun = insist(rt, session, Event::BeginUpdate { limit: 0 });
    let Reply::Begun(txn) = begun else {
        panic!(rt; "no update begun")
    };
    let wrote = insist(rt, session, write_event(txn.0));
    assert!(rt; wrote == Reply::Wrote);
    let committed = insist(rt, session, Event::Commit { txn });
    assert!(rt; committed == Reply::Committed);
}

/// Returns the reply to a patient call, which is retried once if an allocation fails.
fn insist<N: Naming, R: Wait + Abort>(
    rt: &R,
    session: &mut Session<Plain, N>,
    event: Event,
) -> Reply {
    let answer = match session.call(rt, event) {
        Err(StepError::NoMemory) => session.call_patient(rt, event, 2),
        answer => answer,
    };
    let Ok(receipt) = answer else {
        panic!(rt; "refused twice")
    };
    receipt.reply
}

/// Closes the engine, and retries once if an allocation fails.
fn close_once_more<N: Naming, R: Wait + Abort>(
    rt: &R,
    engine: Engine<Plain, N>,
    sessions: Vec<Session<Plain, N>>,
) -> Closed<Plain> {
    match engine.close(rt, sessions) {
        Ok(closed) => closed,
        Err(refused) => {
            let CloseError::NoMemory = refused.error else {
                panic!(rt; "refused for another reason")
            };
            close_all(rt, refused.engine, refused.sessions)
        }
    }
}

/// Compares the receipts, and retries once if an allocation fails.
fn match_once_more(rt: &impl Abort, alloc: Global, closed: &Closed<Plain>) {
    let answer = match match_receipts(alloc, &closed.history, closed.receipts.as_slice()) {
        Err(CloseError::NoMemory) => {
            match_receipts(alloc, &closed.history, closed.receipts.as_slice())
        }
        answer => answer,
    };
    assert!(rt; answer == Ok(()));
}
