//! An engine: a machine protected by a lock, opened for its sessions and closed with them.
//!
//! The type of the locked data admits open and closed engines, but a close must not find a closed one. So the engine
//! holds a share of the ghost counter (`Ledger`), 1,000,001 while it is open: the total of an open engine exceeds any
//! total of a closed one, so the share proves which it is. The counter costs nothing at run time.
//!
//! A close counts the receipts before it compares them: if there are too few, it is refused without an allocation.
//! Receipts are compared in place; none is copied.
ghost use Rattle.esr_session.specs.declared.engine_name.TheConstants.{LEDGER_PARTS, MAX_SESSIONS};
ghost use Rattle.std.specs.Prelude.{◌≡◌, ◌+◌, ◌<◌, ◌≤◌, [], true, length, Some, None, All, IfOk, OnOk, IfErr, OnErr, vec_len, map, vec_capacity};
ghost use Rattle.esr_history.specs.Machine.{IsLegal};
ghost use Rattle.esr_session.specs.Receipts.{Matches, IsVerdict, count_in};
ghost use Rattle.esr_session.specs.Engine.{is_missing, AreTotals, IsRefusal, Sessions};
ghost use Rattle.esr_session.specs.declared.engine.TheConstants.{SEAL};

use crate::engine_name::{Cut, Naming};
use crate::lock::{Locked, Pocket};
use crate::matcher::match_all;
use crate::receipt::{CloseError, Receipt};
use crate::session::Session;
use esr_core::{Machine, Totals};
use esr_history::{History, MAX_ENTRIES, NoMemory};
use esr_items::{Metric, Store};
use std::alloc::{AllocError, Global};
use std::marker::Model;
use std::sync::ledger::{Blank, Book, Share};
use std::sync::{Arc, Mutex, Wait};

/// More than a history can have entries: the amount of an open engine's own share.
pub(crate) const SEAL: u64 = MAX_ENTRIES as u64 + 1;

/// A machine protected by a lock. Contracts see how many sessions were opened.
#[derive(Drop)]
pub struct Engine<M: Metric + Drop, N: Naming> {
    shared: Arc<Mutex<Locked<M, N>>, Global>,
    rest: Share<N>,
    opened: usize,
    cut: Cut<N>,
    alloc: Global,
}

impl<M: Metric + Drop, N: Naming> Model for Engine<M, N> {
    ghost Value = { Sessions };

    ghost view = { λ e. record { opened = e.opened } };

    ghost invariant = { λ e. (e.rest.parts + e.opened ≡ LEDGER_PARTS) × (e.opened ≤ MAX_SESSIONS)
        × (e.rest.amount ≡ SEAL) };
}

/// The result of closing an engine: its history with its totals, and the receipts of each session.
#[derive(Drop)]
pub struct Closed<M: Metric + Drop> {
    pub history: History<M>,
    pub totals: Totals,
    pub receipts: Vec<Vec<Receipt>>,
}

/// Why an engine was not closed, with all that was handed in.
#[derive(Drop)]
pub struct CloseRefused<M: Metric + Drop, N: Naming> {
    pub engine: Engine<M, N>,
    pub sessions: Vec<Session<M, N>>,
    pub error: CloseError,
}

impl<M: Metric + Drop, N: Naming> Engine<M, N> {
    /// Creates an engine over these items, whose committed values are the opening values.
    ///
    /// # Errors
    /// `NoMemory` if an allocation failed.
    pub fn new(
        alloc: Global,
        blank: Blank,
        items: Store,
        metric: M,
    ) -> Result<Engine<M, N>, NoMemory>
        requires name { blank.name ≡ N.name }
        requires parts { (blank.parts ≡ N.parts) × (blank.parts ≡ LEDGER_PARTS) }
        requires opening { map (λ w. w.committed) items ≡ N.opening }
        requires weights { M.weights metric ≡ N.weights }
        ensures { IfOk result (λ e. e.opened ≡ 0) }
    {
        let cut = Cut::new();
        let machine = Machine::new(alloc, items, metric)?;
        let (mut total, mut rest) = blank.open::<N>();
        total.add(&mut rest, SEAL);
        let locked = Locked {
            machine: Some(machine),
            total,
        };
        let Ok(shared) = Arc::new(alloc, Mutex::new(locked)) else {
            return Err(NoMemory);
        };
        Ok(Engine {
            shared,
            rest,
            opened: 0,
            cut,
            alloc,
        })
    }

    /// Opens 1 to 64 sessions without receipts. An engine opens its sessions once.
    ///
    /// # Errors
    /// `NoMemory` if an allocation failed. The engine is then as before.
    pub fn open_sessions(&mut self, n: usize) -> Result<Vec<Session<M, N>>, NoMemory>
        requires number { (1 ≤ n) × (n ≤ MAX_SESSIONS) }
        requires first { self.old.opened ≡ 0 }
        ensures sessions { IfOk result (λ sessions. (vec_len sessions ≡ n)
            × All (λ session. session ≡ []) sessions.items) }
        ensures opened { OnOk result (self.new.opened ≡ n) }
        ensures err { OnErr result (self.new ≡ self.old) }
    {
        let sessions = deal(self.alloc, &self.shared, &mut self.rest, n)?;
        self.opened = n;
        Ok(sessions)
    }

    /// Gathers the receipts, compares them with the history and takes the machine, under a single acquisition of the
    /// lock.
    ///
    /// # Errors
    /// `SessionMissing` only if fewer sessions are passed than were opened; `ForeignReceipt` and `NoMemory` like
    /// `match_receipts`. The error returns the engine and the sessions unchanged, and they can still be used.
    pub fn close<R: Wait>(
        self,
        rt: &R,
        sessions: Vec<Session<M, N>>,
    ) -> Result<Closed<M>, CloseRefused<M, N>>
        ensures history { IfOk result (λ closed. (closed.history.schedule.opening ≡ N.opening)
            × (closed.history.schedule.weights ≡ N.weights) × IsLegal M.distance_by closed.history.schedule
            × (length closed.history.schedule.entries ≤ MAX_ENTRIES)) }
        ensures totals { IfOk result (λ closed. AreTotals M.distance_by closed.history.schedule closed.totals) }
        ensures receipts { IfOk result (λ closed. map (λ list. list.items) closed.receipts.items ≡ sessions.items) }
        ensures matching { IfOk result (λ closed. Matches closed.history.schedule.entries sessions.items) }
        ensures every_call { IfOk result (λ closed. length closed.history.schedule.entries ≡ count_in sessions.items) }
        ensures refused { IfErr result (λ refused. (refused.engine ≡ self)
            × (refused.sessions.items ≡ sessions.items)) }
        ensures why { IfErr result (λ refused. IsRefusal M.distance_by N.opening N.weights sessions.items refused.error) }
        ensures missing { IfErr result (λ refused. is_missing refused.error ≡ true → vec_len sessions < self.opened) }
    {
        let mut engine = self;
        let mut sessions = sessions;
        let _parts = engine.cut.parts(); // brings the count of parts into the proof
        let Ok(lists) = Vec::with_capacity(engine.alloc, sessions.len()) else {
            return Err(CloseRefused {
                engine,
                sessions,
                error: CloseError::NoMemory,
            });
        };
        match close_shared(
            rt,
            engine.alloc,
            &engine.shared,
            &mut engine.rest,
            sessions.as_mut_slice(),
        ) {
            Ok(machine) => Ok(Closed {
                totals: machine.totals(),
                history: machine.close(),
                receipts: take_apart(lists, sessions),
            }),
            Err(error) => Err(CloseRefused {
                engine,
                sessions,
                error,
            }),
        }
    }
}

/// Sessions with one part of the ledger each. All memory is taken before the first part is.
fn deal<M: Metric + Drop, N: Naming>(
    alloc: Global,
    shared: &Arc<Mutex<Locked<M, N>>, Global>,
    rest: &mut Share<N>,
    n: usize,
) -> Result<Vec<Session<M, N>>, AllocError>
    requires { n < rest.old.parts }
    ensures sessions { IfOk result (λ sessions. (vec_len sessions ≡ n) × All (λ session. session ≡ []) sessions.items) }
    ensures parts { OnOk result (rest.new.parts + n ≡ rest.old.parts) }
    ensures amount { rest.new.amount ≡ rest.old.amount }
    ensures err { OnErr result (rest.new.parts ≡ rest.old.parts) }
{
    let mut sessions = Vec::with_capacity(alloc, n)?;
    let mut locks = clones(alloc, shared, n)?;
    while let Some(shared) = locks.pop() {
        let pocket = Pocket {
            receipts: Vec::new(alloc),
            share: rest.split_off(1, 0),
        };
        sessions.push_reserved(Session { shared, pocket });
    }
    Ok(sessions)
}

/// Returns `n` references to the lock.
fn clones<M: Metric + Drop, N: Naming>(
    alloc: Global,
    shared: &Arc<Mutex<Locked<M, N>>, Global>,
    n: usize,
) -> Result<Vec<Arc<Mutex<Locked<M, N>>, Global>>, AllocError>
    ensures { IfOk result (λ all. vec_len all ≡ n) }
{
    let mut all = Vec::new(alloc);
    for _i in 0..n {
        all.push(Arc::try_clone(shared)?)?;
    }
    Ok(all)
}

/// Closes the engine, except for taking the machine and the sessions apart. Takes the lock once.
fn close_shared<M: Metric + Drop, N: Naming, R: Wait>(
    rt: &R,
    alloc: Global,
    shared: &Arc<Mutex<Locked<M, N>>, Global>,
    rest: &mut Share<N>,
    sessions: &mut [Session<M, N>],
) -> Result<Machine<M>, CloseError>
    requires { (0 < rest.old.parts) × (rest.old.amount ≡ SEAL) }
    ensures opened { IfOk result (λ machine. (machine.opening ≡ N.opening) × (machine.weights ≡ N.weights)) }
    ensures matching { IfOk result (λ machine. Matches machine.entries sessions.old) }
    ensures every_call { IfOk result (λ machine. length machine.entries ≡ count_in sessions.old) }
    ensures sessions { sessions.new ≡ sessions.old }
    ensures err { OnErr result ((rest.new.parts ≡ rest.old.parts) × (rest.new.amount ≡ rest.old.amount)) }
    ensures why { IfErr result (IsRefusal M.distance_by N.opening N.weights sessions.old) }
    ensures missing { IfErr result (λ error. is_missing error ≡ true → rest.old.parts + length sessions.old < N.parts) }
{
    let mut locked = shared.lock(rt);
    close_on(alloc, &mut *locked, rest, sessions)
}

/// Closes the engine inside the lock.
fn close_on<M: Metric + Drop, N: Naming>(
    alloc: Global,
    locked: &mut Locked<M, N>,
    rest: &mut Share<N>,
    sessions: &mut [Session<M, N>],
) -> Result<Machine<M>, CloseError>
    requires { (0 < rest.old.parts) × (rest.old.amount ≡ SEAL) }
    ensures machine { IfOk result (λ machine. locked.old ≡ Some machine) }
    ensures opened { IfOk result (λ machine. (machine.opening ≡ N.opening) × (machine.weights ≡ N.weights)) }
    ensures closed { OnOk result (locked.new ≡ None) }
    ensures matching { IfOk result (λ machine. Matches machine.entries sessions.old) }
    ensures every_call { IfOk result (λ machine. length machine.entries ≡ count_in sessions.old) }
    ensures sessions { sessions.new ≡ sessions.old }
    ensures err { OnErr result ((locked.new ≡ locked.old) × (rest.new.parts ≡ rest.old.parts)
        × (rest.new.amount ≡ rest.old.amount)) }
    ensures why { IfErr result (IsRefusal M.distance_by N.opening N.weights sessions.old) }
    ensures missing { IfErr result (λ error. is_missing error ≡ true → rest.old.parts + length sessions.old < N.parts) }
{
    audit_from(&mut locked.total, rest, sessions);
    match &locked.machine {
        Some(machine) => match_sessions(alloc, machine.history(), sessions)?,
        None => unreachable!(),
    }
    // only now, when nothing can fail any more, is the machine taken out of its lock
    match locked.machine.take() {
        Some(machine) => {
            locked.total.sub(rest, SEAL);
            Ok(machine)
        }
        None => unreachable!(),
    }
}

/// Proves that a share together with those of the sessions is within the total, and equals it if they have all parts:
/// adds each session's part to the share in turn, audits the share, and returns all parts.
fn audit_from<M: Metric + Drop, N: Naming>(
    total: &mut Book<N>,
    seen: &mut Share<N>,
    sessions: &mut [Session<M, N>],
)
    requires { 0 < seen.old.parts }
    ensures total { total.new.total ≡ total.old.total }
    ensures parts { seen.new.parts ≡ seen.old.parts }
    ensures amount { seen.new.amount ≡ seen.old.amount }
    ensures sessions { sessions.new ≡ sessions.old }
    ensures bound { seen.old.amount + count_in sessions.old ≤ total.old.total }
    ensures fits { seen.old.parts + length sessions.old ≤ N.parts }
    ensures whole { seen.old.parts + length sessions.old ≡ N.parts
        → seen.old.amount + count_in sessions.old ≡ total.old.total }
{
    match sessions.split_first_mut() {
        None => {
            let mut none = seen.empty();
            none.give(seen, 0, 0);
            total.audit(seen);
        }
        Some((first, others)) => {
            let pocket = &mut first.pocket;
            let amount = pocket.receipts.len() as u64;
            pocket.share.give(seen, 1, amount);
            audit_from(total, seen, others);
            seen.give(&mut pocket.share, 1, amount);
        }
    }
}

/// Compares the sessions' receipts with the history.
fn match_sessions<M: Metric + Drop, N: Naming>(
    alloc: Global,
    history: &History<M>,
    sessions: &[Session<M, N>],
) -> Result<(), CloseError>
    ensures enough { OnOk result (length history.now.schedule.entries ≤ count_in sessions.now) }
    ensures verdict { IsVerdict history.now.schedule.entries sessions.now result }
    ensures missing { IfErr result (λ error. is_missing error ≡ true
        → count_in sessions.now < length history.now.schedule.entries) }
{
    match_all(alloc, history, sessions)
}

/// Returns the receipts of all sessions, in order.
fn take_apart<M: Metric + Drop, N: Naming>(
    lists: Vec<Vec<Receipt>>,
    sessions: Vec<Session<M, N>>,
) -> Vec<Vec<Receipt>>
    requires none { lists.items ≡ [] }
    requires fits { vec_len sessions ≤ vec_capacity lists }
    ensures { map (λ list. list.items) result.items ≡ sessions.items }
{
    let mut lists = lists;
    let mut sessions = sessions;
    sessions.as_mut_slice().reverse();
    while let Some(session) = sessions.pop() {
        lists.push_reserved(session.into_receipts());
    }
    lists
}
