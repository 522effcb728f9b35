//! Measures the calls of sessions on one engine, compared with the steps of a machine with one thread.

ghost use Rattle.std.specs.Prelude.{◌≡◌, ◌<◌, [], map};
ghost use Rattle.esr_session.specs.declared.engine_name.TheConstants.{LEDGER_PARTS};

use crate::draws::Draws;
use anyhow::{Result, anyhow};
use esr_core::Machine;
use esr_history::{Event, Reply};
use esr_items::{ItemId, Plain, Store};
use esr_session::{Engine, LEDGER_PARTS, MAX_SESSIONS, Naming, Session};
use std::alloc::Global;
use std::marker::Brand;
use std::rt::Clock;
use std::sync::Wait;
use std::sync::ledger::Blank;
use std::thread;
use std::thread::Threads;
use std::time::{Duration, Instant};

const ITEMS: u32 = 4096;

/// A begin, four reads, four writes and a commit.
const CALLS: u128 = 10;

/// Measures `transactions` transactions on a machine, and with 1, 2 and 4 sessions on one engine.
pub fn measure<R: Threads + Wait + Clock + Print + Eprint + Sync>(
    rt: &R,
    alloc: Global,
    transactions: u32,
) -> Result<()> {
    if transactions > 60_000 {
        return Err(anyhow!("at most 60000 transactions"));
    }
    let time = measure_machine(rt, alloc, transactions)?;
    print(rt, "machine", transactions, time)?;
    for sessions in [1, 2, 4] {
        let (entries, time) = measure_sessions(rt, alloc, sessions, transactions)?;
        println!(rt; "sessions {sessions} entries {entries}")?;
        print(rt, "sessions", transactions, time)?;
    }
    Ok(())
}

/// Prints the number of calls per second.
fn print(rt: &impl Eprint, what: &str, transactions: u32, time: Duration) -> Result<()> {
    let micros = time.as_micros().max(1);
    let rate = u128::from(transactions) * CALLS * 1_000_000 / micros;
    eprintln!(rt; "{what}: {rate} calls a second")?;
    Ok(())
}

/// Returns opening values, all zero.
fn items(alloc: Global) -> Result<Store> {
    let values = Vec::from_elem(alloc, 0, ITEMS as usize)?;
    Store::new(alloc, values).map_err(|_| anyhow!("no items"))
}

/// A target of events: a machine, or a session.
trait Steps {
    /// Executes an event, and returns the reply, or `None` if there is none.
    fn step(&mut self, event: Event) -> Option<Reply>;
}

#[derive(Drop)]
struct Alone<'a> {
    machine: &'a mut Machine<Plain>,
}

impl Steps for Alone<'_> {
    fn step(&mut self, event: Event) -> Option<Reply> {
        self.machine.step(event).ok()
    }
}

#[derive(Drop)]
struct Shared<'a, N: Naming, R: Wait> {
    rt: &'a R,
    session: &'a mut Session<Plain, N>,
}

impl<N: Naming, R: Wait> Steps for Shared<'_, N, R> {
    fn step(&mut self, event: Event) -> Option<Reply> {
        let receipt = self.session.call(self.rt, event).ok()?;
        Some(receipt.reply)
    }
}

/// Draws an item.
fn item(draws: &mut Draws) -> ItemId {
    ItemId(draws.next(ITEMS))
}

/// Makes one transaction: a begin, four reads, four writes and a commit.
fn transaction(caller: &mut impl Steps, draws: &mut Draws) {
    let Some(Reply::Begun(txn)) = caller.step(Event::BeginUpdate { limit: 0 }) else {
        return;
    };
    for _ in 0..4 {
        let _ = caller.step(Event::Read {
            txn,
            item: item(draws),
        });
    }
    for value in 0..4 {
        let _ = caller.step(Event::Write {
            txn,
            item: item(draws),
            value,
        });
    }
    let _ = caller.step(Event::Commit { txn });
}

/// Makes `count` transactions with one caller.
fn transactions(caller: &mut impl Steps, count: u32, seed: u64) {
    let mut draws = Draws { state: seed };
    for _ in 0..count {
        transaction(caller, &mut draws);
    }
}

fn measure_machine(rt: &impl Clock, alloc: Global, count: u32) -> Result<Duration> {
    match Machine::new(alloc, items(alloc)?, Plain) {
        Ok(mut machine) => measure_alone(rt, &mut machine, count),
        Err(_) => Err(anyhow!("out of memory")),
    }
}

/// Returns the time that a machine takes for `count` transactions.
fn measure_alone(rt: &impl Clock, machine: &mut Machine<Plain>, count: u32) -> Result<Duration> {
    let start = Instant::now(rt)?;
    transactions(&mut Alone { machine }, count, 1);
    Ok(start.elapsed(rt)?)
}

fn measure_sessions<R: Threads + Wait + Clock + Sync>(
    rt: &R,
    alloc: Global,
    sessions: u32,
    count: u32,
) -> Result<(usize, Duration)> {
    measure_engine::<Brand, R>(
        rt,
        alloc,
        Blank::new(LEDGER_PARTS),
        items(alloc)?,
        sessions,
        count,
    )
}

/// Measures `sessions` sessions on separate threads, which share the transactions.
fn measure_engine<N: Naming + Send + Sync, R: Threads + Wait + Clock + Sync>(
    rt: &R,
    alloc: Global,
    blank: Blank,
    items: Store,
    sessions: u32,
    count: u32,
) -> Result<(usize, Duration)>
    requires name { blank.name ≡ N.name }
    requires parts { (blank.parts ≡ N.parts) × (blank.parts ≡ LEDGER_PARTS) }
    requires opening { map (λ w. w.committed) items ≡ N.opening }
    requires weights { [] ≡ N.weights }
{
    if sessions == 0 || sessions > MAX_SESSIONS as u32 {
        return Err(anyhow!("1 to 64 sessions"));
    }
    let Ok(mut engine) = Engine::<Plain, N>::new(alloc, blank, items, Plain) else {
        return Err(anyhow!("out of memory"));
    };
    let Ok(opened) = engine.open_sessions(sessions as usize) else {
        return Err(anyhow!("out of memory"));
    };
    let (back, time) = run_all(rt, alloc, opened, count / sessions)?;
    match engine.close(rt, back) {
        Ok(closed) => Ok((closed.history.log().len(), time)),
        Err(_) => Err(anyhow!("the engine was not closed")),
    }
}

/// Lets each session make `count` transactions on its own thread, and returns the sessions and the time.
fn run_all<N: Naming + Send + Sync, R: Threads + Wait + Clock + Sync>(
    rt: &R,
    alloc: Global,
    sessions: Vec<Session<Plain, N>>,
    count: u32,
) -> Result<(Vec<Session<Plain, N>>, Duration)> {
    let loads = loads_of(alloc, sessions, count)?;
    let start = Instant::now(rt)?;
    let back = thread::map_vec(rt, loads, &|load: Load<N>| run(rt, load))?;
    Ok((back, start.elapsed(rt)?))
}

/// A session, and the transactions that it is to make.
#[derive(Drop)]
struct Load<N: Naming> {
    session: Session<Plain, N>,
    count: u32,
    seed: u64,
}

/// Gives each session `count` transactions, over items drawn from its own seed.
fn loads_of<N: Naming>(
    alloc: Global,
    sessions: Vec<Session<Plain, N>>,
    count: u32,
) -> Result<Vec<Load<N>>> {
    let mut loads = Vec::new(alloc);
    for session in sessions {
        let seed = loads.len() as u64;
        loads.push(Load {
            session,
            count,
            seed,
        })?;
    }
    Ok(loads)
}

fn run<N: Naming, R: Wait>(rt: &R, load: Load<N>) -> Session<Plain, N> {
    let Load {
        mut session,
        count,
        seed,
    } = load;
    let mut shared = Shared {
        rt,
        session: &mut session,
    };
    transactions(&mut shared, count, seed);
    session
}
