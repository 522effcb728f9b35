//! The traces of several queries, and the use of all limits, from one replay of their history.
//!
//! A replay takes as long as a run, so a page makes one for all queries that it describes.

use crate::trace::QueryTrace;
use esr_core::Machine;
use esr_history::{Entry, Event, History, Refusal, Reply, TxnId};
use esr_items::Metric;
use esr_order::accesses_of;
use esr_replay::{MetricRef, Replay, imported};
use std::alloc::{AllocError, Global};

/// The greatest number of a transaction.
const MAX_NUMBER: usize = 4_294_967_294;

/// An item before an entry that reads or writes it.
#[derive(Clone, Copy)]
pub struct ItemState {
    pub current: i64,
    pub committed: i64,
    /// The active update that has written it.
    pub writer: Option<TxnId>,
    /// The update that left the committed value, unless it is the opening value.
    pub keeper: Option<TxnId>,
}

/// An accepted entry, with the item that it reads or writes.
#[derive(Clone, Copy)]
pub struct Step {
    pub place: usize,
    pub entry: Entry,
    pub before: Option<ItemState>,
}

/// An entry that was refused because of a limit.
#[derive(Clone, Copy)]
pub struct Exceeded {
    /// The place of the entry in the log.
    pub place: usize,
    /// The charges to the limit before the event.
    pub used: u64,
    /// The charge of the event to the limit.
    pub due: u64,
    pub limit: u64,
}

/// The use of the limits of a history.
#[derive(Clone, Copy)]
pub struct LimitUse<'a> {
    /// The entries that were refused because of a limit, in their order.
    pub exceeded: &'a [Exceeded],
    /// The charges of each transaction to all queries, by its number.
    pub exports: &'a [u64],
}

/// The traces of several queries.
#[derive(Drop)]
pub struct Traces {
    /// The traces, in the order of the queries that were asked for.
    pub queries: Vec<QueryTrace>,
    exceeded: Vec<Exceeded>,
    exports: Vec<u64>,
}

/// The trace of a query among those of others.
#[derive(Clone, Copy)]
pub struct Traced<'a> {
    pub trace: &'a QueryTrace,
    pub limit_use: LimitUse<'a>,
}

impl Traces {
    /// Returns the use of the limits of the history.
    pub fn limit_use(&self) -> LimitUse<'_> {
        LimitUse {
            exceeded: &self.exceeded,
            exports: &self.exports,
        }
    }

    /// Returns the trace of a query, if it was asked for.
    pub fn of(&self, query: TxnId) -> Option<Traced<'_>> {
        for trace in &self.queries {
            if trace.is_of(query) {
                return Some(Traced {
                    trace,
                    limit_use: self.limit_use(),
                });
            }
        }
        None
    }
}

/// The traces up to an entry.
#[derive(Drop)]
struct Recorder<'a, M: Metric> {
    replay: Replay<'a, M>,
    /// The update that left the committed value of each item.
    keepers: Vec<Option<TxnId>>,
    traces: Traces,
}

/// Returns the sum of some charges.
fn sum_of(charges: &[(TxnId, u64)]) -> u64 {
    let mut sum = 0u64;
    for (_, amount) in charges {
        sum = sum.saturating_add(*amount);
    }
    sum
}

/// Returns the use of a limit with the charges that the machine computes for the next entry, if it was refused because of that
/// limit.
fn exceeded_by<M: Metric>(
    alloc: Global,
    replay: &Replay<'_, M>,
) -> Result<Option<Exceeded>, AllocError> {
    let Some(entry) = replay.next() else {
        return Ok(None);
    };
    let machine = replay.machine();
    let mut charges = Vec::new(alloc);
    let (txn, used, due) = match entry.reply {
        Reply::Refused(Refusal::BlockedByImport(query)) => {
            machine.due(&mut charges, entry.event)?;
            let used = machine.history().import(query);
            (query, used, imported(&charges, query))
        }
        Reply::Refused(Refusal::BlockedByExport(update)) => {
            machine.due(&mut charges, entry.event)?;
            (update, machine.export(update), sum_of(&charges))
        }
        _ => return Ok(None),
    };
    let facts = machine.history().facts(txn);
    Ok(Some(Exceeded {
        place: machine.log().len(),
        used,
        due,
        limit: facts.map_or(0, |facts| facts.limit),
    }))
}

/// Returns the item of an event that a machine is about to execute.
fn state_of<M: Metric>(
    machine: &Machine<MetricRef<'_, M>>,
    keepers: &[Option<TxnId>],
    event: Event,
) -> Option<ItemState> {
    let item = match event {
        Event::Read { item, .. } | Event::Write { item, .. } => item,
        _ => return None,
    };
    if item.0 >= machine.history().items() {
        return None;
    }
    Some(ItemState {
        current: machine.current(item),
        committed: machine.committed(item),
        writer: machine.writer(item),
        keeper: keepers.get(item.0 as usize).copied().flatten(),
    })
}

impl<M: Metric> Recorder<'_, M> {
    /// Notes the items of which a transaction has left the committed values.
    fn note_keeper(&mut self, alloc: Global, txn: TxnId) -> Result<(), AllocError> {
        for access in &accesses_of(alloc, self.replay.machine().history(), txn)? {
            if access.writes
                && let Some(keeper) = self.keepers.get_mut(access.item.0 as usize)
            {
                *keeper = Some(txn);
            }
        }
        Ok(())
    }

    /// Notes an accepted entry, which the replay has executed.
    fn note(&mut self, alloc: Global, step: Step) -> Result<(), AllocError> {
        if let Event::Commit { txn } = step.entry.event {
            self.note_keeper(alloc, txn)?;
        }
        for trace in &mut self.traces.queries {
            let history = self.replay.machine().history();
            trace.note(history, step, self.replay.imports())?;
        }
        Ok(())
    }

    /// Executes the next entry, and notes it.
    fn step(&mut self, alloc: Global) -> Result<(), AllocError> {
        let Some(entry) = self.replay.next() else {
            return Ok(());
        };
        let place = self.replay.machine().log().len();
        if let Some(exceeded) = exceeded_by(alloc, &self.replay)? {
            self.traces.exceeded.push(exceeded)?;
        }
        let before = state_of(self.replay.machine(), &self.keepers, entry.event);
        if self.replay.step().is_err() {
            return Err(AllocError);
        }
        if entry.is_refused() {
            return Ok(());
        }
        let step = Step {
            place,
            entry,
            before,
        };
        self.note(alloc, step)
    }

    /// Notes the charges of each transaction to all queries.
    fn note_exports(&mut self) -> Result<(), AllocError> {
        let machine = self.replay.machine();
        let count = machine.history().begun_count().min(MAX_NUMBER) as u32;
        for number in 0..count.saturating_add(1) {
            self.traces.exports.push(machine.export(TxnId(number)))?;
        }
        Ok(())
    }

    /// Executes and notes the next `count` entries.
    fn run(&mut self, alloc: Global, count: usize) -> Result<(), AllocError> {
        for _ in 0..count {
            self.step(alloc)?;
        }
        Ok(())
    }
}

/// Returns the recorder before the first entry. The replay is created last, so that no other error has to drop it, which
/// would be costly to prove.
fn recorder_of<'a, M: Metric>(
    alloc: Global,
    history: &'a History<M>,
    queries: &[TxnId],
) -> Result<Recorder<'a, M>, AllocError> {
    let keepers = vec![in alloc; None; history.items() as usize]?;
    let traces = Traces {
        queries: empty_traces(alloc, history, queries)?,
        exceeded: Vec::new(alloc),
        exports: Vec::new(alloc),
    };
    match Replay::new(alloc, history) {
        Ok(replay) => Ok(Recorder {
            replay,
            keepers,
            traces,
        }),
        Err(_) => Err(AllocError),
    }
}

/// Returns the traces of queries before the first entry.
fn empty_traces<M: Metric>(
    alloc: Global,
    history: &History<M>,
    queries: &[TxnId],
) -> Result<Vec<QueryTrace>, AllocError> {
    let mut traces = Vec::new(alloc);
    for query in queries {
        traces.push(QueryTrace::new(alloc, history, *query)?)?;
    }
    Ok(traces)
}

/// Returns the traces of these queries, in their order.
pub fn traces_of<M: Metric>(
    alloc: Global,
    history: &History<M>,
    queries: &[TxnId],
) -> Result<Traces, AllocError> {
    let mut recorder = recorder_of(alloc, history, queries)?;
    recorder.run(alloc, history.log().len())?;
    recorder.note_exports()?;
    let Recorder { traces, .. } = recorder;
    Ok(traces)
}

/// Returns the trace of a query.
pub fn trace_of<M: Metric>(
    alloc: Global,
    history: &History<M>,
    query: TxnId,
) -> Result<QueryTrace, AllocError> {
    match traces_of(alloc, history, &[query])?.queries.pop() {
        Some(trace) => Ok(trace),
        None => QueryTrace::new(alloc, history, query),
    }
}
