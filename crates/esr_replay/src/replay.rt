//! A replay: a machine that has executed the first entries of a history, and the imports by the last of them.

ghost use Rattle.std.specs.Prelude.{◌≡◌, ◌<◌, ◌≤◌, ◌+◌, ◌-◌, ◌^◌, [], Some, length, min, slice_get, IfOk, IfSome, OnOk, OnErr};
ghost use Rattle.esr_history.specs.declared.event.Entry.{Entry};
ghost use Rattle.esr_history.specs.Imports.{imported};
ghost use Rattle.esr_history.specs.Machine.{empty_schedule, extended, reply_to};
ghost use Rattle.esr_replay.specs.Replays.{ImportsGrowBy, so_far};

use crate::metric_ref::MetricRef;
use esr_core::Machine;
use esr_history::{Entry, History, NoMemory, Reply, TxnId};
use esr_items::{Metric, Store};
use std::alloc::Global;
use std::marker::Model;

/// A history of which a machine has executed the first entries.
#[derive(Drop)]
pub struct Replay<'a, M: Metric> {
    history: &'a History<M>,
    machine: Machine<MetricRef<'a, M>>,
    imports: Vec<(TxnId, u64)>,
}

impl<'a, M: Metric> Model for Replay<'a, M> {
    ghost use Rattle.std.specs.Prelude.{◌≡◌, length};
    ghost use Rattle.esr_replay.specs.Replays.{Progress, until};

    ghost Value = { Progress };

    ghost view = { λ r. record {
      history = r.history.now.schedule;
      count = length r.machine.entries;
      imports = r.imports.items;
    } };

    ghost invariant = { λ r. r.machine ≡ until (length r.machine.entries) r.history.now.schedule };
}

/// Creates a machine with the items and the metric of a history, and no entries.
pub fn empty_machine<'a, M: Metric>(
    alloc: Global,
    history: &'a History<M>,
) -> Result<Machine<MetricRef<'a, M>>, NoMemory>
    ensures { IfOk result (λ m. m ≡ empty_schedule history.entry.now.schedule) }
{
    let store = Store::of_valid(alloc, history.opening_values())?;
    Machine::new(alloc, store, MetricRef(history.metric()))
}

/// Returns what a query imported by these charges, at most 2^64 - 1.
pub fn imported(charges: &[(TxnId, u64)], query: TxnId) -> u64
    ensures { result ≡ min (imported charges.now query.0) (2 ^ 64 - 1) }
{
    let mut sum = 0u64;
    for charge in charges {
        if charge.0 == query {
            sum = sum.saturating_add(charge.1);
        }
    }
    sum
}

impl<'a, M: Metric> Replay<'a, M> {
    /// Creates a replay before the first entry.
    pub fn new(alloc: Global, history: &'a History<M>) -> Result<Replay<'a, M>, NoMemory>
        ensures history { IfOk result (λ r. r.history ≡ history.entry.now.schedule) }
        ensures count { IfOk result (λ r. r.count ≡ 0) }
        ensures imports { IfOk result (λ r. r.imports ≡ []) }
    {
        Ok(Replay {
            history,
            machine: empty_machine(alloc, history)?,
            imports: Vec::new(alloc),
        })
    }

    /// Returns the entry that the next step executes, or `None` after the last.
    pub fn next(&self) -> Option<Entry>
        ensures entry { result ≡ slice_get self.now.history.entries self.now.count }
        ensures reply { IfSome result (λ e. e.reply ≡ reply_to M.distance_by (so_far self.now) e.event) }
    {
        self.history.log().get(self.machine.log().len())
    }

    /// Executes the next entry, if there is one.
    pub fn step(&mut self) -> Result<(), NoMemory>
        ensures history { self.new.history ≡ self.old.history }
        ensures last { OnOk result (length self.old.history.entries ≤ self.old.count → self.new.count ≡ self.old.count) }
        ensures next { OnOk result (self.old.count < length self.old.history.entries → self.new.count ≡ self.old.count + 1) }
        ensures extended { OnOk result ((e : Entry) → slice_get self.old.history.entries self.old.count ≡ Some e
            → so_far self.new ≡ extended (so_far self.old) e.event e.reply) }
        ensures imports { OnOk result
            (ImportsGrowBy M.distance_by (so_far self.old) (so_far self.new) self.new.imports) }
        ensures err { OnErr result (self.new.count ≡ self.old.count) }
    {
        let Some(entry) = self.next() else {
            self.imports.clear();
            return Ok(());
        };
        match self
            .machine
            .step_with_charges(entry.event, &mut self.imports)
        {
            Ok(reply) => {
                if let Reply::Refused(_) = reply {
                    self.imports.clear();
                }
                Ok(())
            }
            Err(_) => Err(NoMemory),
        }
    }

    /// Executes all remaining entries.
    pub fn finish(&mut self) -> Result<(), NoMemory>
        ensures history { self.new.history ≡ self.old.history }
        ensures whole { OnOk result (so_far self.new ≡ self.old.history) }
    {
        for _ in self.machine.log().len()..self.history.log().len() {
            self.step()?;
        }
        Ok(())
    }

    /// Returns the machine, whose history is the part that has been executed.
    pub fn machine(&self) -> &Machine<MetricRef<'a, M>>
        ensures { result.now ≡ so_far self.now }
    {
        &self.machine
    }

    /// Returns what each query imported by the last entry.
    pub fn imports(&self) -> &[(TxnId, u64)]
        ensures { result.now ≡ self.now.imports }
    {
        &self.imports
    }
}
