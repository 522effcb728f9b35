//! Reports the lines of a script that were blocked, and the cycles of transactions that wait for one another, entry
//! by entry. A cycle is reported after the line that closes it; when that line is retried, the cycle existed before.

ghost use Rattle.std.specs.Prelude.{◌≡◌, Some, length, slice_get, IfSome, OnOk};
ghost use Rattle.esr_items.specs.Weights.{weighted};
ghost use Rattle.esr_history.specs.Machine.{reply_to};
ghost use Rattle.esr_replay.specs.Replays.{so_far};
ghost use Rattle.esr_why.specs.Waits.{AreLastEntries, IsWaiting};

use crate::locks::lock_of;
use crate::sentences::NumberedScript;
use crate::shortfall::shortfalls;
use crate::waits::{LastEntries, Wait};
use esr_history::{Entry, NoMemory, Refusal, Reply, TxnId};
use esr_items::Weighted;
use esr_replay::Replay;
use esr_views::{Recording, ScriptView};
use std::alloc::{AllocError, Global};

/// The view that reports why the lines of a script were blocked.
#[derive(Drop)]
pub struct Why<'a> {
    /// The transaction whose lines are reported; all lines if `None`.
    pub name: Option<&'a str>,
}

/// The transactions to report.
#[derive(Clone, Copy)]
enum Sought {
    All,
    One(TxnId),
}

impl Sought {
    /// Returns whether a transaction is to be reported.
    fn has(self, t: TxnId) -> bool {
        match self {
            Sought::All => true,
            Sought::One(u) => t == u,
        }
    }

    /// Returns whether a transaction of a cycle is to be reported.
    fn has_any(self, cycle: &[Wait]) -> bool {
        cycle.iter().any(|wait| self.has(wait.txn))
    }
}

/// The state of a report over the entries.
#[derive(Drop)]
struct Reporter<'a> {
    alloc: Global,
    script: NumberedScript<'a>,
    sought: Sought,
    replay: Replay<'a, Weighted>,
    last_entries: LastEntries,
    out: String,
}

impl Reporter<'_> {
    /// Reports why the next entry, of a transaction, was blocked.
    fn report_entry(&mut self, place: usize, entry: Entry, txn: TxnId) -> Result<(), AllocError>
        requires { entry.reply ≡ reply_to weighted (so_far self.old.replay) entry.event }
        ensures replay { self.new.replay ≡ self.old.replay }
        ensures last_entries { self.new.last_entries ≡ self.old.last_entries }
    {
        if !self.sought.has(txn) {
            return Ok(());
        }
        match entry.reply {
            Reply::Refused(Refusal::BlockedByLock(holder)) => {
                let lock = lock_of(self.replay.machine(), entry.event, holder);
                self.script
                    .push_lock_line(&mut self.out, place, entry.event, lock, holder)
            }
            Reply::Refused(Refusal::BlockedByImport(_) | Refusal::BlockedByExport(_)) => {
                let shortfalls = shortfalls(self.alloc, self.replay.machine(), entry.event)?;
                self.script
                    .push_limits_line(&mut self.out, place, entry.event, &shortfalls)
            }
            _ => Ok(()),
        }
    }

    /// Returns the wait of a transaction, if its last event was blocked by a lock.
    fn wait(&self, txn: TxnId) -> Option<Wait>
        ensures wait { AreLastEntries (so_far self.now.replay).entries self.now.last_entries.places.items
            → IfSome result (IsWaiting (so_far self.now.replay).entries) }
        ensures txn { IfSome result (λ w. w.txn ≡ txn) }
    {
        self.last_entries.wait(self.replay.machine().log(), txn)
    }

    /// Reports the cycle that a transaction closes, if it closes one: it did not wait for the same holder before.
    fn report_cycle(&mut self, txn: TxnId, before: Option<Wait>) -> Result<(), AllocError>
        requires { AreLastEntries (so_far self.old.replay).entries self.old.last_entries.places.items }
        ensures replay { self.new.replay ≡ self.old.replay }
        ensures last_entries { self.new.last_entries.places ≡ self.old.last_entries.places }
    {
        let Some(wait) = self.wait(txn) else {
            return Ok(());
        };
        if before.is_some_and(|b| b.holder == wait.holder) {
            return Ok(());
        }
        let log = self.replay.machine().log();
        if let Some(cycle) = self.last_entries.cycle(self.alloc, log, wait)? {
            if self.sought.has_any(&cycle) {
                self.script.push_cycle(&mut self.out, &cycle)?;
            }
        }
        Ok(())
    }

    /// Executes the next entry, and notes it as the last of its transaction.
    fn step(&mut self, place: usize, entry: Entry) -> Result<(), NoMemory>
        requires entry { slice_get self.old.replay.history.entries self.old.replay.count ≡ Some entry }
        requires place { place ≡ length (so_far self.old.replay).entries }
        requires last_entries { AreLastEntries (so_far self.old.replay).entries self.old.last_entries.places.items }
        ensures { OnOk result
            (AreLastEntries (so_far self.new.replay).entries self.new.last_entries.places.items) }
    {
        self.replay.step()?;
        self.last_entries.note(entry, place);
        Ok(())
    }

    /// Reports the next entry, of a transaction, and executes it.
    fn report_of(&mut self, place: usize, entry: Entry, txn: TxnId) -> Result<(), NoMemory>
        requires entry { slice_get self.old.replay.history.entries self.old.replay.count ≡ Some entry }
        requires reply { entry.reply ≡ reply_to weighted (so_far self.old.replay) entry.event }
        requires place { place ≡ length (so_far self.old.replay).entries }
        requires last_entries { AreLastEntries (so_far self.old.replay).entries self.old.last_entries.places.items }
        ensures { OnOk result
            (AreLastEntries (so_far self.new.replay).entries self.new.last_entries.places.items) }
    {
        self.report_entry(place, entry, txn)?;
        let before = self.wait(txn);
        self.step(place, entry)?;
        self.report_cycle(txn, before)?;
        Ok(())
    }

    /// Reports the next entry, if there is one, and executes it.
    fn report_next(&mut self) -> Result<(), NoMemory>
        requires { AreLastEntries (so_far self.old.replay).entries self.old.last_entries.places.items }
        ensures { OnOk result
            (AreLastEntries (so_far self.new.replay).entries self.new.last_entries.places.items) }
    {
        let Some(entry) = self.replay.next() else {
            return Ok(());
        };
        let place = self.replay.machine().log().len();
        match entry.txn() {
            Some(txn) => self.report_of(place, entry, txn),
            None => self.step(place, entry),
        }
    }

    /// Reports this number of entries.
    fn report_all(&mut self, count: usize) -> Result<(), NoMemory>
        requires { AreLastEntries (so_far self.old.replay).entries self.old.last_entries.places.items }
    {
        for _ in 0..count {
            self.report_next()?;
        }
        Ok(())
    }
}

/// Returns the reasons why the sought lines of a script were blocked.
fn text_about(
    alloc: Global,
    recording: &Recording<'_>,
    sought: Sought,
) -> Result<String, NoMemory> {
    let history = &recording.history;
    let mut reporter = Reporter {
        alloc,
        script: NumberedScript::new(recording),
        sought,
        replay: Replay::new(alloc, history)?,
        last_entries: LastEntries::new(alloc, history.begun_count())?,
        out: String::new(alloc),
    };
    reporter.report_all(history.log().len())?;
    Ok(reporter.out)
}

/// Appends the one line of an empty report.
fn push_nothing(out: &mut String, name: Option<&str>) -> Result<(), AllocError> {
    match name {
        Some(name) => writeln!(out, "no line of {name} was blocked"),
        None => out.push_str("no line was blocked\n"),
    }
}

impl Why<'_> {
    /// Returns the transactions to report, unless the name is unknown.
    fn sought(&self, recording: &Recording<'_>) -> Option<Sought> {
        let Some(name) = self.name else {
            return Some(Sought::All);
        };
        let position = recording.transactions.number_of(name)?;
        Some(Sought::One(TxnId(position.saturating_add(1))))
    }

    /// Returns the text about the sought transactions.
    fn text(
        &self,
        alloc: Global,
        recording: &Recording<'_>,
        sought: Sought,
    ) -> Result<Vec<u8>, NoMemory> {
        let mut out = text_about(alloc, recording, sought)?;
        if out.is_empty() {
            push_nothing(&mut out, self.name)?;
        }
        Ok(out.into_bytes())
    }
}

impl ScriptView for Why<'_> {
    ghost IsTextOf = { λ _ _ _. Unit {0} };

    fn text_of(
        &self,
        alloc: Global,
        recording: &Recording<'_>,
    ) -> Result<Option<Vec<u8>>, AllocError> {
        let Some(sought) = self.sought(recording) else {
            return Ok(None);
        };
        match self.text(alloc, recording, sought) {
            Ok(text) => Ok(Some(text)),
            Err(_) => Err(AllocError),
        }
    }
}
