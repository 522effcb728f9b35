//! The state of a run after the lines so far, and its reply to a line.
//!
//! A request with an unbound name still goes to the machine, as a transaction or an item that does not exist: so
//! there is one order of refusals, and the refusal is an entry like any other.

ghost use Rattle.esr_board.specs.declared.board.TheConstants.{MAX_SEATS};
ghost use Rattle.std.specs.Prelude.{◌≡◌, ◌≢◌, ℕ, List, ◌+◌, ◌<◌, ◌≤◌, ◌⊎◌, ◌^◌, [], ◌∷◌, ◌++◌, Ok, Err, None, OnErr, OnOk, IfOk, IfErr, IsErrOf, IsOk, true, false, ◌↔◌, length, pos, codes};
ghost use Rattle.esr_report.specs.Names.{position_of};
ghost use Rattle.esr_report.specs.Lines.{error_line, reply_line};
ghost use Rattle.esr_report.specs.Subjects.{named_by};
ghost use Rattle.esr_script.specs.Text.{Executes, EndsIn, start, bound, closed, transaction_called, item_called, item_error, with_item, begin, ask, execute, answer, ScriptState};
ghost use Rattle.esr_script.specs.Parts.{IsAnsweredBy};
ghost use Rattle.esr_script.specs.Stages.{IsBegin, is_running, history_of};
ghost use Rattle.esr_views.specs.QueryAnswers.{IsAnswered, IsFoundOf, IsRecorded};
ghost use Rattle.esr_script.specs.Audit.{IsAuditedScript, audit_output};
ghost use Rattle.esr_history.specs.Queries.{is_committed_query};
ghost use Rattle.esr_script.specs.QueryAnswers.{IsAuditOf};
ghost use Rattle.esr_grammar.specs.Command.{view, IsReadingOf};
ghost use Rattle.std.specs.List.{join_with_byte};
ghost use Rattle.std.specs.Fmt.{signed_decimal};
ghost use Rattle.esr_script.specs.Echoes.{IsEcho};
ghost use Rattle.esr_base.specs.declared.limits.TheConstants.{MAX_ENTRIES, MAX_ITEMS};
ghost use Rattle.esr_grammar.specs.Command as command;

use crate::audited_script::AuditedScript;
use crate::book::push_audit;
use crate::declarations::Declarations;
use crate::echo::{Echo, push_other_reply, push_reply};
use crate::fault::RunFault;
use crate::sink::Audience;
use crate::stage::Stage;
use crate::text_buffer::TextBuffer;
use esr_audit::{AuditError, Finding};
use esr_board::Gate;
use esr_grammar::{Line, Parsed, parse_begin_or_commit, parse_line, parse_read, parse_write};
use esr_history::{Event, Reply, TxnId, TxnOutcome};
use esr_items::{ItemId, MAX_ITEMS, MAX_VALUE, MAX_WEIGHT};
use esr_least::QueryAudit;
use esr_lint::{LineOutcome, Observer, TxnSummary};
use esr_report::{
    LineError, Names, ReplyNames, audit_line, error_line, item_line, reply_line, totals_line,
    weighted_item_line,
};
use esr_views::{AuditedQuery, Recording};
use std::alloc::{AllocError, Global};
use std::marker::Model;
use std::thread::Threads;

/// The names that are bound, and the items or the machine.
#[derive(Drop)]
pub struct Script {
    alloc: Global,
    items: Names,
    transactions: Names,
    stage: Stage,
}

impl Model for Script {
    ghost Value = { ScriptState };

    ghost view = { λ s. record {
      items = s.items;
      transactions = s.transactions;
      closed = is_running s.stage;
      history = history_of s.stage;
    } };

    ghost invariant = { λ s. (length s.items ≤ MAX_ITEMS)
        × (length (history_of s.stage).opening ≤ length s.items)
        × (length s.transactions ≤ length (history_of s.stage).entries)
        × (length (history_of s.stage).entries ≤ MAX_ENTRIES) };
}

impl Script {
    /// Creates the state before the first line. Names are hashed from the seed.
    pub fn new(alloc: Global, hash_seed: u64) -> Script
        ensures { result ≡ start }
    {
        Script {
            alloc,
            items: Names::with_seed(alloc, hash_seed),
            transactions: Names::with_seed(alloc, hash_seed),
            stage: Stage::Open(Declarations::new(alloc)),
        }
    }

    /// Returns the transaction of a name: 0 if the name is not bound.
    #[inline(always)]
    fn transaction(&self, name: &str) -> TxnId
        ensures { result ≡ transaction_called self.now name.now }
    {
        match self.transactions.number_of(name) {
            Some(position) => TxnId(position + 1),
            None => TxnId(0),
        }
    }

    /// Returns the item of a name: one that does not exist if the name is not bound.
    #[inline(always)]
    fn item(&self, name: &str) -> ItemId
        ensures { result ≡ item_called self.now name.now }
    {
        match self.items.number_of(name) {
            Some(position) => ItemId(position),
            None => ItemId(MAX_ITEMS as u32),
        }
    }

    /// Returns the error of an item's declaration, if it has one.
    fn item_error(&self, name: &str, value: i64, weight: u64) -> Option<LineError>
        ensures { result ≡ item_error self.now name.now value weight }
    {
        if let Stage::Running(_) = &self.stage {
            return Some(LineError::ItemsAreClosed);
        }
        if self.items.number_of(name).is_some() {
            return Some(LineError::NameInUse);
        }
        if value.unsigned_abs() > MAX_VALUE {
            return Some(LineError::ValueOutOfRange);
        }
        if self.items.len() == MAX_ITEMS {
            return Some(LineError::TooManyItems);
        }
        if weight == 0 || weight > u64::from(MAX_WEIGHT) {
            return Some(LineError::WeightOutOfRange);
        }
        None
    }

    /// Adds an item whose declaration has no error.
    fn add_item(&mut self, name: &str, value: i64, weight: u64) -> Result<(), RunFault>
        requires { item_error self.old name.now value weight ≡ None }
        ensures ok { OnOk result (self.new ≡ with_item self.old name.now value weight) }
        ensures faults { IfErr result (λ e. e ≡ RunFault.NoMemory) }
    {
        let Stage::Open(items) = &mut self.stage else {
            unreachable!()
        };
        if self.items.bind(name).is_err() || items.add(value, weight as u32).is_err() {
            return Err(RunFault::NoMemory);
        }
        Ok(())
    }

    /// Declares an item of weight 1.
    #[inline(never)]
    fn declare(
        &mut self,
        name: &str,
        value: i64,
        out: &mut Vec<u8>,
    ) -> Result<LineOutcome, RunFault>
        ensures { Executes (execute self.old (command.item name.now value)) self.new out.old.items out.new.items result }
    {
        if let Some(error) = self.item_error(name, value, 1) {
            return reply_error(out, error);
        }
        self.add_item(name, value, 1)?;
        outcome_or_fault(item_line(out, name, value), LineOutcome::NoEvent)
    }

    /// Declares an item with a weight.
    #[inline(never)]
    fn declare_weighted(
        &mut self,
        name: &str,
        value: i64,
        weight: u64,
        out: &mut Vec<u8>,
    ) -> Result<LineOutcome, RunFault>
        ensures { Executes (execute self.old (command.weighted_item name.now value weight))
            self.new out.old.items out.new.items result }
    {
        if let Some(error) = self.item_error(name, value, weight) {
            return reply_error(out, error);
        }
        self.add_item(name, value, weight)?;
        let appended = weighted_item_line(out, name, value, weight);
        outcome_or_fault(appended, LineOutcome::NoEvent)
    }

    /// Executes an event on the machine, and appends its reply.
    #[inline(always)]
    fn ask(
        &mut self,
        subject: ReplyNames<'_>,
        event: Event,
        out: &mut Vec<u8>,
    ) -> Result<LineOutcome, RunFault>
        requires { IsBegin event → position_of self.old.transactions subject.txn.now ≡ None }
        ensures { Executes (ask self.old (named_by subject.entry) event) self.new out.old.items out.new.items result }
    {
        self.stage.ensure_started(self.alloc)?;
        let reply = self.stage.step(event)?;
        bind_begun(&mut self.transactions, subject.txn, reply)?;
        let appended = reply_line(out, &self.transactions, subject, reply);
        outcome_or_fault(appended, LineOutcome::of_reply(reply))
    }

    /// Executes a read, like `ask`. The names in the reply are copied from the line.
    #[inline(always)]
    fn ask_read(
        &mut self,
        subject: ReplyNames<'_>,
        echo: Echo<'_>,
        event: Event,
        out: &mut TextBuffer,
    ) -> Result<LineOutcome, RunFault>
        requires begin { IsBegin event → position_of self.old.transactions subject.txn.now ≡ None }
        requires echo { IsEcho echo (named_by subject) }
        ensures { Executes (ask self.old (named_by subject.entry) event) self.new out.old out.new result }
    {
        self.stage.ensure_started(self.alloc)?;
        let reply = self.stage.step_read(event)?;
        reply_to_event(&mut self.transactions, subject, echo, reply, out)
    }

    /// Executes a write, like `ask`. The reply is copied from the line.
    #[inline(always)]
    fn ask_write(
        &mut self,
        subject: ReplyNames<'_>,
        echo: Echo<'_>,
        event: Event,
        out: &mut TextBuffer,
    ) -> Result<LineOutcome, RunFault>
        requires begin { IsBegin event → position_of self.old.transactions subject.txn.now ≡ None }
        requires echo { IsEcho echo (named_by subject) }
        ensures { Executes (ask self.old (named_by subject.entry) event) self.new out.old out.new result }
    {
        self.stage.ensure_started(self.alloc)?;
        let reply = self.stage.step_write(event)?;
        reply_to_event(&mut self.transactions, subject, echo, reply, out)
    }

    /// Executes a begin or a commit, like `ask`. The words of the reply are copied from the line.
    #[inline(always)]
    fn ask_update(
        &mut self,
        subject: ReplyNames<'_>,
        echo: Echo<'_>,
        event: Event,
        out: &mut TextBuffer,
    ) -> Result<LineOutcome, RunFault>
        requires begin { IsBegin event → position_of self.old.transactions subject.txn.now ≡ None }
        requires echo { IsEcho echo (named_by subject) }
        ensures { Executes (ask self.old (named_by subject.entry) event) self.new out.old out.new result }
    {
        self.stage.ensure_started(self.alloc)?;
        let reply = self.stage.step(event)?;
        reply_to_event(&mut self.transactions, subject, echo, reply, out)
    }

    /// Begins an update, given the first two words of its line. Its name must not be bound already.
    #[inline(never)]
    fn begin_update(
        &mut self,
        words: &[u8],
        name: &str,
        limit: u64,
        out: &mut TextBuffer,
    ) -> Result<LineOutcome, RunFault>
        requires { words.now ≡ codes "begin " ++ name.now }
        ensures { Executes (execute self.old (command.begin_update name.now limit)) self.new out.old out.new result }
    {
        if self.transactions.search(name).is_some() {
            return place_error(out, LineError::NameInUse);
        }
        self.ask_update(
            alone(name),
            Echo::Begin(words),
            Event::BeginUpdate { limit },
            out,
        )
    }

    /// Begins a transaction, whose name must not be bound already.
    #[inline(never)]
    fn begin(
        &mut self,
        name: &str,
        event: Event,
        out: &mut Vec<u8>,
    ) -> Result<LineOutcome, RunFault>
        ensures { Executes (begin self.old name.now event) self.new out.old.items out.new.items result }
    {
        if self.transactions.search(name).is_some() {
            return reply_error(out, LineError::NameInUse);
        }
        self.ask(alone(name), event, out)
    }

    /// Reads an item, given the words of its line.
    #[inline(always)]
    fn read(
        &mut self,
        words: &[u8],
        txn: &str,
        item: &str,
        out: &mut TextBuffer,
    ) -> Result<LineOutcome, RunFault>
        requires { words.now ≡ join_with_byte 32 (txn.now ∷ item.now ∷ []) }
        ensures { Executes (execute self.old (command.read txn.now item.now)) self.new out.old out.new result }
    {
        let event = Event::Read {
            txn: self.transaction(txn),
            item: self.item(item),
        };
        let subject = ReplyNames {
            txn,
            item,
            value: 0,
        };
        self.ask_read(subject, Echo::Read(words), event, out)
    }

    /// Writes an item, given its line.
    #[inline(always)]
    fn write(
        &mut self,
        line: &[u8],
        txn: &str,
        item: &str,
        value: i64,
        out: &mut TextBuffer,
    ) -> Result<LineOutcome, RunFault>
        requires { line.now ≡ codes "write " ++ join_with_byte 32 (txn.now ∷ item.now ∷ signed_decimal value ∷ []) }
        ensures { Executes (execute self.old (command.write txn.now item.now value)) self.new out.old out.new result }
    {
        let event = Event::Write {
            txn: self.transaction(txn),
            item: self.item(item),
            value,
        };
        let subject = ReplyNames { txn, item, value };
        self.ask_write(subject, Echo::Write(line), event, out)
    }

    /// Reads an item, like `read`, and formats the reply.
    #[inline(never)]
    fn read_in_text(
        &mut self,
        txn: &str,
        item: &str,
        out: &mut Vec<u8>,
    ) -> Result<LineOutcome, RunFault>
        ensures { Executes (execute self.old (command.read txn.now item.now)) self.new out.old.items out.new.items result }
    {
        let event = Event::Read {
            txn: self.transaction(txn),
            item: self.item(item),
        };
        let subject = ReplyNames {
            txn,
            item,
            value: 0,
        };
        self.ask(subject, event, out)
    }

    /// Writes an item, like `write`, and formats the reply.
    #[inline(never)]
    fn write_in_text(
        &mut self,
        txn: &str,
        item: &str,
        value: i64,
        out: &mut Vec<u8>,
    ) -> Result<LineOutcome, RunFault>
        ensures { Executes (execute self.old (command.write txn.now item.now value))
            self.new out.old.items out.new.items result }
    {
        let event = Event::Write {
            txn: self.transaction(txn),
            item: self.item(item),
            value,
        };
        self.ask(ReplyNames { txn, item, value }, event, out)
    }

    /// Commits a transaction.
    #[inline(never)]
    fn commit(&mut self, txn: &str, out: &mut TextBuffer) -> Result<LineOutcome, RunFault>
        ensures { Executes (execute self.old (command.commit txn.now)) self.new out.old out.new result }
    {
        let event = Event::Commit {
            txn: self.transaction(txn),
        };
        self.ask_update(alone(txn), Echo::Commit, event, out)
    }

    /// Commits a transaction, like `commit`, and formats the reply.
    #[inline(never)]
    fn commit_in_text(&mut self, txn: &str, out: &mut Vec<u8>) -> Result<LineOutcome, RunFault>
        ensures { Executes (execute self.old (command.commit txn.now)) self.new out.old.items out.new.items result }
    {
        let event = Event::Commit {
            txn: self.transaction(txn),
        };
        self.ask(alone(txn), event, out)
    }

    /// Aborts a transaction.
    #[inline(never)]
    fn abort(&mut self, txn: &str, out: &mut Vec<u8>) -> Result<LineOutcome, RunFault>
        ensures { Executes (execute self.old (command.abort txn.now)) self.new out.old.items out.new.items result }
    {
        let event = Event::Abort {
            txn: self.transaction(txn),
        };
        self.ask(alone(txn), event, out)
    }

    /// Sums the charges so far.
    #[inline(never)]
    fn totals(&mut self, out: &mut Vec<u8>) -> Result<LineOutcome, RunFault>
        ensures { Executes (execute self.old command.totals) self.new out.old.items out.new.items result }
    {
        self.stage.ensure_started(self.alloc)?;
        let totals = self.stage.totals();
        let appended = totals_line(out, totals.import, totals.export, totals.entries);
        outcome_or_fault(appended, LineOutcome::NoEvent)
    }

    /// Returns the finding of the audit of the transaction of that name. Creates the machine if necessary.
    fn find(&mut self, name: &str) -> Result<Finding, RunFault>
        ensures ok { OnOk result (self.new ≡ closed self.old) }
        ensures found { IfOk result (IsFoundOf self.old name.now) }
        ensures not_committed_query { IsErrOf result RunFault.NotACommittedQuery → (self.new ≡ closed self.old)
            × (is_committed_query self.old.history (transaction_called self.old name.now).0 ≡ false) }
        ensures faults { IfErr result (λ e. (e ≡ RunFault.NoMemory) ⊎ (e ≡ RunFault.NotACommittedQuery)) }
    {
        let q = self.transaction(name);
        self.stage.ensure_started(self.alloc)?;
        match self.stage.audit(self.alloc, q) {
            Ok(found) => Ok(found),
            Err(error) => Err(fault_of(error)),
        }
    }

    /// Returns the audit of the transaction of that name. Creates the machine if necessary.
    fn summarize(&mut self, name: &str) -> Result<QueryAudit, RunFault>
        ensures ok { OnOk result (self.new ≡ closed self.old) }
        ensures audit { IfOk result (IsAuditOf self.old name.now) }
        ensures not_committed_query { IsErrOf result RunFault.NotACommittedQuery → (self.new ≡ closed self.old)
            × (is_committed_query self.old.history (transaction_called self.old name.now).0 ≡ false) }
        ensures faults { IfErr result (λ e. (e ≡ RunFault.NoMemory) ⊎ (e ≡ RunFault.NotACommittedQuery)) }
    {
        let q = self.transaction(name);
        self.stage.ensure_started(self.alloc)?;
        match self.stage.summarize(self.alloc, q) {
            Ok(audit) => Ok(audit),
            Err(error) => Err(fault_of(error)),
        }
    }

    /// Audits a query.
    fn audit(&mut self, txn: &str, out: &mut Vec<u8>) -> Result<(), RunFault>
        ensures { Executes (execute self.old (command.audit txn.now)) self.new out.old.items out.new.items result }
    {
        let audit = match self.summarize(txn) {
            Ok(audit) => audit,
            Err(RunFault::NotACommittedQuery) => {
                return line_or_fault(error_line(out, LineError::NotACommittedQuery));
            }
            Err(fault) => return Err(fault),
        };
        let appended = audit_line(
            out,
            &self.transactions,
            txn,
            audit.distance,
            audit.import,
            &audit.before,
        );
        self.stage.keep(audit);
        line_or_fault(appended)
    }

    /// Returns the outcome of an `audit` line.
    fn audit_outcome(&self, txn: &str) -> LineOutcome {
        match self.stage.status_of(self.transaction(txn)) {
            Some(
                TxnSummary {
                    is_query: true,
                    outcome: TxnOutcome::Committed,
                },
            ) => LineOutcome::NoEvent,
            _ => LineOutcome::Error(LineError::NotACommittedQuery),
        }
    }

    /// Executes an `audit` line.
    #[inline(never)]
    fn reply_audit(&mut self, txn: &str, out: &mut Vec<u8>) -> Result<LineOutcome, RunFault>
        ensures { Executes (execute self.old (command.audit txn.now)) self.new out.old.items out.new.items result }
    {
        let outcome = self.audit_outcome(txn);
        match self.audit(txn, out) {
            Ok(()) => Ok(outcome),
            Err(fault) => Err(fault),
        }
    }

    /// Accepts an `audit` line without an audit: an audit changes nothing, except that no more items may be declared.
    fn pass_audit(&mut self, txn: &str) -> Result<LineOutcome, RunFault>
        ensures ok { OnOk result (self.new ≡ closed self.old) }
        ensures faults { IfErr result (λ e. e ≡ RunFault.NoMemory) }
    {
        let passed = self.audit_outcome(txn);
        self.stage.ensure_started(self.alloc)?;
        Ok(passed)
    }

    /// Ends the run, and returns the audited query of that name.
    pub fn audited_query<O: Observer>(
        mut self,
        name: &str,
        observer: &mut O,
    ) -> Result<AuditedQuery, RunFault>
        ensures answered { IfOk result (IsAnswered self name.now) }
        ensures not_committed_query { IsErrOf result RunFault.NotACommittedQuery
            → is_committed_query self.history (transaction_called self name.now).0 ≡ false }
        ensures faults { IfErr result (λ e. (e ≡ RunFault.NoMemory) ⊎ (e ≡ RunFault.NotACommittedQuery)) }
    {
        match self.find(name) {
            Ok(finding) => Ok(self.with(finding)),
            Err(fault) => {
                self.show_transactions(observer);
                Err(fault)
            }
        }
    }

    /// Shows the observer each transaction, and its status.
    pub fn show_transactions<O: Observer>(&self, observer: &mut O) {
        for position in 0..self.transactions.len() {
            if let Some((name, status)) = self.transaction_at(position) {
                observer.see_transaction(name, status);
            }
        }
    }

    /// Returns the name of a transaction, and its status.
    fn transaction_at(&self, position: usize) -> Option<(&str, TxnSummary)> {
        let position = u32::try_from(position).ok()?;
        let name = self.transactions.name_of(position)?;
        let status = self.stage.status_of(TxnId(position.checked_add(1)?))?;
        Some((name, status))
    }

    /// Combines the script's data with the finding of a query.
    fn with(self, finding: Finding) -> AuditedQuery
        requires { self.closed ≡ true }
        ensures items { result.items ≡ self.items }
        ensures transactions { result.transactions ≡ self.transactions }
        ensures history { result.history.schedule ≡ self.history }
        ensures finding { result.finding ≡ finding }
    {
        let Script {
            alloc: _,
            items,
            transactions,
            stage,
        } = self;
        AuditedQuery {
            items,
            transactions,
            history: stage.into_history(),
            finding,
        }
    }

    /// Ends the run, and returns its final state, with the line of each entry.
    pub fn recording(mut self, lines: &[u32]) -> Result<Recording<'_>, RunFault>
        ensures recorded { IfOk result (IsRecorded self) }
        ensures faults { IfErr result (λ e. e ≡ RunFault.NoMemory) }
    {
        self.stage.ensure_started(self.alloc)?;
        let Script {
            alloc: _,
            items,
            transactions,
            stage,
        } = self;
        Ok(Recording {
            items,
            transactions,
            history: stage.into_history(),
            lines,
        })
    }

    /// Ends the run, and audits the whole history with `workers` threads.
    pub fn into_audited<T: Threads + Sync, G: Gate + Sync>(
        mut self,
        rt: &T,
        workers: u64,
        gate: &G,
    ) -> Result<AuditedScript, RunFault>
        requires { (1 ≤ workers) × (workers ≤ MAX_SEATS) }
        ensures audited { IfOk result (IsAuditedScript self) }
        ensures faults { IfErr result (λ e. e ≡ RunFault.NoMemory) }
    {
        self.stage.ensure_started(self.alloc)?;
        let found = self.stage.audit_all(rt, self.alloc, workers, gate)?;
        let Script {
            alloc: _,
            items: _items,
            transactions,
            stage,
        } = self;
        Ok(AuditedScript {
            transactions,
            history: stage.into_history(),
            found,
        })
    }

    /// Ends the run, audits the whole history with `workers` threads, and returns the output. The engine is freed before the
    /// output is made, which can take as much memory.
    pub fn into_audit_output<T: Threads + Sync, G: Gate + Sync>(
        mut self,
        rt: &T,
        workers: u64,
        gate: &G,
    ) -> Result<Vec<u8>, RunFault>
        requires { (1 ≤ workers) × (workers ≤ MAX_SEATS) }
        ensures ok { IfOk result (λ out. out.items ≡ audit_output self) }
        ensures faults { IfErr result (λ e. e ≡ RunFault.NoMemory) }
    {
        self.stage.ensure_started(self.alloc)?;
        let found = self.stage.audit_all(rt, self.alloc, workers, gate)?;
        let totals = self.stage.totals();
        let Script {
            alloc,
            items: _items,
            transactions,
            stage,
        } = self;
        drop(stage);
        let mut out = Vec::new(alloc);
        match push_audit(&mut out, &transactions, &found, totals) {
            Ok(()) => Ok(out),
            Err(_) => Err(RunFault::NoMemory),
        }
    }

    /// Executes the command of a line.
    fn execute(&mut self, line: Line<'_>, out: &mut Vec<u8>) -> Result<LineOutcome, RunFault>
        ensures { Executes (execute self.old (view line.entry)) self.new out.old.items out.new.items result }
    {
        match line {
            Line::Item { name, value } => self.declare(name, value, out),
            Line::WeightedItem {
                name,
                value,
                weight,
            } => self.declare_weighted(name, value, weight, out),
            Line::BeginUpdate { name, limit } => self.begin(
                name,
                Event::BeginUpdate { limit },
                out,
            ),
            Line::BeginQuery { name, limit } => {
                let event = Event::BeginQuery {
                    limit,
                    strict: false,
                };
                self.begin(name, event, out)
            }
            Line::BeginStrictQuery { name, limit } => {
                let event = Event::BeginQuery {
                    limit,
                    strict: true,
                };
                self.begin(name, event, out)
            }
            Line::Read { txn, item } => self.read_in_text(txn, item, out),
            Line::Write { txn, item, value } => self.write_in_text(txn, item, value, out),
            Line::Commit { txn } => self.commit_in_text(txn, out),
            Line::Abort { txn } => self.abort(txn, out),
            Line::Audit { txn } => self.reply_audit(txn, out),
            Line::Totals => self.totals(out),
        }
    }

    /// Executes a parsed line, like `answer`, and formats each reply.
    #[tactic(auto, using(crate::proofs::Unread::executed))]
    fn answer_in_text(
        &mut self,
        line: &[u8],
        parsed: Parsed<'_>,
        audience: Audience,
        out: &mut Vec<u8>,
    ) -> Result<LineOutcome, RunFault>
        requires { IsReadingOf line.now parsed }
        ensures state { EndsIn (answer self.old line.now) self.new result }
        ensures text { audience ≡ Audience.Somebody
            → Executes (answer self.old line.now) self.new out.old.items out.new.items result }
    {
        match parsed {
            Parsed::Skipped => Ok(LineOutcome::NoEvent),
            Parsed::NotACommand => reply_error(out, LineError::NotACommand),
            Parsed::Command(Line::Audit { txn }) if audience == Audience::NoReader => {
                self.pass_audit(txn)
            }
            Parsed::Command(command) => self.execute(command, out),
        }
    }

    /// Executes any line, like `answer`. This is the part of `answer` that is not inlined.
    #[inline(never)]
    fn answer_any(
        &mut self,
        line: &[u8],
        audience: Audience,
        out: &mut TextBuffer,
    ) -> Result<LineOutcome, RunFault>
        ensures { IsAnsweredBy (answer self.old line.now) audience self.new out.old out.new result }
    {
        let mut text = out.take_text();
        let answered = self.answer_in_text(line, parse_line(line), audience, &mut text);
        out.put_text(text);
        answered
    }

    /// Executes a line that `answer` parses neither as a read nor as a write. Tests for a begin of an update and a commit first.
    #[inline(always)]
    fn answer_unless_access(
        &mut self,
        line: &[u8],
        audience: Audience,
        out: &mut TextBuffer,
    ) -> Result<LineOutcome, RunFault>
        ensures { IsAnsweredBy (answer self.old line.now) audience self.new out.old out.new result }
    {
        match parse_begin_or_commit(line) {
            Some(Line::BeginUpdate { name, limit }) => {
                self.begin_update(&line[..6 + name.len()], name, limit, out)
            }
            Some(Line::Commit { txn }) => self.commit(txn, out),
            _ => self.answer_any(line, audience, out),
        }
    }

    /// Executes a line that `answer` does not parse as a read. Tests for a write first.
    #[inline(always)]
    fn answer_unless_read(
        &mut self,
        line: &[u8],
        audience: Audience,
        out: &mut TextBuffer,
    ) -> Result<LineOutcome, RunFault>
        ensures { IsAnsweredBy (answer self.old line.now) audience self.new out.old out.new result }
    {
        match parse_write(line) {
            Some(Line::Write { txn, item, value }) => self.write(line, txn, item, value, out),
            _ => self.answer_unless_access(line, audience, out),
        }
    }

    /// Executes a line, appends its text to the output, and returns its outcome. An error leaves the output as it was.
    /// If the text is to be dropped, no query is audited, and the text appended is not specified.
    ///
    /// Each of the frequent commands has a separate parser, so the kind of a read or a write is a constant in the code that
    /// executes it. The replies to the commands of an update are placed in the buffer.
    #[inline(always)]
    pub fn answer(
        &mut self,
        line: &[u8],
        audience: Audience,
        out: &mut TextBuffer,
    ) -> Result<LineOutcome, RunFault>
        ensures { IsAnsweredBy (answer self.old line.now) audience self.new out.old out.new result }
    {
        match parse_read(line) {
            Some(Line::Read { txn, item }) => self.read(&line[5..], txn, item, out),
            _ => self.answer_unless_read(line, audience, out),
        }
    }
}

/// Binds the name of the transaction that has begun, if the reply says that one has.
#[inline(always)]
fn bind_begun(transactions: &mut Names, name: &str, reply: Reply) -> Result<(), RunFault>
    requires unbound { (number : TxnId) → reply ≡ Reply.Begun number → position_of transactions.old name.now ≡ None }
    requires count_within_max { length transactions.old < 2 ^ 32 }
    ensures ok { OnOk result (transactions.new ≡ bound transactions.old name.now reply) }
    ensures err { OnErr result (transactions.new ≡ transactions.old) }
    ensures faults { IfErr result (λ e. e ≡ RunFault.NoMemory) }
{
    let Reply::Begun(_) = reply else {
        return Ok(());
    };
    match transactions.bind(name) {
        Ok(_) => Ok(()),
        Err(_) => Err(RunFault::NoMemory),
    }
}

/// Binds the name of the transaction that has begun, if one has, and appends the reply to the event. The words of the
/// reply are copied from the line.
#[inline(always)]
fn reply_to_event(
    transactions: &mut Names,
    subject: ReplyNames<'_>,
    echo: Echo<'_>,
    reply: Reply,
    out: &mut TextBuffer,
) -> Result<LineOutcome, RunFault>
    requires unbound { (number : TxnId) → reply ≡ Reply.Begun number
        → position_of transactions.old subject.txn.now ≡ None }
    requires count_within_max { length transactions.old < 2 ^ 32 }
    requires echo { IsEcho echo (named_by subject) }
    ensures names { OnOk result (transactions.new ≡ bound transactions.old subject.entry.txn.now reply) }
    ensures text { OnOk result (out.new ≡ out.old ++ reply_line transactions.new (named_by subject.entry) reply) }
    ensures err { OnErr result (out.new ≡ out.old) }
    ensures count { length transactions.new ≤ length (bound transactions.old subject.entry.txn.now reply) }
    ensures faults { IfErr result (λ e. e ≡ RunFault.NoMemory) }
{
    if let Reply::Refused(why) = reply {
        let appended = push_other_reply(out, transactions, subject, reply);
        return outcome_or_fault(appended, LineOutcome::Refused(why));
    }
    bind_begun(transactions, subject.txn, reply)?;
    let appended = push_reply(out, transactions, subject, echo, reply);
    outcome_or_fault(appended, LineOutcome::Accepted)
}

/// Returns the names for a reply that names a transaction alone.
fn alone(txn: &str) -> ReplyNames<'_>
    ensures { named_by result ≡ record { txn = txn.now; item = []; value = pos 0 } }
{
    ReplyNames {
        txn,
        item: "",
        value: 0,
    }
}

/// Converts the error of a query's audit into a fault of the run.
fn fault_of(error: AuditError) -> RunFault
    requires { error ≢ AuditError.WorkersOutOfRange }
    ensures query { (result ≡ RunFault.NotACommittedQuery) ↔ (error ≡ AuditError.NotACommittedQuery) }
    ensures faults { (result ≡ RunFault.NoMemory) ⊎ (result ≡ RunFault.NotACommittedQuery) }
{
    match error {
        AuditError::NotACommittedQuery => RunFault::NotACommittedQuery,
        AuditError::NoMemory => RunFault::NoMemory,
        AuditError::WorkersOutOfRange => unreachable!(),
    }
}

/// Converts the result of appending a line into a fault of the run.
fn line_or_fault(appended: Result<(), AllocError>) -> Result<(), RunFault>
    ensures ok { IsOk result ↔ IsOk appended }
    ensures faults { IfErr result (λ e. e ≡ RunFault.NoMemory) }
{
    match appended {
        Ok(()) => Ok(()),
        Err(_) => Err(RunFault::NoMemory),
    }
}

/// Returns the outcome of a line whose text was appended, or the fault of the run.
#[inline(always)]
fn outcome_or_fault(
    appended: Result<(), AllocError>,
    outcome: LineOutcome,
) -> Result<LineOutcome, RunFault>
    ensures ok { IsOk result ↔ IsOk appended }
    ensures faults { IfErr result (λ e. e ≡ RunFault.NoMemory) }
{
    match appended {
        Ok(()) => Ok(outcome),
        Err(_) => Err(RunFault::NoMemory),
    }
}

/// Appends the line of an error, like `reply_error`.
#[cold]
#[inline(never)]
fn place_error(out: &mut TextBuffer, error: LineError) -> Result<LineOutcome, RunFault>
    ensures ok { OnOk result (out.new ≡ out.old ++ error_line error) }
    ensures err { OnErr result (out.new ≡ out.old) }
    ensures faults { IfErr result (λ e. e ≡ RunFault.NoMemory) }
{
    let mut text = out.take_text();
    let replied = reply_error(&mut text, error);
    out.put_text(text);
    replied
}

/// Appends the line of an error, and returns the error as the outcome.
fn reply_error(out: &mut Vec<u8>, error: LineError) -> Result<LineOutcome, RunFault>
    ensures ok { OnOk result (out.new.items ≡ out.old.items ++ error_line error) }
    ensures err { OnErr result (out.new.items ≡ out.old.items) }
    ensures faults { IfErr result (λ e. e ≡ RunFault.NoMemory) }
{
    outcome_or_fault(error_line(out, error), LineOutcome::Error(error))
}
