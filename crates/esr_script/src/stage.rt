//! The state of a script: either items are still being declared, or the machine runs. The first command other than `item`
//! creates the machine, and no item can be declared after it.

ghost use Rattle.esr_board.specs.declared.board.TheConstants.{MAX_SEATS};
ghost use Rattle.esr_base.specs.declared.limits.TheConstants.{MAX_ENTRIES};
ghost use Rattle.std.specs.Prelude.{◌≡◌, ◌≢◌, ◌≤◌, ◌⊎◌, true, false, length, map, IfOk, OnOk, OnErr, IfErr, IsErrOf};
ghost use Rattle.esr_history.specs.Machine.{reply_to, extended, charges_in, import_in};
ghost use Rattle.esr_history.specs.Totals.{all_imports, all_exports};
ghost use Rattle.esr_history.specs.Queries.{is_committed_query};
ghost use Rattle.esr_cert.specs.Views.{certificate_of};
ghost use Rattle.esr_order.specs.Least.{nearest_placement, least_distance};
ghost use Rattle.esr_audit.specs.Findings.{IsShown, AreSummaries, summary_of};
ghost use Rattle.esr_least.specs.Audits.{audit_fields, IsStableAudit};
ghost use Rattle.esr_order.specs.Relevant.{AreRelevant};
ghost use Rattle.esr_items.specs.Weights.{weighted};

use crate::declarations::Declarations;
use crate::engine::IndexedMachine;
use crate::fault::RunFault;
use esr_audit::{AuditError, Finding, Summaries};
use esr_board::{Gate, summarize_parallel};
use esr_core::{Machine, StepError, Totals};
use esr_history::{Event, History, Reply, TxnId};
use esr_items::Weighted;
use esr_least::QueryAudit;
use esr_lint::TxnSummary;
use esr_order::outcome_of;
use std::alloc::Global;
use std::thread::Threads;

/// The declared items, while more may be declared, and then the machine. The machine is in a box so that the owner of a
/// script is small; a proof takes an owned value apart wherever it is dropped.
#[derive(Drop)]
pub enum Stage {
    Open(Declarations),
    Running(Box<IndexedMachine>),
}

impl Stage {
    ghost use Rattle.esr_script.specs.Stages.{is_running, history_of};

    /// Makes the machine unless it runs already.
    ///
    /// # Errors
    ///
    /// `NoMemory` if an allocation fails; the history is unchanged, or lacks the weights of its items.
    #[inline(always)]
    pub fn ensure_started(&mut self, alloc: Global) -> Result<(), RunFault>
        ensures ok { OnOk result ((is_running self.new ≡ true) × (history_of self.new ≡ history_of self.old)) }
        ensures err { OnErr result ((history_of self.new).entries ≡ (history_of self.old).entries) }
        ensures opening { (history_of self.new).opening ≡ (history_of self.old).opening }
        ensures faults { IfErr result (λ e. e ≡ RunFault.NoMemory) }
    {
        if let Stage::Running(_) = self {
            return Ok(());
        }
        self.make(alloc)
    }

    /// Makes the machine. It is a separate function, since each line calls `ensure_started`, and a function pays at its
    /// entry for the machine among its locals.
    #[cold]
    #[inline(never)]
    fn make(&mut self, alloc: Global) -> Result<(), RunFault>
        ensures ok { OnOk result ((is_running self.new ≡ true) × (history_of self.new ≡ history_of self.old)) }
        ensures err { OnErr result ((history_of self.new).entries ≡ (history_of self.old).entries) }
        ensures opening { (history_of self.new).opening ≡ (history_of self.old).opening }
        ensures faults { IfErr result (λ e. e ≡ RunFault.NoMemory) }
    {
        let Stage::Open(items) = self else {
            return Ok(());
        };
        let Ok(store) = items.store(alloc) else {
            return Err(RunFault::NoMemory);
        };
        let metric = items.take_metric(alloc);
        let Ok(machine) = Machine::new(alloc, store, metric) else {
            return Err(RunFault::NoMemory);
        };
        let Ok(engine) = Box::new(alloc, IndexedMachine::new(alloc, machine)) else {
            return Err(RunFault::NoMemory);
        };
        *self = Stage::Running(engine);
        Ok(())
    }

    /// Gives the machine an event.
    #[inline(always)]
    pub fn step(&mut self, event: Event) -> Result<Reply, RunFault>
        requires { is_running self.old ≡ true }
        ensures fits { OnOk result (length (history_of self.old).entries ≢ MAX_ENTRIES) }
        ensures reply { IfOk result (λ reply. reply ≡ reply_to weighted (history_of self.old) event) }
        ensures added { IfOk result (λ reply. history_of self.new ≡ extended (history_of self.old) event reply) }
        ensures running { is_running self.new ≡ true }
        ensures err { OnErr result (history_of self.new ≡ history_of self.old) }
        ensures faults { IfErr result (λ e. (e ≡ RunFault.NoMemory)
            ⊎ ((e ≡ RunFault.HistoryFull) × (length (history_of self.old).entries ≡ MAX_ENTRIES))) }
    {
        match self {
            Stage::Running(engine) => match engine.step(event) {
                Ok(reply) => Ok(reply),
                Err(StepError::HistoryFull) => Err(RunFault::HistoryFull),
                Err(StepError::NoMemory) => Err(RunFault::NoMemory),
                Err(StepError::EngineClosed) => unreachable!(),
            },
            Stage::Open(_) => unreachable!(),
        }
    }

    /// Gives the machine an event, like `step`. A read is executed inline.
    #[inline(always)]
    pub fn step_read(&mut self, event: Event) -> Result<Reply, RunFault>
        requires { is_running self.old ≡ true }
        ensures fits { OnOk result (length (history_of self.old).entries ≢ MAX_ENTRIES) }
        ensures reply { IfOk result (λ reply. reply ≡ reply_to weighted (history_of self.old) event) }
        ensures added { IfOk result (λ reply. history_of self.new ≡ extended (history_of self.old) event reply) }
        ensures running { is_running self.new ≡ true }
        ensures err { OnErr result (history_of self.new ≡ history_of self.old) }
        ensures faults { IfErr result (λ e. (e ≡ RunFault.NoMemory)
            ⊎ ((e ≡ RunFault.HistoryFull) × (length (history_of self.old).entries ≡ MAX_ENTRIES))) }
    {
        match self {
            Stage::Running(engine) => match engine.step_read(event) {
                Ok(reply) => Ok(reply),
                Err(StepError::HistoryFull) => Err(RunFault::HistoryFull),
                Err(StepError::NoMemory) => Err(RunFault::NoMemory),
                Err(StepError::EngineClosed) => unreachable!(),
            },
            Stage::Open(_) => unreachable!(),
        }
    }

    /// Gives the machine an event, like `step`. A write is executed inline.
    #[inline(always)]
    pub fn step_write(&mut self, event: Event) -> Result<Reply, RunFault>
        requires { is_running self.old ≡ true }
        ensures fits { OnOk result (length (history_of self.old).entries ≢ MAX_ENTRIES) }
        ensures reply { IfOk result (λ reply. reply ≡ reply_to weighted (history_of self.old) event) }
        ensures added { IfOk result (λ reply. history_of self.new ≡ extended (history_of self.old) event reply) }
        ensures running { is_running self.new ≡ true }
        ensures err { OnErr result (history_of self.new ≡ history_of self.old) }
        ensures faults { IfErr result (λ e. (e ≡ RunFault.NoMemory)
            ⊎ ((e ≡ RunFault.HistoryFull) × (length (history_of self.old).entries ≡ MAX_ENTRIES))) }
    {
        match self {
            Stage::Running(engine) => match engine.step_write(event) {
                Ok(reply) => Ok(reply),
                Err(StepError::HistoryFull) => Err(RunFault::HistoryFull),
                Err(StepError::NoMemory) => Err(RunFault::NoMemory),
                Err(StepError::EngineClosed) => unreachable!(),
            },
            Stage::Open(_) => unreachable!(),
        }
    }

    /// Returns the imports and exports together, and the number of entries.
    pub fn totals(&self) -> Totals
        ensures import { result.import ≡ all_imports weighted (history_of self.now) }
        ensures export { result.export ≡ all_exports weighted (history_of self.now) }
        ensures entries { result.entries ≡ length (history_of self.now).entries }
    {
        match self {
            Stage::Running(engine) => engine.totals(),
            Stage::Open(_) => Totals {
                import: 0,
                export: 0,
                entries: 0,
            },
        }
    }

    /// Returns the status of a transaction, if it has begun.
    pub fn status_of(&self, t: TxnId) -> Option<TxnSummary> {
        let Stage::Running(engine) = self else {
            return None;
        };
        let history = engine.history();
        let facts = history.facts(t)?;
        Some(TxnSummary {
            is_query: facts.query,
            outcome: outcome_of(history, t),
        })
    }

    /// Returns the history of the machine.
    pub fn into_history(self) -> History<Weighted>
        requires { is_running self ≡ true }
        ensures { result.schedule ≡ history_of self }
    {
        match self {
            Stage::Running(engine) => Box::into_inner(engine).into_history(),
            Stage::Open(_) => unreachable!(),
        }
    }

    /// Audits a transaction, with a certificate.
    #[tactic(auto, using(crate::proofs::Audits::distance_is, crate::proofs::Audits::import_is, crate::proofs::Audits::before_is, crate::proofs::Audits::shown_is, crate::proofs::Audits::relevant_is))]
    pub fn audit(&mut self, alloc: Global, q: TxnId) -> Result<Finding, AuditError>
        requires { is_running self.old ≡ true }
        ensures running { is_running self.new ≡ true }
        ensures same { history_of self.new ≡ history_of self.old }
        ensures query { IfOk result (λ f. f.query ≡ q) }
        ensures distance { IfOk result (λ f. f.distance ≡ least_distance weighted (history_of self.old) q.0) }
        ensures import { IfOk result (λ f. f.import ≡ import_in (charges_in weighted (history_of self.old)) q.0) }
        ensures before { IfOk result (λ f. map (λ t. t.0) f.before.items
            ≡ nearest_placement weighted (history_of self.old) q.0) }
        ensures committed { IfOk result (λ f. is_committed_query (history_of self.old) q.0 ≡ true) }
        ensures shown { IfOk result (λ f. IsShown weighted (history_of self.old) q.0 f.distance
            (map (λ t. t.0) f.before.items) f.problem (certificate_of f.certificate)) }
        ensures relevant { IfOk result (λ f. AreRelevant (history_of self.old) q.0 f.problem.updates) }
        ensures not_committed_query { IsErrOf result AuditError.NotACommittedQuery
            → is_committed_query (history_of self.old) q.0 ≡ false }
        ensures no_worker_error { ¬ IsErrOf result AuditError.WorkersOutOfRange }
    {
        match self {
            Stage::Running(engine) => engine.audit(alloc, q),
            Stage::Open(_) => unreachable!(),
        }
    }

    /// Audits a transaction, or returns the kept audit if that is of this transaction.
    pub fn summarize(&mut self, alloc: Global, q: TxnId) -> Result<QueryAudit, AuditError>
        requires { is_running self.old ≡ true }
        ensures running { is_running self.new ≡ true }
        ensures same { history_of self.new ≡ history_of self.old }
        ensures summary { IfOk result (λ a. audit_fields a ≡ summary_of weighted (history_of self.old) q.0) }
        ensures stable { IfOk result (IsStableAudit weighted (history_of self.old)) }
        ensures committed { IfOk result (λ a. is_committed_query (history_of self.old) q.0 ≡ true) }
        ensures not_committed_query { IsErrOf result AuditError.NotACommittedQuery
            → is_committed_query (history_of self.old) q.0 ≡ false }
        ensures no_worker_error { ¬ IsErrOf result AuditError.WorkersOutOfRange }
    {
        match self {
            Stage::Running(engine) => engine.summarize(alloc, q),
            Stage::Open(_) => unreachable!(),
        }
    }

    /// Keeps an audit for the next [`summarize`](Stage::summarize).
    pub fn keep(&mut self, audit: QueryAudit)
        requires running { is_running self.old ≡ true }
        requires stable { IsStableAudit weighted (history_of self.old) audit }
        ensures running { is_running self.new ≡ true }
        ensures same { history_of self.new ≡ history_of self.old }
    {
        match self {
            Stage::Running(engine) => engine.keep(audit),
            Stage::Open(_) => unreachable!(),
        }
    }

    /// Audits the whole history with `workers` threads, and returns a summary of each finding.
    pub fn audit_all<T: Threads + Sync, G: Gate + Sync>(
        &self,
        rt: &T,
        alloc: Global,
        workers: u64,
        gate: &G,
    ) -> Result<Summaries, RunFault>
        requires running { is_running self.now ≡ true }
        requires workers { (1 ≤ workers) × (workers ≤ MAX_SEATS) }
        ensures summaries { IfOk result (AreSummaries weighted (history_of self.now)) }
        ensures faults { IfErr result (λ e. e ≡ RunFault.NoMemory) }
    {
        let Stage::Running(engine) = self else {
            unreachable!()
        };
        match summarize_parallel(rt, alloc, engine.history(), workers, gate) {
            Ok(found) => Ok(found),
            Err(AuditError::NoMemory) => Err(RunFault::NoMemory),
            Err(AuditError::NotACommittedQuery) => unreachable!(),
            Err(AuditError::WorkersOutOfRange) => unreachable!(),
        }
    }
}
