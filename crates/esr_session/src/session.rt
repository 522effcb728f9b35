//! Sessions, through each of which one thread at a time calls an engine.
//!
//! Between two calls other threads may call the engine. So the contract of a session is about the receipt that a call leaves;
//! that of `step_on`, under the lock, is about the engine.
ghost use Rattle.std.specs.Prelude.{◌≡◌, ◌+◌, ◌<◌, ◌≤◌, ◌⊎◌, List, [], ◌∷◌, ◌++◌, true, length, All, None, IfOk, OnErr, IfErr};
ghost use Rattle.esr_base.specs.declared.limits.TheConstants.{MAX_ENTRIES};
ghost use Rattle.esr_session.specs.Receipts.{IsReceipt, AreBlocked, EndsBlocked, BlockedOnlyLast, is_blocked};
ghost use Rattle.esr_session.specs.declared.receipt.Receipt.{Receipt};

use crate::engine_name::Naming;
use crate::lock::{Locked, Pocket, step_on};
use crate::matcher::HasReceipts;
use crate::receipt::{Receipt, is_blocked};
use crate::source::{EventSource, step_several};
use esr_core::StepError;
use esr_history::{Event, Reply};
use esr_items::Metric;
use std::alloc::{AllocError, Global};
use std::marker::Model;
use std::sync::{Arc, Mutex, Wait};

/// One caller of an engine. It may name any transaction. Contracts see its receipts.
#[derive(Drop)]
pub struct Session<M: Metric + Drop, N: Naming> {
    pub(crate) shared: Arc<Mutex<Locked<M, N>>, Global>,
    pub(crate) pocket: Pocket<N>,
}

impl<M: Metric + Drop, N: Naming> Model for Session<M, N> {
    ghost Value = { List Receipt };

    ghost view = { λ s. s.pocket };
}

impl<M: Metric + Drop, N: Naming> HasReceipts for Session<M, N> {
    ghost receipts = { λ session. session };

    fn receipts(&self) -> &[Receipt] {
        let pocket = &self.pocket;
        pocket.receipts.as_slice()
    }
}

impl<M: Metric + Drop, N: Naming> Session<M, N> {
    /// Returns the session's receipts, and drops its share of the total.
    pub(crate) fn into_receipts(self) -> Vec<Receipt>
        ensures { result.items ≡ self }
    {
        let Session { shared: _, pocket } = self;
        let Pocket { receipts, share: _ } = pocket;
        receipts
    }

    /// Reserves capacity for the receipts of `calls` calls if it has none yet, and writes to it. The first access to
    /// memory is slow, and inside the lock all other sessions would wait for it.
    ///
    /// # Errors
    /// `AllocError` if the allocation failed.
    pub fn reserve(&mut self, alloc: Global, calls: usize) -> Result<(), AllocError>
        ensures { self.new ≡ self.old }
    {
        let pocket = &mut self.pocket;
        if !pocket.receipts.is_empty() {
            return Ok(());
        }
        let unused = Receipt {
            at: 0,
            event: Event::BeginUpdate { limit: 0 },
            reply: Reply::Wrote,
        };
        let mut receipts = Vec::from_elem(alloc, unused, calls)?;
        receipts.clear();
        pocket.receipts = receipts;
        Ok(())
    }

    /// Takes the lock once, and makes one step of the engine's machine.
    ///
    /// # Errors
    /// Those of `step_on`. The receipts are then as before.
    pub fn call<R: Wait>(&mut self, rt: &R, event: Event) -> Result<Receipt, StepError>
        ensures event { IfOk result (λ r. r.event ≡ event) }
        ensures receipt { IfOk result (IsReceipt M.distance_by N.opening N.weights) }
        ensures pocket { IfOk result (λ r. self.new ≡ self.old ++ r ∷ []) }
        ensures err { OnErr result (self.new ≡ self.old) }
    {
        let mut locked = self.shared.lock(rt);
        step_on(&mut *locked, &mut self.pocket, event)
    }

    /// Retries an event until it is not blocked (by a lock or a limit), with at most `turns` calls in total. Each call
    /// is an entry of the history and adds a receipt. Returns the last receipt.
    ///
    /// # Errors
    /// The first error of `step_on`.
    pub fn call_patient<R: Wait>(
        &mut self,
        rt: &R,
        event: Event,
        turns: u32,
    ) -> Result<Receipt, StepError>
        requires { (1 ≤ turns) × (turns ≤ MAX_ENTRIES) }
        ensures ok { IfOk result (λ r. (blocked : List Receipt) × (self.new ≡ self.old ++ blocked ++ r ∷ [])
            × AreBlocked M.distance_by N.opening N.weights event blocked × (length blocked < turns)
            × (is_blocked r.reply ≡ true → length blocked + 1 ≡ turns)) }
        ensures receipt { IfOk result (λ r. (r.event ≡ event) × IsReceipt M.distance_by N.opening N.weights r) }
        ensures err { IfErr result (λ _. (blocked : List Receipt) × (self.new ≡ self.old ++ blocked)
            × AreBlocked M.distance_by N.opening N.weights event blocked × (length blocked < turns)) }
    {
        let mut last = self.call(rt, event)?;
        for _turn in 1..turns {
            if !is_blocked(last.reply) {
                return Ok(last);
            }
            last = self.call(rt, event)?;
        }
        Ok(last)
    }

    /// Executes up to `upper_bound` events from `source` under a single acquisition of the lock. Stops early when an event is
    /// blocked or `source` is exhausted. Returns the number of events executed, which is 0 only if `source` was empty
    /// or `upper_bound` is 0.
    ///
    /// # Errors
    /// The first error of `step_on`; earlier events remain executed.
    pub fn call_several<R: Wait, A: EventSource>(
        &mut self,
        rt: &R,
        source: &mut A,
        upper_bound: usize,
    ) -> Result<usize, StepError>
        ensures receipts { (more : List Receipt) × (self.new ≡ self.old ++ more) × (length more ≤ upper_bound)
            × All (IsReceipt M.distance_by N.opening N.weights) more × IfOk result (λ n. n ≡ length more) }
        ensures source { (first : A) → A.Became first self.old source.old → A.Became first self.new source.new }
        ensures none { IfOk result (λ n. 1 ≤ upper_bound → n ≡ 0 → A.next source.old ≡ None) }
        ensures end { IfOk result (λ n. n < upper_bound → (A.next source.new ≡ None) ⊎ EndsBlocked self.new) }
        ensures held { (more : List Receipt) × (self.new ≡ self.old ++ more) × BlockedOnlyLast more }
    {
        let mut locked = self.shared.lock(rt);
        step_several(&mut *locked, &mut self.pocket, source, upper_bound)
    }
}
