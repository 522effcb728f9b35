//! Renewals: an engine begins a new history at its committed values.
//!
//! If no transaction is active, the machine is renewed and keeps its memory. Otherwise a new engine replaces it, and active
//! transactions end with the history or are carried over. So the call needs no entry, and an error changes nothing. A renewal
//! that carries transactions over keeps the replaced machine as a spare, whose memory the next one reuses. With new memory
//! each time, 944 page faults followed a renewal of a short history; in place, 289.

ghost use Rattle.std.specs.Prelude.{◌≡◌, ◌↔◌, ◌≤◌, true, List, IfOk, OnOk, OnErr, IsErrOf};
ghost use Rattle.esr_items.specs.Weights.{weighted};
ghost use Rattle.esr_history.specs.declared.event.Entry.{Entry};
ghost use Rattle.esr_history.specs.Legal.{continued};
ghost use Rattle.esr_history.specs.Machine.{IsLegal};
ghost use Rattle.esr_core.specs.Carried.{carried, carried_entries, IsCarriedOver};
ghost use Rattle.esr_engine.specs.Capacity.{taken};
ghost use Rattle.esr_engine.specs.Carrying.{carried_in};
ghost use Rattle.esr_core.specs.Renewed.{AreSerializableAsOne, committed_values, has_active, renewed};

use crate::carrying::CarriedTxn;
use crate::engine::EmbeddedEngine;
use crate::opening::metric_of;
use esr_core::{Machine, RenewError};
use esr_history::{Entry, NoMemory};
use esr_items::Weighted;
use esr_order::Index;
use std::alloc::{AllocError, Global};
use std::mem;

impl EmbeddedEngine {
    /// Returns the committed values of the items, in their order.
    pub fn committed_values(&self, alloc: Global) -> Result<Vec<i64>, AllocError>
        ensures { IfOk result (λ v. v.items ≡ committed_values self.now) }
    {
        self.machine.committed_values(alloc)
    }

    /// Replaces the history by an empty one, with the committed values as opening values and the same weights.
    /// Transactions are numbered from 1 again. However the new history continues, its committed updates after those of
    /// the old one are serializable as one history.
    ///
    /// # Errors
    /// `TransactionActive` if and only if a transaction is active; otherwise `NoMemory` if an allocation failed. In
    /// both cases nothing has changed.
    pub fn renew(&mut self, alloc: Global) -> Result<(), RenewError>
        ensures ok { OnOk result (self.new ≡ renewed self.old self.old.weights) }
        ensures serializable_as_one { OnOk result ((later : List Entry) → IsLegal weighted (continued self.new later)
            → AreSerializableAsOne self.old (continued self.new later)) }
        ensures active { IsErrOf result RenewError.TransactionActive ↔ (has_active self.old ≡ true) }
        ensures err { OnErr result (self.new ≡ self.old) }
    {
        if self.active > 0 {
            return Err(RenewError::TransactionActive);
        }
        let Ok(metric) = metric_of(alloc, &self.weights) else {
            return Err(RenewError::NoMemory);
        };
        self.machine.renew(alloc, metric)?;
        self.index = Index::new(alloc);
        self.spare = None;
        Ok(())
    }

    /// Like `renew`, but allows active transactions: they are aborted and end with the history.
    ///
    /// # Errors
    /// `NoMemory` if an allocation failed. Then nothing has changed, and active transactions stay active.
    pub fn renew_aborting(&mut self, alloc: Global) -> Result<(), NoMemory>
        ensures ok { OnOk result (self.new ≡ renewed self.old self.old.weights) }
        ensures serializable_as_one { OnOk result ((later : List Entry) → IsLegal weighted (continued self.new later)
            → AreSerializableAsOne self.old (continued self.new later)) }
        ensures err { OnErr result (self.new ≡ self.old) }
    {
        if self.active == 0 {
            return match self.renew(alloc) {
                Ok(()) => Ok(()),
                Err(_) => Err(NoMemory),
            };
        }
        self.restart(alloc)
    }

    /// Replaces this engine by a new one over the committed values.
    fn restart(&mut self, alloc: Global) -> Result<(), NoMemory>
        ensures ok { OnOk result (self.new ≡ renewed self.old self.old.weights) }
        ensures serializable_as_one { OnOk result ((later : List Entry) → IsLegal weighted (continued self.new later)
            → AreSerializableAsOne self.old (continued self.new later)) }
        ensures err { OnErr result (self.new ≡ self.old) }
    {
        let _invariant = self.machine.log(); // brings the invariant into the proof
        *self = self.successor(alloc, None)?;
        Ok(())
    }

    /// Creates a new engine over the committed values, in the memory of a spare machine if there is one.
    pub(crate) fn successor(
        &self,
        alloc: Global,
        spare: Option<Machine<Weighted>>,
    ) -> Result<EmbeddedEngine, NoMemory>
        ensures { IfOk result (λ e. e ≡ renewed self.now self.now.weights) }
    {
        let metric = metric_of(alloc, &self.weights)?;
        let weights = self.weights.to_vec(alloc)?;
        Ok(EmbeddedEngine {
            machine: self.machine.successor(alloc, spare, metric)?,
            weights,
            active: 0,
            index: Index::new(alloc),
            spare: None,
        })
    }

    /// Takes the spare machine.
    fn take_spare(&mut self) -> Option<Machine<Weighted>>
        ensures { self.new ≡ self.old }
    {
        self.spare.take()
    }

    /// Creates the engine of the new history by a replay of these entries over the committed values, in the memory of the
    /// spare machine.
    fn next(&mut self, alloc: Global, entries: &[Entry]) -> Result<EmbeddedEngine, NoMemory>
        requires { entries.now ≡ carried_entries weighted self.old }
        ensures carried { IfOk result (λ e. e ≡ carried weighted self.old) }
        ensures same { self.new ≡ self.old }
    {
        let spare = self.take_spare();
        self.carried(alloc, entries, spare)
    }

    /// Replaces this engine by another one, and keeps its machine as a spare.
    fn replace_by(&mut self, next: EmbeddedEngine)
        ensures { self.new ≡ next }
    {
        let EmbeddedEngine {
            machine,
            weights: _,
            active: _,
            index: _,
            spare: _,
        } = mem::replace(self, next);
        self.spare = Some(machine);
    }

    /// Like `renew`, but carries the active transactions over: in the new history they have their reads, their locks
    /// and the rest of their limits. Returns them in ascending order with their new numbers and the part of their
    /// charges that is settled: it counts towards their limits, but is not in the new history.
    ///
    /// # Errors
    /// `NoMemory` if an allocation failed. Then nothing has changed.
    pub fn renew_carrying(&mut self, alloc: Global) -> Result<Vec<CarriedTxn>, NoMemory>
        ensures ok { OnOk result (self.new ≡ carried weighted self.old) }
        ensures listed { IfOk result (λ v. v.items ≡ carried_in weighted self.old) }
        ensures over { OnOk result (IsCarriedOver weighted self.old self.new) }
        ensures serializable_as_one { OnOk result ((later : List Entry) → IsLegal weighted (continued self.new later)
            → AreSerializableAsOne self.old (continued self.new later)) }
        ensures room { OnOk result (taken self.new ≤ taken self.old) }
        ensures err { OnErr result (self.new ≡ self.old) }
    {
        let _invariant = self.machine.log(); // brings the invariant into the proof
        let active = self.active_part(alloc)?;
        let carried = self.carried_txns(alloc, &active.txns, &active.operations)?;
        let entries = self.carried_entries(alloc, &active.txns, &active.operations, &carried)?;
        let next = self.next(alloc, &entries)?;
        self.replace_by(next);
        Ok(carried)
    }
}
