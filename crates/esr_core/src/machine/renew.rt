//! Restarting a machine with an empty history from its committed values, for long-lived engines whose history is full.
//!
//! All fallible operations precede the first change, so an error leaves the machine unchanged. The new history reuses the
//! memory of the old one and reserves capacity for the same number of transactions. Otherwise its lists would grow again from
//! empty, and two histories of 30 MB would compete for the cache. The caller passes the metric in again, because a history
//! owns its metric and does not return it. There is no call that truncates a history, because an audit needs all of it.
//!
//! A renewal that carries transactions over needs the old machine until the new one has replayed what is carried. So the new
//! one cannot have the old one's memory. Instead two machines take turns: `successor` reuses a spare machine, which is the
//! one that was replaced last.
ghost use Rattle.esr_base.specs.declared.limits.TheConstants.{MAX_ITEMS};
ghost use Rattle.std.specs.Prelude.{◌≡◌, ◌<◌, ◌≤◌, ◌↔◌, true, [], length, List, All, IfOk, OnOk, OnErr, IsErrOf};
ghost use Rattle.std.specs.List.{list_any};
ghost use Rattle.esr_items.specs.Values.{IsValue};
ghost use Rattle.esr_history.specs.declared.event.Entry.{Entry};
ghost use Rattle.esr_history.specs.Events.{committed_value};
ghost use Rattle.esr_history.specs.Legal.{continued};
ghost use Rattle.esr_history.specs.Machine.{DistanceFunction, Schedule, IsLegal, accepted_in};
ghost use Rattle.esr_core.specs.States.{IsStateOf};
ghost use Rattle.esr_core.specs.Renewed.{committed_values, has_active, renewed, AreSerializableAsOne};

use super::{Machine, committed_values};
use crate::state::{State, Transaction};
use esr_history::{History, NoMemory};
use esr_items::{ItemId, Metric, Store};
use std::alloc::{AllocError, Global};
use thiserror::Error;

/// Why a machine is not renewed, with the number of each reason. Nothing has changed then.
#[derive(Clone, Copy, PartialEq, Eq, Debug, Error)]
pub enum RenewError {
    /// An allocation failed.
    #[error("out of memory")]
    NoMemory = 13,
    /// A transaction is active.
    #[error("a transaction is active")]
    TransactionActive = 16,
}

/// Returns whether a row is active.
fn any_active(rows: &[Transaction]) -> bool
    ensures { result ≡ list_any (λ r. r.active) rows.now }
{
    rows.iter().any(|r| r.active)
}

impl<M: Metric> Machine<M> {
    /// Returns the committed value of an item.
    pub fn committed(&self, x: ItemId) -> i64
        requires { x.0 < length self.now.opening }
        ensures value { result ≡ committed_value self.now.opening (accepted_in self.now) x.0 }
        ensures range { IsValue result }
    {
        self.state.items.committed(x)
    }

    /// Returns the committed values of the items, in their order.
    pub fn committed_values(&self, alloc: Global) -> Result<Vec<i64>, AllocError>
        ensures values { IfOk result (λ v. v.items ≡ committed_values self.now) }
        ensures range { IfOk result (λ v. All IsValue v.items) }
        ensures count_within_max { IfOk result (λ v. length v.items ≤ MAX_ITEMS) }
    {
        committed_values(alloc, &self.state.items)
    }

    /// Returns whether a transaction is active.
    #[tactic(auto, using(crate::proofs::Renewed::active_rows))]
    pub fn has_active(&self) -> bool
        ensures { result ≡ has_active self.now }
    {
        any_active(&self.state.transactions)
    }
}

impl<M: Metric + Drop> Machine<M> {
    /// Replaces the history by an empty one with this metric. Its opening values are the committed values of the old
    /// history, which is dropped: audit it first. Transactions are numbered from 1 again. However the new history
    /// continues, its committed updates after those of the old one are serializable as one history; a query belongs to
    /// one history only.
    ///
    /// # Errors
    /// `TransactionActive` if and only if a transaction is active; otherwise `NoMemory` if an allocation failed. In
    /// both cases nothing has changed.
    pub fn renew(&mut self, alloc: Global, metric: M) -> Result<(), RenewError>
        ensures ok { OnOk result (self.new ≡ renewed self.old (M.weights metric)) }
        ensures serializable_as_one { OnOk result ((later : List Entry) → IsLegal M.distance_by (continued self.new later)
            → AreSerializableAsOne self.old (continued self.new later)) }
        ensures active { IsErrOf result RenewError.TransactionActive ↔ (has_active self.old ≡ true) }
        ensures err { OnErr result (self.new ≡ self.old) }
    {
        if self.has_active() {
            return Err(RenewError::TransactionActive);
        }
        match self.fresh(alloc) {
            Ok((state, opening)) => {
                self.state = state;
                self.history.restart(opening, metric);
                Ok(())
            }
            Err(_) => Err(RenewError::NoMemory),
        }
    }

    /// Creates a machine over the committed values, which has an empty history with this metric. It reuses the memory of a
    /// spare machine that has as many items.
    pub fn successor(
        &self,
        alloc: Global,
        spare: Option<Machine<M>>,
        metric: M,
    ) -> Result<Machine<M>, NoMemory>
        ensures { IfOk result (λ m. m ≡ renewed self.now (M.weights metric)) }
    {
        let (state, opening) = self.fresh(alloc)?;
        match spare {
            Some(machine) if machine.history.items() == self.history.items() => {
                let Machine {
                    state: _,
                    charges,
                    mut history,
                } = machine;
                history.restart(opening, metric);
                Ok(Machine {
                    state,
                    charges,
                    history,
                })
            }
            _ => Ok(Machine {
                state,
                charges: Vec::new(alloc),
                history: History::new(alloc, opening, metric)?,
            }),
        }
    }

    /// Returns the state of an empty history over the committed values, and these values. The state has capacity for as
    /// many transactions as before, so that its lists need not grow again.
    fn fresh(&self, alloc: Global) -> Result<(State, Vec<i64>), NoMemory>
        ensures state { IfOk result (λ p. (d : DistanceFunction) (h : Schedule) → h.entries ≡ [] → h.opening ≡ p.1.items
            → IsStateOf d h p.0) }
        ensures opening { IfOk result (λ p. p.1.items ≡ committed_values self.now) }
        ensures range { IfOk result (λ p. All IsValue p.1.items) }
        ensures count_within_max { IfOk result (λ p. length p.1.items ≤ MAX_ITEMS) }
        ensures legal { IsLegal M.distance_by self.now }
    {
        let _invariant = self.history.log(); // brings the invariant into the proof
        let opening = self.committed_values(alloc)?;
        let items = Store::of_valid(alloc, &opening)?;
        let mut state = State::new(alloc, items)?;
        state.reserve_transactions(self.state.transactions.len());
        Ok((state, opening))
    }
}
