//! Defines the data that an engine's lock protects, and one call inside the lock.
//!
//! Threads rely only on the invariant of `Locked`: the machine's opening values and metric are the engine's, and the
//! total of all shares is the number of entries, plus `SEAL` while it is open. A call steps the machine once and adds one
//! receipt and one to its share, under one acquisition of the lock. Errors in order of precedence: closed, full, out of
//! memory. All memory is allocated before the machine steps, first for the receipt, then for the machine.
ghost use Rattle.std.specs.Prelude.{◌≡◌, ◌+◌, ◌↔◌, [], ◌∷◌, ◌++◌, length, Some, None, IfOk, OnOk, OnErr, IsErrOf, IsSomeAnd, ◌≤◌, Option, MatchOption, List};
ghost use Rattle.esr_history.specs.Machine.{IsLegal, reply_to, extended, Schedule};
ghost use Rattle.esr_session.specs.Receipts.{IsReceipt, receipt};
ghost use Rattle.esr_base.specs.declared.limits.TheConstants.{MAX_ENTRIES};
ghost use Rattle.esr_session.specs.declared.engine.TheConstants.{SEAL};
ghost use Rattle.esr_session.specs.declared.receipt.Receipt.{Receipt};

use crate::engine_name::Naming;
use crate::receipt::Receipt;
use esr_core::{Machine, StepError};
use esr_history::{Event, MAX_ENTRIES, Reply};
use esr_items::Metric;
use std::marker::Model;
use std::sync::ledger::{Book, Share};

/// The data that an engine's lock protects: the machine until the engine is closed, and the total of the executed
/// calls. Contracts see the machine's history.
///
/// While the engine is open, the total is the length of the history plus `SEAL`, the engine's own share; after a close
/// it is at most `MAX_ENTRIES`. So the engine's share proves that the engine is open.
#[derive(Drop)]
pub struct Locked<M: Metric, N: Naming> {
    pub(crate) machine: Option<Machine<M>>,
    pub(crate) total: Book<N>,
}

impl<M: Metric, N: Naming> Model for Locked<M, N> {
    ghost Value = { Option Schedule };

    ghost view = { λ l. l.machine };

    ghost invariant = { λ l. MatchOption l.machine (l.total.total ≤ MAX_ENTRIES)
        (λ h. (h.opening ≡ N.opening) × (h.weights ≡ N.weights) × (l.total.total ≡ length h.entries + SEAL)) };
}

/// The receipts of one session, each of which counts one in the share.
#[derive(Drop)]
pub struct Pocket<N: Naming> {
    pub(crate) receipts: Vec<Receipt>,
    pub(crate) share: Share<N>,
}

impl<N: Naming> Model for Pocket<N> {
    ghost Value = { List Receipt };

    ghost view = { λ p. p.receipts.items };

    ghost invariant = { λ p. (p.share.parts ≡ 1) × (p.share.amount ≡ length p.receipts.items) };
}

/// Returns the receipt of the entry at an index.
fn receipt(place: usize, event: Event, reply: Reply) -> Receipt
    ensures { result ≡ receipt place event reply }
{
    Receipt {
        at: place as u64,
        event,
        reply,
    }
}

/// Executes one event inside the lock: steps the machine once, and adds the receipt to the pocket.
///
/// # Errors
/// `EngineClosed` if and only if the engine is closed, `HistoryFull` if and only if the history has 1,000,000 entries,
/// `NoMemory` if an allocation failed. After an error nothing has changed.
pub fn step_on<M: Metric, N: Naming>(
    locked: &mut Locked<M, N>,
    pocket: &mut Pocket<N>,
    event: Event,
) -> Result<Receipt, StepError>
    ensures step { IfOk result (λ r. IsSomeAnd locked.old (λ h.
        (r ≡ receipt (length h.entries) event (reply_to M.distance_by h event))
        × (locked.new ≡ Some (extended h event r.reply)))) }
    ensures receipt { IfOk result (IsReceipt M.distance_by N.opening N.weights) }
    ensures pocket { IfOk result (λ r. pocket.new ≡ pocket.old ++ r ∷ []) }
    ensures err { OnErr result ((locked.new ≡ locked.old) × (pocket.new ≡ pocket.old)) }
    ensures closed { (IsErrOf result StepError.EngineClosed) ↔ (locked.old ≡ None) }
    ensures full { (IsErrOf result StepError.HistoryFull)
        ↔ IsSomeAnd locked.old (λ h. length h.entries ≡ MAX_ENTRIES) }
{
    match &mut locked.machine {
        Some(machine) => step_in(machine, &mut locked.total, pocket, event),
        None => Err(StepError::EngineClosed),
    }
}

/// Executes one event on an open engine, for `step_on`.
fn step_in<M: Metric, N: Naming>(
    machine: &mut Machine<M>,
    total: &mut Book<N>,
    pocket: &mut Pocket<N>,
    event: Event,
) -> Result<Receipt, StepError>
    ensures step { IfOk result (λ r. (r ≡ receipt (length machine.old.entries) event
        (reply_to M.distance_by machine.old event))
        × (machine.new ≡ extended machine.old event r.reply)) }
    ensures total { OnOk result (total.new.total ≡ total.old.total + 1) }
    ensures legal { OnOk result (IsLegal M.distance_by machine.new) }
    ensures pocket { IfOk result (λ r. pocket.new ≡ pocket.old ++ r ∷ []) }
    ensures err { OnErr result ((machine.new ≡ machine.old) × (pocket.new ≡ pocket.old)
        × (total.new.total ≡ total.old.total)) }
    ensures never_closed { ¬ IsErrOf result StepError.EngineClosed }
    ensures full { (IsErrOf result StepError.HistoryFull) ↔ (length machine.old.entries ≡ MAX_ENTRIES) }
{
    let place = machine.log().len();
    if place == MAX_ENTRIES {
        return Err(StepError::HistoryFull);
    }
    if pocket.receipts.reserve(1).is_err() {
        return Err(StepError::NoMemory);
    }
    let reply = machine.step(event)?;
    let _invariant = machine.log(); // brings the history's legality into the proof
    let receipt = receipt(place, event, reply);
    pocket.receipts.push_reserved(receipt);
    total.add(&mut pocket.share, 1);
    Ok(receipt)
}
