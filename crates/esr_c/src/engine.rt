//! The engine variable of a C caller, and the status codes of the C functions.
//!
//! A call moves the engine, or its handle, out of the variable, uses it in safe code, which is proved automatically, and moves it
//! back, unless it closes the engine.

ghost use Rattle.std.specs.Prelude.{◌⊎◌, ◌<◌, ◌≤◌, All, Any, true, ◌≡◌, ◌≢◌, ◌↔◌, length, is_some, IfOk, IfErr, IsErrOf, None, Some, IsSome, MatchOption};
ghost use Rattle.esr_base.specs.declared.limits.TheConstants.{MAX_ITEMS};
ghost use Rattle.esr_items.specs.Values.{IsValue};
ghost use Rattle.esr_items.specs.Weights.{IsWeight};
ghost use Rattle.esr_history.specs.declared.event.Event.TheVariants.{Read, Write};
ghost use Rattle.esr_items.specs.Weights.{weighted};
ghost use Rattle.esr_history.specs.Sound.{IsSound};
ghost use Rattle.esr_core.specs.Renewed.{has_active, renewed};
ghost use Rattle.esr_engine.specs.ForUpdate.{after_for_update, no_pair, reply_for_update, IsPartlyDone};
ghost use Rattle.esr_c.specs.Answers.{opened, reply_fields, status_number, IsEventCall, IsForUpdateCall, IsWeightedOpenStatus, IsRenewStatus, IsRenewed};

use crate::handle::{EngineHandle, from_handle, into_handle, null_handle};
use crate::reply::{EsrReply, to_reply};
use esr_core::RenewError;
use esr_engine::{EmbeddedEngine, EngineError, OpenError};
use esr_history::{Event, Reply, TxnId};
use esr_items::ItemId;
use std::alloc::Global;
use std::mem;

/// The C struct `esr_engine`, a variable of the caller: an open engine, or none.
#[repr(C)]
#[derive(Drop)]
pub struct EsrEngine {
    is_open: bool,
    pub(crate) handle: EngineHandle,
    ghost open_iff_engine: { is_open ≡ is_some handle.history },
}

/// The status code of a C call: `TooManyItems` is `ESR_TOO_MANY_ITEMS` in `esr.h`, and so on.
#[derive(Clone, Copy, PartialEq, Eq, Debug)]
pub enum Status {
    Done = 0,
    /// More than 4,096 items or weights.
    TooManyItems = 1,
    /// An opening value is out of range.
    ValueOutOfRange = 2,
    /// No transaction with this number has begun.
    NotBegun = 3,
    WeightOutOfRange = 4,
    /// The names passed to a call that returns a text are not one valid, distinct name for each item.
    BadNames = 5,
    NotACommittedQuery = 6,
    /// The caller's buffer is too small.
    TooSmall = 7,
    /// An event has an unknown kind.
    NoSuchEvent = 8,
    /// Too few entries are left besides those reserved for the ends of transactions, or no transaction number is left.
    HistoryFull = 12,
    /// An allocation failed.
    NoMemory = 13,
    /// The variable has no engine.
    IsClosed = 14,
    /// The variable has an engine already.
    IsOpen = 15,
    TransactionActive = 16,
}

impl Status {
    /// Returns the number of the status.
    pub(crate) fn number(self) -> u32
        ensures { result ≡ status_number self }
    {
        self as u32
    }
}

/// Returns a variable without an engine.
pub(crate) fn empty_variable() -> EsrEngine
    ensures { result.handle.history ≡ None }
{
    EsrEngine {
        is_open: false,
        handle: null_handle(),
    }
}

/// Returns a variable with an engine.
pub(crate) fn variable_with(engine: Box<EmbeddedEngine, Global>) -> EsrEngine
    ensures { result.handle.history ≡ Some engine.value }
{
    EsrEngine {
        is_open: true,
        handle: into_handle(engine),
    }
}

/// Takes the engine out of a variable, and leaves the variable closed.
pub(crate) fn take_engine(
    alloc: Global,
    variable: &mut EsrEngine,
) -> Option<Box<EmbeddedEngine, Global>>
    ensures engine { MatchOption result (variable.old.handle.history ≡ None)
        (λ b. variable.old.handle.history ≡ Some b.value) }
    ensures closed { variable.new.handle.history ≡ None }
{
    if !variable.is_open {
        return None;
    }
    let EsrEngine { is_open: _, handle } = mem::replace(variable, empty_variable());
    Some(from_handle(alloc, handle))
}

/// Creates an engine on the heap with these values and weights, if they are in range.
fn make(
    alloc: Global,
    opening: &[i64],
    weights: &[u32],
) -> Result<Box<EmbeddedEngine, Global>, Status>
    ensures ok { IfOk result (λ b. b.value ≡ opened opening.now weights.now) }
    ensures too_many_items { IsErrOf result Status.TooManyItems
        ↔ ((MAX_ITEMS < length opening.now) ⊎ (MAX_ITEMS < length weights.now)) }
    ensures value_out_of_range { IsErrOf result Status.ValueOutOfRange ↔ ((length opening.now ≤ MAX_ITEMS)
        × (length weights.now ≤ MAX_ITEMS) × Any (λ v. ¬ IsValue v) opening.now) }
    ensures weight_out_of_range { IsErrOf result Status.WeightOutOfRange ↔ ((length opening.now ≤ MAX_ITEMS)
        × (length weights.now ≤ MAX_ITEMS) × All IsValue opening.now × Any (λ w. ¬ IsWeight w) weights.now) }
    ensures err { IfErr result (λ e. (e ≡ Status.TooManyItems) ⊎ ((e ≡ Status.ValueOutOfRange)
        ⊎ ((e ≡ Status.WeightOutOfRange) ⊎ (e ≡ Status.NoMemory)))) }
{
    let engine = match EmbeddedEngine::new(alloc, opening, weights) {
        Ok(engine) => engine,
        Err(OpenError::TooManyItems) => return Err(Status::TooManyItems),
        Err(OpenError::ValueOutOfRange) => return Err(Status::ValueOutOfRange),
        Err(OpenError::WeightOutOfRange) => return Err(Status::WeightOutOfRange),
        Err(OpenError::NoMemory) => return Err(Status::NoMemory),
    };
    match Box::new(alloc, engine) {
        Ok(engine) => Ok(engine),
        Err(_) => Err(Status::NoMemory),
    }
}

/// Opens an engine over items with these opening values and weights, in a variable without one.
pub(crate) fn open(
    alloc: Global,
    variable: &mut EsrEngine,
    opening: &[i64],
    weights: &[u32],
) -> Status
    ensures statuses { IsWeightedOpenStatus (status_number result) }
    ensures is_open { result ≡ Status.IsOpen ↔ IsSome variable.old.handle.history }
    ensures too_many_items { result ≡ Status.TooManyItems ↔ (variable.old.handle.history ≡ None)
        × ((MAX_ITEMS < length opening.now) ⊎ (MAX_ITEMS < length weights.now)) }
    ensures value_out_of_range { result ≡ Status.ValueOutOfRange ↔ (variable.old.handle.history ≡ None)
        × (length opening.now ≤ MAX_ITEMS) × (length weights.now ≤ MAX_ITEMS) × Any (λ v. ¬ IsValue v) opening.now }
    ensures weight_out_of_range { result ≡ Status.WeightOutOfRange ↔ (variable.old.handle.history ≡ None)
        × (length opening.now ≤ MAX_ITEMS) × (length weights.now ≤ MAX_ITEMS) × All IsValue opening.now
        × Any (λ w. ¬ IsWeight w) weights.now }
    ensures opened { result ≡ Status.Done → variable.new.handle.history ≡ Some (opened opening.now weights.now) }
    ensures err { result ≢ Status.Done → variable.new.handle.history ≡ variable.old.handle.history }
{
    if variable.is_open {
        return Status::IsOpen;
    }
    match make(alloc, opening, weights) {
        Ok(engine) => {
            *variable = variable_with(engine);
            Status::Done
        }
        Err(status) => status,
    }
}

/// Stores the reply, unless the engine returned an error. Returns the status.
fn store_reply(answered: Result<Reply, EngineError>, reply: &mut EsrReply) -> Status
    ensures ok { IfOk answered (λ r. (result ≡ Status.Done) × (reply.new ≡ reply_fields r)) }
    ensures full { result ≡ Status.HistoryFull ↔ IsErrOf answered EngineError.Full }
    ensures err { IfErr answered (λ _. ((result ≡ Status.HistoryFull) ⊎ (result ≡ Status.NoMemory)) × (reply.new ≡ reply.old)) }
{
    match answered {
        Ok(answer) => {
            *reply = to_reply(answer);
            Status::Done
        }
        Err(EngineError::Full) => Status::HistoryFull,
        Err(EngineError::NoMemory) => Status::NoMemory,
    }
}

/// Executes an event. Only the handle is moved out of the variable and back, not the whole variable, since this happens
/// at each event.
#[inline(always)]
pub(crate) fn step(
    alloc: Global,
    variable: &mut EsrEngine,
    event: Event,
    reply: &mut EsrReply,
) -> Status
    ensures { IsEventCall event variable.old.handle.history variable.new.handle.history reply.old reply.new
        (status_number result) }
{
    if !variable.is_open {
        return Status::IsClosed;
    }
    let mut engine = from_handle(alloc, mem::replace(&mut variable.handle, null_handle()));
    let status = store_reply(engine.step(event), reply);
    variable.handle = into_handle(engine);
    status
}

/// Executes a read, like [`step`].
#[inline(always)]
pub(crate) fn read(
    alloc: Global,
    variable: &mut EsrEngine,
    txn: TxnId,
    item: ItemId,
    reply: &mut EsrReply,
) -> Status
    ensures { IsEventCall (Read txn item) variable.old.handle.history variable.new.handle.history reply.old reply.new
        (status_number result) }
{
    if !variable.is_open {
        return Status::IsClosed;
    }
    let mut engine = from_handle(alloc, mem::replace(&mut variable.handle, null_handle()));
    let status = store_reply(engine.read(txn, item), reply);
    variable.handle = into_handle(engine);
    status
}

/// Executes a write, like [`step`].
#[inline(always)]
pub(crate) fn write(
    alloc: Global,
    variable: &mut EsrEngine,
    txn: TxnId,
    item: ItemId,
    value: i64,
    reply: &mut EsrReply,
) -> Status
    ensures { IsEventCall (Write txn item value) variable.old.handle.history variable.new.handle.history reply.old reply.new
        (status_number result) }
{
    if !variable.is_open {
        return Status::IsClosed;
    }
    let mut engine = from_handle(alloc, mem::replace(&mut variable.handle, null_handle()));
    let status = store_reply(engine.write(txn, item, value), reply);
    variable.handle = into_handle(engine);
    status
}

/// Acquires the write lock on an item, unless it is held, reads the item and stores the reply, which is a refusal if the lock is
/// refused. Returns the status.
fn store_read_for_update(
    engine: &mut EmbeddedEngine,
    txn: TxnId,
    item: ItemId,
    reply: &mut EsrReply,
) -> Status
    ensures statuses { (result ≡ Status.Done) ⊎ ((result ≡ Status.HistoryFull) ⊎ (result ≡ Status.NoMemory)) }
    ensures full { result ≡ Status.HistoryFull ↔ (no_pair engine.old ≡ true) }
    ensures done { result ≡ Status.Done → (engine.new ≡ after_for_update engine.old txn item)
        × (reply.new ≡ reply_fields (reply_for_update engine.old txn item)) }
    ensures err { result ≢ Status.Done → (reply.new ≡ reply.old) × IsPartlyDone engine.old engine.new txn item }
    ensures unchanged_if_full { result ≡ Status.HistoryFull → engine.new ≡ engine.old }
{
    match engine.read_for_update(txn, item) {
        Ok(read) => {
            *reply = to_reply(read);
            Status::Done
        }
        Err(EngineError::Full) => Status::HistoryFull,
        Err(EngineError::NoMemory) => Status::NoMemory,
    }
}

/// Acquires the write lock on an item, unless it is held, and reads it. If the lock is refused, the reply is the refusal.
pub(crate) fn read_for_update(
    alloc: Global,
    variable: &mut EsrEngine,
    txn: TxnId,
    item: ItemId,
    reply: &mut EsrReply,
) -> Status
    ensures { IsForUpdateCall txn item variable.old.handle.history variable.new.handle.history reply.old reply.new
        (status_number result) }
{
    let Some(mut engine) = take_engine(alloc, variable) else {
        return Status::IsClosed;
    };
    let status = store_read_for_update(&mut engine, txn, item, reply);
    *variable = variable_with(engine);
    status
}

/// Replaces the history by an empty one whose opening values are the committed values, unless a transaction is active.
pub(crate) fn renew_engine(alloc: Global, engine: &mut EmbeddedEngine) -> Status
    ensures statuses { IsRenewStatus (status_number result) }
    ensures never_closed { result ≢ Status.IsClosed }
    ensures active { (result ≡ Status.TransactionActive) ↔ (has_active engine.old ≡ true) }
    ensures renewed { status_number result ≡ 0 → engine.new ≡ renewed engine.old engine.old.weights }
    ensures serializable_as_one { result ≡ Status.Done → IsRenewed engine.old }
    ensures err { result ≢ Status.Done → engine.new ≡ engine.old }
{
    match engine.renew(alloc) {
        Ok(()) => Status::Done,
        Err(RenewError::TransactionActive) => Status::TransactionActive,
        Err(RenewError::NoMemory) => Status::NoMemory,
    }
}

/// Aborts the active transactions, and replaces the history by an empty one whose opening values are the committed values.
pub(crate) fn renew_engine_aborting(alloc: Global, engine: &mut EmbeddedEngine) -> Status
    ensures statuses { (result ≡ Status.Done) ⊎ (result ≡ Status.NoMemory) }
    ensures renewed { status_number result ≡ 0 → engine.new ≡ renewed engine.old engine.old.weights }
    ensures serializable_as_one { result ≡ Status.Done → IsRenewed engine.old }
    ensures err { result ≢ Status.Done → engine.new ≡ engine.old }
{
    match engine.renew_aborting(alloc) {
        Ok(()) => Status::Done,
        Err(_) => Status::NoMemory,
    }
}

/// Closes an engine, and drops its history.
pub(crate) fn close_engine(engine: Box<EmbeddedEngine, Global>)
    ensures { IsSound weighted engine.value }
{
    let _history = Box::into_inner(engine).close();
}
