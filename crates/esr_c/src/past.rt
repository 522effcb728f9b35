//! The past of an engine as text: its script and its ledger.

ghost use Rattle.std.specs.Prelude.{◌≡◌, ◌≢◌, ◌⊎◌, ◌<◌, Some, None, length, IfOk, IfErr, IsErrOf, drop};
ghost use Rattle.esr_engine.specs.Capacity.{transaction_count};
ghost use Rattle.esr_dump.specs.Naming.{transaction_names};
ghost use Rattle.esr_c.specs.Answers.{IsBufferStatus, status_number};
ghost use Rattle.esr_c.specs.HistoryTexts.{IsLedgerOf, IsScriptOf, IsTextStatus, IsTextInBuffer, IsTextLength, parsed_item_names};

use crate::audit::hand_out;
use crate::engine::Status;
use esr_dump::{item_names, script, transaction_names};
use esr_engine::EmbeddedEngine;
use esr_report::Names;
use esr_tables::history_ledger;
use std::alloc::Global;

/// Parses the names of the items of an engine: one on each line, or the generated names if the text is empty.
pub(crate) fn parse_item_names(
    alloc: Global,
    engine: &EmbeddedEngine,
    names: &[u8],
) -> Result<Names, Status>
    ensures ok { IfOk result (λ items. parsed_item_names engine.now names.now ≡ Some items) }
    ensures bad_names { IsErrOf result Status.BadNames → parsed_item_names engine.now names.now ≡ None }
    ensures err { IfErr result (λ e. (e ≡ Status.BadNames) ⊎ (e ≡ Status.NoMemory)) }
{
    match item_names(alloc, names, engine.history().items()) {
        Ok(Some(items)) => Ok(items),
        Ok(None) => Err(Status::BadNames),
        Err(_) => Err(Status::NoMemory),
    }
}

/// Returns the generated names of the transactions of an engine, which are made of their numbers.
#[tactic(auto, using(esr_history::proofs::WithinRanges::legal_begins))]
pub(crate) fn names_of_transactions(alloc: Global, engine: &EmbeddedEngine) -> Result<Names, Status>
    ensures ok { IfOk result (λ transactions. transactions ≡ transaction_names (transaction_count engine.now)) }
    ensures err { IfErr result (λ e. e ≡ Status.NoMemory) }
{
    let _invariant = engine.history(); // brings the invariant into the proof
    let transaction_count = engine.counts().transactions as u32;
    match transaction_names(alloc, transaction_count) {
        Ok(names) => Ok(names),
        Err(_) => Err(Status::NoMemory),
    }
}

/// Returns the script of an engine's history, or the status of the failure.
fn script_text(alloc: Global, engine: &EmbeddedEngine, names: &[u8]) -> Result<Vec<u8>, Status>
    ensures ok { IfOk result (λ text. IsScriptOf engine.now names.now text.items) }
    ensures bad_names { IsErrOf result Status.BadNames → parsed_item_names engine.now names.now ≡ None }
    ensures err { IfErr result (λ e. (e ≡ Status.BadNames) ⊎ (e ≡ Status.NoMemory)) }
{
    let items = parse_item_names(alloc, engine, names)?;
    let transactions = names_of_transactions(alloc, engine)?;
    match script(alloc, &items, &transactions, engine.history()) {
        Ok(text) => Ok(text),
        Err(_) => Err(Status::NoMemory),
    }
}

/// Copies the script of an engine's history into a buffer, and stores its length in `count`, also if the buffer is too
/// small.
pub(crate) fn show_script(
    alloc: Global,
    engine: &EmbeddedEngine,
    names: &[u8],
    bytes: &mut [u8],
    count: &mut usize,
) -> Status
    ensures statuses { IsTextStatus (status_number result) }
    ensures never_closed { result ≢ Status.IsClosed }
    ensures bad_names { result ≡ Status.BadNames → parsed_item_names engine.now names.now ≡ None }
    ensures script { result ≡ Status.Done → IsTextInBuffer (IsScriptOf engine.now names.now) count.new bytes.new }
    ensures small { result ≡ Status.TooSmall → (length bytes.old < count.new)
        × IsTextLength (IsScriptOf engine.now names.now) count.new }
    ensures kept { result ≢ Status.Done → bytes.new ≡ bytes.old }
    ensures rest { drop count.new bytes.new ≡ drop count.new bytes.old }
    ensures count_kept { result ≢ Status.Done → result ≢ Status.TooSmall → count.new ≡ count.old }
{
    match script_text(alloc, engine, names) {
        Ok(text) => hand_out(bytes, count, &text),
        Err(why) => why,
    }
}

/// Returns the ledger of an engine's history, or the status of the failure.
fn ledger_text(alloc: Global, engine: &EmbeddedEngine) -> Result<Vec<u8>, Status>
    ensures ok { IfOk result (λ text. IsLedgerOf engine.now text.items) }
    ensures err { IfErr result (λ e. e ≡ Status.NoMemory) }
{
    let transactions = names_of_transactions(alloc, engine)?;
    match history_ledger(alloc, engine.history(), &transactions) {
        Ok(text) => Ok(text),
        Err(_) => Err(Status::NoMemory),
    }
}

/// Copies the ledger of an engine's history, a row for each transaction, into a buffer, and stores its length in `count`,
/// also if the buffer is too small.
pub(crate) fn show_ledger(
    alloc: Global,
    engine: &EmbeddedEngine,
    bytes: &mut [u8],
    count: &mut usize,
) -> Status
    ensures statuses { IsBufferStatus (status_number result) }
    ensures never_closed { result ≢ Status.IsClosed }
    ensures ledger { result ≡ Status.Done → IsTextInBuffer (IsLedgerOf engine.now) count.new bytes.new }
    ensures small { result ≡ Status.TooSmall → (length bytes.old < count.new)
        × IsTextLength (IsLedgerOf engine.now) count.new }
    ensures kept { result ≢ Status.Done → bytes.new ≡ bytes.old }
    ensures rest { drop count.new bytes.new ≡ drop count.new bytes.old }
    ensures count_kept { result ≢ Status.Done → result ≢ Status.TooSmall → count.new ≡ count.old }
{
    match ledger_text(alloc, engine) {
        Ok(text) => hand_out(bytes, count, &text),
        Err(why) => why,
    }
}
