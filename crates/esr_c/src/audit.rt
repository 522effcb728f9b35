//! Totals, values, audits and bundles as C reads them. A bundle goes out as its JSON, in place of a handle to the
//! certificate.

ghost use Rattle.std.specs.Prelude.{◌↔◌, ◌⊎◌, ◌<◌, ◌≤◌, IfOk, IfErr, IsErrOf, IsTrue, true, false, ◌≡◌, ◌≢◌, length, map, take, drop};
ghost use Rattle.esr_items.specs.Weights.{weighted};
ghost use Rattle.esr_history.specs.Queries.{is_committed_query};
ghost use Rattle.esr_history.specs.Totals.{IsWithinLimits};
ghost use Rattle.esr_audit.specs.Findings.{IsFindingOf};
ghost use Rattle.esr_c.specs.Answers.{IsTotal, IsFound, IsFindingWithoutList, IsBundleOf, IsBundleIn, IsBundleLong, AreValuesIn, IsAuditStatus, IsBufferStatus, status_number};

use crate::engine::Status;
use esr_audit::{AuditError, Finding};
use esr_bundle::to_json;
use esr_engine::EmbeddedEngine;
use esr_history::TxnId;
use std::alloc::{AllocError, Global};

/// The imports of all queries together, which equal the exports of all updates, as the high and the low 64 bits, and
/// the number of entries in the history.
#[repr(C)]
#[derive(Clone, Copy)]
pub struct EsrTotals {
    pub high: u64,
    pub low: u64,
    pub entries: u64,
}

/// The finding of a query: its least distance, its import, and the number of updates before the position.
#[repr(C)]
#[derive(Clone, Copy)]
pub struct EsrFinding {
    pub distance: u64,
    pub import: u64,
    pub count: usize,
}

pub(crate) fn totals_of(engine: &EmbeddedEngine) -> EsrTotals
    ensures total { IsTotal result engine.now }
    ensures limits { IsWithinLimits weighted engine.now }
{
    let totals = engine.totals();
    let word: u128 = 1 << 64;
    EsrTotals {
        high: (totals.import / word) as u64,
        low: (totals.import % word) as u64,
        entries: totals.entries,
    }
}

/// Copies a list to the beginning of a buffer if it fits, and leaves the rest of the buffer unchanged.
fn fill<T: Copy>(buffer: &mut [T], list: &[T]) -> bool
    ensures fits { IsTrue result ↔ length list.now ≤ length buffer.old }
    ensures filled { IsTrue result → take (length list.now) buffer.new ≡ list.now }
    ensures rest { drop (length list.now) buffer.new ≡ drop (length list.now) buffer.old }
    ensures kept { result ≡ false → buffer.new ≡ buffer.old }
{
    if buffer.len() < list.len() {
        return false;
    }
    let (head, _) = buffer.split_at_mut(list.len());
    head.copy_from_slice(list);
    true
}

/// Stores the length of a list, and copies the list to the beginning of a buffer if it fits. The rest of the buffer is
/// unchanged.
pub(crate) fn hand_out<T: Copy>(buffer: &mut [T], count: &mut usize, list: &[T]) -> Status
    ensures statuses { (result ≡ Status.Done) ⊎ (result ≡ Status.TooSmall) }
    ensures count { count.new ≡ length list.now }
    ensures filled { result ≡ Status.Done → take count.new buffer.new ≡ list.now }
    ensures rest { drop count.new buffer.new ≡ drop count.new buffer.old }
    ensures small { result ≡ Status.TooSmall ↔ length buffer.old < length list.now }
    ensures kept { result ≢ Status.Done → buffer.new ≡ buffer.old }
{
    *count = list.len();
    if fill(buffer, list) {
        Status::Done
    } else {
        Status::TooSmall
    }
}

pub(crate) fn show_values(
    alloc: Global,
    engine: &EmbeddedEngine,
    values: &mut [i64],
    count: &mut usize,
) -> Status
    ensures statuses { IsBufferStatus (status_number result) }
    ensures never_closed { result ≢ Status.IsClosed }
    ensures values { result ≡ Status.Done → AreValuesIn engine.now count.new values.new }
    ensures small { result ≡ Status.TooSmall → (length values.old < count.new)
        × (count.new ≡ length engine.now.opening) }
    ensures kept { result ≢ Status.Done → values.new ≡ values.old }
    ensures rest { drop count.new values.new ≡ drop count.new values.old }
    ensures count_kept { result ≢ Status.Done → result ≢ Status.TooSmall → count.new ≡ count.old }
{
    match engine.committed_values(alloc) {
        Ok(list) => hand_out(values, count, &list),
        Err(_) => Status::NoMemory,
    }
}

fn numbers(alloc: Global, txns: &[TxnId]) -> Result<Vec<u32>, AllocError>
    ensures { IfOk result (λ v. v.items ≡ map (λ t. t.0) txns.now) }
{
    txns.iter().map(|t| t.0).collect(alloc)
}

/// Audits a query, or returns the status of the failure.
pub(crate) fn find(
    alloc: Global,
    engine: &mut EmbeddedEngine,
    query: u32,
) -> Result<Finding, Status>
    ensures same { engine.new ≡ engine.old }
    ensures query { IfOk result (λ f. f.query.0 ≡ query) }
    ensures ok { IfOk result (IsFindingOf weighted engine.old query) }
    ensures not_committed_query { IsErrOf result Status.NotACommittedQuery ↔ (is_committed_query engine.old query ≡ false) }
    ensures err { IfErr result (λ e. (e ≡ Status.NotACommittedQuery) ⊎ (e ≡ Status.NoMemory)) }
{
    match engine.audit(alloc, TxnId(query)) {
        Ok(found) => Ok(found),
        Err(AuditError::NotACommittedQuery) => Err(Status::NotACommittedQuery),
        Err(_) => Err(Status::NoMemory),
    }
}

pub(crate) fn show_finding(
    alloc: Global,
    engine: &mut EmbeddedEngine,
    query: u32,
    before: &mut [u32],
    finding: &mut EsrFinding,
) -> Status
    ensures same { engine.new ≡ engine.old }
    ensures statuses { IsAuditStatus (status_number result) }
    ensures never_closed { result ≢ Status.IsClosed }
    ensures not_committed_query { (result ≡ Status.NotACommittedQuery) ↔ (is_committed_query engine.old query ≡ false) }
    ensures found { result ≡ Status.Done → IsFound engine.old query finding.new before.new }
    ensures small { result ≡ Status.TooSmall → (length before.old < finding.new.count)
        × IsFindingWithoutList engine.old query finding.new }
    ensures kept { result ≢ Status.Done → before.new ≡ before.old }
    ensures rest { drop finding.new.count before.new ≡ drop finding.new.count before.old }
    ensures count_kept { result ≢ Status.Done → result ≢ Status.TooSmall → finding.new ≡ finding.old }
{
    let found = match find(alloc, engine, query) {
        Ok(found) => found,
        Err(why) => return why,
    };
    let Ok(list) = numbers(alloc, &found.before) else {
        return Status::NoMemory;
    };
    finding.distance = found.distance;
    finding.import = found.import;
    hand_out(before, &mut finding.count, &list)
}

/// Returns the bundle of a query, or the status of the failure.
fn bundle(alloc: Global, engine: &mut EmbeddedEngine, query: u32) -> Result<Vec<u8>, Status>
    ensures same { engine.new ≡ engine.old }
    ensures ok { IfOk result (λ v. IsBundleOf engine.old query v.items) }
    ensures not_committed_query { IsErrOf result Status.NotACommittedQuery ↔ (is_committed_query engine.old query ≡ false) }
    ensures err { IfErr result (λ e. (e ≡ Status.NotACommittedQuery) ⊎ (e ≡ Status.NoMemory)) }
{
    let mut found = find(alloc, engine, query)?;
    found.certificate.augmentations = None;
    match to_json(alloc, &found.problem, &found.certificate) {
        Ok(text) => Ok(text),
        Err(_) => Err(Status::NoMemory),
    }
}

pub(crate) fn show_bundle(
    alloc: Global,
    engine: &mut EmbeddedEngine,
    query: u32,
    bytes: &mut [u8],
    count: &mut usize,
) -> Status
    ensures same { engine.new ≡ engine.old }
    ensures statuses { IsAuditStatus (status_number result) }
    ensures never_closed { result ≢ Status.IsClosed }
    ensures not_committed_query { (result ≡ Status.NotACommittedQuery) ↔ (is_committed_query engine.old query ≡ false) }
    ensures bundle { result ≡ Status.Done → IsBundleIn engine.old query count.new bytes.new }
    ensures small { result ≡ Status.TooSmall → (length bytes.old < count.new)
        × IsBundleLong engine.old query count.new }
    ensures kept { result ≢ Status.Done → bytes.new ≡ bytes.old }
    ensures rest { drop count.new bytes.new ≡ drop count.new bytes.old }
    ensures count_kept { result ≢ Status.Done → result ≢ Status.TooSmall → count.new ≡ count.old }
{
    match bundle(alloc, engine, query) {
        Ok(text) => hand_out(bytes, count, &text),
        Err(why) => why,
    }
}
