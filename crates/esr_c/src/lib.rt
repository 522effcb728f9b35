//! Engines for C programs. An engine is a variable of the caller, who passes it to one call at a time. The
//! variable is either closed or holds an engine of `esr_engine`. `bindings/c/esr.h` declares the functions.
//!
//! The variable is two words that start as zeros. A zeroed variable is a closed engine: every call on it is defined
//! and returns a status. Contracts speak of the engine's history, not of memory. No exported function has a precondition that
//! it could check instead: every argument that can be checked is checked and reported by a status. The other rules for callers
//! are in `esr.h`. Lists are written to a buffer of the caller; if it is too small, the call returns the required
//! count. C therefore never frees memory that the library allocated.
#![tactic(auto)]

ghost use Rattle.esr_base.specs.declared.limits.TheConstants.{MAX_ITEMS};
ghost use Rattle.std.specs.Prelude.{IsSome, All, Any, ◌≡◌, ◌≢◌, ◌↔◌, ◌⊎◌, ◌<◌, ◌≤◌, [], length, None, Some, IfSome, IsSomeAnd, true, false, drop};
ghost use Rattle.esr_items.specs.Values.{IsValue};
ghost use Rattle.esr_items.specs.Weights.{IsWeight, weighted};
ghost use Rattle.esr_history.specs.declared.event.Event.TheVariants.{BeginUpdate, BeginQuery, Read, Write, Commit, Abort};
ghost use Rattle.esr_history.specs.Events.{is_begun};
ghost use Rattle.esr_history.specs.Machine.{accepted_in};
ghost use Rattle.esr_history.specs.Queries.{is_committed_query};
ghost use Rattle.esr_history.specs.Sound.{IsSound};
ghost use Rattle.esr_history.specs.Totals.{IsWithinLimits};
ghost use Rattle.esr_core.specs.Carried.{carried};
ghost use Rattle.esr_core.specs.Renewed.{has_active, renewed};
ghost use Rattle.esr_engine.specs.Capacity.{HasReservedEnds, active_count, counts_of};
ghost use Rattle.esr_c.specs.Many.{AreAnswered, IsAnsweredStatus, IsEnd};
ghost use Rattle.esr_svg.specs.Svg.{IsSvg};
ghost use Rattle.esr_c.specs.HistoryTexts.{HasNameForEachItem, IsExplanationOf, IsLedgerOf, IsScriptOf, IsTextStatus, IsQueryTextStatus, IsTextInBuffer, IsTextLength, parsed_item_names};
ghost use Rattle.esr_c.specs.Answers.{opened, IsEventCall, IsForUpdateCall, IsTotal, IsAccount, IsFound, IsFindingWithoutList, IsBundleIn, IsBundleLong, AreCarriedIn, AreValuesIn, IsCarriedRenewal, IsRenewed, IsOpenStatus, IsWeightedOpenStatus, IsRenewStatus, IsBufferStatus, IsAuditStatus, IsVerdictIn};

mod account;
mod audit;
mod batch;
mod carrying;
mod engine;
mod handle;
mod past;
mod pointer;
mod reply;
mod texts;
mod verdict;

pub use account::EsrAccount;
use account::show_account;
pub use audit::{EsrFinding, EsrTotals};
use audit::{show_bundle, show_finding, show_values, totals_of};
pub use batch::EsrEvent;
use batch::answer_all;
pub use carrying::EsrCarried;
use carrying::renew_engine_carrying;
pub use engine::EsrEngine;
use engine::{
    Status, close_engine, open, read, read_for_update, renew_engine, renew_engine_aborting, step,
    take_engine, variable_with, write,
};
use esr_engine::EngineCounts;
use esr_history::{Event, TxnId};
use esr_items::ItemId;
use past::{show_ledger, show_script};
pub use reply::EsrReply;
use std::alloc::Global;
use texts::{show_explanation, show_picture};
pub use verdict::EsrVerdict;
use verdict::show_verdict;

/// Opens an engine over items with these values, if it is closed.
///
/// 0, or 1 for more than 4,096 items, 2 for a value out of range, 13 if an allocation failed, 15 if the engine is
/// open.
#[unsafe(no_mangle)]
pub extern "C" fn esr_open(alloc: Global, engine: &mut EsrEngine, opening: &[i64]) -> u32
    ensures status { IsOpenStatus result }
    ensures is_open { result ≡ 15 ↔ IsSome engine.old.handle.history }
    ensures too_many_items { result ≡ 1 ↔ (engine.old.handle.history ≡ None) × (MAX_ITEMS < length opening.now) }
    ensures value_out_of_range { result ≡ 2 ↔ (engine.old.handle.history ≡ None) × (length opening.now ≤ MAX_ITEMS)
        × Any (λ v. ¬ IsValue v) opening.now }
    ensures opened { result ≡ 0 → engine.new.handle.history ≡ Some (opened opening.now []) }
    ensures err { result ≢ 0 → engine.new.handle.history ≡ engine.old.handle.history }
{
    open(alloc, engine, opening, &[]).number()
}

/// Opens an engine like [`esr_open`], with weights of the items: a difference is multiplied by the weight of its
/// item, which is 1 for an item past the list.
///
/// Besides, 1 for more than 4,096 weights, 4 for a weight of 0 or above 1,000.
#[unsafe(no_mangle)]
pub extern "C" fn esr_open_weighted(
    alloc: Global,
    engine: &mut EsrEngine,
    opening: &[i64],
    weights: &[u32],
) -> u32
    ensures status { IsWeightedOpenStatus result }
    ensures is_open { result ≡ 15 ↔ IsSome engine.old.handle.history }
    ensures too_many_items { result ≡ 1 ↔ (engine.old.handle.history ≡ None)
        × ((MAX_ITEMS < length opening.now) ⊎ (MAX_ITEMS < length weights.now)) }
    ensures value_out_of_range { result ≡ 2 ↔ (engine.old.handle.history ≡ None) × (length opening.now ≤ MAX_ITEMS)
        × (length weights.now ≤ MAX_ITEMS) × Any (λ v. ¬ IsValue v) opening.now }
    ensures weight_out_of_range { result ≡ 4 ↔ (engine.old.handle.history ≡ None) × (length opening.now ≤ MAX_ITEMS)
        × (length weights.now ≤ MAX_ITEMS) × All IsValue opening.now × Any (λ w. ¬ IsWeight w) weights.now }
    ensures opened { result ≡ 0 → engine.new.handle.history ≡ Some (opened opening.now weights.now) }
    ensures err { result ≢ 0 → engine.new.handle.history ≡ engine.old.handle.history }
{
    open(alloc, engine, opening, weights).number()
}

/// Begins an update that may export up to `limit`.
///
/// This and the five calls below return 0 and write the reply, or return 12 if the history is full for the event and
/// the ends of the active transactions, 13 if an allocation failed, 14 if the engine is closed; then neither the
/// engine nor the reply has changed.
#[unsafe(no_mangle)]
pub extern "C" fn esr_begin_update(
    alloc: Global,
    engine: &mut EsrEngine,
    limit: u64,
    reply: &mut EsrReply,
) -> u32
    ensures { IsEventCall
        (BeginUpdate limit) engine.old.handle.history engine.new.handle.history reply.old reply.new result }
{
    step(alloc, engine, Event::BeginUpdate { limit }, reply).number()
}

/// Begins a query that may import up to `limit`.
#[unsafe(no_mangle)]
pub extern "C" fn esr_begin_query(
    alloc: Global,
    engine: &mut EsrEngine,
    limit: u64,
    strict: bool,
    reply: &mut EsrReply,
) -> u32
    ensures { IsEventCall
        (BeginQuery limit strict) engine.old.handle.history engine.new.handle.history reply.old reply.new result }
{
    step(alloc, engine, Event::BeginQuery { limit, strict }, reply).number()
}

/// Reads an item.
#[unsafe(no_mangle)]
pub extern "C" fn esr_read(
    alloc: Global,
    engine: &mut EsrEngine,
    txn: u32,
    item: u32,
    reply: &mut EsrReply,
) -> u32
    ensures { IsEventCall (Read (record { 0 = txn })
        (record { 0 = item })) engine.old.handle.history engine.new.handle.history reply.old reply.new result }
{
    read(alloc, engine, TxnId(txn), ItemId(item), reply).number()
}

/// Writes an item.
#[unsafe(no_mangle)]
pub extern "C" fn esr_write(
    alloc: Global,
    engine: &mut EsrEngine,
    txn: u32,
    item: u32,
    value: i64,
    reply: &mut EsrReply,
) -> u32
    ensures { IsEventCall (Write (record { 0 = txn })
        (record { 0 = item }) value) engine.old.handle.history engine.new.handle.history reply.old reply.new result }
{
    write(alloc, engine, TxnId(txn), ItemId(item), value, reply).number()
}

/// Reads an item for an update that is going to write it: the write lock is acquired first, unless it is held. The
/// reply is the value, or the refusal of the lock.
///
/// As for an event, but after 13 the lock may have been acquired, and the call may be retried; 12 if the history has
/// no space for two entries in addition to the ends.
#[unsafe(no_mangle)]
pub extern "C" fn esr_read_for_update(
    alloc: Global,
    engine: &mut EsrEngine,
    txn: u32,
    item: u32,
    reply: &mut EsrReply,
) -> u32
    ensures { IsForUpdateCall (record { 0 = txn })
        (record { 0 = item }) engine.old.handle.history engine.new.handle.history reply.old reply.new result }
{
    read_for_update(alloc, engine, TxnId(txn), ItemId(item), reply).number()
}

/// Commits a transaction.
#[unsafe(no_mangle)]
pub extern "C" fn esr_commit(
    alloc: Global,
    engine: &mut EsrEngine,
    txn: u32,
    reply: &mut EsrReply,
) -> u32
    ensures { IsEventCall
        (Commit (record { 0 = txn })) engine.old.handle.history engine.new.handle.history reply.old reply.new result }
{
    step(alloc, engine, Event::Commit { txn: TxnId(txn) }, reply).number()
}

/// Aborts a transaction.
#[unsafe(no_mangle)]
pub extern "C" fn esr_abort(
    alloc: Global,
    engine: &mut EsrEngine,
    txn: u32,
    reply: &mut EsrReply,
) -> u32
    ensures { IsEventCall
        (Abort (record { 0 = txn })) engine.old.handle.history engine.new.handle.history reply.old reply.new result }
{
    step(alloc, engine, Event::Abort { txn: TxnId(txn) }, reply).number()
}

/// Executes events in order, each as a separate call would, and stores their number and their replies. Stops at the first
/// event that receives no reply and, if `stop` is set, after the first refusal.
///
/// Returns 0; 7 if there are fewer replies than events; 8 if the next event is of an unknown kind; 12 if every entry left is
/// reserved for the end of a transaction; 13 if an allocation failed; or 14 if the engine is closed. With 7 and 14 nothing
/// has changed. The engine remains open in every case but 14.
#[unsafe(no_mangle)]
pub extern "C" fn esr_do(
    alloc: Global,
    engine: &mut EsrEngine,
    events: &[EsrEvent],
    replies: &mut [EsrReply],
    stop: bool,
    count: &mut usize,
) -> u32
    ensures status { IsAnsweredStatus result ⊎ ((result ≡ 7) ⊎ (result ≡ 14)) }
    ensures closed { result ≡ 14 ↔ (engine.old.handle.history ≡ None) }
    ensures small { IfSome engine.old.handle.history (λ _. (result ≡ 7) ↔ (length replies.old < length events.now)) }
    ensures untouched { (result ≡ 7) ⊎ (result ≡ 14) → (engine.new.handle.history ≡ engine.old.handle.history)
        × (replies.new ≡ replies.old) × (count.new ≡ count.old) }
    ensures answered { result ≢ 7 → IfSome engine.old.handle.history (λ h. IsSomeAnd engine.new.handle.history
        (λ g. AreAnswered h g events.now count.new replies.new)) }
    ensures end { result ≢ 7 → IfSome engine.old.handle.history (λ h. IsEnd h events.now stop count.new result) }
{
    let Some(mut inner) = take_engine(alloc, engine) else {
        return Status::IsClosed.number();
    };
    let status = if replies.len() < events.len() {
        Status::TooSmall
    } else {
        answer_all(&mut inner, events, replies, stop, count)
    };
    *engine = variable_with(inner);
    status.number()
}

/// Writes the sum of all imports, and the number of entries in the history: 0, or 14 if the engine is closed. No
/// limit has been exceeded.
#[unsafe(no_mangle)]
pub extern "C" fn esr_totals_of(
    alloc: Global,
    engine: &mut EsrEngine,
    totals: &mut EsrTotals,
) -> u32
    ensures closed { result ≡ 14 ↔ (engine.old.handle.history ≡ None) }
    ensures done { result ≢ 14 → result ≡ 0 }
    ensures same { engine.new.handle.history ≡ engine.old.handle.history }
    ensures totals { result ≡ 0 → IfSome engine.old.handle.history (IsTotal totals.new) }
    ensures limits { result ≡ 0 → IfSome engine.old.handle.history (IsWithinLimits weighted) }
    ensures err { result ≢ 0 → totals.new ≡ totals.old }
{
    let Some(inner) = take_engine(alloc, engine) else {
        return Status::IsClosed.number();
    };
    *totals = totals_of(&inner);
    *engine = variable_with(inner);
    Status::Done.number()
}

/// Writes the counts of the history and its remaining capacity: 0, or 14 if the engine is closed. The history never
/// deadlocks: every active transaction can be committed or aborted.
#[unsafe(no_mangle)]
pub extern "C" fn esr_counts_of(
    alloc: Global,
    engine: &mut EsrEngine,
    counts: &mut EngineCounts,
) -> u32
    ensures closed { result ≡ 14 ↔ (engine.old.handle.history ≡ None) }
    ensures done { result ≢ 14 → result ≡ 0 }
    ensures same { engine.new.handle.history ≡ engine.old.handle.history }
    ensures counts { result ≡ 0 → IfSome engine.old.handle.history (λ h. counts.new ≡ counts_of h) }
    ensures reserved_ends { IfSome engine.old.handle.history (HasReservedEnds weighted) }
    ensures err { result ≢ 0 → counts.new ≡ counts.old }
{
    let Some(inner) = take_engine(alloc, engine) else {
        return Status::IsClosed.number();
    };
    *counts = inner.counts();
    *engine = variable_with(inner);
    Status::Done.number()
}

/// Returns the account of a transaction, at any time: 0, or 3 if it has not begun, 14 if the engine is closed.
#[unsafe(no_mangle)]
pub extern "C" fn esr_account_of(
    alloc: Global,
    engine: &mut EsrEngine,
    txn: u32,
    account: &mut EsrAccount,
) -> u32
    ensures closed { result ≡ 14 ↔ (engine.old.handle.history ≡ None) }
    ensures statuses { (result ≡ 0) ⊎ ((result ≡ 3) ⊎ (result ≡ 14)) }
    ensures not_begun { IfSome engine.old.handle.history (λ h. (result ≡ 3) ↔ (is_begun (accepted_in h) txn ≡ false)) }
    ensures same { engine.new.handle.history ≡ engine.old.handle.history }
    ensures account { result ≡ 0 → IfSome engine.old.handle.history (λ h. IsAccount h txn account.new) }
    ensures err { result ≢ 0 → account.new ≡ account.old }
{
    let Some(inner) = take_engine(alloc, engine) else {
        return Status::IsClosed.number();
    };
    let status = show_account(&inner, txn, account);
    *engine = variable_with(inner);
    status.number()
}

/// Writes the committed values of the items to the buffer `values`.
///
/// 0, or 7 if the buffer is too small, 13 if an allocation failed, 14 if the engine is closed. With 0 and 7, `count`
/// is the number of items.
#[unsafe(no_mangle)]
pub extern "C" fn esr_values(
    alloc: Global,
    engine: &mut EsrEngine,
    values: &mut [i64],
    count: &mut usize,
) -> u32
    ensures status { IsBufferStatus result }
    ensures closed { result ≡ 14 ↔ (engine.old.handle.history ≡ None) }
    ensures same { engine.new.handle.history ≡ engine.old.handle.history }
    ensures values { result ≡ 0 → IfSome engine.old.handle.history (λ h. AreValuesIn h count.new values.new) }
    ensures small { result ≡ 7 → (length values.old < count.new)
        × IfSome engine.old.handle.history (λ h. count.new ≡ length h.opening) }
    ensures kept { result ≢ 0 → values.new ≡ values.old }
    ensures rest { drop count.new values.new ≡ drop count.new values.old }
    ensures count_kept { result ≢ 0 → result ≢ 7 → count.new ≡ count.old }
{
    let Some(inner) = take_engine(alloc, engine) else {
        return Status::IsClosed.number();
    };
    let status = show_values(alloc, &inner, values, count);
    *engine = variable_with(inner);
    status.number()
}

/// Audits a committed query, and writes the updates before it to the buffer `before`.
///
/// 0, or 6 if the transaction is not a committed query, 7 if the buffer is too small, 13 if an allocation failed, 14
/// if the engine is closed. With 0 and 7, `finding` is the result.
#[unsafe(no_mangle)]
pub extern "C" fn esr_audit(
    alloc: Global,
    engine: &mut EsrEngine,
    query: u32,
    before: &mut [u32],
    finding: &mut EsrFinding,
) -> u32
    ensures status { IsAuditStatus result }
    ensures closed { result ≡ 14 ↔ (engine.old.handle.history ≡ None) }
    ensures not_committed_query { IfSome engine.old.handle.history (λ h. (result ≡ 6) ↔ (is_committed_query h query ≡ false)) }
    ensures same { engine.new.handle.history ≡ engine.old.handle.history }
    ensures found { result ≡ 0 → IfSome engine.old.handle.history (λ h. IsFound h query finding.new before.new) }
    ensures small { result ≡ 7 → (length before.old < finding.new.count)
        × IfSome engine.old.handle.history (λ h. IsFindingWithoutList h query finding.new) }
    ensures kept { result ≢ 0 → before.new ≡ before.old }
    ensures rest { drop finding.new.count before.new ≡ drop finding.new.count before.old }
    ensures count_kept { result ≢ 0 → result ≢ 7 → finding.new ≡ finding.old }
{
    let Some(mut inner) = take_engine(alloc, engine) else {
        return Status::IsClosed.number();
    };
    let status = show_finding(alloc, &mut inner, query, before, finding);
    *engine = variable_with(inner);
    status.number()
}

/// Writes the bundle of a committed query to the buffer `bytes`: one JSON object, which `esr check` reads.
///
/// 0, or 6 if the transaction is not a committed query, 7 if the buffer is too small, 13 if an allocation failed, 14
/// if the engine is closed. With 0 and 7, `count` is the length of the bundle in bytes.
#[unsafe(no_mangle)]
pub extern "C" fn esr_bundle(
    alloc: Global,
    engine: &mut EsrEngine,
    query: u32,
    bytes: &mut [u8],
    count: &mut usize,
) -> u32
    ensures status { IsAuditStatus result }
    ensures closed { result ≡ 14 ↔ (engine.old.handle.history ≡ None) }
    ensures not_committed_query { IfSome engine.old.handle.history (λ h. (result ≡ 6) ↔ (is_committed_query h query ≡ false)) }
    ensures same { engine.new.handle.history ≡ engine.old.handle.history }
    ensures bundle { result ≡ 0 → IfSome engine.old.handle.history (λ h. IsBundleIn h query count.new bytes.new) }
    ensures small { result ≡ 7 → (length bytes.old < count.new)
        × IfSome engine.old.handle.history (λ h. IsBundleLong h query count.new) }
    ensures kept { result ≢ 0 → bytes.new ≡ bytes.old }
    ensures rest { drop count.new bytes.new ≡ drop count.new bytes.old }
    ensures count_kept { result ≢ 0 → result ≢ 7 → count.new ≡ count.old }
{
    let Some(mut inner) = take_engine(alloc, engine) else {
        return Status::IsClosed.number();
    };
    let status = show_bundle(alloc, &mut inner, query, bytes, count);
    *engine = variable_with(inner);
    status.number()
}

/// Writes the script of the history so far to the buffer `bytes`: a run of it recreates each entry that was accepted
/// or blocked. Items have the names of a text, one per line, or `i0`, `i1` if it is empty; transactions are `t1`,
/// `t2`.
///
/// 0, or 5 if the text lacks a name for an item, 7 if the buffer is too small, 13 if an allocation failed, 14 if the
/// engine is closed. With 0 and 7, `count` is the length of the script in bytes.
#[unsafe(no_mangle)]
pub extern "C" fn esr_history_script(
    alloc: Global,
    engine: &mut EsrEngine,
    names: &[u8],
    bytes: &mut [u8],
    count: &mut usize,
) -> u32
    ensures status { IsTextStatus result }
    ensures closed { result ≡ 14 ↔ (engine.old.handle.history ≡ None) }
    ensures same { engine.new.handle.history ≡ engine.old.handle.history }
    ensures bad_names { result ≡ 5 → IfSome engine.old.handle.history (λ h. parsed_item_names h names.now ≡ None) }
    ensures script { result ≡ 0 → IfSome engine.old.handle.history
        (λ h. IsTextInBuffer (IsScriptOf h names.now) count.new bytes.new) }
    ensures small { result ≡ 7 → (length bytes.old < count.new)
        × IfSome engine.old.handle.history (λ h. IsTextLength (IsScriptOf h names.now) count.new) }
    ensures kept { result ≢ 0 → bytes.new ≡ bytes.old }
    ensures rest { drop count.new bytes.new ≡ drop count.new bytes.old }
    ensures count_kept { result ≢ 0 → result ≢ 7 → count.new ≡ count.old }
{
    let Some(inner) = take_engine(alloc, engine) else {
        return Status::IsClosed.number();
    };
    let status = show_script(alloc, &inner, names, bytes, count);
    *engine = variable_with(inner);
    status.number()
}

/// Writes the explanation of a committed query to the buffer `bytes`: the values it read compared with those of the
/// nearest placement, each charge to it, and the sums. Items and transactions are named as in the script of the
/// history.
///
/// 0, or 5 if the text lacks a name for an item, 6 if the transaction is not a committed query, 7 if the buffer is
/// too small, 13 if an allocation failed, 14 if the engine is closed. With 0 and 7, `count` is the length of the
/// explanation in bytes.
#[unsafe(no_mangle)]
pub extern "C" fn esr_explain(
    alloc: Global,
    engine: &mut EsrEngine,
    query: u32,
    names: &[u8],
    bytes: &mut [u8],
    count: &mut usize,
) -> u32
    ensures status { IsQueryTextStatus result }
    ensures closed { result ≡ 14 ↔ (engine.old.handle.history ≡ None) }
    ensures not_committed_query { IfSome engine.old.handle.history (λ h. (result ≡ 6) ↔ (is_committed_query h query ≡ false)) }
    ensures same { engine.new.handle.history ≡ engine.old.handle.history }
    ensures bad_names { result ≡ 5 → IfSome engine.old.handle.history (λ h. parsed_item_names h names.now ≡ None) }
    ensures explanation { result ≡ 0 → IfSome engine.old.handle.history
        (λ h. IsTextInBuffer (IsExplanationOf h query names.now) count.new bytes.new) }
    ensures small { result ≡ 7 → (length bytes.old < count.new)
        × IfSome engine.old.handle.history (λ h. IsTextLength (IsExplanationOf h query names.now) count.new) }
    ensures kept { result ≢ 0 → bytes.new ≡ bytes.old }
    ensures rest { drop count.new bytes.new ≡ drop count.new bytes.old }
    ensures count_kept { result ≢ 0 → result ≢ 7 → count.new ≡ count.old }
{
    let Some(mut inner) = take_engine(alloc, engine) else {
        return Status::IsClosed.number();
    };
    let status = show_explanation(alloc, &mut inner, query, names, bytes, count);
    *engine = variable_with(inner);
    status.number()
}

/// Writes the picture of a committed query to the buffer `bytes`: one SVG, of which each element is closed.
#[unsafe(no_mangle)]
pub extern "C" fn esr_picture(
    alloc: Global,
    engine: &mut EsrEngine,
    query: u32,
    names: &[u8],
    bytes: &mut [u8],
    count: &mut usize,
) -> u32
    ensures status { IsQueryTextStatus result }
    ensures closed { result ≡ 14 ↔ (engine.old.handle.history ≡ None) }
    ensures not_committed_query { IfSome engine.old.handle.history (λ h. (result ≡ 6) ↔ (is_committed_query h query ≡ false)) }
    ensures same { engine.new.handle.history ≡ engine.old.handle.history }
    ensures bad_names { result ≡ 5 → IfSome engine.old.handle.history (λ h. parsed_item_names h names.now ≡ None) }
    ensures named { (result ≡ 0) ⊎ (result ≡ 7) → IfSome engine.old.handle.history (λ h. HasNameForEachItem h names.now) }
    ensures picture { result ≡ 0 → IsTextInBuffer IsSvg count.new bytes.new }
    ensures small { result ≡ 7 → (length bytes.old < count.new) × IsTextLength IsSvg count.new }
    ensures kept { result ≢ 0 → bytes.new ≡ bytes.old }
    ensures rest { drop count.new bytes.new ≡ drop count.new bytes.old }
    ensures count_kept { result ≢ 0 → result ≢ 7 → count.new ≡ count.old }
{
    let Some(mut inner) = take_engine(alloc, engine) else {
        return Status::IsClosed.number();
    };
    let status = show_picture(alloc, &mut inner, query, names, bytes, count);
    *engine = variable_with(inner);
    status.number()
}

/// Writes the ledger of the history so far as CSV to the buffer `bytes`: a row for each transaction, with its limit
/// and charges, the number of its blocked events, its end, and the distance of a committed query. Transactions are
/// named as in the script of the history, whose lines the last two fields count.
///
/// 0, or 7 if the buffer is too small, 13 if an allocation failed, 14 if the engine is closed. With 0 and 7, `count`
/// is the length of the ledger in bytes.
#[unsafe(no_mangle)]
pub extern "C" fn esr_ledger(
    alloc: Global,
    engine: &mut EsrEngine,
    bytes: &mut [u8],
    count: &mut usize,
) -> u32
    ensures status { IsBufferStatus result }
    ensures closed { result ≡ 14 ↔ (engine.old.handle.history ≡ None) }
    ensures same { engine.new.handle.history ≡ engine.old.handle.history }
    ensures ledger { result ≡ 0 → IfSome engine.old.handle.history
        (λ h. IsTextInBuffer (IsLedgerOf h) count.new bytes.new) }
    ensures small { result ≡ 7 → (length bytes.old < count.new)
        × IfSome engine.old.handle.history (λ h. IsTextLength (IsLedgerOf h) count.new) }
    ensures kept { result ≢ 0 → bytes.new ≡ bytes.old }
    ensures rest { drop count.new bytes.new ≡ drop count.new bytes.old }
    ensures count_kept { result ≢ 0 → result ≢ 7 → count.new ≡ count.old }
{
    let Some(inner) = take_engine(alloc, engine) else {
        return Status::IsClosed.number();
    };
    let status = show_ledger(alloc, &inner, bytes, count);
    *engine = variable_with(inner);
    status.number()
}

/// Judges a bundle of any origin: 0, or 13 if an allocation failed. It needs no engine.
#[unsafe(no_mangle)]
pub extern "C" fn esr_check(alloc: Global, bytes: &[u8], verdict: &mut EsrVerdict) -> u32
    ensures status { (result ≡ 0) ⊎ (result ≡ 13) }
    ensures verdict { result ≡ 0 → IsVerdictIn bytes.now verdict.new }
    ensures err { result ≢ 0 → verdict.new ≡ verdict.old }
{
    show_verdict(alloc, bytes, verdict).number()
}

/// Goes on from the committed values with an empty history, in which transactions are numbered from 1 again.
///
/// 0, or 13 if an allocation failed, 14 if the engine is closed, 16 if a transaction is active; then nothing has
/// changed.
#[unsafe(no_mangle)]
pub extern "C" fn esr_renew(alloc: Global, engine: &mut EsrEngine) -> u32
    ensures status { IsRenewStatus result }
    ensures closed { result ≡ 14 ↔ (engine.old.handle.history ≡ None) }
    ensures active { IfSome engine.old.handle.history (λ h. (result ≡ 16) ↔ (has_active h ≡ true)) }
    ensures renewed { result ≡ 0 → IfSome engine.old.handle.history
        (λ h. engine.new.handle.history ≡ Some (renewed h h.weights)) }
    ensures serializable_as_one { result ≡ 0 → IfSome engine.old.handle.history IsRenewed }
    ensures err { result ≢ 0 → engine.new.handle.history ≡ engine.old.handle.history }
{
    let Some(mut inner) = take_engine(alloc, engine) else {
        return Status::IsClosed.number();
    };
    let status = renew_engine(alloc, &mut inner);
    *engine = variable_with(inner);
    status.number()
}

/// Renews the engine in every state: active transactions are aborted, and end with the history. 0, or 13 if an
/// allocation failed, 14 if the engine is closed; then nothing has changed.
#[unsafe(no_mangle)]
pub extern "C" fn esr_renew_aborting(alloc: Global, engine: &mut EsrEngine) -> u32
    ensures status { (result ≡ 0) ⊎ ((result ≡ 13) ⊎ (result ≡ 14)) }
    ensures closed { result ≡ 14 ↔ (engine.old.handle.history ≡ None) }
    ensures renewed { result ≡ 0 → IfSome engine.old.handle.history
        (λ h. engine.new.handle.history ≡ Some (renewed h h.weights)) }
    ensures serializable_as_one { result ≡ 0 → IfSome engine.old.handle.history IsRenewed }
    ensures err { result ≢ 0 → engine.new.handle.history ≡ engine.old.handle.history }
{
    let Some(mut inner) = take_engine(alloc, engine) else {
        return Status::IsClosed.number();
    };
    let status = renew_engine_aborting(alloc, &mut inner);
    *engine = variable_with(inner);
    status.number()
}

/// Renews the engine and carries its active transactions over: in the new history they have their reads, their locks and
/// the rest of their limits. Writes them to the buffer `txns`, in ascending order, with their old and their new numbers and
/// their settled charges, which count towards their limits and are in the old history only.
///
/// 0, or 7 if the buffer is too small, 13 if an allocation failed, 14 if the engine is closed; then the engine and the
/// buffer are unchanged. With 0, 7 and 13, `count` is the number of active transactions.
#[unsafe(no_mangle)]
pub extern "C" fn esr_renew_carrying(
    alloc: Global,
    engine: &mut EsrEngine,
    txns: &mut [EsrCarried],
    count: &mut usize,
) -> u32
    ensures status { IsBufferStatus result }
    ensures closed { result ≡ 14 ↔ (engine.old.handle.history ≡ None) }
    ensures count { IfSome engine.old.handle.history (λ h. count.new ≡ active_count (accepted_in h)) }
    ensures small { IfSome engine.old.handle.history
        (λ h. (result ≡ 7) ↔ (length txns.old < active_count (accepted_in h))) }
    ensures renewed { result ≡ 0 → IfSome engine.old.handle.history
        (λ h. engine.new.handle.history ≡ Some (carried weighted h)) }
    ensures listed { result ≡ 0 → IfSome engine.old.handle.history (λ h. AreCarriedIn h count.new txns.new) }
    ensures carried { result ≡ 0 → IfSome engine.old.handle.history IsCarriedRenewal }
    ensures err { result ≢ 0 → (engine.new.handle.history ≡ engine.old.handle.history) × (txns.new ≡ txns.old) }
    ensures rest { drop count.new txns.new ≡ drop count.new txns.old }
    ensures count_kept { result ≡ 14 → count.new ≡ count.old }
{
    let Some(mut inner) = take_engine(alloc, engine) else {
        return Status::IsClosed.number();
    };
    let status = renew_engine_carrying(alloc, &mut inner, txns, count);
    *engine = variable_with(inner);
    status.number()
}

/// Closes an engine, and frees its memory. It may be reopened. A closed engine stays closed. The engine's replies
/// were sound: its committed updates are serializable, no limit was exceeded, and no query was off by more than it
/// imported.
#[unsafe(no_mangle)]
pub extern "C" fn esr_close(alloc: Global, engine: &mut EsrEngine)
    ensures closed { engine.new.handle.history ≡ None }
    ensures sound { IfSome engine.old.handle.history (IsSound weighted) }
{
    if let Some(inner) = take_engine(alloc, engine) {
        close_engine(inner);
    }
}
