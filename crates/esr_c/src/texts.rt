//! Texts of a committed query: its explanation and its picture, by the names of the history's script.
//!
//! Both show the finding of an audit, and are made from the engine's own history, so the script need not be run for
//! them.

ghost use Rattle.std.specs.Prelude.{◌≡◌, ◌≢◌, ◌↔◌, ◌⊎◌, ◌<◌, false, None, length, IfOk, IfErr, IsErrOf, drop};
ghost use Rattle.esr_items.specs.Weights.{weighted};
ghost use Rattle.esr_history.specs.Queries.{is_committed_query};
ghost use Rattle.esr_audit.specs.Findings.{IsFindingOf};
ghost use Rattle.esr_explain.specs.Explain.{explanation};
ghost use Rattle.esr_svg.specs.Svg.{IsSvg};
ghost use Rattle.esr_c.specs.Answers.{status_number};
ghost use Rattle.esr_c.specs.HistoryTexts.{HasNameForEachItem, IsExplanationOf, IsQueryTextStatus, IsTextInBuffer, IsTextLength, parsed_item_names};

use crate::audit::{find, hand_out};
use crate::engine::Status;
use crate::past::{names_of_transactions, parse_item_names};
use esr_audit::Finding;
use esr_engine::EmbeddedEngine;
use esr_explain::explanation;
use esr_history::History;
use esr_items::Weighted;
use esr_picture::picture;
use esr_report::Names;
use esr_trace::Audited;
use std::alloc::Global;

/// Returns the explanation of a query with this finding, or the status of the failure.
fn explain(
    alloc: Global,
    items: &Names,
    transactions: &Names,
    engine: &EmbeddedEngine,
    finding: &Finding,
    query: u32,
) -> Result<Vec<u8>, Status>
    requires finding { IsFindingOf weighted engine.now query finding.now }
    requires query { finding.now.query.0 ≡ query }
    ensures ok { IfOk result (λ text. text.items ≡ explanation weighted engine.now items.now transactions.now query) }
    ensures err { IfErr result (λ e. e ≡ Status.NoMemory) }
{
    match explanation(alloc, items, transactions, engine.history(), finding) {
        Ok(text) => Ok(text),
        Err(_) => Err(Status::NoMemory),
    }
}

/// Returns the explanation of a query, or the status of the failure.
fn explanation_text(
    alloc: Global,
    engine: &mut EmbeddedEngine,
    query: u32,
    names: &[u8],
) -> Result<Vec<u8>, Status>
    ensures same { engine.new ≡ engine.old }
    ensures ok { IfOk result (λ text. IsExplanationOf engine.old query names.now text.items) }
    ensures not_committed_query { IsErrOf result Status.NotACommittedQuery ↔ (is_committed_query engine.old query ≡ false) }
    ensures bad_names { IsErrOf result Status.BadNames → parsed_item_names engine.old names.now ≡ None }
    ensures err { IfErr result (λ e. (e ≡ Status.NotACommittedQuery) ⊎ ((e ≡ Status.BadNames) ⊎ (e ≡ Status.NoMemory))) }
{
    let found = find(alloc, engine, query)?;
    let items = parse_item_names(alloc, engine, names)?;
    let transactions = names_of_transactions(alloc, engine)?;
    match explain(alloc, &items, &transactions, engine, &found, query) {
        Ok(text) => Ok(text),
        Err(_) => Err(Status::NoMemory),
    }
}

/// Returns the bytes of the picture of a query, or the status of the failure.
fn draw<'a>(
    alloc: Global,
    items: &'a Names,
    transactions: &'a Names,
    history: &'a History<Weighted>,
    finding: &'a Finding,
) -> Result<Vec<u8>, Status>
    ensures ok { IfOk result (λ text. IsSvg text.items) }
    ensures err { IfErr result (λ e. e ≡ Status.NoMemory) }
{
    let audited = Audited {
        items,
        transactions,
        history,
        finding,
    };
    match picture(alloc, &audited) {
        Ok(text) => Ok(text.into_bytes()),
        Err(_) => Err(Status::NoMemory),
    }
}

/// Returns the picture of a query, or the status of the failure.
fn picture_text(
    alloc: Global,
    engine: &mut EmbeddedEngine,
    query: u32,
    names: &[u8],
) -> Result<Vec<u8>, Status>
    ensures same { engine.new ≡ engine.old }
    ensures ok { IfOk result (λ text. IsSvg text.items) }
    ensures named { IfOk result (λ _. HasNameForEachItem engine.old names.now) }
    ensures not_committed_query { IsErrOf result Status.NotACommittedQuery ↔ (is_committed_query engine.old query ≡ false) }
    ensures bad_names { IsErrOf result Status.BadNames → parsed_item_names engine.old names.now ≡ None }
    ensures err { IfErr result (λ e. (e ≡ Status.NotACommittedQuery) ⊎ ((e ≡ Status.BadNames) ⊎ (e ≡ Status.NoMemory))) }
{
    let found = find(alloc, engine, query)?;
    let items = parse_item_names(alloc, engine, names)?;
    let transactions = names_of_transactions(alloc, engine)?;
    match draw(alloc, &items, &transactions, engine.history(), &found) {
        Ok(text) => Ok(text),
        Err(_) => Err(Status::NoMemory),
    }
}

pub(crate) fn show_explanation(
    alloc: Global,
    engine: &mut EmbeddedEngine,
    query: u32,
    names: &[u8],
    bytes: &mut [u8],
    count: &mut usize,
) -> Status
    ensures same { engine.new ≡ engine.old }
    ensures statuses { IsQueryTextStatus (status_number result) }
    ensures never_closed { result ≢ Status.IsClosed }
    ensures not_committed_query { (result ≡ Status.NotACommittedQuery) ↔ (is_committed_query engine.old query ≡ false) }
    ensures bad_names { result ≡ Status.BadNames → parsed_item_names engine.old names.now ≡ None }
    ensures explanation { result ≡ Status.Done
        → IsTextInBuffer (IsExplanationOf engine.old query names.now) count.new bytes.new }
    ensures small { result ≡ Status.TooSmall → (length bytes.old < count.new)
        × IsTextLength (IsExplanationOf engine.old query names.now) count.new }
    ensures kept { result ≢ Status.Done → bytes.new ≡ bytes.old }
    ensures rest { drop count.new bytes.new ≡ drop count.new bytes.old }
    ensures count_kept { result ≢ Status.Done → result ≢ Status.TooSmall → count.new ≡ count.old }
{
    match explanation_text(alloc, engine, query, names) {
        Ok(text) => hand_out(bytes, count, &text),
        Err(why) => why,
    }
}

pub(crate) fn show_picture(
    alloc: Global,
    engine: &mut EmbeddedEngine,
    query: u32,
    names: &[u8],
    bytes: &mut [u8],
    count: &mut usize,
) -> Status
    ensures same { engine.new ≡ engine.old }
    ensures statuses { IsQueryTextStatus (status_number result) }
    ensures never_closed { result ≢ Status.IsClosed }
    ensures not_committed_query { (result ≡ Status.NotACommittedQuery) ↔ (is_committed_query engine.old query ≡ false) }
    ensures bad_names { result ≡ Status.BadNames → parsed_item_names engine.old names.now ≡ None }
    ensures named { (result ≡ Status.Done) ⊎ (result ≡ Status.TooSmall) → HasNameForEachItem engine.old names.now }
    ensures picture { result ≡ Status.Done → IsTextInBuffer IsSvg count.new bytes.new }
    ensures small { result ≡ Status.TooSmall → (length bytes.old < count.new) × IsTextLength IsSvg count.new }
    ensures kept { result ≢ Status.Done → bytes.new ≡ bytes.old }
    ensures rest { drop count.new bytes.new ≡ drop count.new bytes.old }
    ensures count_kept { result ≢ Status.Done → result ≢ Status.TooSmall → count.new ≡ count.old }
{
    match picture_text(alloc, engine, query, names) {
        Ok(text) => hand_out(bytes, count, &text),
        Err(why) => why,
    }
}
