//! The state of each item along the updates of a query, and the effect of one update on it.
ghost use Rattle.std.specs.Prelude.{◌≡◌, ◌≤◌, ◌<◌, ◌&&◌, ◌||◌, ◌⊎◌, ◌+◌, ℤ, ◌++◌, ◌∷◌, [], ℕ, Bool, List, All, IfOk, IfSome, false, length, map, true};
ghost use Rattle.std.specs.List.{list_any};
ghost use Rattle.esr_items.specs.Values.{IsValue};
ghost use Rattle.esr_order.specs.declared.accesses.Access.{Access as AccessValue};
ghost use Rattle.esr_stream.specs.Passes.{AreStates, HasReadReason, IsReadOf, IsUpdateApplied, ItemState as StateValue, amounts_sum, as_covered, costs_sum, has_slack_at, has_write_reason, is_owed_at, loans_sum, read_amount, unowed_at};
ghost use Rattle.esr_stream.specs.Query.{cost_in};

use crate::amounts::{ProposedAmount, ZERO, opening_id};
use crate::query::AuditedQuery;
use crate::reads::OFFSET;
use esr_items::{ItemId, Metric};
use esr_order::Access;
use std::alloc::{AllocError, Global};

/// The state of an item after some updates.
#[derive(Clone, Copy)]
pub struct ItemState {
    /// The cost of its version.
    cost: u64,
    /// The amount of that version, as its readers so far have raised it: at most the cost.
    amount: u64,
    /// The loans that its readers have taken.
    loan: u64,
    /// Whether a marked reader has a loan.
    owed: bool,
    /// Whether each of its writers so far is marked or precedes a marked writer.
    covered: bool,
}

/// Returns the amount of a version, 0 past the end.
fn amount_at(amounts: &[ProposedAmount], id: usize) -> u64 {
    amounts.get(id).map_or(0, |amount| amount.value())
}

/// Returns the amount that is proposed for a read, `OFFSET` past the end.
fn read_amount(amounts: &[ProposedAmount], j: usize) -> u64
    ensures { result ≡ read_amount amounts.now j }
{
    amounts.get(j).copied().unwrap_or(ZERO).value()
}

/// Returns the states of the items before all updates.
///
/// # Errors
///
/// An allocation failed.
pub fn opening_states<M: Metric>(
    alloc: Global,
    query: &AuditedQuery<M>,
    amounts: &[ProposedAmount],
) -> Result<Vec<ItemState>, AllocError>
    ensures { IfOk result (λ states. (marks : List Bool)
        → AreStates (cost_in M.distance_by query.now) query.now.schedule query.now.query 0 marks states.items) }
{
    let mut states = Vec::with_capacity(alloc, query.items() as usize)?;
    for x in 0..query.items() {
        let cost = query.opening_cost(ItemId(x));
        states.push(ItemState {
            cost,
            amount: amount_at(amounts, opening_id(query.items(), x) as usize).min(cost),
            loan: 0,
            owed: false,
            covered: true,
        })?;
    }
    Ok(states)
}

/// Returns whether the version of an item has slack, and all its writers are covered.
fn has_slack_at(states: &[ItemState], x: ItemId) -> bool
    ensures { result ≡ has_slack_at states.now x.0 }
{
    match states.get(x.0 as usize) {
        None => false,
        Some(state) => state.covered && state.amount < state.cost,
    }
}

/// Returns whether a marked update has a loan from the version of an item, and all its writers are covered.
fn is_owed_at(states: &[ItemState], x: ItemId) -> bool
    ensures { result ≡ is_owed_at states.now x.0 }
{
    match states.get(x.0 as usize) {
        None => false,
        Some(state) => state.covered && state.owed,
    }
}

/// Returns whether an update with these accesses has to be marked because of a version that it overwrites.
fn has_write_reason(states: &[ItemState], row: &[Access]) -> bool
    ensures { result ≡ has_write_reason states.now row.now }
{
    row.iter().any(|a| a.writes && (has_slack_at(states, a.item) || is_owed_at(states, a.item)))
}

/// Returns whether an update with these accesses raises the amount of a version with slack.
fn has_read_reason(states: &[ItemState], row: &[Access], amounts: &[ProposedAmount]) -> bool
    ensures { result ≡ true → HasReadReason states.now row.now (read_amount amounts.now) }
{
    for j in 0..row.len() {
        let access = row[j];
        if !access.writes && OFFSET < read_amount(amounts, j) && has_slack_at(states, access.item) {
            return true;
        }
    }
    false
}

/// Returns whether an update is marked: it is already, or every closed set of the bound's cost contains it because of a version
/// that it overwrites or reads.
pub fn is_forced(
    states: &[ItemState],
    row: &[Access],
    amounts: &[ProposedAmount],
    marked: bool,
) -> bool
    ensures stays { marked ≡ true → result ≡ true }
    ensures reason { result ≡ true → (marked ≡ true) ⊎ ((has_write_reason states.now row.now ≡ true)
        ⊎ HasReadReason states.now row.now (read_amount amounts.now)) }
{
    marked || has_write_reason(states, row) || has_read_reason(states, row, amounts)
}

/// Returns the sum of two numbers, or `None` if it does not fit.
pub fn add(a: u64, b: u64) -> Option<u64>
    ensures { IfSome result (λ sum. sum ≡ a + b) }
{
    a.checked_add(b)
}

/// The effect of an access on the sum of the amounts less the loans: `after` and `repaid` are added, `before` is subtracted.
#[derive(Clone, Copy)]
struct Moved {
    before: u64,
    after: u64,
    repaid: u64,
}

/// Applies a write to the state of its item.
fn apply_write<M: Metric>(
    query: &AuditedQuery<M>,
    states: &mut [ItemState],
    access: Access,
    amount: u64,
    marked: bool,
) -> Moved
    requires len { length states.old ≡ length query.now.schedule.opening }
    requires item { access.item.0 < length states.old }
    requires value { IsValue access.value }
    requires writes { access.writes ≡ true }
    ensures { (proposed : ℕ → ℕ) (row : List AccessValue) (old : List StateValue) (before after : ℕ)
        → IsUpdateApplied (cost_in M.distance_by query.now) marked proposed row old states.old before after
        → IsUpdateApplied (cost_in M.distance_by query.now) marked proposed (row ++ access ∷ []) old states.new
        (before + result.before) (after + (result.after + result.repaid)) }
{
    let x = access.item.0 as usize;
    let cost = query.cost(access.item, access.value);
    let before = states[x].amount;
    let repaid = states[x].loan;
    let lowered = amount.min(cost);
    states[x] = ItemState {
        cost,
        amount: lowered,
        loan: 0,
        owed: false,
        covered: marked,
    };
    Moved {
        before,
        after: lowered,
        repaid,
    }
}

/// Returns the state of an item after a read, for which `amount` is proposed: raises the amount, at most to the cost, or adds a
/// loan.
fn after_read(state: ItemState, amount: u64, marked: bool) -> ItemState
    ensures read { IsReadOf marked state result }
    ensures under { state.amount ≤ state.cost → result.amount ≤ result.cost }
    ensures raises { OFFSET < amount → state.amount < state.cost → state.amount < result.amount }
{
    let room = state.cost.saturating_sub(state.amount);
    let raise = amount.saturating_sub(OFFSET).min(room);
    let loan = state.loan.saturating_add(OFFSET.saturating_sub(amount));
    ItemState {
        cost: state.cost,
        amount: state.amount.saturating_add(raise),
        loan,
        owed: state.owed || (marked && state.loan < loan),
        covered: state.covered,
    }
}

/// Applies a read to the state of its item.
fn apply_read(states: &mut [ItemState], x: ItemId, amount: u64, marked: bool) -> Moved
    requires item { x.0 < length states.old }
    ensures { (C : ℕ → ℤ → ℕ) (proposed : ℕ → ℕ) (row : List AccessValue) (access : AccessValue) (old : List StateValue) (before after : ℕ)
        → access.writes ≡ false → access.item.0 ≡ x.0 → proposed (length row) ≡ amount
        → IsUpdateApplied C marked proposed row old states.old before after
        → IsUpdateApplied C marked proposed (row ++ access ∷ []) old states.new (before + result.before) (after + (result.after + result.repaid)) }
{
    let x = x.0 as usize;
    let state = states[x];
    let read = after_read(state, amount, marked);
    states[x] = read;
    Moved {
        before: read.loan - state.loan,
        after: read.amount - state.amount,
        repaid: 0,
    }
}

/// Applies the accesses of an update to the states of the items. Returns whether the sum of the amounts less the loans does not
/// decrease, or `None` if a sum does not fit.
fn apply_row<M: Metric>(
    query: &AuditedQuery<M>,
    states: &mut [ItemState],
    row: &[Access],
    amounts: &[ProposedAmount],
    marked: bool,
) -> Option<bool>
    requires len { length states.old ≡ length query.now.schedule.opening }
    requires row { All (λ a. a.item.0 < length query.now.schedule.opening) row.now }
    requires values { All (λ a. IsValue a.value) row.now }
    ensures len { length states.new ≡ length states.old }
    ensures row { IfSome result (λ keeps. (before : ℕ) × (after : ℕ)
        × IsUpdateApplied (cost_in M.distance_by query.now) marked (read_amount amounts.now) row.now states.old states.new before after
        × (keeps ≡ true → before ≤ after)) }
{
    let mut before = 0u64;
    let mut after = 0u64;
    for j in 0..row.len() {
        let access = row[j];
        let moved = if access.writes {
            let amount = amount_at(amounts, j);
            apply_write(query, states, access, amount, marked)
        } else {
            apply_read(states, access.item, read_amount(amounts, j), marked)
        };
        before = add(before, moved.before)?;
        after = add(after, add(moved.after, moved.repaid)?)?;
    }
    Some(before <= after)
}

/// Applies the accesses of an update. Returns `false` if a sum does not fit.
pub fn fits<M: Metric>(
    query: &AuditedQuery<M>,
    states: &mut [ItemState],
    row: &[Access],
    amounts: &[ProposedAmount],
) -> bool
    requires len { length states.old ≡ length query.now.schedule.opening }
    requires row { All (λ a. a.item.0 < length query.now.schedule.opening) row.now }
    requires values { All (λ a. IsValue a.value) row.now }
    ensures len { length states.new ≡ length states.old }
    ensures row { result ≡ true → (before : ℕ) × (after : ℕ)
        × IsUpdateApplied (cost_in M.distance_by query.now) true (read_amount amounts.now) row.now states.old states.new before after }
{
    match apply_row(query, states, row, amounts, true) {
        Some(_) => true,
        None => false,
    }
}

/// Applies the accesses of an update. Returns `false` if the sum of the amounts less the loans decreases or does not fit.
pub fn steps<M: Metric>(
    query: &AuditedQuery<M>,
    states: &mut [ItemState],
    row: &[Access],
    amounts: &[ProposedAmount],
    marked: bool,
) -> bool
    requires len { length states.old ≡ length query.now.schedule.opening }
    requires row { All (λ a. a.item.0 < length query.now.schedule.opening) row.now }
    requires values { All (λ a. IsValue a.value) row.now }
    ensures len { length states.new ≡ length states.old }
    ensures row { result ≡ true → (before : ℕ) × (after : ℕ)
        × IsUpdateApplied (cost_in M.distance_by query.now) marked (read_amount amounts.now) row.now states.old states.new before after
        × (before ≤ after) }
{
    match apply_row(query, states, row, amounts, marked) {
        Some(keeps) => keeps,
        None => false,
    }
}

/// Applies the accesses of an update, if it is marked. Returns `false` if a sum does not fit.
pub fn fits_if<M: Metric>(
    query: &AuditedQuery<M>,
    states: &mut [ItemState],
    row: &[Access],
    marked: bool,
) -> bool
    requires len { length states.old ≡ length query.now.schedule.opening }
    requires row { All (λ a. a.item.0 < length query.now.schedule.opening) row.now }
    requires values { All (λ a. IsValue a.value) row.now }
    ensures len { length states.new ≡ length states.old }
    ensures member { result ≡ true → marked ≡ true → (proposed : ℕ → ℕ) × (before : ℕ) × (after : ℕ)
        × IsUpdateApplied (cost_in M.distance_by query.now) true proposed row.now states.old states.new before after }
    ensures other { marked ≡ false → states.new ≡ states.old }
{
    if marked {
        fits(query, states, row, &[])
    } else {
        true
    }
}

/// Returns a copy of the states, in which the writers of each item are covered.
///
/// # Errors
///
/// An allocation failed.
pub fn covered_copy(alloc: Global, states: &[ItemState]) -> Result<Vec<ItemState>, AllocError>
    ensures { IfOk result (λ copy. copy.items ≡ map as_covered states.now) }
{
    states
        .iter()
        .map(|state| ItemState {
            owed: 0 < state.loan,
            covered: true,
            ..*state
        })
        .collect(alloc)
}

/// Returns whether two states have the same amount and the same loans.
fn has_same_amount(a: ItemState, b: ItemState) -> bool
    ensures { result ≡ true → (a.amount ≡ b.amount) × (a.loan ≡ b.loan) }
{
    a.amount == b.amount && a.loan == b.loan
}

/// Returns whether the states have the same amounts and loans.
pub fn have_same_amounts(a: &[ItemState], b: &[ItemState]) -> bool
    ensures { result ≡ true → (x : ℕ) → unowed_at a.now x ≡ unowed_at b.now x }
{
    if a.len() != b.len() {
        return false;
    }
    for x in 0..a.len() {
        if !has_same_amount(a[x], b[x]) {
            return false;
        }
    }
    true
}

/// Returns the sum of the costs, or `None` if it does not fit.
pub fn costs_of(states: &[ItemState]) -> Option<u64>
    ensures { IfSome result (λ sum. sum ≡ costs_sum states.now) }
{
    let mut sum = 0u64;
    for state in states {
        sum = add(sum, state.cost)?;
    }
    Some(sum)
}

/// Returns the sum of the amounts less the loans, or `None` if it does not fit.
pub fn sum_of(states: &[ItemState]) -> Option<u64>
    ensures { IfSome result (λ sum. sum + loans_sum states.now ≡ amounts_sum states.now) }
{
    let mut amounts = 0u64;
    let mut loans = 0u64;
    for state in states {
        amounts = add(amounts, state.amount)?;
        loans = add(loans, state.loan)?;
    }
    amounts.checked_sub(loans)
}
