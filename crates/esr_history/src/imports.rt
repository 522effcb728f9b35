//! Sums the imports of each transaction as they are charged.
//!
//! The machine has computed an event's charges when it adds the event to the history, so the sums cost nothing more.
//! Adding up distances along the links of the items that a query read would make each audit visit the operations on
//! these items.
ghost use Rattle.std.specs.Prelude.{◌≡◌, ◌+◌, ◌<◌, ◌≤◌, ◌^◌, ◌∷◌, [], ℕ, false, length, slice_index_or, vec_capacity, IfOk};
ghost use Rattle.esr_history.specs.Events.{is_refusal};
ghost use Rattle.esr_history.specs.Imports.{imported, with_number, AreImports, AreDue};
ghost use Rattle.esr_history.specs.Machine.{DistanceFunction, Schedule, IsLegal, extended, reply_to};

use crate::event::{Entry, Event};
use esr_base::TxnId;
use std::alloc::{AllocError, Global};

/// Creates the table before the first transaction.
pub fn no_imports(alloc: Global) -> Result<Vec<u64>, AllocError>
    ensures { IfOk result (λ v. v.items ≡ 0 ∷ []) }
{
    let mut imports = Vec::new(alloc);
    imports.push(0)?;
    Ok(imports)
}

/// Adds an import of 0 for a transaction that begins. The capacity must be reserved.
#[inline(always)]
fn open(imports: &mut Vec<u64>, event: Event)
    requires { length imports.old.items < vec_capacity imports.old }
    ensures places { imports.new.items ≡ with_number imports.old.items event }
    ensures spare_capacity { (k : ℕ) → length imports.old.items + (k + 1) ≤ vec_capacity imports.old
        → length imports.new.items + k ≤ vec_capacity imports.new }
{
    match event {
        Event::BeginUpdate { limit: _ }
        | Event::BeginQuery {
            limit: _,
            strict: _,
        } => imports.push_reserved(0),
        _ => {}
    }
}

/// Adds the charges to the imports of their transactions.
fn add_charges(imports: &mut [u64], charges: &[(TxnId, u64)])
    requires { (t : ℕ) → slice_index_or imports.old t 0 + imported charges.now t < 2 ^ 64 }
    ensures len { length imports.new ≡ length imports.old }
    ensures sums { (t : ℕ) → t < length imports.old
        → slice_index_or imports.new t 0 ≡ slice_index_or imports.old t 0 + imported charges.now t }
{
    for charge in charges {
        let (t, amount) = *charge;
        if (t.0 as usize) < imports.len() {
            imports[t.0 as usize] += amount;
        }
    }
}

/// Resets the table to its state before the first transaction. Its capacity stays.
pub fn clear(imports: &mut Vec<u64>)
    requires { 0 < length imports.old.items }
    ensures table { imports.new.items ≡ 0 ∷ [] }
    ensures spare_capacity { length imports.new.items ≤ vec_capacity imports.new }
{
    imports.truncate(1);
    imports.fill(0);
}

/// Adds the charges of an entry to the imports. There must be capacity for one more transaction.
#[inline(always)]
pub fn note(imports: &mut Vec<u64>, entry: Entry, charges: &[(TxnId, u64)])
    requires spare_capacity { length imports.old.items < vec_capacity imports.old }
    requires fits { is_refusal entry.reply ≡ false → (t : ℕ)
        → slice_index_or imports.old.items t 0 + imported charges.now t < 2 ^ 64 }
    ensures imports { (d : DistanceFunction) (h : Schedule) → IsLegal d h → entry.reply ≡ reply_to d h entry.event
        → AreDue d h entry.event entry.reply charges.now
        → AreImports d h imports.old.items → AreImports d (extended h entry.event entry.reply) imports.new.items }
    ensures spare_capacity { (k : ℕ) → length imports.old.items + (k + 1) ≤ vec_capacity imports.old
        → length imports.new.items + k ≤ vec_capacity imports.new }
{
    if entry.is_refused() {
        return;
    }
    open(imports, entry.event);
    add_charges(imports, charges);
}

/// Returns the import of a transaction in the table, or 0 past its end.
pub fn import_of(imports: &[u64], t: TxnId) -> u64
    ensures { result ≡ slice_index_or imports.now t.0 0 }
{
    imports.get(t.0 as usize).copied().unwrap_or(0)
}
