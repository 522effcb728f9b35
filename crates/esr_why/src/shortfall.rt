//! The charges of a blocked event to the limits that it would have exceeded.
//!
//! A refusal names one transaction, the first in the order of reasons. But a write may exceed the limits of several
//! queries, and of its own update as well: the report lists every limit that would have to be raised. So all charges that the
//! machine computes for the event are checked (`Machine::due`).

ghost use Rattle.std.specs.Prelude.{◌≡◌, ◌<◌, ◌-◌, ◌^◌, ◌++◌, length, filter_map, sum_by, IfOk, OnOk};
ghost use Rattle.esr_items.specs.Weights.{weighted};
ghost use Rattle.esr_history.specs.Events.{limit_of};
ghost use Rattle.esr_history.specs.Machine.{accepted_in};
ghost use Rattle.esr_core.specs.States.{IsInRange};
ghost use Rattle.esr_why.specs.Shortfalls.{lack, import_lack, export_lack, listed, shortfalls};

use esr_core::Machine;
use esr_history::{Event, TxnId};
use esr_items::Weighted;
use esr_replay::MetricRef;
use std::alloc::{AllocError, Global};

/// The limit: a query's, on its imports, or an update's, on its exports.
#[derive(Clone, Copy)]
pub enum Side {
    Import,
    Export,
}

/// The charge of an event to a limit that it would have exceeded.
#[derive(Clone, Copy)]
pub struct Shortfall {
    pub side: Side,
    pub txn: TxnId,
    /// The charge due.
    pub due: u128,
    /// The charges before.
    pub used: u64,
    pub limit: u64,
    /// The smallest limit that this would be within.
    pub enough: u128,
}

impl Shortfall {
    /// Returns the rest of the limit.
    pub fn rest(self) -> u64
        ensures { result ≡ self.limit - self.used }
    {
        self.limit.saturating_sub(self.used)
    }
}

/// Returns the shortfall of a transaction that has been charged `used` of its limit and would be charged `due` more.
fn lack(side: Side, txn: TxnId, due: u128, used: u64, limit: u64) -> Option<Shortfall>
    requires { due < 2 ^ 127 }
    ensures { result ≡ lack side txn.0 due used limit }
{
    let enough = u128::from(used) + due;
    if u128::from(limit) < enough {
        return Some(Shortfall {
            side,
            txn,
            due,
            used,
            limit,
            enough,
        });
    }
    None
}

/// Appends a shortfall, if there is one.
fn push_if(found: &mut Vec<Shortfall>, more: Option<Shortfall>) -> Result<(), AllocError>
    ensures { OnOk result (found.new.items ≡ found.old.items ++ listed more) }
{
    match more {
        Some(shortfall) => {
            found.push(shortfall)?;
            Ok(())
        }
        None => Ok(()),
    }
}

/// Returns the sum of charges.
fn total(charges: &[(TxnId, u64)]) -> u128
    ensures total { result ≡ sum_by (λ c. c.1) charges.now }
    ensures upper_bound { result < 2 ^ 127 }
{
    let mut sum = 0u128;
    for charge in charges {
        sum += u128::from(charge.1);
    }
    sum
}

/// Returns the limit of a transaction.
fn limit(machine: &Machine<MetricRef<'_, Weighted>>, t: TxnId) -> u64
    ensures { result ≡ limit_of (accepted_in machine.now) t.0 }
{
    match machine.history().facts(t) {
        Some(facts) => facts.limit,
        None => 0,
    }
}

/// Returns the shortfall of a query to import `due` more.
fn import_lack(machine: &Machine<MetricRef<'_, Weighted>>, q: TxnId, due: u64) -> Option<Shortfall>
    ensures { result ≡ import_lack weighted machine.now q.0 due }
{
    let used = machine.history().import(q);
    lack(Side::Import, q, u128::from(due), used, limit(machine, q))
}

/// Returns the shortfall of an update to export `due` more.
fn export_lack(machine: &Machine<MetricRef<'_, Weighted>>, u: TxnId, due: u128) -> Option<Shortfall>
    requires { due < 2 ^ 127 }
    ensures { result ≡ export_lack weighted machine.now u.0 due }
{
    let used = machine.export(u);
    lack(Side::Export, u, due, used, limit(machine, u))
}

/// Appends the shortfalls of the queries for these charges.
fn push_imports(
    found: &mut Vec<Shortfall>,
    machine: &Machine<MetricRef<'_, Weighted>>,
    charges: &[(TxnId, u64)],
) -> Result<(), AllocError>
    ensures { OnOk result (found.new.items ≡ found.old.items
        ++ filter_map (λ c. import_lack weighted machine.now c.0.0 c.1) charges.now) }
{
    for charge in charges {
        push_if(found, import_lack(machine, charge.0, charge.1))?;
    }
    Ok(())
}

/// Returns the shortfalls of the next event for the charges due.
pub fn shortfalls(
    alloc: Global,
    machine: &Machine<MetricRef<'_, Weighted>>,
    event: Event,
) -> Result<Vec<Shortfall>, AllocError>
    requires { IsInRange event (length machine.now.opening) }
    ensures { IfOk result (λ v. v.items ≡ shortfalls weighted machine.now event) }
{
    let mut charges = Vec::new(alloc);
    let mut found = Vec::new(alloc);
    let Some(update) = machine.due(&mut charges, event)? else {
        return Ok(found);
    };
    push_imports(&mut found, machine, &charges)?;
    push_if(&mut found, export_lack(machine, update, total(&charges)))?;
    Ok(found)
}
