//! Limits and charges, computed by hand. The contracts prove that each call satisfies a definition. These tests show that
//! the definitions are the intended ones, and that the allocation of an account succeeds.

ghost use Rattle.std.specs.Prelude.{◌≡◌, []};

use esr_history::TxnId;
use esr_ledgers::{Ledgers, Quote};
use std::process::Abort;

/// A quote names the query whose limit would be passed, and a charge may reach a limit exactly.
#[test]
fn an_export_limit_bounds_the_sum_over_queries(rt: HostRuntime) {
    check_the_sum(&rt, &mut Ledgers::new(rt.alloc()));
}

fn check_the_sum(rt: &impl Abort, ledgers: &mut Ledgers)
    requires { ledgers.old ≡ [] }
{
    let q = TxnId(1);
    let r = TxnId(7);
    let u = TxnId(3);
    ledgers.open_query(r, 5).expect(rt, "memory");
    ledgers.open_query(q, 10).expect(rt, "memory");
    ledgers.open_update(u, 14).expect(rt, "memory");
    assert!(rt; ledgers.quote(u, &[(q, 11), (r, 1)]) == Quote::Import(q));
    assert!(rt; ledgers.quote(u, &[(q, 10), (r, 6)]) == Quote::Import(r));
    assert!(rt; ledgers.quote(u, &[(q, 10), (r, 5)]) == Quote::Export(u));
    assert!(rt; ledgers.quote(u, &[(q, 10), (r, 4)]) == Quote::Fits);
    ledgers.charge(u, &[(q, 10), (r, 4)]);
    assert!(rt; ledgers.quote(u, &[(r, 1)]) == Quote::Export(u));
    assert!(rt; ledgers.import(q) == 10);
    assert!(rt; ledgers.import(r) == 4);
    assert!(rt; ledgers.export(u) == 14);
    assert!(rt; ledgers.totals() == (14, 14));
}

/// A quote names the update whose export limit would be passed. It charges nothing.
#[test]
fn an_update_that_is_full_is_named(rt: HostRuntime) {
    let mut ledgers = Ledgers::new(rt.alloc());
    let q = TxnId(1);
    let u = TxnId(2);
    ledgers.open_query(q, 10).expect(&rt, "memory");
    ledgers.open_update(u, 4).expect(&rt, "memory");
    assert!(rt; ledgers.quote(u, &[(q, 5)]) == Quote::Export(u));
    assert!(rt; ledgers.totals() == (0, 0));
}

/// A charge within all limits is booked with its check. One that exceeds a limit is refused and changes no account.
#[test]
fn a_charge_is_checked_and_booked_together(rt: HostRuntime) {
    check_charges(&rt, &mut Ledgers::new(rt.alloc()));
}

fn check_charges(rt: &impl Abort, ledgers: &mut Ledgers)
    requires { ledgers.old ≡ [] }
{
    let q = TxnId(1);
    let r = TxnId(7);
    let u = TxnId(3);
    ledgers.open_query(r, 5).expect(rt, "memory");
    ledgers.open_query(q, 10).expect(rt, "memory");
    ledgers.open_update(u, 14).expect(rt, "memory");
    assert!(rt; ledgers.try_charge(u, &[(q, 10), (r, 6)]) == Quote::Import(r));
    assert!(rt; ledgers.try_charge(u, &[(q, 10), (r, 5)]) == Quote::Export(u));
    assert!(rt; ledgers.totals() == (0, 0));
    assert!(rt; ledgers.try_charge(u, &[(q, 10), (r, 4)]) == Quote::Fits);
    assert!(rt; ledgers.import(q) == 10);
    assert!(rt; ledgers.import(r) == 4);
    assert!(rt; ledgers.export(u) == 14);
    assert!(rt; ledgers.totals() == (14, 14));
}
