//! The trace of a query under a metric that is not linear. No clause states what a trace contains, and a charge rule
//! for weighted differences passes every test of scripts.

use esr_core::Machine;
use esr_history::{Event, Reply, TxnId};
use esr_items::{ItemId, Metric, Store};
use esr_trace::{Cause, trace_of};

/// The distance of different values is 1: a query imports a number of changes.
#[derive(Clone, Copy)]
struct Changed;

impl Metric for Changed {
    ghost use Rattle.std.specs.Prelude.{[]};
    ghost use Rattle.esr_items.specs.Values.{gap};
    ghost use Rattle.esr_test_calls.specs.Changes.{changes, changes-zero, changes-same, changes_comm, changes-triangle, changes-bounded};

    ghost weights = { λ _. [] };

    ghost distance_by = { λ w x a b. changes a b };

    fn distance(&self, _x: ItemId, a: i64, b: i64) -> u64 {
        if a.abs_diff(b) == 0 { 0 } else { 1 }
    }

    ghost zero = { λ w x. changes-zero };

    ghost same = { λ w x. changes-same };

    ghost symmetric = { λ w x. changes_comm };

    ghost triangle = { λ w x. changes-triangle };

    ghost bounded = { λ w x. changes-bounded };
}

/// An update changes one item before the query reads it, and another after. By differences, either would exceed both
/// limits.
static EVENTS: [Event; 8] = [
    Event::BeginUpdate { limit: 2 },
    Event::BeginQuery {
        limit: 2,
        strict: false,
    },
    Event::Write {
        txn: TxnId(1),
        item: ItemId(0),
        value: 500,
    },
    Event::Read {
        txn: TxnId(2),
        item: ItemId(0),
    },
    Event::Read {
        txn: TxnId(2),
        item: ItemId(1),
    },
    Event::Write {
        txn: TxnId(1),
        item: ItemId(1),
        value: 90,
    },
    Event::Commit { txn: TxnId(1) },
    Event::Commit { txn: TxnId(2) },
];

fn events() -> &'static [Event] {
    &EVENTS
}

#[test]
fn charges_follow_the_metric(rt: HostRuntime) {
    let alloc = rt.alloc();
    let values = [10, 20].to_vec(alloc).expect(&rt, "memory");
    let items = Store::new(alloc, values).expect(&rt, "items");
    let mut machine = Machine::new(alloc, items, Changed).expect(&rt, "memory");
    for event in events() {
        let reply = machine.step(*event).expect(&rt, "memory");
        assert!(rt; !matches!(reply, Reply::Refused(_)));
    }
    let query = TxnId(2);
    let trace = trace_of(alloc, machine.history(), query).expect(&rt, "memory");
    assert!(rt; trace.charge_sum() == machine.history().import(query));
    assert!(rt; trace.charges.len() == 2);
    for charge in &trace.charges {
        assert!(rt; charge.update == TxnId(1) && charge.amount == 1);
    }
    let causes = [Cause::Read, Cause::Write { reads: 1 }];
    for (charge, cause) in trace.charges.iter().zip(&causes) {
        assert!(rt; charge.cause == *cause);
    }
}
