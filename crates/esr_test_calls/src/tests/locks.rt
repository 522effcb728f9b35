//! Locks acquired and released. Each call is proved against lists of the lock holders, but a lock is acquired only if
//! the table has capacity for it, and no clause can state that it has: a table without any capacity would keep its
//! contract.

ghost use Rattle.std.specs.Prelude.{◌≡◌, ◌<◌, length, map};
ghost use Rattle.std.specs.List.{range_with_len};
ghost use Rattle.esr_locks.specs.Tables.{no_locks, spare_lock_capacity};

use esr_history::TxnId;
use esr_items::ItemId;
use esr_locks::{LockTable, QueryReads};
use std::alloc::Global;
use std::process::Abort;

const A: ItemId = ItemId(0);

const B: ItemId = ItemId(1);

fn table(rt: &impl Abort, alloc: Global) -> LockTable
    ensures { result.locks ≡ map (λ x. no_locks) (range_with_len 0 2) }
{
    LockTable::new(alloc, 2).expect(rt, "memory")
}

fn reserve_lock(rt: &impl Abort, locks: &mut LockTable, t: TxnId, x: ItemId)
    requires { x.0 < length locks.old.locks }
    ensures same { locks.new.locks ≡ locks.old.locks }
    ensures spare_capacity { 0 < spare_lock_capacity locks.new t.0 x.0 }
{
    locks.reserve(t, x).expect(rt, "memory")
}

fn read_by(rt: &impl Abort, locks: &mut LockTable, t: TxnId)
    requires { 0 < length locks.old.locks }
    ensures { length locks.new.locks ≡ length locks.old.locks }
{
    reserve_lock(rt, locks, t, A);
    locks.add_read_update(t, A);
}

fn write_by(rt: &impl Abort, locks: &mut LockTable, t: TxnId)
    requires { 0 < length locks.old.locks }
    ensures { length locks.new.locks ≡ length locks.old.locks }
{
    reserve_lock(rt, locks, t, A);
    locks.add_write(t, A);
}

fn release(locks: &mut LockTable, t: TxnId)
    ensures { length locks.new.locks ≡ length locks.old.locks }
{
    locks.release(t);
}

/// By the clauses, a lock may always fail for lack of capacity, and `items_of` may list extra items: here it is
/// exact.
#[test]
fn an_upgrade_waits_for_the_smallest_other_reader(rt: HostRuntime) {
    let mut locks = table(&rt, rt.alloc());
    let u = TxnId(1);
    let v = TxnId(2);
    let w = TxnId(3);
    read_by(&rt, &mut locks, w);
    read_by(&rt, &mut locks, u);
    read_by(&rt, &mut locks, v);
    assert!(rt; locks.may_write(u, A) == Some(v));
    assert!(rt; locks.may_write(v, A) == Some(u));
    assert!(rt; locks.may_read_update(u, A) == None);
    release(&mut locks, v);
    assert!(rt; locks.may_write(u, A) == Some(w));
    release(&mut locks, w);
    assert!(rt; locks.may_write(u, A) == None);
    write_by(&rt, &mut locks, u);
    assert!(rt; locks.write_holder(A) == Some(u));
    assert!(rt; locks.may_read_update(v, A) == Some(u));
    assert!(rt; locks.items_of(u).len() == 1);
    assert!(rt; locks.write_holder(B) == None);
    release(&mut locks, u);
    assert!(rt; locks.write_holder(A) == None);
    assert!(rt; locks.items_of(u).is_empty());
}

/// No clause can state that a query's lock finds capacity: a table that never has any would be proved. A second read
/// by one query is counted with the first.
#[test]
fn queries_are_in_order_with_counts(rt: HostRuntime) {
    let mut locks = table(&rt, rt.alloc());
    let q = TxnId(4);
    let r = TxnId(2);
    reserve_lock(&rt, &mut locks, q, B);
    locks.add_read_query(q, B);
    reserve_lock(&rt, &mut locks, r, B);
    locks.add_read_query(r, B);
    reserve_lock(&rt, &mut locks, q, B);
    locks.add_read_query(q, B);
    assert!(rt; locks.query_reads(A).is_empty());
    assert!(rt;
        locks.query_reads(B)
            == [
                QueryReads { query: r, count: 1 },
                QueryReads { query: q, count: 2 }
            ]
            .as_slice()
    );
    locks.release(q);
    assert!(rt; locks.query_reads(B) == [QueryReads { query: r, count: 1 }].as_slice());
}

/// Reserves and adds the lock of a read by an update in one call.
fn try_read_by(rt: &impl Abort, locks: &mut LockTable, t: TxnId)
    requires { 0 < length locks.old.locks }
    ensures { length locks.new.locks ≡ length locks.old.locks }
{
    locks.try_add_read_update(t, A).expect(rt, "memory");
}

/// A row holds four readers without an allocation; no clause can state that the fifth gets one.
#[test]
fn more_readers_than_a_row_holds_are_in_order(rt: HostRuntime) {
    let mut locks = table(&rt, rt.alloc());
    try_read_by(&rt, &mut locks, TxnId(14));
    try_read_by(&rt, &mut locks, TxnId(12));
    try_read_by(&rt, &mut locks, TxnId(15));
    try_read_by(&rt, &mut locks, TxnId(11));
    try_read_by(&rt, &mut locks, TxnId(13));
    assert!(rt; locks.may_write(TxnId(11), A) == Some(TxnId(12)));
    release(&mut locks, TxnId(12));
    assert!(rt; locks.may_write(TxnId(11), A) == Some(TxnId(13)));
}

/// Returns one read by the query with this number.
fn once(query: u32) -> QueryReads {
    QueryReads {
        query: TxnId(query),
        count: 1,
    }
}

/// A row holds seven queries without an allocation; no clause can state that the eighth gets one.
#[test]
fn more_queries_than_a_row_holds_are_in_order(rt: HostRuntime) {
    let mut locks = table(&rt, rt.alloc());
    locks.try_add_read_query(TxnId(5), B).expect(&rt, "memory");
    locks.try_add_read_query(TxnId(2), B).expect(&rt, "memory");
    locks.try_add_read_query(TxnId(4), B).expect(&rt, "memory");
    locks.try_add_read_query(TxnId(8), B).expect(&rt, "memory");
    locks.try_add_read_query(TxnId(1), B).expect(&rt, "memory");
    locks.try_add_read_query(TxnId(3), B).expect(&rt, "memory");
    locks.try_add_read_query(TxnId(7), B).expect(&rt, "memory");
    locks.try_add_read_query(TxnId(6), B).expect(&rt, "memory");
    locks.release(TxnId(2));
    assert!(rt;
        locks.query_reads(B)
            == [
                once(1),
                once(3),
                once(4),
                once(5),
                once(6),
                once(7),
                once(8)
            ]
            .as_slice()
    );
}
