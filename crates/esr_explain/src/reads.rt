//! The reads of a query, compared with the values of its nearest placement.
ghost use Rattle.std.specs.Prelude.{◌≡◌, ◌++◌, ℕ, IfOk, OnOk, All, map, flat_map};
ghost use Rattle.esr_items.specs.Values.{value_at, IsValue};
ghost use Rattle.esr_items.specs.Weights.{weighted};
ghost use Rattle.esr_explain.specs.Explain.{compared_access, compared_read, compared_reads, named_read_line, read_line};

use crate::charges::name_of_item;
use esr_history::{History, TxnId};
use esr_items::{ItemId, Metric, Weighted};
use esr_order::{Access, accesses_of};
use esr_outcomes::Auditor;
use esr_report::{Names, push_line};
use std::alloc::{AllocError, Global};

/// A read of a query, with the value of the item at the nearest placement and the distance of the two values.
#[derive(Clone, Copy)]
pub struct ComparedRead {
    pub item: ItemId,
    pub value: i64,
    pub nearest_value: i64,
    pub distance: u64,
}

/// Returns the value of an item among the values of all.
fn value_of(values: &[i64], x: ItemId) -> i64
    ensures { result ≡ value_at values.now x.0 }
{
    values.get(x.0 as usize).copied().unwrap_or(0)
}

/// Compares a read with the value of its item at the nearest placement.
fn compared_read(metric: &Weighted, read: Access, nearest_value: i64) -> ComparedRead
    requires read { IsValue read.value }
    requires nearest_value { IsValue nearest_value }
    ensures { result ≡ compared_read (weighted metric.now) read.item read.value nearest_value }
{
    ComparedRead {
        item: read.item,
        value: read.value,
        nearest_value,
        distance: metric.distance(read.item, read.value, nearest_value),
    }
}

/// Compares the reads among these accesses with the values of the items.
fn compare_all(
    alloc: Global,
    metric: &Weighted,
    accesses: &[Access],
    values: &[i64],
) -> Result<Vec<ComparedRead>, AllocError>
    requires accesses { All (λ a. IsValue a.value) accesses.now }
    requires values { (x : ℕ) → IsValue (value_at values.now x) }
    ensures { IfOk result (λ v. v.items
        ≡ flat_map (compared_access (weighted metric.now) (value_at values.now)) accesses.now) }
{
    let mut reads = Vec::new(alloc);
    for access in accesses {
        if !access.writes {
            let nearest_value = value_of(values, access.item);
            reads.push(compared_read(metric, *access, nearest_value))?;
        }
    }
    Ok(reads)
}

/// Returns the reads of a query, compared with the values that these updates leave.
pub fn compared_reads(
    alloc: Global,
    history: &History<Weighted>,
    q: TxnId,
    before: &[TxnId],
) -> Result<Vec<ComparedRead>, AllocError>
    ensures { IfOk result (λ v. v.items
        ≡ compared_reads weighted history.now.schedule q.0 (map (λ t. t.0) before.now)) }
{
    let _invariant = history.log(); // brings the invariant into the proof
    let auditor = Auditor::of(alloc, history)?;
    let values = auditor.values_after(alloc, before)?;
    let accesses = accesses_of(alloc, history, q)?;
    compare_all(alloc, history.metric(), &accesses, &values)
}

/// Appends the line of a read, with this text for the item.
fn named_read_line(out: &mut Vec<u8>, item: &str, read: ComparedRead) -> Result<(), AllocError>
    ensures { OnOk result (out.new.items ≡ out.old.items ++ named_read_line item.now read) }
{
    let mut value = itoa::Buffer::new();
    let mut nearest_value = itoa::Buffer::new();
    let mut distance = itoa::Buffer::new();
    push_line(
        out,
        "read",
        &[
            item,
            value.format(read.value),
            "nearest",
            nearest_value.format(read.nearest_value),
            "off",
            distance.format(read.distance),
        ],
    )
}

/// Appends the line of a read.
fn read_line(out: &mut Vec<u8>, items: &Names, read: ComparedRead) -> Result<(), AllocError>
    ensures { OnOk result (out.new.items ≡ out.old.items ++ read_line items.now read) }
{
    named_read_line(out, name_of_item(items, read.item), read)
}

/// Appends the lines of some reads.
pub fn push_reads(
    out: &mut Vec<u8>,
    items: &Names,
    reads: &[ComparedRead],
) -> Result<(), AllocError>
    ensures { OnOk result (out.new.items ≡ out.old.items ++ flat_map (read_line items.now) reads.now) }
{
    for read in reads {
        read_line(out, items, *read)?;
    }
    Ok(())
}
