//! The titles of updates and arrows, which are shown when a pointer is over them: the values that an update wrote, and the
//! operations because of which one update precedes another.

use esr_history::{History, TxnId};
use esr_items::{ItemId, Weighted};
use esr_order::{Access, accesses_of};
use esr_report::name_of_transaction;
use esr_text::push_value;
use esr_trace::Audited;
use std::alloc::{AllocError, Global};

/// The maximum number of writes in a title.
const MAX_WRITES: usize = 4;

/// Returns the name of an item.
fn item_name<'a>(audited: &Audited<'a>, item: ItemId) -> &'a str {
    audited.items.name_of(item.0).unwrap_or("")
}

/// Returns the index of the write of an item among some writes.
fn place_of(writes: &[Access], item: ItemId) -> Option<usize> {
    writes.iter().position(|write| write.item == item)
}

/// Returns the last writes of the first items that an update wrote, one more than are shown if there are more.
fn writes_of(
    alloc: Global,
    history: &History<Weighted>,
    update: TxnId,
) -> Result<Vec<Access>, AllocError> {
    let mut writes: Vec<Access> = Vec::new(alloc);
    for access in &accesses_of(alloc, history, update)? {
        if access.writes {
            note_write(&mut writes, *access)?;
        }
    }
    Ok(writes)
}

/// Notes a write: its value replaces that of an earlier one of the item.
fn note_write(writes: &mut Vec<Access>, access: Access) -> Result<(), AllocError> {
    if let Some(place) = place_of(writes, access.item)
        && let Some(write) = writes.get_mut(place)
    {
        write.value = access.value;
        return Ok(());
    }
    if writes.len() <= MAX_WRITES {
        writes.push(access)?;
    }
    Ok(())
}

/// Appends the writes of an update.
fn push_writes(
    out: &mut String,
    audited: &Audited<'_>,
    writes: &[Access],
) -> Result<(), AllocError> {
    let mut joint = " ";
    let mut count = 0usize;
    for write in writes {
        if count == MAX_WRITES {
            return out.push_str(" and more");
        }
        out.push_str(joint)?;
        out.push_str(item_name(audited, write.item))?;
        out.push(' ')?;
        push_value(out, write.value)?;
        joint = ", ";
        count = count.saturating_add(1);
    }
    Ok(())
}

/// Appends the title of an update with these writes, which is before or after the line.
fn push_update(
    out: &mut String,
    audited: &Audited<'_>,
    update: TxnId,
    writes: &[Access],
    is_before: bool,
) -> Result<(), AllocError> {
    out.push_str(name_of_transaction(audited.transactions, update))?;
    out.push_str(" wrote")?;
    push_writes(out, audited, writes)?;
    out.push_str(if is_before {
        "; it is before the line"
    } else {
        "; it is after the line"
    })
}

/// Returns the title of an update, which is before or after the line.
pub fn update_title(
    alloc: Global,
    audited: &Audited<'_>,
    update: TxnId,
    is_before: bool,
) -> Result<String, AllocError> {
    let writes = writes_of(alloc, audited.history, update)?;
    let mut title = String::new(alloc);
    push_update(&mut title, audited, update, &writes, is_before)?;
    Ok(title)
}

/// Whether a transaction read or wrote an item.
#[derive(Clone, Copy, PartialEq, Eq)]
struct Touch {
    reads: bool,
    writes: bool,
}

/// Why one update precedes another: what both did to an item.
#[derive(Clone, Copy, PartialEq, Eq)]
enum Conflict {
    WroteThenRead,
    WroteTwice,
    ReadThenWrote,
}

/// Returns what a transaction did to each item.
fn touches_of(
    alloc: Global,
    history: &History<Weighted>,
    update: TxnId,
) -> Result<Vec<Touch>, AllocError> {
    let untouched = Touch {
        reads: false,
        writes: false,
    };
    let mut touches = vec![in alloc; untouched; history.items() as usize]?;
    for access in &accesses_of(alloc, history, update)? {
        if let Some(touch) = touches.get_mut(access.item.0 as usize) {
            touch.writes = touch.writes || access.writes;
            touch.reads = touch.reads || !access.writes;
        }
    }
    Ok(touches)
}

/// Returns the conflict of an access with the earlier accesses of another transaction to the item, if there is one.
fn conflict_of(earlier: Touch, access: Access) -> Option<Conflict> {
    match (earlier.writes, access.writes) {
        (true, false) => Some(Conflict::WroteThenRead),
        (true, true) => Some(Conflict::WroteTwice),
        (false, true) if earlier.reads => Some(Conflict::ReadThenWrote),
        _ => None,
    }
}

/// Returns the conflict that is to be shown: the first read of a written value, or the first of another kind.
fn shown_conflict(touches: &[Touch], accesses: &[Access]) -> Option<(ItemId, Conflict)> {
    let mut found = None;
    for access in accesses {
        let Some(touch) = touches.get(access.item.0 as usize) else {
            continue;
        };
        let Some(conflict) = conflict_of(*touch, *access) else {
            continue;
        };
        if conflict == Conflict::WroteThenRead {
            return Some((access.item, conflict));
        }
        if found.is_none() {
            found = Some((access.item, conflict));
        }
    }
    found
}

/// Appends the operations of two updates that conflict.
fn push_conflict(
    out: &mut String,
    first: &str,
    second: &str,
    item: &str,
    conflict: Conflict,
) -> Result<(), AllocError> {
    match conflict {
        Conflict::WroteThenRead => write!(out, "{first} wrote {item}, {second} read it"),
        Conflict::WroteTwice => write!(out, "{first} wrote {item}, {second} wrote it after that"),
        Conflict::ReadThenWrote => write!(out, "{first} read {item}, {second} wrote it after that"),
    }
}

/// Returns the conflict of two updates that is to be shown.
fn conflict_between(
    alloc: Global,
    history: &History<Weighted>,
    from: TxnId,
    to: TxnId,
) -> Result<Option<(ItemId, Conflict)>, AllocError> {
    let touches = touches_of(alloc, history, from)?;
    let accesses = accesses_of(alloc, history, to)?;
    Ok(shown_conflict(&touches, &accesses))
}

/// Appends the reason why one update precedes another.
fn push_reason(
    out: &mut String,
    audited: &Audited<'_>,
    first: &str,
    second: &str,
    conflict: Option<(ItemId, Conflict)>,
) -> Result<(), AllocError> {
    match conflict {
        Some((item, conflict)) => {
            push_conflict(out, first, second, item_name(audited, item), conflict)
        }
        None => write!(
            out,
            "{first} precedes {second} because of updates between them that are not drawn"
        ),
    }
}

/// Returns the title of the arrow from one update to another.
pub fn arrow_title(
    alloc: Global,
    audited: &Audited<'_>,
    from: TxnId,
    to: TxnId,
) -> Result<String, AllocError> {
    let conflict = conflict_between(alloc, audited.history, from, to)?;
    let first = name_of_transaction(audited.transactions, from);
    let second = name_of_transaction(audited.transactions, to);
    let mut title = String::new(alloc);
    push_reason(&mut title, audited, first, second, conflict)?;
    Ok(title)
}
