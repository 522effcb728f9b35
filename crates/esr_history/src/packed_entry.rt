//! Packs accepted and blocked events, with their replies, into 16 bytes.
//!
//! Numbers of existing transactions and items fit into 16 bits, and a reply adds one value or number to its event. The
//! log keeps any other entry whole. The only property that other code relies on is that `entry` inverts `of`: a body of
//! `of` that packed nothing would only cost memory.

ghost use Rattle.std.specs.Prelude.{◌≡◌, List, IfSome};
ghost use Rattle.esr_history.specs.declared.event.Entry.{Entry};
ghost use Rattle.esr_history.specs.declared.event.Event.TheVariants.{Read, Write};
ghost use Rattle.esr_history.specs.PackedEntry.{blocked, unpacked, item_id, txn_id, IsWithin};

use crate::event::{Entry, Event, Refusal, Reply};
use esr_base::{ItemId, TxnId};

/// The reason why a read or a write is blocked: the lock of an update, or a limit.
#[derive(Clone, Copy)]
pub enum BlockReason {
    Lock,
    Import,
    Export,
}

/// An entry in 16 bytes. Numbers of transactions and of items have 16 bits, which suffices for each transaction that
/// has begun and each declared item. An entry that does not fit is in a separate list, at `place`.
#[derive(Clone, Copy)]
pub enum PackedEntry {
    UpdateBegun {
        txn: u16,
        limit: u64,
    },
    QueryBegun {
        strict: bool,
        txn: u16,
        limit: u64,
    },
    WasRead {
        txn: u16,
        item: u16,
        value: i64,
    },
    WasWritten {
        txn: u16,
        item: u16,
        value: i64,
    },
    HasCommitted {
        txn: u16,
    },
    HasAborted {
        txn: u16,
    },
    ReadBlocked {
        reason: BlockReason,
        txn: u16,
        item: u16,
        other: u16,
    },
    WriteBlocked {
        reason: BlockReason,
        txn: u16,
        item: u16,
        other: u16,
        value: i64,
    },
    Long {
        place: u64,
    },
}

/// Converts a number to 16 bits, if it fits.
fn to_u16(number: u32) -> Option<u16>
    ensures { IfSome result (λ n. n ≡ number) }
{
    u16::try_from(number).ok()
}

/// Returns what blocks an event by its reply, if the reply says so, and the transaction whose lock or limit it is.
fn block_reason(reply: Reply) -> Option<(BlockReason, u16)>
    ensures { IfSome result (λ b. blocked b.0 b.1 ≡ reply) }
{
    let (reason, other) = match reply {
        Reply::Refused(Refusal::BlockedByLock(other)) => (BlockReason::Lock, other),
        Reply::Refused(Refusal::BlockedByImport(other)) => (BlockReason::Import, other),
        Reply::Refused(Refusal::BlockedByExport(other)) => (BlockReason::Export, other),
        _ => return None,
    };
    Some((reason, to_u16(other.0)?))
}

/// Returns the reply for a blocked event.
fn reply_of(reason: BlockReason, other: u16) -> Reply
    ensures { result ≡ blocked reason other }
{
    let other = TxnId(u32::from(other));
    Reply::Refused(match reason {
        BlockReason::Lock => Refusal::BlockedByLock(other),
        BlockReason::Import => Refusal::BlockedByImport(other),
        BlockReason::Export => Refusal::BlockedByExport(other),
    })
}

/// Packs a read with its reply, if they fit.
#[inline(always)]
fn packed_read(txn: TxnId, item: ItemId, reply: Reply) -> Option<PackedEntry>
    ensures { IfSome result (λ s. (long : List Entry)
        → (unpacked long s ≡ record { event = Read txn item; reply = reply }) × IsWithin long s) }
{
    let txn = to_u16(txn.0)?;
    let item = to_u16(item.0)?;
    if let Reply::Value(value) = reply {
        return Some(PackedEntry::WasRead { txn, item, value });
    }
    let (reason, other) = block_reason(reply)?;
    Some(PackedEntry::ReadBlocked {
        reason,
        txn,
        item,
        other,
    })
}

/// Packs a write with its reply, if they fit.
#[inline(always)]
fn packed_write(txn: TxnId, item: ItemId, value: i64, reply: Reply) -> Option<PackedEntry>
    ensures { IfSome result (λ s. (long : List Entry)
        → (unpacked long s ≡ record { event = Write txn item value; reply = reply }) × IsWithin long s) }
{
    let txn = to_u16(txn.0)?;
    let item = to_u16(item.0)?;
    if let Reply::Wrote = reply {
        return Some(PackedEntry::WasWritten { txn, item, value });
    }
    let (reason, other) = block_reason(reply)?;
    Some(PackedEntry::WriteBlocked {
        reason,
        txn,
        item,
        other,
        value,
    })
}

fn id(txn: u16) -> TxnId
    ensures { result ≡ txn_id txn }
{
    TxnId(u32::from(txn))
}

fn read(txn: u16, item: u16) -> Event
    ensures { result ≡ Read (txn_id txn) (item_id item) }
{
    Event::Read {
        txn: id(txn),
        item: ItemId(u32::from(item)),
    }
}

fn write(txn: u16, item: u16, value: i64) -> Event
    ensures { result ≡ Write (txn_id txn) (item_id item) value }
{
    Event::Write {
        txn: id(txn),
        item: ItemId(u32::from(item)),
        value,
    }
}

impl PackedEntry {
    /// Packs an entry, if it fits.
    #[inline(always)]
    pub fn of(entry: Entry) -> Option<PackedEntry>
        ensures { IfSome result (λ s. (long : List Entry) → (unpacked long s ≡ entry) × IsWithin long s) }
    {
        match (entry.event, entry.reply) {
            (Event::Read { txn, item }, reply) => packed_read(txn, item, reply),
            (Event::Write { txn, item, value }, reply) => packed_write(txn, item, value, reply),
            (Event::BeginUpdate { limit }, Reply::Begun(txn)) => Some(PackedEntry::UpdateBegun {
                txn: to_u16(txn.0)?,
                limit,
            }),
            (Event::BeginQuery { limit, strict }, Reply::Begun(txn)) => Some(
                PackedEntry::QueryBegun {
                    strict,
                    txn: to_u16(txn.0)?,
                    limit,
                },
            ),
            (Event::Commit { txn }, Reply::Committed) => Some(PackedEntry::HasCommitted {
                txn: to_u16(txn.0)?,
            }),
            (Event::Abort { txn }, Reply::Aborted) => Some(PackedEntry::HasAborted {
                txn: to_u16(txn.0)?,
            }),
            _ => None,
        }
    }

    /// Unpacks the entry, given the list of those that did not fit.
    pub fn entry(self, long: &[Entry]) -> Entry
        requires { IsWithin long.now self }
        ensures { result ≡ unpacked long.now self }
    {
        let (event, reply) = match self {
            PackedEntry::UpdateBegun { txn, limit } => (
                Event::BeginUpdate { limit },
                Reply::Begun(id(txn)),
            ),
            PackedEntry::QueryBegun { strict, txn, limit } => (
                Event::BeginQuery { limit, strict },
                Reply::Begun(id(txn)),
            ),
            PackedEntry::WasRead { txn, item, value } => (read(txn, item), Reply::Value(value)),
            PackedEntry::WasWritten { txn, item, value } => (write(txn, item, value), Reply::Wrote),
            PackedEntry::HasCommitted { txn } => (Event::Commit { txn: id(txn) }, Reply::Committed),
            PackedEntry::HasAborted { txn } => (Event::Abort { txn: id(txn) }, Reply::Aborted),
            PackedEntry::ReadBlocked {
                reason,
                txn,
                item,
                other,
            } => (read(txn, item), reply_of(reason, other)),
            PackedEntry::WriteBlocked {
                reason,
                txn,
                item,
                other,
                value,
            } => (write(txn, item, value), reply_of(reason, other)),
            PackedEntry::Long { place } => return long[place as usize],
        };
        Entry { event, reply }
    }
}
