//! Receipts of executed calls, and reasons why they mismatch a history.
ghost use Rattle.std.specs.Prelude.{◌≡◌};
ghost use Rattle.esr_session.specs.Receipts.{is_block, is_blocked};

use esr_history::{Event, Refusal, Reply};
use thiserror::Error;

/// The proof of an executed event: the index of its entry in the history (counted from 0), the event and the reply.
#[derive(Clone, Copy, Debug, PartialEq, Eq)]
pub struct Receipt {
    pub at: u64,
    pub event: Event,
    pub reply: Reply,
}

/// Why an engine was not closed, or why receipts do not match a history.
#[derive(Clone, Copy, Debug, PartialEq, Eq, Error)]
pub enum CloseError {
    /// There are fewer receipts than the history has entries.
    #[error("{gathered} of {total} receipts were gathered")]
    SessionMissing { gathered: u64, total: u64 },
    /// The first receipt, list by list, that names no entry of the history, or has another event or reply than the
    /// entry, or an index that an earlier receipt has or that is not above the previous one in its list.
    #[error("a receipt is not of this history")]
    ForeignReceipt(Receipt),
    /// An allocation failed.
    #[error("out of memory")]
    NoMemory,
}

/// Returns whether the refusal blocks the event, so that a retry may have another reply.
fn is_block(why: Refusal) -> bool
    ensures { result ≡ is_block why }
{
    match why {
        Refusal::BlockedByLock(_) => true,
        Refusal::BlockedByImport(_) => true,
        Refusal::BlockedByExport(_) => true,
        _ => false,
    }
}

/// Returns whether the reply says that the event is blocked, by a lock or a limit.
pub fn is_blocked(reply: Reply) -> bool
    ensures { result ≡ is_blocked reply }
{
    match reply {
        Reply::Refused(why) => is_block(why),
        _ => false,
    }
}
