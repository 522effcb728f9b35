//! The reasons why a run ends before the end of its input, or a query is not shown.

use thiserror::Error;

/// The reasons why a run ends before the end of its input, or a query is not shown.
#[derive(Clone, Copy, Debug, PartialEq, Eq, Error)]
pub enum RunFault {
    /// A read failed.
    #[error("read failed")]
    Read,
    /// A write or a flush failed, or a write of some bytes took none.
    #[error("write failed")]
    Write,
    /// A line has more bytes than `MAX_LINE_BYTES`.
    #[error("line too long")]
    LineTooLong,
    /// An allocation failed.
    #[error("out of memory")]
    NoMemory,
    /// The history has `MAX_ENTRIES` entries, and a line makes one more event.
    #[error("history full")]
    HistoryFull,
    /// There are more lines than `MAX_LINES`.
    #[error("too many lines")]
    TooManyLines,
    /// No committed query has the name.
    #[error("not a committed query")]
    NotACommittedQuery,
}
