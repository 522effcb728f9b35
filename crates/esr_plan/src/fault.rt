//! The faults that end a drive without its whole text.

ghost use Rattle.std.specs.Prelude.{◌≡◌};
ghost use Rattle.esr_plan.specs.declared.fault.DriveFault.TheVariants.{NoMemory};

use esr_history::NoMemory;
use std::alloc::AllocError;
use thiserror::Error;

/// A fault that ends a drive without its whole text.
#[derive(Clone, Copy, Debug, PartialEq, Eq, Error)]
pub enum DriveFault {
    /// A read failed.
    #[error("read failed")]
    Read,
    /// A write or a flush failed, or a write of some bytes took none.
    #[error("write failed")]
    Write,
    /// A line has more bytes than a line of a script may have.
    #[error("line too long")]
    LineTooLong,
    /// An allocation failed.
    #[error("out of memory")]
    NoMemory,
    /// The history has as many entries as there may be, and a line makes one more event.
    #[error("history full")]
    HistoryFull,
    /// There are more lines than a script may have.
    #[error("too many lines")]
    TooManyLines,
    /// The first line with a fault, counted from 1, and the number of its error.
    #[error("line {line}: error {error}")]
    BadScript { line: u64, error: u32 },
    /// The receipts of the sessions do not match the history.
    #[error("receipts do not match")]
    Close,
}

impl From<AllocError> for DriveFault {
    ghost from_gives = { λ _ e. e ≡ NoMemory };

    fn from(_error: AllocError) -> DriveFault {
        DriveFault::NoMemory
    }
}

impl From<NoMemory> for DriveFault {
    ghost from_gives = { λ _ e. e ≡ NoMemory };

    fn from(_error: NoMemory) -> DriveFault {
        DriveFault::NoMemory
    }
}
