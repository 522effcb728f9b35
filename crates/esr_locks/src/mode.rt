//! Defines the modes of locks on items, and their compatibility:
//!
//! | held by another | requested: `Read` | `Write` | `QueryRead` |
//! |---|---|---|---|
//! | `Read` | granted | blocked | granted |
//! | `Write` | blocked | blocked | granted |
//! | `QueryRead` | granted | granted | granted |
//!
//! The first two are the modes of two-phase locking. A query's read conflicts with nothing: its distance from a
//! concurrent write is charged instead, to the query's import and to the update's export. So a row records queries for
//! their charges, and only updates conflict.
ghost use Rattle.std.specs.Prelude.{◌≡◌};
ghost use Rattle.esr_locks.specs.Modes.{conflicts};

/// How a transaction locks an item: an update by reading and by writing, a query by reading.
#[derive(Clone, Copy)]
pub enum Mode {
    Read,
    Write,
    QueryRead,
}

/// Returns whether a held lock of one mode conflicts with a request of another transaction for the other mode.
#[inline(always)]
pub fn conflicts(by_transaction: Mode, asked: Mode) -> bool
    ensures { result ≡ conflicts by_transaction asked }
{
    match (by_transaction, asked) {
        (Mode::Read, Mode::Write) => true,
        (Mode::Write, Mode::Read | Mode::Write) => true,
        _ => false,
    }
}
