//! One engine protected by a lock, and the sessions through which threads call it. Each call that receives a reply
//! appends one entry to a common history and leaves a receipt: the place, the event and the reply. Closing the engine
//! compares all receipts with the history.
//!
//! A step takes less than a microsecond, so finer locks would cost more than they save. A single lock makes the steps
//! of all threads one list.
#![tactic(auto)]

mod engine;
mod engine_name;
mod lock;
mod matcher;
mod receipt;
mod session;
mod source;

pub use engine::{CloseRefused, Closed, Engine};
pub use engine_name::{LEDGER_PARTS, MAX_SESSIONS, Naming};
pub use lock::{Locked, Pocket, step_on};
pub use matcher::{HasReceipts, match_receipts};
pub use receipt::{CloseError, Receipt, is_blocked};
pub use session::Session;
pub use source::EventSource;
