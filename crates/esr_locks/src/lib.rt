//! The lock table: the locks that each transaction holds on each item.
//!
//! Updates follow rigorous two-phase locking: read locks are shared, write locks are exclusive, and a transaction
//! releases all its locks when it ends. The read locks of queries conflict with no lock of an update. The table stores
//! them because a write is charged to each active query that has read the item.
#![tactic(auto)]

mod ascending_list;
mod entry;
mod lists;
mod locked_items;
mod mode;
mod table;

pub use lists::QueryReads;
pub use table::LockTable;
