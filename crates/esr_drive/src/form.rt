//! The output of a drive.

/// The output of a drive.
#[derive(Clone, Copy)]
pub enum DriveOutput {
    /// The items, the replies of each block, the findings of each query, audited with `audit_workers` threads, and
    /// the totals.
    Text { audit_workers: u64 },
    /// The history, as a script that recreates it.
    Script,
}
