//! Keeps the line that it was shown last.

use crate::observer::{LineOutcome, Observer, TxnSummary};
use std::alloc::Global;

/// Keeps the line that it was shown last, for a caller that shows a single line.
#[derive(Drop)]
pub struct KeptLine {
    line: Vec<u8>,
    hash_seed: u64,
}

impl KeptLine {
    pub fn new(alloc: Global, hash_seed: u64) -> KeptLine {
        KeptLine {
            line: Vec::new(alloc),
            hash_seed,
        }
    }

    /// Returns the line: empty if none was shown, or its allocation failed.
    pub fn line(&self) -> &[u8] {
        &self.line
    }
}

impl Observer for KeptLine {
    fn hash_seed(&self) -> u64 {
        self.hash_seed
    }

    fn see_line(&mut self, _number: u64, line: &[u8], _outcome: LineOutcome) {
        self.line.clear();
        let _ = self.line.extend_from_slice(line);
    }

    fn see_transaction(&mut self, _name: &str, _status: TxnSummary) {}

    fn see_end(&mut self, _lines: u64) {}
}
