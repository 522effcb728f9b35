//! A barrier: a gate that holds job 0 until job 1 has entered too.

use esr_board::Gate;
use std::process::Abort;
use std::sync::atomic::Ordering::SeqCst;
use std::sync::atomic::{AtomicBool, AtomicU64};

const MAX_TURNS: u32 = 100_000_000;

/// Holds job 0 until job 1 has entered, for at most [`MAX_TURNS`] polls, and counts the entries of each job.
#[derive(Drop)]
pub struct Barrier {
    first: AtomicU64,
    second: AtomicU64,
    gave_up: AtomicBool,
}

impl Gate for Barrier {
    fn enter(&self, job: u64, _jobs: u64) {
        if job == 1 {
            self.second.fetch_add(1, SeqCst);
            return;
        }
        self.first.fetch_add(1, SeqCst);
        for _ in 0..MAX_TURNS {
            if self.second.load(SeqCst) > 0 {
                return;
            }
        }
        self.gave_up.store(true, SeqCst);
    }
}

impl Barrier {
    pub fn new() -> Barrier {
        Barrier {
            first: AtomicU64::new(0),
            second: AtomicU64::new(0),
            gave_up: AtomicBool::new(false),
        }
    }

    /// Checks that each job entered once, and that job 0 was held until job 1 had entered.
    pub fn assert_both_entered(&self, rt: &impl Abort) {
        assert!(rt; !self.gave_up.load(SeqCst), "job 0 gave up");
        assert!(rt;
            self.first.load(SeqCst) == 1 && self.second.load(SeqCst) == 1,
            "each job enters once"
        );
    }
}
