//! A progress indicator on standard error: the number of lines read, then the number of audits started, out of the total.
//!
//! It is a single line, rewritten in place. It appears after two seconds, is updated at most five times a second, and is erased
//! before anything else is printed. The clock is read at most once per 1,024 lines and once per audit, so that the cost is
//! negligible when no progress is shown. Workers report audits through a gate, because an observer belongs to the reading
//! thread alone. No clause specifies the text, and a failure to write it is not an error of the run.

use crate::console::Console;
use esr_lint::{ErrorReporter, LineOutcome, NotFound, Observer, TxnSummary};
use esr_script::Gate;
use std::fmt::Display;
use std::sync::atomic::{AtomicU64, Ordering};
use std::time::{Clock, Instant};

/// The milliseconds before the first display.
const PATIENCE: u64 = 2_000;

/// The minimum of milliseconds between two displays.
const PAUSE: u64 = 200;

/// The minimum number of lines between two readings of the clock.
const LINES: u64 = 1_024;

/// Shows the progress of a run.
#[derive(Drop)]
pub struct Meter<'a, R> {
    rt: &'a R,
    /// The start; `None` if nothing is shown.
    began: Option<Instant>,
    /// The time of the last display, in milliseconds; 0 before the first one, and after it was cleared.
    shown: AtomicU64,
}

impl<'a, R: Clock + Eprint> Meter<'a, R> {
    pub fn new(rt: &'a R, console: Console) -> Meter<'a, R> {
        let began = if console.progress {
            Instant::now(rt).ok()
        } else {
            None
        };
        Meter {
            rt,
            began,
            shown: AtomicU64::new(0),
        }
    }

    /// Shows a text if the interval has passed. Of two concurrent threads, one shows it.
    pub fn show(&self, text: &impl Display) {
        let Some(began) = self.began else {
            return;
        };
        let Ok(elapsed) = began.elapsed(self.rt) else {
            return;
        };
        let now = u64::try_from(elapsed.as_millis()).unwrap_or(u64::MAX);
        let shown = self.shown.load(Ordering::Relaxed);
        if now < PATIENCE || now < shown.saturating_add(PAUSE) {
            return;
        }
        let taken = self
            .shown
            .compare_exchange(shown, now, Ordering::Relaxed, Ordering::Relaxed);
        if taken.is_ok() {
            let _ = eprint!(self.rt; "\r{text}\x1b[K");
        }
    }

    /// Clears the display.
    pub fn clear(&self) {
        if self.shown.swap(0, Ordering::Relaxed) > 0 {
            let _ = eprint!(self.rt; "\r\x1b[K");
        }
    }
}

impl<R: Clock + Eprint> Gate for Meter<'_, R> {
    fn enter(&self, job: u64, jobs: u64) {
        let number = job.saturating_add(1);
        self.show(&format_args!("audit {number} of {jobs}"));
    }
}

/// Reports the lines with faults, and shows the number of lines read.
#[derive(Drop)]
pub struct LineObserver<'a, 'm, 'r, R, E> {
    reporter: ErrorReporter<'a, E>,
    meter: &'m Meter<'r, R>,
    hash_seed: u64,
    /// The number of completed lines, once the run has ended.
    lines: u64,
    /// The number of lines at the last reading of the clock.
    timed: u64,
}

impl<'a, 'm, 'r, R: Clock + Eprint, E: Eprint> LineObserver<'a, 'm, 'r, R, E> {
    pub fn new(
        reporter: ErrorReporter<'a, E>,
        meter: &'m Meter<'r, R>,
        hash_seed: u64,
    ) -> LineObserver<'a, 'm, 'r, R, E> {
        LineObserver {
            reporter,
            meter,
            hash_seed,
            lines: 0,
            timed: 0,
        }
    }

    /// Returns the number of lines with faults.
    pub fn faults(&self) -> u64 {
        self.reporter.faults()
    }

    /// Returns the number of the line after the last one completed, once the run has ended: if a line ended it, that line.
    pub fn next_line(&self) -> u64 {
        self.lines.saturating_add(1)
    }

    /// Returns why the name that was looked up was not found.
    pub fn refusal(&self) -> NotFound<'_> {
        self.reporter.refusal()
    }

    /// Reports the lines that were held, once the run has ended without a fault.
    pub fn release(&self) {
        self.reporter.release();
    }
}

impl<R: Clock + Eprint, E: Eprint> Observer for LineObserver<'_, '_, '_, R, E> {
    fn hash_seed(&self) -> u64 {
        self.hash_seed
    }

    #[cold]
    #[inline(never)]
    fn see_line(&mut self, number: u64, line: &[u8], outcome: LineOutcome) {
        if let LineOutcome::Error(_) = outcome {
            self.meter.clear();
            self.reporter.see_line(number, line, outcome);
        }
    }

    #[cold]
    #[inline(never)]
    fn see_progress(&mut self, lines: u64) {
        if lines.saturating_sub(self.timed) >= LINES {
            self.timed = lines;
            self.meter.show(&format_args!("line {lines}"));
        }
    }

    fn see_transaction(&mut self, name: &str, status: TxnSummary) {
        self.reporter.see_transaction(name, status);
    }

    fn see_end(&mut self, lines: u64) {
        self.lines = lines;
        self.meter.clear();
        self.reporter.see_end(lines);
    }
}
