//! Calls back before each job. The program uses it to show progress, and a test to hold one worker until another has
//! arrived, since no contract can state that two threads run concurrently.

/// A callback before each job, with the job's number and the number of jobs. A call must return.
pub trait Gate {
    fn enter(&self, job: u64, jobs: u64);
}

/// A gate that is always open.
#[derive(Clone, Copy)]
pub struct NoGate;

impl Gate for NoGate {
    fn enter(&self, _job: u64, _jobs: u64) {}
}
