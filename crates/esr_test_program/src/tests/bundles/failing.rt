//! Readers and writers that fail.

use super::rows::BACK_FLOW;
use crate::tests::written::check_narrow;
use esr_bundle::{JudgeFault, Verdict, judge};
use esr_history::Watched;
use esr_test_devices::{Way, cut_after, is_cut, narrow_until};
use std::alloc::Global;
use std::io;
use std::io::Read;
use std::process::Abort;

const LINE: &str = "valid 2\n";

/// Yields `left` zero bytes, which are not JSON.
#[derive(Drop)]
struct Zeros {
    left: usize,
}

impl Read for Zeros {
    fn read(&mut self, buf: &mut [u8]) -> io::Result<usize> {
        let count = buf.len().min(self.left);
        self.left -= count;
        Ok(count)
    }
}

/// No clause states what is written if the reader does not specify its bytes: it could be a verdict on half a bundle.
#[test]
fn each_read_fails_in_turn(rt: HostRuntime) {
    let alloc = rt.alloc();
    for left in 0..BACK_FLOW.len() + 1 {
        let mut reader = cut_after(BACK_FLOW, 1, left);
        let mut writer = Watched::new(Vec::new(alloc));
        let ended = judge(alloc, &mut reader, &mut writer);
        assert!(rt; ended == Err(JudgeFault::Read));
        assert!(rt; is_cut(&reader, &writer));
    }
}

/// Returns whether the verdict is written by a writer that fails at this call.
fn is_written(rt: &impl Abort, alloc: Global, left: usize) -> bool {
    let mut reader = Watched::new(BACK_FLOW.as_bytes());
    let mut writer = narrow_until(alloc, 3, left, Way::TakesNone);
    let ended = judge(alloc, &mut reader, &mut writer);
    let written = ended == Ok(Verdict::Valid(2));
    assert!(rt; written || ended == Err(JudgeFault::Write));
    assert!(rt; !reader.failed());
    check_narrow(rt, &writer, written, LINE);
    written
}

/// No clause counts the calls on a device: a verdict that is never flushed would end as well as this one.
#[test]
fn each_write_fails_in_turn(rt: HostRuntime) {
    // The line takes three writes and a flush.
    for left in 0..6 {
        assert!(rt; is_written(&rt, rt.alloc(), left) == (left >= 4));
    }
}

/// No clause bounds the bytes taken from a device that does not specify them: an endless one could fill the memory.
#[test]
fn too_many_bytes_are_not_judged(rt: HostRuntime) {
    let alloc = rt.alloc();
    let mut reader = Watched::new(Zeros { left: 64_000_001 });
    let mut writer = Watched::new(Vec::new(alloc));
    assert!(rt; judge(alloc, &mut reader, &mut writer) == Err(JudgeFault::TooLong));
    assert!(rt; writer.inner().is_empty());
    let mut reader = Watched::new(Zeros { left: 64_000_000 });
    assert!(rt; judge(alloc, &mut reader, &mut writer) == Ok(Verdict::Bad(1)));
}
