//! Readers and writers that fail.

ghost use Rattle.std.specs.Prelude.{◌≡◌, false};
ghost use Rattle.esr_base.specs.Watch.{failed};

use super::run_script;
use crate::tests::written::check_narrow;
use esr_history::Watched;
use esr_lint::NoObserver;
use esr_script::{NoGate, RunFault, audit};
use esr_test_devices::{Way, cut_after, is_cut, narrow_until};
use std::alloc::Global;
use std::io::{Read, Write};
use std::process::Abort;
use std::thread::Threads;

/// Lines, and the text of each.
static LINES: [(&str, &str); 6] = [
    ("item a 100\n", "item a 100\n"),
    ("begin u update 0\n", "begun u 1\n"),
    ("hello\n", "error 1 not a command\n"),
    ("write u a 105\n", "wrote u a 105\n"),
    ("read u a\n", "u a 105\n"),
    ("commit u\n", "committed u\n"),
];

const SCRIPT: &str = "item a 100\nbegin u update 0\nhello\nwrite u a 105\nread u a\ncommit u\n";

const TEXT: &str =
    "item a 100\nbegun u 1\nerror 1 not a command\nwrote u a 105\nu a 105\ncommitted u\n";

/// Returns the length of the output of the lines that are complete in the first `read` bytes of the script.
fn count_written(read: usize) -> usize {
    let mut end: usize = 0;
    let mut written: usize = 0;
    for (line, answer) in &LINES {
        end = end.saturating_add(line.len());
        if end <= read {
            written = written.saturating_add(answer.len());
        }
    }
    written
}

/// No clause states what is written if the reader does not specify its bytes: half a line could get a reply.
#[test]
fn each_read_fails_in_turn(rt: HostRuntime) {
    let alloc = rt.alloc();
    for left in 0..SCRIPT.len() + 1 {
        let mut reader = cut_after(SCRIPT, 1, left);
        let mut writer = Watched::new(Vec::new(alloc));
        let ended = run_script(alloc, &mut reader, &mut writer);
        assert!(rt; ended == Err(RunFault::Read) && reader.failed() && !writer.failed());
        let written = writer.inner().as_slice();
        assert!(rt; TEXT.as_bytes().starts_with(written) && written.len() == count_written(left));
    }
}

/// Returns whether the run ends well over a writer that fails at this call.
fn is_written(rt: &impl Abort, alloc: Global, left: usize, way: Way) -> bool {
    let mut reader = Watched::new(SCRIPT.as_bytes());
    let mut writer = narrow_until(alloc, 3, left, way);
    let ended = run_script(alloc, &mut reader, &mut writer);
    let written = ended == Ok(());
    assert!(rt; written || ended == Err(RunFault::Write));
    assert!(rt; !reader.failed());
    check_narrow(rt, &writer, written, TEXT);
    written
}

/// Of a writer that takes three bytes at a time no clause knows the text: a run that loses the rest would end well. The
/// 77 bytes of the text are 26 calls; the run flushes before each of its two reads, and at its end.
#[test]
fn each_write_fails_in_turn(rt: HostRuntime) {
    let alloc = rt.alloc();
    for left in 0..60 {
        let whole = left >= 29;
        assert!(rt; is_written(&rt, alloc, left, Way::Errs) == whole);
        assert!(rt; is_written(&rt, alloc, left, Way::TakesNone) == whole);
    }
}

/// The audit of the script.
const AUDIT: &str = "order u\ntotals import 0 export 0 entries 4\n";

/// Audits a script by two workers.
fn audit_by_two<T: Threads + Sync, R: Read, W: Write>(
    rt: &T,
    alloc: Global,
    reader: &mut Watched<R>,
    writer: &mut Watched<W>,
) -> Result<(), RunFault>
    requires reader { failed reader.old ≡ false }
    requires writer { failed writer.old ≡ false }
{
    audit(rt, alloc, reader, writer, 2, &NoGate, &mut NoObserver)
}

/// No clause states what is written if the reader does not specify its bytes: it could be the audit of half a script.
#[test]
fn each_read_of_an_audit_fails_in_turn(rt: HostRuntime) {
    let alloc = rt.alloc();
    for left in 0..SCRIPT.len() + 1 {
        let mut reader = cut_after(SCRIPT, 1, left);
        let mut writer = Watched::new(Vec::new(alloc));
        let ended = audit_by_two(&rt, alloc, &mut reader, &mut writer);
        assert!(rt; ended == Err(RunFault::Read));
        assert!(rt; is_cut(&reader, &writer));
    }
}

/// Returns whether the audit ends well over a writer that fails at this call.
fn audit_is_written<R: Abort + Threads + Sync>(
    rt: &R,
    alloc: Global,
    left: usize,
    way: Way,
) -> bool {
    let mut reader = Watched::new(SCRIPT.as_bytes());
    let mut writer = narrow_until(alloc, 3, left, way);
    let ended = audit_by_two(rt, alloc, &mut reader, &mut writer);
    let written = ended == Ok(());
    assert!(rt; written || ended == Err(RunFault::Write));
    assert!(rt; !reader.failed());
    check_narrow(rt, &writer, written, AUDIT);
    written
}

/// Of a writer that takes three bytes at a time no clause knows the text: an audit that loses the rest would end well.
/// The 43 bytes of the text are 15 calls, and a flush is the last.
#[test]
fn each_write_of_an_audit_fails_in_turn(rt: HostRuntime) {
    let alloc = rt.alloc();
    for left in 0..30 {
        let whole = left >= 16;
        assert!(rt; audit_is_written(&rt, alloc, left, Way::Errs) == whole);
        assert!(rt; audit_is_written(&rt, alloc, left, Way::TakesNone) == whole);
    }
}
