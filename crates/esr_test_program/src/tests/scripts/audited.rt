//! Whole scripts audited.

use crate::tests::written::check_written;
use esr_history::Watched;
use esr_lint::NoObserver;
use esr_script::{NoGate, RunFault, audit};
use std::alloc::Global;
use std::process::Abort;
use std::thread::Threads;

/// Scripts, and the audit of each.
static AUDITS: [(&str, &str); 7] = [
    // Nothing happened: no order, no query, and still two lines.
    ("", "order -\ntotals import 0 export 0 entries 0\n"),
    // Items alone make no history.
    (
        "item a 1\nitem b 2\n",
        "order -\ntotals import 0 export 0 entries 0\n",
    ),
    // An update without a concurrent query is in the order, and has no audit.
    (
        "item a 100\nbegin u update 0\nwrite u a 105\nread u a\ncommit u\n",
        "order u\ntotals import 0 export 0 entries 4\n",
    ),
    // The lines `audit` and `totals` of the script itself write nothing.
    (
        "item a 100\n\
            begin u update 50\n\
            begin q query 10\n\
            write u a 107\n\
            read q a\n\
            commit u\n\
            commit q\n\
            audit q\n\
            totals\n",
        "order u\naudit q distance 0 import 7 before u\ntotals import 7 export 7 entries 6\n",
    ),
    // The line `audit q`, while q is active, is an error and no entry.
    (
        "item a 0\n\
            item b 0\n\
            begin q query 100\n\
            begin u1 update 100\n\
            begin u2 update 100\n\
            read q a\n\
            write u1 a 10\n\
            audit q\n\
            commit u1\n\
            write u2 a 1\n\
            write u2 b 8\n\
            commit u2\n\
            read q b\n\
            commit q\n\
            audit q\n",
        "order u1,u2\n\
            audit q distance 1 import 19 before u1,u2\n\
            totals import 19 export 19 entries 11\n",
    ),
    // Audits are in the order of the commits of their queries, not of the begins.
    (
        "item a 0\n\
            item b 0\n\
            begin q query 100\n\
            begin u1 update 100\n\
            begin u2 update 100\n\
            read q a\n\
            write u1 a 10\n\
            commit u1\n\
            write u2 a 1\n\
            write u2 b 8\n\
            commit u2\n\
            read q b\n\
            begin r query 0\n\
            read r a\n\
            commit r\n\
            commit q",
        "order u1,u2\n\
            audit r distance 0 import 0 before u1,u2\n\
            audit q distance 1 import 19 before u1,u2\n\
            totals import 19 export 19 entries 14\n",
    ),
    // An aborted update is not in the order, and a query that is still active has no audit.
    (
        "item a 1\nbegin u update 0\nwrite u a 5\nabort u\nbegin q query 0\nread q a\nhello\n",
        "order -\ntotals import 0 export 0 entries 5\n",
    ),
];

/// Audits a script with `workers` threads, and compares the output.
fn audits<R: Abort + Threads + Sync>(
    rt: &R,
    alloc: Global,
    script: &str,
    workers: u64,
    ends: Result<(), RunFault>,
    output: &str,
) {
    let mut reader = Watched::new(script.as_bytes());
    let mut writer = Watched::new(Vec::new(alloc));
    if workers < 1 || workers > 64 {
        panic!(rt; "1 to 64 workers")
    }
    let ended = audit(
        rt,
        alloc,
        &mut reader,
        &mut writer,
        workers,
        &NoGate,
        &mut NoObserver,
    );
    assert!(rt; ended == ends, "the audit ends so");
    check_written(rt, &writer, output, script);
}

/// By its contract each audit may be out of memory: here 1, 4 and 64 workers write the one text made by hand.
#[test]
fn scripts_are_audited(rt: HostRuntime) {
    for (script, output) in &AUDITS {
        for workers in [1, 4, 64] {
            audits(&rt, rt.alloc(), script, workers, Ok(()), output);
        }
    }
}

/// An item, and a line of 201 bytes.
const TOO_LONG: &str =
    "item a 1\nxxxxxxxxxxxxxxxxxxxxxxxxxxxxxxxxxxxxxxxxxxxxxxxxxxxxxxxxxxxxxxxxxxxxxxxxxxxxxxxxxxxxxxxxxx\
    xxxxxxxxxxxxxxxxxxxxxxxxxxxxxxxxxxxxxxxxxxxxxxxxxxxxxxxxxxxxxxxxxxxxxxxxxxxxxxxxxxxxxxxxxxxxxxxxxxxxxxxxxxxxxxx";

/// The contract permits out of memory in place of each fault: a line of 201 bytes must end the audit by its own
/// fault.
#[test]
fn a_fault_leaves_nothing_written(rt: HostRuntime) {
    let ends = Err(RunFault::LineTooLong);
    audits(&rt, rt.alloc(), TOO_LONG, 2, ends, "");
}
