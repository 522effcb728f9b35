//! The reasons why lines were blocked, and the waits among transactions. The amounts and the cycles are proved; no
//! clause contains the texts.

use crate::tests::script_views::script_views;
use esr_script::RunFault;
use esr_why::Why;
use std::alloc::Global;
use std::process::Abort;

/// A lock of each mode, two that wait for each other, and a limit that is used up.
const CLOSING: &str = "item checking 500\n\
        item savings 1500\n\
        begin closer query 100\n\
        read closer checking\n\
        read closer savings\n\
        begin transfer update 1000\n\
        write transfer savings 1600\n\
        begin other update 1000\n\
        read other checking\n\
        write transfer checking 400\n\
        write other savings 1\n\
        abort other\n\
        write transfer savings 1700\n\
        commit closer\n\
        commit transfer\n";

const CLOSING_TOLD: &str = "\
line 10: write transfer checking 400: blocked by the read lock of other; other ended at line 12
line 11: write other savings 1: blocked by the write lock of transfer; transfer ended at line 15
deadlock: transfer waits for other at line 10, other waits for transfer at line 11
line 13: write transfer savings 1700: blocked by the import limit of closer: charge 100, remaining 0 of 100; a limit of 200 would suffice; closer ended at line 14
";

/// Lines that make no entry; a write that exceeds the limits of one query of two and of its update; a read that
/// exceeds the limits of both sides; three transactions in a cycle, closed by a second try, and a third try that
/// finds it closed.
const NIGHT: &str = "# a night\n\
        item a 0 weight 2\n\
        item b 0\n\
        begin rich query 1000\n\
        read rich a\n\
        begin poor query 5\n\
        read poor a\n\
        read poor a\n\
        begin up update 10\n\
        wirte up a 1\n\
        write up a 10\n\
        begin up update 10\n\
        write up b 20\n\
        read poor b\n\
        begin second update 0\n\
        write second a 0\n\
        begin third update 0\n\
        read third b\n\
        read third a\n\
        read second b\n\
        read up a\n\
        read up a\n\
        read third a\n";

const NIGHT_TOLD: &str = "\
line 11: write up a 10: blocked by the import limit of poor: charge 40, remaining 5 of 5; then by the export limit of up: charge 60, remaining 10 of 10; limits of 40 for poor and 60 for up would suffice; poor is still active; up is still active
line 14: read poor b: blocked by the import limit of poor: charge 20, remaining 5 of 5; then by the export limit of up: charge 20, remaining 10 of 10; limits of 20 for poor and 20 for up would suffice; poor is still active; up is still active
line 18: read third b: blocked by the write lock of up; up is still active
line 19: read third a: blocked by the write lock of second; second is still active
line 20: read second b: blocked by the write lock of up; up is still active
line 21: read up a: blocked by the write lock of second; second is still active
deadlock: second waits for up at line 20, up waits for second at line 21
line 22: read up a: blocked by the write lock of second; second is still active
line 23: read third a: blocked by the write lock of second; second is still active
";

/// Compares the text about a script with the expected one.
fn explains_as(rt: &impl Abort, alloc: Global, script: &str, name: Option<&str>, wanted: &str) {
    script_views(rt, alloc, script, &Why { name }, Ok(()), wanted);
}

/// Each kind of line, in the text of the guide.
#[test]
fn blocked_lines_and_cycles_are_described(rt: HostRuntime) {
    let alloc = rt.alloc();
    explains_as(&rt, alloc, CLOSING, None, CLOSING_TOLD);
    explains_as(&rt, alloc, NIGHT, None, NIGHT_TOLD);
    explains_as(
        &rt,
        alloc,
        "item a 0\nread b a\n",
        None,
        "no line was blocked\n",
    );
}

/// The lines of one transaction, and the cycles that it is in.
#[test]
fn one_transaction_is_described(rt: HostRuntime) {
    let alloc = rt.alloc();
    let other = "\
line 11: write other savings 1: blocked by the write lock of transfer; transfer ended at line 15
deadlock: transfer waits for other at line 10, other waits for transfer at line 11
";
    explains_as(&rt, alloc, CLOSING, Some("other"), other);
    let closer = "no line of closer was blocked\n";
    explains_as(&rt, alloc, CLOSING, Some("closer"), closer);
}

/// The contract permits out of memory in place of this refusal.
#[test]
fn unknown_transactions_are_refused(rt: HostRuntime) {
    let alloc = rt.alloc();
    let name = Some("savings");
    let refused = Err(RunFault::NotACommittedQuery);
    script_views(&rt, alloc, CLOSING, &Why { name }, refused, "");
}
