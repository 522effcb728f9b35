//! Drive files with their texts. A drive's text is proved to be one of many, and a drive may always report a full
//! history, receipts that do not match, or out of memory: only a test can show that it succeeds.

ghost use Rattle.std.specs.Prelude.{◌≡◌, ◌≤◌, false};
ghost use Rattle.esr_base.specs.Watch.{failed};

mod failing;

use crate::tests::written::check_written;
use esr_drive::{DriveFault, DriveOutput, NoGate, drive};
use esr_history::Watched;
use esr_lint::NoObserver;
use std::alloc::Global;
use std::io::{Read, Write};
use std::sync::Wait;
use std::thread::Threads;

/// A drive file, the end of its drive, and the output.
struct Row {
    name: &'static str,
    file: &'static str,
    ended: Result<(), DriveFault>,
    text: &'static str,
}

fn table() -> &'static [Row] {
    &ROWS
}

static ROWS: [Row; 30] = [
    Row {
        name: "one block",
        file: "item a 0\n\
            session\n\
            begin u update 0\n\
            write u a 5\n\
            commit u\n\
            begin q query 0\n\
            read q a\n\
            commit q\n",
        ended: Ok(()),
        text: "item a 0\nsession 0\nbegun u 1\nwrote u a 5\ncommitted u\nbegun q 2\nq a 5\ncommitted q\n\
            audit q distance 0 import 0 before u\ntotals import 0 export 0 entries 6\n",
    },
    Row {
        name: "a block that reads a name that begins in no block, and an item that is not declared",
        file: "item a -7\n\n\
            # a note\n\
            session\n\
            read t a\n\
            begin t update 0\n\
            read t b\n\
            read t a\n\
            abort t\n\
            session\n",
        ended: Ok(()),
        text: "item a -7\nsession 0\nrefused 1 no such transaction\nbegun t 1\nrefused 3 no such item\nt a -7\naborted t\n\
            session 1\ntotals import 0 export 0 entries 5\n",
    },
    Row {
        name: "a query that waits for an update of its own block",
        file: "item a 0\n\
            session\n\
            begin u update 9\n\
            begin q query 4\n\
            write u a 5\n\
            read q a\n\
            commit u\n\
            read q a\n\
            commit q",
        ended: Ok(()),
        text: "item a 0\nsession 0\nbegun u 1\nbegun q 2\nwrote u a 5\nblocked 10 import q\ncommitted u\nq a 5\ncommitted q\n\
            audit q distance 0 import 0 before u\ntotals import 0 export 0 entries 106\n",
    },
    Row {
        name: "no line",
        file: "",
        ended: Ok(()),
        text: "totals import 0 export 0 entries 0\n",
    },
    Row {
        name: "items alone",
        file: "item a 1\nitem b -2",
        ended: Ok(()),
        text: "item a 1\nitem b -2\ntotals import 0 export 0 entries 0\n",
    },
    Row {
        name: "items with a weight and without one",
        file: "item a 100 weight 3\nitem b 7\nsession\nbegin u update 99\nbegin q query 21\nwrite u a 93\nread q a\n\
            commit u\ncommit q\n",
        ended: Ok(()),
        text: "item a 100 weight 3\nitem b 7\nsession 0\nbegun u 1\nbegun q 2\nwrote u a 93\nq a 93\ncommitted u\n\
            committed q\naudit q distance 0 import 21 before u\ntotals import 21 export 21 entries 6\n",
    },
    Row {
        name: "a read that the weight makes too dear",
        file: "item a 100 weight 3\n\
            session\n\
            begin u update 99\n\
            begin q query 20\n\
            write u a 93\n\
            read q a\n\
            abort u\n",
        ended: Ok(()),
        text: "item a 100 weight 3\nsession 0\nbegun u 1\nbegun q 2\nwrote u a 93\nblocked 10 import q\naborted u\n\
            totals import 0 export 0 entries 104\n",
    },
    Row {
        name: "an update that is aborted, of an item with a weight",
        file: "item a 100 weight 3\n\
            session\n\
            begin u update 99\n\
            begin q query 21\n\
            write u a 93\n\
            read q a\n\
            abort u\n\
            commit q\n",
        ended: Ok(()),
        text: "item a 100 weight 3\nsession 0\nbegun u 1\nbegun q 2\nwrote u a 93\nq a 93\naborted u\ncommitted q\n\
            audit q distance 21 import 21 before -\ntotals import 21 export 21 entries 6\n",
    },
    Row {
        name: "the smallest and the largest weight",
        file: "item a 0 weight 1\nitem b 0 weight 1000",
        ended: Ok(()),
        text: "item a 0 weight 1\nitem b 0 weight 1000\ntotals import 0 export 0 entries 0\n",
    },
    Row {
        name: "a weight of 0",
        file: "item a 0\nitem b 0 weight 0\n",
        ended: Err(DriveFault::BadScript { line: 2, error: 8 }),
        text: "",
    },
    Row {
        name: "a weight that is too large",
        file: "item a 0 weight 1001\n",
        ended: Err(DriveFault::BadScript { line: 1, error: 8 }),
        text: "",
    },
    Row {
        name: "a value and a weight out of range",
        file: "item a 1000000000001 weight 0\n",
        ended: Err(DriveFault::BadScript { line: 1, error: 4 }),
        text: "",
    },
    Row {
        name: "a name in use, with a weight out of range",
        file: "item a 0\nitem a 0 weight 0\n",
        ended: Err(DriveFault::BadScript { line: 2, error: 3 }),
        text: "",
    },
    Row {
        name: "an item with a weight out of range after the first session",
        file: "session\nitem a 0 weight 0\n",
        ended: Err(DriveFault::BadScript { line: 2, error: 2 }),
        text: "",
    },
    Row {
        name: "a weight that is not spelled so",
        file: "item a 0 weight 01\n",
        ended: Err(DriveFault::BadScript { line: 1, error: 1 }),
        text: "",
    },
    Row {
        name: "a line of a block before the first session",
        file: "item a 0\nbegin u update 0\n",
        ended: Err(DriveFault::BadScript { line: 2, error: 1 }),
        text: "",
    },
    Row {
        name: "an item after the first session",
        file: "session\nitem a 0\n",
        ended: Err(DriveFault::BadScript { line: 2, error: 2 }),
        text: "",
    },
    Row {
        name: "a transaction's name in two begins",
        file: "session\nbegin u update 0\nsession\nbegin u query 0\n",
        ended: Err(DriveFault::BadScript { line: 4, error: 3 }),
        text: "",
    },
    Row {
        name: "a session too many",
        file: "session\nsession\nsession\nsession\nsession\nsession\nsession\nsession\nsession\nsession\nsession\nsession\n\
            session\nsession\nsession\nsession\nsession\nsession\nsession\nsession\nsession\nsession\nsession\nsession\n\
            session\nsession\nsession\nsession\nsession\nsession\nsession\nsession\nsession\nsession\nsession\nsession\n\
            session\nsession\nsession\nsession\nsession\nsession\nsession\nsession\nsession\nsession\nsession\nsession\n\
            session\nsession\nsession\nsession\nsession\nsession\nsession\nsession\nsession\nsession\nsession\nsession\n\
            session\nsession\nsession\nsession\nsession\n",
        ended: Err(DriveFault::BadScript { line: 65, error: 7 }),
        text: "",
    },
    Row {
        name: "an item's name declared twice",
        file: "item a 0\n\nitem a 0\n",
        ended: Err(DriveFault::BadScript { line: 3, error: 3 }),
        text: "",
    },
    Row {
        name: "a value out of range",
        file: "item a 1000000000000001\n",
        ended: Err(DriveFault::BadScript { line: 1, error: 4 }),
        text: "",
    },
    Row {
        name: "an audit in a block",
        file: "session\naudit q\n",
        ended: Err(DriveFault::BadScript { line: 2, error: 1 }),
        text: "",
    },
    Row {
        name: "the first of two lines at fault",
        file: "session\nhello\nitem a 0\n",
        ended: Err(DriveFault::BadScript { line: 2, error: 1 }),
        text: "",
    },
    Row {
        name: "one block with CRLF",
        file: "item a 0\r\nsession\r\nbegin u update 0\r\nwrite u a 5\r\ncommit u\r\n",
        ended: Err(DriveFault::BadScript { line: 1, error: 1 }),
        text: "",
    },
    Row {
        name: "a session with CRLF",
        file: "# a note\r\nsession\r\n",
        ended: Err(DriveFault::BadScript { line: 2, error: 1 }),
        text: "",
    },
    Row {
        name: "an item with CRLF after the first session",
        file: "session\nitem a 0\r\n",
        ended: Err(DriveFault::BadScript { line: 2, error: 1 }),
        text: "",
    },
    Row {
        name: "two begins of a name with CRLF",
        file: "session\nbegin u update 0\nsession\nbegin u query 0\r\n",
        ended: Err(DriveFault::BadScript { line: 4, error: 1 }),
        text: "",
    },
    Row {
        name: "an empty line with CRLF",
        file: "item a 0\n\r\n",
        ended: Err(DriveFault::BadScript { line: 2, error: 1 }),
        text: "",
    },
    Row {
        name: "a line of 201 bytes, after a line at fault",
        file: "hello\n#123456789012345678901234567890123456789012345678901234567890123456789012345678901234567890123456789\
            0123456789012345678901234567890123456789012345678901234567890123456789012345678901234567890123456789x\n",
        ended: Err(DriveFault::LineTooLong),
        text: "",
    },
    Row {
        name: "a line of 200 bytes",
        file: "#123456789012345678901234567890123456789012345678901234567890123456789012345678901234567890123456789\
            0123456789012345678901234567890123456789012345678901234567890123456789012345678901234567890123456789\n",
        ended: Ok(()),
        text: "totals import 0 export 0 entries 0\n",
    },
];

/// Runs a drive file, and audits its queries with `workers` threads.
fn drive_by<T: Threads + Wait + Sync, R: Read, W: Write>(
    rt: &T,
    alloc: Global,
    reader: &mut Watched<R>,
    writer: &mut Watched<W>,
    workers: u64,
) -> Result<(), DriveFault>
    requires reader { failed reader.old ≡ false }
    requires writer { failed writer.old ≡ false }
    requires workers { (1 ≤ workers) × (workers ≤ 64) }
{
    let form = DriveOutput::Text {
        audit_workers: workers,
    };
    drive(rt, alloc, reader, writer, form, &NoGate, &mut NoObserver)
}

/// The contract leaves the history open, so a drive could always report it as full; a single busy block permits only
/// one.
#[test]
fn files_have_their_texts(rt: HostRuntime) {
    for row in table() {
        let mut reader = Watched::new(row.file.as_bytes());
        let mut writer = Watched::new(Vec::new(rt.alloc()));
        let ended = drive_by(&rt, rt.alloc(), &mut reader, &mut writer, 1);
        assert!(rt; ended == row.ended, "{} ends so", row.name);
        check_written(&rt, &writer, row.text, row.name);
    }
}

const TWO_BLOCKS: &str = "item a 0\nsession\nbegin u update 0\nwrite u a 5\ncommit u\n\
    session\nbegin q query 100\ncommit q\nread u a\n";

/// The texts of the two blocks, by which of them begins first.
static TWO_TEXTS: [&str; 2] = [
    "item a 0\nsession 0\nbegun u 1\nwrote u a 5\ncommitted u\n\
        session 1\nbegun q 2\ncommitted q\nrefused 1 no such transaction\n\
        audit q distance 0 import 0 before -\ntotals import 0 export 0 entries 6\n",
    "item a 0\nsession 0\nbegun u 2\nwrote u a 5\ncommitted u\n\
        session 1\nbegun q 1\ncommitted q\nrefused 1 no such transaction\n\
        audit q distance 0 import 0 before -\ntotals import 0 export 0 entries 6\n",
];

/// No clause states which block begins first, or that a drive succeeds: exactly two texts are right here.
#[test]
fn two_blocks_begin_in_one_of_two_orders(rt: HostRuntime) {
    for workers in 1..4 {
        let mut reader = Watched::new(TWO_BLOCKS.as_bytes());
        let mut writer = Watched::new(Vec::new(rt.alloc()));
        let ended = drive_by(&rt, rt.alloc(), &mut reader, &mut writer, workers);
        assert!(rt; ended == Ok(()));
        let text = writer.inner().as_slice();
        assert!(rt; text == TWO_TEXTS[0].as_bytes() || text == TWO_TEXTS[1].as_bytes());
    }
}

/// Each fault, and how it is shown.
static SHOWN: [(DriveFault, &str); 8] = [
    (DriveFault::Read, "read failed"),
    (DriveFault::Write, "write failed"),
    (DriveFault::LineTooLong, "line too long"),
    (DriveFault::NoMemory, "out of memory"),
    (DriveFault::HistoryFull, "history full"),
    (DriveFault::TooManyLines, "too many lines"),
    (
        DriveFault::BadScript { line: 65, error: 7 },
        "line 65: error 7",
    ),
    (DriveFault::Close, "receipts do not match"),
];

/// No clause contains the texts of a fault: the line of a file and its error could be swapped in them.
#[test]
fn faults_show_their_texts(rt: HostRuntime) {
    for (fault, text) in &SHOWN {
        let shown = fault.to_string(rt.alloc()).expect(&rt, "memory");
        assert!(rt; shown.as_str() == *text);
    }
}
