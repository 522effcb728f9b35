//! Scripts that are made, since they are too long to write down.

use super::{answers, run_script};
use esr_history::Watched;
use esr_script::RunFault;
use std::alloc::{AllocError, Global};
use std::process::Abort;

/// A head, a line repeated `count` times, and a tail.
#[derive(Clone, Copy)]
struct Long {
    head: &'static str,
    line: &'static str,
    count: usize,
    tail: &'static str,
}

/// A script, its result, and its output.
struct Row {
    name: &'static str,
    script: Long,
    ended: Result<(), RunFault>,
    text: Long,
}

const NONE: Long = Long {
    head: "",
    line: "",
    count: 0,
    tail: "",
};

const EMPTY_LINES: Long = Long {
    line: "\n",
    count: 1_999_999,
    ..NONE
};

static ROWS: [Row; 7] = [
    Row {
        name: "a line of two hundred bytes",
        script: Long {
            head: "item a 100\n#",
            line: "x",
            count: 199,
            tail: "",
        },
        ended: Ok(()),
        text: Long {
            head: "item a 100\n",
            ..NONE
        },
    },
    Row {
        name: "a line of two hundred bytes and one",
        script: Long {
            head: "item a 100\n#",
            line: "x",
            count: 200,
            tail: "\nbegin u update 0\n",
        },
        ended: Err(RunFault::LineTooLong),
        text: Long {
            head: "item a 100\n",
            ..NONE
        },
    },
    Row {
        name: "two million lines, of which the last has no line feed",
        script: Long {
            tail: "item a 1",
            ..EMPTY_LINES
        },
        ended: Ok(()),
        text: Long {
            tail: "item a 1\n",
            ..NONE
        },
    },
    Row {
        name: "two million lines",
        script: Long {
            tail: "item a 1\n",
            ..EMPTY_LINES
        },
        ended: Ok(()),
        text: Long {
            tail: "item a 1\n",
            ..NONE
        },
    },
    Row {
        name: "two million lines and one",
        script: Long {
            tail: "item a 1\n\n",
            ..EMPTY_LINES
        },
        ended: Err(RunFault::TooManyLines),
        text: Long {
            tail: "item a 1\n",
            ..NONE
        },
    },
    Row {
        name: "an event after a million",
        script: Long {
            head: "",
            line: "commit u\n",
            count: 999_999,
            tail: "begin u update 0\nhello\nitem a 1\nbegin u update 0\ncommit u\nhello\n",
        },
        ended: Err(RunFault::HistoryFull),
        text: Long {
            head: "",
            line: "refused 1 no such transaction\n",
            count: 999_999,
            tail: "begun u 1\nerror 1 not a command\nerror 2 items are closed\nerror 3 name in use\n",
        },
    },
    Row {
        name: "a read after a thousand",
        script: Long {
            head: "item a 0\nbegin q query 0\n",
            line: "read q a\n",
            count: 1001,
            tail: "totals\n",
        },
        ended: Ok(()),
        text: Long {
            head: "item a 0\nbegun q 1\n",
            line: "q a 0\n",
            count: 1000,
            tail: "refused 8 too many reads\ntotals import 0 export 0 entries 1002\n",
        },
    },
];

fn written_out(alloc: Global, long: Long) -> Result<String, AllocError> {
    let mut text = String::from_str(alloc, long.head)?;
    for _ in 0..long.count {
        text.push_str(long.line)?;
    }
    text.push_str(long.tail)?;
    Ok(text)
}

/// Runs the scripts, and compares their output with the texts.
fn have_texts(rt: &impl Abort, alloc: Global, rows: &[Row]) {
    for row in rows {
        let script = written_out(alloc, row.script).expect(rt, "memory");
        let text = written_out(alloc, row.text).expect(rt, "memory");
        answers(
            rt,
            alloc,
            row.name,
            script.as_bytes(),
            row.ended,
            text.as_str(),
        );
    }
}

/// The bound is a number in a definition, which no clause compares with the formats: with 199 there it would be proved.
#[test]
fn a_line_has_at_most_two_hundred_bytes(rt: HostRuntime) {
    have_texts(&rt, rt.alloc(), &ROWS[..2]);
}

/// A definition specifies lines: one that counts an empty line after the last line feed would be proved.
#[test]
fn there_are_at_most_two_million_lines(rt: HostRuntime) {
    have_texts(&rt, rt.alloc(), &ROWS[2..5]);
}

/// No clause can state that memory suffices for a million entries: a run could fail before its history is full.
#[test]
fn a_full_history_ends_at_the_next_event(rt: HostRuntime) {
    have_texts(&rt, rt.alloc(), &ROWS[5..6]);
}

/// The bound is a number in a definition, which no clause compares with the formats: with 999 there it would be proved.
#[test]
fn a_query_reads_at_most_a_thousand_times(rt: HostRuntime) {
    have_texts(&rt, rt.alloc(), &ROWS[6..]);
}

/// A definition specifies the reply to a line that is not text: a run that ends there would be proved as well.
#[test]
fn bytes_that_are_no_text(rt: HostRuntime) {
    let script = b"item \xff 1\n\xc3\nitem a \x80\nitem a 1";
    let text = "error 1 not a command\nerror 1 not a command\nerror 1 not a command\nitem a 1\n";
    answers(
        &rt,
        rt.alloc(),
        "bytes that are no text",
        script.as_slice(),
        Ok(()),
        text,
    );
}

/// Returns a line for each of the first `count` numbers, and then others.
fn number_lines(
    alloc: Global,
    before: &str,
    after: &str,
    count: u32,
    others: &str,
) -> Result<String, AllocError> {
    let mut script = String::new(alloc);
    for i in 0..count {
        write!(script, "{before}{i}{after}")?;
    }
    script.push_str(others)?;
    Ok(script)
}

/// Runs a script to its end, and compares the end of the output.
fn ends_with(rt: &impl Abort, alloc: Global, script: &str, last: &str) {
    let mut reader = Watched::new(script.as_bytes());
    let mut writer = Watched::new(Vec::new(alloc));
    let ended = run_script(alloc, &mut reader, &mut writer);
    assert!(rt; ended == Ok(()));
    assert!(rt; writer.inner().as_slice().ends_with(last.as_bytes()));
}

/// No clause can state that memory suffices for 4,096 items: a run that always fails before the bound would be
/// proved.
#[test]
fn at_most_4096_items_are_declared(rt: HostRuntime) {
    let others = "begin u update 0\nread u x4095\nread u x4096\n";
    let script = number_lines(rt.alloc(), "item x", " 0\n", 4097, others).expect(&rt, "memory");
    let last =
        "item x4095 0\nerror 5 too many items\nbegun u 1\nu x4095 0\nrefused 3 no such item\n";
    ends_with(&rt, rt.alloc(), script.as_str(), last);
}

/// No clause can state that memory suffices for 65,535 transactions: a run that always fails before would be proved.
#[test]
fn at_most_65535_transactions_begin(rt: HostRuntime) {
    let script = number_lines(rt.alloc(), "begin t", " update 0\n", 65536, "").expect(
        &rt, "memory",
    );
    let last = "\nbegun t65534 65535\nrefused 7 too many transactions\n";
    ends_with(&rt, rt.alloc(), script.as_str(), last);
}
