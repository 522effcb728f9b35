//! Worked bundles, and devices that fail.

mod failing;
mod hostile;
mod rows;

use crate::tests::written::check_written;
use esr_bundle::{JudgeFault, from_json, judge, to_json};
use esr_history::Watched;
use rows::{BACK_FLOW, EMPTY, Row, STRICT, TWO_UPDATES, table};
use std::alloc::{AllocError, Global};
use std::process::Abort;

/// Returns the bundle of the row with its change.
fn change_bundle(alloc: Global, row: &Row) -> Result<String, AllocError> {
    let (before, after) = match row.bundle.split_once(row.old) {
        Some(parts) => parts,
        None => ("", row.bundle),
    };
    let mut text = String::from_str(alloc, before)?;
    text.push_str(row.new)?;
    text.push_str(after)?;
    Ok(text)
}

/// Judges the bundle, and compares the output with the line.
fn has_verdict(rt: &impl Abort, alloc: Global, text: &str, line: &str) {
    let mut reader = Watched::new(text.as_bytes());
    let mut writer = Watched::new(Vec::new(alloc));
    let ended = judge(alloc, &mut reader, &mut writer);
    assert!(rt; ended.is_ok(), "a verdict on {}", text);
    check_written(rt, &writer, line, text);
}

/// A verdict is proved against definitions; one that assigns another number to a fault would be proved as well.
#[test]
fn bundles_have_their_verdicts(rt: HostRuntime) {
    for row in table() {
        let text = change_bundle(rt.alloc(), row).expect(&rt, "memory");
        has_verdict(&rt, rt.alloc(), text.as_str(), row.line);
    }
}

/// JSON permits any order of keys and any white space; a definition that permits a single form would be proved.
#[test]
fn keys_may_come_in_any_order_with_white_space(rt: HostRuntime) {
    has_verdict(
        &rt,
        rt.alloc(),
        " { \"problem\" : {\"updates\":[],\n\
            \"chains\":[ ],\"before\":[]},\t\"certificate\":{\"worth\":0,\"set\":[],\"chain_flow\":[],\"back_flow\":[]} }\r\n",
        "valid 0\n",
    );
}

/// A definition determines the faults of JSON and those of a bundle's shape: the least input of each is tested.
#[test]
fn the_empty_input_is_no_json(rt: HostRuntime) {
    has_verdict(&rt, rt.alloc(), "", "bad 1\n");
    has_verdict(&rt, rt.alloc(), "{}", "bad 2\n");
}

/// Reads a bundle, and writes it.
fn rewrite(alloc: Global, text: &str) -> Option<Vec<u8>> {
    let (problem, certificate) = from_json(alloc, text.as_bytes()).ok()?;
    to_json(alloc, &problem, &certificate).ok()
}

/// Returns whether a bundle is written as it was read.
fn is_rewritten(alloc: Global, text: &str) -> bool {
    match rewrite(alloc, text) {
        Some(written) => written.as_slice() == text.as_bytes(),
        None => false,
    }
}

/// No clause can state that a bundle's allocation succeeds: reading or writing could always fail, and be proved.
#[test]
fn bundles_are_written_as_they_were_read(rt: HostRuntime) {
    let alloc = rt.alloc();
    for text in [TWO_UPDATES, BACK_FLOW, EMPTY, STRICT] {
        // If an allocation fails, it is retried once.
        let written = is_rewritten(alloc, text) || is_rewritten(alloc, text);
        assert!(rt; written, "{} is written", text);
    }
}

/// Each fault, and how it is shown.
static SHOWN: [(JudgeFault, &str); 4] = [
    (JudgeFault::Read, "read failed"),
    (JudgeFault::Write, "write failed"),
    (JudgeFault::TooLong, "input too long"),
    (JudgeFault::NoMemory, "out of memory"),
];

/// No clause contains the texts of a fault: with two of them swapped, a failed write would be reported as a failed
/// read.
#[test]
fn faults_show_their_texts(rt: HostRuntime) {
    for (fault, text) in &SHOWN {
        let shown = fault.to_string(rt.alloc()).expect(&rt, "memory");
        assert!(rt; shown.as_str() == *text);
    }
}
