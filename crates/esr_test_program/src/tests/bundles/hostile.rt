//! Bytes that do not form a bundle.

use super::rows::TWO_UPDATES;
use esr_bundle::{JudgeFault, Verdict, judge};
use esr_history::Watched;
use std::alloc::Global;

/// Returns the verdict on the bytes.
fn verdict_on(alloc: Global, bytes: &[u8]) -> Result<Verdict, JudgeFault> {
    let mut reader = Watched::new(bytes);
    let mut writer = Watched::new(Vec::new(alloc));
    judge(alloc, &mut reader, &mut writer)
}

/// A definition specifies JSON: one that permits a missing end would be proved, and accept a truncated file.
#[test]
fn no_proper_prefix_is_json(rt: HostRuntime) {
    let bytes = TWO_UPDATES.as_bytes();
    for count in 0..bytes.len() {
        let verdict = verdict_on(rt.alloc(), &bytes[..count]);
        assert!(rt; verdict == Ok(Verdict::Bad(1)), "{} bytes", count);
    }
}

/// No clause speaks of the stack, which a reader that follows brackets to any depth could exhaust: 200 are too deep.
#[test]
fn two_hundred_brackets_are_no_json(rt: HostRuntime) {
    let alloc = rt.alloc();
    let mut brackets = Vec::from_elem(alloc, b'[', 200).expect(&rt, "memory");
    for _ in 0..200 {
        brackets.push(b']').expect(&rt, "memory");
    }
    assert!(rt; verdict_on(alloc, brackets.as_slice()) == Ok(Verdict::Bad(1)));
}

/// A definition specifies text: one that skips an invalid byte would be proved, and judge a bundle that is not there.
#[test]
fn a_byte_that_is_no_text_is_no_json(rt: HostRuntime) {
    let alloc = rt.alloc();
    let mut bytes = Vec::from_slice(alloc, b"\xff").expect(&rt, "memory");
    bytes
        .extend_from_slice(TWO_UPDATES.as_bytes())
        .expect(&rt, "memory");
    assert!(rt; verdict_on(alloc, bytes.as_slice()) == Ok(Verdict::Bad(1)));
}
