//! Checks of what a run has written.

use esr_history::Watched;
use esr_test_devices::Narrow;
use std::process::Abort;

/// Checks that a run that ended well has written the whole text, and another one a part of it, since a write failed.
pub fn check_narrow(rt: &impl Abort, writer: &Watched<Narrow>, ended_well: bool, whole: &str) {
    let taken = writer.inner().taken.as_slice();
    assert!(rt; writer.failed() != ended_well);
    assert!(rt; whole.as_bytes().starts_with(taken));
    assert!(rt; !ended_well || taken.len() == whole.len());
}

/// Checks that this text was written.
pub fn check_written(rt: &impl Abort, writer: &Watched<Vec<u8>>, text: &str, name: &str) {
    assert!(rt;
        writer.inner().as_slice() == text.as_bytes(),
        "{} writes its text",
        name
    );
}
