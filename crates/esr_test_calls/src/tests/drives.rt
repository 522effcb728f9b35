//! Tests that the blocks of a drive execute concurrently.

use crate::tests::barrier::Barrier;
use esr_drive::{DriveOutput, drive};
use esr_history::Watched;
use esr_lint::NoObserver;

/// No contract states this. The first block waits at the barrier for the second, so a drive that executed one
/// block after another would never end.
#[test]
fn two_blocks_run_concurrently(rt: HostRuntime) {
    let barrier = Barrier::new();
    let file = "session\nbegin u update 0\nsession\nbegin v update 0\n";
    let mut reader = Watched::new(file.as_bytes());
    let mut writer = Watched::new(Vec::new(rt.alloc()));
    let ended = drive(
        &rt,
        rt.alloc(),
        &mut reader,
        &mut writer,
        DriveOutput::Text { audit_workers: 1 },
        &barrier,
        &mut NoObserver,
    );
    assert!(rt; ended == Ok(()));
    barrier.assert_both_entered(&rt);
}
