//! Scripts that are run, audited, certified and explained. The output is proved against definitions, up to out of
//! memory; these tests compare handwritten texts, to check that the definitions agree with the formats and that a run
//! reaches its end.

ghost use Rattle.std.specs.Prelude.{◌≡◌, false};
ghost use Rattle.esr_base.specs.Watch.{failed};

mod audited;
mod certified;
mod explained;
mod failing;
mod large;
pub mod rows;

use crate::tests::written::check_written;
use esr_history::Watched;
use esr_lint::NoObserver;
use esr_script::{RunFault, run};
use rows::table;
use std::alloc::Global;
use std::io::{Read, Write};
use std::process::Abort;

/// Runs a script.
pub fn run_script<R: Read, W: Write>(
    alloc: Global,
    reader: &mut Watched<R>,
    writer: &mut Watched<W>,
) -> Result<(), RunFault>
    requires reader { failed reader.old ≡ false }
    requires writer { failed writer.old ≡ false }
{
    run(alloc, reader, writer, &mut NoObserver)
}

/// Runs a script, and compares the output with the text.
fn answers(
    rt: &impl Abort,
    alloc: Global,
    name: &str,
    script: &[u8],
    ends: Result<(), RunFault>,
    text: &str,
) {
    let mut reader = Watched::new(script);
    let mut writer = Watched::new(Vec::new(alloc));
    let ended = run_script(alloc, &mut reader, &mut writer);
    assert!(rt; ended == ends, "{} ends so", name);
    check_written(rt, &writer, text, name);
}

/// The program is proved against definitions; the texts are from the formats, from which a definition could stray.
#[test]
fn scripts_have_their_texts(rt: HostRuntime) {
    for row in table() {
        answers(
            &rt,
            rt.alloc(),
            row.name,
            row.script.as_bytes(),
            row.ended,
            row.text,
        );
    }
}

/// Each fault, and how it is shown.
static SHOWN: [(RunFault, &str); 7] = [
    (RunFault::Read, "read failed"),
    (RunFault::Write, "write failed"),
    (RunFault::LineTooLong, "line too long"),
    (RunFault::NoMemory, "out of memory"),
    (RunFault::HistoryFull, "history full"),
    (RunFault::TooManyLines, "too many lines"),
    (RunFault::NotACommittedQuery, "not a committed query"),
];

/// No clause contains the texts of a fault: with two of them swapped, a failed write would be reported as a failed
/// read.
#[test]
fn faults_show_their_texts(rt: HostRuntime) {
    for (fault, text) in &SHOWN {
        let shown = fault.to_string(rt.alloc()).expect(&rt, "memory");
        assert!(rt; shown.as_str() == *text);
    }
}
