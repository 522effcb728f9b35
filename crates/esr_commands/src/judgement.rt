//! The `check` subcommand: checks a bundle by itself, or against the problem of a query of a script. In the second case the
//! script must be a file, because the bundle may be standard input.

ghost use Rattle.std.specs.Prelude.{◌≡◌, false};
ghost use Rattle.esr_base.specs.Watch.{failed};

use crate::claim::{BundleClaim, claim_of};
use crate::console::Console;
use crate::detail::detail_of;
use crate::fault::{InFile, RunHelp, fail, report_fault};
use crate::meter::{LineObserver, Meter};
use crate::open::open_file;
use crate::output::Output;
use esr_bundle::{JudgeFault, Verdict, judge};
use esr_history::Watched;
use esr_lint::{ErrorReporter, Reports, Sought, Source};
use esr_script::{TeeReader, ask};
use esr_views::AuditedQuery;
use std::alloc::{AllocError, Global};
use std::io;
use std::io::Read;
use std::rt::Files;
use std::time::Clock;

/// Options of the check of a bundle.
#[derive(Clone, Copy)]
pub struct Question<'a> {
    pub script: Option<&'a str>,
    pub query: Option<&'a str>,
    /// Whether details about an invalid bundle are printed on standard error.
    pub verbose: bool,
}

/// Checks a bundle.
pub fn check<'a, R: Print + Eprint + Files + AllocGlobal + Clock, I: Read + Drop>(
    rt: &'a R,
    console: Console,
    source: Source<'_>,
    input: I,
    question: Question<'a>,
) -> u8 {
    match (question.script, question.query) {
        (None, None) => check_alone(rt, console, source, input, question.verbose),
        (Some(script), Some(query)) => check_with_script(
            rt,
            console,
            source,
            input,
            script,
            query,
            question.verbose,
        ),
        _ => fail(rt, &"--script and --query must be used together", 2),
    }
}

/// Prints details about an invalid bundle.
fn report_detail(rt: &impl Eprint, alloc: Global, copy: Option<&[u8]>) {
    if let Some(bytes) = copy
        && let Ok(Some(detail)) = detail_of(alloc, bytes)
    {
        let _ = eprintln!(rt; "esr: {detail}");
    }
}

/// Prints the verdict on a bundle. Returns whether the bundle is valid, or the status after a fault, which is reported.
fn write_verdict<I: Read>(
    rt: &(impl Print + Eprint + AllocGlobal),
    console: Console,
    source: Source<'_>,
    reader: &mut Watched<I>,
) -> Result<bool, u8>
    requires { failed reader.old ≡ false }
{
    let alloc = rt.alloc();
    let mut writer = Watched::new(Output::new(alloc, io::writer(rt), false));
    match judge(alloc, reader, &mut writer) {
        Ok(Verdict::Valid(_)) => Ok(true),
        Ok(_) => Ok(false),
        Err(JudgeFault::Write) if writer.inner().is_closed() => Err(1),
        Err(fault) => Err(report_judge_fault(rt, console, source, fault)),
    }
}

/// Returns the status after a verdict.
fn status_of(verdict: Result<bool, u8>) -> u8 {
    match verdict {
        Ok(valid) => u8::from(!valid),
        Err(status) => status,
    }
}

/// Reports the fault of a bundle.
fn report_judge_fault(
    rt: &impl Eprint,
    console: Console,
    source: Source<'_>,
    fault: JudgeFault,
) -> u8 {
    match fault {
        JudgeFault::Read | JudgeFault::TooLong => {
            report_fault(rt, console, &fault, &InFile(source))
        }
        JudgeFault::Write | JudgeFault::NoMemory => report_fault(rt, console, &fault, &""),
    }
}

/// Checks a bundle by itself. The input is copied only if details may be asked for.
fn check_alone<I: Read + Drop>(
    rt: &(impl Print + Eprint + AllocGlobal),
    console: Console,
    source: Source<'_>,
    input: I,
    verbose: bool,
) -> u8 {
    if !verbose {
        let mut reader = Watched::new(input);
        return status_of(write_verdict(rt, console, source, &mut reader));
    }
    let alloc = rt.alloc();
    let mut reader = Watched::new(TeeReader::new(alloc, input));
    let verdict = write_verdict(rt, console, source, &mut reader);
    if let Ok(false) = verdict {
        report_detail(rt, alloc, reader.inner().copy());
    }
    status_of(verdict)
}

/// Checks a bundle against a query of a script. Lines with errors of the script are reported unless a fault is.
fn check_with_script<'a, R: Print + Eprint + Files + AllocGlobal + Clock, I: Read + Drop>(
    rt: &'a R,
    console: Console,
    source: Source<'_>,
    input: I,
    path: &'a str,
    query: &'a str,
    verbose: bool,
) -> u8 {
    let alloc = rt.alloc();
    let file = match open_file(rt, path) {
        Ok(file) => file,
        Err(reason) => return fail(rt, &format_args!("{path}: {reason}"), 1),
    };
    let script = Source(Some(path));
    let mut reader = Watched::new(file);
    let reports = Reports {
        first_only: false,
        held: !console.is_terminal,
    };
    let sought = Sought::CommittedQuery(query);
    let reporter = ErrorReporter::new(rt, alloc, script, reports, sought, None);
    let meter = Meter::new(rt, console);
    let mut observer = LineObserver::new(reporter, &meter, console.hash_seed);
    match ask(alloc, &mut reader, query, &mut observer) {
        Ok(asked) => {
            let verdict = check_claim(rt, console, source, input, &asked, query, verbose);
            if verdict.is_ok() {
                observer.release();
            }
            status_of(verdict)
        }
        Err(fault) => {
            let help = RunHelp {
                source: script,
                fault,
                line: observer.next_line(),
                not_found: Some(observer.refusal()),
            };
            report_fault(rt, console, &fault, &help)
        }
    }
}

/// Checks a bundle against a query. Returns whether it is valid and belongs to the query, or the status after a fault.
fn check_claim<I: Read + Drop>(
    rt: &(impl Print + Eprint + AllocGlobal),
    console: Console,
    source: Source<'_>,
    input: I,
    asked: &AuditedQuery,
    query: &str,
    verbose: bool,
) -> Result<bool, u8> {
    let alloc = rt.alloc();
    let mut reader = Watched::new(TeeReader::new(alloc, input));
    let mut verdict = Watched::new(Vec::new(alloc));
    match judge(alloc, &mut reader, &mut verdict) {
        Ok(_) => {}
        // The verdict is kept in memory, so no device has failed.
        Err(JudgeFault::Write) => return Err(fail(rt, &JudgeFault::NoMemory, 1)),
        Err(fault) => return Err(report_judge_fault(rt, console, source, fault)),
    }
    let Some(bytes) = reader.inner().copy() else {
        return Err(fail(rt, &JudgeFault::NoMemory, 1));
    };
    let Ok(written) = write_claim(rt, alloc, asked, bytes, query) else {
        return Err(fail(rt, &JudgeFault::NoMemory, 1));
    };
    if verbose && let Ok(false) = written {
        report_detail(rt, alloc, Some(bytes));
    }
    written
}

/// Prints the line of a claim. Returns whether the bundle is valid and belongs to the query, or the status after a
/// failed write.
fn write_claim(
    rt: &(impl Print + Eprint),
    alloc: Global,
    asked: &AuditedQuery,
    bytes: &[u8],
    query: &str,
) -> Result<Result<bool, u8>, AllocError> {
    let claim = claim_of(alloc, asked, bytes)?;
    let line = claim.line(alloc, query)?;
    let mut writer = Watched::new(Output::new(alloc, io::writer(rt), false));
    Ok(match writer.send_all(&line) {
        Ok(()) => Ok(matches!(claim, BundleClaim::Of(_))),
        Err(_) if writer.inner().is_closed() => Err(1),
        Err(_) => Err(fail(rt, &JudgeFault::Write, 1)),
    })
}
