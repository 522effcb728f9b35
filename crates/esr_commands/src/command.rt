//! Executes a subcommand over a script: prints the replies, or a text rendered from the final state.
//!
//! Every subcommand except `audit` implements `Command`, and `execute_command` executes it. It wraps input and output so that I/O errors
//! are remembered, passes each line to the observer, and turns the outcome into an exit status in one place (`finish`). With
//! `--bail`, output is buffered, and discarded if any line had an error. `run` is not buffered: it prints each reply as soon as
//! its line has been read.

ghost use Rattle.std.specs.Prelude.{◌≡◌, ◌≤◌, false};
ghost use Rattle.esr_base.specs.Watch.{failed};

use crate::console::Console;
use crate::fault::{RunHelp, fail, report_fault};
use crate::meter::{LineObserver, Meter};
use crate::output::Output;
use esr_cli::{Job, Task};
use esr_history::Watched;
use esr_lint::{ErrorReporter, Notes, Observer, Reports, Sought, Source};
use esr_script::{
    AuditedScript, RunFault, audit, audit_silently, certify, certify_steps, render_query,
    render_script, run,
};
use esr_views::{QueryView, ScriptView};
use std::alloc::{AllocError, Global};
use std::io;
use std::io::{Read, Write};
use std::thread::Threads;
use std::time::Clock;

/// A command over a script that is read once.
pub trait Command {
    /// Returns where lines with errors are noted, if the output shows them.
    fn notes(&self) -> Option<&Notes>;

    /// Does it.
    fn execute<R: Read, W: Write, O: Observer>(
        &self,
        alloc: Global,
        reader: &mut Watched<R>,
        writer: &mut Watched<W>,
        observer: &mut O,
    ) -> Result<(), RunFault>
        requires reader { failed reader.old ≡ false }
        requires writer { failed writer.old ≡ false };
}

/// Writes the replies.
#[derive(Drop)]
pub struct RunScript;

impl Command for RunScript {
    fn notes(&self) -> Option<&Notes> {
        None
    }

    fn execute<R: Read, W: Write, O: Observer>(
        &self,
        alloc: Global,
        reader: &mut Watched<R>,
        writer: &mut Watched<W>,
        observer: &mut O,
    ) -> Result<(), RunFault> {
        run(alloc, reader, writer, observer)
    }
}

/// Writes the bundle of a query, with the count of augmentations if `steps`.
#[derive(Drop)]
pub struct WriteBundle<'a> {
    pub name: &'a str,
    pub steps: bool,
}

impl Command for WriteBundle<'_> {
    fn notes(&self) -> Option<&Notes> {
        None
    }

    fn execute<R: Read, W: Write, O: Observer>(
        &self,
        alloc: Global,
        reader: &mut Watched<R>,
        writer: &mut Watched<W>,
        observer: &mut O,
    ) -> Result<(), RunFault> {
        if self.steps {
            certify_steps(alloc, reader, writer, self.name, observer)
        } else {
            certify(alloc, reader, writer, self.name, observer)
        }
    }
}

/// Tells of a committed query.
#[derive(Drop)]
pub struct RenderQuery<'a, T> {
    pub name: &'a str,
    pub query_view: &'a T,
    /// Where lines with errors are noted, if the view shows them.
    pub notes: Option<&'a Notes>,
}

impl<T: QueryView> Command for RenderQuery<'_, T> {
    fn notes(&self) -> Option<&Notes> {
        self.notes
    }

    fn execute<R: Read, W: Write, O: Observer>(
        &self,
        alloc: Global,
        reader: &mut Watched<R>,
        writer: &mut Watched<W>,
        observer: &mut O,
    ) -> Result<(), RunFault> {
        render_query(alloc, reader, writer, self.name, self.query_view, observer)
    }
}

/// Writes a text about a whole script.
#[derive(Drop)]
pub struct RenderScript<'a, S> {
    pub script_view: &'a S,
    /// Where lines with errors are noted, if the view shows them.
    pub notes: Option<&'a Notes>,
}

impl<S: ScriptView> Command for RenderScript<'_, S> {
    fn notes(&self) -> Option<&Notes> {
        self.notes
    }

    fn execute<R: Read, W: Write, O: Observer>(
        &self,
        alloc: Global,
        reader: &mut Watched<R>,
        writer: &mut Watched<W>,
        observer: &mut O,
    ) -> Result<(), RunFault> {
        render_script(alloc, reader, writer, self.script_view, observer)
    }
}

/// Executes a command over a script.
pub fn execute_command<R: Print + Eprint + AllocGlobal + Clock, I: Read + Drop, W: Command>(
    rt: &R,
    console: Console,
    job: Job<'_>,
    source: Source<'_>,
    input: I,
    command: &W,
) -> u8 {
    let alloc = rt.alloc();
    let mut reader = Watched::new(input);
    let mut writer = Watched::new(Output::new(alloc, io::writer(rt), is_buffered(job)));
    let reports = reports_of(console, job.task);
    let sought = sought_by(job.task);
    let reporter = ErrorReporter::new(rt, alloc, source, reports, sought, command.notes());
    let meter = Meter::new(rt, console);
    let mut observer = LineObserver::new(reporter, &meter, console.hash_seed);
    let ended = command.execute(alloc, &mut reader, &mut writer, &mut observer);
    finish(rt, console, job, source, ended, &observer, writer.inner())
}

/// Prints the audit of a script. This is not a `Command`, because no proof is generated for a method of a trait that
/// passes its bounds to threads.
pub fn audit_script<'a, R: Print + Eprint + AllocGlobal + Clock + Threads + Sync, I: Read + Drop>(
    rt: &'a R,
    console: Console,
    job: Job<'_>,
    source: Source<'a>,
    input: I,
    workers: u64,
) -> u8
    requires { (1 ≤ workers) × (workers ≤ 64) }
{
    let alloc = rt.alloc();
    let mut reader = Watched::new(input);
    let mut writer = Watched::new(Output::new(alloc, io::writer(rt), is_buffered(job)));
    let reports = reports_of(console, job.task);
    let reporter = ErrorReporter::new(rt, alloc, source, reports, Sought::Nothing, None);
    let meter = Meter::new(rt, console);
    let mut observer = LineObserver::new(reporter, &meter, console.hash_seed);
    let ended = audit(
        rt,
        alloc,
        &mut reader,
        &mut writer,
        workers,
        &meter,
        &mut observer,
    );
    meter.clear();
    finish(rt, console, job, source, ended, &observer, writer.inner())
}

/// A text of the audits of a script.
pub trait AuditText {
    /// Returns the text.
    fn text_of(&self, alloc: Global, audited: &AuditedScript) -> Result<Vec<u8>, AllocError>;
}

/// Prints a text of the audits of a script.
pub fn audit_script_as<
    'a,
    R: Print + Eprint + AllocGlobal + Clock + Threads + Sync,
    I: Read + Drop,
    V: AuditText,
>(
    rt: &'a R,
    console: Console,
    job: Job<'_>,
    source: Source<'a>,
    input: I,
    workers: u64,
    view: &V,
) -> u8
    requires { (1 ≤ workers) × (workers ≤ 64) }
{
    let alloc = rt.alloc();
    let mut reader = Watched::new(input);
    let mut writer = Watched::new(Output::new(alloc, io::writer(rt), is_buffered(job)));
    let reports = reports_of(console, job.task);
    let reporter = ErrorReporter::new(rt, alloc, source, reports, Sought::Nothing, None);
    let meter = Meter::new(rt, console);
    let mut observer = LineObserver::new(reporter, &meter, console.hash_seed);
    let audited = audit_silently(rt, alloc, &mut reader, workers, &meter, &mut observer);
    meter.clear();
    let ended = match audited {
        Ok(audited) => print_audits(alloc, &audited, view, &mut writer),
        Err(fault) => Err(fault),
    };
    finish(rt, console, job, source, ended, &observer, writer.inner())
}

/// Prints a text of audits.
fn print_audits<V: AuditText, W: Write>(
    alloc: Global,
    audited: &AuditedScript,
    view: &V,
    writer: &mut Watched<W>,
) -> Result<(), RunFault> {
    let Ok(text) = view.text_of(alloc, audited) else {
        return Err(RunFault::NoMemory);
    };
    match writer.send_all(&text) {
        Ok(()) => Ok(()),
        Err(_) => Err(RunFault::Write),
    }
}

/// Returns the fault text if a view of the whole script was requested for an unknown name.
fn not_found_text(task: Task<'_>) -> Option<&'static str> {
    match task {
        Task::Why { .. } => Some("not a transaction"),
        Task::Explain { prose: true, .. } | Task::Timeline { .. } => Some("not a query"),
        Task::Shrink { .. } => Some("not a committed query with this distance"),
        _ => None,
    }
}

/// Returns which lines with errors are reported, and when.
fn reports_of(console: Console, task: Task<'_>) -> Reports {
    Reports {
        first_only: matches!(task, Task::Run),
        held: !console.is_terminal,
    }
}

/// Returns the name that a task looks up.
fn sought_by(task: Task<'_>) -> Sought<'_> {
    match task {
        Task::Certify { name, .. }
        | Task::Explain { name, prose: false }
        | Task::Picture { name }
        | Task::Shrink { name, .. } => Sought::CommittedQuery(name),
        Task::Explain { name, prose: true } | Task::Timeline { name: Some(name) } => {
            Sought::Query(name)
        }
        Task::Why { name: Some(name) } => Sought::Transaction(name),
        _ => Sought::Nothing,
    }
}

/// Returns whether the output is held back until it is known that no line has an error.
fn is_buffered(job: Job<'_>) -> bool {
    job.bail && !matches!(job.task, Task::Run)
}

/// Returns the fault to report. Output that is held back is in memory, so no device has failed.
fn reported_fault(job: Job<'_>, fault: RunFault) -> RunFault {
    match fault {
        RunFault::Write if is_buffered(job) => RunFault::NoMemory,
        fault => fault,
    }
}

/// Reports how a command ended, and writes the output that was held back.
fn finish<R: Print + Eprint + AllocGlobal + Clock, W: Write>(
    rt: &R,
    console: Console,
    job: Job<'_>,
    source: Source<'_>,
    ended: Result<(), RunFault>,
    observer: &LineObserver<'_, '_, '_, R, R>,
    output: &Output<W>,
) -> u8 {
    match ended {
        Ok(()) => {
            let status = if job.bail && observer.faults() > 0 {
                1
            } else {
                flush(rt, output)
            };
            if status == 0 || job.bail {
                observer.release();
            }
            status
        }
        Err(RunFault::Write) if output.is_closed() => 1,
        Err(fault) => {
            let help = RunHelp {
                source,
                fault: reported_fault(job, fault),
                line: observer.next_line(),
                not_found: Some(observer.refusal()),
            };
            report_run_fault(rt, console, job, help)
        }
    }
}

/// Reports the fault of a script. A text of the whole script names its own fault if it does not know a name.
fn report_run_fault(rt: &impl Eprint, console: Console, job: Job<'_>, help: RunHelp<'_>) -> u8 {
    match (help.fault, not_found_text(job.task)) {
        (RunFault::NotACommittedQuery, Some(text)) => report_fault(rt, console, &text, &help),
        (fault, _) => report_fault(rt, console, &fault, &help),
    }
}

/// Writes the output that was held back. Returns the status.
fn flush<W: Write>(rt: &(impl Print + Eprint + AllocGlobal), output: &Output<W>) -> u8 {
    let mut writer = Watched::new(Output::new(rt.alloc(), io::writer(rt), false));
    match writer.send_all(output.bytes()) {
        Ok(()) => 0,
        Err(_) if writer.inner().is_closed() => 1,
        Err(_) => fail(rt, &RunFault::Write, 1),
    }
}
