//! The program `esr`: parses its arguments, executes the job, and maps the result to an exit status: 0 for success (for
//! `check`: the bundle is valid), 1 for an invalid or malformed bundle, a fault, or a line with an error under `--bail`
//! or `lint`, and 2 for wrong arguments.
//!
//! `--help` and `--version` exit with 0, or with 1 if the text cannot be written. The exit status does not depend on
//! standard error: if a message cannot be written there, the status is the same.
#![tactic(auto)]

ghost use Rattle.std.specs.Prelude.{◌≡◌, ◌≤◌, false};
ghost use Rattle.esr_base.specs.Watch.{failed};
ghost use Rattle.esr_cli.specs.Job.{requested_command, HasWorkers as HasItsWorkers};
ghost use Rattle.esr_drive.specs.Drive.{HasWorkers};

use either::{Left, Right};
use esr_cli::{Format, Job, Progress, Task, VERSION, command};
use esr_commands::{
    AuditText, Console, DriveHelp, Meter, Output, Question, RenderQuery, RenderScript, RunScript,
    WriteBundle, audit_script, audit_script_as, check, execute_command, fail, is_closed_pipe,
    line_at_fault, list_faults, open_file, report_fault,
};
use esr_drive::{DriveFault, DriveOutput, NoGate, drive};
use esr_explain::Explaining;
use esr_explore::{ExploreFault, Measure, Search, explore};
use esr_history::Watched;
use esr_lint::{KeptLine, Notes, Source};
use esr_page::{Page, PageMetadata};
use esr_picture::{PictureView, PictureWithErrorsView};
use esr_prose::{Passage, Prose};
use esr_script::{AuditedScript, TeeReader};
use esr_shrink::{Progress as SearchProgress, Shrink};
use esr_tables::{Data, ExplanationTable, Ledger, audit_table};
use esr_timeline::{Timeline, TimelinePart};
use esr_trace_events::TraceEvents;
use esr_views::{QueryView, ScriptView};
use esr_why::Why;
use httpdate::HttpDate;
use std::alloc::{AllocError, Global};
use std::io::Read;
use std::process::ExitCode;
use std::rt::Files;
use std::sync::Wait;
use std::thread::Threads;
use std::time::{Clock, SystemTime};
use std::{fs, io};

fn main(rt: HostRuntime) -> ExitCode {
    let alloc = rt.alloc();
    let arguments = match std::env::args(&rt) {
        Ok(arguments) => arguments,
        Err(error) if error.kind() == io::ErrorKind::InvalidData => {
            return ExitCode::from(fail(&rt, &"argument is not valid UTF-8", 2));
        }
        Err(_) => return ExitCode::from(fail(&rt, &"out of memory", 2)),
    };
    let Ok(owned): Result<Vec<String>, AllocError> = arguments.collect(alloc) else {
        return ExitCode::from(fail(&rt, &"out of memory", 2));
    };
    let mut words = Vec::new(alloc);
    for word in &owned {
        if words.push(word.as_str()).is_err() {
            return ExitCode::from(fail(&rt, &"out of memory", 2));
        }
    }
    match command(alloc, words.as_slice()) {
        Ok(job) => {
            let console = Console::new(&rt, job.progress, &rt.stderr(), &rt.stdin());
            let status = match (job.task, job.file) {
                (Task::Lint, Some(_)) => lint_each(&rt, console, owned.as_slice()),
                _ => do_job(&rt, console, job),
            };
            ExitCode::from(status)
        }
        Err(error) => {
            // Help and the version end with 0, mistakes with 2.
            let status = if error.exit_code() == 0 { 0 } else { 2 };
            match error.print(&rt) {
                Err(failed) if status == 0 && is_closed_pipe(&failed) => ExitCode::from(1),
                Err(_) if status == 0 => ExitCode::from(fail(&rt, &"write failed", 1)),
                _ => ExitCode::from(status),
            }
        }
    }
}

/// Returns whether an operand names an input.
fn is_input<R: Files>(rt: &R, path: &str) -> bool {
    path == "-" || fs::metadata(rt, path).is_ok()
}

/// The name and the file of a task.
#[derive(Clone, Copy)]
struct Operands<'a> {
    name: &'a str,
    file: Option<&'a str>,
}

/// Returns whether an operand can be the name of a transaction.
fn is_name(word: &str) -> bool {
    word.len() <= 16
        && word
            .bytes()
            .all(|byte| byte.is_ascii_alphanumeric() || byte == b'_')
}

/// Returns the operands of `why` and `timeline` in their usual order, if they were given as NAME and FILE: only the second
/// is an input. The only operand of `timeline` may be a NAME as well.
fn swapped<'a, R: Files>(rt: &R, task: Task<'a>, file: Option<&'a str>) -> Option<Operands<'a>> {
    let first = file?;
    let (Task::Why { name } | Task::Timeline { name }) = task else {
        return None;
    };
    if is_input(rt, first) {
        return None;
    }
    match name {
        Some(second) if is_input(rt, second) => Some(Operands {
            name: first,
            file: name,
        }),
        None if matches!(task, Task::Timeline { .. }) && is_name(first) => Some(Operands {
            name: first,
            file: None,
        }),
        _ => None,
    }
}

/// Returns a task with this name.
fn with_name<'a>(task: Task<'a>, name: &'a str) -> Task<'a>
    ensures { HasItsWorkers (requested_command task.entry) → HasItsWorkers (requested_command result) }
{
    match task {
        Task::Why { .. } => Task::Why { name: Some(name) },
        Task::Timeline { .. } => Task::Timeline { name: Some(name) },
        task => task,
    }
}

/// Accepts the operands of `why` and `timeline` in both orders.
fn in_order<'a, R: Files>(rt: &R, job: Job<'a>) -> Job<'a>
    ensures { HasItsWorkers (requested_command job.entry.task) → HasItsWorkers (requested_command result.task) }
{
    match swapped(rt, job.task, job.file) {
        Some(Operands { name, file }) => Job {
            task: with_name(job.task, name),
            file,
            bail: job.bail,
            progress: job.progress,
            format: job.format,
        },
        None => job,
    }
}

/// Returns the arguments of a task that takes the name of a transaction before the file.
fn name_usage(task: Task<'_>) -> Option<&'static str> {
    match task {
        Task::Certify { .. } => Some("certify NAME FILE"),
        Task::Explain { .. } => Some("explain NAME FILE"),
        Task::Picture { .. } => Some("picture NAME FILE"),
        Task::Shrink { .. } => Some("shrink NAME FILE"),
        _ => None,
    }
}

/// Does the job, from the file that is named or standard input to standard output. Both are one kind of input, so all that
/// reads is proved and compiled once.
fn do_job<'a, R: Input + Print + Eprint + Files + AllocGlobal + Clock + Threads + Wait + Sync>(
    rt: &'a R,
    console: Console,
    job: Job<'a>,
) -> u8
    requires { HasItsWorkers (requested_command job.task) }
{
    if job.format.is_none() {
        return fail(rt, &"--format must be text, csv or json", 2);
    }
    let job = in_order(rt, job);
    let (source, input) = match job.file.filter(|file| *file != "-") {
        None => {
            if console.is_typed
                && let Some(usage) = name_usage(job.task)
            {
                let _ = eprintln!(rt;
                    "esr: reading the script from the terminal, up to Ctrl-D (usage: esr {usage})"
                );
            }
            (Source(None), Left(rt.reader()))
        }
        Some(path) => match open_file(rt, path) {
            Ok(file) => (Source(Some(path)), Right(file)),
            Err(why) => return fail(rt, &format_args!("{path}: {why}"), 1),
        },
    };
    do_task(rt, console, job, source, input)
}

/// Does the work of a job, from this input.
fn do_task<
    'a,
    R: Print + Eprint + Files + AllocGlobal + Clock + Threads + Wait + Sync,
    I: Read + Drop,
>(rt: &'a R, console: Console, job: Job<'a>, source: Source<'a>, input: I) -> u8
    requires { HasItsWorkers (requested_command job.task) }
{
    match job.task {
        Task::Run => execute_command(rt, console, job, source, input, &RunScript),
        Task::Certify { name, steps } => {
            let work = WriteBundle { name, steps };
            execute_command(rt, console, job, source, input, &work)
        }
        Task::Explain { name, prose: true } => {
            show_script(rt, console, job, source, input, &Prose { name })
        }
        Task::Explain { name, prose: false } => match data_of(job.format) {
            Some(data) => {
                let query_view = &ExplanationTable { data };
                show_query(rt, console, job, source, input, name, query_view)
            }
            None => show_query(rt, console, job, source, input, name, &Explaining),
        },
        Task::Picture { name } => {
            let notes = &Notes::new(rt.alloc());
            let query_view = &PictureWithErrorsView { notes };
            show_noted_query(rt, console, job, source, input, name, query_view, notes)
        }
        Task::Timeline { name } => {
            let notes = &Notes::new(rt.alloc());
            let script_view = &Timeline { name, notes };
            show_noted_script(rt, console, job, source, input, script_view, notes)
        }
        Task::Trace => show_script(rt, console, job, source, input, &TraceEvents),
        Task::Shrink { name, at_least } => {
            let progress = &SearchMeter(Meter::new(rt, console));
            let at_least = at_least.unwrap_or(1);
            let script_view = &Shrink {
                name,
                at_least,
                progress,
            };
            show_script(rt, console, job, source, input, script_view)
        }
        Task::Page { worst } => show_page(rt, console, job, source, input, worst),
        Task::Audit { workers } => match data_of(job.format) {
            Some(data) => {
                let view = &AuditTable { data };
                audit_script_as(rt, console, job, source, input, workers, view)
            }
            None => audit_script(rt, console, job, source, input, workers),
        },
        Task::Ledger => {
            let script_view = &Ledger {
                format: table_format(job.format),
            };
            show_script(rt, console, job, source, input, script_view)
        }
        Task::Why { name } => show_script(rt, console, job, source, input, &Why { name }),
        Task::Check {
            script,
            query,
            verbose,
        } => {
            let question = Question {
                script,
                query,
                verbose,
            };
            check(rt, console, source, input, question)
        }
        Task::Drive {
            workers: _,
            script: true,
        } => drive_file(rt, console, source, input, DriveOutput::Script),
        Task::Drive {
            workers: audit_workers,
            script: false,
        } => drive_file(
            rt,
            console,
            source,
            input,
            DriveOutput::Text { audit_workers },
        ),
        Task::Explore { seeds, all, worst } => match search_of(
            seeds,
            all,
            worst,
            console.hash_seed,
        ) {
            Ok(search) => explore_file(rt, console, source, input, search),
            Err(mistake) => fail(rt, &mistake, 2),
        },
        Task::Lint => list_faults(rt, console, source, input),
    }
}

/// The progress of a search for a smaller script.
#[derive(Drop)]
struct SearchMeter<'a, R>(Meter<'a, R>);

impl<R: Clock + Eprint> SearchProgress for SearchMeter<'_, R> {
    fn show(&self, runs: u64, events: u64) {
        self.0
            .show(&format_args!("run {runs}, with {events} events"));
    }

    fn clear(&self) {
        self.0.clear();
    }
}

/// The parts of a date.
#[derive(Clone, Copy)]
struct Date<'a> {
    day: &'a str,
    month: &'a str,
    year: &'a str,
}

/// Returns the parts of the date of a header, which begins with the day of the week and ends with the time.
fn date_in(text: &str) -> Option<Date<'_>> {
    let mut words = text.split(' ');
    let _ = words.next()?;
    let day = words.next()?;
    let month = words.next()?;
    let year = words.next()?;
    Some(Date { day, month, year })
}

/// Returns the seconds since 1970, unless the clock cannot be read.
fn seconds_now(rt: &impl Clock) -> Option<u64> {
    let since = SystemTime::now(rt)
        .ok()?
        .duration_since(SystemTime::UNIX_EPOCH)
        .ok()?;
    Some(since.as_secs())
}

/// Returns the text of today's date, as in `27 Nov 2026`, unless the clock cannot be read.
///
/// # Errors
/// An allocation failed.
fn today(rt: &impl Clock, alloc: Global) -> Result<Option<String>, AllocError> {
    let Some(seconds) = seconds_now(rt) else {
        return Ok(None);
    };
    let Ok(date) = HttpDate::from_unix_secs(seconds) else {
        return Ok(None);
    };
    let text = format!(in alloc; "{date}")?;
    match date_in(text.as_str()) {
        Some(Date { day, month, year }) => Ok(Some(format!(in alloc; "{day} {month} {year}")?)),
        None => Ok(None),
    }
}

// In each function below, all references have one lifetime: the prover covers a struct of references only so.

/// Prints a text about a query.
fn show_query<'a, R: Print + Eprint + AllocGlobal + Clock, I: Read + Drop, T: QueryView>(
    rt: &'a R,
    console: Console,
    job: Job<'a>,
    source: Source<'a>,
    input: I,
    name: &'a str,
    query_view: &'a T,
) -> u8 {
    let work = RenderQuery {
        name,
        query_view,
        notes: None,
    };
    execute_command(rt, console, job, source, input, &work)
}

/// Prints a text about a query that shows the lines with errors.
fn show_noted_query<'a, R: Print + Eprint + AllocGlobal + Clock, I: Read + Drop, T: QueryView>(
    rt: &'a R,
    console: Console,
    job: Job<'a>,
    source: Source<'a>,
    input: I,
    name: &'a str,
    query_view: &'a T,
    notes: &'a Notes,
) -> u8 {
    let notes = Some(notes);
    let work = RenderQuery {
        name,
        query_view,
        notes,
    };
    execute_command(rt, console, job, source, input, &work)
}

/// Prints a text about a script.
fn show_script<'a, R: Print + Eprint + AllocGlobal + Clock, I: Read + Drop, S: ScriptView>(
    rt: &R,
    console: Console,
    job: Job<'_>,
    source: Source<'_>,
    input: I,
    script_view: &'a S,
) -> u8 {
    let work = RenderScript {
        script_view,
        notes: None,
    };
    execute_command(rt, console, job, source, input, &work)
}

/// Prints the page about a script.
fn show_page<'a, R: Print + Eprint + AllocGlobal + Clock, I: Read + Drop>(
    rt: &'a R,
    console: Console,
    job: Job<'a>,
    source: Source<'a>,
    input: I,
    worst: u64,
) -> u8 {
    let alloc = rt.alloc();
    let notes = &Notes::new(alloc);
    let Source(file) = source;
    let file = file.unwrap_or("");
    match today(rt, alloc) {
        Ok(Some(date)) => {
            let date = date.as_str();
            show_page_of(rt, console, job, source, input, worst, file, date, notes)
        }
        Ok(None) => show_page_of(rt, console, job, source, input, worst, file, "", notes),
        Err(_) => fail(rt, &"out of memory", 1),
    }
}

/// Prints the page about a script with its metadata. The file is empty for standard input, and the date if it is not known.
fn show_page_of<'a, R: Print + Eprint + AllocGlobal + Clock, I: Read + Drop>(
    rt: &R,
    console: Console,
    job: Job<'_>,
    source: Source<'_>,
    input: I,
    worst: u64,
    file: &'a str,
    date: &'a str,
    notes: &'a Notes,
) -> u8 {
    let metadata = metadata_of(file, date, notes);
    let page = Page {
        worst,
        timeline: &TimelinePart,
        picture: &PictureView,
        words: &Passage,
        metadata,
    };
    show_noted_script(rt, console, job, source, input, &page, notes)
}

/// Returns the metadata of a page.
fn metadata_of<'a>(file: &'a str, date: &'a str, notes: &'a Notes) -> PageMetadata<'a> {
    let file = unless_empty(file);
    let date = unless_empty(date);
    PageMetadata {
        file,
        date,
        version: VERSION,
        notes,
    }
}

/// Returns a text unless it is empty.
fn unless_empty(text: &str) -> Option<&str> {
    if text.is_empty() { None } else { Some(text) }
}

/// Prints a text about a script that shows the lines with errors.
fn show_noted_script<'a, R: Print + Eprint + AllocGlobal + Clock, I: Read + Drop, S: ScriptView>(
    rt: &R,
    console: Console,
    job: Job<'_>,
    source: Source<'_>,
    input: I,
    script_view: &'a S,
    notes: &'a Notes,
) -> u8 {
    let notes = Some(notes);
    let work = RenderScript { script_view, notes };
    execute_command(rt, console, job, source, input, &work)
}

/// The audits of a script as a table.
#[derive(Drop)]
struct AuditTable {
    data: Data,
}

impl AuditText for AuditTable {
    fn text_of(&self, alloc: Global, audited: &AuditedScript) -> Result<Vec<u8>, AllocError> {
        let AuditedScript {
            transactions,
            history,
            found,
        } = audited;
        audit_table(alloc, self.data, transactions, history, found)
    }
}

/// Returns the format of audits and explanations for programs, or `None` for text.
fn data_of(format: Option<Format>) -> Option<Data> {
    match format {
        Some(Format::Csv) => Some(Data::Csv),
        Some(Format::Json) => Some(Data::Json),
        Some(Format::Text) | None => None,
    }
}

/// Returns the format of a ledger.
fn table_format(format: Option<Format>) -> esr_tables::Format {
    match format {
        Some(Format::Csv) => esr_tables::Format::Csv,
        Some(Format::Json) => esr_tables::Format::Json,
        Some(Format::Text) | None => esr_tables::Format::Text,
    }
}

/// The default number of sampled interleavings.
const SEEDS: u64 = 1_000;

/// Returns the search over interleavings, or the error of its options.
fn search_of(
    seeds: Option<u64>,
    all: bool,
    worst: Option<&str>,
    hash_seed: u64,
) -> Result<Search, &'static str> {
    if all && seeds.is_some() {
        return Err("--seeds and --all are mutually exclusive");
    }
    let seeds = if all {
        None
    } else {
        Some(seeds.unwrap_or(SEEDS))
    };
    let worst = match worst {
        None => None,
        Some(name) => match Measure::of_name(name) {
            None => return Err("--worst must be import, distance or blocked"),
            measure => measure,
        },
    };
    Ok(Search {
        seeds,
        worst,
        hash_seed,
    })
}

/// Runs the blocks of a drive file in many interleavings.
fn explore_file<R: Print + Eprint + AllocGlobal, I: Read + Drop>(
    rt: &R,
    console: Console,
    source: Source<'_>,
    input: I,
    search: Search,
) -> u8 {
    let alloc = rt.alloc();
    // The copy contains the line with an error, or the one that is too long.
    let mut reader = Watched::new(TeeReader::new(alloc, input));
    let mut writer = Watched::new(Output::new(alloc, io::writer(rt), false));
    match explore(alloc, &mut reader, &mut writer, search) {
        Ok(()) => 0,
        Err(ExploreFault::Drive(DriveFault::Write)) if writer.inner().is_closed() => 1,
        Err(ExploreFault::Drive(fault)) => {
            let read = reader.inner().copy().unwrap_or_default();
            let line = line_at_fault(read, fault);
            let help = DriveHelp {
                source,
                fault,
                line,
                read,
            };
            report_fault(rt, console, &fault, &help)
        }
        Err(fault) => fail(rt, &format_args!("{source}{fault}"), 1),
    }
}

/// Runs a drive file.
fn drive_file<R: Print + Eprint + AllocGlobal + Threads + Wait + Sync, I: Read + Drop>(
    rt: &R,
    console: Console,
    source: Source<'_>,
    input: I,
    form: DriveOutput,
) -> u8
    requires { HasWorkers form }
{
    let alloc = rt.alloc();
    // The copy contains the line that is too long.
    let mut reader = Watched::new(TeeReader::new(alloc, input));
    let mut writer = Watched::new(Output::new(alloc, io::writer(rt), false));
    let mut kept = KeptLine::new(alloc, console.hash_seed);
    match drive(
        rt,
        alloc,
        &mut reader,
        &mut writer,
        form,
        &NoGate,
        &mut kept,
    ) {
        Ok(()) => 0,
        Err(DriveFault::Write) if writer.inner().is_closed() => 1,
        Err(fault) => {
            let help = DriveHelp {
                source,
                fault,
                line: kept.line(),
                read: reader.inner().copy().unwrap_or_default(),
            };
            report_fault(rt, console, &fault, &help)
        }
    }
}

/// Lists the faults of each named script, one after another. `lint` has no option that takes a value, so the
/// arguments after it are the files. The status is that of the last script that was not clean.
fn lint_each<'a, R: Input + Print + Eprint + Files + AllocGlobal + Clock + Threads + Wait + Sync>(
    rt: &'a R,
    console: Console,
    words: &'a [String],
) -> u8 {
    let mut worst = 0;
    for word in words.iter().skip(2).filter(|word| word.as_str() != "--") {
        let job = Job {
            task: Task::Lint,
            file: Some(word.as_str()),
            bail: false,
            progress: Progress::Never,
            format: Some(Format::Text),
        };
        let status = do_job(rt, console, job);
        if status != 0 {
            worst = status;
        }
    }
    worst
}
