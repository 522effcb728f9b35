//! The command line of the program `esr`: parses the arguments into a job.
//!
//! A job is a task with the options that all tasks share: the input file, and whether a line with an error changes the
//! exit status. A new subcommand is a variant of `Task`, and a new common flag is a field of `Job`. For each kind of
//! subcommand, one proof shows that arguments without an error produce a job. The name after `certify` may be any word
//! that `clap` accepts; a name that begins with `-` needs `--` before it.
#![tactic(auto)]

ghost use Rattle.std.specs.Prelude.{◌≡◌, IfOk, MatchResult, Some, codes, option_map};
ghost use Rattle.clap.specs.Words.{fault_of, first_of, found_of, kind_of, rows_of};
ghost use Rattle.clap.specs.Words.{subcommand_of, subcommand_rows_of, FailsBy};
ghost use Rattle.clap.specs.Walk.{texts};
ghost use Rattle.clap.specs.declared.error.kind.ErrorKind.TheVariants.{OutOfMemory};
ghost use Rattle.esr_cli.specs.ArgumentRules.{program};
ghost use Rattle.esr_cli.specs.Job.{certify_in, check_in, number_option, drive_in, explain_in, explore_in, flag_in, format_in, format_of_name, progress_in, request_in, request_of_command, request_of, requested, shrink_in, task_in, requested_command, HasWorkers, IsSyntaxOf};

mod commands;
mod help;

use crate::commands::program;
use clap::{ArgMatches, Error};
use std::alloc::Global;

/// The version of the program.
pub const VERSION: &str = "0.3.0";

/// The task to run on the input.
#[derive(Clone, Copy, PartialEq, Eq)]
pub enum Task<'a> {
    /// Runs a script.
    Run,
    /// Runs a script without writing its lines, and writes the bundle of the
    /// query `name`, with the count of augmentations if `steps`.
    Certify {
        name: &'a str,
        steps: bool,
    },
    /// Judges a bundle: alone, or, if both are named, as the claim of a script about a query; and reports the defect
    /// of an invalid one if `verbose`.
    Check {
        script: Option<&'a str>,
        query: Option<&'a str>,
        verbose: bool,
    },
    /// Runs a script without writing its lines, and explains the query `name`,
    /// in sentences if `prose`.
    Explain {
        name: &'a str,
        prose: bool,
    },
    /// Runs a script without writing its lines, and draws the query `name`.
    Picture {
        name: &'a str,
    },
    /// Runs a script without writing its lines, and writes a page about its queries, of which `worst`, 1 to 64, are
    /// shown in full.
    Page {
        worst: u64,
    },
    /// Runs a script without writing its lines, and audits each committed query with `workers` threads, 1 to 64.
    Audit {
        workers: u64,
    },
    /// Runs the sessions of a drive file, and audits with `workers` threads, 1 to 64; or writes the resulting history
    /// as a script.
    Drive {
        workers: u64,
        script: bool,
    },
    /// Runs the blocks of a drive file on one thread, interleaved in all ways or by `seeds` seeds, and summarizes the
    /// outcomes; or writes the worst one, by the given measure, as a script.
    Explore {
        seeds: Option<u64>,
        all: bool,
        worst: Option<&'a str>,
    },
    /// Runs a script without writing its lines, and writes a row for each of its
    /// transactions.
    Ledger,
    /// Runs a script without writing its lines, and reports why lines were blocked: all, or those of one transaction.
    Why {
        name: Option<&'a str>,
    },
    /// Runs a script without writing its lines, and draws its transactions step by
    /// step, for the query `name` or for the one with the largest distance.
    Timeline {
        name: Option<&'a str>,
    },
    /// Runs a script without writing its lines, and writes its transactions and
    /// charges as trace events.
    Trace,
    /// Runs a script without writing its lines, and writes a small script in which
    /// the query `name` still has a distance of at least `at_least`, or of at least 1.
    Shrink {
        name: &'a str,
        at_least: Option<u64>,
    },
    /// Runs a script without writing its lines, and lists the lines at fault.
    Lint,
}

/// The format of a table.
#[derive(Clone, Copy, PartialEq, Eq)]
pub enum Format {
    /// For people.
    Text,
    /// Comma-separated values, with a line of headings.
    Csv,
    /// JSON, an object a line.
    Json,
}

/// When progress is shown on standard error.
#[derive(Clone, Copy, PartialEq, Eq)]
pub enum Progress {
    /// If standard error is a terminal.
    AtATerminal,
    Always,
    Never,
}

/// The job that a command line requests.
#[derive(Clone, Copy, PartialEq, Eq)]
pub struct Job<'a> {
    pub task: Task<'a>,
    /// The file to read: standard input if none is named, or if it is `-`.
    pub file: Option<&'a str>,
    /// Whether a line with a fault makes the status 1.
    pub bail: bool,
    pub progress: Progress,
    /// The output format, or `None` if its name is unknown.
    pub format: Option<Format>,
}

/// Returns the first value of an argument.
fn text<'a>(given: &ArgMatches<'a>, id: &str) -> Option<&'a str>
    ensures { option_map (λ s. s.now) result ≡ first_of id.now (rows_of (found_of given.now)) }
{
    given.get_str(id)
}

/// Returns whether a flag is set.
fn flag(given: &ArgMatches<'_>, id: &str) -> bool
    ensures { result ≡ flag_in id.now (rows_of (found_of given.now)) }
{
    given.get_one::<bool>(id).unwrap_or(false)
}

/// Returns the number passed to an option.
fn count(given: &ArgMatches<'_>, id: &str) -> Option<u64>
    ensures { result ≡ number_option id.now (rows_of (found_of given.now)) }
{
    given.get_one::<u64>(id)
}

/// Returns the format with a name.
fn format_of_name(name: &str) -> Option<Format>
    ensures { result ≡ format_of_name name.now }
{
    match name {
        "text" => Some(Format::Text),
        "csv" => Some(Format::Csv),
        "json" => Some(Format::Json),
        _ => None,
    }
}

/// Returns the format requested: text by default.
fn asked_format(given: &ArgMatches<'_>) -> Option<Format>
    ensures { result ≡ format_in (rows_of (found_of given.now)) }
{
    match text(given, "format") {
        Some(name) => format_of_name(name),
        None => Some(Format::Text),
    }
}

/// Returns when progress is shown. `--no-progress` takes precedence.
fn asked_progress(given: &ArgMatches<'_>) -> Progress
    ensures { result ≡ progress_in (rows_of (found_of given.now)) }
{
    if flag(given, "no-progress") {
        return Progress::Never;
    }
    if flag(given, "progress") {
        Progress::Always
    } else {
        Progress::AtATerminal
    }
}

fn certify_task<'a>(given: &ArgMatches<'a>) -> Option<Task<'a>>
    ensures { option_map requested_command result ≡ certify_in (rows_of (found_of given.now)) }
{
    let name = text(given, "NAME")?;
    Some(Task::Certify {
        name,
        steps: flag(given, "steps"),
    })
}

fn explain_task<'a>(given: &ArgMatches<'a>) -> Option<Task<'a>>
    ensures { option_map requested_command result ≡ explain_in (rows_of (found_of given.now)) }
{
    let name = text(given, "NAME")?;
    Some(Task::Explain {
        name,
        prose: flag(given, "prose"),
    })
}

fn check_task<'a>(given: &ArgMatches<'a>) -> Task<'a>
    ensures { requested_command result ≡ check_in (rows_of (found_of given.now)) }
{
    Task::Check {
        script: text(given, "script"),
        query: text(given, "query"),
        verbose: flag(given, "verbose"),
    }
}

fn drive_task<'a>(given: &ArgMatches<'a>) -> Option<Task<'a>>
    ensures { option_map requested_command result ≡ drive_in (rows_of (found_of given.now)) }
{
    let workers = count(given, "workers")?;
    Some(Task::Drive {
        workers,
        script: flag(given, "as-script"),
    })
}

fn explore_task<'a>(given: &ArgMatches<'a>) -> Task<'a>
    ensures { requested_command result ≡ explore_in (rows_of (found_of given.now)) }
{
    Task::Explore {
        seeds: count(given, "seeds"),
        all: flag(given, "all"),
        worst: text(given, "worst"),
    }
}

fn shrink_task<'a>(given: &ArgMatches<'a>) -> Option<Task<'a>>
    ensures { option_map requested_command result ≡ shrink_in (rows_of (found_of given.now)) }
{
    let name = text(given, "NAME")?;
    Some(Task::Shrink {
        name,
        at_least: count(given, "at-least"),
    })
}

fn task_of<'a>(name: &str, given: &ArgMatches<'a>) -> Option<Task<'a>>
    ensures { option_map requested_command result ≡ task_in name.now (rows_of (found_of given.now)) }
{
    match name {
        "run" => Some(Task::Run),
        "certify" => certify_task(given),
        "check" => Some(check_task(given)),
        "explain" => explain_task(given),
        "picture" => Some(Task::Picture {
            name: text(given, "NAME")?,
        }),
        "page" => Some(Task::Page {
            worst: count(given, "worst")?,
        }),
        "audit" => Some(Task::Audit {
            workers: count(given, "workers")?,
        }),
        "drive" => drive_task(given),
        "explore" => Some(explore_task(given)),
        "ledger" => Some(Task::Ledger),
        "why" => Some(Task::Why {
            name: text(given, "NAME"),
        }),
        "timeline" => Some(Task::Timeline {
            name: text(given, "NAME"),
        }),
        "trace" => Some(Task::Trace),
        "shrink" => shrink_task(given),
        "lint" => Some(Task::Lint),
        _ => None,
    }
}

/// Returns the job of a task, with the options that all tasks share.
fn with_options<'a>(task: Task<'a>, given: &ArgMatches<'a>) -> Job<'a>
    ensures { request_of result ≡ requested (rows_of (found_of given.now)) (requested_command task.entry) }
{
    Job {
        task,
        file: text(given, "FILE"),
        bail: flag(given, "bail"),
        progress: asked_progress(given),
        format: asked_format(given),
    }
}

/// Returns the job of a subcommand and its matches.
fn job_in<'a>(name: &str, given: &ArgMatches<'a>) -> Option<Job<'a>>
    ensures { option_map request_of result ≡ request_of_command name.now (rows_of (found_of given.now)) }
{
    let task = task_of(name, given)?;
    Some(with_options(task, given))
}

#[tactic(auto, using(crate::proofs::Requested::named_rows))]
fn job_of<'a>(matches: &ArgMatches<'a>) -> Option<Job<'a>>
    ensures { option_map request_of result ≡ request_in (subcommand_rows_of matches.now) }
{
    let (name, given) = matches.subcommand()?;
    job_in(name, given)
}

/// Returns the job requested by the arguments, starting with the program's name.
///
/// An error is help or the version on request, a mistake in the arguments, or out of memory; its kind says which.
/// Parsing arguments that form a job fails only if an allocation fails.
pub fn command<'a>(alloc: Global, words: &'a [&'a str]) -> Result<Job<'a>, Error>
    ensures job { IfOk result (λ job.
        request_in (subcommand_of program (texts words.entry.now)) ≡ Some (request_of job)) }
    ensures workers { IfOk result (λ job. HasWorkers (requested_command job.task)) }
    ensures errors { FailsBy (fault_of program (texts words.entry.now)) result }
    ensures asked { (request : _) → IsSyntaxOf (texts words.entry.now) request
        → MatchResult result (λ job. request_of job ≡ request) (λ e. kind_of e ≡ OutOfMemory) }
{
    let matches = program(alloc)?.try_get_matches_from(words)?;
    match job_of(&matches) {
        Some(job) => Ok(job),
        None => unreachable!(),
    }
}
