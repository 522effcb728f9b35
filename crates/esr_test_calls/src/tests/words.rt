//! Command lines and the jobs that they request. The arguments of a job are proved from the commands passed to
//! `clap`. No clause can state that these are the commands of the manual pages, that parsing succeeds if memory
//! suffices, or what the help says.

use clap::Error;
use clap::error::ErrorKind;
use esr_cli::{Format, Job, Progress, Task, command};
use std::alloc::Global;
use std::process::Abort;

type Words = &'static [&'static str];

/// Words of the command line, and the work that each line asks for.
static TASKS: [(Words, Task<'static>); 30] = [
    // `run` takes no name: it answers every line.
    (&["esr", "run"], Task::Run),
    // `check` takes no name: a bundle is of one query.
    (
        &["esr", "check"],
        Task::Check {
            script: None,
            query: None,
            verbose: false,
        },
    ),
    // A bundle may be checked as that of a query of a script.
    (
        &[
            "esr",
            "check",
            "--script",
            "a.esr",
            "--query",
            "q",
            "--verbose",
        ],
        Task::Check {
            script: Some("a.esr"),
            query: Some("q"),
            verbose: true,
        },
    ),
    // A name is enough, and the steps are omitted unless requested.
    (
        &["esr", "certify", "q"],
        Task::Certify {
            name: "q",
            steps: false,
        },
    ),
    // The option may precede the name.
    (
        &["esr", "certify", "--steps", "q"],
        Task::Certify {
            name: "q",
            steps: true,
        },
    ),
    // It may follow the name as well.
    (
        &["esr", "certify", "q", "--steps"],
        Task::Certify {
            name: "q",
            steps: true,
        },
    ),
    // After `--`, the same argument is a name.
    (
        &["esr", "certify", "--", "--steps"],
        Task::Certify {
            name: "--steps",
            steps: false,
        },
    ),
    // The name is all that `explain` needs.
    (
        &["esr", "explain", "q"],
        Task::Explain {
            name: "q",
            prose: false,
        },
    ),
    // A name that begins with `-` needs `--` before it.
    (
        &["esr", "explain", "--", "-q"],
        Task::Explain {
            name: "-q",
            prose: false,
        },
    ),
    // The option for sentences may follow the name too.
    (
        &["esr", "explain", "q", "--prose"],
        Task::Explain {
            name: "q",
            prose: true,
        },
    ),
    // A picture is of one query too.
    (&["esr", "picture", "q"], Task::Picture { name: "q" }),
    // The default number of workers is four.
    (&["esr", "audit"], Task::Audit { workers: 4 }),
    // The fewest workers.
    (
        &["esr", "audit", "--workers", "1"],
        Task::Audit { workers: 1 },
    ),
    // The maximum number of workers, and the other syntax of an option with its value.
    (
        &["esr", "audit", "--workers=64"],
        Task::Audit { workers: 64 },
    ),
    // The default number of workers of a drive is four as well.
    (
        &["esr", "drive"],
        Task::Drive {
            workers: 4,
            script: false,
        },
    ),
    // A drive takes workers between the bounds, like an audit.
    (
        &["esr", "drive", "--workers", "7"],
        Task::Drive {
            workers: 7,
            script: false,
        },
    ),
    // The history that came may be written instead.
    (
        &["esr", "drive", "--as-script"],
        Task::Drive {
            workers: 4,
            script: true,
        },
    ),
    // Interleavings are sampled; their number has a default.
    (
        &["esr", "explore"],
        Task::Explore {
            seeds: None,
            all: false,
            worst: None,
        },
    ),
    // The maximum number of samples.
    (
        &["esr", "explore", "--seeds", "100000", "--worst", "import"],
        Task::Explore {
            seeds: Some(100_000),
            all: false,
            worst: Some("import"),
        },
    ),
    // A ledger is of a whole script.
    (&["esr", "ledger"], Task::Ledger),
    // So are the blocked events, if no transaction is named.
    (&["esr", "why"], Task::Why { name: None }),
    // The transaction follows the file.
    (&["esr", "why", "-", "u"], Task::Why { name: Some("u") }),
    // A timeline needs no name.
    (&["esr", "timeline"], Task::Timeline { name: None }),
    // The name may follow the file.
    (
        &["esr", "timeline", "-", "q"],
        Task::Timeline { name: Some("q") },
    ),
    // Trace events are of a whole script.
    (&["esr", "trace"], Task::Trace),
    // A query is shrunk to any distance if no distance is given.
    (
        &["esr", "shrink", "q"],
        Task::Shrink {
            name: "q",
            at_least: None,
        },
    ),
    // The largest distance that may be given.
    (
        &["esr", "shrink", "--at-least", "1000000000000000000", "q"],
        Task::Shrink {
            name: "q",
            at_least: Some(1_000_000_000_000_000_000),
        },
    ),
    // A script is looked at without a name.
    (&["esr", "lint"], Task::Lint),
    // A page shows ten queries in full if no number is given.
    (&["esr", "page"], Task::Page { worst: 10 }),
    // The maximum.
    (&["esr", "page", "--worst=64"], Task::Page { worst: 64 }),
];

fn tasks() -> &'static [(Words, Task<'static>)] {
    &TASKS
}

/// Returns the job that the arguments request, or the error.
fn job_of(alloc: Global, words: Words) -> Result<Job<'static>, Error> {
    command(alloc, words)
}

/// Returns the task that the arguments request.
fn task_of(alloc: Global, words: Words) -> Option<Task<'static>> {
    match job_of(alloc, words) {
        Ok(job) => Some(job.task),
        Err(_) => None,
    }
}

/// By its contract, each command line may be out of memory, and then no arguments would get their job.
#[test]
fn words_ask_for_their_work(rt: HostRuntime) {
    for (words, wanted) in tasks() {
        let task = task_of(rt.alloc(), words);
        assert!(rt; task == Some(*wanted), "{:?} ask for something else", words);
    }
}

/// Command lines, the file that they name, and whether they contain `--bail`.
static FILES: [(Words, Option<&str>, bool); 6] = [
    // Standard input if no file is named.
    (&["esr", "run"], None, false),
    // The file is the last argument.
    (&["esr", "run", "a.esr"], Some("a.esr"), false),
    // It follows the name.
    (&["esr", "certify", "q", "a.esr"], Some("a.esr"), false),
    // `-` is a file, and no option.
    (&["esr", "audit", "--workers", "2", "-"], Some("-"), false),
    // The flag may follow the file.
    (&["esr", "audit", "a.esr", "--bail"], Some("a.esr"), true),
    // After `--`, a file may have any name.
    (
        &["esr", "explain", "--bail", "q", "--", "-a"],
        Some("-a"),
        true,
    ),
];

fn files() -> &'static [(Words, Option<&'static str>, bool)] {
    &FILES
}

/// Returns whether the arguments name this file, and contain `--bail` if `bail`.
fn names_file(alloc: Global, words: Words, file: Option<&str>, bail: bool) -> bool {
    match job_of(alloc, words) {
        Ok(job) => job.file == file && job.bail == bail,
        Err(_) => false,
    }
}

/// Checks the file and the flag of each command line.
#[test]
fn words_name_their_file(rt: HostRuntime) {
    for (words, file, bail) in files() {
        assert!(rt; names_file(rt.alloc(), words, *file, *bail), "{:?}", words);
    }
}

/// Command lines, when progress is shown, and the format.
static WAYS: [(Words, Progress, Option<Format>); 7] = [
    // The defaults: progress at a terminal, and text.
    (&["esr", "run"], Progress::AtATerminal, Some(Format::Text)),
    // A script that is watched from elsewhere.
    (
        &["esr", "run", "--progress"],
        Progress::Always,
        Some(Format::Text),
    ),
    // A terminal that is to stay as it is.
    (
        &["esr", "audit", "--no-progress"],
        Progress::Never,
        Some(Format::Text),
    ),
    // Of both, `--no-progress` takes precedence.
    (
        &["esr", "page", "--progress", "--no-progress"],
        Progress::Never,
        Some(Format::Text),
    ),
    // A table for a spreadsheet.
    (
        &["esr", "ledger", "--format", "csv"],
        Progress::AtATerminal,
        Some(Format::Csv),
    ),
    // One for a program.
    (
        &["esr", "explain", "q", "--format=json"],
        Progress::AtATerminal,
        Some(Format::Json),
    ),
    // The program reports an unknown format.
    (
        &["esr", "audit", "--format", "xml"],
        Progress::AtATerminal,
        None,
    ),
];

fn ways() -> &'static [(Words, Progress, Option<Format>)] {
    &WAYS
}

/// Returns whether the arguments request this.
fn requests(alloc: Global, words: Words, progress: Progress, format: Option<Format>) -> bool {
    match job_of(alloc, words) {
        Ok(job) => job.progress == progress && job.format == format,
        Err(_) => false,
    }
}

/// Checks the progress and the format of each command line.
#[test]
fn options_choose_the_format(rt: HostRuntime) {
    for (words, progress, format) in ways() {
        assert!(rt;
            requests(rt.alloc(), words, *progress, *format),
            "{:?}",
            words
        );
    }
}

/// Words that ask for no job, what is said of them, and the exit status.
static OTHERS: [(Words, ErrorKind, i32); 20] = [
    // A job has to be named.
    (&["esr"], ErrorKind::MissingSubcommand, 2),
    // No job has this name.
    (&["esr", "walk"], ErrorKind::InvalidSubcommand, 2),
    // `run` takes one file.
    (&["esr", "run", "a", "b"], ErrorKind::UnknownArgument, 2),
    // `run` has no such option.
    (&["esr", "run", "--fast"], ErrorKind::UnknownArgument, 2),
    // A query has to be named.
    (&["esr", "certify"], ErrorKind::MissingRequiredArgument, 2),
    // A bundle is of one query of one file.
    (
        &["esr", "certify", "q", "a", "b"],
        ErrorKind::UnknownArgument,
        2,
    ),
    // `check` has no `--bail`: its status is the verdict.
    (&["esr", "check", "--bail"], ErrorKind::UnknownArgument, 2),
    // An explanation needs a name too.
    (&["esr", "explain"], ErrorKind::MissingRequiredArgument, 2),
    // An explanation is of one query of one file.
    (
        &["esr", "explain", "q", "a", "b"],
        ErrorKind::UnknownArgument,
        2,
    ),
    // A picture needs a name too.
    (&["esr", "picture"], ErrorKind::MissingRequiredArgument, 2),
    // So does a query that is shrunk.
    (&["esr", "shrink"], ErrorKind::MissingRequiredArgument, 2),
    // Every query is off by at least 0, so this is not a distance to keep.
    (
        &["esr", "shrink", "--at-least", "0", "q"],
        ErrorKind::ValueValidation,
        2,
    ),
    // One worker fewer than there may be.
    (
        &["esr", "audit", "--workers", "0"],
        ErrorKind::ValueValidation,
        2,
    ),
    // One worker more than there may be.
    (
        &["esr", "audit", "--workers", "65"],
        ErrorKind::ValueValidation,
        2,
    ),
    // A count of workers is a number.
    (
        &["esr", "drive", "--workers", "four"],
        ErrorKind::ValueValidation,
        2,
    ),
    // An option needs its value.
    (&["esr", "drive", "--workers"], ErrorKind::InvalidValue, 2),
    // Help on request is not a mistake.
    (&["esr", "--help"], ErrorKind::DisplayHelp, 0),
    // Help on one job, requested by a subcommand.
    (&["esr", "help", "run"], ErrorKind::DisplayHelp, 0),
    // Help on one job, requested by an option.
    (&["esr", "run", "--help"], ErrorKind::DisplayHelp, 0),
    // Neither is the version.
    (&["esr", "--version"], ErrorKind::DisplayVersion, 0),
];

/// Compares the error of a command line, and the exit status.
fn check_words(rt: &impl Abort, alloc: Global, words: Words, kind: ErrorKind, status: i32) {
    let Err(error) = job_of(alloc, words) else {
        panic!(rt; "{:?} asks for no job", words)
    };
    assert!(rt;
        error.kind() == kind && error.exit_code() == status,
        "{:?}",
        words
    );
}

fn others() -> &'static [(Words, ErrorKind, i32)] {
    &OTHERS
}

/// By its contract, each mistake may be reported as out of memory; a definition determines which arguments are a
/// mistake.
#[test]
fn other_words_are_mistakes_or_ask_for_help(rt: HostRuntime) {
    for (words, kind, status) in others() {
        check_words(&rt, rt.alloc(), words, *kind, *status);
    }
}

/// Returns whether the help requested by these arguments explains the lines of a script.
fn teaches_lines(alloc: Global, words: Words) -> bool {
    let Err(error) = job_of(alloc, words) else {
        return false;
    };
    match error.to_string(alloc) {
        Ok(text) => has_lines(text.as_str()),
        Err(_) => false,
    }
}

fn has_lines(text: &str) -> bool {
    text.contains("begin NAME query LIMIT") && text.contains("audit q")
}

/// No clause contains the help texts: help that does not mention a script's lines would be proved.
#[test]
fn help_teaches_the_lines_of_a_script(rt: HostRuntime) {
    assert!(rt; teaches_lines(rt.alloc(), &["esr", "--help"]));
    assert!(rt; teaches_lines(rt.alloc(), &["esr", "run", "--help"]));
}
