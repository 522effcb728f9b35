//! The commands of the program `esr`, and their help texts.
//!
//! The contract states which commands, arguments and ranges `clap` gets, all at once. A function that takes both adds
//! a command to the program, and each command is made with one `?`: if two commands are owned at once, each `?` may
//! drop both, and a proof takes three times as long.

ghost use Rattle.std.specs.Prelude.{◌≡◌, IfOk, codes, false};
ghost use Rattle.clap.specs.Words.{App, app_of, new_app, with_rule, with_subcommand, rule_of};
ghost use Rattle.clap.specs.declared.builder.command.Command.TheViews.{out-Command};
ghost use Rattle.esr_cli.specs.ArgumentRules.{all_rule, as_script_rule, at_least_rule, audit, bail_rule, with_diagnosis_commands, certify, check, drive, esr, explain, explore, file_rule, files_rule, format_rule, ledger, lint, name_rule, no_progress_rule, of_rule, page, program, progress_rule, prose_rule, with_query_commands, query_rule, with_file, script_rule, with_script_commands, seeds_rule, shrink, steps_rule, with_account_commands, timeline, trace, verbose_rule, why, query_command, with_script, workers_rule, worst_by_rule, worst_rule};

use crate::{VERSION, help};
use clap::{Arg, ArgAction, Command, value_parser};
use std::alloc::{AllocError, Global};

/// Creates the command `name`.
fn plain<'a>(
    alloc: Global,
    name: &'a str,
    about: &'a str,
    after_help: &'a str,
) -> Result<Command<'a>, AllocError>
    ensures app { IfOk result (λ c. app_of c ≡ new_app name.entry.now) }
    ensures no_global_args { IfOk result (λ c. (out-Command c).has_globals ≡ false) }
{
    Ok(
        Command::new(alloc, name)
            .about(about)
            .after_help(after_help),
    )
}

/// Adds an argument to a command, if its allocation succeeded.
fn with_argument<'a>(
    command: Result<Command<'a>, AllocError>,
    arg: Arg<'a>,
) -> Result<Command<'a>, AllocError>
    requires command { IfOk command (λ c. (out-Command c).has_globals ≡ false) }
    requires arg { arg.global ≡ false }
    ensures app { (whole : App) → IfOk command.entry (λ c. app_of c ≡ whole)
        → IfOk result (λ c. app_of c ≡ with_rule whole (rule_of arg.entry)) }
    ensures no_global_args { IfOk result (λ c. (out-Command c).has_globals ≡ false) }
{
    command?.arg(arg)
}

/// Creates the argument `NAME`.
fn name<'a>(alloc: Global) -> Arg<'a>
    ensures rule { rule_of result ≡ name_rule }
    ensures not_global { result.global ≡ false }
{
    Arg::new(alloc, "NAME")
        .required(true)
        .help("Name of the query")
}

/// Creates the argument `FILE`.
fn file<'a>(alloc: Global) -> Arg<'a>
    ensures rule { rule_of result ≡ file_rule }
    ensures not_global { result.global ≡ false }
{
    Arg::new(alloc, "FILE").help("Input file; standard input if - or omitted")
}

/// Creates the argument `FILE..`.
fn files<'a>(alloc: Global) -> Arg<'a>
    ensures rule { rule_of result ≡ files_rule }
    ensures not_global { result.global ≡ false }
{
    Arg::new(alloc, "FILE").action(ArgAction::Append).help(
        "Input files, read in order; standard input if - or omitted",
    )
}

/// Creates the option `--bail`.
fn bail<'a>(alloc: Global) -> Arg<'a>
    ensures rule { rule_of result ≡ bail_rule }
    ensures not_global { result.global ≡ false }
{
    Arg::new(alloc, "bail")
        .long("bail")
        .action(ArgAction::SetTrue)
        .help(
            "Exits with status 1 if a line has an error; all commands except run then print nothing",
        )
}

/// Creates the option `--steps`.
fn steps<'a>(alloc: Global) -> Arg<'a>
    ensures rule { rule_of result ≡ steps_rule }
    ensures not_global { result.global ≡ false }
{
    Arg::new(alloc, "steps")
        .long("steps")
        .action(ArgAction::SetTrue)
        .help("Includes the number of flow augmentations")
}

/// Creates the option `--prose`.
fn prose<'a>(alloc: Global) -> Arg<'a>
    ensures rule { rule_of result ≡ prose_rule }
    ensures not_global { result.global ≡ false }
{
    Arg::new(alloc, "prose")
        .long("prose")
        .action(ArgAction::SetTrue)
        .help("Prints sentences; also accepts a query that has not committed")
}

/// Creates the option `--worst N`.
fn worst<'a>(alloc: Global) -> Arg<'a>
    ensures rule { rule_of result ≡ worst_rule }
    ensures not_global { result.global ≡ false }
{
    Arg::new(alloc, "worst")
        .long("worst")
        .value_name("N")
        .value_parser(value_parser!(u64).range(1..=64))
        .default_value("10")
        .help("Number of queries to show in detail, those with the largest distance (1 to 64)")
}

/// Creates the option `--workers W`.
fn workers<'a>(alloc: Global) -> Arg<'a>
    ensures rule { rule_of result ≡ workers_rule }
    ensures not_global { result.global ≡ false }
{
    Arg::new(alloc, "workers")
        .long("workers")
        .value_name("W")
        .value_parser(value_parser!(u64).range(1..=64))
        .default_value("4")
        .help("Number of audit threads (1 to 64)")
}

/// Creates the option `--as-script`.
fn as_script<'a>(alloc: Global) -> Arg<'a>
    ensures rule { rule_of result ≡ as_script_rule }
    ensures not_global { result.global ≡ false }
{
    Arg::new(alloc, "as-script")
        .long("as-script")
        .action(ArgAction::SetTrue)
        .help("Prints the history as a script that reproduces it")
}

/// Creates the option `--seeds N`.
fn seeds<'a>(alloc: Global) -> Arg<'a>
    ensures rule { rule_of result ≡ seeds_rule }
    ensures not_global { result.global ≡ false }
{
    Arg::new(alloc, "seeds")
        .long("seeds")
        .value_name("N")
        .value_parser(value_parser!(u64).range(1..=100_000))
        .help("Number of random interleavings (1 to 100000; default 1000)")
}

/// Creates the option `--all`.
fn all<'a>(alloc: Global) -> Arg<'a>
    ensures rule { rule_of result ≡ all_rule }
    ensures not_global { result.global ≡ false }
{
    Arg::new(alloc, "all")
        .long("all")
        .action(ArgAction::SetTrue)
        .help("Runs all interleavings (at most 100000)")
}

/// Creates the option `--worst MEASURE`.
fn worst_by<'a>(alloc: Global) -> Arg<'a>
    ensures rule { rule_of result ≡ worst_by_rule }
    ensures not_global { result.global ≡ false }
{
    Arg::new(alloc, "worst")
        .long("worst")
        .value_name("MEASURE")
        .help("Prints the worst interleaving as a script, by import, distance or blocked")
}

/// Creates the option `--progress`.
fn progress<'a>(alloc: Global) -> Arg<'a>
    ensures rule { rule_of result ≡ progress_rule }
    ensures not_global { result.global ≡ false }
{
    Arg::new(alloc, "progress")
        .long("progress")
        .action(ArgAction::SetTrue)
        .help("Shows progress on standard error, even if it is not a terminal")
}

/// Creates the option `--no-progress`.
fn no_progress<'a>(alloc: Global) -> Arg<'a>
    ensures rule { rule_of result ≡ no_progress_rule }
    ensures not_global { result.global ≡ false }
{
    Arg::new(alloc, "no-progress")
        .long("no-progress")
        .action(ArgAction::SetTrue)
        .help("Never shows progress")
}

/// Creates the option `--format FORMAT`.
fn format<'a>(alloc: Global) -> Arg<'a>
    ensures rule { rule_of result ≡ format_rule }
    ensures not_global { result.global ≡ false }
{
    Arg::new(alloc, "format")
        .long("format")
        .value_name("FORMAT")
        .default_value("text")
        .help("Output format: text, csv or json (one object per line)")
}

/// Creates the option `--script SCRIPT`.
fn script<'a>(alloc: Global) -> Arg<'a>
    ensures rule { rule_of result ≡ script_rule }
    ensures not_global { result.global ≡ false }
{
    Arg::new(alloc, "script")
        .long("script")
        .value_name("SCRIPT")
        .help("Script that the bundle is claimed to belong to; requires --query")
}

/// Creates the option `--query QUERY`.
fn query<'a>(alloc: Global) -> Arg<'a>
    ensures rule { rule_of result ≡ query_rule }
    ensures not_global { result.global ≡ false }
{
    Arg::new(alloc, "query")
        .long("query")
        .value_name("QUERY")
        .help("Query of the script that the bundle is claimed to belong to; requires --script")
}

/// Creates the option `--verbose`.
fn verbose<'a>(alloc: Global) -> Arg<'a>
    ensures rule { rule_of result ≡ verbose_rule }
    ensures not_global { result.global ≡ false }
{
    Arg::new(alloc, "verbose")
        .long("verbose")
        .action(ArgAction::SetTrue)
        .help("Prints details about the fault on standard error")
}

/// Creates the optional argument `NAME`.
fn of<'a>(alloc: Global) -> Arg<'a>
    ensures rule { rule_of result ≡ of_rule }
    ensures not_global { result.global ≡ false }
{
    Arg::new(alloc, "NAME").help("Name of the transaction; all transactions if omitted")
}

/// `--at-least D`
fn at_least<'a>(alloc: Global) -> Arg<'a>
    ensures rule { rule_of result ≡ at_least_rule }
    ensures not_global { result.global ≡ false }
{
    Arg::new(alloc, "at-least")
        .long("at-least")
        .value_name("D")
        .value_parser(value_parser!(u64).range(1..=1_000_000_000_000_000_000))
        .help("Distance that the query keeps in the smaller script (default 1)")
}

/// A command that reads a file.
fn with_file<'a>(
    alloc: Global,
    command: Result<Command<'a>, AllocError>,
) -> Result<Command<'a>, AllocError>
    requires { IfOk command (λ c. (out-Command c).has_globals ≡ false) }
    ensures app { (whole : App) → IfOk command.entry (λ c. app_of c ≡ whole)
        → IfOk result (λ c. app_of c ≡ with_file whole) }
    ensures no_global_args { IfOk result (λ c. (out-Command c).has_globals ≡ false) }
{
    with_argument(command, file(alloc))
}

/// Creates a command that reads a script.
fn with_script<'a>(
    alloc: Global,
    command: Result<Command<'a>, AllocError>,
) -> Result<Command<'a>, AllocError>
    requires { IfOk command (λ c. (out-Command c).has_globals ≡ false) }
    ensures app { (whole : App) → IfOk command.entry (λ c. app_of c ≡ whole)
        → IfOk result (λ c. app_of c ≡ with_script whole) }
    ensures no_global_args { IfOk result (λ c. (out-Command c).has_globals ≡ false) }
{
    let command = with_argument(with_file(alloc, command), bail(alloc));
    with_argument(with_argument(command, progress(alloc)), no_progress(alloc))
}

/// Creates a command about one query of a script, with the arguments NAME and FILE.
fn query_command<'a>(
    alloc: Global,
    command_name: &'a str,
    about: &'a str,
    after_help: &'a str,
) -> Result<Command<'a>, AllocError>
    ensures app { IfOk result (λ c. app_of c ≡ query_command command_name.entry.now) }
    ensures no_global_args { IfOk result (λ c. (out-Command c).has_globals ≡ false) }
{
    let command = plain(alloc, command_name, about, after_help);
    with_script(alloc, with_argument(command, name(alloc)))
}

/// Creates the command `run [--bail] [FILE]`.
fn run<'a>(alloc: Global) -> Result<Command<'a>, AllocError>
    ensures app { IfOk result (λ c. app_of c ≡ with_script (new_app (codes "run"))) }
    ensures no_global_args { IfOk result (λ c. (out-Command c).has_globals ≡ false) }
{
    let about = "Runs a script and prints the replies";
    with_script(alloc, plain(alloc, "run", about, help::SCRIPT))
}

/// Creates the command `certify [--bail] [--steps] NAME [FILE]`.
fn certify<'a>(alloc: Global) -> Result<Command<'a>, AllocError>
    ensures app { IfOk result (λ c. app_of c ≡ certify) }
    ensures no_global_args { IfOk result (λ c. (out-Command c).has_globals ≡ false) }
{
    let about = "Runs a script and prints the audit of a query as a JSON bundle";
    with_argument(
        query_command(alloc, "certify", about, help::CERTIFY),
        steps(alloc),
    )
}

/// Creates the command `explain [--bail] [--prose] [--format FORMAT] NAME [FILE]`.
fn explain<'a>(alloc: Global) -> Result<Command<'a>, AllocError>
    ensures app { IfOk result (λ c. app_of c ≡ explain) }
    ensures no_global_args { IfOk result (λ c. (out-Command c).has_globals ≡ false) }
{
    let about = "Runs a script and explains the reads and charges of a query";
    let command = query_command(alloc, "explain", about, help::EXPLAIN);
    with_argument(with_argument(command, prose(alloc)), format(alloc))
}

/// Creates the command `page [--bail] [--worst N] [FILE]`.
fn page<'a>(alloc: Global) -> Result<Command<'a>, AllocError>
    ensures app { IfOk result (λ c. app_of c ≡ page) }
    ensures no_global_args { IfOk result (λ c. (out-Command c).has_globals ≡ false) }
{
    let about = "Runs a script and renders an HTML report of its queries";
    with_argument(
        with_script(alloc, plain(alloc, "page", about, help::PAGE)),
        worst(alloc),
    )
}

/// Creates the command `check [--verbose] [--script SCRIPT --query QUERY] [FILE]`.
fn check<'a>(alloc: Global) -> Result<Command<'a>, AllocError>
    ensures app { IfOk result (λ c. app_of c ≡ check) }
    ensures no_global_args { IfOk result (λ c. (out-Command c).has_globals ≡ false) }
{
    let about = "Checks a bundle: valid, invalid or bad";
    let command = with_file(alloc, plain(alloc, "check", about, help::CHECK));
    with_argument(
        with_argument(with_argument(command, script(alloc)), query(alloc)),
        verbose(alloc),
    )
}

/// Creates the command `ledger [--bail] [--format FORMAT] [FILE]`.
fn ledger<'a>(alloc: Global) -> Result<Command<'a>, AllocError>
    ensures app { IfOk result (λ c. app_of c ≡ ledger) }
    ensures no_global_args { IfOk result (λ c. (out-Command c).has_globals ≡ false) }
{
    let about = "Runs a script and prints one row per transaction";
    with_argument(
        with_script(alloc, plain(alloc, "ledger", about, help::LEDGER)),
        format(alloc),
    )
}

/// Creates the command `why [--bail] [FILE] [NAME]`.
fn why<'a>(alloc: Global) -> Result<Command<'a>, AllocError>
    ensures app { IfOk result (λ c. app_of c ≡ why) }
    ensures no_global_args { IfOk result (λ c. (out-Command c).has_globals ≡ false) }
{
    let about = "Runs a script and explains why lines were blocked";
    with_argument(
        with_script(alloc, plain(alloc, "why", about, help::WHY)),
        of(alloc),
    )
}

/// `timeline [--bail] [FILE] [NAME]`
fn timeline<'a>(alloc: Global) -> Result<Command<'a>, AllocError>
    ensures app { IfOk result (λ c. app_of c ≡ timeline) }
    ensures no_global_args { IfOk result (λ c. (out-Command c).has_globals ≡ false) }
{
    let about = "Runs a script and renders what happened, step by step, as an SVG picture";
    with_argument(
        with_script(alloc, plain(alloc, "timeline", about, help::TIMELINE)),
        of(alloc),
    )
}

/// `trace [--bail] [FILE]`
fn trace<'a>(alloc: Global) -> Result<Command<'a>, AllocError>
    ensures app { IfOk result (λ c. app_of c ≡ trace) }
    ensures no_global_args { IfOk result (λ c. (out-Command c).has_globals ≡ false) }
{
    let about = "Runs a script and prints its transactions and charges as trace events";
    with_script(alloc, plain(alloc, "trace", about, help::TRACE))
}

/// `shrink [--bail] [--at-least D] NAME [FILE]`
fn shrink<'a>(alloc: Global) -> Result<Command<'a>, AllocError>
    ensures app { IfOk result (λ c. app_of c ≡ shrink) }
    ensures no_global_args { IfOk result (λ c. (out-Command c).has_globals ≡ false) }
{
    let about = "Runs a script and prints a small script in which a query is still off";
    with_argument(
        query_command(alloc, "shrink", about, help::SHRINK),
        at_least(alloc),
    )
}

/// `audit [--bail] [--workers W] [--format FORMAT] [FILE]`
fn audit<'a>(alloc: Global) -> Result<Command<'a>, AllocError>
    ensures app { IfOk result (λ c. app_of c ≡ audit) }
    ensures no_global_args { IfOk result (λ c. (out-Command c).has_globals ≡ false) }
{
    let about = "Runs a script and audits every committed query";
    let command = with_script(alloc, plain(alloc, "audit", about, help::AUDIT));
    with_argument(with_argument(command, workers(alloc)), format(alloc))
}

/// Creates the command `drive [--workers W] [--as-script] [FILE]`.
fn drive<'a>(alloc: Global) -> Result<Command<'a>, AllocError>
    ensures app { IfOk result (λ c. app_of c ≡ drive) }
    ensures no_global_args { IfOk result (λ c. (out-Command c).has_globals ≡ false) }
{
    let about = "Runs the sessions of a drive file, one thread each";
    let command = with_file(alloc, plain(alloc, "drive", about, help::DRIVE));
    with_argument(with_argument(command, workers(alloc)), as_script(alloc))
}

/// Creates the command `explore [--seeds N | --all] [--worst MEASURE] [FILE]`.
fn explore<'a>(alloc: Global) -> Result<Command<'a>, AllocError>
    ensures app { IfOk result (λ c. app_of c ≡ explore) }
    ensures no_global_args { IfOk result (λ c. (out-Command c).has_globals ≡ false) }
{
    let about = "Runs the sessions of a drive file in many interleavings";
    let command = with_file(alloc, plain(alloc, "explore", about, help::EXPLORE));
    with_argument(
        with_argument(with_argument(command, seeds(alloc)), all(alloc)),
        worst_by(alloc),
    )
}

/// Creates the command `lint [FILE..]`.
fn lint<'a>(alloc: Global) -> Result<Command<'a>, AllocError>
    ensures app { IfOk result (λ c. app_of c ≡ lint) }
    ensures no_global_args { IfOk result (λ c. (out-Command c).has_globals ≡ false) }
{
    let about = "Lists the errors of a script, line by line";
    with_argument(plain(alloc, "lint", about, help::LINT), files(alloc))
}

/// Adds a command to a program, if its allocation succeeded.
fn add_command<'a>(
    program: Command<'a>,
    command: Result<Command<'a>, AllocError>,
) -> Result<Command<'a>, AllocError>
    requires { IfOk command (λ c. (out-Command c).has_globals ≡ false) }
    ensures { (whole part : App) → app_of program.entry ≡ whole → IfOk command.entry (λ c. app_of c ≡ part)
        → IfOk result (λ c. app_of c ≡ with_subcommand whole part.top) }
{
    program.subcommand(command?)
}

/// Creates the program without its commands.
fn bare_program<'a>(alloc: Global) -> Command<'a>
    ensures { app_of result ≡ esr }
{
    Command::new(alloc, "esr")
        .about("Epsilon-serializable transactions over integers")
        .after_help(help::SCRIPT)
        .version(VERSION)
        .subcommand_required(true)
}

/// Creates the program with the commands `run`, `certify` and `check`.
fn with_script_commands<'a>(alloc: Global) -> Result<Command<'a>, AllocError>
    ensures { IfOk result (λ c. app_of c ≡ with_script_commands) }
{
    let commands = add_command(bare_program(alloc), run(alloc))?;
    let commands = add_command(commands, certify(alloc))?;
    add_command(commands, check(alloc))
}

/// Adds the commands that display one query, or all on a page.
fn with_query_commands<'a>(alloc: Global) -> Result<Command<'a>, AllocError>
    ensures { IfOk result (λ c. app_of c ≡ with_query_commands) }
{
    let picture = "Runs a script and renders a query as an SVG picture";
    let commands = add_command(with_script_commands(alloc)?, explain(alloc))?;
    let commands = add_command(
        commands,
        query_command(alloc, "picture", picture, help::PICTURE),
    )?;
    add_command(commands, page(alloc))
}

/// Adds the commands that list charges and blocked events.
fn with_account_commands<'a>(alloc: Global) -> Result<Command<'a>, AllocError>
    ensures { IfOk result (λ c. app_of c ≡ with_account_commands) }
{
    let commands = add_command(with_query_commands(alloc)?, ledger(alloc))?;
    add_command(commands, why(alloc))
}

/// Adds the commands that show where the distance of a query comes from.
fn with_diagnosis_commands<'a>(alloc: Global) -> Result<Command<'a>, AllocError>
    ensures { IfOk result (λ c. app_of c ≡ with_diagnosis_commands) }
{
    let commands = add_command(with_account_commands(alloc)?, timeline(alloc))?;
    let commands = add_command(commands, trace(alloc))?;
    add_command(commands, shrink(alloc))
}

/// Returns the program `esr` with all its commands, as `clap` parses them.
pub fn program<'a>(alloc: Global) -> Result<Command<'a>, AllocError>
    ensures { IfOk result (λ c. app_of c ≡ program) }
{
    let commands = add_command(with_diagnosis_commands(alloc)?, audit(alloc))?;
    let commands = add_command(commands, drive(alloc))?;
    let commands = add_command(commands, explore(alloc))?;
    add_command(commands, lint(alloc))
}
