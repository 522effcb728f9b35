//! The `lint` subcommand: lists the faulty lines of a script.

ghost use Rattle.std.specs.Prelude.{◌≡◌, false};
ghost use Rattle.esr_base.specs.Watch.{failed};

use crate::console::Console;
use crate::fault::{LastLine, RunHelp, report_fault};
use crate::output::Output;
use esr_history::Watched;
use esr_lint::{Listing, Source, Unlisted};
use esr_script::{RunFault, lint};
use std::io;
use std::io::{Read, Write};

/// Lists the errors of a script. A line that ends the run is listed as well.
pub fn list_faults<I: Read + Drop>(
    rt: &(impl Print + Eprint + AllocGlobal),
    console: Console,
    source: Source<'_>,
    input: I,
) -> u8 {
    let alloc = rt.alloc();
    let mut reader = Watched::new(input);
    let output = Output::new(alloc, io::writer(rt), false);
    let mut listing = Listing::new(alloc, output, source, console.hash_seed);
    if let Err(fault) = lint(alloc, &mut reader, &mut listing) {
        list_last_line(&mut listing, fault);
        let finished = listing.finish();
        return if is_unread(finished, listing.writer()) {
            1
        } else {
            report(rt, console, source, fault, listing.next_line())
        };
    }
    let finished = listing.finish();
    if is_unread(finished, listing.writer()) {
        return 1;
    }
    match finished {
        Ok(()) => u8::from(listing.count() > 0),
        Err(why) => report(rt, console, source, fault_of(why), listing.next_line()),
    }
}

/// Lists the line that ended a run, if the fault is one of a line.
fn list_last_line<W: Write>(listing: &mut Listing<'_, W>, fault: RunFault) {
    if let Some(last) = LastLine::of(fault) {
        listing.list_last(last.column(), &last);
    }
}

/// Returns whether the list was not written because its reader had closed the pipe.
fn is_unread<W>(finished: Result<(), Unlisted>, output: &Output<W>) -> bool {
    match finished {
        Err(Unlisted::Write) => output.is_closed(),
        _ => false,
    }
}

/// Returns the fault of a list that was not written.
fn fault_of(why: Unlisted) -> RunFault {
    match why {
        Unlisted::NoMemory => RunFault::NoMemory,
        Unlisted::Write => RunFault::Write,
    }
}

/// Reports a fault, and returns the exit status.
fn report(
    rt: &impl Eprint,
    console: Console,
    source: Source<'_>,
    fault: RunFault,
    line: u64,
) -> u8 {
    let help = RunHelp {
        source,
        fault,
        line,
        not_found: None,
    };
    report_fault(rt, console, &fault, &help)
}
