//! Measures the certificate check, the solver, reading and writing of bundles, and sessions. The inputs are bundles
//! that `bench/problems` writes, so this program contains no generators that would need a proof.
#![tactic(auto)]

mod agreement;
mod draws;
mod sessions;

use anyhow::{Result, anyhow};
use esr_bundle::{from_json, to_json};
use esr_cert::{Certificate, Problem, check};
use esr_flow::{Network, Solved, find_from_draft, solve};
use std::alloc::Global;
use std::io::Read;
use std::rt::Clock;
use std::sync::Wait;
use std::thread::Threads;
use std::time::Instant;

const USAGE: &str =
    "usage: esr_bench check ROUNDS | solve | audit | bundle, each with a bundle on standard input | agree COUNT | sessions COUNT";

/// The measurements of a bundle.
#[derive(Clone, Copy)]
enum Measured {
    /// Checks of its certificate, this many.
    Check(u32),
    /// Solving its problem from scratch.
    Solve,
    /// Solving its problem as audits do, from a draft of a flow.
    Audit,
    /// Reading, checking and writing all of it.
    Whole,
}

fn main(rt: HostRuntime) -> Result<()> {
    let alloc = rt.alloc();
    let mut owned = Vec::new(alloc);
    for word in std::env::args(&rt)?.skip(1) {
        owned.push(word)?;
    }
    measure(&rt, alloc, &owned)
}

/// Runs the measurement that the arguments request.
fn measure<R: Input + Print + Eprint + Clock + Threads + Wait + Sync>(
    rt: &R,
    alloc: Global,
    owned: &[String],
) -> Result<()> {
    let mut words = Vec::new(alloc);
    for word in owned {
        words.push(word.as_str())?;
    }
    measure_words(rt, alloc, &words)
}

fn measure_words<R: Input + Print + Eprint + Clock + Threads + Wait + Sync>(
    rt: &R,
    alloc: Global,
    words: &[&str],
) -> Result<()> {
    match words {
        ["check", rounds] => measure_bundle(rt, alloc, Measured::Check(rounds.parse()?)),
        ["solve"] => measure_bundle(rt, alloc, Measured::Solve),
        ["audit"] => measure_bundle(rt, alloc, Measured::Audit),
        ["agree", problems] => agreement::compare(rt, alloc, problems.parse()?),
        ["bundle"] => measure_bundle(rt, alloc, Measured::Whole),
        ["sessions", transactions] => sessions::measure(rt, alloc, transactions.parse()?),
        _ => Err(anyhow!("{USAGE}")),
    }
}

/// Reads the bundle on standard input, and runs the requested measurement.
fn measure_bundle(
    rt: &(impl Input + Print + Eprint + Clock),
    alloc: Global,
    measured: Measured,
) -> Result<()> {
    let mut input = Vec::new(alloc);
    rt.reader().read_to_end(&mut input)?;
    let start = Instant::now(rt)?;
    match from_json(alloc, &input) {
        Ok((problem, certificate)) => {
            let read = start.elapsed(rt)?.as_millis();
            match measured {
                Measured::Check(rounds) => check_often(rt, &problem, &certificate, rounds),
                Measured::Solve => solve_once(rt, alloc, &problem),
                Measured::Audit => audit_once(rt, alloc, &problem),
                Measured::Whole => measure_whole(rt, alloc, &input, &problem, &certificate, read),
            }
        }
        Err(fault) => Err(anyhow!("no bundle: {fault:?}")),
    }
}

/// Returns the number of arcs in the network of a problem.
fn arc_count(problem: &Problem) -> usize {
    let mut count = problem.before().len().saturating_add(problem.must().len());
    for chain in problem.chains() {
        count = count.saturating_add(chain.costs.len());
    }
    count
}

/// Checks a certificate `rounds` times, and reports the time of one check.
fn check_often(
    rt: &(impl Print + Eprint + Clock),
    problem: &Problem,
    certificate: &Certificate,
    rounds: u32,
) -> Result<()> {
    if rounds == 0 {
        return Err(anyhow!("{USAGE}"));
    }
    let start = Instant::now(rt)?;
    let mut valid = true;
    for _ in 0..rounds {
        valid = valid && check(problem, certificate).is_ok();
    }
    let each = start.elapsed(rt)?.as_micros() / u128::from(rounds);
    let updates = problem.updates().len();
    let arcs = arc_count(problem);
    println!(rt; "updates {updates} arcs {arcs} valid {valid}")?;
    eprintln!(rt; "microseconds {each}")?;
    Ok(())
}

/// Solves the problem, and prints the result and the time.
fn solve_once(rt: &(impl Print + Eprint + Clock), alloc: Global, problem: &Problem) -> Result<()> {
    let start = Instant::now(rt)?;
    match Network::build(alloc, problem) {
        Ok(network) => solve_network(rt, alloc, &network, start),
        Err(_) => Err(anyhow!("out of memory")),
    }
}

/// Solves a network that was built since that time.
fn solve_network(
    rt: &(impl Print + Eprint + Clock),
    alloc: Global,
    network: &Network,
    start: Instant,
) -> Result<()> {
    let built = start.elapsed(rt)?.as_millis();
    match solve(alloc, network) {
        Ok(solved) => print_solved(rt, &solved, start, built),
        Err(_) => Err(anyhow!("out of memory")),
    }
}

/// Finds a certificate of the problem from a draft of a flow, and prints the outcome of the draft and the time.
fn audit_once(rt: &(impl Print + Eprint + Clock), alloc: Global, problem: &Problem) -> Result<()> {
    let start = Instant::now(rt)?;
    let Ok(network) = Network::build(alloc, problem) else {
        return Err(anyhow!("out of memory"));
    };
    let Ok(found) = find_from_draft(alloc, &network) else {
        return Err(anyhow!("out of memory"));
    };
    let taken = start.elapsed(rt)?.as_micros();
    let worth = found.certificate.worth;
    let draft = found.draft;
    println!(rt; "worth {worth} draft {draft:?}")?;
    eprintln!(rt; "microseconds {taken}")?;
    Ok(())
}

fn print_solved(
    rt: &(impl Print + Eprint + Clock),
    solved: &Solved,
    start: Instant,
    built: u128,
) -> Result<()> {
    let done = start.elapsed(rt)?.as_millis();
    let worth = solved.certificate.worth;
    let augmentations = solved.augmentations;
    let phases = solved.phases;
    println!(rt; "worth {worth} augmentations {augmentations} phases {phases}")?;
    eprintln!(rt; "build {built} ms, build and solve {done} ms")?;
    Ok(())
}

/// Checks a bundle that was read in `read` milliseconds, writes it, and reports whether the bytes are the same.
fn measure_whole(
    rt: &(impl Print + Eprint + Clock),
    alloc: Global,
    input: &[u8],
    problem: &Problem,
    certificate: &Certificate,
    read: u128,
) -> Result<()> {
    let start = Instant::now(rt)?;
    let valid = check(problem, certificate).is_ok();
    let checked = start.elapsed(rt)?.as_millis();
    let (same, written) = measure_writing(rt, alloc, input, problem, certificate)?;
    println!(rt; "valid {valid} same {same}")?;
    eprintln!(rt; "read {read} ms, check {checked} ms, write {written} ms")?;
    Ok(())
}

/// Returns whether the bytes written are the same, and the time in milliseconds.
fn measure_writing(
    rt: &impl Clock,
    alloc: Global,
    input: &[u8],
    problem: &Problem,
    certificate: &Certificate,
) -> Result<(bool, u128)> {
    let start = Instant::now(rt)?;
    let Ok(text) = to_json(alloc, problem, certificate) else {
        return Err(anyhow!("out of memory"));
    };
    let written = start.elapsed(rt)?.as_millis();
    Ok((text.as_slice() == input, written))
}
