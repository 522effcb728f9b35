//! From a drive file to the text about its runs.

ghost use Rattle.std.specs.Prelude.{◌≡◌, ◌≤◌, ◌++◌, ◌∷◌, [], ℕ, List, None, Option, false, IfOk, IfSome, OnOk, Some, length, map, sum};
ghost use Rattle.std.specs.List.{Contains};
ghost use Rattle.esr_base.specs.declared.limits.TheConstants.{MAX_ENTRIES};
ghost use Rattle.esr_dump.specs.RoundTrip.{IsDump};
ghost use Rattle.esr_plan.specs.declared.draft.TheConstants.{MAX_BLOCKS};
ghost use Rattle.esr_plan.specs.Plan.{weights_of};
ghost use Rattle.esr_explore.specs.Orders.{IsOrder, first_turns};
ghost use Rattle.esr_explore.specs.declared.run_summary.RunSummary.{RunSummary};
ghost use Rattle.esr_explore.specs.Queries.{begun_query};
ghost use Rattle.esr_explore.specs.Report.{report_text};
ghost use Rattle.esr_explore.specs.Searches.{AreDrawn, AreRunSummaries, all_orders, drawn_of, line_counts, orders_of};
ghost use Rattle.esr_explore.specs.Summaries.{IsSummary};
ghost use Rattle.esr_explore.specs.Turns.{AreDone};
ghost use Rattle.esr_base.specs.Watch.{failed};
ghost use Rattle.esr_plan.specs.DrivePlans.{IsSound};

use crate::count::count_orders;
use crate::draws::draw_order;
use crate::measure::Measure;
use crate::progress::BlockProgress;
use crate::query::{Query, queries_of};
use crate::report::{push_blocks, push_head, push_queries};
use crate::run::{Run, run_interleaving};
use crate::run_summary::{RunSummary, summarize};
use crate::summary::worst_run;
use crate::ways::{ExploreFault, Ways, all_ways, line_counts};
use esr_dump::script_with_names;
use esr_history::{Reply, Watched};
use esr_plan::{DriveFault, DrivePlan, begun_names, drive_plan_of, read_all};
use std::alloc::{AllocError, Global};
use std::io::{Read, Write};

/// A search: its orders, the run that is written, and how names are hashed.
#[derive(Clone, Copy)]
pub struct Search {
    /// The number of orders to draw, or `None` to run all orders.
    pub seeds: Option<u64>,
    /// The measure of the worst run, which is written as a script; `None` to write the summary.
    pub worst: Option<Measure>,
    /// The seed of the hashes of names.
    pub hash_seed: u64,
}

/// Reads a drive file to its end, runs its blocks on one thread in many orders, and writes the outcomes.
pub fn explore<I: Read, O: Write>(
    alloc: Global,
    reader: &mut Watched<I>,
    writer: &mut Watched<O>,
    search: Search,
) -> Result<(), ExploreFault>
    requires reader { failed reader.old ≡ false }
    requires writer { failed writer.old ≡ false }
{
    let bytes = match read_all(alloc, reader) {
        Ok(bytes) => bytes,
        Err(fault) => return Err(ExploreFault::Drive(fault)),
    };
    let drive_plan = match drive_plan_of(alloc, &bytes, search.hash_seed) {
        Ok(drive_plan) => drive_plan,
        Err(fault) => return Err(ExploreFault::Drive(fault)),
    };
    let out = text_of(alloc, &drive_plan, search)?;
    match writer.send_all(&out) {
        Ok(()) => Ok(()),
        Err(_) => Err(ExploreFault::Drive(DriveFault::Write)),
    }
}

/// Returns the orders to run.
fn ways_of(alloc: Global, counts: &[u32], seeds: Option<u64>) -> Result<Ways, ExploreFault>
    requires { length counts.now ≤ MAX_BLOCKS }
    ensures all { seeds ≡ None → IfOk result (λ ways. orders_of ways ≡ Some (first_turns counts.now (sum counts.now))) }
    ensures drawn { IfSome seeds (λ n. IfOk result (λ ways. drawn_of ways ≡ Some n)) }
{
    match seeds {
        Some(seeds) => Ok(Ways::Drawn { seeds }),
        None => all_ways(alloc, counts),
    }
}

/// Summarizes the run with an order.
fn summary_of(
    alloc: Global,
    drive_plan: &DrivePlan<'_>,
    queries: &[Query<'_>],
    order: &[u8],
) -> Result<RunSummary, ExploreFault>
    requires { IsSound drive_plan.now }
    ensures { IfOk result (λ run_summary. IsSummary drive_plan.now.values.items (weights_of drive_plan.now.weights.items)
        (map (λ b. b.items) drive_plan.now.blocks.items) queries.now order.now run_summary) }
{
    let run = run_interleaving(alloc, drive_plan, order)?;
    let run_summary = summarize(alloc, &run, queries)?;
    Ok(run_summary)
}

/// Appends the summary of one more run.
fn push_summary(
    summaries: &mut Vec<RunSummary>,
    run_summary: RunSummary,
) -> Result<(), ExploreFault>
    ensures { OnOk result (summaries.new.items ≡ summaries.old.items ++ run_summary ∷ []) }
{
    match summaries.push(run_summary) {
        Ok(()) => Ok(()),
        Err(_) => Err(ExploreFault::Drive(DriveFault::NoMemory)),
    }
}

/// Summarizes the run with each of these orders.
fn summaries_of(
    alloc: Global,
    drive_plan: &DrivePlan<'_>,
    queries: &[Query<'_>],
    orders: &[Vec<u8>],
) -> Result<Vec<RunSummary>, ExploreFault>
    requires { IsSound drive_plan.now }
    ensures { IfOk result (λ summaries. AreRunSummaries drive_plan.now.values.items (weights_of drive_plan.now.weights.items)
        (map (λ b. b.items) drive_plan.now.blocks.items) queries.now (map (λ o. o.items) orders.now) summaries.items) }
{
    let mut summaries = Vec::new(alloc);
    for order in orders {
        let run_summary = summary_of(alloc, drive_plan, queries, order)?;
        push_summary(&mut summaries, run_summary)?;
    }
    Ok(summaries)
}

/// Summarizes the run with each order that these seeds draw.
fn drawn_summaries(
    alloc: Global,
    drive_plan: &DrivePlan<'_>,
    queries: &[Query<'_>],
    counts: &[u32],
    seeds: u64,
) -> Result<Vec<RunSummary>, ExploreFault>
    requires sound { IsSound drive_plan.now }
    requires count_within_max { length counts.now ≤ MAX_BLOCKS }
    ensures { IfOk result (λ summaries. AreDrawn drive_plan.now.values.items (weights_of drive_plan.now.weights.items)
        (map (λ b. b.items) drive_plan.now.blocks.items) queries.now counts.now seeds summaries.items) }
{
    let mut summaries = Vec::new(alloc);
    for seed in 0..seeds {
        let order = draw_order(alloc, counts, seed)?;
        let run_summary = summary_of(alloc, drive_plan, queries, &order)?;
        push_summary(&mut summaries, run_summary)?;
    }
    Ok(summaries)
}

/// Summarizes the run with each order of the search.
fn all_summaries(
    alloc: Global,
    drive_plan: &DrivePlan<'_>,
    queries: &[Query<'_>],
    ways: &Ways,
    counts: &[u32],
) -> Result<Vec<RunSummary>, ExploreFault>
    requires sound { IsSound drive_plan.now }
    requires count_within_max { length counts.now ≤ MAX_BLOCKS }
    ensures all { IfOk result (λ summaries. IfSome (orders_of ways.now) (λ orders. AreRunSummaries drive_plan.now.values.items
        (weights_of drive_plan.now.weights.items) (map (λ b. b.items) drive_plan.now.blocks.items) queries.now orders summaries.items)) }
    ensures drawn { IfOk result (λ summaries. IfSome (drawn_of ways.now) (λ n. AreDrawn drive_plan.now.values.items
        (weights_of drive_plan.now.weights.items) (map (λ b. b.items) drive_plan.now.blocks.items) queries.now counts.now n
        summaries.items)) }
{
    match ways {
        Ways::All(orders) => summaries_of(alloc, drive_plan, queries, orders.as_slice()),
        Ways::Drawn { seeds } => drawn_summaries(alloc, drive_plan, queries, counts, *seeds),
    }
}

/// The result of a search: its orders, and the summary of each run.
#[derive(Drop)]
struct SearchResult {
    ways: Ways,
    summaries: Vec<RunSummary>,
}

/// Runs all orders of the blocks, or a number of random ones. If all are run, none is left out; a random order is an order of
/// the blocks' lines too.
fn search_orders(
    alloc: Global,
    drive_plan: &DrivePlan<'_>,
    queries: &[Query<'_>],
    counts: &[u32],
    seeds: Option<u64>,
) -> Result<SearchResult, ExploreFault>
    requires sound { IsSound drive_plan.now }
    requires counts { counts.now ≡ line_counts (map (λ b. b.items) drive_plan.now.blocks.items) }
    ensures all { seeds ≡ None → IfOk result (λ found. AreRunSummaries drive_plan.now.values.items
        (weights_of drive_plan.now.weights.items) (map (λ b. b.items) drive_plan.now.blocks.items) queries.now
        (all_orders (map (λ b. b.items) drive_plan.now.blocks.items)) found.summaries.items) }
    ensures every { seeds ≡ None → IfOk result (λ found. (order : List ℕ) → IsOrder counts.now (sum counts.now) order
        → (run_summary : RunSummary) × (Contains found.summaries.items run_summary × IsSummary drive_plan.now.values.items
        (weights_of drive_plan.now.weights.items) (map (λ b. b.items) drive_plan.now.blocks.items) queries.now order run_summary)) }
    ensures drawn { IfSome seeds (λ n. IfOk result (λ found. AreDrawn drive_plan.now.values.items
        (weights_of drive_plan.now.weights.items) (map (λ b. b.items) drive_plan.now.blocks.items) queries.now counts.now n
        found.summaries.items)) }
{
    let ways = ways_of(alloc, counts, seeds)?;
    let summaries = all_summaries(alloc, drive_plan, queries, &ways, counts)?;
    Ok(SearchResult { ways, summaries })
}

/// Returns the text about the runs with these summaries.
fn report_of(
    alloc: Global,
    queries: &[Query<'_>],
    summaries: &[RunSummary],
    counts: &[u32],
) -> Result<Vec<u8>, AllocError>
    ensures { IfOk result (λ text. (total : Option ℕ)
        × (text.items ≡ report_text total (length counts.now) (map begun_query queries.now) summaries.now)) }
{
    let mut out = Vec::new(alloc);
    push_head(&mut out, summaries.len() as u64, count_orders(counts))?;
    push_blocks(alloc, &mut out, summaries, counts.len())?;
    push_queries(alloc, &mut out, summaries, queries)?;
    Ok(out)
}

/// Returns the replies of each block.
fn replies_of(
    alloc: Global,
    all_progress: Vec<BlockProgress>,
) -> Result<Vec<Vec<Reply>>, AllocError>
    ensures { IfOk result (λ replies. map (λ r. r.items) replies.items ≡ map (λ r. r.replies) all_progress.items) }
{
    let mut replies = Vec::new(alloc);
    for progress in all_progress {
        replies.push(progress.into_replies())?;
    }
    Ok(replies)
}

/// Returns the history of a run, as a script.
fn script_of(alloc: Global, drive_plan: &DrivePlan<'_>, run: Run) -> Result<Vec<u8>, AllocError>
    requires done { AreDone (map (λ b. b.items) drive_plan.now.blocks.items) run.all_progress.items }
    requires upper_bound { length run.history.schedule.entries ≤ MAX_ENTRIES }
    ensures { IfOk result (λ out. (names : List (List ℕ))
        × IsDump drive_plan.now.names names run.history.schedule out.items) }
{
    let Run {
        history,
        all_progress,
    } = run;
    let replies = replies_of(alloc, all_progress)?;
    let names = begun_names(
        alloc,
        &history,
        drive_plan.blocks.as_slice(),
        replies.as_slice(),
    )?;
    let text = script_with_names(alloc, &drive_plan.names, &names, &history)?;
    Ok(text)
}

/// Returns the output of the runs of a plan.
fn text_of(
    alloc: Global,
    drive_plan: &DrivePlan<'_>,
    search: Search,
) -> Result<Vec<u8>, ExploreFault>
    requires { IsSound drive_plan.now }
{
    let counts = line_counts(alloc, drive_plan.blocks.as_slice())?;
    let queries = queries_of(alloc, drive_plan.blocks.as_slice())?;
    let SearchResult { ways, summaries } = search_orders(
        alloc,
        drive_plan,
        &queries,
        &counts,
        search.seeds,
    )?;
    match search.worst {
        None => Ok(report_of(alloc, &queries, &summaries, &counts)?),
        Some(measure) => {
            let order = ways.order(alloc, &counts, worst_run(&summaries, measure))?;
            Ok(script_of(
                alloc,
                drive_plan,
                run_interleaving(alloc, drive_plan, &order)?,
            )?)
        }
    }
}
