//! The text about many runs: how many there were, a line for each block, and one for each query.

ghost use Rattle.std.specs.Prelude.{◌≡◌, ◌++◌, OnOk, flat_map, map};
ghost use Rattle.std.specs.List.{enumerate_from, range_with_len};
ghost use Rattle.esr_explore.specs.Queries.{begun_query};
ghost use Rattle.esr_explore.specs.Report.{block_line, count_text, heading, query_line, max_and_median_text, total_text};

use crate::query::Query;
use crate::run_summary::RunSummary;
use crate::summary::{Column, column_values, max_and_median, runs_given_up};
use std::alloc::{AllocError, Global};

/// Appends a text.
fn push_text(out: &mut Vec<u8>, text: &str) -> Result<(), AllocError>
    ensures { OnOk result (out.new.items ≡ out.old.items ++ text.now) }
{
    out.extend_from_slice(text.as_bytes())
}

/// Appends a word and a number.
fn push_count(out: &mut Vec<u8>, word: &str, count: u64) -> Result<(), AllocError>
    ensures { OnOk result (out.new.items ≡ out.old.items ++ count_text word.now count) }
{
    let mut digits = itoa::Buffer::new();
    push_text(out, word)?;
    push_text(out, digits.format(count))?;
    Ok(())
}

/// Appends a word, and the maximum and the median of some numbers, 0 if there are none.
fn push_max_and_median(out: &mut Vec<u8>, word: &str, numbers: Vec<u64>) -> Result<(), AllocError>
    ensures { OnOk result (out.new.items ≡ out.old.items ++ max_and_median_text word.now numbers.items) }
{
    let found = max_and_median(numbers)?;
    push_text(out, word)?;
    push_count(out, " max ", found.maximum)?;
    push_count(out, " median ", found.median)?;
    Ok(())
}

/// Appends how many interleavings there are, if that is at most 10^18.
fn push_total(out: &mut Vec<u8>, total: Option<u64>) -> Result<(), AllocError>
    ensures { OnOk result (out.new.items ≡ out.old.items ++ total_text total) }
{
    match total {
        Some(total) => push_count(out, " of ", total),
        None => push_text(out, " of more than 1000000000000000000"),
    }
}

/// Appends the first line: how many runs there were, and how many interleavings there are.
pub fn push_head(out: &mut Vec<u8>, runs: u64, total: Option<u64>) -> Result<(), AllocError>
    ensures { OnOk result (out.new.items ≡ out.old.items ++ heading runs total) }
{
    push_count(out, "interleavings ", runs)?;
    push_total(out, total)?;
    push_text(out, "\n")?;
    Ok(())
}

/// Appends the line of a block: how often its lines were blocked, and in how many runs one was given up.
fn push_block(
    alloc: Global,
    out: &mut Vec<u8>,
    summaries: &[RunSummary],
    block: usize,
) -> Result<(), AllocError>
    ensures { OnOk result (out.new.items ≡ out.old.items ++ block_line summaries.now block) }
{
    let blocked = column_values(alloc, summaries, Column::Blocked(block))?;
    push_count(out, "session ", block as u64)?;
    push_max_and_median(out, " blocked", blocked)?;
    push_count(out, " gave up ", runs_given_up(summaries, block))?;
    push_text(out, "\n")?;
    Ok(())
}

/// Appends the lines of the first `blocks` blocks.
pub fn push_blocks(
    alloc: Global,
    out: &mut Vec<u8>,
    summaries: &[RunSummary],
    blocks: usize,
) -> Result<(), AllocError>
    ensures { OnOk result (out.new.items
        ≡ out.old.items ++ flat_map (block_line summaries.now) (range_with_len 0 blocks)) }
{
    for block in 0..blocks {
        push_block(alloc, out, summaries, block)?;
    }
    Ok(())
}

/// Appends the line of a query: in how many runs it committed, and its import and its distance in these.
fn push_query(
    alloc: Global,
    out: &mut Vec<u8>,
    summaries: &[RunSummary],
    index: usize,
    query: Query<'_>,
) -> Result<(), AllocError>
    ensures { OnOk result (out.new.items
        ≡ out.old.items ++ query_line summaries.now (index, begun_query query.entry)) }
{
    let imports = column_values(alloc, summaries, Column::Import(index))?;
    let distances = column_values(alloc, summaries, Column::Distance(index))?;
    push_text(out, "query ")?;
    push_text(out, query.name)?;
    push_count(out, " committed ", imports.len() as u64)?;
    push_max_and_median(out, " import", imports)?;
    push_max_and_median(out, " distance", distances)?;
    push_text(out, "\n")?;
    Ok(())
}

/// Appends the lines of the queries.
pub fn push_queries(
    alloc: Global,
    out: &mut Vec<u8>,
    summaries: &[RunSummary],
    queries: &[Query<'_>],
) -> Result<(), AllocError>
    ensures { OnOk result (out.new.items ≡ out.old.items
        ++ flat_map (query_line summaries.now) (enumerate_from 0 (map begun_query queries.now))) }
{
    for index in 0..queries.len() {
        push_query(alloc, out, summaries, index, queries[index])?;
    }
    Ok(())
}
