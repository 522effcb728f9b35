//! The queries that a plan begins, in the order of the file.

ghost use Rattle.std.specs.Prelude.{◌≡◌, ◌++◌, ◌∷◌, [], IfOk, OnOk, map, option_map};
ghost use Rattle.std.specs.List.{filter_map};
ghost use Rattle.esr_explore.specs.Queries.{all_queries, begun_query, queries_in, query_at, query_name};

use esr_history::TxnKind;
use esr_plan::Call;
use std::alloc::{AllocError, Global};

/// A query of a plan: its name, its block, and the index of its begin among the calls of the block.
#[derive(Clone, Copy)]
pub struct Query<'a> {
    pub name: &'a str,
    pub block: usize,
    pub index: usize,
}

/// Returns the name of the query that a call begins, if it begins one.
fn query_name<'a>(call: &Call<'a>) -> Option<&'a str>
    ensures { option_map (λ name. name.now) result ≡ query_name call.now }
{
    match call {
        Call::Begin {
            name,
            kind: TxnKind::Query | TxnKind::StrictQuery,
            ..
        } => Some(name),
        _ => None,
    }
}

/// Appends the query that the call at an index of a block begins, if it begins one.
#[tactic(auto, using(crate::proofs::Begun::none_begun, crate::proofs::Begun::one_begun))]
fn push_begun<'a>(
    out: &mut Vec<Query<'a>>,
    block: usize,
    index: usize,
    call: &Call<'a>,
) -> Result<(), AllocError>
    ensures { OnOk result (map begun_query out.new.items
        ≡ map begun_query out.old.items ++ filter_map (query_at block) ((index, call.now) ∷ [])) }
{
    let Some(name) = query_name(call) else {
        return Ok(());
    };
    out.push(Query { name, block, index })?;
    Ok(())
}

/// Appends the queries that the calls of a block begin.
fn push_queries<'a>(
    out: &mut Vec<Query<'a>>,
    block: usize,
    calls: &[Call<'a>],
) -> Result<(), AllocError>
    ensures { OnOk result (map begun_query out.new.items
        ≡ map begun_query out.old.items ++ queries_in block calls.now) }
{
    for index in 0..calls.len() {
        push_begun(out, block, index, &calls[index])?;
    }
    Ok(())
}

/// Returns the queries that the blocks begin, in the order of the file.
pub fn queries_of<'a>(alloc: Global, blocks: &[Vec<Call<'a>>]) -> Result<Vec<Query<'a>>, AllocError>
    ensures { IfOk result (λ queries. map begun_query queries.items
        ≡ all_queries (map (λ b. b.items) blocks.now)) }
{
    let mut queries = Vec::new(alloc);
    for block in 0..blocks.len() {
        push_queries(&mut queries, block, blocks[block].as_slice())?;
    }
    Ok(queries)
}
