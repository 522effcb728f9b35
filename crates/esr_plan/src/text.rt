//! The text of a drive, part by part: items, blocks, the findings of queries. The text of a block is a separate
//! piece, since threads make them.

ghost use Rattle.esr_base.specs.declared.limits.TheConstants.{MAX_ITEMS};
ghost use Rattle.std.specs.Prelude.{◌≡◌, ◌<◌, ◌≤◌, slice_index_or, ◌++◌, [], IfOk, OnOk, length, map, flat_map};
ghost use Rattle.esr_audit.specs.Findings.{seen_summary};
ghost use Rattle.esr_report.specs.Lines.{reply_line};
ghost use Rattle.esr_plan.specs.Calls.{command_of, answers_of};
ghost use Rattle.esr_plan.specs.Text.{item_text, items_text, subject_of, replies_text, block_text, finding_text};
ghost use Rattle.esr_plan.specs.Tables.{names_in};

use crate::call::Call;
use crate::table::BegunNames;
use esr_audit::Summary;
use esr_history::Reply;
use esr_report::{
    Names, audit_line, item_line, name_of_transaction, reply_line, session_line, weighted_item_line,
};
use std::alloc::{AllocError, Global};

/// The capacity that is reserved for the line of a reply, in bytes. Of the lines in `bench/drive`, 99 of 100 have at most 29.
const LINE_BYTES: usize = 32;

/// Returns the name at a place.
fn name_at(names: &Names, place: usize) -> &str
    requires { place < MAX_ITEMS }
    ensures { result.now ≡ slice_index_or names.now place [] }
{
    match names.name_of(place as u32) {
        Some(name) => name,
        None => "",
    }
}

/// Appends the line of an item, with its weight if it has one.
fn push_item(
    out: &mut Vec<u8>,
    name: &str,
    value: i64,
    weight: Option<u32>,
) -> Result<(), AllocError>
    ensures { OnOk result (out.new.items ≡ out.old.items ++ item_text name.now value weight) }
{
    match weight {
        None => item_line(out, name, value),
        Some(weight) => weighted_item_line(out, name, value, u64::from(weight)),
    }
}

/// Appends the lines of the items.
#[tactic(auto, using(crate::proofs::Rendered::items_text_all))]
pub fn push_items(
    out: &mut Vec<u8>,
    names: &Names,
    values: &[i64],
    weights: &[Option<u32>],
) -> Result<(), AllocError>
    requires len { length names.now ≤ MAX_ITEMS }
    requires values { length values.now ≡ length names.now }
    requires weights { length weights.now ≡ length names.now }
    ensures { OnOk result (out.new.items ≡ out.old.items ++ items_text names.now values.now weights.now) }
{
    for i in 0..values.len() {
        push_item(out, name_at(names, i), values[i], weights[i])?;
    }
    Ok(())
}

/// Appends the line of the last reply to a call.
fn push_reply(
    out: &mut Vec<u8>,
    names: &BegunNames<'_>,
    call: &Call<'_>,
    reply: &Reply,
) -> Result<(), AllocError>
    ensures { OnOk result (out.new.items ≡ out.old.items
        ++ reply_line (names_in names.now) (subject_of (command_of call.now)) reply.now) }
{
    reply_line(out, names, call.subject(), *reply)
}

/// Appends the lines of the last replies to the calls of a block.
fn push_replies(
    out: &mut Vec<u8>,
    names: &BegunNames<'_>,
    calls: &[Call<'_>],
    replies: &[Reply],
) -> Result<(), AllocError>
    requires { length replies.now ≡ length calls.now }
    ensures { OnOk result (out.new.items ≡ out.old.items
        ++ replies_text (names_in names.now) (answers_of calls.now replies.now)) }
{
    for i in 0..calls.len() {
        push_reply(out, names, &calls[i], &replies[i])?;
    }
    Ok(())
}

/// Returns the lines of the block with this number.
pub fn block_text(
    alloc: Global,
    names: &BegunNames<'_>,
    number: u64,
    calls: &[Call<'_>],
    replies: &[Reply],
) -> Result<Vec<u8>, AllocError>
    requires { length replies.now ≡ length calls.now }
    ensures { IfOk result (λ text. text.items
        ≡ block_text (names_in names.now) number (answers_of calls.now replies.now)) }
{
    let mut text = Vec::with_capacity(alloc, calls.len().saturating_mul(LINE_BYTES))?;
    session_line(&mut text, number)?;
    push_replies(&mut text, names, calls, replies)?;
    Ok(text)
}

/// Appends the line of a query's summary.
fn push_summary(
    out: &mut Vec<u8>,
    names: &BegunNames<'_>,
    summary: &Summary,
) -> Result<(), AllocError>
    ensures { OnOk result (out.new.items ≡ out.old.items ++ finding_text (names_in names.now) (seen_summary summary.now)) }
{
    let before = summary.before.to_vec(*out.allocator())?;
    audit_line(
        out,
        names,
        name_of_transaction(names, summary.query),
        summary.distance,
        summary.import,
        &before,
    )
}

/// Appends the lines of the queries' summaries.
#[tactic(auto, using(crate::proofs::Rendered::lines_more))]
pub fn push_summaries(
    out: &mut Vec<u8>,
    names: &BegunNames<'_>,
    summaries: &[Summary],
) -> Result<(), AllocError>
    ensures { OnOk result (out.new.items ≡ out.old.items
        ++ flat_map (finding_text (names_in names.now)) (map seen_summary summaries.now)) }
{
    for summary in summaries {
        push_summary(out, names, summary)?;
    }
    Ok(())
}
