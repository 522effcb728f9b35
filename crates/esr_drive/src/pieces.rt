//! The lines of the blocks, which threads make block by block: this is a quarter of the work of a drive, the blocks
//! are independent, and the threads of the sessions have ended by then.

ghost use Rattle.std.specs.Prelude.{◌≡◌, ◌<◌, [], ◌++◌, IfOk, OnOk, length, map, slice_index_or};
ghost use Rattle.esr_plan.specs.Calls.{AreAnswered, all_answers};
ghost use Rattle.esr_plan.specs.Text.{block_text, blocks_text};
ghost use Rattle.esr_plan.specs.Tables.{names_in};
ghost use Rattle.esr_drive.specs.Pieces.{ArePieces};

use crate::parts::TextParts;
use esr_history::Reply;
use esr_plan::{BegunNames, Call, block_text};
use std::alloc::{AllocError, Global};
use std::thread;
use std::thread::Threads;

/// Returns the lines of the block at a place.
fn piece_at(
    alloc: Global,
    names: &BegunNames<'_>,
    blocks: &[Vec<Call<'_>>],
    replies: &[Vec<Reply>],
    i: usize,
) -> Result<Vec<u8>, AllocError>
    requires answered { AreAnswered (map (λ b. b.items) blocks.now) (map (λ r. r.items) replies.now) }
    requires within { i < length blocks.now }
    ensures { IfOk result (λ text. text.items ≡ block_text (names_in names.now) i
        (slice_index_or (all_answers (map (λ b. b.items) blocks.now) (map (λ r. r.items) replies.now)) i [])) }
{
    block_text(
        alloc,
        names,
        i as u64,
        blocks[i].as_slice(),
        replies[i].as_slice(),
    )
}

/// Returns the lines of each block.
fn pieces_of<R: Threads + Sync>(
    rt: &R,
    alloc: Global,
    names: &BegunNames<'_>,
    blocks: &[Vec<Call<'_>>],
    replies: &[Vec<Reply>],
) -> Result<Vec<Result<Vec<u8>, AllocError>>, AllocError>
    requires { AreAnswered (map (λ b. b.items) blocks.now) (map (λ r. r.items) replies.now) }
    ensures { IfOk result (λ texts. ArePieces (names_in names.now)
        (all_answers (map (λ b. b.items) blocks.now) (map (λ r. r.items) replies.now)) texts.items) }
{
    let texts = thread::map_indices(
        rt,
        alloc,
        blocks.len(),
        &|i: usize| -> Result<Vec<u8>, AllocError>
            requires { (i < length blocks.now)
                × AreAnswered (map (λ b. b.items) blocks.now) (map (λ r. r.items) replies.now) }
            ensures { IfOk result (λ text. text.items ≡ block_text (names_in names.entry.now) i
                (slice_index_or (all_answers (map (λ b. b.items) blocks.entry.now)
                (map (λ r. r.items) replies.entry.now)) i [])) }
        { piece_at(alloc, names, blocks, replies, i) },
    )?;
    Ok(texts)
}

/// Appends the lines of the blocks, a part for each block.
pub fn push_blocks<R: Threads + Sync>(
    rt: &R,
    alloc: Global,
    text: &mut TextParts,
    names: &BegunNames<'_>,
    blocks: &[Vec<Call<'_>>],
    replies: &[Vec<Reply>],
) -> Result<(), AllocError>
    requires { AreAnswered (map (λ b. b.items) blocks.now) (map (λ r. r.items) replies.now) }
    ensures { OnOk result (text.new ≡ text.old ++ blocks_text (names_in names.now) 0
        (all_answers (map (λ b. b.items) blocks.now) (map (λ r. r.items) replies.now))) }
{
    let pieces = pieces_of(rt, alloc, names, blocks, replies)?;
    for piece in pieces {
        match piece {
            Ok(lines) => text.push(lines)?,
            Err(AllocError) => return Err(AllocError),
        }
    }
    Ok(())
}
