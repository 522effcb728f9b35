//! The plan of a drive file: its items, its blocks, and for each transaction the name by which it may begin.

ghost use Rattle.std.specs.Prelude.{◌≡◌, ◌⊎◌, None, Ok, Err, IfOk, IfErr};
ghost use Rattle.esr_grammar.specs.Lines.{lines};
ghost use Rattle.esr_plan.specs.Plan.{plan_of, line_limit_fault};
ghost use Rattle.esr_plan.specs.Drafts as drafts;
ghost use Rattle.esr_plan.specs.DrivePlans.{plan_in, IsSound};

use crate::call::Call;
use crate::draft::{Draft, draft_of};
use crate::fault::DriveFault;
use esr_report::Names;
use std::alloc::{AllocError, Global};

/// The plan of a drive file.
#[derive(Drop)]
pub struct DrivePlan<'a> {
    pub names: Names,
    pub values: Vec<i64>,
    /// The given weights.
    pub weights: Vec<Option<u32>>,
    pub blocks: Vec<Vec<Call<'a>>>,
}

/// Completes the plan with its last block.
fn finish<'a>(draft: Draft<'a>) -> Result<DrivePlan<'a>, AllocError>
    requires { drafts.IsSound draft }
    ensures plan { IfOk result (λ s. plan_in s ≡ drafts.plan_in draft.entry) }
    ensures sound { IfOk result IsSound }
{
    let Draft {
        names,
        values,
        weights,
        done,
        current,
        begun: _,
        places: _,
        earlier: _,
    } = draft;
    let mut blocks = done;
    match current {
        None => {}
        Some(block) => blocks.push(block)?,
    }
    Ok(DrivePlan {
        names,
        values,
        weights,
        blocks,
    })
}

/// Parses the lines of the file into a plan, or returns the first line with a fault. Names are hashed from the seed.
pub fn drive_plan_of<'a>(
    alloc: Global,
    bytes: &'a [u8],
    hash_seed: u64,
) -> Result<DrivePlan<'a>, DriveFault>
    requires { line_limit_fault 0 (lines bytes.now) ≡ None }
    ensures plan { IfOk result (λ s. plan_of bytes.entry.now ≡ Ok (plan_in s)) }
    ensures sound { IfOk result IsSound }
    ensures err { IfErr result (λ e. (e ≡ DriveFault.NoMemory) ⊎ (plan_of bytes.entry.now ≡ Err e)) }
{
    let drive_plan = finish(draft_of(alloc, bytes, hash_seed)?)?;
    Ok(drive_plan)
}
