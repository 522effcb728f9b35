//! The name with which each transaction of a history began. The table is filled from the last line to the first, so
//! that the first line of a number decides, as in the definition; so it needs no proof that the numbers of lines are
//! distinct.

ghost use Rattle.std.specs.Prelude.{◌≡◌, IfOk, length, map};
ghost use Rattle.esr_plan.specs.Calls.{answers_of, AreAnswered, all_answers};
ghost use Rattle.esr_plan.specs.Text.{names_of};
ghost use Rattle.esr_plan.specs.Tables.{answered, names_in, with_begun, noted};

use crate::call::{Call, number_in};
use esr_history::{History, Reply};
use esr_items::Weighted;
use esr_report::NamesByPosition;
use std::alloc::{AllocError, Global};

/// The names that transactions began by, in the order of their numbers.
#[derive(Drop)]
pub struct BegunNames<'a> {
    pub names: Vec<&'a str>,
}

impl<'a> NamesByPosition for BegunNames<'a> {
    ghost names = { names_in };

    fn name_at(&self, position: u32) -> Option<&str> {
        self.names.get(position as usize).copied()
    }
}

impl<'a> BegunNames<'a> {
    /// Takes down the name of a line that began a transaction.
    #[tactic(auto, using(crate::proofs::Noting::note_is, crate::proofs::Noting::unwrap_now))]
    fn note(&mut self, call: &Call<'a>, reply: Reply)
        ensures { names_in self.new ≡ with_begun (answered call.now reply) (names_in self.old) }
    {
        let Some(number) = number_in(reply) else {
            return;
        };
        let Some(place) = (number as usize).checked_sub(1) else {
            return;
        };
        if place < self.names.len() {
            self.names[place] = call.new_name().unwrap_or("");
        }
    }

    /// Takes down the names of a block, the last line first.
    fn note_block(&mut self, calls: &[Call<'a>], replies: &[Reply])
        requires { length replies.now ≡ length calls.now }
        ensures { names_in self.new ≡ noted (answers_of calls.now replies.now) (names_in self.old) }
    {
        let mut i = calls.len();
        while i > 0 {
            i -= 1;
            self.note(&calls[i], replies[i]);
        }
    }
}

/// Returns the names with which the transactions of a history began, in the blocks with these replies.
pub fn begun_names<'a>(
    alloc: Global,
    history: &History<Weighted>,
    blocks: &[Vec<Call<'a>>],
    replies: &[Vec<Reply>],
) -> Result<BegunNames<'a>, AllocError>
    requires { AreAnswered (map (λ b. b.items) blocks.now) (map (λ r. r.items) replies.now) }
    ensures { IfOk result (λ table. names_in table
        ≡ names_of history.now.schedule (all_answers (map (λ b. b.items) blocks.now)
        (map (λ r. r.items) replies.now))) }
{
    let mut table = BegunNames {
        names: vec![in alloc; ""; history.begun_count()]?,
    };
    let mut i = blocks.len();
    while i > 0 {
        i -= 1;
        table.note_block(blocks[i].as_slice(), replies[i].as_slice());
    }
    Ok(table)
}
