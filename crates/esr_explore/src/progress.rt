//! The progress of a block: the replies to its lines, and how often they were blocked.

ghost use Rattle.std.specs.Prelude.{◌≡◌, OnOk};
ghost use Rattle.esr_explore.specs.Turns.{no_progress, is_blocked, with_reply};

use esr_history::Reply;
use std::alloc::{AllocError, Global};
use std::marker::Model;

/// The maximum number of tries of a line.
const MAX_TRIES: u32 = 100;

/// The progress of a block: the final reply to each line executed so far, the number of tries of the next line, and the
/// number of times that a line was blocked.
#[derive(Drop)]
pub struct BlockProgress {
    replies: Vec<Reply>,
    tries: u32,
    blocked: u64,
}

impl Model for BlockProgress {
    ghost use Rattle.esr_explore.specs.Turns.{BlockProgressView};

    ghost Value = { BlockProgressView };

    ghost view = { λ r. record { replies = r.replies.items; tries = r.tries; blocked = r.blocked } };
}

/// Returns whether a line was refused because of a lock or a limit of a transaction.
pub fn is_blocked(reply: Reply) -> bool
    ensures { result ≡ is_blocked reply }
{
    match reply {
        Reply::Refused(why) => why.blocker().is_some(),
        _ => false,
    }
}

impl BlockProgress {
    /// Returns the progress of a block before its first line.
    pub fn new(alloc: Global) -> BlockProgress
        ensures { result ≡ no_progress }
    {
        BlockProgress {
            replies: Vec::new(alloc),
            tries: 0,
            blocked: 0,
        }
    }

    /// Returns the final reply to each line executed so far.
    pub fn replies(&self) -> &[Reply]
        ensures { result.now ≡ self.now.replies }
    {
        self.replies.as_slice()
    }

    /// Returns the number of times that a line was blocked.
    pub fn blocked_count(&self) -> u64
        ensures { result ≡ self.now.blocked }
    {
        self.blocked
    }

    /// Returns the replies, and drops the rest.
    pub fn into_replies(self) -> Vec<Reply>
        ensures { result.items ≡ self.replies }
    {
        let BlockProgress {
            replies,
            tries: _,
            blocked: _,
        } = self;
        replies
    }

    /// Adds a reply to the next line. A blocked line is tried again while tries remain; otherwise the reply is final, and the
    /// block continues with the line after it.
    pub fn add_reply(&mut self, reply: Reply) -> Result<(), AllocError>
        ensures { OnOk result (self.new ≡ with_reply reply self.old) }
    {
        let blocked = is_blocked(reply);
        if blocked {
            self.blocked = self.blocked.saturating_add(1);
        }
        if blocked && self.tries < MAX_TRIES - 1 {
            self.tries += 1;
            return Ok(());
        }
        self.tries = 0;
        self.replies.push(reply)?;
        Ok(())
    }
}
