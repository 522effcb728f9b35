//! Bytes that were read and not yet used, in one buffer that never grows: a line has at most 200 bytes, so a buffer
//! of 65,536 bytes always has capacity for one more read.

ghost use Rattle.esr_grammar.specs.declared.limits.TheConstants.{MAX_LINE_BYTES, INPUT_ROOM};
ghost use Rattle.std.specs.Prelude.{◌≡◌, ℕ, ◌<◌, ◌≤◌, List, [], ◌++◌, IfOk, IfErr, drop, take, ◌-◌, length, ◌||◌};
ghost use Rattle.std.specs.Io.KnownBytes.{Consumes, Keeps, IsAtEnd};
ghost use Rattle.esr_base.specs.Watch.{inner, failed};
ghost use Rattle.esr_script.specs.Parts.{is_read_fault};

use crate::fault::RunFault;
use esr_grammar::INPUT_ROOM;
use esr_history::Watched;
use std::alloc::{AllocError, Global};
use std::io::Read;
use std::marker::Model;

/// Bytes that were read and not yet used; its value is their list. They are in one buffer from `start` to `end`.
#[derive(Drop)]
pub struct InputBuffer {
    buffer: Vec<u8>,
    start: usize,
    end: usize,
}

impl Model for InputBuffer {
    ghost Value = { List ℕ };

    ghost view = { λ p. take (p.end - p.start) (drop p.start p.buffer.items) };

    ghost invariant = { λ p. (p.start ≤ p.end) × (p.end ≤ length p.buffer.items)
        × (length p.buffer.items ≡ INPUT_ROOM) };
}

impl InputBuffer {
    pub fn new(alloc: Global) -> Result<InputBuffer, AllocError>
        ensures { IfOk result (λ p. p ≡ []) }
    {
        let buffer = vec![in alloc; 0u8; INPUT_ROOM]?;
        Ok(InputBuffer {
            buffer,
            start: 0,
            end: 0,
        })
    }

    pub fn bytes(&self) -> &[u8]
        ensures { result.now ≡ self.now }
    {
        &self.buffer[self.start..self.end]
    }

    #[tactic(auto, using(crate::proofs::Buffers::skipped))]
    pub fn skip(&mut self, count: usize)
        requires { count ≤ length self.old }
        ensures { self.new ≡ drop count self.old }
    {
        self.start += count;
    }

    /// Reads once, and returns the number of bytes read: 0 at the end of the input.
    pub fn fill<R: Read>(&mut self, reader: &mut Watched<R>) -> Result<usize, RunFault>
        requires { length self.old ≤ MAX_LINE_BYTES }
        ensures ok { IfOk result (λ n. (more : List ℕ) × (length more ≡ n) × (self.new ≡ self.old ++ more)
            × Consumes (R.remaining (inner reader.old)) (R.remaining (inner reader.new)) more
            × (n ≡ 0 → IsAtEnd (R.remaining (inner reader.new)))) }
        ensures err { IfErr result (λ e. (e ≡ RunFault.Read) × (self.new ≡ self.old)
            × Keeps (R.remaining (inner reader.old)) (R.remaining (inner reader.new))) }
        ensures failed { failed reader.new ≡ (failed reader.old || is_read_fault result) }
    {
        self.buffer.copy_within(self.start..self.end, 0);
        self.end -= self.start;
        self.start = 0;
        match reader.read(&mut self.buffer[self.end..]) {
            Ok(count) => {
                self.end += count;
                Ok(count)
            }
            Err(_) => Err(RunFault::Read),
        }
    }
}
