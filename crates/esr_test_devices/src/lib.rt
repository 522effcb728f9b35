//! Readers and writers that fail after some calls. The tests of several crates use them.
#![tactic(auto)]

ghost use Rattle.std.specs.Prelude.{◌≡◌, false};
ghost use Rattle.esr_base.specs.Watch.{failed};

use esr_history::Watched;
use std::alloc::Global;
use std::io;
use std::io::{Read, Write};

/// Yields up to `upper_bound` bytes at a time, and fails after `left` calls.
#[derive(Drop)]
pub struct Cut<'a> {
    pub rest: &'a [u8],
    pub upper_bound: usize,
    pub left: usize,
}

impl Read for Cut<'_> {
    fn read(&mut self, buf: &mut [u8]) -> io::Result<usize> {
        if self.left == 0 {
            return Err(io::Error::from(io::ErrorKind::BrokenPipe));
        }
        self.left -= 1;
        let count = buf.len().min(self.upper_bound);
        self.rest.read(&mut buf[..count])
    }
}

/// Returns a reader of the text that fails after `left` calls.
pub fn cut_after(text: &str, upper_bound: usize, left: usize) -> Watched<Cut<'_>>
    ensures { failed result ≡ false }
{
    Watched::new(Cut {
        rest: text.as_bytes(),
        upper_bound,
        left,
    })
}

/// How a writer fails.
#[derive(Clone, Copy, PartialEq, Eq)]
pub enum Way {
    Errs,
    TakesNone,
}

/// Takes up to `upper_bound` bytes at a time, and fails after `left` calls.
#[derive(Drop)]
pub struct Narrow {
    pub taken: Vec<u8>,
    pub upper_bound: usize,
    pub left: usize,
    pub way: Way,
}

impl Write for Narrow {
    fn write(&mut self, buf: &[u8]) -> io::Result<usize> {
        if self.left == 0 {
            return match self.way {
                Way::Errs => Err(io::Error::from(io::ErrorKind::BrokenPipe)),
                Way::TakesNone => Ok(0),
            };
        }
        self.left -= 1;
        let count = buf.len().min(self.upper_bound);
        self.taken.extend_from_slice(&buf[..count])?;
        Ok(count)
    }

    fn flush(&mut self) -> io::Result<()> {
        if self.left == 0 {
            return Err(io::Error::from(io::ErrorKind::BrokenPipe));
        }
        self.left -= 1;
        Ok(())
    }
}

/// Returns a writer that has taken nothing yet, and fails after `left` calls.
pub fn narrow_until(alloc: Global, upper_bound: usize, left: usize, way: Way) -> Watched<Narrow>
    ensures { failed result ≡ false }
{
    Watched::new(Narrow {
        taken: Vec::new(alloc),
        upper_bound,
        left,
        way,
    })
}

/// Returns whether a read has failed, no write has, and nothing was written.
pub fn is_cut(reader: &Watched<Cut<'_>>, writer: &Watched<Vec<u8>>) -> bool {
    reader.failed() && !writer.failed() && writer.inner().is_empty()
}
