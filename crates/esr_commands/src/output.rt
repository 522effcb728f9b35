//! Standard output, either direct or buffered until the outcome is known.
//!
//! A failed write is an error, but a reader that closes its pipe early, as `head` does, has read all it needs: then the
//! program ends without a message, like other filters. Therefore the writer remembers why a write failed.

use std::alloc::Global;
use std::io;
use std::io::Write;

/// A writer, with the bytes that are held back from it.
#[derive(Drop)]
pub struct Output<W> {
    writer: W,
    held: Vec<u8>,
    holds: bool,
    is_closed: bool,
}

impl<W> Output<W> {
    pub fn new(alloc: Global, writer: W, holds: bool) -> Output<W> {
        Output {
            writer,
            held: Vec::new(alloc),
            holds,
            is_closed: false,
        }
    }

    /// Returns the bytes that were held back.
    pub fn bytes(&self) -> &[u8] {
        &self.held
    }

    /// Returns whether a write failed because the reader had closed the pipe.
    pub fn is_closed(&self) -> bool {
        self.is_closed
    }
}

/// Returns whether a write failed because the reader had closed the pipe.
pub fn is_closed_pipe(error: &io::Error) -> bool {
    error.kind() == io::ErrorKind::BrokenPipe
}

impl<W: Write> Write for Output<W> {
    fn write(&mut self, buf: &[u8]) -> io::Result<usize> {
        if self.holds {
            self.held.extend_from_slice(buf)?;
            return Ok(buf.len());
        }
        match self.writer.write(buf) {
            Ok(count) => Ok(count),
            Err(error) => {
                self.is_closed = is_closed_pipe(&error);
                Err(error)
            }
        }
    }

    fn flush(&mut self) -> io::Result<()> {
        match self.writer.flush() {
            Ok(()) => Ok(()),
            Err(error) => {
                self.is_closed = is_closed_pipe(&error);
                Err(error)
            }
        }
    }
}
