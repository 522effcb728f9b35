//! A reader that keeps a copy of the bytes read, for a caller that shows the line with a fault, or reads a bundle
//! twice.

ghost use Rattle.std.specs.Prelude.{◌≡◌};
ghost use Rattle.std.specs.Io.{ReadsAtMost};
ghost use Rattle.std.specs.Io.KnownBytes.{ReadConsumes};
ghost use Rattle.esr_script.specs.TeeReader.{lower};

use std::alloc::Global;
use std::io;
use std::io::Read;

/// A reader with a copy of the bytes read from it.
#[derive(Drop)]
pub struct TeeReader<R> {
    lower: R,
    copy: Vec<u8>,
    is_whole: bool,
}

impl<R> TeeReader<R> {
    pub fn new(alloc: Global, reader: R) -> TeeReader<R>
        ensures { lower result ≡ reader }
    {
        TeeReader {
            lower: reader,
            copy: Vec::new(alloc),
            is_whole: true,
        }
    }

    /// Returns the bytes read, unless an allocation for them failed.
    pub fn copy(&self) -> Option<&[u8]> {
        if self.is_whole {
            Some(&self.copy)
        } else {
            None
        }
    }

    /// Appends the bytes read to the copy.
    fn keep(&mut self, bytes: &[u8])
        ensures { lower self.new ≡ lower self.old }
    {
        if self.copy.extend_from_slice(bytes).is_err() {
            self.is_whole = false;
        }
    }
}

impl<R: Read> Read for TeeReader<R> {
    ghost remaining = { λ c. R.remaining (lower c) };

    fn read(&mut self, buf: &mut [u8]) -> io::Result<usize> {
        let result = self.lower.read(buf);
        if let Ok(count) = &result {
            self.keep(&buf[..*count]);
        }
        result
    }
}
