//! Readers and writers that remember whether one of their calls has failed.
//!
//! A run promises to overlook no failed read or write. A contract can state that only if the device records failures.
//! Every error counts, including `Interrupted`, and so does a write that accepts none of a nonempty slice: to retry
//! after some errors but not others would need a rule, and could hide a failure. No clause can say that the device is
//! called at all; tests count the calls.

ghost use Rattle.std.specs.Prelude.{◌≡◌, ◌||◌, false, is_err, length};
ghost use Rattle.std.specs.Io.{ReadsAtMost, WritesAtMost};
ghost use Rattle.std.specs.Io.KnownBytes.{ReadConsumes, WriteAppends, Keeps};
ghost use Rattle.esr_base.specs.Watch.{inner, failed, took_none};

use std::io;
use std::io::{Read, Write};

/// A reader or a writer that remembers whether one of its calls has failed.
#[derive(Drop)]
pub struct Watched<T> {
    inner: T,
    failed: bool,
}

impl<T> Watched<T> {
    pub fn new(lower: T) -> Watched<T>
        ensures lower { inner result ≡ lower }
        ensures fresh { failed result ≡ false }
    {
        Watched {
            inner: lower,
            failed: false,
        }
    }

    pub fn inner(&self) -> &T
        ensures { result.now ≡ inner self.now }
    {
        &self.inner
    }

    /// Returns whether a call has returned an error, or has accepted none of a nonempty slice.
    pub fn failed(&self) -> bool
        ensures { result ≡ failed self.now }
    {
        self.failed
    }
}

impl<R: Read> Read for Watched<R> {
    ghost remaining = { λ w. R.remaining (inner w) };

    fn read(&mut self, buf: &mut [u8]) -> io::Result<usize>
        ensures bound { ReadsAtMost result buf.new }
        ensures bytes { ReadConsumes (R.remaining (inner self.old)) (R.remaining (inner self.new)) result buf.new }
        ensures watched { failed self.new ≡ (failed self.old || is_err result) }
    {
        let result = self.inner.read(buf);
        if result.is_err() {
            self.failed = true;
        }
        result
    }
}

impl<W: Write> Write for Watched<W> {
    ghost contents = { λ w. W.contents (inner w) };

    fn write(&mut self, buf: &[u8]) -> io::Result<usize>
        ensures bound { WritesAtMost result buf.now }
        ensures bytes { WriteAppends (W.contents (inner self.old)) (W.contents (inner self.new)) result buf.now }
        ensures watched { failed self.new ≡ (failed self.old || took_none result (length buf.now)) }
    {
        let result = self.inner.write(buf);
        let took_none = match &result {
            Ok(count) => *count == 0 && !buf.is_empty(),
            Err(_) => true,
        };
        if took_none {
            self.failed = true;
        }
        result
    }

    fn flush(&mut self) -> io::Result<()>
        ensures bytes { Keeps (W.contents (inner self.old)) (W.contents (inner self.new)) }
        ensures watched { failed self.new ≡ (failed self.old || is_err result) }
    {
        let result = self.inner.flush();
        if result.is_err() {
            self.failed = true;
        }
        result
    }
}
