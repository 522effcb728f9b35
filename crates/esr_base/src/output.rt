//! Writes a whole byte slice, or reports that only a prefix was written.
//!
//! The standard library's `write_all` guarantees nothing of the bytes written before an error. So a program that
//! guarantees its exact output before a fault needs a loop over `write` whose failure leaves a prefix.
ghost use Rattle.std.specs.Prelude.{◌≡◌, ℕ, List, OnOk, OnErr, ◌||◌, is_err};
ghost use Rattle.std.specs.Io.KnownBytes.{Appends};
ghost use Rattle.esr_base.specs.Watch.{inner, failed, BeginsWith};

use crate::watched::Watched;
use std::io::Write;
use thiserror::Error;

/// A writer answered an error, or took none of some bytes.
#[derive(Clone, Copy, PartialEq, Eq, Debug, Error)]
#[error("write failed")]
pub struct WriteFailed;

/// Writes all of the bytes, or those before a failure.
fn send<W: Write>(bytes: &[u8], writer: &mut Watched<W>) -> Result<(), WriteFailed>
    ensures ok { OnOk result (Appends (W.contents (inner writer.old)) (W.contents (inner writer.new)) bytes.now) }
    ensures err { OnErr result ((sent : List ℕ) × BeginsWith bytes.now sent
        × Appends (W.contents (inner writer.old)) (W.contents (inner writer.new)) sent) }
    ensures failed { failed writer.new ≡ (failed writer.old || is_err result) }
{
    let mut sent = 0;
    while sent < bytes.len() {
        match writer.write(&bytes[sent..]) {
            Ok(0) | Err(_) => return Err(WriteFailed),
            Ok(count) => sent += count,
        }
    }
    Ok(())
}

impl<W: Write> Watched<W> {
    /// Writes all of the bytes and flushes.
    ///
    /// # Errors
    /// `WriteFailed` if a write or the flush failed. Then a prefix of the bytes was written.
    pub fn send_all(&mut self, bytes: &[u8]) -> Result<(), WriteFailed>
        ensures ok { OnOk result (Appends (W.contents (inner self.old)) (W.contents (inner self.new)) bytes.now) }
        ensures err { OnErr result ((sent : List ℕ) × BeginsWith bytes.now sent
            × Appends (W.contents (inner self.old)) (W.contents (inner self.new)) sent) }
        ensures failed { failed self.new ≡ (failed self.old || is_err result) }
    {
        send(bytes, self)?;
        if self.flush().is_err() {
            return Err(WriteFailed);
        }
        Ok(())
    }
}
