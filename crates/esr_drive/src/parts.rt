//! A text in parts.
//!
//! Separate threads make the lines of the blocks. Rejected: to join them into one buffer. The copy took a twelfth of a drive, most
//! of it for the first access to the memory of the buffer.

ghost use Rattle.std.specs.Prelude.{◌≡◌, ℕ, List, [], ◌++◌, ◌||◌, OnOk, OnErr, flat_map, is_err};
ghost use Rattle.std.specs.Io.KnownBytes.{Appends};
ghost use Rattle.esr_base.specs.Watch.{inner, failed, BeginsWith};

use esr_base::WriteFailed;
use esr_history::Watched;
use std::alloc::{AllocError, Global};
use std::io::Write;
use std::marker::Model;

/// A text in parts, one after the other.
#[derive(Drop)]
pub struct TextParts {
    parts: Vec<Vec<u8>>,
}

impl Model for TextParts {
    ghost use Rattle.std.specs.Prelude.{ℕ, List, flat_map};

    ghost Value = { List ℕ };

    ghost view = { λ text. flat_map (λ part. part.items) text.parts.items };
}

impl TextParts {
    /// Returns a text of no parts.
    pub fn new(alloc: Global) -> TextParts
        ensures { result ≡ [] }
    {
        TextParts {
            parts: Vec::new(alloc),
        }
    }

    /// Appends a part.
    pub fn push(&mut self, part: Vec<u8>) -> Result<(), AllocError>
        ensures { OnOk result (self.new ≡ self.old ++ part.items) }
    {
        self.parts.push(part)?;
        Ok(())
    }

    /// Writes the text.
    ///
    /// # Errors
    /// `WriteFailed` if a write or a flush failed. Then a prefix of the text was written.
    pub fn send<W: Write>(&self, writer: &mut Watched<W>) -> Result<(), WriteFailed>
        ensures ok { OnOk result (Appends (W.contents (inner writer.old)) (W.contents (inner writer.new)) self.now) }
        ensures err { OnErr result ((sent : List ℕ) × BeginsWith self.now sent
            × Appends (W.contents (inner writer.old)) (W.contents (inner writer.new)) sent) }
        ensures failed { failed writer.new ≡ (failed writer.old || is_err result) }
    {
        send_each(&self.parts, writer)
    }
}

/// Writes the parts, one after the other.
fn send_each<W: Write>(parts: &[Vec<u8>], writer: &mut Watched<W>) -> Result<(), WriteFailed>
    ensures ok { OnOk result (Appends (W.contents (inner writer.old)) (W.contents (inner writer.new))
        (flat_map (λ part. part.items) parts.now)) }
    ensures err { OnErr result ((sent : List ℕ) × BeginsWith (flat_map (λ part. part.items) parts.now) sent
        × Appends (W.contents (inner writer.old)) (W.contents (inner writer.new)) sent) }
    ensures failed { failed writer.new ≡ (failed writer.old || is_err result) }
{
    for part in parts {
        writer.send_all(part)?;
    }
    Ok(())
}
