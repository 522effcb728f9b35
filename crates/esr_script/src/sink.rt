//! The sinks of the text of lines: a writer, or none.
//!
//! A run writes the replies of a script; a replay needs only the state that the script leads to. Both process the
//! same lines, so there is one loop over them (`lines`), and its sink decides about the text. If the text is dropped,
//! it need not be made: a replay audits no query for an `audit` line of the script.

ghost use Rattle.std.specs.Prelude.{◌≡◌, ℕ, List, Bool, false, Option, None, OnOk, IfErr, ◌||◌};
ghost use Rattle.std.specs.Io.KnownBytes.{Appends};
ghost use Rattle.esr_base.specs.Watch.{inner, failed, BeginsWith};
ghost use Rattle.esr_script.specs.Parts.{is_write_fault};

use crate::fault::RunFault;
use crate::output::send;
use esr_history::Watched;
use std::io::Write;

/// Whether anyone reads the text that a sink takes.
#[derive(Clone, Copy, PartialEq)]
pub enum Audience {
    Somebody,
    NoReader,
}

/// A sink of the text of lines.
pub trait Sink {
    ghost contents: { Self → Option (List ℕ) };

    ghost has_failed: { Self → Bool };

    /// Returns whether anyone reads the text.
    fn audience(&self) -> Audience
        ensures { result ≡ Audience.NoReader → contents self.now ≡ None };

    /// Takes a text.
    fn take(&mut self, text: &[u8]) -> Result<(), RunFault>
        ensures ok { OnOk result (Appends (contents self.old) (contents self.new) text.now) }
        ensures err { IfErr result (λ e. (e ≡ RunFault.Write) × ((sent : List ℕ) × BeginsWith text.now sent
            × Appends (contents self.old) (contents self.new) sent)) }
        ensures failed { has_failed self.new ≡ (has_failed self.old || is_write_fault result) };
}

impl<W: Write> Sink for Watched<W> {
    ghost contents = { λ w. W.contents (inner w) };

    ghost has_failed = { failed };

    fn audience(&self) -> Audience {
        Audience::Somebody
    }

    fn take(&mut self, text: &[u8]) -> Result<(), RunFault> {
        send(text, self)
    }
}

/// Drops the text.
#[derive(Drop)]
pub struct Dropped;

impl Sink for Dropped {
    ghost contents = { λ _. None };

    ghost has_failed = { λ _. false };

    fn audience(&self) -> Audience {
        Audience::NoReader
    }

    fn take(&mut self, _text: &[u8]) -> Result<(), RunFault> {
        Ok(())
    }
}
