//! A text of a whole script: prose about a query, however it ended, or a page about all of them.

ghost use Rattle.std.specs.Prelude.{ℕ, List, IfOk, IfSome, ◌≡◌};

use crate::recording::Recording;
use std::alloc::{AllocError, Global};

/// A text about a script.
pub trait ScriptView {
    ghost use Rattle.esr_views.specs.QueryAnswers.{IsRecorded};
    ghost use Rattle.esr_views.specs.State.{ScriptState};

    /// Whether it is the text of a script that leads to this state.
    ghost IsTextOf: { Self → ScriptState → List ℕ → Type 0 };

    /// Returns the text, or `None` if there is nothing to show.
    fn text_of(
        &self,
        alloc: Global,
        recording: &Recording<'_>,
    ) -> Result<Option<Vec<u8>>, AllocError>
        ensures { (s : ScriptState) → IsRecorded s recording.now
            → IfOk result (λ found. IfSome found (λ text. IsTextOf self.now s text.items)) };
}
