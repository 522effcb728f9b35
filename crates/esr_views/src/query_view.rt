//! A text of a requested query: a bundle, an explanation, a picture.
//!
//! A view states its own promise: a ghost member defines the permitted texts, given the state after a script and a
//! name, and one method makes the text from the script's reply, which is lent to it. So `render_query` is written and
//! proved once for all views. Before, each view passed it a closure that owned the reply and repeated its contract; a
//! closure is proved as three functions, and each return of one that owns a reply drops every part of it.

ghost use Rattle.std.specs.Prelude.{ℕ, List, IfOk};

use crate::query::AuditedQuery;
use std::alloc::{AllocError, Global};

/// A text about a query of a script.
pub trait QueryView {
    ghost use Rattle.esr_views.specs.QueryAnswers.{IsAnswered};
    ghost use Rattle.esr_views.specs.State.{ScriptState};

    /// Whether it is the text of the query of that name after a script.
    ghost IsTextOf: { Self → ScriptState → List ℕ → List ℕ → Type 0 };

    /// Returns the text of the query. The audited query may be consumed.
    fn text_of(&self, alloc: Global, audited: &mut AuditedQuery) -> Result<Vec<u8>, AllocError>
        ensures { (s : ScriptState) (name : List ℕ) → IsAnswered s name audited.old
            → IfOk result (λ text. IsTextOf self.now s name text.items) };
}
