//! The view that explains a query.

ghost use Rattle.std.specs.Prelude.{◌≡◌};
ghost use Rattle.esr_explain.specs.Output.{explained};

use crate::text::explanation;
use esr_views::{AuditedQuery, QueryView};
use std::alloc::{AllocError, Global};

/// The explanation of a query: its reads, with the values of the nearest placement; its charges, each with the
/// update's operation, the step, and the rest of both limits; the updates before the nearest placement, and the
/// others; and the sums.
pub struct Explaining;

impl QueryView for Explaining {
    ghost IsTextOf = { λ _ s name text. text ≡ explained s name };

    fn text_of(&self, alloc: Global, audited: &mut AuditedQuery) -> Result<Vec<u8>, AllocError> {
        let text = explanation(
            alloc,
            &audited.items,
            &audited.transactions,
            &audited.history,
            &audited.finding,
        );
        match text {
            Ok(text) => Ok(text),
            Err(_) => Err(AllocError),
        }
    }
}
