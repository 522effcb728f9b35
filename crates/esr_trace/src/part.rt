//! A part of a page.

use crate::subject::Audited;
use crate::traces::Traced;
use esr_outcomes::Auditor;
use std::alloc::{AllocError, Global};

/// A part of a page about an audited query: a picture, or prose.
///
/// The caller passes the parts to the page, so the crates of the page and of its parts do not depend on each other.
pub trait Part {
    /// Appends it, as markup. The auditor is that of the history, whose entries are of these lines of the script. The trace is
    /// that of the query.
    fn push(
        &self,
        alloc: Global,
        out: &mut String,
        audited: &Audited<'_>,
        auditor: &Auditor<'_>,
        lines: &[u32],
        traced: Traced<'_>,
    ) -> Result<(), AllocError>;
}
