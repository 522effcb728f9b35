//! The reads that a distance is the sum over.

use esr_text::push_count;
use std::alloc::AllocError;

/// The reads of a query that differ from the nearest state.
#[derive(Clone, Copy)]
pub struct OffReads {
    pub count: u64,
    /// Whether the weight of an item of them is above 1.
    pub has_weights: bool,
}

/// Appends what a distance is the sum of: the absolute differences of these reads, each times its weight.
pub fn push_summands(out: &mut String, reads: OffReads) -> Result<(), AllocError> {
    if reads.count == 1 {
        return out.push_str(if reads.has_weights {
            " in one read, its weight included"
        } else {
            " in one read"
        });
    }
    out.push_str(if reads.has_weights {
        ": the sum of |value read - value there| x weight over "
    } else {
        ": the sum of |value read - value there| over "
    })?;
    push_count(out, reads.count, " read", " reads")
}
