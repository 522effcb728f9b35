//! The one error of an allocation that was refused.

use std::alloc::AllocError;
use thiserror::Error;

/// An allocation failed.
#[derive(Clone, Copy, PartialEq, Eq, Debug, Error)]
#[error("out of memory")]
pub struct NoMemory;

impl From<AllocError> for NoMemory {
    fn from(_error: AllocError) -> NoMemory {
        NoMemory
    }
}
