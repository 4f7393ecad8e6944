//! The one error of a call that fails only for want of memory.

use std::alloc::AllocError;
use thiserror::Error;

/// There was no memory for the text.
#[derive(Clone, Copy, Debug, PartialEq, Eq, Error)]
#[error("no memory for the text")]
pub struct NoMemory;

impl From<AllocError> for NoMemory {
    fn from(_e: AllocError) -> NoMemory {
        NoMemory
    }
}
