//! The one error of a call that fails only for want of memory.

use thiserror::Error;

/// There was no memory: for pending input, or for the bytes that were to go out.
#[derive(Clone, Copy, Debug, PartialEq, Eq, Error)]
#[error("no memory for the console")]
pub struct NoMemory;
