//! The one error of a call that fails only for want of memory.

use thiserror::Error;

/// There was no memory for the frames that may wait.
#[derive(Clone, Copy, Debug, PartialEq, Eq, Error)]
#[error("no memory for the network device")]
pub struct NoMemory;
