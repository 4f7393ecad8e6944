//! Why the host's frame is refused.

use thiserror::Error;

/// A frame that the host handed in doesn't wait.
#[derive(Clone, Copy, Debug, PartialEq, Eq, Error)]
pub enum FrameRefusal {
    /// It has no bytes.
    #[error("a frame without bytes")]
    Empty,
    /// It is longer than the MTU and the header of 14 bytes.
    #[error("a frame that passes the MTU")]
    TooLong,
    /// There is no room for it beside those that wait.
    #[error("no room for one more frame")]
    Full,
}
