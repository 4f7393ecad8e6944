//! What a write to a window leaves for a slot's devices to do.

use crate::pause::Service;

/// What is left to be done.
#[derive(Clone, Copy, Debug, PartialEq, Eq)]
pub enum Task {
    /// Nothing is left.
    Nothing,
    /// A device serves one of its queues.
    Serve(Service),
    /// The console puts out the byte of an emergency write (5.3.4).
    PutOut(u8),
}
