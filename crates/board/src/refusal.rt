//! Why a further device isn't plugged in.

use device_list::AddRefusal;
use thiserror::Error;

/// A further device isn't plugged in: nothing has changed.
#[derive(Clone, Copy, Debug, Error, PartialEq, Eq)]
pub enum PlugRefusal {
    /// The board has no such slot.
    #[error("the board has no such slot")]
    BadSlot,
    /// The slot doesn't take it.
    #[error("{0}")]
    Device(AddRefusal),
}
