//! What is wrong with bytes that are no snapshot.

ghost use Rattle.std.specs.Prelude.{◌≡◌, length};

use thiserror::Error;

/// The first fault from left to right.
#[derive(Clone, Copy, Debug, Error, PartialEq, Eq)]
#[error("byte {place}: {why}")]
pub struct SnapshotFault {
    pub why: Why,
    /// The offset of the field that is wrong.
    pub place: usize,
}

/// What is wrong with a field.
#[derive(Clone, Copy, Debug, Error, PartialEq, Eq)]
pub enum Why {
    /// It passes the end.
    #[error("the snapshot ends here too early")]
    Short,
    /// The first eight bytes aren't those of a snapshot.
    #[error("this is no snapshot")]
    Magic,
    /// The snapshot is of another version than 1, 2 and 3.
    #[error("a version other than 1, 2 and 3")]
    Version,
    /// A choice is none of those that there are.
    #[error("a value that the field can't have")]
    Choice,
    /// More input is pending than 4096 bytes.
    #[error("more than 4096 bytes of pending input")]
    TooMuchInput,
    /// Bytes follow the last field.
    #[error("bytes behind the end of the snapshot")]
    Trailing,
}

/// The snapshot is longer than the buffer that is to hold it. Nothing is written.
#[derive(Clone, Copy, Debug, Error, PartialEq, Eq)]
#[error("the buffer is shorter than the snapshot")]
pub struct ShortBuffer;

// What is wrong with the field that stands at the front of the bytes that are left.
#[derive(Clone, Copy)]
pub(crate) struct Stop {
    pub(crate) why: Why,
    // How many bytes are left from that field on.
    pub(crate) left: usize,
}

impl Stop {
    // This is wrong with the field at the front of these bytes.
    pub(crate) fn at(why: Why, bytes: &[u8]) -> Stop
        ensures { result ≡ record { why = why; left = length bytes.now } }
    {
        Stop {
            why,
            left: bytes.len(),
        }
    }
}
