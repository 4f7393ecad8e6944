//! Why a text isn't a trace.

use thiserror::Error;

/// A fault of a text: the first line with one, and the first check that this line fails.
#[derive(Clone, Copy, Debug, PartialEq, Eq, Error)]
#[error("line {line}: {kind}")]
pub struct TraceFault {
    /// The line, numbered from 1.
    pub line: u64,
    pub kind: FaultKind,
}

/// What is wrong with a line, in the order in which it is looked for.
#[derive(Clone, Copy, Debug, PartialEq, Eq, Error)]
pub enum FaultKind {
    /// The text ends before the line's line feed, or where the first or the second line is owed.
    #[error("the text is cut off")]
    Cut,
    /// The first line is none of `vreplay 1`, `vreplay 2` and `kalyubos 1`.
    #[error("the first line is another one")]
    Header,
    /// The first field isn't a word of the format that may stand there.
    #[error("no word that may stand here")]
    Word,
    /// A slot after an event.
    #[error("a slot after an event")]
    Order,
    /// Another number of fields than the word has.
    #[error("another number of fields")]
    Fields,
    /// A number, an offset or a value that isn't in its spelling, or a number past its bits.
    #[error("a number that is not in its spelling")]
    Number,
    /// A disk, a window, a width, a mode, a verdict, a kind of device or a link that isn't in its spelling.
    #[error("a disk, a window, a width, a mode, a verdict, a kind of device or a link that is not in its spelling")]
    Choice,
    /// Bytes that aren't in their spelling.
    #[error("bytes that are not in their spelling")]
    Bytes,
    /// There was no memory for the line.
    #[error("no memory for the line")]
    NoMemory,
}
