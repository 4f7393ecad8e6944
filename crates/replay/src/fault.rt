//! Why a replay did not come to its end.

use board::BoardFault;
use thiserror::Error;
use trace::TraceFault;

/// Why a replay did not come to its end.
#[derive(Clone, Copy, Debug, PartialEq, Eq, Error)]
pub enum ReplayFault {
    /// The reader failed. Nothing was written.
    #[error("the trace can't be read")]
    Read,
    /// The input isn't a trace, or there was no memory for it. Nothing was written.
    #[error("the trace: {0}")]
    Trace(TraceFault),
    /// The trace's board can't be made. Nothing was written.
    #[error("the board: {0}")]
    Board(BoardFault),
    /// There was no memory for the record of the next event: so many events are done. A replay keeps no list of records
    /// and never answers this; a program that runs a trace's events by `Board::run` may.
    #[error("no memory after {0} events")]
    Run(usize),
    /// The writer failed. The events were run all the same.
    #[error("the records can't be written")]
    Write,
    /// There was no memory for the text of the records. No event was run, and nothing was written.
    #[error("no memory for the records' text")]
    NoMemory,
}
