//! Why there is no session.

ghost use Rattle.std.specs.Prelude.{◌≡◌};
ghost use Rattle.session.specs.Refusing.{session_fault};

use board::BoardFault;
use thiserror::Error;

/// A session that was refused.
#[derive(Clone, Copy, Debug, Error, PartialEq, Eq)]
pub enum SessionFault {
    /// The lent bytes aren't as many as the guests' regions have, one run for each.
    #[error("lent bytes have another number or length than the regions")]
    BadLoan,
    /// The image isn't whole sectors of 512 bytes.
    #[error("the image isn't whole sectors of 512 bytes")]
    BadImage,
    /// More output of a guest may wait than 2^24 bytes.
    #[error("an outlet keeps 16777216 bytes at most")]
    BadOutlet,
    /// A network card that a guest is to have has an MTU below 68, or a disk that the host serves 2^55 sectors or more, or another
    /// depth than 1 to 64.
    #[error("a network card has an MTU of 68 or more, and a disk of the host's fewer than 2^55 sectors and a depth of 1 to 64")]
    BadDevice,
    /// A disk over the image that a guest is to have has no sectors, one that isn't a spare one of its slot, or one that another has.
    #[error("a disk over the image has one or more spare sectors of its slot, which no other disk has")]
    BadExtent,
    /// The budget has no chain or no byte, so a service that pauses would never go on.
    #[error("a budget needs one chain and one byte at least")]
    SpentBudget,
    /// The board was refused, for another reason than want of memory.
    #[error("{0}")]
    Board(BoardFault),
    /// There was no memory for the session.
    #[error("no memory for the session")]
    NoMemory,
}

/// Why there is no session where there is no board.
pub(crate) fn why_not(why: BoardFault) -> SessionFault
    ensures { result ≡ session_fault why }
{
    match why {
        BoardFault::NoMemory => SessionFault::NoMemory,
        _ => SessionFault::Board(why),
    }
}
