//! Why a queue can't be served further.

use thiserror::Error;

/// What is wrong with what the driver wrote. A ring names the first fault that it meets, and its device
/// then needs a reset.
#[derive(Clone, Copy, Debug, PartialEq, Eq, Error)]
pub enum Fault {
    /// More chains are on offer than the queue has descriptors (2.7.13.3).
    #[error("more chains on offer than descriptors")]
    Jump = 1,
    /// An index of a descriptor isn't below the number of descriptors (2.7.5).
    #[error("a descriptor's index outside its table")]
    Index = 2,
    /// A list of descriptors goes on after as many members as its table has (2.7.5.2).
    #[error("a list of descriptors longer than its table")]
    Loop = 3,
    /// A chain has more than 256 buffers.
    #[error("a chain of more than 256 buffers")]
    TooMany = 4,
    /// The length of an indirect table is 0, no multiple of 16 or above 4096 (2.7.5.3).
    #[error("an indirect table of a bad length")]
    Table = 5,
    /// A descriptor of an indirect table refers to a further table (2.7.5.3.1).
    #[error("an indirect table inside an indirect table")]
    Nested = 6,
    /// A descriptor refers to an indirect table and to a next descriptor (2.7.5.3.1).
    #[error("an indirect table joined to other descriptors")]
    Joined = 7,
    /// A descriptor refers to an indirect table, and the feature wasn't negotiated (2.7.5.3.1).
    #[error("an indirect table without its feature")]
    NoIndirect = 8,
    /// A buffer or a table isn't inside the guest's memory.
    #[error("a buffer or a table outside memory")]
    Range = 9,
    /// The buffers of a chain have more than 2^32 - 1 bytes in all (2.7.5.2).
    #[error("a chain of more than 2^32 - 1 bytes")]
    TooLong = 10,
}
