//! Why an image or a cache could not be made.

use std::io;
use thiserror::Error;

/// Why bytes are no image.
#[derive(Clone, Copy, Debug, PartialEq, Eq, Hash, Error)]
pub enum ImageFault {
    /// Their number is no multiple of 512.
    #[error("the length of the image is no multiple of 512 bytes")]
    BadSize,
}

/// Why a file is no image. The file is closed then.
#[derive(Clone, Copy, Debug, PartialEq, Eq, Hash, Error)]
pub enum FileImageFault {
    /// Its length is no multiple of 512.
    #[error("the length of the file is no multiple of 512 bytes")]
    BadSize,
    /// Its length or its kind could not be found.
    #[error("the length of the file could not be found")]
    Io,
    /// It is neither a regular file nor a block device.
    #[error("it is neither a regular file nor a block device")]
    BadKind,
    /// Another program holds a lock on it.
    #[error("somebody else holds a lock on the file")]
    Locked,
}

/// A call that an image makes of its file.
#[derive(Clone, Copy, Debug, PartialEq, Eq, Hash)]
pub enum FileCall {
    Read,
    Write,
    Sync,
}

/// A call of a file that failed.
#[derive(Clone, Copy, Debug)]
pub struct FileFailure {
    pub call: FileCall,
    /// The sector that was to be read or written. Of a sync, the last one that was to be written before it.
    pub sector: Option<u64>,
    /// The system's error.
    pub error: io::Error,
}

/// Why there is no cache: the first of these that holds.
#[derive(Clone, Copy, Debug, PartialEq, Eq, Hash, Error)]
pub enum CacheFault {
    /// The capacity is not in 1..=65536 sectors.
    #[error("the capacity of the cache is not in 1..=65536 sectors")]
    BadCapacity,
    /// There was no memory for its tables.
    #[error("no memory for the cache")]
    NoMemory,
}

/// The answer of a constructor that refuses: the image that it was handed, as it was, and why.
#[derive(Drop)]
#[derive_where(Debug; I, F)]
pub struct Refused<I, F> {
    pub image: I,
    pub why: F,
}
