//! The part of an image that one block device shows.

/// A run of sectors of the backing image.
#[derive(Clone, Copy, Debug, PartialEq, Eq)]
pub struct Extent {
    /// Its first sector.
    pub start: u64,
    /// How many sectors it has, which may be none.
    pub count: u64,
}
