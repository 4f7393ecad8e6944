//! How much may wait.

/// How many bytes may wait in all, headers not counted, and in how many frames.
#[derive(Clone, Copy, Debug, PartialEq, Eq)]
pub struct Limits {
    /// The bytes of all frames.
    pub bytes: usize,
    /// The frames.
    pub frames: usize,
}
