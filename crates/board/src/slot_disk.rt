//! Which disk of a slot it is.

/// One of a slot's disks.
#[derive(Clone, Copy, Debug, PartialEq, Eq)]
pub enum SlotDisk {
    /// The slot's own.
    Own,
    /// The further device of this number, from 0 on.
    Further(u8),
}
