//! The value of a field, as a line is read.

use board::{Backing, DeviceSpec, SlotWindow, Verdict};

/// The most fields that a word has after it.
pub(crate) const MOST_FIELDS: usize = 8;

/// The value of a field, by how it is spelled.
#[derive(Clone, Copy)]
pub(crate) enum FieldValue<'a> {
    Number(u64),
    /// Who has a disk, and how many spare sectors a slot has.
    Disk(Backing, u64),
    Mode(bool),
    Window(SlotWindow),
    Offset(u16),
    Width(u8),
    /// A value of so many bytes.
    Value(u8, u32),
    Identity([u8; 20]),
    Verdict(Verdict),
    Kind(DeviceSpec),
    /// Whether a link is up.
    Link(bool),
    /// A field as it stands in its line.
    Spelled(&'a [u8]),
}

impl Default for FieldValue<'_> {
    fn default() -> Self {
        FieldValue::Number(0)
    }
}
