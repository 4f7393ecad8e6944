//! The table of a trace's lines: which fields stand after each word.

ghost use Rattle.std.specs.Prelude.{◌≡◌};
ghost use Rattle.trace.specs.Words.{fields_in};

use crate::format::{Format, Version};
use crate::word::Word;

/// What a field after the first one says.
#[derive(Clone, Copy, Debug, PartialEq, Eq)]
pub enum Field {
    /// How many sectors the cache keeps.
    Sectors,
    /// Where a slot's memory begins, and how many bytes it has.
    Base,
    Size,
    /// The regions of a slot's memory.
    Regions,
    /// Who has a slot's disk, and how many spare sectors of the image the slot has.
    Disk,
    /// The first sector of an extent, and how many it has.
    Start,
    Count,
    /// Whether a disk is read-only.
    Mode,
    Columns,
    Rows,
    Identity,
    /// The number of a slot.
    Slot,
    Window,
    Offset,
    Width,
    /// What is written to a register. It is read by the width beside it.
    Value,
    Address,
    Length,
    Bytes,
    /// Which operation of a slot in flight.
    Tag,
    /// How it came out.
    Verdict,
    /// The number of a slot's further device.
    Device,
    /// Which kind of device that is to be.
    Kind,
    /// Whether the link of a network card is up.
    Link,
    /// How many sectors a further disk has that the host serves.
    Capacity,
    /// How many of its operations may be in flight.
    Depth,
}

/// What a line says of a further device behind its kind.
#[derive(Clone, Copy, Debug, PartialEq, Eq)]
pub enum BehindKind {
    /// Nothing, or the line has no kind.
    Nothing,
    /// What a disk that the host serves is to be.
    HostedDisk,
    /// What a disk over the image is to be.
    ImageDisk,
}

/// The fields after a word in a format, in their order. Where a kind is among them, these are `behind` it.
pub fn fields_after(format: Format, word: Word, behind: BehindKind) -> &'static [Field]
    ensures { result.now ≡ fields_in format word behind }
{
    use Field::*;
    match word {
        Word::Cache => &[Sectors],
        Word::Slot => match format {
            Format::Plain(Version::One) => &[Base, Size, Start, Count, Mode, Columns, Rows],
            Format::Plain(Version::Two) => {
                &[Base, Size, Start, Count, Mode, Columns, Rows, Identity]
            }
            Format::Extended => &[Regions, Disk, Start, Count, Mode, Columns, Rows, Identity],
        },
        Word::Read => &[Slot, Window, Offset, Width],
        Word::Write => &[Slot, Window, Offset, Width, Value],
        Word::MemRead => &[Slot, Address, Length],
        Word::MemWrite => &[Slot, Address, Bytes],
        Word::Input => &[Slot, Bytes],
        Word::Resize => &[Slot, Columns, Rows],
        Word::Restore => &[Slot, Bytes],
        Word::Complete => &[Slot, Tag, Verdict],
        Word::Drop | Word::Hold | Word::Release => &[Slot],
        Word::Plug => match behind {
            BehindKind::Nothing => &[Slot, Device, Kind],
            BehindKind::HostedDisk => &[Slot, Device, Kind, Capacity, Mode, Identity, Depth],
            BehindKind::ImageDisk => &[Slot, Device, Kind, Start, Count, Mode, Identity],
        },
        Word::DeviceRead => &[Slot, Device, Offset, Width],
        Word::DeviceWrite => &[Slot, Device, Offset, Width, Value],
        Word::Supply | Word::Receive => &[Slot, Device, Bytes],
        Word::TakeSent | Word::DropSent => &[Slot, Device],
        Word::SetLink => &[Slot, Device, Link],
        Word::DeviceResize => &[Slot, Device, Columns, Rows],
        Word::DeviceComplete => &[Slot, Device, Tag, Verdict],
        Word::DeviceDrop | Word::DeviceHold | Word::DeviceRelease => &[Slot, Device],
    }
}
