//! How the lines of a trace and their fields are spelled, for people.

ghost use Rattle.std.specs.Prelude.{◌≡◌};
ghost use Rattle.trace.specs.Words.{spelled};

use trace::{BehindKind, Field, Format, Version, Word};

/// A word, and fields after it as they look in a format. Where a kind is among them, these are `behind` it.
pub fn example_of(format: Format, word: Word, behind: BehindKind) -> (&'static str, &'static str)
    ensures word { result.0.now ≡ spelled word }
{
    match word {
        Word::Cache => ("cache", "8"),
        Word::Slot => ("slot", example_of_slot(format)),
        Word::Read => ("r", "0 b 070 4"),
        Word::Write => ("w", "0 b 070 4 0000000f"),
        Word::MemRead => ("mr", "0 80000ffe 2"),
        Word::MemWrite => ("mw", "0 80000ffe 4142"),
        Word::Input => ("in", "0 6c730a"),
        Word::Resize => ("sz", "0 50 19"),
        Word::Restore => ("st", "0 4b414c59"),
        Word::Complete => ("io", "0 0 done"),
        Word::Drop => ("drop", "0"),
        Word::Hold => ("hold", "0"),
        Word::Release => ("release", "0"),
        Word::Plug => ("plug", example_of_plug(behind)),
        Word::DeviceRead => ("dr", "0 0 070 4"),
        Word::DeviceWrite => ("dw", "0 0 070 4 0000000f"),
        Word::Supply => ("supply", "0 0 5f0b91c4"),
        Word::Receive => ("frame", "0 0 525400123456525400abcdef88b50102"),
        Word::TakeSent => ("take", "0 0"),
        Word::DropSent => ("dsent", "0 0"),
        Word::SetLink => ("link", "0 0 up"),
        Word::DeviceResize => ("dsz", "0 0 50 19"),
        Word::DeviceComplete => ("dio", "0 0 0 done"),
        Word::DeviceDrop => ("ddrop", "0 0"),
        Word::DeviceHold => ("dhold", "0 0"),
        Word::DeviceRelease => ("drelease", "0 0"),
    }
}

// The fields of a plug.
fn example_of_plug(behind: BehindKind) -> &'static str {
    match behind {
        BehindKind::Nothing => "0 0 entropy",
        BehindKind::HostedDisk => "0 0 disk 800 rw 6469736b2d310000000000000000000000000000 4",
        BehindKind::ImageDisk => "0 0 image 0 8 rw 6469736b2d310000000000000000000000000000",
    }
}

// The fields of a slot.
fn example_of_slot(format: Format) -> &'static str {
    match format {
        Format::Plain(Version::One) => "80000000 1000 0 8 rw 50 19",
        Format::Plain(Version::Two) => {
            "80000000 1000 0 8 rw 50 19 6469736b2d300000000000000000000000000000"
        }
        Format::Extended => {
            "80000000+1000,100000000+1000 image 0 8 rw 50 19 6469736b2d300000000000000000000000000000"
        }
    }
}

/// How a field is spelled.
#[derive(Clone, Copy)]
pub enum Spelling {
    /// A number by its name, of so many bits.
    Number(&'static str, u8),
    Other(&'static str),
}

use Spelling::{Number, Other};

/// How this field is spelled.
pub fn spelling_of(field: Field) -> Spelling {
    match field {
        Field::Sectors => Number("a number of sectors", 32),
        Field::Base => Number("a memory's base", 64),
        Field::Size => Number("a memory's length", 64),
        Field::Start => Number("an extent's first sector", 64),
        Field::Count => Number("an extent's number of sectors", 64),
        Field::Columns => Number("a number of columns", 16),
        Field::Rows => Number("a number of rows", 16),
        Field::Slot => Number("a slot", 8),
        Field::Address => Number("an address", 64),
        Field::Length => Number("a length", 32),
        Field::Tag => Number("an operation's tag", 8),
        Field::Device => Number("a further device", 8),
        Field::Capacity => Number("a disk's number of sectors", 64),
        Field::Depth => Number("a number of operations", 8),
        Field::Regions => Other(
            "a memory is one to eight regions by base and length, as 80000000+1000 or 0+1000,80000000+1000",
        ),
        Field::Offset => Other("a register offset is three lower case hexadecimal digits, as 070"),
        Field::Value => Other(
            "a value is two lower case hexadecimal digits for each byte of its width, as 0000000f of width 4",
        ),
        Field::Disk => Other(
            "a slot's disk is image, image+8 by its spare sectors, or host:1 to host:40",
        ),
        Field::Window => Other("a window is b or c"),
        Field::Width => Other("a width is 1, 2 or 4"),
        Field::Mode => Other("a disk is rw or ro"),
        Field::Verdict => Other("what came of an operation is done or failed"),
        Field::Kind => Other(
            "a further device is entropy, network:525400123456:5dc by its address and its MTU, console:50:19 by its columns and rows, disk or image",
        ),
        Field::Link => Other("a link is up or down"),
        Field::Bytes => {
            Other("bytes are two lower case hexadecimal digits each, as 4142, or - for none")
        }
        Field::Identity => Other(
            "an identity is 20 bytes by two lower case hexadecimal digits each, so 40 digits",
        ),
    }
}
