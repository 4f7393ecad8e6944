//! The formats of a trace, which the first line names.

ghost use Rattle.std.specs.Prelude.{◌≡◌, IfSome, IfNone};
ghost use Rattle.trace.specs.Faults.{IsHeader};
ghost use Rattle.trace.specs.Format.{identity_in_version_1};
ghost use Rattle.trace.specs.Text.{header};

/// How a trace is written.
#[derive(Clone, Copy, Debug, PartialEq, Eq)]
pub enum Format {
    /// `vreplay 1` or `vreplay 2`: a memory has one region, and the disks are on an image.
    Plain(Version),
    /// `kalyubos 1`: with memories of several regions, restores, and disks that the host serves.
    Extended,
}

/// A version of the plain format.
#[derive(Clone, Copy, Debug, PartialEq, Eq)]
pub enum Version {
    /// Its `slot` lines leave the identity out, which is the same for each slot.
    One,
    /// Its `slot` lines end in the identity.
    Two,
}

/// The identity of each slot of a version 1 trace.
pub(crate) fn identity_in_version_1() -> [u8; 20]
    ensures { result ≡ identity_in_version_1 }
{
    *b"vreplay-block\0\0\0\0\0\0\0"
}

/// The format that a first line names, where it is one.
pub fn format_of(line: &[u8]) -> Option<Format>
    ensures some { IfSome result (λ format. line.now ≡ header format) }
    ensures none { IfNone result (¬ IsHeader line.now) }
{
    match line {
        b"vreplay 1" => Some(Format::Plain(Version::One)),
        b"vreplay 2" => Some(Format::Plain(Version::Two)),
        b"kalyubos 1" => Some(Format::Extended),
        _ => None,
    }
}

/// The first line of a trace of this format.
pub(crate) fn header_of(format: Format) -> &'static [u8]
    ensures { result.now ≡ header format }
{
    match format {
        Format::Plain(Version::One) => b"vreplay 1",
        Format::Plain(Version::Two) => b"vreplay 2",
        Format::Extended => b"kalyubos 1",
    }
}
