//! A run of guest memory, and a buffer: such a run with its direction.

ghost use Rattle.std.specs.Prelude.{◌≡◌, ◌+◌, ◌-◌, ◌^◌, ◌<◌, ◌≤◌};

/// `len` bytes of guest memory from address `addr` on.
#[derive(Clone, Copy, Debug, Default, PartialEq, Eq)]
pub struct Segment {
    pub addr: u64,
    pub len: u32,
}

impl Segment {
    /// What is left of it from its byte `place` on.
    pub(crate) fn rest(self, place: u64) -> Segment
        requires place { place < self.len }
        requires addressable { self.addr + self.len ≤ 2 ^ 64 }
        ensures { result ≡ record { addr = self.addr + place; len = self.len - place } }
    {
        Segment {
            addr: self.addr + place,
            len: self.len - place as u32,
        }
    }
}

/// A segment that a driver hands to a device (2.7.4): to be read by it, or, where WRITE is set, to be
/// written.
#[derive(Clone, Copy, Debug, Default, PartialEq, Eq)]
pub struct Buffer {
    pub segment: Segment,
    pub writable: bool,
}
