//! Single fields, read from the front of the bytes that are left.

ghost use Rattle.std.specs.Prelude.{◌≡◌, ◌<◌, ◌≤◌, MatchResult, drop, length, take};
ghost use Rattle.std.specs.Int.{w16, w32, w64};
ghost use Rattle.snapshot.specs.Reading.{Reads, byte_at, flag_at, bytes_at, interrupts_at, number_at};

use crate::fault::{Stop, Why};
use byteorder::{ByteOrder, LittleEndian};
use mmio_window::Interrupts;

/// The bytes of a snapshot that aren't read yet.
#[derive(Drop)]
pub(crate) struct Reader<'a> {
    pub(crate) left: &'a [u8],
}

impl<'a> Reader<'a> {
    /// As many bytes.
    pub(crate) fn front(&mut self, len: usize) -> Result<&'a [u8], Stop>
        ensures { MatchResult result
            (λ front. (len ≤ length self.old.left.now) × (front.now ≡ take len self.old.left.now) × (self.new.left.now ≡ drop len self.old.left.now))
            (λ stop. (length self.old.left.now < len) × (stop ≡ record { why = Why.Short; left = length self.old.left.now })) }
    {
        if self.left.len() < len {
            return Err(Stop::at(Why::Short, self.left));
        }
        let (front, rest) = self.left.split_at(len);
        self.left = rest;
        Ok(front)
    }

    pub(crate) fn u8(&mut self) -> Result<u8, Stop>
        ensures { Reads byte_at self.old.left.now result self.new.left.now }
    {
        match self.left {
            [] => Err(Stop::at(Why::Short, self.left)),
            [byte, rest @ ..] => {
                self.left = rest;
                Ok(*byte)
            }
        }
    }

    pub(crate) fn u16(&mut self) -> Result<u16, Stop>
        ensures { Reads (number_at w16) self.old.left.now result self.new.left.now }
    {
        Ok(LittleEndian::read_u16(self.front(2)?))
    }

    pub(crate) fn u32(&mut self) -> Result<u32, Stop>
        ensures { Reads (number_at w32) self.old.left.now result self.new.left.now }
    {
        Ok(LittleEndian::read_u32(self.front(4)?))
    }

    pub(crate) fn u64(&mut self) -> Result<u64, Stop>
        ensures { Reads (number_at w64) self.old.left.now result self.new.left.now }
    {
        Ok(LittleEndian::read_u64(self.front(8)?))
    }

    /// An identity of 20 bytes.
    pub(crate) fn identity(&mut self) -> Result<[u8; 20], Stop>
        ensures { Reads (bytes_at 20) self.old.left.now result self.new.left.now }
    {
        let mut identity = [0; 20];
        identity.copy_from_slice(self.front(20)?);
        Ok(identity)
    }

    /// An address of 6 bytes.
    pub(crate) fn mac(&mut self) -> Result<[u8; 6], Stop>
        ensures { Reads (bytes_at 6) self.old.left.now result self.new.left.now }
    {
        let mut mac = [0; 6];
        mac.copy_from_slice(self.front(6)?);
        Ok(mac)
    }

    /// A choice of no and yes.
    #[tactic(auto, unfolding(crate::specs::Reading::flag_at))]
    pub(crate) fn flag(&mut self) -> Result<bool, Stop>
        ensures { Reads flag_at self.old.left.now result self.new.left.now }
    {
        let (flag, rest) = match self.left {
            [] => return Err(Stop::at(Why::Short, self.left)),
            [0, rest @ ..] => (false, rest),
            [1, rest @ ..] => (true, rest),
            [_, ..] => return Err(Stop::at(Why::Choice, self.left)),
        };
        self.left = rest;
        Ok(flag)
    }

    /// Both reasons of an interrupt.
    #[tactic(auto, unfolding(crate::specs::Reading::interrupts_at))]
    pub(crate) fn interrupts(&mut self) -> Result<Interrupts, Stop>
        ensures { Reads interrupts_at self.old.left.now result self.new.left.now }
    {
        let ((used_buffer, configuration_change), rest) = match self.left {
            [] => return Err(Stop::at(Why::Short, self.left)),
            [0, rest @ ..] => ((false, false), rest),
            [1, rest @ ..] => ((true, false), rest),
            [2, rest @ ..] => ((false, true), rest),
            [3, rest @ ..] => ((true, true), rest),
            [_, ..] => return Err(Stop::at(Why::Choice, self.left)),
        };
        self.left = rest;
        Ok(Interrupts {
            used_buffer,
            configuration_change,
        })
    }
}
