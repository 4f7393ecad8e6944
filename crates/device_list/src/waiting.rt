//! What waits in a device, read from the front of the bytes that are left.

ghost use Rattle.std.specs.Prelude.{◌≡◌, ◌+◌, ◌^◌, ◌<◌, ◌≤◌, ◌++◌, IfSome, length};
ghost use Rattle.std.specs.Int.{w16, w32, w64};
ghost use Rattle.device_list.specs.Card.{card_limits};
ghost use Rattle.device_list.specs.Waiting.{Reads, counted, counted_at, flag_at};
ghost use Rattle.network_device.specs.Frames.{IsWithin};
ghost use Rattle.network_device.specs.Saved.{bytes_at, frames_at, number_at};

use crate::card::CARD_LIMITS;
use byteorder::{ByteOrder, LittleEndian};
use network_device::SavedFrames;

/// The bytes of what waits that aren't read yet.
#[derive(Drop)]
pub(crate) struct Reader<'a> {
    pub(crate) left: &'a [u8],
}

impl<'a> Reader<'a> {
    // As many bytes.
    fn front(&mut self, len: usize) -> Option<&'a [u8]>
        ensures { Reads (bytes_at len) (λ x. x.now) self.old.left.now result self.new.left.now }
    {
        if self.left.len() < len {
            return None;
        }
        let (front, rest) = self.left.split_at(len);
        self.left = rest;
        Some(front)
    }

    pub(crate) fn u16(&mut self) -> Option<u16>
        ensures { Reads (number_at w16) (λ x. x) self.old.left.now result self.new.left.now }
    {
        Some(LittleEndian::read_u16(self.front(2)?))
    }

    fn u32(&mut self) -> Option<u32>
        ensures { Reads (number_at w32) (λ x. x) self.old.left.now result self.new.left.now }
    {
        Some(LittleEndian::read_u32(self.front(4)?))
    }

    pub(crate) fn u64(&mut self) -> Option<u64>
        ensures { Reads (number_at w64) (λ x. x) self.old.left.now result self.new.left.now }
    {
        Some(LittleEndian::read_u64(self.front(8)?))
    }

    /// A choice of no and yes.
    pub(crate) fn flag(&mut self) -> Option<bool>
        ensures { Reads flag_at (λ x. x) self.old.left.now result self.new.left.now }
    {
        let (flag, rest) = match self.left {
            [0, rest @ ..] => (false, rest),
            [1, rest @ ..] => (true, rest),
            _ => return None,
        };
        self.left = rest;
        Some(flag)
    }

    /// At most so many bytes, behind their count.
    pub(crate) fn counted(&mut self, most: usize) -> Option<&'a [u8]>
        ensures bytes { Reads (counted_at most) (λ x. x.now) self.old.left.now result self.new.left.now }
        ensures few { IfSome result (λ bytes. length bytes.now ≤ most) }
    {
        let count = self.u32()? as usize;
        if count > most {
            return None;
        }
        self.front(count)
    }

    /// Frames within the limits of a card.
    pub(crate) fn frames(&mut self) -> Option<SavedFrames<'a>>
        ensures frames { Reads (frames_at card_limits) (λ x. x) self.old.left.now result self.new.left.now }
        ensures within { IfSome result (λ frames. IsWithin card_limits frames) }
    {
        let (frames, rest) = SavedFrames::read(self.left, CARD_LIMITS)?;
        self.left = rest;
        Some(frames)
    }
}

/// Writes bytes behind their count. They come in two parts.
pub(crate) fn write_counted(first: &[u8], later: &[u8], into: &mut [u8])
    requires few { length first.now + length later.now < 2 ^ 32 }
    requires len { length into.old ≡ length (counted (first.now ++ later.now)) }
    ensures { into.new ≡ counted (first.now ++ later.now) }
{
    let (count, rest) = into.split_at_mut(4);
    LittleEndian::write_u32(count, (first.len() + later.len()) as u32);
    rest[..first.len()].copy_from_slice(first);
    rest[first.len()..].copy_from_slice(later);
}
