//! Frames as they are saved: how many there are, the length of each, and their bytes.

ghost use Rattle.std.specs.Prelude.{◌≡◌, ◌+◌, ◌*◌, ◌^◌, ◌<◌, ◌≤◌, ◌++◌, [], IfSome, drop, length, map, take};
ghost use Rattle.std.specs.Int.{from_le_bytes, to_le_bytes, w32};
ghost use Rattle.std.specs.Option.{option_map};
ghost use Rattle.circular_buffer.specs.Buffer.{buffer};
ghost use Rattle.network_device.specs.Frames.{IsWithin, sum_of};
ghost use Rattle.network_device.specs.Saved.{bytes_at, frames_at, lens_of, numbers, saved_frames};

use crate::limits::Limits;
use crate::store::FrameStore;
use byteorder::{ByteOrder, LittleEndian};
use circular_buffer::HeapCircularBuffer;
use std::alloc::Allocator;
use std::marker::Model;

/// Frames in bytes that stand elsewhere, one after another, with the length of each.
#[derive(Drop)]
pub struct SavedFrames<'a> {
    lens: &'a [[u8; 4]],
    bytes: &'a [u8],
}

impl<'a> Model for SavedFrames<'a> {
    ghost use Rattle.std.specs.Prelude.{◌≡◌, ℕ, List, length, map};
    ghost use Rattle.std.specs.Int.{from_le_bytes, w32};
    ghost use Rattle.network_device.specs.Frames.{cut, sum_of};

    ghost Value = { List (List ℕ) };

    ghost view = { λ f. cut (map (from_le_bytes w32) f.lens.now) f.bytes.now };

    ghost invariant = { λ f. sum_of (map (from_le_bytes w32) f.lens.now) ≡ length f.bytes.now };
}

impl<'a> SavedFrames<'a> {
    /// The frames that these bytes begin with, within the limits, and the bytes behind them. There are none where the bytes
    /// can't be so.
    pub fn read(bytes: &'a [u8], limits: Limits) -> Option<(SavedFrames<'a>, &'a [u8])>
        ensures read { option_map (λ x. (x.0, x.1.now)) result ≡ frames_at limits bytes.now }
        ensures within { IfSome result (λ x. IsWithin limits x.0) }
    {
        let (count, rest) = split(bytes, 4)?;
        let count = LittleEndian::read_u32(count) as usize;
        if count > limits.frames {
            return None;
        }
        let (lens, rest) = split(rest, 4 * count)?;
        let (lens, _) = lens.as_chunks::<4>();
        let total = total_of(lens);
        if total > limits.bytes {
            return None;
        }
        let (bytes, rest) = split(rest, total)?;
        Some((SavedFrames { lens, bytes }, rest))
    }
}

// The first bytes, so many, and the others.
fn split(bytes: &[u8], len: usize) -> Option<(&[u8], &[u8])>
    ensures parts { option_map (λ x. (x.0.now, x.1.now)) result ≡ bytes_at len bytes.now }
    ensures len { IfSome result (λ x. length x.0.now ≡ len) }
{
    if bytes.len() < len {
        return None;
    }
    Some(bytes.split_at(len))
}

// How long frames of these lengths are in all.
fn total_of(lens: &[[u8; 4]]) -> usize
    requires few { length lens.now < 2 ^ 32 }
    ensures { result ≡ sum_of (map (from_le_bytes w32) lens.now) }
{
    let mut total = 0;
    for i in 0..lens.len() {
        total += u32::from_le_bytes(lens[i]) as usize;
    }
    total
}

// Puts these lengths behind those in a ring.
fn push_lens<A: Allocator>(ring: &mut HeapCircularBuffer<usize, A>, lens: &[[u8; 4]])
    requires room { length ring.old.items + length lens.now ≤ ring.old.capacity }
    ensures { ring.new ≡ buffer (ring.old.items ++ map (from_le_bytes w32) lens.now) ring.old.capacity }
{
    for i in 0..lens.len() {
        let Ok(()) = ring.try_push_back(u32::from_le_bytes(lens[i]) as usize) else {
            unreachable!()
        };
    }
}

// Writes a number at a place.
fn put_number(into: &mut [u8], at: usize, number: u32)
    requires { at + 4 ≤ length into.old }
    ensures { into.new ≡ take at into.old ++ (to_le_bytes w32 number ++ drop (at + 4) into.old) }
{
    LittleEndian::write_u32(&mut into[at..at + 4], number);
}

impl<A: Allocator> FrameStore<A> {
    /// In how many bytes the frames are saved.
    pub fn saved_len(&self) -> usize
        requires bytes { self.now.limits.bytes < 2 ^ 32 }
        requires frames { self.now.limits.frames < 2 ^ 32 }
        ensures len { result ≡ length (saved_frames self.now.frames) }
        ensures most { result ≤ 4 + 4 * self.now.limits.frames + self.now.limits.bytes }
    {
        4 + 4 * self.lens.len() + self.whole
    }

    /// Writes them into a buffer of that length.
    pub fn save(&self, into: &mut [u8])
        requires bytes { self.now.limits.bytes < 2 ^ 32 }
        requires frames { self.now.limits.frames < 2 ^ 32 }
        requires len { length into.old ≡ length (saved_frames self.now.frames) }
        ensures text { into.new ≡ saved_frames self.now.frames }
        ensures within { IsWithin self.now.limits self.now.frames }
    {
        let (count, rest) = into.split_at_mut(4);
        LittleEndian::write_u32(count, self.lens.len() as u32);
        let (lens, bytes) = rest.split_at_mut(4 * self.lens.len());
        self.save_lens(lens);
        bytes.copy_from_slice(&self.bytes.as_slice()[..self.whole]);
    }

    // Writes their lengths.
    fn save_lens(&self, into: &mut [u8])
        requires bytes { self.now.limits.bytes < 2 ^ 32 }
        requires frames { self.now.limits.frames < 2 ^ 32 }
        requires len { length into.old ≡ 4 * length self.now.frames }
        ensures { into.new ≡ numbers (lens_of self.now.frames) }
    {
        for i in 0..self.lens.len() {
            let Some(len) = self.lens.get(i) else {
                unreachable!()
            };
            put_number(into, 4 * i, *len as u32);
        }
    }

    /// Puts these frames in the place of all that is there.
    pub fn restore(&mut self, frames: &SavedFrames<'_>)
        requires { IsWithin self.old.limits frames.now }
        ensures { self.new ≡ record self.old { frames = frames.now; begun = [] } }
    {
        self.lens.clear();
        self.bytes.clear();
        push_lens(&mut self.lens, frames.lens);
        self.bytes.append(frames.bytes);
        self.whole = frames.bytes.len();
    }
}
