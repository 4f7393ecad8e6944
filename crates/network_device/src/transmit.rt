//! The transmit queue's device: it serves chains over an outlet.

ghost use Rattle.std.specs.Prelude.{◌≡◌, ◌+◌, ◌-◌, ◌<◌, ◌≤◌, [], false, length, take, drop, true};
ghost use Rattle.std.specs.List.{range_with_len};
ghost use Rattle.guest_memory.specs.Memory.{Inside};
ghost use Rattle.chain.specs.Buffers.{Good};
ghost use Rattle.chain.specs.Bytes.{addresses_of, len_of};
ghost use Rattle.chain_handler.specs.Output.{IsPutOut};
ghost use Rattle.shared_memory.specs.Sightings.{Loads, memory};
ghost use Rattle.network_device.specs.Frames.{has_room};
ghost use Rattle.network_device.specs.Sending.{IsSent};

use crate::header::HEADER;
use crate::outlet::FrameOutlet;
use chain::{Chain, Segment, Used};
use chain_handler::ChainHandler;
use shared_memory::Shared;
use thiserror::Error;

/// How many bytes are copied at once where the guest may write meanwhile.
const PIECE_LEN: usize = 512;

/// An outlet had no room for a frame, whose chain is still on offer.
#[derive(Clone, Copy, Debug, PartialEq, Eq, Error)]
#[error("no room for the frame on offer until others are taken")]
pub struct NoRoom;

/// Puts out the frames of chains. It leaves one on offer for which the outlet has no room.
#[derive(Drop)]
pub(crate) struct Transmit {
    /// How many were dropped.
    pub dropped: u64,
}

impl<O: FrameOutlet> ChainHandler<O> for Transmit {
    type Refusal = NoRoom;

    ghost use Rattle.std.specs.Prelude.{length};
    ghost use Rattle.chain.specs.Bytes.{writable_of};
    ghost use Rattle.network_device.specs.declared.limits.Limits.{Limits};
    ghost use Rattle.network_device.specs.Device.{Passing, passing, transmit};

    ghost State = { Passing };

    ghost state = { λ here out. passing (O.frames out) here.dropped };

    ghost Setup = { Limits };

    ghost setup = { λ here out. O.limits out };

    ghost device = { λ limits. transmit limits };

    ghost Refuses = { λ limits left out readable buffers why.
        (transmit limits).LacksMemory out readable (length (writable_of buffers)) };

    ghost IsReady = { λ here out. O.begun out ≡ [] };

    fn takes(&self, _out: &O) -> bool {
        true
    }

    fn serve<M: Shared>(
        &mut self,
        mem: &mut M,
        chain: &Chain,
        out: &mut O,
    ) -> Result<Used, NoRoom> {
        let len = chain.readable_len();
        let frame = len.saturating_sub(HEADER);
        if (len > HEADER) & out.has_room(frame) {
            put_out(mem, chain, out);
            return Ok(Used::UNWRITTEN);
        }
        if (len > HEADER) & out.admits(frame) {
            return Err(NoRoom);
        }
        self.dropped = self.dropped.saturating_add(1);
        Ok(Used::UNWRITTEN)
    }
}

/// Puts out the frame of a chain, for which there is room, part after part.
fn put_out<M: Shared, O: FrameOutlet>(mem: &mut M, chain: &Chain, out: &mut O)
    requires good { Good (memory (M.sightings mem.old)) chain.now }
    requires frame { 12 < len_of false chain.now }
    requires room { has_room (O.limits out.old) (O.frames out.old) (len_of false chain.now - 12) ≡ true }
    requires begun { O.begun out.old ≡ [] }
    ensures sent { IsSent (M.sightings mem.old) (M.sightings mem.new) chain.now (O.frames out.old) (O.frames out.new) }
    ensures begun { O.begun out.new ≡ [] }
    ensures limits { O.limits out.new ≡ O.limits out.old }
    ensures loads { Loads M.races (M.sightings mem.old) (M.sightings mem.new) }
{
    let len = chain.readable_len();
    let mut done = HEADER;
    while done < len {
        done += put_part(mem, chain, done, out);
    }
    out.end();
}

/// Puts out bytes from a place on, and answers how many: all to the end of their segment where they stand, or a copy of the first
/// ones.
#[inline(always)]
fn put_part<M: Shared, O: FrameOutlet>(mem: &mut M, chain: &Chain, from: u64, out: &mut O) -> u64
    requires good { Good (memory (M.sightings mem.old)) chain.now }
    requires in_list { from < len_of false chain.now }
    requires room { has_room (O.limits out.old) (O.frames out.old)
        (length (O.begun out.old) + (len_of false chain.now - from)) ≡ true }
    ensures put { IsPutOut (M.sightings mem.old) (M.sightings mem.new)
        (take result (drop from (addresses_of false chain.now))) (O.begun out.old) (O.begun out.new) }
    ensures some { 0 < result }
    ensures fits { from + result ≤ len_of false chain.now }
    ensures frames { O.frames out.new ≡ O.frames out.old }
    ensures limits { O.limits out.new ≡ O.limits out.old }
    ensures loads { Loads M.races (M.sightings mem.old) (M.sightings mem.new) }
{
    let rest = chain.segment_at(false, from);
    let len = u64::from(rest.len);
    if let Some(part) = mem.in_place(rest.addr, len) {
        out.append(part);
        return len;
    }
    put_copy(mem, rest, &mut [0; PIECE_LEN], out)
}

/// Puts out a copy of the first bytes of a segment, and answers how many. `piece` is where they are copied to.
fn put_copy<M: Shared, O: FrameOutlet>(
    mem: &mut M,
    rest: Segment,
    piece: &mut [u8; PIECE_LEN],
    out: &mut O,
) -> u64
    requires inside { Inside (memory (M.sightings mem.old)) rest.addr rest.len }
    requires room { has_room (O.limits out.old) (O.frames out.old) (length (O.begun out.old) + rest.len) ≡ true }
    ensures put { IsPutOut (M.sightings mem.old) (M.sightings mem.new) (range_with_len rest.addr result)
        (O.begun out.old) (O.begun out.new) }
    ensures some { 0 < rest.len → 0 < result }
    ensures few { result ≤ rest.len }
    ensures frames { O.frames out.new ≡ O.frames out.old }
    ensures limits { O.limits out.new ≡ O.limits out.old }
    ensures loads { Loads M.races (M.sightings mem.old) (M.sightings mem.new) }
{
    let len = PIECE_LEN.min(rest.len as usize);
    let part = &mut piece[..len];
    mem.load(rest.addr, part);
    out.append(part);
    len as u64
}
