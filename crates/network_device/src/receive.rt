//! The receive queue's device: it serves chains over the frames that wait.

ghost use Rattle.std.specs.Prelude.{◌≡◌, ◌++◌, ◌+◌, ◌≤◌, ◌<◌, length, take, drop, get_or, []};
ghost use Rattle.chain.specs.Buffers.{Good};
ghost use Rattle.chain.specs.Bytes.{writable_of};
ghost use Rattle.shared_memory.specs.Bytes.{StoresEach};
ghost use Rattle.shared_memory.specs.Sightings.{memory};
ghost use Rattle.network_device.specs.Device.{fits, misfits};
ghost use Rattle.network_device.specs.Header.{receive_header};

use crate::header::{HEADER, HEADER_LEN, receive_header};
use crate::store::FrameStore;
use chain::{Chain, Used};
use chain_handler::{ChainHandler, store_in_chain};
use shared_memory::Shared;
use std::alloc::Allocator;

/// No waiting frame fits the chain on offer.
#[derive(Drop)]
pub(crate) struct NoneFits;

/// Puts waiting frames into chains.
#[derive(Drop)]
pub(crate) struct Receive {
    /// How many were dropped.
    pub dropped: u64,
}

impl<A: Allocator> ChainHandler<FrameStore<A>> for Receive {
    type Refusal = NoneFits;

    ghost use Rattle.std.specs.Prelude.{length};
    ghost use Rattle.chain.specs.Bytes.{writable_of};
    ghost use Rattle.network_device.specs.declared.limits.Limits.{Limits};
    ghost use Rattle.network_device.specs.Device.{Passing, passing, receive};

    ghost State = { Passing };

    ghost state = { λ here store. passing store.frames here.dropped };

    ghost Setup = { Limits };

    ghost setup = { λ here store. store.limits };

    ghost device = { λ limits. receive };

    ghost Refuses = { λ limits left waiting readable buffers why.
        receive.LacksMemory waiting readable (length (writable_of buffers)) };

    ghost IsReady = { λ here store. store.begun ≡ [] };

    fn takes(&self, store: &FrameStore<A>) -> bool {
        store.count() > 0
    }

    fn serve<M: Shared>(
        &mut self,
        mem: &mut M,
        chain: &Chain,
        store: &mut FrameStore<A>,
    ) -> Result<Used, NoneFits> {
        let skipped = misfits(store, chain.writable_len());
        if skipped == store.count() {
            return Err(NoneFits);
        }
        skip(store, skipped);
        self.dropped = self.dropped.saturating_add(skipped as u64);
        let Some((front, back)) = store.front() else {
            unreachable!()
        };
        let len = write_frame(mem, chain, front, back);
        store.pop();
        Ok(Used { len, wrote: true })
    }
}

/// How many frames in front don't fit a chain with so much room.
fn misfits<A: Allocator>(store: &FrameStore<A>, room: u64) -> usize
    ensures { result ≡ misfits room store.now.frames }
{
    let count = store.count();
    let mut place = 0;
    while place < count && !fits_at(store, place, room) {
        place += 1;
    }
    place
}

/// Whether the frame at this place fits.
fn fits_at<A: Allocator>(store: &FrameStore<A>, place: usize, room: u64) -> bool
    requires { place < length store.now.frames }
    ensures { result ≡ fits room (get_or store.now.frames place []) }
{
    let Some(len) = store.frame_len(place) else {
        unreachable!()
    };
    (room >= HEADER) & (len as u64 <= room.saturating_sub(HEADER))
}

/// Takes so many frames away.
pub(crate) fn skip<A: Allocator>(store: &mut FrameStore<A>, count: usize)
    ensures { store.new ≡ record store.old { frames = drop count store.old.frames } }
{
    let mut left = count;
    while left > 0 {
        store.pop();
        left -= 1;
    }
}

/// Stores a header and a frame of two parts in a chain, and answers how many bytes they are.
fn write_frame<M: Shared>(mem: &mut M, chain: &Chain, front: &[u8], back: &[u8]) -> u32
    requires good { Good (memory (M.sightings mem.old)) chain.now }
    requires fits { 12 + length front.now + length back.now ≤ length (writable_of chain.now) }
    ensures stored { StoresEach M.races (M.sightings mem.old) (M.sightings mem.new)
        (take result (writable_of chain.now)) (receive_header ++ front.now ++ back.now) }
    ensures len { result ≡ 12 + length front.now + length back.now }
{
    let header = receive_header();
    store_in_chain(mem, chain, 0, &header);
    store_in_chain(mem, chain, HEADER, front);
    store_in_chain(mem, chain, HEADER + front.len() as u64, back);
    (HEADER_LEN + front.len() + back.len()) as u32
}
