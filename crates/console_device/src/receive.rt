//! The receive queue's handler: it stores pending input in chains.

ghost use Rattle.std.specs.Prelude.{◌≡◌, ◌+◌, ◌≤◌, length, take, drop};
ghost use Rattle.chain.specs.Buffers.{Good};
ghost use Rattle.chain.specs.Bytes.{writable_of};
ghost use Rattle.shared_memory.specs.Bytes.{StoresEach};
ghost use Rattle.shared_memory.specs.Sightings.{memory};

use crate::device::ConsoleDevice;
use crate::no_memory::NoMemory;
use chain::{Chain, Used};
use chain_handler::{ChainHandler, store_in_chain};
use shared_memory::Shared;
use std::alloc::Allocator;

/// Stores pending input in the writable places of chains. It refuses none.
#[derive(Drop)]
pub struct ReceiveHandler;

impl<A: Allocator> ChainHandler<ConsoleDevice<A>> for ReceiveHandler {
    type Refusal = NoMemory;

    ghost use Rattle.std.specs.Prelude.{ℕ, List};
    ghost use Rattle.console_device.specs.Device.{receive};

    ghost State = { List ℕ };

    ghost state = { λ here console. console.pending };

    ghost Setup = { ℕ × ℕ };

    ghost setup = { λ here console. (console.cols, console.rows) };

    ghost device = { λ size. receive };

    ghost Refuses = { λ size left pending readable buffers why. ⊥ };

    ghost IsReady = { λ here console. Unit {0} };

    fn takes(&self, console: &ConsoleDevice<A>) -> bool {
        console.pending_len() > 0
    }

    fn serve<M: Shared>(
        &mut self,
        mem: &mut M,
        chain: &Chain,
        console: &mut ConsoleDevice<A>,
    ) -> Result<Used, NoMemory> {
        let count = store_input(mem, chain, console);
        console.skip_input(count);
        Ok(Used {
            len: count as u32,
            wrote: count > 0,
        })
    }
}

/// Stores pending input in the first writable places of a chain, as many bytes as both have, and answers how many they
/// are. What is pending stays.
#[inline(always)]
fn store_input<M: Shared, A: Allocator>(
    mem: &mut M,
    chain: &Chain,
    console: &ConsoleDevice<A>,
) -> usize
    requires good { Good (memory (M.sightings mem.old)) chain.now }
    ensures count { result ≡ length (take (length (writable_of chain.now)) console.now.pending) }
    ensures stored { StoresEach M.races (M.sightings mem.old) (M.sightings mem.new)
        (take result (writable_of chain.now)) (take (length (writable_of chain.now)) console.now.pending) }
{
    let places = chain.writable_len() as usize;
    let (front, back) = console.pending();
    let from_front = front.len().min(places);
    let from_back = back.len().min(places - from_front);
    store_in_chain(mem, chain, 0, &front[..from_front]);
    store_behind(mem, chain, from_front as u64, &back[..from_back]);
    from_front + from_back
}

/// Stores bytes from a place of a chain on, behind others: mostly there are none.
#[inline(always)]
fn store_behind<M: Shared>(mem: &mut M, chain: &Chain, place: u64, bytes: &[u8])
    requires good { Good (memory (M.sightings mem.old)) chain.now }
    requires range { place + length bytes.now ≤ length (writable_of chain.now) }
    ensures { StoresEach M.races (M.sightings mem.old) (M.sightings mem.new)
        (take (length bytes.now) (drop place (writable_of chain.now))) bytes.now }
{
    if !bytes.is_empty() {
        store_in_chain(mem, chain, place, bytes);
    }
}
