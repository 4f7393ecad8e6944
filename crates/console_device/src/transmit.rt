//! The transmit queue's handler: it puts out the readable bytes of chains.

ghost use Rattle.std.specs.Prelude.{◌≡◌, ◌+◌, ◌<◌, ◌≤◌, false, length, IfSome, OnOk, OnErr};
ghost use Rattle.std.specs.List.{range_with_len};
ghost use Rattle.guest_memory.specs.Memory.{Inside};
ghost use Rattle.chain.specs.Buffers.{Good};
ghost use Rattle.chain.specs.Bytes.{addresses_of, len_of, readable_of};
ghost use Rattle.chain_handler.specs.Output.{IsPutOut};
ghost use Rattle.console_device.specs.Device.{Fits, MayRefuse};
ghost use Rattle.shared_memory.specs.Sightings.{Loads, memory};

use crate::no_memory::NoMemory;
use crate::outlet::Outlet;
use chain::{Chain, Segment, Used};
use chain_handler::ChainHandler;
use shared_memory::Shared;

/// How many bytes are copied at once on their way out.
const PIECE_LEN: usize = 512;

/// Puts out the readable bytes of chains. It leaves one on offer for whose bytes there is no room.
#[derive(Drop)]
pub struct TransmitHandler;

impl<O: Outlet> ChainHandler<O> for TransmitHandler {
    type Refusal = NoMemory;

    ghost use Rattle.std.specs.Prelude.{ℕ, List, Option};
    ghost use Rattle.console_device.specs.Device.{transmit_within};
    ghost use Rattle.console_device.specs.Output.{NoRoom};

    ghost State = { List ℕ };

    ghost state = { λ here out. O.bytes out };

    ghost Setup = { Option ℕ };

    ghost setup = { λ here out. O.limit out };

    ghost device = { λ limit. transmit_within limit };

    ghost Refuses = { λ limit left out readable buffers why. NoRoom limit out readable buffers why };

    ghost IsReady = { λ here out. Unit {0} };

    fn takes(&self, _out: &O) -> bool {
        true
    }

    fn serve<M: Shared>(
        &mut self,
        mem: &mut M,
        chain: &Chain,
        out: &mut O,
    ) -> Result<Used, NoMemory> {
        put_out(mem, chain, out)?;
        Ok(Used::UNWRITTEN)
    }
}

/// Puts out the readable bytes of a chain. Those that stand in one buffer go out in one call. Before the first of others is
/// read, room for all of them is made.
fn put_out<M: Shared, O: Outlet>(mem: &mut M, chain: &Chain, out: &mut O) -> Result<(), NoMemory>
    requires good { Good (memory (M.sightings mem.old)) chain.now }
    ensures ok { OnOk result (IsPutOut (M.sightings mem.old) (M.sightings mem.new) (addresses_of false chain.now)
        (O.bytes out.old) (O.bytes out.new)) }
    ensures fits { OnOk result (Fits (O.limit out.old) (length (O.bytes out.old) + len_of false chain.now)) }
    ensures err { OnErr result (O.bytes out.new ≡ O.bytes out.old) }
    ensures owed { OnErr result (0 < len_of false chain.now) }
    ensures refused { OnErr result (MayRefuse (O.limit out.old) (length (O.bytes out.old) + len_of false chain.now)) }
    ensures unread { OnErr result (M.sightings mem.new ≡ M.sightings mem.old) }
    ensures limit { O.limit out.new ≡ O.limit out.old }
    ensures loads { Loads M.races (M.sightings mem.old) (M.sightings mem.new) }
{
    if let Some(bytes) = in_one_buffer(mem, chain) {
        return out.put(bytes);
    }
    out.make_room(chain.readable_len())?;
    put_parts(mem, chain, out);
    Ok(())
}

/// The readable bytes of a chain that has them all in one buffer, where its memory lends them.
#[inline(always)]
fn in_one_buffer<'m, M: Shared>(mem: &'m M, chain: &Chain) -> Option<&'m [u8]>
    requires good { Good (memory (M.sightings mem.now)) chain.now }
    ensures { IfSome result (λ bytes. bytes.now ≡ readable_of (memory (M.sightings mem.now)) chain.now) }
{
    let len = chain.readable_len();
    if len == 0 {
        return None;
    }
    let first = chain.segment_at(false, 0);
    if u64::from(first.len) < len {
        return None;
    }
    mem.in_place(first.addr, len)
}

/// Puts out the readable bytes of a chain, for which `out` has room.
fn put_parts<M: Shared, O: Outlet>(mem: &mut M, chain: &Chain, out: &mut O)
    requires good { Good (memory (M.sightings mem.old)) chain.now }
    requires room { len_of false chain.now ≤ O.room out.old }
    ensures put { IsPutOut (M.sightings mem.old) (M.sightings mem.new) (addresses_of false chain.now)
        (O.bytes out.old) (O.bytes out.new) }
    ensures limit { O.limit out.new ≡ O.limit out.old }
    ensures loads { Loads M.races (M.sightings mem.old) (M.sightings mem.new) }
{
    let len = chain.readable_len();
    let mut piece = [0; PIECE_LEN];
    let mut done = 0;
    while done < len {
        let rest = chain.segment_at(false, done);
        done += put_part(mem, rest, &mut piece, out);
    }
}

/// Puts out the first bytes of a segment, and answers how many: all of them where the memory lends them, else those that `piece`
/// has room for, each of which is copied once.
#[inline(always)]
fn put_part<M: Shared, O: Outlet>(
    mem: &mut M,
    segment: Segment,
    piece: &mut [u8],
    out: &mut O,
) -> u64
    requires inside { Inside (memory (M.sightings mem.old)) segment.addr segment.len }
    requires some { 0 < segment.len }
    requires piece { 0 < length piece.old }
    requires room { segment.len ≤ O.room out.old }
    ensures some { 0 < result }
    ensures within { result ≤ segment.len }
    ensures put { IsPutOut (M.sightings mem.old) (M.sightings mem.new) (range_with_len segment.addr result)
        (O.bytes out.old) (O.bytes out.new) }
    ensures room { O.room out.old ≤ O.room out.new + result }
    ensures limit { O.limit out.new ≡ O.limit out.old }
    ensures loads { Loads M.races (M.sightings mem.old) (M.sightings mem.new) }
{
    let len = u64::from(segment.len);
    if let Some(bytes) = mem.in_place(segment.addr, len) {
        out.append(bytes);
        return len;
    }
    let few = len.min(piece.len() as u64);
    put_copy(mem, segment.addr, &mut piece[..few as usize], out);
    few
}

/// Copies as many bytes from `addr` on as `piece` has, and puts them out.
fn put_copy<M: Shared, O: Outlet>(mem: &mut M, addr: u64, piece: &mut [u8], out: &mut O)
    requires inside { Inside (memory (M.sightings mem.old)) addr (length piece.old) }
    requires room { length piece.old ≤ O.room out.old }
    ensures put { IsPutOut (M.sightings mem.old) (M.sightings mem.new) (range_with_len addr (length piece.old))
        (O.bytes out.old) (O.bytes out.new) }
    ensures room { O.room out.old ≤ O.room out.new + length piece.old }
    ensures limit { O.limit out.new ≡ O.limit out.old }
    ensures loads { Loads M.races (M.sightings mem.old) (M.sightings mem.new) }
{
    mem.load(addr, piece);
    out.append(piece);
}
