//! The chain that a service takes next, asked of a copy of its ring before the service goes on.

ghost use Rattle.std.specs.Prelude.{IfSome, All};
ghost use Rattle.chain.specs.Buffers.{Good};

use crate::weave::Text;
use crate::wording::chain_mistakes::chain_mistake;
use crate::wording::mistakes::Mistake;
use crate::wording::places::{place_behind, places_ahead, size_of, used_place};
use crate::wording::request::{RequestSeen, request_seen};
use block_device::BlockDevice;
use chain::{Buffer, Chain, Fault, Virtqueue};
use guest_memory::GuestMemory;
use indirect::INDIRECT;
use mmio_window::{Queue, QueueRegisters, Token};
use packed_ring::PackedRing;
use split_ring::SplitRing;

/// What stands before a service where its ring's next chain is taken.
#[derive(Clone, Copy)]
pub enum Ahead {
    /// A chain.
    Chain(ChainSeen),
    /// What can't be served.
    Fault(Fault),
    /// No chain.
    Nothing,
}

/// A chain that a service takes.
#[derive(Clone, Copy)]
pub struct ChainSeen {
    /// Its head, or its buffer id.
    pub id: u16,
    /// How many places it has.
    pub places: u16,
    /// How many bytes the device may write.
    pub writable: u64,
    /// What it asks of a block device.
    pub request: Option<RequestSeen>,
    /// What it has that the standard forbids a driver.
    pub mistake: Option<Mistake>,
}

impl ChainSeen {
    /// Whether it asks the host of a disk.
    pub fn asks_host(&self) -> bool {
        match &self.request {
            Some(request) => request.asks_host(),
            None => false,
        }
    }
}

/// A copy of a queue's ring, which is asked what a service takes. It writes nothing: each chain is left in flight.
#[derive(Drop)]
pub struct Lookout {
    ring: Queue,
    size: u16,
}

impl Lookout {
    /// That of a queue that is ready.
    pub fn new(registers: &QueueRegisters) -> Option<Lookout> {
        let ring = registers.ring.as_ref()?;
        Some(Lookout {
            ring: ring.copied(),
            size: size_of(registers),
        })
    }

    /// The same once a chain in flight of so many places has been used.
    pub fn landed(self, places: u16) -> Option<Lookout> {
        let size = self.size;
        let place = place_behind(&self.ring, used_place(&self.ring), places, size);
        let ahead = places_ahead(&self.ring).checked_sub(places)?;
        let ring = match self.ring {
            Queue::Split(ring) => Queue::Split(ring.served_to(place, 0, 0, ahead)?),
            Queue::Packed(ring) => Queue::Packed(ring.served_to(place, 0, 0, ahead)?),
        };
        Some(Lookout { ring, size })
    }

    /// Opens a service, and answers what is wrong with what is on offer.
    pub fn open(&mut self, mem: &GuestMemory) -> Option<Fault> {
        if !self.ring.lies_in(mem) {
            return None;
        }
        self.ring.open(mem).err()
    }

    /// What the service takes next. The chain is left in `chain`, and said.
    pub fn next(
        &mut self,
        mem: &GuestMemory,
        device: Option<BlockDevice>,
        chain: &mut Chain,
        text: &mut Text,
    ) -> Ahead {
        chain.clear();
        if !self.ring.lies_in(mem) {
            return Ahead::Nothing;
        }
        match self.ring.take(mem, chain) {
            Ok(Some(token)) => {
                let request = match device {
                    Some(device) => Some(request_seen(&device, mem, chain)),
                    None => None,
                };
                say_chain(text, mem, &self.ring, &token, chain);
                let mistake = chain_mistake(mem, &self.ring, self.size, &token, chain);
                self.ring.launch(&token);
                Ahead::Chain(ChainSeen {
                    id: head_of(&token),
                    places: places_of(&token),
                    writable: chain.writable_len(),
                    request,
                    mistake,
                })
            }
            Ok(None) => Ahead::Nothing,
            Err(fault) => Ahead::Fault(fault),
        }
    }
}

// The head or the buffer id of a token.
fn head_of(token: &Token) -> u16 {
    match token {
        Token::Split(token) => token.head,
        Token::Packed(token) => token.id,
    }
}

// How many places the chain of a token has.
fn places_of(token: &Token) -> u16 {
    match token {
        Token::Split(_) => 1,
        Token::Packed(token) => token.length,
    }
}

// Says a chain with its buffers, and which descriptor each of them came from.
fn say_chain(text: &mut Text, mem: &GuestMemory, queue: &Queue, token: &Token, chain: &Chain) {
    let head = head_of(token);
    text.say("  chain ");
    text.count(u64::from(head));
    text.say(":");
    let mut origin = match (queue, token) {
        (Queue::Packed(ring), Token::Packed(_)) => Origin::At(ring.position()),
        _ => Origin::At(head),
    };
    let mut gap = " ";
    for buffer in chain.buffers() {
        text.say(gap);
        say_buffer(text, *buffer);
        origin = say_origin(text, mem, queue, origin);
        gap = ", ";
    }
    if chain.buffers().is_empty() {
        text.say(" no buffers");
    }
    text.say("\n");
}

/// Says a buffer: whether it is read or written, its address and its length.
pub fn say_buffer(text: &mut Text, buffer: Buffer) {
    text.say(if buffer.writable { "writes " } else { "reads " });
    text.hex(buffer.segment.addr);
    text.say("+");
    text.hex(u64::from(buffer.segment.len));
}

/// Where a buffer of a chain came from.
#[derive(Clone, Copy)]
enum Origin {
    /// The descriptor at this index or position.
    At(u16),
    /// An indirect table at this address.
    Table(u64),
    Nowhere,
}

// Says which descriptor or which table the next buffer came from, and answers that of the buffer behind it.
fn say_origin(text: &mut Text, mem: &GuestMemory, queue: &Queue, origin: Origin) -> Origin {
    match (origin, queue) {
        (Origin::At(index), Queue::Split(ring)) => say_split_origin(text, mem, ring, index),
        (Origin::At(position), Queue::Packed(ring)) => {
            say_packed_origin(text, mem, ring, position)
        }
        (Origin::Table(addr), _) => say_table(text, addr),
        (Origin::Nowhere, _) => Origin::Nowhere,
    }
}

// The same of the descriptor at an index of a split ring.
fn say_split_origin(text: &mut Text, mem: &GuestMemory, ring: &SplitRing, index: u16) -> Origin {
    if !ring.lies_in(mem) {
        return Origin::Nowhere;
    }
    let Some(found) = ring.descriptor(mem, index) else {
        return Origin::Nowhere;
    };
    if found.indirect {
        return say_table(text, found.buffer.segment.addr);
    }
    say_index(text, index);
    match found.next {
        Some(next) => Origin::At(next),
        None => Origin::Nowhere,
    }
}

// The same of the descriptor at a position of a packed ring.
fn say_packed_origin(
    text: &mut Text,
    mem: &GuestMemory,
    ring: &PackedRing,
    position: u16,
) -> Origin {
    if !ring.lies_in(mem) {
        return Origin::Nowhere;
    }
    let Some((table, _, flags)) = ring.descriptor(mem, position) else {
        return Origin::Nowhere;
    };
    if flags & INDIRECT != 0 {
        return say_table(text, table.segment.addr);
    }
    say_index(text, position);
    let next = position.wrapping_add(1);
    Origin::At(if ring.descriptor(mem, next).is_some() {
        next
    } else {
        0
    })
}

// Says the index of a descriptor.
fn say_index(text: &mut Text, index: u16) {
    text.say(" (");
    text.count(u64::from(index));
    text.say(")");
}

// Says the table that a buffer came from.
fn say_table(text: &mut Text, addr: u64) -> Origin {
    text.say(" (table ");
    text.hex(addr);
    text.say(")");
    Origin::Table(addr)
}
