//! The device: a pool of random bytes.

ghost use Rattle.std.specs.Prelude.{◌≡◌, ◌≤◌, ◌==◌, [], length, take, drop};
ghost use Rattle.chain.specs.Buffers.{Good};
ghost use Rattle.chain.specs.Bytes.{writable_of};
ghost use Rattle.shared_memory.specs.Bytes.{StoresEach};
ghost use Rattle.shared_memory.specs.Sightings.{memory};
ghost use Rattle.entropy_device.specs.Pool.{fitting, supplied};

use chain::Chain;
use chain_handler::store_in_chain;
use shared_memory::Shared;
use std::marker::Model;

/// How many bytes the pool holds.
const CAPACITY: usize = 4096;

/// An entropy device. It is seen as its pool: the bytes that its host supplied and no chain has.
#[derive(Drop)]
pub struct EntropyDevice {
    // The pool stands from `start` to `end`.
    bytes: [u8; CAPACITY],
    start: usize,
    end: usize,
}

impl Model for EntropyDevice {
    ghost use Rattle.std.specs.Prelude.{◌≤◌, ℕ, List, slice_range};

    ghost Value = { List ℕ };

    ghost view = { λ d. slice_range d.bytes d.start d.end };

    ghost invariant = { λ d. (d.start ≤ d.end) × (d.end ≤ 4096) };
}

impl EntropyDevice {
    /// A device whose pool is empty.
    pub fn new() -> EntropyDevice
        ensures { result ≡ [] }
    {
        EntropyDevice {
            bytes: [0; CAPACITY],
            start: 0,
            end: 0,
        }
    }

    /// Takes what the host supplies: the first bytes that fit go behind those in the pool. Answers how many they are.
    pub fn supply(&mut self, bytes: &[u8]) -> usize
        ensures count { result ≡ fitting self.old bytes.now }
        ensures taken { self.new ≡ supplied self.old bytes.now }
        ensures limit { length self.new ≤ 4096 }
    {
        let (start, end) = (self.start, self.end);
        let len = end - start;
        let taken = bytes.len().min(CAPACITY - len);
        self.bytes.copy_within(start..end, 0);
        self.bytes[len..len + taken].copy_from_slice(&bytes[..taken]);
        self.start = 0;
        self.end = len + taken;
        taken
    }

    /// Puts these bytes in the place of the pool's.
    pub fn restore(&mut self, pool: &[u8])
        requires { length pool.now ≤ 4096 }
        ensures { self.new ≡ pool.now }
    {
        self.bytes[..pool.len()].copy_from_slice(pool);
        self.start = 0;
        self.end = pool.len();
    }

    /// The bytes in the pool.
    pub fn waiting(&self) -> &[u8]
        ensures value { result.now ≡ self.now }
        ensures most { length self.now ≤ 4096 }
    {
        &self.bytes[self.start..self.end]
    }

    /// How many there are.
    pub fn len(&self) -> usize
        ensures value { result ≡ length self.now }
        ensures most { result ≤ 4096 }
    {
        self.end - self.start
    }

    /// Whether there is none.
    pub fn is_empty(&self) -> bool
        ensures { result ≡ (length self.now == 0) }
    {
        self.start == self.end
    }

    /// Moves the first bytes of the pool into the first places of a chain's writable list, as many as both have, and
    /// answers how many they are.
    pub(crate) fn fill<M: Shared>(&mut self, mem: &mut M, chain: &Chain) -> usize
        requires { Good (memory (M.sightings mem.old)) chain.now }
        ensures count { result ≡ length (take (length (writable_of chain.now)) self.old) }
        ensures few { result ≤ 4096 }
        ensures stored { StoresEach M.races (M.sightings mem.old) (M.sightings mem.new)
            (take result (writable_of chain.now)) (take (length (writable_of chain.now)) self.old) }
        ensures left { self.new ≡ drop (length (writable_of chain.now)) self.old }
    {
        let places = chain.writable_len() as usize;
        let count = self.len().min(places);
        store_in_chain(mem, chain, 0, &self.waiting()[..count]);
        self.skip(count);
        count
    }

    // Takes the first bytes away.
    fn skip(&mut self, count: usize)
        requires { count ≤ length self.old }
        ensures { self.new ≡ drop count self.old }
    {
        self.start += count;
    }
}
