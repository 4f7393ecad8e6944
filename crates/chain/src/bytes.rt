//! The two lists by places: lending what lies in one segment, and copying over as many as it takes.

ghost use Rattle.std.specs.Prelude.{◌≡◌, ℕ, List, [], ◌∷◌, ◌+◌, ◌-◌, ◌<◌, ◌≤◌, length, take, drop, min, All};
ghost use Rattle.std.specs.Borrow.{sem};
ghost use Rattle.guest_memory.specs.Memory.{Inside, Memory, SameRange, part_of, put};
ghost use Rattle.guest_memory.specs.Lending.{LendsPart};
ghost use Rattle.chain.specs.Buffers.{Within};
ghost use Rattle.chain.specs.Bytes.{readable_of, readable_rest, scatter, writable_of, writable_rest};

use crate::buffers::Chain;
use guest_memory::GuestMemory;
use std::alloc::Allocator;

impl Chain {
    /// Lends the bytes from place `from` of the readable list to the end of its segment. Segments of no
    /// bytes are passed over, and neighbours aren't joined.
    #[inline(always)]
    pub fn read_part<'m, A: Allocator>(&self, mem: &'m GuestMemory<A>, from: u64) -> &'m [u8]
        requires inside { All (Within mem.now) self.now }
        requires in_list { from < length (readable_of mem.now self.now) }
        ensures value { result.now ≡ part_of mem.now
            (readable_rest self.now from).addr (readable_rest self.now from).len }
        ensures len { length result.now ≡ (readable_rest self.now from).len }
        ensures some { 0 < length result.now }
        ensures listed { result.now ≡
            take (length result.now) (drop from (readable_of mem.now self.now)) }
    {
        let rest = self.segment_at(false, from);
        mem.slice(rest.addr, u64::from(rest.len))
    }

    /// Lends the bytes at the addresses from place `from` of a chain's writable list to the end of its
    /// segment, but at most `most`, to be written. Segments of no bytes are passed over, and neighbours aren't
    /// joined.
    #[inline(always)]
    pub fn lend<'m, A: Allocator>(
        mem: &'m mut GuestMemory<A>,
        chain: &Chain,
        from: u64,
        most: u64,
    ) -> &'m mut [u8]
        requires inside { All (Within mem.old) chain.now }
        requires in_list { from < length (writable_of chain.now) }
        requires some { 0 < most }
        ensures* writes_back { sem 𝓛 (LendsPart A.row A.Allocator mem.entry
            (writable_rest chain.now from).addr result) }
        ensures value { result.now ≡
            part_of mem.old (writable_rest chain.now from).addr (length result.now) }
        ensures len { length result.now ≡ min most (writable_rest chain.now from).len }
        ensures some { 0 < length result.now }
        ensures listed { (bytes : List ℕ) → length bytes ≡ length result.now →
            put mem.old (writable_rest chain.now from).addr bytes ≡
            scatter mem.old (drop from (writable_of chain.now)) bytes }
    {
        let rest = chain.segment_at(true, from);
        mem.part_mut(rest.addr, u64::from(rest.len).min(most))
    }

    /// `lend`, called on the chain. A proof that ties what is lent to a call's first argument cites `lend`.
    pub fn write_part<'m, A: Allocator>(
        &self,
        mem: &'m mut GuestMemory<A>,
        from: u64,
        most: u64,
    ) -> &'m mut [u8]
        requires inside { All (Within mem.old) self.now }
        requires in_list { from < length (writable_of self.now) }
        requires some { 0 < most }
        ensures* writes_back { sem 𝓛 (LendsPart A.row A.Allocator mem.entry
            (writable_rest self.now from).addr result) }
        ensures value { result.now ≡
            part_of mem.old (writable_rest self.now from).addr (length result.now) }
        ensures len { length result.now ≡ min most (writable_rest self.now from).len }
        ensures some { 0 < length result.now }
        ensures listed { (bytes : List ℕ) → length bytes ≡ length result.now →
            put mem.old (writable_rest self.now from).addr bytes ≡
            scatter mem.old (drop from (writable_of self.now)) bytes }
    {
        Chain::lend(mem, self, from, most)
    }

    /// The address of the last byte that the device may write.
    pub fn last_writable(&self) -> u64
        requires { 0 < length (writable_of self.now) }
        ensures value { drop (length (writable_of self.now) - 1) (writable_of self.now) ≡ result ∷ [] }
        ensures inside { (m : Memory) → All (Within m) self.now → Inside m result 1 }
    {
        self.segment_at(true, self.writable_len() - 1).addr
    }

    /// Copies the bytes from place `from` of the readable list on into all of `into`.
    #[inline(always)]
    pub fn read_at<A: Allocator>(&self, mem: &GuestMemory<A>, from: u64, into: &mut [u8])
        requires inside { All (Within mem.now) self.now }
        requires range { from + length into.old ≤ length (readable_of mem.now self.now) }
        ensures { into.new ≡ take (length into.old) (drop from (readable_of mem.now self.now)) }
    {
        if into.is_empty() {
            return;
        }
        let rest = self.segment_at(false, from);
        if into.len() as u64 <= u64::from(rest.len) {
            into.copy_from_slice(mem.slice(rest.addr, into.len() as u64));
            return;
        }
        self.read_parts(mem, from, into);
    }

    // The same, over as many segments as it takes.
    #[inline(never)]
    fn read_parts<A: Allocator>(&self, mem: &GuestMemory<A>, from: u64, into: &mut [u8])
        requires inside { All (Within mem.now) self.now }
        requires some { 0 < length into.old }
        requires range { from + length into.old ≤ length (readable_of mem.now self.now) }
        ensures { into.new ≡ take (length into.old) (drop from (readable_of mem.now self.now)) }
    {
        // What it ensures: no place passes 2^32.
        let _ = self.buffers();
        let mut index = self.buffer_at(false, from);
        let mut done = 0;
        while done < into.len() {
            let place = from + done as u64;
            index = self.buffer_behind(index, false, place);
            let rest = self.rest_in(index, false, place);
            let n = (into.len() - done).min(rest.len as usize);
            into[done..done + n].copy_from_slice(mem.slice(rest.addr, n as u64));
            done += n;
        }
    }

    /// Puts the bytes one after another at the addresses from place `from` of the writable list on. Where
    /// the chain's segments overlap, the later byte stands.
    #[inline(always)]
    pub fn write_at<A: Allocator>(&self, mem: &mut GuestMemory<A>, from: u64, bytes: &[u8])
        requires inside { All (Within mem.old) self.now }
        requires range { from + length bytes.now ≤ length (writable_of self.now) }
        ensures written { mem.new ≡ scatter mem.old (drop from (writable_of self.now)) bytes.now }
        ensures same_range { SameRange mem.old mem.new }
    {
        if bytes.is_empty() {
            return;
        }
        let rest = self.segment_at(true, from);
        if bytes.len() as u64 <= u64::from(rest.len) {
            let part = mem.part_mut(rest.addr, bytes.len() as u64);
            part.copy_from_slice(bytes);
            return;
        }
        self.write_parts(mem, from, bytes);
    }

    // The same, over as many segments as it takes.
    #[inline(never)]
    fn write_parts<A: Allocator>(&self, mem: &mut GuestMemory<A>, from: u64, bytes: &[u8])
        requires inside { All (Within mem.old) self.now }
        requires some { 0 < length bytes.now }
        requires range { from + length bytes.now ≤ length (writable_of self.now) }
        ensures written { mem.new ≡ scatter mem.old (drop from (writable_of self.now)) bytes.now }
        ensures same_range { SameRange mem.old mem.new }
    {
        // What it ensures: no place passes 2^32.
        let _ = self.buffers();
        let mut index = self.buffer_at(true, from);
        let mut done = 0;
        while done < bytes.len() {
            let place = from + done as u64;
            index = self.buffer_behind(index, true, place);
            let rest = self.rest_in(index, true, place);
            let left = &bytes[done..];
            let part = mem.part_mut(rest.addr, u64::from(rest.len).min(left.len() as u64));
            let n = part.len();
            part.copy_from_slice(&left[..n]);
            done += n;
        }
    }
}
