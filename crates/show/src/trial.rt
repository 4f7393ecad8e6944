//! What a look writes between two chains, put into the memory of the board that goes along, and taken back.
//!
//! A driver that leaves a queue's areas or a chain's buffers one over the other finds what the device wrote of one chain in
//! the next.

use crate::guest::{SlotQueue, queue_of};
use crate::watched::Watched;
use crate::wording::{ChainSeen, place_behind, size_of, used_place};
use block_device::{BlockDevice, Request, RequestStatus, Verdict};
use chain::Chain;
use indirect::WRITE;
use mmio_window::Queue;
use std::alloc::Global;

/// The flags of a packed descriptor that was used in the first round (2.8.1).
const USED_FLAGS: u16 = 0x8080;

/// A byte of memory, and its address.
#[derive(Clone, Copy)]
struct Kept {
    addr: u64,
    byte: u8,
}

/// Writes into a slot's memory that are to be taken back.
#[derive(Drop)]
pub struct Trial {
    at: SlotQueue,
    kept: Vec<Kept>,
    is_full: bool,
    /// The place of the next used entry.
    place: u16,
}

impl Trial {
    /// None were made yet.
    pub fn new(alloc: Global, board: &Watched, at: SlotQueue) -> Trial {
        let place = match queue_of(board, at) {
            Some((_, registers)) => registers.ring.as_ref().map_or(0, |ring| used_place(ring)),
            None => 0,
        };
        Trial {
            at,
            kept: Vec::new(alloc),
            is_full: false,
            place,
        }
    }

    /// Writes what a device writes of a chain that it serves at once.
    pub fn serve(
        &mut self,
        board: &mut Watched,
        device: &BlockDevice,
        seen: &ChainSeen,
        chain: &Chain,
    ) {
        let Some(request) = seen.request else {
            return;
        };
        let (found, status) = match request.request {
            Request::Rejected(RequestStatus::Unsupported) => (0, 2),
            Request::Rejected(_) => (0, 1),
            _ => (device.identity.len() as u64, 0),
        };
        if found > 0 && request.status_at.is_some() {
            self.put_identity(board, &device.identity, chain);
        }
        self.give(board, seen, found, status);
    }

    /// Writes what a device writes of a chain that was in flight, and of the closing behind it.
    pub fn land(&mut self, board: &mut Watched, seen: &ChainSeen, verdict: Verdict) {
        let request = match seen.request {
            Some(seen) => Some(seen.request),
            None => None,
        };
        let found = match (verdict, request) {
            (Verdict::Done, Some(Request::Read { .. })) => seen.writable.saturating_sub(1),
            _ => 0,
        };
        let status = if matches!(verdict, Verdict::Done) {
            0
        } else {
            1
        };
        self.give(board, seen, found, status);
        self.close(board);
    }

    /// Takes all back, and answers whether each write was made.
    pub fn take_back(self, board: &mut Watched) -> bool {
        for kept in self.kept.iter().rev() {
            board.put(self.at.slot, kept.addr, kept.byte);
        }
        !self.is_full
    }

    // Writes bytes from an address on, where memory is.
    fn put(&mut self, board: &mut Watched, addr: u64, bytes: &[u8]) {
        for (number, byte) in bytes.iter().enumerate() {
            let addr = addr.wrapping_add(number as u64);
            let Some(old) = board.byte(self.at.slot, addr) else {
                return;
            };
            if self.kept.push(Kept { addr, byte: old }).is_err() {
                self.is_full = true;
                return;
            }
            board.put(self.at.slot, addr, *byte);
        }
    }

    // Writes an identity into the first writable bytes of a chain.
    fn put_identity(&mut self, board: &mut Watched, identity: &[u8], chain: &Chain) {
        let mut rest = identity;
        for buffer in chain.buffers() {
            let segment = buffer.segment;
            if buffer.writable {
                let count = rest.len().min(segment.len as usize);
                self.put(board, segment.addr, rest.get(..count).unwrap_or(&[]));
                rest = rest.get(count..).unwrap_or(&[]);
            }
        }
    }

    // Writes the status of a chain of which so many bytes were found, and its used entry.
    fn give(&mut self, board: &mut Watched, seen: &ChainSeen, found: u64, status: u8) {
        let status_at = match seen.request {
            Some(request) => request.status_at,
            None => None,
        };
        let len = match status_at {
            Some(at) => {
                self.put(board, at, &[status]);
                if found.wrapping_add(1) == seen.writable {
                    seen.writable
                } else {
                    found
                }
            }
            None => 0,
        };
        let len = (len % 0x1_0000_0000) as u32;
        self.put_used(board, seen, len, status_at.is_some());
    }

    // Writes the used entry of a chain (2.7.8, 2.8.4).
    fn put_used(&mut self, board: &mut Watched, seen: &ChainSeen, len: u32, wrote: bool) {
        let place = self.place;
        let Some((_, registers)) = queue_of(board, self.at) else {
            return;
        };
        let size = size_of(registers);
        let entry = u64::from(place.checked_rem(size).unwrap_or(0));
        let Some(queue) = &registers.ring else {
            return;
        };
        self.place = place_behind(queue, place, seen.places, size);
        if matches!(queue, Queue::Packed(_)) {
            let used = registers.descriptor_area.wrapping_add(16 * entry + 8);
            let round = if place < size { USED_FLAGS } else { 0 };
            let flags = round | if wrote { WRITE } else { 0 };
            self.put(board, used, &len.to_le_bytes());
            self.put(board, used.wrapping_add(4), &seen.id.to_le_bytes());
            self.put(board, used.wrapping_add(6), &flags.to_le_bytes());
        } else {
            let area = registers.device_area;
            let used = area.wrapping_add(8 * entry + 4);
            self.put(board, used, &u32::from(seen.id).to_le_bytes());
            self.put(board, used.wrapping_add(4), &len.to_le_bytes());
            self.put(board, area.wrapping_add(2), &self.place.to_le_bytes());
        }
    }

    // Writes what a closing writes (2.7.10, 2.8.10).
    fn close(&mut self, board: &mut Watched) {
        let Some((_, registers)) = queue_of(board, self.at) else {
            return;
        };
        let (area, size) = (registers.device_area, size_of(registers));
        match &registers.ring {
            Some(Queue::Packed(_)) => self.put(board, area, &[0; 4]),
            Some(Queue::Split(ring)) => {
                let state = ring.state();
                let next = state.place.wrapping_add(state.ahead);
                let event = area.wrapping_add(8 * u64::from(size) + 4);
                self.put(board, area, &[0; 2]);
                if state.setup.event_idx {
                    self.put(board, event, &next.to_le_bytes());
                }
            }
            None => {}
        }
    }
}
