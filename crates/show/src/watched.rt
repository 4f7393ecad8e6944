//! The board that goes along with a replay, over a copy of the image.

use crate::device::DeviceName;
use crate::guest::SlotQueue;
use crate::wording::ChainSeen;
use block_device::{BlockDevice, Operation};
use board::{
    Backing, Board, Budget, DeviceEvent, DeviceSpec, Event, EventKind, GuestMemory, HostedDisk,
    Pause, Reply, SlotDisk, SlotSpec, Turn, Work,
};
use mmio_window::{DeviceKind, Window};
use sector_cache::MemoryImage;
use std::alloc::{AllocError, Global};

/// The chains in flight of a disk that the host serves as they were said, each at its tag.
#[derive(Drop)]
struct Flights {
    device: DeviceName,
    tags: Vec<Option<ChainSeen>>,
}

impl Flights {
    // As many free tags.
    fn new(alloc: Global, device: DeviceName, depth: u8) -> Result<Flights, AllocError> {
        let mut tags = Vec::with_capacity(alloc, usize::from(depth))?;
        for _ in 0..depth {
            tags.push(None)?;
        }
        Ok(Flights { device, tags })
    }
}

/// Such a board, with what is in flight of each slot's disks.
#[derive(Drop)]
pub struct Watched {
    board: Board<MemoryImage>,
    alloc: Global,
    disks: Vec<Vec<Flights>>,
}

impl Watched {
    /// The board of a trace's slots, where there is one. `before` is the image, and the cache keeps so many sectors.
    pub fn new(
        alloc: Global,
        slots: &[SlotSpec],
        before: MemoryImage,
        cache: u32,
    ) -> Option<Watched> {
        let board = Board::new(alloc, slots, before, cache).ok()?;
        let mut disks = Vec::with_capacity(alloc, slots.len()).ok()?;
        for slot in slots {
            let mut hosted = Vec::new(alloc);
            if let Backing::Host { depth } = slot.backing {
                let own = Flights::new(alloc, DeviceName::Block, depth).ok()?;
                hosted.push(own).ok()?;
            }
            disks.push(hosted).ok()?;
        }
        Some(Watched {
            board,
            alloc,
            disks,
        })
    }

    /// How many slots there are.
    pub fn slots(&self) -> usize {
        self.board.slots()
    }

    /// The memory of a slot.
    pub fn memory(&self, slot: u8) -> Option<&GuestMemory> {
        self.board.memory(slot)
    }

    /// The window of a device.
    pub fn window(&self, slot: u8, device: DeviceName) -> Option<&Window> {
        match device {
            DeviceName::Block => self.board.block_window(slot),
            DeviceName::Console => self.board.console_window(slot),
            DeviceName::Further(number) => Some(self.board.device(slot, number)?.window()),
        }
    }

    /// The type of a device.
    pub fn kind(&self, slot: u8, device: DeviceName) -> Option<DeviceKind> {
        match device {
            DeviceName::Block => Some(DeviceKind::Block),
            DeviceName::Console => Some(DeviceKind::Console),
            DeviceName::Further(number) => Some(self.board.device(slot, number)?.model().kind()),
        }
    }

    /// The block device that a queue is of, if it is of one.
    pub fn block_device(&self, at: SlotQueue) -> Option<BlockDevice> {
        match at.device {
            DeviceName::Block => self.board.block_device(at.slot),
            DeviceName::Console => None,
            DeviceName::Further(_) => match self.disk(at) {
                Some(disk) => Some(*disk.device()),
                None => self.image_disk(at),
            },
        }
    }

    /// The further disk over the image that a queue is of, if it is of one.
    pub fn image_disk(&self, at: SlotQueue) -> Option<BlockDevice> {
        match at.device {
            DeviceName::Further(number) => {
                let device = self.board.device(at.slot, number)?;
                device.model().image_disk()
            }
            _ => None,
        }
    }

    /// How many bytes are typed to a slot's console and not yet taken.
    pub fn pending(&self, slot: u8) -> usize {
        match self.board.console_device(slot) {
            Some(console) => console.pending_len(),
            None => 0,
        }
    }

    /// A byte of a slot's memory, where there is one.
    pub fn byte(&self, slot: u8, addr: u64) -> Option<u8> {
        match self.memory(slot)?.part(addr, 1) {
            Some([byte]) => Some(*byte),
            _ => None,
        }
    }

    /// Writes a byte of a slot's memory, where there is one.
    pub fn put(&mut self, slot: u8, addr: u64, byte: u8) {
        self.board.write_memory(slot, addr, &[byte]);
    }

    /// Handles an event. `output` gets what the console puts out.
    pub fn step(&mut self, event: &Event, output: &mut Vec<u8>) -> Reply {
        let reply = self.board.step(event, output);
        if let (EventKind::Device { device, what }, Reply::Done) = (&event.what, &reply) {
            if let DeviceEvent::Plug(DeviceSpec::Block { depth, .. }) = what {
                self.add_disk(event.slot, *device, *depth);
            }
        }
        reply
    }

    /// Handles an event, or goes on where it paused.
    pub fn turn(
        &mut self,
        slot: u8,
        what: &EventKind,
        pause: Option<Pause>,
        budget: Budget,
        output: &mut Vec<u8>,
    ) -> Turn {
        let work = match pause {
            None => Work::Begin(what),
            Some(pause) => Work::Resume(pause),
        };
        self.board.turn(slot, work, budget, output).turn
    }

    /// What the host is asked of a queue's disk by a tag, and of how many runs, where the tag is taken.
    pub fn operation(&self, at: SlotQueue, tag: u8) -> Option<(Operation, usize)> {
        let disk = self.disk(at)?;
        Some((disk.operation(tag)?, disk.runs(tag).len()))
    }

    /// Whether a chain has this tag of a queue's disk.
    pub fn is_taken(&self, at: SlotQueue, tag: u8) -> bool {
        self.operation(at, tag).is_some()
    }

    /// Whether the host serves the disk of a queue's device.
    pub fn is_hosted(&self, at: SlotQueue) -> bool {
        !self.tags(at).is_empty()
    }

    /// Whether the host serves the disk of a queue's device, and all its tags are taken.
    pub fn is_full(&self, at: SlotQueue) -> bool {
        self.is_hosted(at) && self.free_tags(at) == 0
    }

    /// Whether the host has the queue of a disk that it serves on hold.
    pub fn is_on_hold(&self, at: SlotQueue) -> bool {
        self.disk(at).is_some_and(|disk| disk.is_on_hold())
    }

    /// How many tags of a queue's disk have no chain that was kept.
    pub fn free_tags(&self, at: SlotQueue) -> usize {
        let mut free: usize = 0;
        for flight in self.tags(at) {
            if flight.is_none() {
                free = free.saturating_add(1);
            }
        }
        free
    }

    /// The lowest tag of a queue's disk that is taken by a chain which wasn't kept yet.
    pub fn new_tag(&self, at: SlotQueue) -> Option<u8> {
        let mut tag: u8 = 0;
        for flight in self.tags(at) {
            if flight.is_none() && self.is_taken(at, tag) {
                return Some(tag);
            }
            tag = tag.wrapping_add(1);
        }
        None
    }

    /// Keeps the chain that has a tag of a queue's disk, as it was said.
    pub fn keep_flight(&mut self, at: SlotQueue, tag: u8, seen: ChainSeen) {
        if let Some(flight) = self.flight(at, tag) {
            *flight = Some(seen);
        }
    }

    /// Takes the chain that has a tag of a queue's disk, as it was said.
    pub fn take_flight(&mut self, at: SlotQueue, tag: u8) -> Option<ChainSeen> {
        self.flight(at, tag)?.take()
    }

    // The chain of a tag.
    fn flight(&mut self, at: SlotQueue, tag: u8) -> Option<&mut Option<ChainSeen>> {
        for disk in self.disks.get_mut(usize::from(at.slot))?.iter_mut() {
            if disk.device == at.device {
                return disk.tags.get_mut(usize::from(tag));
            }
        }
        None
    }

    // The chains in flight of a queue's disk, each at its tag.
    fn tags(&self, at: SlotQueue) -> &[Option<ChainSeen>] {
        if let Some(disks) = self.disks.get(usize::from(at.slot)) {
            for disk in disks.iter() {
                if disk.device == at.device {
                    return disk.tags.as_slice();
                }
            }
        }
        &[]
    }

    // The disk that a queue is of, if it is of one that the host serves.
    fn disk(&self, at: SlotQueue) -> Option<&HostedDisk> {
        let disk = match at.device {
            DeviceName::Block => SlotDisk::Own,
            DeviceName::Console => return None,
            DeviceName::Further(number) => SlotDisk::Further(number),
        };
        self.board.disk(at.slot, disk)
    }

    // Begins to keep what is in flight of a further disk. Without memory nothing is said of it.
    fn add_disk(&mut self, slot: u8, number: u8, depth: u8) {
        let device = DeviceName::Further(number);
        let (Some(disks), Ok(flights)) = (
            self.disks.get_mut(usize::from(slot)),
            Flights::new(self.alloc, device, depth),
        ) else {
            return;
        };
        let _ = disks.push(flights);
    }
}
