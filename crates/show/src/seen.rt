//! What is seen of a guest's devices, and said where it changes.

use crate::device::DeviceName;
use crate::guest::{SlotQueue, queue_of};
use crate::watched::Watched;
use crate::weave::Text;
use crate::wording::{
    Change, Table, WindowSeen, say_changes, say_hold_change, say_on_offer, say_raised, window_seen,
};
use mmio_window::DeviceKind;
use std::alloc::{AllocError, Global};

/// What was said last of a guest's devices: of its block device, its console, and its further ones in their order.
#[derive(Drop)]
pub struct Guest {
    alloc: Global,
    devices: Vec<Seen>,
    /// How many of them are further ones.
    further: u8,
}

impl Guest {
    /// A slot's guest, of which nothing was said.
    pub fn new(alloc: Global, board: &Watched, slot: u8) -> Result<Guest, AllocError> {
        let mut devices = Vec::with_capacity(alloc, 2)?;
        for name in [DeviceName::Block, DeviceName::Console] {
            if let Some(seen) = Seen::new(alloc, board, slot, name) {
                devices.push(seen)?;
            }
        }
        Ok(Guest {
            alloc,
            devices,
            further: 0,
        })
    }

    /// What was said last of a device's window.
    pub fn window(&self, name: DeviceName) -> Option<WindowSeen> {
        for device in self.devices.iter() {
            if device.name == name {
                return Some(device.window);
            }
        }
        None
    }

    /// Says the reasons of interrupts that are new.
    pub fn say_raised(&mut self, board: &Watched, slot: u8, text: &mut Text) {
        for device in self.devices.iter_mut() {
            device.say_raised(board, slot, text);
        }
    }

    /// Says what of the windows and of the queues isn't as it was, and answers whether a descriptor isn't that was available
    /// in a packed ring.
    pub fn say_changes(&mut self, board: &Watched, slot: u8, text: &mut Text) -> bool {
        self.add_new(board, slot, text);
        let mut is_available = false;
        for device in self.devices.iter_mut() {
            if device.say_changes(board, slot, text) {
                is_available = true;
            }
        }
        is_available
    }

    // Takes a device in that was plugged in.
    fn add_new(&mut self, board: &Watched, slot: u8, text: &mut Text) {
        let name = DeviceName::Further(self.further);
        let Some(seen) = Seen::new(self.alloc, board, slot, name) else {
            return;
        };
        if self.devices.push(seen).is_err() {
            text.give_up();
        }
        self.further = self.further.wrapping_add(1);
    }
}

/// What was said last of a device: its window, and the descriptors of its queues.
#[derive(Drop)]
struct Seen {
    name: DeviceName,
    kind: DeviceKind,
    window: WindowSeen,
    interrupts: u8,
    is_on_hold: bool,
    first: Table,
    second: Table,
}

impl Seen {
    // A device of which nothing was said, where there is one. This takes no memory.
    fn new(alloc: Global, board: &Watched, slot: u8, name: DeviceName) -> Option<Seen> {
        let window = board.window(slot, name)?;
        Some(Seen {
            name,
            kind: board.kind(slot, name)?,
            window: window_seen(board.memory(slot)?, window),
            interrupts: window.interrupts(),
            is_on_hold: false,
            first: Table::new(alloc),
            second: Table::new(alloc),
        })
    }

    // Says the reasons of interrupts that are new.
    fn say_raised(&mut self, board: &Watched, slot: u8, text: &mut Text) {
        if let Some(window) = board.window(slot, self.name) {
            let old = self.interrupts;
            self.interrupts = window.interrupts();
            say_raised(text, self.name, self.interrupts & !old);
        }
    }

    // Says what of the window and of the queues isn't as it was, and answers whether a descriptor isn't that was available in a
    // packed ring.
    fn say_changes(&mut self, board: &Watched, slot: u8, text: &mut Text) -> bool {
        let (Some(mem), Some(window)) = (board.memory(slot), board.window(slot, self.name)) else {
            return false;
        };
        let (old, was_on_hold) = (self.window, self.is_on_hold);
        self.window = window_seen(mem, window);
        say_changes(text, self.name, self.kind, &old, &self.window);
        let at = SlotQueue::new(slot, self.name, 0);
        self.is_on_hold = board.is_on_hold(at);
        say_hold_change(text, self.name, was_on_hold, self.is_on_hold);
        let ([old_0, old_1], [new_0, new_1]) = (&old.queues, &self.window.queues);
        let first = say_queue(text, board, at, &mut self.first, old_0 != new_0);
        let at = SlotQueue::new(slot, self.name, 1);
        let second = say_queue(text, board, at, &mut self.second, old_1 != new_1);
        first || second
    }
}

// Says what is on offer in a queue, and its descriptors, where they aren't as they were. It answers whether one of these
// was available in a packed ring.
fn say_queue(
    text: &mut Text,
    board: &Watched,
    at: SlotQueue,
    table: &mut Table,
    has_changed: bool,
) -> bool {
    let Some((mem, registers)) = queue_of(board, at) else {
        return false;
    };
    let change = table.say_changes(text, mem, at.device, at.queue, registers);
    say_on_offer(
        text,
        mem,
        at.device,
        at.queue,
        registers,
        has_changed,
        change,
    );
    change == Change::Available
}
