//! What comes in: the events of the guests and of their consoles.

ghost use Rattle.std.specs.Prelude.{◌≡◌, IfNone, IfSome};
ghost use Rattle.board.specs.Devices.{IsAtOnce};
ghost use Rattle.board.specs.InPlace.{done_in};

use crate::bytes::Bytes;
use crate::in_place::DeviceInPlace;
use block_device::HostEvent;
use device_list::DeviceSpec;
use std::alloc::{Allocator, Global};

/// What one guest does, or what is done to its console, in one step that nothing interrupts.
#[derive(Drop)]
#[derive_where(Debug, PartialEq, Eq)]
pub struct Event<A: Allocator = Global> {
    /// The slot whose event this is. It may name none of the board's.
    pub slot: u8,
    pub what: EventKind<A>,
}

/// What is done.
#[derive(Drop)]
#[derive_where(Debug, PartialEq, Eq)]
pub enum EventKind<A: Allocator = Global> {
    /// The guest's driver reads `width` bytes at an offset of a window (4.2.2).
    Read {
        window: SlotWindow,
        offset: u16,
        width: u8,
    },
    /// The guest's driver writes `width` bytes at an offset of a window (4.2.2). Bits of the value above
    /// the width are ignored.
    Write {
        window: SlotWindow,
        offset: u16,
        width: u8,
        value: u32,
    },
    /// The guest reads `len` bytes of its memory from address `addr` on.
    MemRead {
        addr: u64,
        len: u32,
    },
    /// The guest writes bytes to its memory from address `addr` on.
    MemWrite {
        addr: u64,
        bytes: Bytes<A>,
    },
    /// Bytes are typed to the guest's console (5.3.6). Those that find no room are lost.
    Input {
        bytes: Bytes<A>,
    },
    /// The guest's console gets another size (5.3.4).
    Resize {
        cols: u16,
        rows: u16,
    },
    /// The guest's devices are put into the state that a snapshot has.
    Restore {
        bytes: Bytes<A>,
    },
    /// The host says this of the guest's disk, where it serves it. Over an image there is nothing to do.
    Host(HostEvent),
    /// This is done to one of the guest's further devices, which is named by its number, from 0 on.
    Device {
        device: u8,
        what: DeviceEvent<A>,
    },
}

/// One of the two devices that every slot has, by its register window.
#[derive(Clone, Copy, Debug, PartialEq, Eq)]
pub enum SlotWindow {
    /// The block device's (5.2).
    Block,
    /// The console's (5.3).
    Console,
}

/// What is done to a further device.
#[derive(Drop)]
#[derive_where(Debug, PartialEq, Eq)]
pub enum DeviceEvent<A: Allocator = Global> {
    /// The host gives the slot this device, as after a reset. Its number is the next one.
    Plug(DeviceSpec),
    /// Its driver reads `width` bytes at an offset of its window (4.2.2).
    Read { offset: u16, width: u8 },
    /// Its driver writes `width` bytes at an offset of its window (4.2.2). Bits of the value above the width are ignored.
    Write { offset: u16, width: u8, value: u32 },
    /// The host supplies these bytes: random ones to an entropy device (5.4), or what is typed to a console (5.3). Those that find
    /// no room aren't taken.
    Supply { bytes: Bytes<A> },
    /// The host hands a network card a frame (5.1). It is taken whole, or not at all where there is no room for it.
    Receive { frame: Bytes<A> },
    /// The host takes what the driver sent: the oldest frame of a network card, or all output of a console. No bytes where
    /// nothing waits.
    TakeSent,
    /// The host drops what the driver sent, since it has copied it: the oldest frame of a network card, or all output of a console.
    /// It is answered how many bytes they were.
    DropSent,
    /// A network card's link goes up or down (5.1.4).
    SetLink { up: bool },
    /// A console gets another size (5.3.4).
    Resize { cols: u16, rows: u16 },
    /// The host says this of a disk that it serves.
    Host(HostEvent),
}

impl<A: Allocator> DeviceEvent<A> {
    // The same with its bytes in a slice, if it may ask for a service that pauses.
    pub(crate) fn in_place(&self) -> Option<DeviceInPlace<'_>>
        ensures some { IfSome result (λ what. done_in what ≡ self.now) }
        ensures none { IfNone result (IsAtOnce self.now) }
    {
        match self {
            DeviceEvent::Write {
                offset,
                width,
                value,
            } => Some(DeviceInPlace::Write {
                offset: *offset,
                width: *width,
                value: *value,
            }),
            DeviceEvent::Supply { bytes } => Some(DeviceInPlace::Supply(bytes.as_slice())),
            DeviceEvent::Receive { frame } => Some(DeviceInPlace::Receive(frame.as_slice())),
            DeviceEvent::DropSent => Some(DeviceInPlace::DropSent),
            _ => None,
        }
    }
}
