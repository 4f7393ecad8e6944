//! The devices of a slot by name, and what an event does to one of them.

use board::{DeviceEvent, EventKind, HostEvent, SlotWindow};

/// A device of a slot.
#[derive(Clone, Copy, PartialEq, Eq)]
pub enum DeviceName {
    Block,
    Console,
    /// A further one, by its number.
    Further(u8),
}

impl DeviceName {
    /// The device of a window that every slot has.
    pub fn of_window(window: SlotWindow) -> DeviceName {
        match window {
            SlotWindow::Block => DeviceName::Block,
            SlotWindow::Console => DeviceName::Console,
        }
    }
}

/// The device that an event is an access of, or that is a further one to which something is done.
pub fn device_of(what: &EventKind) -> Option<DeviceName> {
    match what {
        EventKind::Read { window, .. } | EventKind::Write { window, .. } => {
            Some(DeviceName::of_window(*window))
        }
        EventKind::Device { device, .. } => Some(DeviceName::Further(*device)),
        _ => None,
    }
}

/// An access of a device's window.
#[derive(Clone, Copy)]
pub struct Access {
    pub device: DeviceName,
    pub offset: u16,
    pub width: u8,
    /// What is written, where it is a write.
    pub value: Option<u32>,
}

/// The access of a window that an event is, where it is one.
pub fn access_of(what: &EventKind) -> Option<Access> {
    let (device, offset, width, value) = match what {
        EventKind::Read {
            window,
            offset,
            width,
        } => (DeviceName::of_window(*window), *offset, *width, None),
        EventKind::Write {
            window,
            offset,
            width,
            value,
        } => (
            DeviceName::of_window(*window),
            *offset,
            *width,
            Some(*value),
        ),
        EventKind::Device {
            device,
            what: DeviceEvent::Read { offset, width },
        } => (DeviceName::Further(*device), *offset, *width, None),
        EventKind::Device {
            device,
            what: DeviceEvent::Write {
                offset,
                width,
                value,
            },
        } => (DeviceName::Further(*device), *offset, *width, Some(*value)),
        _ => return None,
    };
    Some(Access {
        device,
        offset,
        width,
        value,
    })
}

/// What the host says by an event, and of which disk, where it is such an event.
pub fn told_of(what: &EventKind) -> Option<(DeviceName, HostEvent)> {
    match what {
        EventKind::Host(told) => Some((DeviceName::Block, *told)),
        EventKind::Device {
            device,
            what: DeviceEvent::Host(told),
        } => Some((DeviceName::Further(*device), *told)),
        _ => None,
    }
}
