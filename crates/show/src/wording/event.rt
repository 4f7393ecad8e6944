//! What an event was, by name.

use crate::device::{Access, DeviceName, access_of, told_of};
use crate::weave::Text;
use crate::wording::names::{field_name, register_name, say_device, say_interrupts, say_status};
use board::{Backing, DeviceEvent, DeviceSpec, EventKind, Extent, HostEvent, Verdict};
use mmio_window::{CONFIGURATION_OFFSET, DeviceKind, Register};

/// How many bytes of a text are shown.
pub const SHOWN: usize = 64;

/// Says the device or the memory that an event is about, between a guest and what was done.
pub fn say_place(text: &mut Text, what: &EventKind) {
    text.say(" ");
    match what {
        EventKind::Read { window, .. } | EventKind::Write { window, .. } => {
            say_device(text, DeviceName::of_window(*window));
        }
        EventKind::MemRead { .. } | EventKind::MemWrite { .. } => text.say("memory"),
        EventKind::Input { .. } | EventKind::Resize { .. } => text.say("console"),
        EventKind::Restore { .. } => text.say("devices"),
        EventKind::Host(_) => text.say("disk"),
        EventKind::Device { device, .. } => say_device(text, DeviceName::Further(*device)),
    }
    text.say(": ");
}

/// Says what an event was. An access, or what is done to a further device, is of a device of this kind.
pub fn say_event(text: &mut Text, what: &EventKind, kind: Option<DeviceKind>) {
    if let Some(access) = access_of(what) {
        say_access(text, access, kind);
    } else if let Some((_, told)) = told_of(what) {
        say_told(text, told);
    } else {
        say_other(text, what, kind);
    }
}

// Says what an event was that is neither an access nor said by the host of a disk.
fn say_other(text: &mut Text, what: &EventKind, kind: Option<DeviceKind>) {
    match what {
        EventKind::MemRead { addr, len } => {
            text.say("reads ");
            text.counted(u64::from(*len), "byte");
            text.say(" at ");
            text.hex(*addr);
        }
        EventKind::MemWrite { addr, bytes } => {
            text.say("writes ");
            text.counted(bytes.as_slice().len() as u64, "byte");
            text.say(" at ");
            text.hex(*addr);
        }
        EventKind::Input { bytes } => say_typed(text, bytes.as_slice()),
        EventKind::Resize { cols, rows } => say_resized(text, *cols, *rows),
        EventKind::Restore { bytes } => {
            text.say("are restored from ");
            text.counted(bytes.as_slice().len() as u64, "byte");
        }
        EventKind::Device { what, .. } => say_device_event(text, what, kind),
        _ => {}
    }
}

// Says what is typed to a console.
fn say_typed(text: &mut Text, bytes: &[u8]) {
    text.say("types ");
    text.quoted(bytes, SHOWN);
}

// Says the size that a console gets.
fn say_resized(text: &mut Text, cols: u16, rows: u16) {
    text.say("is resized to ");
    say_size(text, cols, rows);
}

// Says the size of a console.
fn say_size(text: &mut Text, cols: u16, rows: u16) {
    text.count(u64::from(cols));
    text.say(" by ");
    text.count(u64::from(rows));
}

// Says what is done to a further device of this kind, other than an access and what the host says of a disk.
fn say_device_event(text: &mut Text, what: &DeviceEvent, kind: Option<DeviceKind>) {
    let is_console = kind == Some(DeviceKind::Console);
    match what {
        DeviceEvent::Plug(spec) => say_plug(text, spec),
        DeviceEvent::Supply { bytes } if is_console => say_typed(text, bytes.as_slice()),
        DeviceEvent::Supply { bytes } => {
            text.say("is supplied with ");
            text.counted(bytes.as_slice().len() as u64, "byte");
        }
        DeviceEvent::Receive { frame } => {
            text.say("gets a frame of ");
            text.counted(frame.as_slice().len() as u64, "byte");
        }
        DeviceEvent::TakeSent if is_console => text.say("the host takes the output"),
        DeviceEvent::TakeSent => text.say("the host takes a frame"),
        DeviceEvent::DropSent if is_console => text.say("the host drops the output"),
        DeviceEvent::DropSent => text.say("the host drops a frame"),
        DeviceEvent::SetLink { up: true } => text.say("the link goes up"),
        DeviceEvent::SetLink { up: false } => text.say("the link goes down"),
        DeviceEvent::Resize { cols, rows } => say_resized(text, *cols, *rows),
        _ => {}
    }
}

// Says which device is plugged in.
fn say_plug(text: &mut Text, spec: &DeviceSpec) {
    match spec {
        DeviceSpec::Entropy => text.say("an entropy device is plugged in"),
        DeviceSpec::Network { mtu, .. } => {
            text.say("a network card is plugged in, MTU ");
            text.count(u64::from(*mtu));
        }
        DeviceSpec::Block {
            sectors,
            read_only,
            depth,
            ..
        } => {
            let extent = Extent {
                start: 0,
                count: *sectors,
            };
            text.say("a disk is plugged in, ");
            say_disk(text, extent, Backing::Host { depth: *depth }, *read_only);
        }
        DeviceSpec::Console { cols, rows } => {
            text.say("a console is plugged in, ");
            say_size(text, *cols, *rows);
        }
        DeviceSpec::Image {
            extent,
            read_only,
            ..
        } => {
            text.say("a disk is plugged in, ");
            text.counted(extent.count, "sector");
            text.say(" from spare sector ");
            text.count(extent.start);
            say_mode(text, *read_only);
        }
    }
}

/// Says a disk: its sectors, who serves them, and whether they may be written.
pub fn say_disk(text: &mut Text, extent: Extent, backing: Backing, read_only: bool) {
    text.counted(extent.count, "sector");
    match backing {
        Backing::Image => {
            text.say(" from ");
            text.count(extent.start);
        }
        Backing::Host { depth } => {
            text.say(" that the host serves by ");
            text.counted(u64::from(depth), "tag");
        }
    }
    say_mode(text, read_only);
}

// Says whether a disk may be written.
fn say_mode(text: &mut Text, read_only: bool) {
    text.say(if read_only {
        ", read-only"
    } else {
        ", writable"
    });
}

// Says an offset that no register has.
fn say_place_in_window(text: &mut Text, offset: u16, width: u8) {
    if offset >= CONFIGURATION_OFFSET {
        text.say("configuration byte ");
        text.count(u64::from(offset - CONFIGURATION_OFFSET));
    } else {
        text.say("offset ");
        text.hex(u64::from(offset));
    }
    text.say(", width ");
    text.count(u64::from(width));
}

// Says what the host says of its disk.
fn say_told(text: &mut Text, told: HostEvent) {
    match told {
        HostEvent::Complete { tag, verdict } => {
            text.say("tag ");
            text.count(u64::from(tag));
            text.say(match verdict {
                Verdict::Done => " done",
                Verdict::Failed => " failed",
            });
        }
        HostEvent::Drop => text.say("drops what is in flight"),
        HostEvent::Hold => text.say("holds the queue"),
        HostEvent::Release => text.say("releases the queue"),
    }
}

/// The control register that an access of this width is to, if it is to one.
pub fn register_of(offset: u16, width: u8) -> Option<Register> {
    if width == 4 {
        Register::at(offset)
    } else {
        None
    }
}

// Says an access.
fn say_access(text: &mut Text, access: Access, kind: Option<DeviceKind>) {
    match access.value {
        None => {
            text.say("reads ");
            say_register(text, access, kind);
        }
        Some(value) => say_write(text, access, kind, value),
    }
}

// Says which register or field an access is to.
fn say_register(text: &mut Text, access: Access, kind: Option<DeviceKind>) {
    let (offset, width) = (access.offset, access.width);
    match register_of(offset, width) {
        Some(register) => text.say(register_name(register)),
        None => match kind.and_then(|kind| field_name(kind, offset)) {
            Some(name) => text.say(name),
            None => say_place_in_window(text, offset, width),
        },
    }
}

// Says a write to a register or a field.
fn say_write(text: &mut Text, access: Access, kind: Option<DeviceKind>, value: u32) {
    say_register(text, access, kind);
    text.say(" ");
    match register_of(access.offset, access.width) {
        Some(Register::Status) => {
            say_status(text, value);
            if value == 0 {
                text.say(": reset");
            }
        }
        Some(Register::InterruptAck) => say_interrupts(text, value),
        Some(
            Register::QueueNum
            | Register::QueueSel
            | Register::QueueReady
            | Register::QueueNotify
            | Register::DeviceFeaturesSel
            | Register::DriverFeaturesSel,
        ) => text.count(u64::from(value)),
        _ => text.hex(u64::from(value)),
    }
}

/// Says the value that a register read gave.
pub fn say_value(text: &mut Text, offset: u16, width: u8, value: u32) {
    match register_of(offset, width) {
        Some(Register::Status) => say_status(text, value),
        Some(Register::InterruptStatus) => say_interrupts(text, value),
        Some(Register::QueueNumMax | Register::QueueReady | Register::ConfigGeneration) => {
            text.count(u64::from(value));
        }
        Some(_) => text.hex(u64::from(value)),
        None if offset >= CONFIGURATION_OFFSET => text.count(u64::from(value)),
        None => text.hex(u64::from(value)),
    }
}
