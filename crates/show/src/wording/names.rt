//! The standard's names: registers, bits of the device status, features, reasons of interrupts, request types.

use crate::device::DeviceName;
use crate::weave::Text;
use chain::Fault;
use mmio_window::{DeviceKind, Register};

/// The name of a register.
pub fn register_name(register: Register) -> &'static str {
    match register {
        Register::MagicValue => "MagicValue",
        Register::Version => "Version",
        Register::DeviceId => "DeviceID",
        Register::VendorId => "VendorID",
        Register::DeviceFeatures => "DeviceFeatures",
        Register::DeviceFeaturesSel => "DeviceFeaturesSel",
        Register::DriverFeatures => "DriverFeatures",
        Register::DriverFeaturesSel => "DriverFeaturesSel",
        Register::QueueSel => "QueueSel",
        Register::QueueNumMax => "QueueNumMax",
        Register::QueueNum => "QueueNum",
        Register::QueueReady => "QueueReady",
        Register::QueueNotify => "QueueNotify",
        Register::InterruptStatus => "InterruptStatus",
        Register::InterruptAck => "InterruptACK",
        Register::Status => "Status",
        Register::QueueDescLow => "QueueDescLow",
        Register::QueueDescHigh => "QueueDescHigh",
        Register::QueueDriverLow => "QueueDriverLow",
        Register::QueueDriverHigh => "QueueDriverHigh",
        Register::QueueDeviceLow => "QueueDeviceLow",
        Register::QueueDeviceHigh => "QueueDeviceHigh",
        Register::ShmSel => "SHMSel",
        Register::ShmLenLow => "SHMLenLow",
        Register::ShmLenHigh => "SHMLenHigh",
        Register::ShmBaseLow => "SHMBaseLow",
        Register::ShmBaseHigh => "SHMBaseHigh",
        Register::ConfigGeneration => "ConfigGeneration",
    }
}

/// The name of the configuration field that begins at an offset of such a device's window, if one does.
pub fn field_name(kind: DeviceKind, offset: u16) -> Option<&'static str> {
    match (kind, offset) {
        (DeviceKind::Block, 0x100) => Some("capacity"),
        (DeviceKind::Block, 0x104) => Some("capacity, high half"),
        (DeviceKind::Block, 0x10c) => Some("seg_max"),
        (DeviceKind::Block, 0x114) => Some("blk_size"),
        (DeviceKind::Block, 0x130) => Some("max_write_zeroes_sectors"),
        (DeviceKind::Block, 0x134) => Some("max_write_zeroes_seg"),
        (DeviceKind::Block, 0x138) => Some("write_zeroes_may_unmap"),
        (DeviceKind::Console, 0x100) => Some("cols"),
        (DeviceKind::Console, 0x102) => Some("rows"),
        (DeviceKind::Console, 0x104) => Some("max_nr_ports"),
        (DeviceKind::Console, 0x108) => Some("emerg_wr"),
        (DeviceKind::Network, 0x100) => Some("mac"),
        (DeviceKind::Network, 0x106) => Some("status"),
        (DeviceKind::Network, 0x10a) => Some("mtu"),
        _ => None,
    }
}

/// The name of a fault.
pub fn fault_name(fault: Fault) -> &'static str {
    match fault {
        Fault::Jump => "Jump",
        Fault::Index => "Index",
        Fault::Loop => "Loop",
        Fault::TooMany => "TooMany",
        Fault::Table => "Table",
        Fault::Nested => "Nested",
        Fault::Joined => "Joined",
        Fault::NoIndirect => "NoIndirect",
        Fault::Range => "Range",
        Fault::TooLong => "TooLong",
    }
}

/// Says which device of a slot it is.
pub fn say_device(text: &mut Text, device: DeviceName) {
    match device {
        DeviceName::Block => text.say("block"),
        DeviceName::Console => text.say("console"),
        DeviceName::Further(number) => {
            text.say("device ");
            text.count(u64::from(number));
        }
    }
}

/// The bits of the device status with their names (2.1).
static STATUS_BITS: [(u32, &str); 6] = [
    (0, "ACKNOWLEDGE"),
    (1, "DRIVER"),
    (2, "DRIVER_OK"),
    (3, "FEATURES_OK"),
    (6, "DEVICE_NEEDS_RESET"),
    (7, "FAILED"),
];

/// Says the bits of a status by name, and those without one as a number.
pub fn say_status(text: &mut Text, status: u32) {
    if status == 0 {
        text.say("0");
        return;
    }
    let all = u64::from(status);
    let left = say_named(text, all, all, &STATUS_BITS);
    say_rest(text, all, left);
}

/// The features of every device by their bits (6).
static COMMON_FEATURES: [(u32, &str); 5] = [
    (28, "INDIRECT_DESC"),
    (29, "EVENT_IDX"),
    (32, "VERSION_1"),
    (34, "RING_PACKED"),
    (38, "NOTIFICATION_DATA"),
];

/// The features of a block device by their bits (5.2.3).
static BLOCK_FEATURES: [(u32, &str); 5] = [
    (2, "SEG_MAX"),
    (5, "RO"),
    (6, "BLK_SIZE"),
    (9, "FLUSH"),
    (14, "WRITE_ZEROES"),
];

/// The features of a network card by their bits (5.1.3).
static NETWORK_FEATURES: [(u32, &str); 3] = [(3, "MTU"), (5, "MAC"), (16, "STATUS")];

/// The features of a console by their bits (5.3.3).
static CONSOLE_FEATURES: [(u32, &str); 2] = [(0, "SIZE"), (2, "EMERG_WRITE")];

/// Says features of such a device by name, and those without one by their bits.
pub fn say_features(text: &mut Text, kind: DeviceKind, features: u64) {
    if features == 0 {
        text.say("none");
        return;
    }
    let left = say_named(text, features, features, &COMMON_FEATURES);
    let left = match kind {
        DeviceKind::Network => say_named(text, features, left, &NETWORK_FEATURES),
        DeviceKind::Block => say_named(text, features, left, &BLOCK_FEATURES),
        DeviceKind::Console => say_named(text, features, left, &CONSOLE_FEATURES),
        DeviceKind::Entropy => left,
    };
    say_rest(text, features, left);
}

// Says those of the bits left that have no name.
fn say_rest(text: &mut Text, all: u64, left: u64) {
    if left != 0 {
        text.say(if left != all { " 0x" } else { "0x" });
        text.hex(left);
    }
}

// Says those of the bits left that the table names, and answers the rest.
fn say_named(text: &mut Text, all: u64, left: u64, table: &[(u32, &'static str)]) -> u64 {
    let mut left = left;
    for (bit, name) in table {
        let mask = 1u64.wrapping_shl(*bit);
        if left & mask != 0 {
            if left != all {
                text.say(" ");
            }
            text.say(name);
            left &= !mask;
        }
    }
    left
}

/// Says the reasons of interrupts that a device raised, where it raised any.
pub fn say_raised(text: &mut Text, device: DeviceName, reasons: u8) {
    if reasons != 0 {
        text.say("; raises ");
        say_device(text, device);
        text.say(" ");
        say_interrupts(text, u32::from(reasons));
    }
}

/// Says the reasons of interrupts.
pub fn say_interrupts(text: &mut Text, word: u32) {
    match word {
        0 => text.say("none"),
        1 => text.say("used buffer"),
        2 => text.say("configuration change"),
        3 => text.say("used buffer, configuration change"),
        _ => {
            text.say("0x");
            text.hex(u64::from(word));
        }
    }
}
