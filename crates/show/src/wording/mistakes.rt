//! What the standard forbids a driver, found where the driver does it. The device copes with all of it.

use crate::wording::state::{NO_QUEUE, QueueSeen, WindowSeen};
use chain::Fault;
use mmio_window::{CONFIGURATION_OFFSET, Register};

/// What a driver did that the standard forbids it.
#[derive(Clone, Copy)]
pub enum Mistake {
    ControlAccess,
    NoRegister,
    WriteOnlyRead,
    ReadOnlyWritten,
    QueueTooLarge,
    ReadyQueueWritten,
    UndefinedAcknowledged,
    StatusBitCleared,
    EarlyNotification,
    FeatureNotOffered,
    NoVersion1,
    WritableFirst,
    IdxJumps,
    NextOutside,
    ChainLoops,
    ChainTooLong,
    TableNotNegotiated,
    TableInTable,
    TableWithNext,
    ListWritableFirst,
    ListUnfinished,
    ListTooLong,
    ListNotNegotiated,
    ListWithTable,
    FlagInTable,
    AvailableChanged,
    AreaUnaligned,
    PackedAreaUnaligned,
}

impl Mistake {
    /// The section of the standard that forbids it.
    pub fn section(self) -> &'static str {
        match self {
            Mistake::StatusBitCleared => "2.1.1",
            Mistake::FeatureNotOffered => "2.2.1",
            Mistake::WritableFirst => "2.7.4.2",
            Mistake::NextOutside => "2.7.5",
            Mistake::ChainLoops | Mistake::ChainTooLong => "2.7.5.2",
            Mistake::TableNotNegotiated | Mistake::TableInTable | Mistake::TableWithNext => {
                "2.7.5.3.1"
            }
            Mistake::IdxJumps => "2.7.6.1",
            Mistake::AreaUnaligned => "2.7.1",
            Mistake::PackedAreaUnaligned => "2.8.11",
            Mistake::AvailableChanged => "2.8.16",
            Mistake::ListWritableFirst | Mistake::ListUnfinished | Mistake::ListTooLong => "2.8.17",
            Mistake::ListNotNegotiated | Mistake::ListWithTable | Mistake::FlagInTable => "2.8.19",
            Mistake::EarlyNotification => "3.1.1",
            Mistake::NoVersion1 => "6.1",
            Mistake::ControlAccess
            | Mistake::NoRegister
            | Mistake::WriteOnlyRead
            | Mistake::ReadOnlyWritten
            | Mistake::QueueTooLarge
            | Mistake::ReadyQueueWritten
            | Mistake::UndefinedAcknowledged => "4.2.2.2",
        }
    }

    /// What was done.
    pub fn sentence(self) -> &'static str {
        match self {
            Mistake::ControlAccess =>
                "a control register is accessed other than by aligned 32 bits",
            Mistake::NoRegister => "an offset is accessed at which there is no register",
            Mistake::WriteOnlyRead => "a register is read that may only be written",
            Mistake::ReadOnlyWritten => "a register is written that may only be read",
            Mistake::QueueTooLarge => "QueueNum is above QueueNumMax",
            Mistake::ReadyQueueWritten => {
                "the size or an address of a queue is written while it is ready"
            }
            Mistake::UndefinedAcknowledged => "InterruptACK has bits that aren't defined",
            Mistake::StatusBitCleared =>
                "a bit of the device status is cleared, and it is no reset",
            Mistake::EarlyNotification => "a notification is sent before DRIVER_OK",
            Mistake::FeatureNotOffered => "a feature is accepted that isn't offered",
            Mistake::NoVersion1 => "VERSION_1 is offered and not accepted",
            Mistake::WritableFirst => "a chain has a writable buffer before a readable one",
            Mistake::IdxJumps => "the available idx goes back, or on by more than the queue's size",
            Mistake::NextOutside => "an index of a descriptor lies outside its table",
            Mistake::ChainLoops => "a chain of descriptors has a loop",
            Mistake::ChainTooLong => "a chain has more than 2^32 bytes",
            Mistake::ListWritableFirst => "a list has a writable buffer before a readable one",
            Mistake::ListUnfinished => {
                "a list is made available before all of its descriptors are"
            }
            Mistake::ListTooLong => "a list of descriptors is longer than the queue",
            Mistake::ListWithTable => "a descriptor with INDIRECT is linked by NEXT",
            Mistake::FlagInTable => {
                "a descriptor of an indirect table has another flag than WRITE"
            }
            Mistake::AvailableChanged => "a descriptor is changed that is available",
            Mistake::AreaUnaligned | Mistake::PackedAreaUnaligned => {
                "a queue is made ready of which an area isn't aligned"
            }
            Mistake::TableNotNegotiated | Mistake::ListNotNegotiated => {
                "an indirect table without INDIRECT_DESC"
            }
            Mistake::TableInTable => "an indirect table inside an indirect table",
            Mistake::TableWithNext => "a descriptor with INDIRECT has NEXT too",
        }
    }

    /// The mistake that a fault shows, where the standard forbids it to the driver of such a ring.
    pub fn of_fault(fault: Fault, is_packed: bool) -> Option<Mistake> {
        match fault {
            Fault::Loop if is_packed => Some(Mistake::ListTooLong),
            Fault::NoIndirect if is_packed => Some(Mistake::ListNotNegotiated),
            Fault::Joined if is_packed => Some(Mistake::ListWithTable),
            _ if is_packed => None,
            Fault::Jump => Some(Mistake::IdxJumps),
            Fault::Index => Some(Mistake::NextOutside),
            Fault::Loop => Some(Mistake::ChainLoops),
            Fault::TooLong => Some(Mistake::ChainTooLong),
            Fault::NoIndirect => Some(Mistake::TableNotNegotiated),
            Fault::Nested => Some(Mistake::TableInTable),
            Fault::Joined => Some(Mistake::TableWithNext),
            Fault::TooMany | Fault::Table | Fault::Range => None,
        }
    }
}

/// How a register may be accessed (4.2.2).
#[derive(Clone, Copy, PartialEq, Eq)]
enum Access {
    Read,
    Write,
    Both,
}

// How a register may be accessed.
fn access_of(register: Register) -> Access {
    match register {
        Register::QueueReady | Register::Status => Access::Both,
        Register::DeviceFeaturesSel
        | Register::DriverFeatures
        | Register::DriverFeaturesSel
        | Register::QueueSel
        | Register::QueueNotify
        | Register::InterruptAck
        | Register::ShmSel => Access::Write,
        _ if sets_up_queue(register) => Access::Write,
        _ => Access::Read,
    }
}

// Whether a register has the size or half of an address of the selected queue.
fn sets_up_queue(register: Register) -> bool {
    matches!(
        register,
        Register::QueueNum
            | Register::QueueDescLow
            | Register::QueueDescHigh
            | Register::QueueDriverLow
            | Register::QueueDriverHigh
            | Register::QueueDeviceLow
            | Register::QueueDeviceHigh
    )
}

// What is wrong with the width, the alignment or the offset of an access.
fn place_mistake(offset: u16, width: u8) -> Option<Mistake> {
    if offset >= CONFIGURATION_OFFSET {
        None
    } else if width != 4 || offset % 4 != 0 {
        Some(Mistake::ControlAccess)
    } else if Register::at(offset).is_none() {
        Some(Mistake::NoRegister)
    } else {
        None
    }
}

/// What is wrong with a read of a window.
pub fn read_mistake(offset: u16, width: u8) -> Option<Mistake> {
    if let Some(mistake) = place_mistake(offset, width) {
        return Some(mistake);
    }
    match Register::at(offset) {
        Some(register) if access_of(register) == Access::Write => Some(Mistake::WriteOnlyRead),
        _ => None,
    }
}

/// What is wrong with a write to a window that was as `old`, and is as `new` behind it.
pub fn write_mistake(
    offset: u16,
    width: u8,
    value: u32,
    old: &WindowSeen,
    new: &WindowSeen,
) -> Option<Mistake> {
    if let Some(mistake) = place_mistake(offset, width) {
        return Some(mistake);
    }
    if offset >= CONFIGURATION_OFFSET {
        return None;
    }
    let register = Register::at(offset)?;
    match register {
        Register::Status => status_mistake(value, old, new),
        Register::QueueNotify if old.status & 4 == 0 => Some(Mistake::EarlyNotification),
        Register::InterruptAck if value > 3 => Some(Mistake::UndefinedAcknowledged),
        Register::QueueNum if value > 256 => Some(Mistake::QueueTooLarge),
        _ if sets_up_queue(register) && is_selected_ready(old) => Some(Mistake::ReadyQueueWritten),
        Register::QueueReady if value == 1 && !is_selected_ready(old) => area_mistake(old),
        _ if access_of(register) == Access::Read => Some(Mistake::ReadOnlyWritten),
        _ => None,
    }
}

// The selected queue.
fn selected(window: &WindowSeen) -> QueueSeen {
    let [queue_0, queue_1] = window.queues;
    match window.queue_sel {
        0 => queue_0,
        1 => queue_1,
        _ => NO_QUEUE,
    }
}

// Whether the selected queue is ready.
fn is_selected_ready(window: &WindowSeen) -> bool {
    selected(window).ring.is_some()
}

/// The feature RING_PACKED (6).
const RING_PACKED: u64 = 1 << 34;

// What is wrong with the areas of the selected queue.
fn area_mistake(window: &WindowSeen) -> Option<Mistake> {
    let queue = selected(window);
    let is_packed = window.negotiated & RING_PACKED != 0;
    let driver_unit = if is_packed { 4 } else { 2 };
    if queue.descriptor_area % 16 == 0
        && queue.driver_area % driver_unit == 0
        && queue.device_area % 4 == 0
    {
        None
    } else if is_packed {
        Some(Mistake::PackedAreaUnaligned)
    } else {
        Some(Mistake::AreaUnaligned)
    }
}

// What is wrong with a write to Status.
fn status_mistake(value: u32, old: &WindowSeen, new: &WindowSeen) -> Option<Mistake> {
    let driver_bits = old.status & 0x8f;
    if value == 0 {
        None
    } else if value & 8 != 0 && new.status & 8 == 0 {
        if old.accepted & !old.offered != 0 {
            Some(Mistake::FeatureNotOffered)
        } else {
            Some(Mistake::NoVersion1)
        }
    } else if value & driver_bits != driver_bits {
        Some(Mistake::StatusBitCleared)
    } else {
        None
    }
}
