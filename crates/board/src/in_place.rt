//! Events whose bytes the caller has in a slice.

/// What is done to a slot by an event that needn't be made: its bytes, if it has some, stay where the caller has them.
#[derive(Clone, Copy, Debug)]
pub enum InPlace<'a> {
    /// Bytes are typed to the console: `EventKind::Input`.
    Input(&'a [u8]),
    /// This is done to one of the further devices: `EventKind::Device`.
    Device { device: u8, what: DeviceInPlace<'a> },
}

/// What is done to a further device and may ask for a service of it that pauses.
#[derive(Clone, Copy, Debug)]
pub enum DeviceInPlace<'a> {
    /// A register of its window is written: `DeviceEvent::Write`.
    Write { offset: u16, width: u8, value: u32 },
    /// It is supplied with bytes: `DeviceEvent::Supply`.
    Supply(&'a [u8]),
    /// What its driver sent is dropped: `DeviceEvent::DropSent`.
    DropSent,
    /// It is handed a frame: `DeviceEvent::Receive`.
    Receive(&'a [u8]),
}
