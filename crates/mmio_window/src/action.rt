//! What a write to a window leaves for the device to do.

/// What a write leaves for the device to do.
#[derive(Clone, Copy, PartialEq, Eq, Debug)]
pub enum Action {
    /// To serve a queue, which is ready in a live window.
    Notify(u16),
    /// Its own part of a reset: the window is reset.
    Reset,
    /// To take a write to its configuration.
    ConfigWrite {
        /// The offset in the window.
        offset: u16,
        /// 1, 2 or 4.
        width: u8,
        /// The value, within the width.
        value: u32,
    },
    /// Nothing.
    None,
}
