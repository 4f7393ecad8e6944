//! What a guest is made of.

/// A guest's devices.
#[derive(Clone, Copy, Debug, PartialEq, Eq)]
pub struct GuestSpec {
    /// How many sectors its disk has.
    pub sectors: u64,
    /// Whether its block device refuses writes (5.2.3).
    pub read_only: bool,
    /// The identity of its disk (5.2.6).
    pub identity: [u8; 20],
    /// How many operations of its disk may be in flight.
    pub depth: u8,
    /// How many columns its console has.
    pub cols: u16,
    /// How many rows its console has.
    pub rows: u16,
}
