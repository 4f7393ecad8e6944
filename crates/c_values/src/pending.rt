//! What waits for a guest and for its host once a call is answered.

ghost use Rattle.std.specs.Prelude.{◌≡◌};

/// Both interrupt words of a guest, and how many bytes of its console's output wait to be taken.
#[derive(Clone, Copy, Debug, PartialEq, Eq)]
#[repr(C)]
pub struct Pending {
    /// InterruptStatus of the block window (4.2.2).
    pub block: u32,
    /// InterruptStatus of the console window.
    pub console: u32,
    /// How many bytes wait.
    pub output: u64,
}

impl Pending {
    /// These words, and so many bytes.
    #[inline(always)]
    pub fn of(block: u8, console: u8, output: usize) -> Pending
        ensures { result ≡ record { block = block; console = console; output = output } }
    {
        Pending {
            block: u32::from(block),
            console: u32::from(console),
            output: output as u64,
        }
    }
}

/// What waits for a further device's driver and for its host.
#[derive(Clone, Copy, Debug, PartialEq, Eq)]
#[repr(C)]
pub struct DevicePending {
    /// InterruptStatus of its window (4.2.2).
    pub interrupt: u32,
    /// Whether a chain is on offer that waits for what the host supplies or sends.
    pub starved: bool,
    /// Zeros.
    pub padding: [u8; 3],
    /// How many bytes the host takes now of what the driver sent: a card's oldest frame, or all output of a console. It is 0
    /// where nothing waits.
    pub frame: u64,
    /// What is in flight of a disk: bit n is set where tag n is. It is 0 of another device.
    pub tags: u64,
}
