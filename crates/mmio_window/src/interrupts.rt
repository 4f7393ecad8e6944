//! The reasons of interrupts: what InterruptStatus shows and InterruptACK clears.

ghost use Rattle.std.specs.Prelude.{◌≡◌};
ghost use Rattle.mmio_window.specs.Interrupts.{acknowledged, interrupt_bits};

/// The reasons for which a device asks for its driver's attention (4.2.2).
#[derive(Clone, Copy, PartialEq, Eq, Debug)]
pub struct Interrupts {
    /// The device used a buffer.
    pub used_buffer: bool,
    /// The device's configuration changed, or its status.
    pub configuration_change: bool,
}

impl Interrupts {
    /// No reason stands.
    pub const NONE: Interrupts = Interrupts {
        used_buffer: false,
        configuration_change: false,
    };

    /// The bits of InterruptStatus.
    pub fn bits(self) -> u8
        ensures { result ≡ interrupt_bits self }
    {
        u8::from(self.used_buffer) + 2 * u8::from(self.configuration_change)
    }

    /// Clears the reasons whose bits are set in `value`, and no other.
    pub fn acknowledge(&mut self, value: u32)
        ensures { self.new ≡ acknowledged value self.old }
    {
        self.used_buffer = self.used_buffer && value & 1 == 0;
        self.configuration_change = self.configuration_change && value & 2 == 0;
    }
}
