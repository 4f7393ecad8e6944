//! Reading the window's registers.

ghost use Rattle.std.specs.Prelude.{◌≡◌, is_some};
ghost use Rattle.mmio_window.specs.Reading.{control_value, read_value, shown};
ghost use Rattle.mmio_window.specs.Window.{registers_of, ring_at};

use crate::configuration::{
    CONFIGURATION_LEN, CONFIGURATION_OFFSET, configuration_value, is_configuration_access,
};
use crate::device_kind::QueueIndex;
use crate::register::Register;
use crate::window::Window;
use negotiation::Flags;

/// The bytes "virt", as MagicValue shows them.
const MAGIC_VALUE: u32 = 0x7472_6976;

/// The version of the interface.
const VERSION: u32 = 2;

/// Whose device this is: the bytes "VMBO".
const VENDOR_ID: u32 = 0x4f42_4d56;

/// The largest size of a queue.
const QUEUE_NUM_MAX: u32 = 256;

/// What the registers of shared memory regions show where there is no region (4.2.2).
const NO_REGION: u32 = 0xffff_ffff;

impl Window {
    /// A read of `width` bytes at `offset`, where the device's configuration has these bytes. Control registers
    /// answer aligned reads of width 4, and the configuration aligned reads of width 1, 2 and 4. Every other
    /// read gives 0.
    pub fn read(&self, offset: u16, width: u8, config: &[u8; CONFIGURATION_LEN]) -> u32
        ensures { result ≡ read_value offset width config.now self.now }
    {
        if offset < CONFIGURATION_OFFSET {
            self.read_control(offset, width)
        } else if is_configuration_access(offset, width) {
            configuration_value(config, usize::from(offset - CONFIGURATION_OFFSET), width)
        } else {
            0
        }
    }

    /// A read of a control register, for which no configuration is wanted. At `CONFIGURATION_OFFSET` and beyond it
    /// gives 0.
    pub fn read_control(&self, offset: u16, width: u8) -> u32
        ensures { result ≡ control_value offset width self.now }
    {
        if width != 4 {
            return 0;
        }
        match Register::at(offset) {
            Some(register) => self.shown(register),
            None => 0,
        }
    }

    // What a register shows.
    fn shown(&self, register: Register) -> u32
        ensures { result ≡ shown register self.now }
    {
        match register {
            Register::MagicValue => MAGIC_VALUE,
            Register::Version => VERSION,
            Register::DeviceId => self.kind.id(),
            Register::VendorId => VENDOR_ID,
            Register::DeviceFeatures => self.negotiation.offered().word(self.device_features_sel),
            Register::QueueNumMax => {
                if self.has_selected() {
                    QUEUE_NUM_MAX
                } else {
                    0
                }
            }
            Register::QueueReady => u32::from(self.is_ready(self.queue_sel)),
            Register::InterruptStatus => u32::from(self.interrupts.bits()),
            Register::Status => u32::from(self.negotiation.status().bits()),
            Register::ShmLenLow
            | Register::ShmLenHigh
            | Register::ShmBaseLow
            | Register::ShmBaseHigh => NO_REGION,
            Register::ConfigGeneration => self.config_generation,
            _ => 0,
        }
    }

    // Whether the device has the selected queue.
    fn has_selected(&self) -> bool
        ensures { result ≡ is_some (registers_of self.now.queue_sel self.now) }
    {
        self.kind.queue(self.queue_sel).is_some()
    }

    // Whether the device has this queue, and it is ready.
    pub(super) fn is_ready(&self, q: u32) -> bool
        ensures { result ≡ is_some (ring_at q self.now) }
    {
        match self.kind.queue(q) {
            Some(QueueIndex::Queue0) => self.queue_0.ring.is_some(),
            Some(QueueIndex::Queue1) => self.queue_1.ring.is_some(),
            None => false,
        }
    }
}
