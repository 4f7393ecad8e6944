//! Writing the window's registers.

ghost use Rattle.std.specs.Prelude.{◌≡◌};
ghost use Rattle.mmio_window.specs.Soundness.{IsSound};
ghost use Rattle.mmio_window.specs.Writing.{action_of, register_action, register_written, status_written, with_queue_written, written};

use crate::action::Action;
use crate::configuration::{CONFIGURATION_OFFSET, is_configuration_access, narrowed};
use crate::device_kind::QueueIndex;
use crate::interrupts::Interrupts;
use crate::queue_registers::QueueRegisters;
use crate::register::Register;
use crate::window::Window;
use guest_memory::Ranged;
use negotiation::{Features, Flags};

impl Window {
    /// A write of `width` bytes at `offset`, and what it leaves for the device to do. Control registers take
    /// aligned writes of width 4. The device has the aligned writes of width 1, 2 and 4 to its configuration.
    /// Every other write is ignored.
    #[inline(always)]
    pub fn write<M: Ranged>(&mut self, offset: u16, width: u8, value: u32, mem: &M) -> Action
        ensures action { result ≡ action_of offset width value self.old }
        ensures written { self.new ≡ written offset width value (M.ranged mem.now) self.old }
        ensures sound { IsSound (M.ranged mem.now) self.old → IsSound (M.ranged mem.now) self.new }
    {
        if offset >= CONFIGURATION_OFFSET {
            if is_configuration_access(offset, width) {
                let value = narrowed(width, value);
                return Action::ConfigWrite {
                    offset,
                    width,
                    value,
                };
            }
            return Action::None;
        }
        if width != 4 {
            return Action::None;
        }
        match Register::at(offset) {
            Some(register) => {
                let action = self.action(register, value);
                self.write_register(register, value, mem);
                action
            }
            None => Action::None,
        }
    }

    // What a write to a register leaves for the device to do.
    fn action(&self, register: Register, value: u32) -> Action
        ensures { result ≡ register_action register value self.now }
    {
        match register {
            Register::QueueNotify => self.notify(value),
            Register::Status if value == 0 => Action::Reset,
            _ => Action::None,
        }
    }

    // A write to QueueNotify: may the named queue be served?
    fn notify(&self, value: u32) -> Action
        ensures { result ≡ register_action Register.QueueNotify value self.now }
    {
        let q = if self
            .negotiation
            .negotiated()
            .contains(Features::NOTIFICATION_DATA)
        {
            narrowed(2, value)
        } else {
            value
        };
        if self.served(q).is_some() {
            Action::Notify(q as u16)
        } else {
            Action::None
        }
    }

    // A write to a register.
    #[inline(always)]
    fn write_register<M: Ranged>(&mut self, register: Register, value: u32, mem: &M)
        ensures { self.new ≡ register_written register value (M.ranged mem.now) self.old }
    {
        match register {
            Register::DeviceFeaturesSel => self.device_features_sel = value,
            Register::DriverFeatures => {
                self.negotiation
                    .write_features(self.driver_features_sel, value);
            }
            Register::DriverFeaturesSel => self.driver_features_sel = value,
            Register::QueueSel => self.queue_sel = value,
            Register::QueueNum
            | Register::QueueReady
            | Register::QueueDescLow
            | Register::QueueDescHigh
            | Register::QueueDriverLow
            | Register::QueueDriverHigh
            | Register::QueueDeviceLow
            | Register::QueueDeviceHigh => self.write_queue(register, value, mem),
            Register::InterruptAck => self.interrupts.acknowledge(value),
            Register::Status => self.write_status(value),
            Register::ShmSel => self.shm_sel = value,
            _ => {}
        }
    }

    // A write to a register of the selected queue.
    fn write_queue<M: Ranged>(&mut self, register: Register, value: u32, mem: &M)
        ensures { self.new ≡ with_queue_written register value (M.ranged mem.now) self.old }
    {
        match self.kind.queue(self.queue_sel) {
            Some(QueueIndex::Queue0) => {
                self.queue_0.write(register, value, &self.negotiation, mem);
            }
            Some(QueueIndex::Queue1) => {
                self.queue_1.write(register, value, &self.negotiation, mem);
            }
            None => {}
        }
    }

    // A write to Status. The negotiation tells whether it was a reset.
    fn write_status(&mut self, value: u32)
        ensures { self.new ≡ status_written value self.old }
    {
        if self.negotiation.write_status(value) {
            self.device_features_sel = 0;
            self.driver_features_sel = 0;
            self.queue_sel = 0;
            self.queue_0 = QueueRegisters::new();
            self.queue_1 = QueueRegisters::new();
            self.interrupts = Interrupts::NONE;
            self.shm_sel = 0;
        }
    }
}
