//! A slot and its windows, read from the front of the bytes that are left.

ghost use Rattle.std.specs.Prelude.{◌≤◌, ◌+◌, ◌++◌, length};
ghost use Rattle.snapshot.specs.Reading.{Reads, device_count_at, devices_at, device_at, made, many_at, negotiation_at, queue_at, reached_at, selectors_at, served_at, slot_at, window_at};

use crate::fault::{Stop, Why};
use crate::reader::Reader;
use crate::saved::{MOST_DEVICES, SavedDevice, SavedSlot};
use arrayvec::ArrayVec;
use mmio_window::{Reached, SavedNegotiation, SavedQueue, SavedSelectors, SavedWindow};

type Devices = ArrayVec<SavedDevice, MOST_DEVICES>;

impl Reader<'_> {
    #[tactic(auto, unfolding(crate::specs::Reading::served_at))]
    fn served(&mut self) -> Result<Reached, Stop>
        ensures { Reads served_at self.old.left.now result self.new.left.now }
    {
        Ok(Reached {
            place: self.u16()?,
            pending: self.u16()?,
            used_count: self.u16()?,
            ahead: self.u16()?,
        })
    }

    // How far a queue is served, where it is ready.
    #[tactic(auto, unfolding(crate::specs::Reading::reached_at))]
    fn reached(&mut self) -> Result<Option<Reached>, Stop>
        ensures { Reads reached_at self.old.left.now result self.new.left.now }
    {
        match self.left {
            [] => Err(Stop::at(Why::Short, self.left)),
            [0, rest @ ..] => {
                self.left = rest;
                Ok(None)
            }
            [1, rest @ ..] => {
                self.left = rest;
                Ok(Some(self.served()?))
            }
            [_, ..] => Err(Stop::at(Why::Choice, self.left)),
        }
    }

    #[tactic(auto, unfolding(crate::specs::Reading::queue_at))]
    fn queue(&mut self) -> Result<SavedQueue, Stop>
        ensures { Reads queue_at self.old.left.now result self.new.left.now }
    {
        Ok(SavedQueue {
            number: self.u32()?,
            descriptor_area: self.u64()?,
            driver_area: self.u64()?,
            device_area: self.u64()?,
            reached: self.reached()?,
        })
    }

    #[tactic(auto, unfolding(crate::specs::Reading::negotiation_at))]
    fn negotiation(&mut self) -> Result<SavedNegotiation, Stop>
        ensures { Reads negotiation_at self.old.left.now result self.new.left.now }
    {
        Ok(SavedNegotiation {
            offered: self.u64()?,
            status: self.u8()?,
            accepted: self.u64()?,
        })
    }

    #[tactic(auto, unfolding(crate::specs::Reading::selectors_at))]
    fn selectors(&mut self) -> Result<SavedSelectors, Stop>
        ensures { Reads selectors_at self.old.left.now result self.new.left.now }
    {
        Ok(SavedSelectors {
            device_features: self.u32()?,
            driver_features: self.u32()?,
            queue: self.u32()?,
            shm: self.u32()?,
        })
    }

    #[tactic(auto, unfolding(crate::specs::Reading::window_at))]
    fn window(&mut self) -> Result<SavedWindow, Stop>
        ensures { Reads window_at self.old.left.now result self.new.left.now }
    {
        Ok(SavedWindow {
            negotiation: self.negotiation()?,
            selectors: self.selectors()?,
            queue_0: self.queue()?,
            queue_1: self.queue()?,
            interrupts: self.interrupts()?,
            config_generation: self.u32()?,
        })
    }

    #[tactic(auto, unfolding(crate::specs::Reading::device_at))]
    fn device(&mut self) -> Result<SavedDevice, Stop>
        ensures { Reads device_at self.old.left.now result self.new.left.now }
    {
        Ok(SavedDevice {
            device_id: self.u32()?,
            mac: self.mac()?,
            mtu: self.u16()?,
            sectors: self.u64()?,
            identity: self.identity()?,
            window: self.window()?,
        })
    }

    // How many further devices there are, where there are some.
    fn device_count(&mut self) -> Result<u32, Stop>
        ensures { Reads device_count_at self.old.left.now result self.new.left.now }
    {
        let bytes = self.left;
        let count = self.u32()?;
        if count < 1 || count > MOST_DEVICES as u32 {
            return Err(Stop::at(Why::Choice, bytes));
        }
        Ok(count)
    }

    // So many more devices behind these.
    fn more_devices(&mut self, mut devices: Devices, count: u32) -> Result<Devices, Stop>
        requires room { length devices.items + count ≤ 6 }
        ensures { Reads (made (λ more. record { items = devices.items ++ more }) (many_at count))
            self.old.left.now result self.new.left.now }
    {
        if count == 0 {
            return Ok(devices);
        }
        devices.push(self.device()?);
        self.more_devices(devices, count - 1)
    }

    // The further devices, where there are some.
    #[tactic(auto, unfolding(crate::specs::Reading::devices_at))]
    fn devices(&mut self, further: bool) -> Result<Devices, Stop>
        ensures { Reads (devices_at further) self.old.left.now result self.new.left.now }
    {
        if !further {
            return Ok(ArrayVec::new());
        }
        let count = self.device_count()?;
        self.more_devices(ArrayVec::new(), count)
    }

    /// All of a slot that stands before its pending input. The version says whether it has further devices.
    #[tactic(auto, unfolding(crate::specs::Reading::slot_at))]
    pub(crate) fn slot(&mut self, further: bool) -> Result<SavedSlot, Stop>
        ensures { Reads (slot_at further) self.old.left.now result self.new.left.now }
    {
        Ok(SavedSlot {
            base: self.u64()?,
            len: self.u64()?,
            sectors: self.u64()?,
            read_only: self.flag()?,
            identity: self.identity()?,
            cols: self.u16()?,
            rows: self.u16()?,
            on_hold: self.flag()?,
            block: self.window()?,
            console: self.window()?,
            devices: self.devices(further)?,
        })
    }
}
