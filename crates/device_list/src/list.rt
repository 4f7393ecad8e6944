//! The list of devices.

ghost use Rattle.std.specs.Prelude.{◌≡◌, ◌++◌, ◌∷◌, [], false, length, None, Some, IfOk, IfErr, OnOk, OnErr};
ghost use Rattle.std.specs.List.{slice_get};
ghost use Rattle.std.specs.Option.{option_map};
ghost use Rattle.guest_memory.specs.Memory.{Memory, SameRange};
ghost use Rattle.device_list.specs.Device.{device_written, fresh_device, register_of};
ghost use Rattle.device_list.specs.List.{AreSoundDevices, DevicesServeTo, IsRefusedFor, IsWriteRefusal, changed_at, notified_at, refusal_of, waits_at};

mod host;
mod image;
mod raced;
mod saved;
mod waiting;

use crate::device::VirtioDevice;
use crate::refusal::WriteRefusal;
use crate::spec::{AddRefusal, DeviceSpec, MOST_DEVICES};
use chain::{Budget, Chain, Progress};
use guest_memory::GuestMemory;
use mmio_window::Stage;
use std::alloc::{Allocator, Global};
use std::marker::Model;

/// The devices of a slot beside its disk and its console. Each is named by its number, from 0 on.
#[derive(Drop)]
pub struct DeviceList<A: Allocator = Global> {
    devices: Vec<VirtioDevice<A>, A>,
}

impl<A: Allocator> Model for DeviceList<A> {
    ghost use Rattle.std.specs.Prelude.{List, length, ◌≤◌};
    ghost use Rattle.device_list.specs.Device.{DeviceState};

    ghost Value = { List DeviceState };

    ghost view = { λ l. l.devices.items };

    ghost invariant = { λ l. length l.devices.items ≤ 6 };
}

impl<A: Allocator + Copy> DeviceList<A> {
    /// Adds a device behind those that are there, as after a reset, and answers its number. All the memory that it will ever
    /// need is taken here. A disk over the image has some of the slot's spare sectors, of which there are so many.
    pub fn add(&mut self, alloc: A, spec: DeviceSpec, spare: u64) -> Result<u8, AddRefusal>
        ensures taken { OnOk result (refusal_of self.old spare spec ≡ None) }
        ensures added { IfOk result (λ number. (number ≡ length self.old)
            × (self.new ≡ self.old ++ fresh_device spec ∷ [])) }
        ensures refused { IfErr result (IsRefusedFor self.old spare spec) }
        ensures kept { OnErr result (self.new ≡ self.old) }
        ensures sound { (m : Memory) → AreSoundDevices m self.old → AreSoundDevices m self.new }
    {
        let number = self.len();
        if number >= MOST_DEVICES {
            return Err(AddRefusal::TooMany);
        }
        if spec.has_bad_mtu() {
            return Err(AddRefusal::BadMtu);
        }
        if spec.has_bad_disk() {
            return Err(AddRefusal::BadDisk);
        }
        if self.has_bad_extent(&spec, spare) {
            return Err(AddRefusal::BadExtent);
        }
        let Ok(device) = VirtioDevice::new(alloc, spec) else {
            return Err(AddRefusal::NoMemory);
        };
        match self.devices.push(device) {
            Ok(()) => Ok(number as u8),
            Err(_) => Err(AddRefusal::NoMemory),
        }
    }
}

impl<A: Allocator> DeviceList<A> {
    /// No devices.
    pub fn new(alloc: A) -> DeviceList<A>
        ensures { result ≡ [] }
    {
        DeviceList {
            devices: Vec::new(alloc),
        }
    }

    /// How many devices there are.
    pub fn len(&self) -> usize
        ensures { result ≡ length self.now }
    {
        self.devices.len()
    }

    /// The device of this number, to be looked at.
    pub fn get(&self, device: u8) -> Option<&VirtioDevice<A>>
        ensures { option_map (λ found. found.now) result ≡ slice_get self.now device }
    {
        self.devices.get(usize::from(device))
    }

    /// What a read of a device's window gives (4.2.2). There is no answer of a device that isn't there.
    pub fn read(&self, device: u8, offset: u16, width: u8) -> Option<u32>
        ensures { result ≡ option_map (register_of offset width) (slice_get self.now device) }
    {
        let found = self.get(device)?;
        Some(found.read(offset, width))
    }

    /// Writes a device's window, and answers the queue that is notified, which is to be served next. What is refused changes
    /// nothing.
    #[inline(never)]
    pub fn write<M: Allocator>(
        &mut self,
        device: u8,
        offset: u16,
        width: u8,
        value: u32,
        mem: &GuestMemory<M>,
    ) -> Result<Option<u16>, WriteRefusal>
        requires sound { AreSoundDevices mem.now self.old }
        ensures notified { IfOk result (λ q. Some q ≡ option_map (notified_at offset width value) (slice_get self.old device)) }
        ensures written { OnOk result (self.new ≡ changed_at (device_written offset width value mem.now) device self.old) }
        ensures waits { OnOk result (option_map (waits_at offset) (slice_get self.old device) ≡ Some false) }
        ensures refused { IfErr result (IsWriteRefusal offset (slice_get self.old device)) }
        ensures kept { OnErr result (self.new ≡ self.old) }
        ensures sound { AreSoundDevices mem.now self.new }
    {
        let Some(found) = self.devices.get_mut(usize::from(device)) else {
            return Err(WriteRefusal::NoDevice);
        };
        found.write(offset, width, value, mem)
    }

    /// Serves a piece of a device's queue, within the budget. Of a device that isn't there nothing is served, nor of a disk over the
    /// image, which `serve_image` serves. In a pause the queue stands open, and
    /// its device's window is left alone. `room` is where the chains stand, one after another.
    #[inline(always)]
    pub fn serve<M: Allocator>(
        &mut self,
        device: u8,
        queue: u16,
        mem: &mut GuestMemory<M>,
        stage: Stage,
        budget: Budget,
        room: &mut Chain,
    ) -> Progress
        requires sound { AreSoundDevices mem.old self.old }
        ensures serves { DevicesServeTo stage budget result device queue mem.old mem.new self.old self.new }
        ensures range { SameRange mem.old mem.new }
        ensures sound { AreSoundDevices mem.new self.new }
    {
        match self.devices.get_mut(usize::from(device)) {
            Some(found) => found.serve(queue, mem, stage, budget, room),
            None => Progress::Done,
        }
    }
}
