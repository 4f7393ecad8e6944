//! The devices while their guest runs on: a write of a window, a service of a queue, and other memory.

ghost use Rattle.std.specs.Prelude.{◌≡◌, false, IfErr, IfOk, IsTrue, None, OnErr, OnOk, Some};
ghost use Rattle.std.specs.List.{slice_get};
ghost use Rattle.std.specs.Option.{option_map};
ghost use Rattle.guest_memory.specs.Memory.{Memory, SameRange};
ghost use Rattle.mmio_window.specs.declared.stage.Stage.TheVariants.{First};
ghost use Rattle.shared_memory.specs.Sightings.{memory};
ghost use Rattle.served_memory.specs.World.{racing};
ghost use Rattle.device_list.specs.Device.{device_written};
ghost use Rattle.device_list.specs.List.{AreSoundDevices, DevicesServeIn, IsWriteRefusal, are_at_work, changed_at, devices_fit, notified_at, waits_at};

use crate::device::VirtioDevice;
use crate::list::DeviceList;
use crate::refusal::WriteRefusal;
use chain::{Chain, Progress};
use mmio_window::Stage;
use racing_ring::Room;
use served_memory::{Limits, Raced};
use shared_memory::{RangesOf, Shared};
use std::alloc::Allocator;

impl<A: Allocator> DeviceList<A> {
    /// Writes a device's window, as `write` does, over memory that its guest may write meanwhile. No byte of it is read or
    /// written.
    pub fn write_raced<M: Shared>(
        &mut self,
        device: u8,
        offset: u16,
        width: u8,
        value: u32,
        mem: &M,
    ) -> Result<Option<u16>, WriteRefusal>
        requires sound { AreSoundDevices (memory (M.sightings mem.now)) self.old }
        ensures notified { IfOk result (λ q. Some q ≡ option_map (notified_at offset width value) (slice_get self.old device)) }
        ensures written { OnOk result (self.new ≡ changed_at
            (device_written offset width value (memory (M.sightings mem.now))) device self.old) }
        ensures waits { OnOk result (option_map (waits_at offset) (slice_get self.old device) ≡ Some false) }
        ensures refused { IfErr result (IsWriteRefusal offset (slice_get self.old device)) }
        ensures kept { OnErr result (self.new ≡ self.old) }
        ensures sound { AreSoundDevices (memory (M.sightings mem.now)) self.new }
    {
        let Some(found) = self.devices.get_mut(usize::from(device)) else {
            return Err(WriteRefusal::NoDevice);
        };
        found.write(offset, width, value, &RangesOf(mem))
    }

    /// Serves a device's queue over memory that its guest may write meanwhile, within limits. Of a device that isn't there nothing is
    /// served, nor of a disk. At a limit more may be on offer, of which the driver doesn't notify again: the queue is to be served once
    /// more. `chain` and `room` are where a service puts what it reads.
    pub fn serve_raced<M: Shared>(
        &mut self,
        device: u8,
        queue: u16,
        mem: &mut Raced<M>,
        limits: Limits,
        chain: &mut Chain,
        room: &mut Room,
    ) -> Progress
        requires sound { AreSoundDevices (memory (M.sightings mem.old.0)) self.old }
        ensures serves { DevicesServeIn (racing M.races) First limits result device queue (M.sightings mem.old.0)
            (M.sightings mem.new.0) self.old self.new }
        ensures range { SameRange (memory (M.sightings mem.old.0)) (memory (M.sightings mem.new.0)) }
        ensures sound { AreSoundDevices (memory (M.sightings mem.new.0)) self.new }
    {
        match self.devices.get_mut(usize::from(device)) {
            Some(found) => found.serve_in(queue, mem, Stage::First, limits, chain, room),
            None => Progress::Done,
        }
    }

    /// Whether each ready queue of each device could be made ready over this memory, which is another than that of the calls before.
    /// Where nothing is in flight either, this may be the memory of the calls from now on.
    pub fn fits<M: Shared>(&self, mem: &M) -> bool
        ensures fits { result ≡ devices_fit (memory (M.sightings mem.now)) self.now }
        ensures sound { IsTrue result → are_at_work self.now ≡ false → (m : Memory) → AreSoundDevices m self.now
            → AreSoundDevices (memory (M.sightings mem.now)) self.now }
    {
        each_fits(self.devices.as_slice(), mem)
    }
}

// Whether each device's window can stand over this memory.
fn each_fits<A: Allocator, M: Shared>(devices: &[VirtioDevice<A>], mem: &M) -> bool
    ensures { result ≡ devices_fit (memory (M.sightings mem.now)) devices.now }
{
    match devices {
        [] => true,
        [device, others @ ..] => device.fits(mem) && each_fits(others, mem),
    }
}
