//! The slots' further devices and hosted disks, as somebody sees them who only looks.

ghost use Rattle.std.specs.Prelude.{◌≡◌, ◌++◌, [], All, None, Some, IfErr, IfOk, IfSome, IsSomeAnd, OnErr};
ghost use Rattle.std.specs.List.{slice_get};
ghost use Rattle.std.specs.Option.{option_and_then, option_map};
ghost use Rattle.block_device.specs.Tags.{TagIsHeld};
ghost use Rattle.device_list.specs.List.{is_starved_at, sent_by};
ghost use Rattle.board.specs.declared.event.DeviceEvent.{DeviceEvent};
ghost use Rattle.board.specs.declared.event.EventKind.{EventKind};
ghost use Rattle.board.specs.Devices.{IsPlugRefusal, IsPlugged};
ghost use Rattle.board.specs.Units.{disk_in};
ghost use Rattle.board.specs.Image.{Tells};
ghost use Rattle.board.specs.Slot.{BoardSlot};
ghost use Rattle.board.specs.World.{Answers, KeepsOthers, disturbed_of, extents_of, world_of};

use crate::board::Board;
use crate::refusal::PlugRefusal;
use crate::slot_disk::SlotDisk;
use device_list::{DeviceSpec, HostedDisk, VirtioDevice};
use sector_cache::Image;
use std::alloc::Allocator;

impl<I: Image, A: Allocator> Board<I, A> {
    /// A further device of a slot: its window, and what stands behind that. There is no answer where there is no such slot or
    /// no such device.
    pub fn device(&self, slot: u8, device: u8) -> Option<&VirtioDevice<A>>
        ensures { option_map (λ found. found.now) result ≡
            option_and_then (λ found. slice_get found.devices device) (slice_get self.now.slots slot) }
    {
        let slot = self.slot(slot)?;
        slot.slot().device_at(device)
    }

    /// A disk of a slot that its host serves: what is in flight, by tags. There is no answer where there is no such slot or device,
    /// and where the host serves no such disk.
    pub fn disk(&self, slot: u8, disk: SlotDisk) -> Option<&HostedDisk<A>>
        ensures value { option_map (λ disk. disk.now) result ≡
            option_and_then (disk_in disk) (slice_get self.now.slots slot) }

        // nothing that the host is told lies outside the guest's memory or the disk, whatever the guest has done since
        ensures inside { IfSome result (λ disk. IsSomeAnd (slice_get self.now.slots slot) (λ found.
            All (TagIsHeld disk.now.device.extent.count found.memory) disk.now.tags)) }
    {
        let slot = self.slot(slot)?;
        slot.disk(disk)
    }

    /// Whether a chain is on offer in a further device's queue that waits for what the host supplies.
    pub fn starved(&self, slot: u8, device: u8) -> Option<bool>
        ensures { result ≡ option_and_then (λ found.
            option_map (is_starved_at found.memory) (slice_get found.devices device)) (slice_get self.now.slots slot) }
    {
        let slot = self.slot(slot)?;
        slot.slot().starved(device)
    }

    /// What the driver of a network card or of a console sent and its host takes now, in two parts: the oldest frame, or all
    /// output. There is none where nothing waits, of another device, and where there is no such slot or device.
    pub fn sent(&self, slot: u8, device: u8) -> Option<(&[u8], &[u8])>
        ensures { option_map (λ parts. parts.0.now ++ parts.1.now) result ≡
            option_and_then (λ found. sent_by device found.devices) (slice_get self.now.slots slot) }
    {
        let slot = self.slot(slot)?;
        slot.slot().sent(device)
    }
}

impl<I: Image, A: Allocator + Copy> Board<I, A> {
    /// Plugs a further device into a slot: it is as after a reset, and has the next number, which is answered. All the memory
    /// that it will ever need is taken here.
    pub fn plug(&mut self, slot: u8, spec: DeviceSpec) -> Result<u8, PlugRefusal>
        ensures plugged { IfOk result (λ number. IsPlugged slot spec number self.old.slots self.new.slots) }
        ensures refused { IfErr result (IsPlugRefusal spec (slice_get self.old.slots slot)) }
        ensures kept { OnErr result (self.new ≡ self.old) }
        ensures image { self.new.image ≡ self.old.image }
    {
        let Some(found) = self.slots.get_mut(slot as usize) else {
            return Err(PlugRefusal::BadSlot);
        };
        match found.plug(self.alloc, spec) {
            Ok(number) => Ok(number),
            Err(why) => Err(PlugRefusal::Device(why)),
        }
    }
}
