//! A slot's own disk: sectors of the image, or a disk that the host serves.

ghost use Rattle.std.specs.Prelude.{◌≡◌, false, None, IfOk, IsSome};
ghost use Rattle.std.specs.Bool.{OnTrue, OnFalse};
ghost use Rattle.std.specs.Option.{option_map, option_map_or};
ghost use Rattle.guest_memory.specs.Memory.{SameRange};
ghost use Rattle.mmio_window.specs.Soundness.{IsSound};
ghost use Rattle.hosted_disk.specs.Disk.{LooksAtQueue};
ghost use Rattle.hosted_disk.specs.Told.{DoesAsTold, has_effect};
ghost use Rattle.board.specs.Backing.{DoesHosted, HoldsHost, KeepsHost, device_of_image, held_disk, own_device};
ghost use Rattle.board.specs.Fault.{HasRoom};
ghost use Rattle.board.specs.Slot.{opened_disk};

use crate::check::own_extent;
use crate::spec::{Backing, SlotSpec};
use block_device::{BlockDevice, HostEvent, REQUESTQ};
use chain::Chain;
use guest_memory::GuestMemory;
use hosted_disk::HostedDisk;
use mmio_window::Window;
use std::alloc::{AllocError, Allocator, Global};
use std::marker::Model;

/// The disk.
#[derive(Drop)]
pub(crate) struct OwnDisk<A: Allocator = Global> {
    // Its extent is what the disk has of the image: nothing where the host serves it.
    device: BlockDevice,
    // The disk that the host serves, in place of one of the image.
    host: Option<Box<HostedDisk<A>, A>>,
}

impl<A: Allocator> Model for OwnDisk<A> {
    ghost use Rattle.std.specs.Option.{option_map};
    ghost use Rattle.board.specs.Backing.{IsServedAs, OwnDisk};

    ghost Value = { OwnDisk };

    ghost view = { λ d. record {
      extent = d.device.extent;
      host = option_map (λ disk. disk.value) d.host;
      read_only = d.device.read_only;
      identity = d.device.identity;
    } };

    ghost invariant = { λ d. IsServedAs d.device (option_map (λ disk. disk.value) d.host) };
}

impl<A: Allocator + Copy> OwnDisk<A> {
    /// Opens the disk of a slot that is to be so.
    pub(crate) fn open(alloc: A, spec: &SlotSpec) -> Result<OwnDisk<A>, AllocError>
        requires { HasRoom spec.now }
        ensures { IfOk result (λ disk. disk ≡ opened_disk spec.now) }
    {
        let device = BlockDevice::new(own_extent(spec), spec.read_only, spec.identity);
        let Backing::Host { depth } = spec.backing else {
            return Ok(OwnDisk { device, host: None });
        };
        let disk = HostedDisk::new(
            alloc,
            spec.extent.count,
            spec.read_only,
            spec.identity,
            depth,
        )?;
        let host = Some(Box::new(alloc, disk)?);
        Ok(OwnDisk { device, host })
    }
}

impl<A: Allocator> OwnDisk<A> {
    /// The block device of the disk's sectors of the image: it has none where the host serves the disk.
    #[inline(always)]
    pub(crate) fn of_image(&self) -> &BlockDevice
        ensures { result.now ≡ device_of_image self.now }
    {
        &self.device
    }

    /// The block device as its driver knows it.
    pub(crate) fn device(&self) -> &BlockDevice
        ensures { result.now ≡ own_device self.now }
    {
        match &self.host {
            Some(disk) => disk.device(),
            None => &self.device,
        }
    }

    /// The disk that the host serves, if it does.
    #[inline(always)]
    pub(crate) fn host(&self) -> Option<&HostedDisk<A>>
        ensures { option_map (λ disk. disk.now) result ≡ self.now.host }
    {
        match &self.host {
            Some(disk) => Some(&**disk),
            None => None,
        }
    }

    /// Has no further chain of a disk that the host serves taken, or has them taken again. The queue isn't looked at.
    pub(crate) fn set_on_hold(&mut self, on_hold: bool)
        ensures value { self.new ≡ record self.old { host = option_map (held_disk on_hold) self.old.host } }
        ensures keeps { KeepsHost self.old.host self.new.host }
    {
        if let Some(disk) = &mut self.host {
            disk.set_on_hold(on_hold);
        }
    }

    /// The device of a disk that the host serves looks at its queue, unless that is on hold. `room` is for the buffers of each
    /// chain. Nothing is done where the disk is of the image.
    pub(crate) fn look<M: Allocator>(
        &mut self,
        memory: &mut GuestMemory<M>,
        window: &mut Window,
        room: &mut Chain,
    )
        requires sound { IsSound memory.old window.old }
        requires held { HoldsHost memory.old window.old self.old.host }
        ensures looks { IsSome self.old.host →
            DoesHosted LooksAtQueue memory.old memory.new window.old window.new self.old.host self.new.host }
        ensures kept { self.old.host ≡ None → (memory.new ≡ memory.old) × ((window.new ≡ window.old) × (self.new ≡ self.old)) }
        ensures rest { self.new ≡ record self.old { host = self.new.host } }
        ensures range { SameRange memory.old memory.new }
        ensures sound { IsSound memory.new window.new }
        ensures held { HoldsHost memory.new window.new self.new.host }
    {
        let Some(disk) = &mut self.host else {
            return;
        };
        disk.serve(REQUESTQ, memory, window, room);
    }

    /// Does what the host says of the disk, and looks at its queue where further chains may be taken. False where there is nothing
    /// to do, and where the disk is of the image: nothing has changed then.
    pub(crate) fn tell<M: Allocator>(
        &mut self,
        said: HostEvent,
        memory: &mut GuestMemory<M>,
        window: &mut Window,
        room: &mut Chain,
    ) -> bool
        requires sound { IsSound memory.old window.old }
        requires held { HoldsHost memory.old window.old self.old.host }
        ensures found { result ≡ option_map_or (has_effect said) self.old.host false }
        ensures does { OnTrue result
            (DoesHosted (DoesAsTold said) memory.old memory.new window.old window.new self.old.host self.new.host) }
        ensures kept { OnFalse result ((memory.new ≡ memory.old) × ((window.new ≡ window.old) × (self.new ≡ self.old))) }
        ensures rest { self.new ≡ record self.old { host = self.new.host } }
        ensures range { SameRange memory.old memory.new }
        ensures sound { IsSound memory.new window.new }
        ensures held { HoldsHost memory.new window.new self.new.host }
    {
        let Some(disk) = &mut self.host else {
            return false;
        };
        disk.tell(said, memory, window, room)
    }
}
