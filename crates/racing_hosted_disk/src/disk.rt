//! The disk, and what a notification of its queue does to it.

ghost use Rattle.std.specs.Prelude.{◌≡◌, ◌*◌, ◌^◌, ◌<◌, ◌≤◌, IfOk};
ghost use Rattle.block_device.specs.Extent.{sector_len};
ghost use Rattle.racing_hosted_disk.specs.Disk.{fresh_disk};

use block_device::{BlockDevice, Extent, Tags};
use racing_disk::RacingDisk;
use std::alloc::{AllocError, Allocator, Global};
use std::marker::Model;

/// A disk that its host serves. `T` is what its queue gives a chain in flight back by.
#[derive(Drop)]
pub struct RacingHostedDisk<T: Drop, A: Allocator = Global> {
    pub(crate) disk: RacingDisk,
    pub(crate) tags: Tags<T, (), A>,
    // Whether no further chain of its queue is taken.
    pub(crate) on_hold: bool,
}

impl<T: Drop, A: Allocator> Model for RacingHostedDisk<T, A> {
    ghost use Rattle.std.specs.Prelude.{◌*◌, ◌^◌, ◌<◌};
    ghost use Rattle.block_device.specs.Extent.{sector_len};
    ghost use Rattle.racing_hosted_disk.specs.Disk.{RacingHostedDisk};

    ghost Value = { RacingHostedDisk T };

    ghost view = { λ d. record { device = d.disk.device; tags = d.tags; on_hold = d.on_hold } };

    ghost invariant = { λ d. sector_len * d.disk.device.extent.count < 2 ^ 64 };
}

impl<T: Drop, A: Allocator + Copy> RacingHostedDisk<T, A> {
    /// A disk of so many sectors of which so many operations may be in flight, and none is. All the memory that it will ever
    /// need is taken here.
    pub fn new(
        alloc: A,
        sectors: u64,
        read_only: bool,
        identity: [u8; 20],
        depth: u8,
    ) -> Result<RacingHostedDisk<T, A>, AllocError>
        requires sectors { sector_len * sectors < 2 ^ 64 }
        requires depth { depth ≤ 64 }
        ensures { IfOk result (λ disk. disk ≡ fresh_disk T sectors read_only identity depth) }
    {
        let tags = Tags::new(alloc, depth as usize)?;
        let extent = Extent {
            start: 0,
            count: sectors,
        };
        let device = BlockDevice::new(extent, read_only, identity);
        Ok(RacingHostedDisk {
            disk: RacingDisk { device },
            tags,
            on_hold: false,
        })
    }
}
