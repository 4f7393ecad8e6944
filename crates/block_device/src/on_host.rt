//! The device over a disk that the host has, as the service of its queue has it.

ghost use Rattle.std.specs.Prelude.{◌≡◌, ◌*◌, ◌^◌, ◌<◌, IfErr, IfOk, OnErr};
ghost use Rattle.guest_memory.specs.Memory.{SameRange};
ghost use Rattle.chain.specs.Buffers.{Good};
ghost use Rattle.chain.specs.Service.{Does};
ghost use Rattle.sector_cache.specs.Disk.{Disk};
ghost use Rattle.block_device.specs.Asking.{HasUnreadSegments, unasked_device};
ghost use Rattle.block_device.specs.Extent.{sector_len};
ghost use Rattle.block_device.specs.Operation.{IsToldToHost};

use crate::answer::Begun;
use crate::device::BlockDevice;
use crate::request::Request;
use chain::{Chain, Runs};
use guest_memory::GuestMemory;
use mmio_window::{QueueHandler, Used};
use std::alloc::Allocator;

/// A device in a piece of its service. It leaves a chain that asks for the disk, and of a WRITE_ZEROES the runs.
#[derive(Drop)]
pub(crate) struct OnHost<'a> {
    pub device: &'a BlockDevice,
}

impl<'a> QueueHandler<Runs> for OnHost<'a> {
    type Refusal = Request;

    ghost use Rattle.std.specs.Prelude.{◌*◌, ◌^◌, ◌<◌};
    ghost use Rattle.block_device.specs.declared.device.BlockDevice.{BlockDevice};
    ghost use Rattle.block_device.specs.Extent.{sector_len};
    ghost use Rattle.block_device.specs.Hosting.{hosted_device};
    ghost use Rattle.block_device.specs.Operation.{IsToldToHost};

    ghost State = { Unit {0} };

    ghost state = { λ here runs. tt };

    ghost Setup = { BlockDevice };

    ghost setup = { λ here runs. here.device.now };

    ghost device = { λ fixed. hosted_device fixed };

    ghost Refuses = { λ fixed runs state memory buffers request. IsToldToHost fixed memory buffers request runs };

    ghost IsReady = { λ here runs. sector_len * here.device.now.extent.count < 2 ^ 64 };

    ghost Keeps = { λ here runs there later. Unit {0} };

    fn takes(&self, _runs: &Runs) -> bool {
        true
    }

    fn serve<M: Allocator>(
        &mut self,
        mem: &mut GuestMemory<M>,
        chain: &Chain,
        runs: &mut Runs,
    ) -> Result<Used, Request> {
        match self.device.begin(mem, chain) {
            Begun::Answered(used) => Ok(used),
            Begun::Asks(request) => Err(request),
            Begun::Zeroes(len) => self.leave_zeroes(mem, chain, len, runs),
        }
    }
}

impl<'a> OnHost<'a> {
    /// Leaves a WRITE_ZEROES with so many bytes of segments to the host, or answers it. The runs are made of the
    /// segments that were judged.
    #[inline(never)]
    fn leave_zeroes<M: Allocator>(
        &self,
        mem: &mut GuestMemory<M>,
        chain: &Chain,
        len: u64,
        runs: &mut Runs,
    ) -> Result<Used, Request>
        requires good { Good mem.old chain.now }
        requires disk { sector_len * self.now.device.now.extent.count < 2 ^ 64 }
        requires unread { HasUnreadSegments self.now.device.now mem.old chain.now len }
        ensures does { IfOk result (λ used. (disk : Disk) →
            Does (unasked_device self.now.device.now) mem.old mem.new chain.now disk disk used.len used.wrote) }
        ensures told { IfErr result (λ request. IsToldToHost self.now.device.now mem.old chain.now request runs.new) }
        ensures unwritten { OnErr result (mem.new ≡ mem.old) }
        ensures range { SameRange mem.old mem.new }
    {
        match self.device.judged_segments(mem, chain, len) {
            Ok(segments) => {
                segments.tell(self.device.extent.count, runs);
                Err(Request::WriteZeroes {
                    segments: segments.as_slice().len() as u64,
                })
            }
            Err(status) => Ok(self.device.reject(mem, chain, status)),
        }
    }
}
