//! Laws of the definitions. The bodies are empty: each contract is a theorem.

ghost use Rattle.std.specs.Prelude.{◌≡◌, ℕ, Bool, None, Some, false, get_or};
ghost use Rattle.guest_memory.specs.Memory.{Memory, SameRange};
ghost use Rattle.mmio_window.specs.declared.queue.Queue.{Queue};
ghost use Rattle.mmio_window.specs.declared.queue.Token.{Token};
ghost use Rattle.mmio_window.specs.Queue.{IsTaken, entry_of, queue_kind};
ghost use Rattle.shared_memory.specs.Sightings.{memory};
ghost use Rattle.block_device.specs.declared.device.BlockDevice.{BlockDevice};
ghost use Rattle.block_device.specs.declared.operation.Operation.{Operation};
ghost use Rattle.block_device.specs.Operation.{LiesInside};
ghost use Rattle.racing_service.specs.declared.stage.Stage.{Stage};
ghost use Rattle.racing_service.specs.Service.{Standing};
ghost use Rattle.racing_window.specs.Laws.{LeavesQueue};
ghost use Rattle.racing_window.specs.Queue.{racing_queue};
ghost use Rattle.racing_hosted_disk.specs.Laws.{IsAskedAlone, IsToldOf, moment_asked};
ghost use Rattle.racing_hosted_disk.specs.Looking.{AsksIn};
ghost use Rattle.block_device.specs.Tags.{InFlight, operation_in, runs_in};
ghost use Rattle.racing_guest.specs.Block.{IsSoundBlock, RacingBlock};
ghost use Rattle.racing_guest.specs.Guest.{IsSoundGuest, RacingGuest};

/// A guest that is sound for a memory is so for each memory of its range: also for that of the next call, in which the guest's
/// bytes are others.
pub fn a_guest_is_sound_for_the_range()
    ensures block { (m n : Memory) (block : RacingBlock) → SameRange m n → IsSoundBlock m block → IsSoundBlock n block }
    ensures guest { (m n : Memory) (guest : RacingGuest) → SameRange m n → IsSoundGuest m guest → IsSoundGuest n guest }
{}

/// Nothing that the host of a sound block device is told lies outside the guest's memory or the disk, whichever tag it is of.
pub fn what_the_host_is_told_lies_inside()
    ensures { (m : Memory) (block : RacingBlock) (tag : ℕ) (operation : Operation) → IsSoundBlock m block
        → operation_in (get_or block.disk.tags tag None) ≡ Some operation
        → LiesInside block.disk.device.extent.count m operation (runs_in (get_or block.disk.tags tag None)) }
{}

/// Of a chain of the disk's queue the host is told what block_device says of one memory: where the guest stands still (`still`), and
/// where its driver leaves the chain alone while it is taken, whatever else the guest writes (`alone`).
pub fn what_the_host_is_told_is_of_one_moment()
    ensures still { (device : BlockDevice) (stage : Stage) (most : ℕ) (stable wanted : Bool) (here : InFlight Token)
        (a b : Standing Queue (Unit {0})) (asks : AsksIn racing_queue entry_of IsTaken device false stage most stable here a b wanted)
        → IsToldOf queue_kind entry_of device stable (memory asks.finds.at.sightings) asks.finds.at.ring asks.buffers here }
    ensures alone { (device : BlockDevice) (races : Bool) (stage : Stage) (most : ℕ) (stable wanted : Bool) (here : InFlight Token)
        (a b : Standing Queue (Unit {0})) (asks : AsksIn racing_queue entry_of IsTaken device races stage most stable here a b wanted)
        → IsAskedAlone racing_queue entry_of IsTaken device races stage most stable here a b wanted asks LeavesQueue
        → IsToldOf queue_kind entry_of device stable
        (moment_asked racing_queue entry_of IsTaken device races stage most stable here a b wanted asks) asks.finds.at.ring asks.buffers
        here }
{}
