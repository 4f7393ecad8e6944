//! Laws of the definitions. The bodies are empty: each contract is a theorem.

ghost use Rattle.std.specs.Prelude.{◌≡◌, ◌<◌, ℕ, Bool, List, false};
ghost use Rattle.guest_memory.specs.Memory.{Memory, SameRange};
ghost use Rattle.chain.specs.declared.state.RingState.{RingState};
ghost use Rattle.split_ring.specs.Kind.{split_kind};
ghost use Rattle.split_ring.specs.Ring as split;
ghost use Rattle.packed_ring.specs.Kind.{packed_kind};
ghost use Rattle.shared_memory.specs.Sightings.{memory};
ghost use Rattle.block_device.specs.declared.device.BlockDevice.{BlockDevice};
ghost use Rattle.block_device.specs.declared.operation.HostEvent.{HostEvent};
ghost use Rattle.block_device.specs.declared.operation.Verdict.{Verdict};
ghost use Rattle.racing_service.specs.declared.stage.Stage.{Stage};
ghost use Rattle.racing_service.specs.Flights.{Stays};
ghost use Rattle.racing_service.specs.LeftAlone.{LeavesPacked, LeavesSplit};
ghost use Rattle.racing_service.specs.Queue.{racing_packed, racing_split};
ghost use Rattle.racing_service.specs.Service.{Standing};
ghost use Rattle.racing_hosted_disk.specs.Disk.{HoldsFlights, RacingHostedDisk, fresh_disk};
ghost use Rattle.racing_hosted_disk.specs.Laws.{IsAskedAlone, IsToldOf, LandsAsOne, PackedToken, SplitToken, moment_asked, packed_entry, packed_taken, split_entry, split_taken};
ghost use Rattle.racing_hosted_disk.specs.Looking.{AsksIn, Place};
ghost use Rattle.block_device.specs.Tags.{InFlight};
ghost use Rattle.racing_hosted_disk.specs.Told.{Lands, told_unserved};

use racing_service::KeepsFlights;

/// Of a guest that stands still the host is told what it is told of any other such guest: what block_device says of the chain
/// on offer, in the memory as it stands there.
pub fn a_guest_that_stands_still_is_told_of_as_it_is()
    ensures split { (device : BlockDevice) (stage : Stage) (most : ℕ) (stable wanted : Bool) (here : InFlight SplitToken)
        (a b : Standing RingState (Unit {0}))
        (asks : AsksIn racing_split split_entry split_taken device false stage most stable here a b wanted)
        → IsToldOf split_kind split_entry device stable (memory asks.finds.at.sightings) asks.finds.at.ring asks.buffers here }
    ensures packed { (device : BlockDevice) (stage : Stage) (most : ℕ) (stable wanted : Bool) (here : InFlight PackedToken)
        (a b : Standing RingState (Unit {0}))
        (asks : AsksIn racing_packed packed_entry packed_taken device false stage most stable here a b wanted)
        → IsToldOf packed_kind packed_entry device stable (memory asks.finds.at.sightings) asks.finds.at.ring asks.buffers here }
{}

/// Of a chain that its driver leaves alone while it is taken, the host is told what it is told of a guest that stands still: what
/// block_device says of the chain on offer in one memory, which was seen once the chain was taken. Whatever else the guest writes
/// meanwhile is of no account.
pub fn a_chain_that_is_left_alone_is_told_of_as_it_is()
    ensures split { (device : BlockDevice) (races : Bool) (stage : Stage) (most : ℕ) (stable wanted : Bool) (here : InFlight SplitToken)
        (a b : Standing RingState (Unit {0}))
        (asks : AsksIn racing_split split_entry split_taken device races stage most stable here a b wanted)
        → IsAskedAlone racing_split split_entry split_taken device races stage most stable here a b wanted asks LeavesSplit
        → IsToldOf split_kind split_entry device stable
        (moment_asked racing_split split_entry split_taken device races stage most stable here a b wanted asks) asks.finds.at.ring asks.buffers
        here }
    ensures packed { (device : BlockDevice) (races : Bool) (stage : Stage) (most : ℕ) (stable wanted : Bool) (here : InFlight PackedToken)
        (a b : Standing RingState (Unit {0}))
        (asks : AsksIn racing_packed packed_entry packed_taken device races stage most stable here a b wanted)
        → IsAskedAlone racing_packed packed_entry packed_taken device races stage most stable here a b wanted asks LeavesPacked
        → IsToldOf packed_kind packed_entry device stable
        (moment_asked racing_packed packed_entry packed_taken device races stage most stable here a b wanted asks) asks.finds.at.ring
        asks.buffers here }
{}

/// Over a memory that stands still a completion writes what block_device and its ring say: the status, the used entry, and the
/// closing writes.
pub fn a_guest_that_stands_still_is_given_back()
    ensures split { (device : BlockDevice) (tag : ℕ) (verdict : Verdict) (wanted : Bool) (a b : Place RingState SplitToken)
        → split.LiesIn (memory a.service.sightings) a.service.ring.setup → 0 < a.service.ring.setup.size
        → (lands : Lands racing_split split_entry device false tag verdict a b wanted)
        → LandsAsOne split_kind split_entry verdict lands.here (memory a.service.sightings) (memory b.service.sightings)
        a.service.ring b.service.ring wanted }
    ensures packed { (device : BlockDevice) (tag : ℕ) (verdict : Verdict) (wanted : Bool) (a b : Place RingState PackedToken)
        → 0 < a.service.ring.setup.size
        → (lands : Lands racing_packed packed_entry device false tag verdict a b wanted)
        → LandsAsOne packed_kind packed_entry verdict lands.here (memory a.service.sightings) (memory b.service.sightings)
        a.service.ring b.service.ring wanted }
{}

/// Nothing of a new disk is in flight. What is outlasts all that leaves the memory's range and the queue's chains in flight, and
/// what the host says while the queue can't be served.
pub fn what_is_in_flight_outlasts<Q: KeepsFlights>()
    ensures fresh { (sectors depth : ℕ) (read_only : Bool) (identity : List ℕ) (m : Memory) (queue : Q) →
        HoldsFlights Q.entry_of Q.Fits Q.ahead_of m queue (fresh_disk Q.Token sectors read_only identity depth) }
    ensures outlasts { (m n : Memory) (queue after : Q) (disk : RacingHostedDisk Q.Token) → SameRange m n
        → Stays Q.Fits Q.ahead_of queue after → HoldsFlights Q.entry_of Q.Fits Q.ahead_of m queue disk
        → HoldsFlights Q.entry_of Q.Fits Q.ahead_of n after disk }
    ensures unserved { (said : HostEvent) (m : Memory) (queue : Q) (disk : RacingHostedDisk Q.Token)
        → HoldsFlights Q.entry_of Q.Fits Q.ahead_of m queue disk
        → HoldsFlights Q.entry_of Q.Fits Q.ahead_of m queue (told_unserved said disk) }
{}
