//! Laws of the definitions. The bodies are empty: each contract is a theorem.

ghost use Rattle.std.specs.Prelude.{◌≡◌, ◌+◌, ℕ, Bool, List, All, false, true, length};
ghost use Rattle.chain.specs.declared.segment.Buffer.{Buffer};
ghost use Rattle.chain.specs.declared.segment.Segment.{Segment};
ghost use Rattle.chain.specs.Buffers.{Good};
ghost use Rattle.chain.specs.Bytes.{readable_of, writable_of};
ghost use Rattle.guest_memory.specs.Memory.{Memory};
ghost use Rattle.shared_memory.specs.Sightings.{Sightings, Loads, memory};
ghost use Rattle.block_device.specs.declared.device.BlockDevice.{BlockDevice};
ghost use Rattle.block_device.specs.declared.request.Request.{Request};
ghost use Rattle.block_device.specs.Asking.{asks_image, has_segments};
ghost use Rattle.block_device.specs.Operation.{IsToldToHost, OnDisk, runs_by, runs_for};
ghost use Rattle.block_device.specs.Request.{request_of};
ghost use Rattle.chain.specs.Service.{Does};
ghost use Rattle.block_device.specs.declared.hosting.Flight.{Flight};
ghost use Rattle.block_device.specs.declared.operation.Verdict.{Verdict};
ghost use Rattle.block_device.specs.Hosting.{hosted_device};
ghost use Rattle.block_device.specs.Hosting as hosting;
ghost use Rattle.chain_handler.specs.Device.{DoesRaced, RefusesRaced};
ghost use Rattle.racing_disk.specs.Answering.{IsAnswered};
ghost use Rattle.racing_disk.specs.Completing.{IsCompleted};
ghost use Rattle.racing_disk.specs.Copying.{IsCopy};
ghost use Rattle.racing_disk.specs.Judging.{IsJudged};
ghost use Rattle.racing_disk.specs.Telling.{IsLeft};

/// A guest that stands still asks for what `request_of` says of its memory, and what asks for the disk is told to the host
/// as `IsToldToHost` says.
pub fn a_guest_that_stands_still_asks_for_what_it_has()
    ensures request { (device : BlockDevice) (old new : Sightings) (buffers : List Buffer) (room : ℕ) (request : Request)
        (runs : List Segment) → Good (memory old) buffers → Loads false old new
        → IsJudged device old new buffers room request runs
        → request ≡ request_of device (readable_of (memory old) buffers) room }
    ensures told { (device : BlockDevice) (old new : Sightings) (buffers : List Buffer) (room : ℕ) (request : Request)
        (runs : List Segment) → Good (memory old) buffers → Loads false old new
        → IsJudged device old new buffers room request runs → length (writable_of buffers) ≡ room + 1
        → asks_image request ≡ true → IsToldToHost device (memory old) buffers request runs }
    ensures left { (device : BlockDevice) (old new : Sightings) (buffers : List Buffer) (request : Request) (kept : List Segment)
        → Good (memory old) buffers → RefusesRaced {State = Unit {0}}
        (λ state readable buffers request. IsLeft device readable buffers request kept) false old new buffers tt request
        → asks_image request ≡ true → IsToldToHost device (memory old) buffers request kept }
    ensures runs { (request : Request) (m : Memory) (buffers : List Buffer)
        → runs_by request (readable_of m buffers) buffers ≡ runs_for request m buffers }
{}

/// A chain that is answered is served as a device of racing_service does, by the copy that it was judged by. So where the guest
/// stands still it is served as `hosted_device` of block_device does.
pub fn an_answered_chain_is_served()
    ensures served { (device : BlockDevice) (races : Bool) (old read new : Sightings) (readable : List ℕ) (buffers : List Buffer)
        (len : ℕ) → Loads races old read → IsCopy old read buffers readable
        → IsAnswered device races read new readable buffers len
        → DoesRaced (hosted_device device) races old new buffers tt tt len true }
    ensures still { (device : BlockDevice) (old read new : Sightings) (readable : List ℕ) (buffers : List Buffer) (len : ℕ)
        → Good (memory old) buffers → Loads false old read → IsCopy old read buffers readable
        → IsAnswered device false read new readable buffers len
        → Does (hosted_device device) (memory old) (memory new) buffers tt tt len true }
{}

/// A chain of a guest that stands still is completed as `IsCompleted` of block_device says.
pub fn a_guest_that_stands_still_is_completed<T>()
    ensures { (flight : Flight T) (verdict : Verdict) (old new : Sightings) (len : ℕ)
        → IsCompleted false old new flight.status flight.writable flight.operation.kind verdict len
        → hosting.IsCompleted flight verdict (memory old) (memory new) len }
{}

/// Whatever the guest writes meanwhile, each run of a WRITE_ZEROES lies on the disk.
pub fn what_is_zeroed_lies_on_the_disk()
    ensures { (device : BlockDevice) (old new : Sightings) (buffers : List Buffer) (room : ℕ) (request : Request)
        (runs : List Segment) → IsJudged device old new buffers room request runs → has_segments request ≡ true
        → All (OnDisk device.extent.count) runs }
{}
