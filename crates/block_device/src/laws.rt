//! Laws of the definitions. The bodies are empty: each contract is a theorem.

ghost use Rattle.std.specs.Prelude.{◌≡◌, ◌≢◌, ◌⊎◌, ℕ, ◌+◌, ◌<◌, ◌≤◌, Bool, Contains, IfSome, true, false, List, ◌∷◌, ◌++◌, Option, None, Some, get_or, length, map};
ghost use Rattle.std.specs.List.{slice_get};
ghost use Rattle.guest_memory.specs.Memory.{Memory};
ghost use Rattle.chain.specs.declared.budget.Budget.{Budget};
ghost use Rattle.chain.specs.declared.budget.Progress.{Progress};
ghost use Rattle.chain.specs.declared.budget.Progress.TheVariants.{Done, More};
ghost use Rattle.chain.specs.declared.segment.Buffer.{Buffer};
ghost use Rattle.chain.specs.declared.segment.Segment.{Segment};
ghost use Rattle.chain.specs.Pieces.{GoesInPieces, IsOneService, Pause};
ghost use Rattle.chain.specs.Service.{Ending, Given, IsService, Refused, Served, ServesAll, Site, after, open_site};
ghost use Rattle.sector_cache.specs.Disk.{Disk, IsWhole, KeepsClean};
ghost use Rattle.sector_cache.specs.Sector.{sector_of};
ghost use Rattle.sector_cache.specs.Stop.{BeginsAt, Only, TouchesSectors};
ghost use Rattle.mmio_window.specs.declared.queue.Queue.{Queue};
ghost use Rattle.mmio_window.specs.declared.stage.Stage.{Stage};
ghost use Rattle.mmio_window.specs.Queue.{AreAhead, queue_kind};
ghost use Rattle.mmio_window.specs.Window.{WindowState, queue_at};
ghost use Rattle.block_device.specs.declared.device.BlockDevice.{BlockDevice};
ghost use Rattle.mmio_window.specs.declared.queue.Token.{Token};
ghost use Rattle.block_device.specs.declared.hosting.Flight.{Flight};
ghost use Rattle.block_device.specs.declared.hosting.Hosted.{Hosted};
ghost use Rattle.block_device.specs.declared.operation.Verdict.{Verdict};
ghost use Rattle.block_device.specs.Device.{GivesBy, HasAnswer, block_device, exact_device};
ghost use Rattle.block_device.specs.Durable.{Completion, IsCommitted, IsUnwritten, KeepsWordIn, Medium, must_last};
ghost use Rattle.block_device.specs.Extent.{SameSectors};
ghost use Rattle.block_device.specs.Flights.{HostedQueue, InFlight, IsLanding, LooksAt, LooksFrom, LooksTo, unlimited};
ghost use Rattle.block_device.specs.Tags.{tokens_of};
ghost use Rattle.block_device.specs.Hosting.{CompletesIn, FlightOutlasts, HonestHostServes, HostsTo, SameLook};
ghost use Rattle.block_device.specs.Outcome.{Completes, Ends};
ghost use Rattle.block_device.specs.Touching.{device_over, sectors_of_chains, seen_chain, seen_site};

use sector_cache::Image;

/// A chain is served exactly as over an image that never fails, or one failure more is counted.
pub fn one_failure_at_most()
    ensures counted { (device : BlockDevice) (disk : Disk) (readable : List ℕ) (w : ℕ) (given : Given Disk)
        → GivesBy (Ends device.identity) device disk readable w given
        → (given.state.failures ≡ disk.failures) ⊎ (given.state.failures ≡ disk.failures + 1) }
    ensures exact { (device : BlockDevice) (disk : Disk) (readable : List ℕ) (w : ℕ) (given : Given Disk)
        → GivesBy (Ends device.identity) device disk readable w given → given.state.failures ≡ disk.failures
        → GivesBy (Completes device.identity) device disk readable w given }
{}

/// Over an image that tells all of its bytes and doesn't fail there is one answer to a chain.
pub fn one_answer()
    ensures at_most_one { (device : BlockDevice) (disk : Disk) (bytes readable : List ℕ) (w : ℕ) (one other : Given Disk)
        → disk.contents ≡ Some bytes
        → GivesBy (Completes device.identity) device disk readable w one → GivesBy (Completes device.identity) device disk readable w other
        → one ≡ other }
    ensures some { (device : BlockDevice) (disk : Disk) (bytes readable : List ℕ) (w : ℕ)
        → disk.contents ≡ Some bytes → IsWhole disk → device.extent.count ≤ disk.sector_count
        → length device.identity ≡ 20
        → HasAnswer device disk readable w }
{}

/// A service of the device never ends for want of memory.
pub fn no_service_is_refused()
    ensures { (device : BlockDevice) (old new : Site Queue Disk) (ending : Ending) (wanted : Bool)
        → IsService queue_kind (block_device device) old new ending wanted → ending ≢ Refused }
{}

/// A service in which the number of failures stayed is one of the device that never fails.
pub fn a_service_without_failure_is_exact()
    ensures { (device : BlockDevice) (old new : Site Queue Disk) (ending : Ending) (wanted : Bool)
        → new.state.failures ≡ old.state.failures
        → IsService queue_kind (block_device device) old new ending wanted
        → IsService queue_kind (exact_device device) old new ending wanted }
{}

/// Over an image that tells its bytes and doesn't fail there is at most one service of a queue.
pub fn at_most_one_exact_service()
    ensures { (device : BlockDevice) (bytes : List ℕ) (old one other : Site Queue Disk)
        (ending end : Ending) (wanted wants : Bool) → old.state.contents ≡ Some bytes
        → IsService queue_kind (exact_device device) old one ending wanted
        → IsService queue_kind (exact_device device) old other end wants
        → (one ≡ other) × (ending ≡ end) × (wanted ≡ wants) }
{}

/// A look at a queue of a disk that the host serves comes out in at most one way, where its budget has no limit.
pub fn one_look()
    ensures { (device : BlockDevice) (budget : Budget) (found : Option Queue) (one other : Hosted) (old m n : Memory)
        (before v w : WindowState) (b c : List Buffer) (r s : List Segment) (disk : Disk)
        → budget.chains ≡ None → budget.bytes ≡ None
        → HostsTo device Stage.First budget found one old m before v b r disk
        → HostsTo device Stage.First budget found other old n before w c s disk
        → SameLook one other m n v w b c r s }
{}

/// So does a whole look at such a queue, with many in flight: the same chains ask, in the same order and with the same tags.
pub fn one_whole_look()
    ensures { (device : BlockDevice) (old one other : HostedQueue) (asked others : List InFlight)
        → LooksAt device old asked one → LooksAt device old others other → (asked ≡ others) × (one ≡ other) }
{}

/// The pieces of a look, one after another, are that look: a piece that pauses with one behind it (`pauses`), and one that comes
/// to the end (`ends`). Without limits none pauses (`whole`).
pub fn pieces_are_one_look()
    ensures pauses { (device : BlockDevice) (stage : Stage) (budget : Budget) (old mid new : HostedQueue)
        (asked later : List InFlight) → LooksTo device stage budget More old asked mid
        → LooksFrom device Stage.Next mid later new → LooksFrom device stage old (asked ++ later) new }
    ensures ends { (device : BlockDevice) (stage : Stage) (budget : Budget) (old new : HostedQueue) (asked : List InFlight)
        → LooksTo device stage budget Done old asked new → LooksFrom device stage old asked new }
    ensures whole { (device : BlockDevice) (stage : Stage) (progress : Progress) (old new : HostedQueue)
        (asked : List InFlight) → LooksTo device stage unlimited progress old asked new → progress ≡ Done }
{}

/// A piece of a look within a budget comes out in at most one way: the same chains ask, and it pauses or doesn't.
pub fn one_piece_of_a_look()
    ensures { (device : BlockDevice) (stage : Stage) (budget : Budget) (x y : Progress) (old one other : HostedQueue)
        (asked others : List InFlight) → LooksTo device stage budget x old asked one
        → LooksTo device stage budget y old others other → (x ≡ y) × (asked ≡ others) × (one ≡ other) }
{}

/// A look keeps what is in flight between the next used entry and the next chain, and the chains that ask are too.
pub fn what_asks_is_ahead()
    ensures { (device : BlockDevice) (old new : HostedQueue) (asked : List InFlight) → LooksAt device old asked new
        → IfSome (queue_at 0 old.window) (λ queue. AreAhead queue (tokens_of old.tags))
        → IfSome (queue_at 0 new.window) (λ queue. AreAhead queue (tokens_of new.tags)) }
{}

/// And what is in flight stays so as one lands, whichever it is.
pub fn what_stays_is_ahead()
    ensures { (tag : ℕ) (verdict : Verdict) (old new : HostedQueue) → IsLanding tag verdict old new → tag < length old.tags
        → IfSome (queue_at 0 old.window) (λ queue. AreAhead queue (tokens_of old.tags))
        → IfSome (queue_at 0 new.window) (λ queue. AreAhead queue (tokens_of new.tags)) }
{}

/// A chain that lands is given back once: its tag is free then (`free`), so its completion again finds nothing, and each other
/// tag stays as it was (`others`).
#[tactic(auto, using(crate::proofs::Landing::landed_free, crate::proofs::Landing::landed_others))]
pub fn what_lands_is_gone()
    ensures free { (tag : ℕ) (verdict : Verdict) (old new : HostedQueue) → IsLanding tag verdict old new
        → get_or new.tags tag None ≡ None }
    ensures others { (tag other : ℕ) (verdict : Verdict) (old new : HostedQueue) → IsLanding tag verdict old new
        → other ≢ tag → get_or new.tags other None ≡ get_or old.tags other None }
{}

/// And so does a completion by one verdict.
pub fn one_completion()
    ensures { (flight : Flight Token) (verdict : Verdict) (old m n : Memory) (before v w : WindowState)
        → CompletesIn flight verdict old m before v → CompletesIn flight verdict old n before w
        → (m ≡ n) × (v ≡ w) }
{}

/// A chain in flight outlasts all that leaves the range of the guest's memory and the queues of its window. Of the writes to
/// the window only two may not.
pub fn a_flight_outlasts()
    ensures { FlightOutlasts }
{}

/// Where a host did with a disk what may become of such a request, and memory is that of the asking but for the data that was
/// read, the chain that it completes is served by the device over that disk: by the very device of a disk behind the cache.
pub fn an_honest_host_serves()
    ensures { HonestHostServes }
{}

/// While no call of the image fails, a clean disk stays clean. An OUT, FLUSH or WRITE_ZEROES that was answered OK leaves it
/// clean, whatever failed before, and so it stays until a call fails.
pub fn an_answered_write_is_flushed()
    ensures clean { (device : BlockDevice) (start at : Site Queue Disk) (chains : List (Served Disk))
        → ServesAll queue_kind (block_device device) start chains at → KeepsClean start.state at.state }
    ensures flushed { (device : BlockDevice) (start at : Site Queue Disk) (answered : Served Disk) (later : List (Served Disk))
        → ServesAll queue_kind (block_device device) start (answered ∷ later) at
        → IsCommitted device start.memory answered → at.state.failures ≡ answered.given.state.failures
        → at.state.dirty ≡ false }
{}

/// A stop at any moment within chains that are served over an image one after another, whatever failed: only the sectors of
/// their requests are touched (`touches`). Each other sector is left as before them: where a stop could then leave certain
/// bytes alone, it leaves theirs (`known`), and where the disk was clean, its contents (`contents`). So what an OUT, FLUSH or
/// WRITE_ZEROES that was answered OK has left stands, at any moment, until a later request writes that sector (`lasts`). In
/// the sectors of a request itself any bytes may stand, be they old, new or torn. The chains are those that the device
/// serves over the extent as a disk (`served`). It rests on an image that records what a stop might have left.
pub fn a_cut_request_touches_its_own_sectors<I: Image>()
    ensures served { (device : BlockDevice) (start at : Site Queue I) (chains : List (Served I))
        → ServesAll queue_kind (device_over I.disk I.moment I.may_leave I.left_since device) start chains at
        → ServesAll queue_kind (block_device device) (seen_site I.disk device start)
        (map (seen_chain I.disk device) chains) (seen_site I.disk device at) }
    ensures touches { (device : BlockDevice) (start at : Site Queue I) (chains : List (Served I))
        → ServesAll queue_kind (device_over I.disk I.moment I.may_leave I.left_since device) start chains at
        → TouchesSectors I.moment I.may_leave I.left_since
        (sectors_of_chains I.disk I.moment I.may_leave I.left_since device start chains) start.state at.state }
    ensures known { (device : BlockDevice) (start at : Site Queue I) (chains : List (Served I))
        (since sector : ℕ) (bytes left : List ℕ)
        → ServesAll queue_kind (device_over I.disk I.moment I.may_leave I.left_since device) start chains at
        → Only bytes (I.may_leave start.state)
        → BeginsAt (I.may_leave start.state) (I.left_since start.state) since → I.left_since at.state since left
        → ¬ Contains (sectors_of_chains I.disk I.moment I.may_leave I.left_since device start chains) sector
        → sector_of left sector ≡ sector_of bytes sector }
    ensures contents { (device : BlockDevice) (start at : Site Queue I) (chains : List (Served I))
        (since sector : ℕ) (left : List ℕ)
        → ServesAll queue_kind (device_over I.disk I.moment I.may_leave I.left_since device) start chains at
        → (I.disk start.state).dirty ≡ false
        → BeginsAt (I.may_leave start.state) (I.left_since start.state) since → I.left_since at.state since left
        → ¬ Contains (sectors_of_chains I.disk I.moment I.may_leave I.left_since device start chains) sector
        → IfSome (I.disk start.state).contents (λ bytes. sector_of left sector ≡ sector_of bytes sector) }
    ensures lasts { (device : BlockDevice) (start at : Site Queue I) (answered : Served I) (later : List (Served I))
        (since sector : ℕ) (left : List ℕ)
        → ServesAll queue_kind (device_over I.disk I.moment I.may_leave I.left_since device) start (answered ∷ later) at
        → IsCommitted device start.memory (seen_chain I.disk device answered)
        → BeginsAt (I.may_leave answered.given.state) (I.left_since answered.given.state) since
        → I.left_since at.state since left
        → ¬ Contains (sectors_of_chains I.disk I.moment I.may_leave I.left_since device
        (after queue_kind (device_over I.disk I.moment I.may_leave I.left_since device) start answered) later) sector
        → IfSome (I.disk answered.given.state).contents (λ bytes. sector_of left sector ≡ sector_of bytes sector) }
{}

/// A byte that the host of a disk said is on the medium, by a FLUSH or a stable write that was done while nothing in flight
/// wrote it, is there after a stop as the host reads it, until an operation that writes it is in flight again. So a FLUSH
/// covers each write that was completed before it was asked. It rests on a host that keeps its word.
pub fn a_hosted_flush_lasts()
    ensures { (done : Completion) (later : List Completion) (old new : Medium) (place : ℕ)
        → KeepsWordIn old (done ∷ later) new → must_last done place ≡ true → IsUnwritten place later
        → slice_get new.left place ≡ slice_get new.held place }
{}

/// The pieces of a service, joined, are one service, however the image fares in the pauses: what the driver finds in
/// its memory, its queue and its sectors is the same, and so are the ending and the notification.
pub fn pieces_are_one_service()
    ensures { (device : BlockDevice) (old new : Site Queue Disk) (pauses : List (Pause Queue Disk))
        (ending : Ending) (wanted : Bool) → queue_kind.opening_fault old.memory old.ring ≡ None
        → GoesInPieces queue_kind (block_device device) SameSectors (open_site queue_kind (block_device device) old) pauses new ending wanted
        → IsOneService queue_kind (block_device device) SameSectors old new ending wanted }
{}
