//! What is promised of a loss of power, of an image that meets the premises: `WriteBackImage`. Each body but the first
//! calls the law that it is an instance of.

ghost use Rattle.std.specs.Prelude.{◌≡◌, ℕ, ◌+◌, ◌*◌, ◌≤◌, Contains, List, [], ◌∷◌, Some, true, false, length, replicate};
ghost use Rattle.std.specs.List.{slice_get};
ghost use Rattle.chain.specs.Service.{Served, ServesAll, Site, after};
ghost use Rattle.sector_cache.specs.Sector.{sector_of, with_sector};
ghost use Rattle.sector_cache.specs.Stop.{BeginsAt, Only, unnumbered};
ghost use Rattle.mmio_window.specs.declared.queue.Queue.{Queue};
ghost use Rattle.mmio_window.specs.Queue.{queue_kind};
ghost use Rattle.block_device.specs.declared.device.BlockDevice.{BlockDevice};
ghost use Rattle.block_device.specs.Durable.{IsCommitted};
ghost use Rattle.block_device.specs.Touching.{device_over, sectors_of_chains, seen_chain};
ghost use Rattle.board.specs.Durable.{IsLeftAsSeen, TouchesSlot};
ghost use Rattle.board.specs.Extent.{IsApart};
ghost use Rattle.board.specs.Image.{Tells, bytes_of};
ghost use Rattle.board.specs.Line.{Move, IsLine};
ghost use Rattle.board.specs.Slot.{BoardSlot, state_of, whole_extent};
ghost use Rattle.board.specs.World.{BoardState, World, world_of};
ghost use Rattle.test_support.specs.WriteBack.{MayStand, Waits, disk_of, left_since_of, may_leave_of, number_of};
ghost use Rattle.test_support.specs.declared.write_back_image.WriteBackImage.{WriteBackImage};

use crate::write_back_image::WriteBackImage;
use block_device::a_cut_request_touches_its_own_sectors;
use board::{a_cut_event_touches_no_other_disk, a_stop_between_events_loses_nothing};
use std::alloc::Allocator;

/// An image over a write cache tells its bytes (`tells`). A stop may leave any bytes in a sector that waits (`loses`), as
/// ones where zeros were read (`ones`), and leaves exactly what was read where the image is clean (`keeps`). Since the
/// number of a moment nothing might have been left at that moment but what may be (`begins`).
pub fn a_write_cache_may_lose_what_waits<A: Allocator + Copy>()
    ensures tells { (image : WriteBackImage A) → Tells (disk_of image) }
    ensures loses { (image : WriteBackImage A) (sector : ℕ) (bytes : List ℕ) →
        Waits image.waiting.items sector → 512 * (sector + 1) ≤ length (bytes_of (disk_of image)) →
        length bytes ≡ 512 → may_leave_of image (with_sector (bytes_of (disk_of image)) sector bytes) }
    ensures ones { MayStand (replicate 512 0) (true ∷ []) (replicate 512 1) }
    ensures keeps { (image : WriteBackImage A) → (disk_of image).dirty ≡ false →
        Only (bytes_of (disk_of image)) (may_leave_of image) }
    ensures begins { (image : WriteBackImage A) →
        BeginsAt (may_leave_of image) (left_since_of image) (number_of image) }
{}

/// After events that begin with a clean image, in which no call of it fails, it is clean (`clean`), and a stop leaves what
/// the guests see (`left`).
pub fn a_stop_between_events_over_a_write_cache<A: Allocator + Copy, B: Allocator>()
    ensures clean { (old : World) (moves : List (Move B)) (board : BoardState (WriteBackImage A)) →
        IsLine old moves (world_of disk_of board) →
        (world_of disk_of board).health.failures ≡ old.health.failures → old.health.dirty ≡ false →
        (disk_of board.image).dirty ≡ false }
    ensures left { (old : World) (moves : List (Move B)) (board : BoardState (WriteBackImage A)) (left : List ℕ) →
        IsLine old moves (world_of disk_of board) →
        (world_of disk_of board).health.failures ≡ old.health.failures → old.health.dirty ≡ false →
        may_leave_of board.image left → IsLeftAsSeen board.slots (world_of disk_of board) left }
{
    a_stop_between_events_loses_nothing::<WriteBackImage<A>, B>();
}

/// Within an event a stop leaves each other disk as one before the event must leave it (`known`), or as its guest saw it where
/// the image was clean (`seen`).
pub fn a_cut_event_over_a_write_cache<A: Allocator + Copy>()
    ensures known { (old new : BoardState (WriteBackImage A)) (g : ℕ) (own other : BoardSlot) (bytes left : List ℕ) →
        TouchesSlot unnumbered may_leave_of left_since_of g old new → slice_get old.slots g ≡ Some own →
        IsApart (whole_extent own) (whole_extent other) → Only bytes (may_leave_of old.image) →
        left_since_of new.image (number_of old.image) left →
        state_of left other ≡ state_of bytes other }
    ensures seen { (old new : BoardState (WriteBackImage A)) (g : ℕ) (own other : BoardSlot) (left : List ℕ) →
        TouchesSlot unnumbered may_leave_of left_since_of g old new → slice_get old.slots g ≡ Some own →
        IsApart (whole_extent own) (whole_extent other) → (disk_of old.image).dirty ≡ false →
        left_since_of new.image (number_of old.image) left →
        state_of left other ≡ state_of (bytes_of (disk_of old.image)) other }
{
    a_cut_event_touches_no_other_disk::<WriteBackImage<A>>();
}

/// Within chains that are served over it one after another a stop leaves each sector that their requests don't write as one
/// before them must leave it (`known`), or as it was where the image was clean (`contents`); and what a request that was
/// answered OK has left, until a later one writes that sector (`lasts`).
pub fn a_cut_request_over_a_write_cache<A: Allocator + Copy>()
    ensures known { (device : BlockDevice) (start at : Site Queue (WriteBackImage A))
        (chains : List (Served (WriteBackImage A))) (sector : ℕ) (bytes left : List ℕ) →
        ServesAll queue_kind (device_over disk_of unnumbered may_leave_of left_since_of device) start chains at →
        Only bytes (may_leave_of start.state) → left_since_of at.state (number_of start.state) left →
        ¬ Contains (sectors_of_chains disk_of unnumbered may_leave_of left_since_of device start chains) sector →
        sector_of left sector ≡ sector_of bytes sector }
    ensures contents { (device : BlockDevice) (start at : Site Queue (WriteBackImage A))
        (chains : List (Served (WriteBackImage A))) (sector : ℕ) (left : List ℕ) →
        ServesAll queue_kind (device_over disk_of unnumbered may_leave_of left_since_of device) start chains at →
        (disk_of start.state).dirty ≡ false → left_since_of at.state (number_of start.state) left →
        ¬ Contains (sectors_of_chains disk_of unnumbered may_leave_of left_since_of device start chains) sector →
        sector_of left sector ≡ sector_of (bytes_of (disk_of start.state)) sector }
    ensures lasts { (device : BlockDevice) (start at : Site Queue (WriteBackImage A))
        (answered : Served (WriteBackImage A)) (later : List (Served (WriteBackImage A))) (sector : ℕ) (left : List ℕ) →
        ServesAll queue_kind (device_over disk_of unnumbered may_leave_of left_since_of device) start (answered ∷ later) at →
        IsCommitted device start.memory (seen_chain disk_of device answered) →
        left_since_of at.state (number_of answered.given.state) left →
        ¬ Contains (sectors_of_chains disk_of unnumbered may_leave_of left_since_of device
        (after queue_kind (device_over disk_of unnumbered may_leave_of left_since_of device) start answered) later) sector →
        sector_of left sector ≡ sector_of (bytes_of (disk_of answered.given.state)) sector }
{
    a_cut_request_touches_its_own_sectors::<WriteBackImage<A>>();
}
