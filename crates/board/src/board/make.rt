//! How a board is made: over memories of zeros, or of bytes that a host lends.

ghost use Rattle.std.specs.Prelude.{◌≡◌, ◌≢◌, map, IfOk, IfErr, OnOk, IsErrAnd, IsOkAnd};
ghost use Rattle.std.specs.Vec.{vec_items};
ghost use Rattle.board.specs.declared.fault.BoardFault.{BoardFault};
ghost use Rattle.board.specs.Extent.{AreSound};
ghost use Rattle.board.specs.Fault.{IsAccepted, Refuses, cache_refusal};
ghost use Rattle.board.specs.Lent.{AreBytesOf, made_over, opened_over};
ghost use Rattle.board.specs.Slot.{opened};
ghost use Rattle.board.specs.World.{extents_of};

use crate::board::Board;
use crate::check::check_slots;
use crate::fault::BoardFault;
use crate::guest::Guest;
use crate::opening;
use crate::spec::SlotSpec;
use sector_cache::{CacheFault, Image, Refused, SectorCache};
use std::alloc::{AllocError, Allocator};
use std_alloc::vec::Lodged;

impl<I: Image, A: Allocator + Copy> Board<I, A> {
    /// A board with these slots over an image, and a cache of at most `cache` sectors before it.
    /// Where it is refused the image is handed back as it was.
    pub fn new(
        alloc: A,
        slots: &[SlotSpec],
        image: I,
        cache: u32,
    ) -> Result<Board<I, A>, Refused<I, BoardFault>>
        ensures made { IfOk result (λ board.
            board ≡ record { slots = map opened slots.now; image = image }) }
        ensures accepted { OnOk result (IsAccepted (I.disk image).sector_count slots.now cache) }
        ensures fault { IfErr result (λ refused.
            Refuses (I.disk image).sector_count slots.now cache refused.why) }
        ensures returned { IfErr result (λ refused. refused.image ≡ image) }

        // exactly that fault, where there is one other than want of memory
        ensures exact { (fault : BoardFault) → fault ≢ BoardFault.NoMemory →
            Refuses (I.disk image).sector_count slots.now cache fault →
            IsErrAnd result (λ refused. refused.why ≡ fault) }
    {
        let cache = cache_before(alloc, slots, image, cache)?;
        board_of(alloc, opening::open_all(alloc, slots), cache)
    }

    /// A board as `new` makes it, whose memories' bytes a host lends: those of each region, in the slots' order and in each
    /// slot in the regions' order. None is copied, read or written, then or at the end.
    pub fn over_lent(
        alloc: A,
        slots: &[SlotSpec],
        bytes: Vec<Vec<u8, Lodged>, A>,
        image: I,
        cache: u32,
    ) -> Result<Board<I, A>, Refused<I, BoardFault>>
        requires { AreBytesOf slots.now (map vec_items bytes.items) }
        ensures made { IfOk result (λ board. board ≡
            record { slots = made_over opened_over slots.now (map vec_items bytes.items); image = image }) }
        ensures accepted { OnOk result (IsAccepted (I.disk image).sector_count slots.now cache) }
        ensures fault { IfErr result (λ refused.
            Refuses (I.disk image).sector_count slots.now cache refused.why) }
        ensures returned { IfErr result (λ refused. refused.image ≡ image) }
        ensures exact { (fault : BoardFault) → fault ≢ BoardFault.NoMemory →
            Refuses (I.disk image).sector_count slots.now cache fault →
            IsErrAnd result (λ refused. refused.why ≡ fault) }
    {
        let cache = cache_before(alloc, slots, image, cache)?;
        board_of(alloc, opening::open_all_over(alloc, slots, bytes), cache)
    }
}

// The cache before the image, where the slots can be had on it, and else the image as it was.
fn cache_before<I: Image, A: Allocator + Copy>(
    alloc: A,
    slots: &[SlotSpec],
    image: I,
    cache: u32,
) -> Result<SectorCache<I, A>, Refused<I, BoardFault>>
    ensures made { IfOk result (λ made. made ≡ image) }
    ensures accepted { OnOk result (IsAccepted (I.disk image).sector_count slots.now cache) }
    ensures fault { IfErr result (λ refused.
        Refuses (I.disk image).sector_count slots.now cache refused.why) }
    ensures returned { IfErr result (λ refused. refused.image ≡ image) }
{
    if let Err(why) = check_slots(slots, image.sectors()) {
        return Err(Refused { image, why });
    }
    match SectorCache::new(alloc, image, cache) {
        Ok(cache) => Ok(cache),
        Err(Refused { image, why }) => Err(Refused {
            image,
            why: cache_fault(why),
        }),
    }
}

// The board of slots that were opened, and where there was no memory for them the image.
fn board_of<I: Image, A: Allocator>(
    alloc: A,
    slots: Result<Vec<Guest<A>, A>, AllocError>,
    cache: SectorCache<I, A>,
) -> Result<Board<I, A>, Refused<I, BoardFault>>
    requires { IfOk slots (λ slots. AreSound (I.disk cache).sector_count (extents_of slots.items)) }
    ensures made { IfOk result (λ board. IsOkAnd slots (λ slots.
        board ≡ record { slots = slots.items; image = cache })) }
    ensures fault { IfErr result (λ refused.
        refused ≡ record { image = cache; why = BoardFault.NoMemory }) }
{
    match slots {
        Ok(slots) => Ok(Board {
            slots,
            cache,
            alloc,
        }),
        Err(AllocError) => Err(Refused {
            image: cache.into_image(),
            why: BoardFault::NoMemory,
        }),
    }
}

// Why there is no board where there is no cache.
fn cache_fault(fault: CacheFault) -> BoardFault
    ensures { result ≡ cache_refusal fault }
{
    match fault {
        CacheFault::BadCapacity => BoardFault::Cache(fault),
        CacheFault::NoMemory => BoardFault::NoMemory,
    }
}
