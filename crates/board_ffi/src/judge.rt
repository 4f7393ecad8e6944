//! What is wrong with a description, which slot of it can't be had, and which region of its memory. No board is made.

ghost use Rattle.std.specs.Prelude.{◌≡◌, ◌≢◌, ◌↔◌, ℕ, IfErr, IfOk, IsTrue, OnOk};
ghost use Rattle.sector_cache.specs.Fault.{IsCapacity};
ghost use Rattle.board.specs.declared.fault.BoardFault.{BoardFault};
ghost use Rattle.session.specs.declared.fault.SessionFault.{SessionFault};
ghost use Rattle.session.specs.Session.{slots_of};
ghost use Rattle.board_ffi.specs.Codes.{fault_code};
ghost use Rattle.board_ffi.specs.declared.config.Config.{Config};
ghost use Rattle.board_ffi.specs.declared.config.ToldConfig.{ToldConfig};
ghost use Rattle.board_ffi.specs.Config.{Describes, IsGood, IsRefused, IsSized, Bad, guests_of};
ghost use Rattle.board_ffi.specs.Judging.{Judges, region_told, slot_told};

use crate::codes::{BAD_SIZE, DONE, RUNS_ON, of_fault};
use crate::config::{ToldConfig, has_own_size};
use crate::loans::are_lent;
use crate::slot::{
    are_devices, are_image_disks, are_outlets, are_sized, guests, sized, stand_still, standing,
    with_devices, with_image_disks, with_outlets,
};
use board::{BoardFault, CacheFault, SlotFault, SlotSpec, check_slots};
use c_values::Slot;
use guest_memory::MemoryFault;
use sector_cache::are_whole_sectors;
use session::SessionFault;
use std::alloc::{AllocError, Global};

/// How many sectors a cache keeps at most.
const MOST_CACHED: u32 = 0x1_0000;

/// Judges a config as `kalyubos_create` does: the number that it would answer for an empty handle, and the slot and the
/// region that this is about.
#[unsafe(no_mangle)]
pub extern "C" fn kalyubos_judge(
    alloc: Global,
    config: &ToldConfig<'_>,
    slot: &mut usize,
    region: &mut usize,
) -> u32
    ensures judges { result ≢ 5 → Judges config.now result slot.old slot.new region.old region.new }
    ensures memory { result ≡ 5 → (described : Config) → Describes config.now described →
        IsSized described × IsRefused described SessionFault.NoMemory }
    ensures memory_of_none { result ≡ 5 → (slot.new ≡ slot.old) × (region.new ≡ region.old) }
{
    if !has_own_size(config.size) {
        return BAD_SIZE;
    }
    if !are_sized(config.slots) {
        *slot = sized(config.slots);
        return BAD_SIZE;
    }
    if !stand_still(config.slots) {
        *slot = standing(config.slots);
        return RUNS_ON;
    }
    match judged(alloc, config) {
        Ok(()) => DONE,
        Err(why) => {
            tell(config, why, slot, region);
            of_fault(why)
        }
    }
}

// Why what a config of this version describes can't be had, if it can't.
fn judged(alloc: Global, config: &ToldConfig<'_>) -> Result<(), SessionFault>
    ensures good { OnOk result ((described : Config) → Describes config.now described → IsGood described) }
    ensures fault { IfErr result (λ why.
        (described : Config) → Describes config.now described → IsRefused described why) }
    ensures want { IfErr result (λ why. fault_code why ≡ 5 → why ≡ SessionFault.NoMemory) }
{
    if !are_lent(config.slots, config.loans) {
        return Err(SessionFault::BadLoan);
    }
    if !are_whole_sectors(config.image.len() as u64) {
        return Err(SessionFault::BadImage);
    }
    if !are_outlets(config.slots) {
        return Err(SessionFault::BadOutlet);
    }
    if !are_devices(config.slots) {
        return Err(SessionFault::BadDevice);
    }
    if !are_image_disks(config.slots) {
        return Err(SessionFault::BadExtent);
    }
    let Ok(specs) = specs(alloc, config.slots) else {
        return Err(SessionFault::NoMemory);
    };
    match check_slots(&specs, config.image.len() as u64 / 512) {
        Ok(()) if is_capacity(config.cache) => Ok(()),
        Ok(()) => Err(SessionFault::Board(BoardFault::Cache(CacheFault::BadCapacity))),
        Err(fault) => Err(SessionFault::Board(fault)),
    }
}

// Whether a cache may keep so many sectors.
fn is_capacity(cache: u32) -> bool
    ensures { IsTrue result ↔ IsCapacity cache }
{
    1 <= cache && cache <= MOST_CACHED
}

// The slots of the board that C describes.
fn specs(alloc: Global, slots: &[Slot]) -> Result<Vec<SlotSpec>, AllocError>
    ensures { IfOk result (λ specs. specs.items ≡ slots_of (guests_of slots.now)) }
{
    let guests = guests(alloc, slots)?;
    guests.iter().map(|guest| guest.slot).collect(alloc)
}

// Tells the slot and the region that a config can't be had for, where it is for one.
fn tell(config: &ToldConfig<'_>, why: SessionFault, slot: &mut usize, region: &mut usize)
    ensures slot { slot.new ≡ slot_told config.now (Bad why) slot.old }
    ensures region { region.new ≡ region_told (Bad why) region.old }
{
    match why {
        SessionFault::BadOutlet => *slot = with_outlets(config.slots),
        SessionFault::BadDevice => *slot = with_devices(config.slots),
        SessionFault::BadExtent => *slot = with_image_disks(config.slots),
        SessionFault::Board(fault) => tell_fault(fault, slot, region),
        _ => {}
    }
}

// Tells the slot and the region that a board's fault is about, where it is about one.
fn tell_fault(fault: BoardFault, slot: &mut usize, region: &mut usize)
    ensures slot { (config : ToldConfig) → slot.new ≡ slot_told config (Bad (SessionFault.Board fault)) slot.old }
    ensures region { region.new ≡ region_told (Bad (SessionFault.Board fault)) region.old }
{
    if let BoardFault::Slot { slot: at, fault } = fault {
        *slot = usize::from(at);
        tell_region(fault, region);
    }
}

// Tells the region that a slot's fault is about, where it is about one.
fn tell_region(fault: SlotFault, region: &mut usize)
    ensures { (number : ℕ) →
        region.new ≡ region_told (Bad (SessionFault.Board (BoardFault.Slot number fault))) region.old }
{
    match fault {
        SlotFault::Memory {
            region: _,
            fault: MemoryFault::NoRegions,
        } => {}
        SlotFault::Memory {
            region: at,
            fault: _,
        } => *region = at,
        _ => {}
    }
}
