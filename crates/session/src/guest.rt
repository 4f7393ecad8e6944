//! What a session is made of.

ghost use Rattle.std.specs.Prelude.{◌≡◌, ◌↔◌, None, length, map, replicate, take, IsTrue, IfOk};
ghost use Rattle.std.specs.Vec.{vec_items};
ghost use Rattle.board.specs.Lent.{AreBytesOf};
ghost use Rattle.output_queue.specs.Waiting.{none_waiting};
ghost use Rattle.session.specs.Refusing.{AreDevices, AreOutlets, has_bad_device};
ghost use Rattle.session.specs.Session.{slots_of};

use board::{DeviceSpec, MOST_DEVICES, Pause, RegionSpec, SlotSpec};
use output_queue::OutputQueue;
use std::alloc::{AllocError, Allocator};
use std_alloc::vec::Lodged;

/// How many bytes of one guest's output may wait at most.
const MOST_WAITING: u32 = 0x100_0000;

/// What a guest is to have.
#[derive(Clone, Copy, Debug, PartialEq, Eq)]
pub struct GuestSpec {
    /// Its slot of the board. Its `backing` says who has its disk.
    pub slot: SlotSpec,
    /// How many bytes of its console's output may wait to be taken, 2^24 at most. A longer chain is never put
    /// out.
    pub outlet: u32,
    /// Its further devices, numbered from 0 on: those before the first `None`.
    pub devices: [Option<DeviceSpec>; MOST_DEVICES],
}

/// Whether no guest's output is to have more room than it may.
pub(crate) fn are_outlets(guests: &[GuestSpec]) -> bool
    ensures { IsTrue result ↔ AreOutlets guests.now }
{
    guests.iter().all(|guest| guest.outlet <= MOST_WAITING)
}

/// Whether no guest is to have a further device that isn't made.
pub(crate) fn are_devices(guests: &[GuestSpec]) -> bool
    ensures { IsTrue result ↔ AreDevices guests.now }
{
    guests.iter().all(|guest| !has_bad_device(guest))
}

/// Whether a guest is to have a further device that no slot takes: a network card whose MTU is too low, or a disk that the host
/// serves and that is too large or has no depth from 1 to 64.
pub fn has_bad_device(guest: &GuestSpec) -> bool
    ensures { result ≡ has_bad_device guest.now }
{
    for device in &guest.devices {
        let Some(spec) = device else {
            return false;
        };
        if spec.has_bad_mtu() || spec.has_bad_disk() {
            return true;
        }
    }
    false
}

/// Whether there are bytes for each region of the guests, in their order and as many as it has.
pub(crate) fn are_bytes_of(guests: &[GuestSpec], bytes: &[Vec<u8, Lodged>]) -> bool
    ensures { IsTrue result ↔ AreBytesOf (slots_of guests.now) (map vec_items bytes.now) }
{
    let mut next = 0;
    for guest in guests {
        let regions = guest.slot.regions.as_slice();
        if !begin_as_long(regions, &bytes[next..]) {
            return false;
        }
        next += regions.len();
    }
    next == bytes.len()
}

// Whether the first runs have as many bytes as these regions.
fn begin_as_long(regions: &[RegionSpec], bytes: &[Vec<u8, Lodged>]) -> bool
    ensures { IsTrue result ↔ (map (λ run. length run) (map vec_items (take (length regions.now) bytes.now))
        ≡ map (λ region. region.len) regions.now) }
{
    if bytes.len() < regions.len() {
        return false;
    }
    for place in 0..regions.len() {
        if bytes[place].len() as u64 != regions[place].len {
            return false;
        }
    }
    true
}

/// The guests' slots of the board.
pub(crate) fn slots<A: Allocator + Copy>(
    alloc: A,
    guests: &[GuestSpec],
) -> Result<Vec<SlotSpec, A>, AllocError>
    ensures { IfOk result (λ slots. slots.items ≡ slots_of guests.now) }
{
    guests.iter().map(|guest| guest.slot).collect(alloc)
}

/// Room for each guest's output, in which nothing waits.
pub(crate) fn outputs<A: Allocator + Copy>(
    alloc: A,
    guests: &[GuestSpec],
) -> Result<Vec<OutputQueue<A>, A>, AllocError>
    ensures { IfOk result (λ outputs.
        outputs.items ≡ map (λ guest. none_waiting guest.outlet) guests.now) }
{
    let mut outputs = Vec::with_capacity(alloc, guests.len())?;
    for guest in guests {
        outputs.push(OutputQueue::new(alloc, guest.outlet)?)?;
    }
    Ok(outputs)
}

/// For each guest that nothing of its slot is paused.
pub(crate) fn none_paused<A: Allocator>(
    alloc: A,
    guests: &[GuestSpec],
) -> Result<Vec<Option<Pause>, A>, AllocError>
    ensures { IfOk result (λ paused. paused.items ≡ replicate (length guests.now) None) }
{
    let mut paused = Vec::with_capacity(alloc, guests.len())?;
    for _ in 0..guests.len() {
        paused.push(None)?;
    }
    Ok(paused)
}
