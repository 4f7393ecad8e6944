//! The disk's looks at the queue of its window, and what the window shows of them.

ghost use Rattle.std.specs.Prelude.{◌≡◌, IfNone, IfSome, is_some};
ghost use Rattle.guest_memory.specs.Memory.{Memory, SameRange};
ghost use Rattle.block_device.specs.Hosting.{wants_stable};
ghost use Rattle.mmio_window.specs.FaultNote.{fault_in};
ghost use Rattle.mmio_window.specs.Serving.{after_service, ending_of};
ghost use Rattle.mmio_window.specs.Soundness.{IsSound};
ghost use Rattle.mmio_window.specs.Window.{queue_at};
ghost use Rattle.shared_memory.specs.Sightings.{memory};
ghost use Rattle.racing_hosted_disk.specs.Looking.{progress_of};
ghost use Rattle.racing_hosted_disk.specs.Told.{has_effect};
ghost use Rattle.racing_guest.specs.Block.{IsSoundBlock, IsToldBy, NotifiesBlock, fault_met, queue_fault_met, reset_by};

use block_device::{HostEvent, REQUESTQ};
use chain::{Chain, Progress};
use mmio_window::{Left, Queue, QueueFault, Token, Window, show};
use negotiation::{Features, Flags};
use racing_hosted_disk::{LookEnding, LookLimits, RacingHostedDisk, Served};
use racing_ring::Room;
use racing_window::{RacingRing, met_with};
use shared_memory::Shared;
use std::alloc::Allocator;

/// Looks at the queue, where the window is live and the queue ready.
#[inline(always)]
pub(super) fn look<M: Shared, A: Allocator>(
    window: &mut Window,
    disk: &mut RacingHostedDisk<Token, A>,
    mem: &mut M,
    limits: LookLimits,
    chain: &mut Chain,
    room: &mut Room,
) -> Progress
    requires sound { IsSoundBlock (memory (M.sightings mem.old)) (record { window = window.old; disk = disk.old }) }
    ensures serves { NotifiesBlock M.races limits (queue_at 0 window.old) (M.sightings mem.old) (M.sightings mem.new)
        (record { window = window.old; disk = disk.old }) (record { window = window.new; disk = disk.new }) result }
    ensures range { SameRange (memory (M.sightings mem.old)) (memory (M.sightings mem.new)) }
    ensures sound { IsSoundBlock (memory (M.sightings mem.new)) (record { window = window.new; disk = disk.new }) }
{
    let stable = wants_stable(window);
    let Some(queue) = window.queue(REQUESTQ) else {
        return Progress::Done;
    };
    let mut ring = RacingRing::of(queue);
    let served = disk.serve(mem, &mut ring, limits, stable, chain, room);
    *queue = ring.queue();
    let fault = fault_met(queue, served.ending);
    show_looks(window, fault, served, chain)
}

/// Does what the host says, with the queue where the window is live and the queue ready.
pub(super) fn told<M: Shared, A: Allocator>(
    window: &mut Window,
    disk: &mut RacingHostedDisk<Token, A>,
    said: HostEvent,
    mem: &mut M,
    limits: LookLimits,
    chain: &mut Chain,
    room: &mut Room,
) -> Option<Progress>
    requires sound { IsSoundBlock (memory (M.sightings mem.old)) (record { window = window.old; disk = disk.old }) }
    ensures found { is_some result ≡ has_effect said disk.old }
    ensures does { IfSome result (IsToldBy said M.races limits (queue_at 0 window.old) (M.sightings mem.old)
        (M.sightings mem.new) (record { window = window.old; disk = disk.old })
        (record { window = window.new; disk = disk.new })) }
    ensures kept { IfNone result (disk.new ≡ disk.old) }
    ensures untouched { IfNone result (window.new ≡ window.old) }
    ensures unwritten { IfNone result (M.sightings mem.new ≡ M.sightings mem.old) }
    ensures range { SameRange (memory (M.sightings mem.old)) (memory (M.sightings mem.new)) }
    ensures sound { IsSoundBlock (memory (M.sightings mem.new)) (record { window = window.new; disk = disk.new }) }
{
    let stable = wants_stable(window);
    let Some(queue) = window.queue(REQUESTQ) else {
        if !disk.tell_unserved(said) {
            return None;
        }
        show_drop(window, said);
        return Some(Progress::Done);
    };
    let mut ring = RacingRing::of(queue);
    let served = disk.tell(said, mem, &mut ring, limits, stable, chain, room)?;
    *queue = ring.queue();
    let fault = fault_met(queue, served.ending);
    let progress = show_looks(window, fault, served, chain);
    show_drop(window, said);
    Some(progress)
}

// Whether the driver can't flush (5.2.6.2).
fn wants_stable(window: &Window) -> bool
    ensures { result ≡ wants_stable window.now }
{
    let negotiated = window.negotiation().negotiated();
    !negotiated.contains(Features::BLOCK_FLUSH)
}

// The fault that looks met, if they met one, and where in the queue that is.
fn fault_met(queue: &Queue, ending: LookEnding) -> Option<QueueFault>
    ensures place { result ≡ queue_fault_met queue.now ending }
    ensures fault { fault_in result ≡ fault_met ending }
{
    match ending {
        LookEnding::Served(ending) => met_with(queue, ending),
        LookEnding::Full | LookEnding::Limited | LookEnding::Idle => None,
    }
}

// What the window shows of looks that met this fault, if they met one.
fn show_looks(
    window: &mut Window,
    fault: Option<QueueFault>,
    served: Served,
    chain: &mut Chain,
) -> Progress
    ensures progress { result ≡ progress_of served.ending }
    ensures after { window.new ≡ after_service (ending_of (fault_in fault)) served.wanted window.old }
    ensures sound { (m : Memory) → IsSound m window.old → IsSound m window.new }
{
    let wanted = served.wanted;
    let _ = show(window, REQUESTQ, Left::Closed { fault, wanted }, chain);
    served.ending.progress()
}

// After a drop the window asks to be reset (2.1.2).
fn show_drop(window: &mut Window, said: HostEvent)
    ensures after { window.new ≡ reset_by said window.old }
    ensures sound { (m : Memory) → IsSound m window.old → IsSound m window.new }
{
    if matches!(said, HostEvent::Drop) {
        window.needs_reset();
    }
}
