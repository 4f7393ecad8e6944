//! A piece of a service of a queue, of any device: opening, chains one after another, closing, and what the window
//! shows of it.

ghost use Rattle.std.specs.Prelude.{◌≡◌, ◌↔◌, ◌||◌, IfOk, IfErr, IsTrue, is_some};
ghost use Rattle.chain.specs.Budget.{IsSpent, less_chain};
ghost use Rattle.guest_memory.specs.Memory.{Memory, SameRange};
ghost use Rattle.mmio_window.specs.FaultNote.{met_with};
ghost use Rattle.mmio_window.specs.Leaving.{IsKept, IsLeftAt, LeavesQueue, QueueStays, RefusesAt, Stops, TellsWhere, progress_of, shown, site_at};
ghost use Rattle.mmio_window.specs.Queue.{LiesIn, made_as};
ghost use Rattle.mmio_window.specs.Soundness.{IsSound};

use crate::fault_note::{FaultNote, QueueFault};
use crate::queue::{Queue, Token};
use crate::queue_handler::QueueHandler;
use crate::stage::Stage;
use crate::window::Window;
use chain::{Budget, Chain, Fault, Progress, Virtqueue};
use guest_memory::GuestMemory;
use std::alloc::Allocator;

/// Why no more chains are served.
#[derive(Clone, Copy)]
pub(crate) enum Stop {
    /// The budget is spent, and a chain is on offer.
    Pause,
    /// The service ends, by this fault if there is one.
    End(Option<Fault>),
}

/// How a queue is left.
#[derive(Clone, Copy)]
pub enum Left {
    /// Its service pauses.
    Open,
    /// Its service has ended.
    Closed {
        /// The fault that ended it, if one did, and where it was met.
        fault: Option<QueueFault>,
        /// Whether the driver wants a notification.
        wanted: bool,
    },
}

/// A chain that its device left on offer. Its queue stands open.
#[derive(Drop)]
pub struct Refused<E> {
    pub token: Token,
    /// Why it is left.
    pub why: E,
    /// What is left of the budget behind it.
    pub left: Budget,
}

/// Serves a piece of a service: its first one opens the queue, and its end closes it. Where the device leaves a chain on
/// offer, `chain` has its buffers.
pub fn serve_queue<B, D: QueueHandler<B>, M: Allocator>(
    device: &mut D,
    backend: &mut B,
    mem: &mut GuestMemory<M>,
    queue: &mut Queue,
    stage: Stage,
    budget: Budget,
    chain: &mut Chain,
) -> Result<Left, Refused<D::Refusal>>
    requires queue { LiesIn mem.old queue.old }
    requires ready { D.IsReady device.old backend.old }
    ensures leaves { IfOk result (LeavesQueue (D.device (D.setup device.old backend.old)) stage budget
        (site_at mem.old queue.old (D.state device.old backend.old)) (site_at mem.new queue.new (D.state device.new backend.new))) }
    ensures refuses { IfErr result (RefusesAt (D.device (D.setup device.old backend.old))
        (D.Refuses (D.setup device.old backend.old) backend.new) stage budget
        (site_at mem.old queue.old (D.state device.old backend.old))
        (site_at mem.new queue.new (D.state device.new backend.new)) chain.new) }
    ensures tells { IfOk result (TellsWhere (D.device (D.setup device.old backend.old)) stage
        (site_at mem.old queue.old (D.state device.old backend.old)) (site_at mem.new queue.new (D.state device.new backend.new))) }
    ensures setup { D.setup device.new backend.new ≡ D.setup device.old backend.old }
    ensures keeps { IsKept D.Keeps device.old backend.old device.new backend.new }
    ensures ready { D.IsReady device.new backend.new }
    ensures range { SameRange mem.old mem.new }
    ensures lies { LiesIn mem.new queue.new }
    ensures made { made_as queue.new ≡ made_as queue.old }
{
    if let Err(fault) = stage.open(queue, mem) {
        return Ok(Left::Closed {
            fault: Some(queue.met(mem, fault)),
            wanted: queue.close(mem),
        });
    }
    match serve_chains(device, backend, mem, queue, budget, chain)? {
        Stop::Pause => Ok(Left::Open),
        Stop::End(fault) => Ok(Left::Closed {
            fault: met_with(mem, queue, fault),
            wanted: queue.close(mem),
        }),
    }
}

/// The fault of a service, if it has one, and where in its queue that is.
#[inline(always)]
fn met_with<M: Allocator>(
    mem: &GuestMemory<M>,
    queue: &Queue,
    fault: Option<Fault>,
) -> Option<QueueFault>
    requires { LiesIn mem.now queue.now }
    ensures { result ≡ met_with mem.now queue.now fault }
{
    match fault {
        Some(fault) => Some(queue.met(mem, fault)),
        None => None,
    }
}

/// Serves chains until none is on offer or wanted, one has a fault, one is left on offer, or the budget is spent.
fn serve_chains<B, D: QueueHandler<B>, M: Allocator>(
    device: &mut D,
    backend: &mut B,
    mem: &mut GuestMemory<M>,
    queue: &mut Queue,
    budget: Budget,
    chain: &mut Chain,
) -> Result<Stop, Refused<D::Refusal>>
    requires queue { LiesIn mem.old queue.old }
    requires ready { D.IsReady device.old backend.old }
    ensures stops { IfOk result (Stops (D.device (D.setup device.old backend.old)) budget
        (site_at mem.old queue.old (D.state device.old backend.old)) (site_at mem.new queue.new (D.state device.new backend.new))) }
    ensures refuses { IfErr result (IsLeftAt (D.device (D.setup device.old backend.old))
        (D.Refuses (D.setup device.old backend.old) backend.new) budget
        (site_at mem.old queue.old (D.state device.old backend.old))
        (site_at mem.new queue.new (D.state device.new backend.new)) chain.new) }
    ensures setup { D.setup device.new backend.new ≡ D.setup device.old backend.old }
    ensures keeps { IsKept D.Keeps device.old backend.old device.new backend.new }
    ensures ready { D.IsReady device.new backend.new }
    ensures stays { QueueStays mem.old mem.new queue.old queue.new }
{
    let mut left = budget;
    while device.takes(backend) {
        match queue.take(mem, chain) {
            Ok(Some(token)) => {
                if is_spent(&left) {
                    return Ok(Stop::Pause);
                }
                spend(&mut left, chain);
                match device.serve(mem, chain, backend) {
                    Ok(used) => {
                        queue.give(mem, token, used);
                        chain.count(used.len);
                    }
                    Err(why) => return Err(Refused { token, why, left }),
                }
            }
            Ok(None) => return Ok(Stop::End(None)),
            Err(fault) => return Ok(Stop::End(Some(fault))),
        }
    }
    Ok(Stop::End(None))
}

/// Whether nothing is left of a budget. One without limits is known by one test.
#[inline(always)]
fn is_spent(left: &Budget) -> bool
    ensures { IsTrue result ↔ IsSpent left.now }
{
    has_limit(left) && left.is_spent()
}

/// Takes off what one chain costs.
#[inline(always)]
fn spend(left: &mut Budget, chain: &Chain)
    ensures { left.new ≡ less_chain left.old chain.now }
{
    if has_limit(left) {
        left.spend(chain);
    }
}

/// Whether a service may pause at all.
#[inline(always)]
fn has_limit(budget: &Budget) -> bool
    ensures { result ≡ (is_some budget.now.chains || is_some budget.now.bytes) }
{
    budget.chains.is_some() | budget.bytes.is_some()
}

/// What the window shows of the queue of this number that is left so: nothing of one that stands open; else a used buffer
/// where the driver wants to be told of one, and after a fault that a reset is needed. The window notes the fault. Pauses
/// and faults are counted in `room`.
pub fn show(window: &mut Window, queue: u16, left: Left, room: &mut Chain) -> Progress
    ensures progress { result ≡ progress_of left }
    ensures after { window.new ≡ shown left window.old }
    ensures room { room.new ≡ room.old }
    ensures sound { (m : Memory) → IsSound m window.old → IsSound m window.new }
{
    let Left::Closed { fault, wanted } = left else {
        room.count_pause();
        return Progress::More;
    };
    if wanted {
        window.used_interrupt();
    }
    if let Some(met) = fault {
        window.needs_reset();
        window.note(FaultNote::of(queue, met));
        room.count_fault();
    }
    Progress::Done
}
