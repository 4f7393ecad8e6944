//! One service of a queue of a window, and what the window shows of it.

ghost use Rattle.std.specs.Prelude.{◌≡◌, IfOk, IfErr, IfSome, OnErr};
ghost use Rattle.chain.specs.Buffers.{Good};
ghost use Rattle.mmio_window.specs.FaultNote.{fault_in};
ghost use Rattle.mmio_window.specs.Queue.{IsTaken};
ghost use Rattle.mmio_window.specs.Soundness.{IsSound};
ghost use Rattle.mmio_window.specs.Window.{queue_at};
ghost use Rattle.guest_memory.specs.Memory.{SameRange};
ghost use Rattle.shared_memory.specs.Sightings.{memory};
ghost use Rattle.racing_window.specs.Serving.{IsLeft, Notified, fault_of, met_at, met_with};

use crate::ring::RacingRing;
use chain::{Chain, Fault, Progress};
use chain_handler::ChainHandler;
use mmio_window::{Left, Queue, QueueFault, Token, Window, show};
use racing_ring::Room;
use racing_service::{Ending, Limits, Outcome, Refused, Stage, serve};
use shared_memory::Shared;

/// Serves the queue of this number once, if the window is live and the queue ready, and has the window show what came of it: a
/// used buffer where the driver wants to be told of one, and after a fault that a reset is needed. Where the device leaves a
/// chain on offer, `chain` has its buffers, the queue stands open at it, and the window shows nothing.
pub fn serve_queue<B, D: ChainHandler<B>, M: Shared>(
    window: &mut Window,
    q: u16,
    device: &mut D,
    backend: &mut B,
    mem: &mut M,
    limits: Limits,
    chain: &mut Chain,
    room: &mut Room,
) -> Result<Progress, Refused<Token, D::Refusal>>
    requires sound { IsSound (memory (M.sightings mem.old)) window.old }
    requires ready { D.IsReady device.old backend.old }
    ensures served { IfOk result (λ progress. Notified (D.device (D.setup device.old backend.old)) M.races limits.rounds q
        limits.budget (queue_at q window.old) progress (M.sightings mem.old) (M.sightings mem.new) window.old window.new
        (D.state device.old backend.old) (D.state device.new backend.new)) }
    ensures left { IfErr result (λ refused. IsLeft (D.device (D.setup device.old backend.old))
        (D.Refuses (D.setup device.old backend.old) backend.new) M.races limits.rounds q
        limits.budget (queue_at q window.old) chain.new refused (M.sightings mem.old) (M.sightings mem.new) window.old window.new
        (D.state device.old backend.old) (D.state device.new backend.new)) }
    ensures taken { IfErr result (λ refused. IfSome (queue_at q window.new) (λ queue. IsTaken queue refused.token)) }
    ensures good { OnErr result (Good (memory (M.sightings mem.new)) chain.new) }
    ensures setup { D.setup device.new backend.new ≡ D.setup device.old backend.old }
    ensures ready { D.IsReady device.new backend.new }
    ensures range { SameRange (memory (M.sightings mem.old)) (memory (M.sightings mem.new)) }
    ensures sound { IsSound (memory (M.sightings mem.new)) window.new }
{
    let Some(queue) = window.queue(q) else {
        return Ok(Progress::Done);
    };
    let mut ring = RacingRing::of(queue);
    let served = serve(
        device,
        backend,
        mem,
        &mut ring,
        Stage::First,
        limits,
        chain,
        room,
    );
    *queue = ring.queue();
    let Outcome { ending, wanted, .. } = served?;
    let fault = met_with(queue, ending);
    show(window, q, Left::Closed { fault, wanted }, chain);
    Ok(ending.progress())
}

/// The fault of an ending, if it has one, and where in its queue that is: what a window notes of it. The queue is closed.
pub fn met_with(queue: &Queue, ending: Ending) -> Option<QueueFault>
    ensures value { result ≡ met_with queue.now ending }
    ensures fault { fault_in result ≡ fault_of ending }
{
    match ending {
        Ending::Faulted(fault) => Some(met(queue, fault)),
        Ending::Settled | Ending::More => None,
    }
}

/// A fault of the chain on offer, and where that is. The head of a split ring's chain isn't read again: it may be another one
/// by now.
#[cold]
fn met(queue: &Queue, fault: Fault) -> QueueFault
    ensures { result ≡ met_at queue.now fault }
{
    QueueFault {
        fault,
        place: queue.next_taken(),
        head: match queue {
            Queue::Split(_) => None,
            Queue::Packed(ring) => Some(ring.position()),
        },
    }
}
