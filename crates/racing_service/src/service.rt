//! One service of a queue: rounds of opening, chains and closing, until a look behind the closing writes finds nothing new.

ghost use Rattle.std.specs.Prelude.{◌≡◌, ◌↔◌, IsTrue, if◌then◌else◌, IfOk, IfErr, OnErr};
ghost use Rattle.chain.specs.Buffers.{Good};
ghost use Rattle.shared_memory.specs.Sightings.{memory};
ghost use Rattle.racing_service.specs.Service.{IsRacingService, IsRefusedService, RunsAs, RunsUpTo, ServesAs, ServesUpTo, ending_of, progress_of, standing_at};

use crate::stage::Stage;
use chain::{Budget, Chain, Fault, Progress};
use chain_handler::ChainHandler;
use racing_ring::{RacingQueue, Room};
use shared_memory::Shared;

/// How much one service may do, so that a driver which offers chains without end can't hold its device for ever.
#[derive(Clone, Copy)]
pub struct Limits {
    /// What its chains may cost, in all rounds.
    pub budget: Budget,
    /// How many rounds it may have, where the look that settles it counts as one.
    pub rounds: u32,
}

/// Why a service ends.
#[derive(Clone, Copy)]
pub enum Ending {
    /// Behind the closing writes nothing new was on offer.
    Settled,
    /// A chain on offer, or an opening, has this fault.
    Faulted(Fault),
    /// A limit was met. More may be on offer, of which the driver doesn't notify again: the caller serves the queue once more.
    More,
}

impl Ending {
    /// Whether the queue is to be served once more, though its driver doesn't notify again.
    pub fn progress(self) -> Progress
        ensures { result ≡ progress_of self }
    {
        match self {
            Ending::More => Progress::More,
            Ending::Settled | Ending::Faulted(_) => Progress::Done,
        }
    }
}

/// What a service comes to.
#[derive(Clone, Copy)]
pub struct Outcome {
    /// Why it ended.
    pub ending: Ending,
    /// Whether the driver wants a notification.
    pub wanted: bool,
    /// What is left of the budget.
    pub left: Budget,
}

/// Why a round serves no more chains.
#[derive(Clone, Copy)]
pub(crate) enum Stop {
    /// No chain was on offer, or the device takes none: none was served.
    Idle,
    /// The same, once some were served.
    Dry,
    /// The budget is spent, and a chain is on offer.
    Paused,
    /// The chain on offer, or the opening, has this fault.
    Broken(Fault),
}

/// A chain that its device left on offer.
#[derive(Drop)]
struct Held<T, E> {
    token: T,
    why: E,
}

/// A service whose device left a chain on offer. The queue stands open at it. The caller may launch the chain or give it back,
/// and serve the queue from `Stage::Next` on. Else it closes the queue.
#[derive(Drop)]
pub struct Refused<T, E> {
    /// The chain.
    pub token: T,
    /// Why it is left.
    pub why: E,
    /// Whether the driver wants a notification of the rounds before.
    pub wanted: bool,
    /// What is left of the budget.
    pub left: Budget,
}

/// Serves a queue from this stage on, until a look behind its closing writes finds nothing new, a fault ends the service, a limit
/// is met, or the device leaves a chain on offer: then `chain` has its buffers.
pub fn serve<B, D: ChainHandler<B>, Q: RacingQueue, M: Shared>(
    device: &mut D,
    backend: &mut B,
    mem: &mut M,
    queue: &mut Q,
    stage: Stage,
    limits: Limits,
    chain: &mut Chain,
    room: &mut Room,
) -> Result<Outcome, Refused<Q::Token, D::Refusal>>
    requires queue { Q.LiesIn (memory (M.sightings mem.old)) queue.old }
    requires ready { D.IsReady device.old backend.old }
    ensures service { IfOk result (λ outcome. IsRacingService Q.kind (D.device (D.setup device.old backend.old)) M.races stage limits.rounds
        (standing_at (M.sightings mem.old) queue.old (D.state device.old backend.old) limits.budget)
        (standing_at (M.sightings mem.new) queue.new (D.state device.new backend.new) outcome.left)
        outcome.ending outcome.wanted) }
    ensures refuses { IfErr result (λ refused. IsRefusedService Q.kind (D.device (D.setup device.old backend.old)) M.races
        (D.Refuses (D.setup device.old backend.old) backend.new) stage limits.rounds
        (standing_at (M.sightings mem.old) queue.old (D.state device.old backend.old) limits.budget)
        (standing_at (M.sightings mem.new) queue.new (D.state device.new backend.new) refused.left)
        chain.new (Q.entry_of refused.token) refused.why refused.wanted) }
    ensures taken { IfErr result (λ refused. Q.IsTaken queue.new refused.token) }
    ensures good { OnErr result (Good (memory (M.sightings mem.new)) chain.new) }
    ensures setup { D.setup device.new backend.new ≡ D.setup device.old backend.old }
    ensures ready { D.IsReady device.new backend.new }
    ensures lies { Q.LiesIn (memory (M.sightings mem.new)) queue.new }
{
    let mut left = limits.budget;
    let mut wanted = false;
    let mut here = stage;
    for _ in 0..limits.rounds {
        let stop = match run(device, backend, mem, queue, here, &mut left, chain, room) {
            Ok(stop) => stop,
            Err(Held { token, why }) => {
                return Err(Refused {
                    token,
                    why,
                    wanted,
                    left,
                });
            }
        };
        if here.is_again() && is_idle(stop) {
            queue.shut();
            return Ok(Outcome {
                ending: Ending::Settled,
                wanted,
                left,
            });
        }
        wanted |= queue.close(mem);
        if let Some(ending) = ending_of(stop) {
            return Ok(Outcome {
                ending,
                wanted,
                left,
            });
        }
        here = Stage::Again;
    }
    Ok(Outcome {
        ending: Ending::More,
        wanted,
        left,
    })
}

/// Whether a round served no chain, and found none on offer.
fn is_idle(stop: Stop) -> bool
    ensures { IsTrue result ↔ (stop ≡ Stop.Idle) }
{
    matches!(stop, Stop::Idle)
}

/// Why a service ends with a round, if it does.
fn ending_of(stop: Stop) -> Option<Ending>
    ensures { result ≡ ending_of stop }
{
    match stop {
        Stop::Idle | Stop::Dry => None,
        Stop::Paused => Some(Ending::More),
        Stop::Broken(fault) => Some(Ending::Faulted(fault)),
    }
}

/// A round up to its closing: opens the queue, unless it stands open, and serves chains.
fn run<B, D: ChainHandler<B>, Q: RacingQueue, M: Shared>(
    device: &mut D,
    backend: &mut B,
    mem: &mut M,
    queue: &mut Q,
    stage: Stage,
    left: &mut Budget,
    chain: &mut Chain,
    room: &mut Room,
) -> Result<Stop, Held<Q::Token, D::Refusal>>
    requires queue { Q.LiesIn (memory (M.sightings mem.old)) queue.old }
    requires ready { D.IsReady device.old backend.old }
    ensures runs { IfOk result (λ stop. RunsAs Q.kind (D.device (D.setup device.old backend.old)) M.races stage stop
        (standing_at (M.sightings mem.old) queue.old (D.state device.old backend.old) left.old)
        (standing_at (M.sightings mem.new) queue.new (D.state device.new backend.new) left.new)) }
    ensures leaves { IfErr result (λ held. RunsUpTo Q.kind (D.device (D.setup device.old backend.old)) M.races
        (D.Refuses (D.setup device.old backend.old) backend.new) stage chain.new (Q.entry_of held.token) held.why
        (standing_at (M.sightings mem.old) queue.old (D.state device.old backend.old) left.old)
        (standing_at (M.sightings mem.new) queue.new (D.state device.new backend.new) left.new)) }
    ensures taken { IfErr result (λ held. Q.IsTaken queue.new held.token) }
    ensures good { OnErr result (Good (memory (M.sightings mem.new)) chain.new) }
    ensures setup { D.setup device.new backend.new ≡ D.setup device.old backend.old }
    ensures ready { D.IsReady device.new backend.new }
    ensures lies { Q.LiesIn (memory (M.sightings mem.new)) queue.new }
{
    match stage.open(queue, mem) {
        Ok(()) => serve_chains(device, backend, mem, queue, left, chain, room),
        Err(fault) => Ok(Stop::Broken(fault)),
    }
}

/// Serves chains until none is on offer or wanted, one has a fault, or the budget is spent.
fn serve_chains<B, D: ChainHandler<B>, Q: RacingQueue, M: Shared>(
    device: &mut D,
    backend: &mut B,
    mem: &mut M,
    queue: &mut Q,
    left: &mut Budget,
    chain: &mut Chain,
    room: &mut Room,
) -> Result<Stop, Held<Q::Token, D::Refusal>>
    requires queue { Q.LiesIn (memory (M.sightings mem.old)) queue.old }
    requires ready { D.IsReady device.old backend.old }
    ensures serves { IfOk result (λ stop. ServesAs Q.kind (D.device (D.setup device.old backend.old)) M.races stop
        (standing_at (M.sightings mem.old) queue.old (D.state device.old backend.old) left.old)
        (standing_at (M.sightings mem.new) queue.new (D.state device.new backend.new) left.new)) }
    ensures leaves { IfErr result (λ held. ServesUpTo Q.kind (D.device (D.setup device.old backend.old)) M.races
        (D.Refuses (D.setup device.old backend.old) backend.new) chain.new (Q.entry_of held.token) held.why
        (standing_at (M.sightings mem.old) queue.old (D.state device.old backend.old) left.old)
        (standing_at (M.sightings mem.new) queue.new (D.state device.new backend.new) left.new)) }
    ensures taken { IfErr result (λ held. Q.IsTaken queue.new held.token) }
    ensures good { OnErr result (Good (memory (M.sightings mem.new)) chain.new) }
    ensures setup { D.setup device.new backend.new ≡ D.setup device.old backend.old }
    ensures ready { D.IsReady device.new backend.new }
    ensures lies { Q.LiesIn (memory (M.sightings mem.new)) queue.new }
{
    let mut some = false;
    while device.takes(backend) {
        match queue.take(mem, chain, room) {
            Ok(Some(token)) => {
                if left.is_spent() {
                    return Ok(Stop::Paused);
                }
                left.spend(chain);
                match device.serve(mem, chain, backend) {
                    Ok(used) => queue.give(mem, token, used),
                    Err(why) => return Err(Held { token, why }),
                }
                some = true;
            }
            Ok(None) => return Ok(run_out(some)),
            Err(fault) => return Ok(Stop::Broken(fault)),
        }
    }
    Ok(run_out(some))
}

/// Why a round stops where no chain is on offer, by whether it served some.
fn run_out(some: bool) -> Stop
    ensures { result ≡ (if some then Stop.Dry else Stop.Idle) }
{
    if some { Stop::Dry } else { Stop::Idle }
}
