//! What a virtqueue of a racing guest is to a service: the same calls, whatever its layout.

ghost use Rattle.std.specs.Prelude.{◌≡◌, ℕ, ◌<◌, [], is_some, IfSome, IfNone, IfOk, IfErr, OnOk, OnErr};
ghost use Rattle.std.specs.Result.{result_err};
ghost use Rattle.guest_memory.specs.Memory.{Memory, SameRange};
ghost use Rattle.chain.specs.Buffers.{Good};
ghost use Rattle.chain.specs.Service.{Entry};
ghost use Rattle.shared_memory.specs.Sightings.{Loads, memory};
ghost use Rattle.racing_ring.specs.Queue.{RacingKind};

use crate::room::Room;
use chain::{Chain, Fault, Used};
use shared_memory::Shared;

/// A virtqueue of one guest, which may write its memory during each call. The queue's areas lie in that memory.
pub trait RacingQueue {
    /// A chain that was taken and not yet given back.
    type Token: Drop;

    // what each call is
    ghost kind: { RacingKind Self };

    // its areas lie in the memory
    ghost LiesIn: { Memory → Self → Type 0 };

    // the entry that a taken chain is given back by
    ghost entry_of: { Self.Token → Entry };

    // the token names the chain at the queue's place, and the service may still take it
    ghost IsTaken: { Self → Self.Token → Type 0 };

    // the token names a chain in flight
    ghost IsAhead: { Self → Self.Token → Type 0 };

    // how much a round may still take: chains, or places
    ghost left_of: { Self → ℕ };

    /// Opens a round. After an error nothing may be taken in it.
    fn open<M: Shared>(&mut self, mem: &mut M) -> Result<(), Fault>
        requires { LiesIn (memory (M.sightings mem.old)) self.old }
        ensures loads { Loads M.races (M.sightings mem.old) (M.sightings mem.new) }
        ensures fault { result_err result ≡ kind.still.opening_fault (memory (M.sightings mem.new)) self.old }
        ensures opened { self.new ≡ kind.still.opened (memory (M.sightings mem.new)) self.old }
        ensures lies { LiesIn (memory (M.sightings mem.new)) self.new };

    /// Takes the next chain: fills `chain` with its buffers, and names it by a token. There is `None` where no more are
    /// on offer. The queue's place stays, so a token that is dropped leaves its chain on offer.
    fn take<M: Shared>(
        &mut self,
        mem: &mut M,
        chain: &mut Chain,
        room: &mut Room,
    ) -> Result<Option<Self::Token>, Fault>
        requires { LiesIn (memory (M.sightings mem.old)) self.old }
        ensures loads { Loads M.races (M.sightings mem.old) (M.sightings mem.new) }
        ensures told { IfOk result (λ taken. kind.IsTold (M.sightings mem.old) (M.sightings mem.new) self.old (is_some taken)) }
        ensures offered { IfOk result (λ taken. IfSome taken (λ token. kind.IsOffered (M.sightings mem.old) (M.sightings mem.new) self.old chain.new (entry_of token))) }
        ensures taken { IfOk result (λ taken. IfSome taken (IsTaken self.old)) }
        ensures same { OnOk result (self.new ≡ self.old) }

        // A fault is that of the chain on offer, and ends the service.
        ensures faulty { IfErr result (kind.IsFaulty (M.sightings mem.old) (M.sightings mem.new) self.old) }
        ensures stopped { OnErr result (self.new ≡ kind.still.stopped self.old) }
        ensures empty { IfOk result (λ taken. IfNone taken (chain.new ≡ [])) }
        ensures emptied { OnErr result (chain.new ≡ []) }
        ensures good { Good (memory (M.sightings mem.new)) chain.new }
        ensures lies { LiesIn (memory (M.sightings mem.new)) self.new };

    /// Gives the chain that was taken last back to the driver as used.
    fn give<M: Shared>(&mut self, mem: &mut M, token: Self::Token, used: Used)
        requires lies { LiesIn (memory (M.sightings mem.old)) self.old }
        requires taken { IsTaken self.old token }
        ensures given { kind.IsGiven M.races (M.sightings mem.old) (M.sightings mem.new) self.old (entry_of token) used.len used.wrote }
        ensures past { self.new ≡ kind.still.past self.old (entry_of token) }
        ensures fewer { left_of self.new < left_of self.old }
        ensures lies { LiesIn (memory (M.sightings mem.new)) self.new };

    /// Leaves the chain that was taken last in flight, and goes on behind it. The driver isn't told of it until `land`
    /// gives it back by its token.
    fn launch(&mut self, token: &Self::Token)
        requires taken { IsTaken self.old token.now }
        ensures launched { self.new ≡ kind.still.launched self.old (entry_of token.now) }
        ensures ahead { IsAhead self.new token.now }
        ensures lies { (m : Memory) → LiesIn m self.old → LiesIn m self.new };

    /// Gives a chain in flight back to the driver as used, whichever it is. The round takes no more chains; `close` ends it.
    fn land<M: Shared>(&mut self, mem: &mut M, token: Self::Token, used: Used)
        requires lies { LiesIn (memory (M.sightings mem.old)) self.old }
        requires ahead { IsAhead self.old token }
        ensures given { kind.IsGiven M.races (M.sightings mem.old) (M.sightings mem.new) self.old (entry_of token) used.len used.wrote }
        ensures landed { self.new ≡ kind.still.landed self.old (entry_of token) }
        ensures lies { LiesIn (memory (M.sightings mem.new)) self.new };

    /// Closes a round: asks the driver to notify of what it offers next, and then answers whether it wants to be notified
    /// of the places passed since the last `open`.
    fn close<M: Shared>(&mut self, mem: &mut M) -> bool
        requires { LiesIn (memory (M.sightings mem.old)) self.old }
        ensures closed { kind.IsClosed M.races (M.sightings mem.old) (M.sightings mem.new) self.old result }
        ensures shut { self.new ≡ kind.still.shut self.old }
        ensures lies { LiesIn (memory (M.sightings mem.new)) self.new };

    /// Ends a round in which nothing was taken, without another closing write: that of the round before stands.
    fn shut(&mut self)
        ensures shut { self.new ≡ kind.still.shut self.old }
        ensures lies { (m : Memory) → LiesIn m self.old → LiesIn m self.new };

    // in a memory of the same range they lie too
    ghost lies_in_range: { (m n : Memory) (queue : Self) → SameRange m n → LiesIn m queue → LiesIn n queue };
}
