//! What a virtqueue is to a device: the calls of a service, whatever its layout.

ghost use Rattle.std.specs.Prelude.{◌≡◌, ℕ, ◌<◌, ◌↔◌, [], true, is_some, IsTrue, IfSome, IfNone, IfOk, IfErr, OnOk, OnErr};
ghost use Rattle.std.specs.Result.{result_err};
ghost use Rattle.guest_memory.specs.Memory.{Memory, SameRange};
ghost use Rattle.chain.specs.Buffers.{Good};
ghost use Rattle.chain.specs.Service.{Entry, Kind};

use crate::buffers::Chain;
use crate::fault::Fault;
use guest_memory::GuestMemory;
use std::alloc::Allocator;

/// What the used entry of a chain says.
#[derive(Clone, Copy)]
pub struct Used {
    /// How many of the first writable bytes were written without a gap.
    pub len: u32,
    /// Whether any byte was written.
    pub wrote: bool,
}

impl Used {
    /// Nothing was written.
    pub const UNWRITTEN: Used = Used {
        len: 0,
        wrote: false,
    };
}

/// A virtqueue of one guest, served by its device. The guest's memory is handed to each call, and the queue's
/// areas lie in it.
///
/// Its meaning is its `kind`: what each call reads, leaves and writes is that of one service of such a ring.
pub trait Virtqueue {
    /// A chain that was taken and not yet given back.
    type Token;

    // what one service of it is
    ghost kind: { Kind Self };

    // its areas lie in the memory
    ghost LiesIn: { Memory → Self → Type 0 };

    // the entry that a taken chain is given back by
    ghost entry_of: { Self.Token → Entry };

    // the token names the chain at the queue's place, and the service may still take it
    ghost IsTaken: { Self → Self.Token → Type 0 };

    // the token names a chain in flight
    ghost IsAhead: { Self → Self.Token → Type 0 };

    // how much a service may still take: chains, or places
    ghost left_of: { Self → ℕ };

    // the queue as it was made: of the same size, areas and features, at its first place
    ghost made_as: { Self → Self };

    /// Opens a service: what may be taken in it is what the driver has made available. After an error nothing is.
    fn open<A: Allocator>(&mut self, mem: &GuestMemory<A>) -> Result<(), Fault>
        requires { LiesIn mem.now self.old }
        ensures jump { result_err result ≡ kind.opening_fault mem.now self.old }
        ensures opened { self.new ≡ kind.opened mem.now self.old }
        ensures lies { LiesIn mem.now self.new }
        ensures made { made_as self.new ≡ made_as self.old };

    /// Takes the next chain: fills `chain` with its buffers, and names it by a token. There is `None` where no
    /// more are on offer: before the first `open`, after an error and after `close` too. The queue's place stays,
    /// so a token that is dropped leaves its chain on offer.
    fn take<A: Allocator>(
        &mut self,
        mem: &GuestMemory<A>,
        chain: &mut Chain,
    ) -> Result<Option<Self::Token>, Fault>
        requires { LiesIn mem.now self.old }
        ensures on_offer { IfOk result (λ taken. kind.offers mem.now self.old ≡ is_some taken) }
        ensures offered { IfOk result (λ taken. IfSome taken (λ token. kind.Offers mem.now self.old chain.new (entry_of token))) }
        ensures taken { IfOk result (λ taken. IfSome taken (IsTaken self.old)) }
        ensures same { OnOk result (self.new ≡ self.old) }

        // A fault is that of the chain on offer, and ends the service.
        ensures met { OnErr result (kind.offers mem.now self.old ≡ true) }
        ensures fault { IfErr result (kind.HasFault mem.now self.old) }
        ensures stopped { OnErr result (self.new ≡ kind.stopped self.old) }

        ensures empty { IfOk result (λ taken. IfNone taken (chain.new ≡ [])) }
        ensures emptied { OnErr result (chain.new ≡ []) }
        ensures good { Good mem.now chain.new }

        ensures lies { LiesIn mem.now self.new }
        ensures made { made_as self.new ≡ made_as self.old };

    /// Gives the chain that was taken last back to the driver as used.
    fn give<A: Allocator>(&mut self, mem: &mut GuestMemory<A>, token: Self::Token, used: Used)
        requires lies { LiesIn mem.old self.old }
        requires taken { IsTaken self.old token }
        ensures used { mem.new ≡ kind.used mem.old self.old (entry_of token) used.len used.wrote }
        ensures past { self.new ≡ kind.past self.old (entry_of token) }
        ensures fewer { left_of self.new < left_of self.old }
        ensures range { SameRange mem.old mem.new }
        ensures lies { LiesIn mem.new self.new }
        ensures made { made_as self.new ≡ made_as self.old };

    /// Leaves the chain that was taken last in flight, and goes on behind it. The driver isn't told of it until `land`
    /// gives it back by its token.
    fn launch(&mut self, token: &Self::Token)
        requires taken { IsTaken self.old token.now }
        ensures launched { self.new ≡ kind.launched self.old (entry_of token.now) }
        ensures ahead { IsAhead self.new token.now }
        ensures fewer { left_of self.new < left_of self.old }
        ensures lies { (m : Memory) → LiesIn m self.old → LiesIn m self.new }
        ensures made { made_as self.new ≡ made_as self.old };

    /// Gives a chain in flight back to the driver as used, whichever it is. The service takes no more chains; `close` ends
    /// it.
    fn land<A: Allocator>(&mut self, mem: &mut GuestMemory<A>, token: Self::Token, used: Used)
        requires lies { LiesIn mem.old self.old }
        requires ahead { IsAhead self.old token }
        ensures used { mem.new ≡ kind.used mem.old self.old (entry_of token) used.len used.wrote }
        ensures landed { self.new ≡ kind.landed self.old (entry_of token) }
        ensures range { SameRange mem.old mem.new }
        ensures lies { LiesIn mem.new self.new }
        ensures made { made_as self.new ≡ made_as self.old };

    /// Closes a service: asks the driver to notify of what it offers next, and answers whether it wants to be
    /// notified of the places passed since the last `open`. Where none was passed, or the queue wasn't opened
    /// since it was closed, it doesn't.
    fn close<A: Allocator>(&mut self, mem: &mut GuestMemory<A>) -> bool
        requires { LiesIn mem.old self.old }
        ensures closed { mem.new ≡ kind.closed mem.old self.old }
        ensures wants { IsTrue result ↔ kind.Wants mem.new self.old }
        ensures shut { self.new ≡ kind.shut self.old }
        ensures range { SameRange mem.old mem.new }
        ensures lies { LiesIn mem.new self.new }
        ensures made { made_as self.new ≡ made_as self.old };
}
