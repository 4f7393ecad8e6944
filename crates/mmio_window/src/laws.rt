//! Laws of the definitions. The bodies are empty: each contract is a theorem.

ghost use Rattle.std.specs.Prelude.{◌≡◌, ℕ, ◌<◌, List, Option, None, Some, get_or, length, set};
ghost use Rattle.chain.specs.Service.{Decides, Entry, HasAtMostOneAnswer, HasAtMostOneChain, HasSomeChain};
ghost use Rattle.mmio_window.specs.declared.queue.Queue.{Queue};
ghost use Rattle.mmio_window.specs.declared.queue.Token.{Token};
ghost use Rattle.mmio_window.specs.Notifying.{NextPlaceIsIgnored, NotificationKeepsRegisters};
ghost use Rattle.mmio_window.specs.Queue.{AreAhead, AreAll, IsAhead, IsTaken, ahead_of, entry_of, queue_kind};
ghost use Rattle.mmio_window.specs.Pieces.{HasOnePiece};
ghost use Rattle.mmio_window.specs.Ready.{GenerationStays, ReadyQueueOutlasts, ReadyQueueStays};
ghost use Rattle.mmio_window.specs.Soundness.{ReadyQueueIsItsRing, ServingKeepsSound, SoundForTheRange};

use crate::queue_handler::QueueHandler;

/// A sound window stays sound while its device serves a queue of it, for memories of one range.
pub fn serving_keeps_sound()
    ensures { ServingKeepsSound }
{}

/// A sound window is sound for every memory of the same range: also once a guest's bytes were changed between
/// two calls.
pub fn sound_for_the_range()
    ensures { SoundForTheRange }
{}

/// The ready queue of a sound window is the ring that its registers and the negotiated features make, but for
/// how far it is served, and lies in the memory.
pub fn ready_queue_is_its_ring()
    ensures { ReadyQueueIsItsRing }
{}

/// No write changes the size, an address or the ring of a ready queue: it stays, or it isn't ready any more.
pub fn ready_queue_stays()
    ensures { ReadyQueueStays }
{}

/// A ready queue outlasts every write but those to Status and QueueReady, and so does what its device has taken from it:
/// registers and ring stay, a queue that the device may serve stays one, and no other becomes one.
pub fn ready_queue_outlasts()
    ensures { ReadyQueueOutlasts }
{}

/// No write changes ConfigGeneration, a reset neither.
pub fn generation_stays()
    ensures { GenerationStays }
{}

/// A ready queue has one chain or one fault at each place: at most one chain, at most one fault, not both, and
/// one of the two.
pub fn one_chain_or_fault_at_a_place()
    ensures at_most_one { HasAtMostOneChain queue_kind }
    ensures some { HasSomeChain queue_kind }
{}

/// A piece of a service comes to one thing, whatever its budget, of every handler's device that has at most one answer to a
/// chain and that decides which it leaves on offer: it pauses, ends, or is refused, and leaves the same memory, window and
/// state.
pub fn a_piece_has_one_outcome<B, D: QueueHandler<B>>()
    ensures { (setup : D.Setup) → HasAtMostOneAnswer (D.device setup) → Decides (D.device setup) → HasOnePiece (D.device setup) }
{}

/// In a window that negotiated NOTIFICATION_DATA a driver's next place changes nothing: two writes to QueueNotify
/// that name one queue ask the same of the device, and no such write changes a register.
pub fn next_place_is_ignored()
    ensures same { NextPlaceIsIgnored }
    ensures keeps { NotificationKeepsRegisters }
{}

/// Chains in flight, each with a tag of its own, lie between the next used entry and the next chain, and each of them
/// may land (`each`). It stays so as one is given a free tag (`launched`), as one of them lands, whichever it is
/// (`landed`), and as a chain is served at once meanwhile (`served`). Where no others are in flight, the next chain is
/// exactly as many places ahead as they have (`all_launched`, `all_landed`, `none_served`).
pub fn what_is_in_flight_is_ahead()
    ensures launched { (queue : Queue) (tags : List (Option Token)) (tag : ℕ) (token : Token) → tag < length tags
        → AreAhead queue tags → get_or tags tag None ≡ None → IsTaken queue token
        → AreAhead (queue_kind.launched queue (entry_of token)) (set tags tag (Some token)) }
    ensures each { (queue : Queue) (tags : List (Option Token)) (tag : ℕ) (token : Token) → tag < length tags
        → AreAhead queue tags → get_or tags tag None ≡ Some token → IsAhead queue token }
    ensures landed { (queue : Queue) (tags : List (Option Token)) (tag : ℕ) (token : Token) → tag < length tags
        → AreAhead queue tags → get_or tags tag None ≡ Some token
        → AreAhead (queue_kind.landed queue (entry_of token)) (set tags tag None) }
    ensures served { (queue : Queue) (tags : List (Option Token)) (entry : Entry) → AreAhead queue tags
        → AreAhead (queue_kind.past queue entry) tags }
    ensures all_launched { (queue : Queue) (tags : List (Option Token)) (tag : ℕ) (token : Token) → tag < length tags
        → AreAll queue tags → get_or tags tag None ≡ None → IsTaken queue token
        → AreAll (queue_kind.launched queue (entry_of token)) (set tags tag (Some token)) }
    ensures all_landed { (queue : Queue) (tags : List (Option Token)) (tag : ℕ) (token : Token) → tag < length tags
        → AreAll queue tags → AreAhead queue tags → get_or tags tag None ≡ Some token
        → AreAll (queue_kind.landed queue (entry_of token)) (set tags tag None) }
    ensures none_served { (queue : Queue) (entry : Entry) → ahead_of (queue_kind.past queue entry) ≡ ahead_of queue }
{}
