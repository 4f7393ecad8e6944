//! Laws of the definitions. The bodies are empty: each contract is a theorem.

ghost use Rattle.std.specs.Prelude.{◌≡◌, ◌≢◌, ℕ, Bool, List, length, min};
ghost use Rattle.guest_memory.specs.Memory.{Memory};
ghost use Rattle.chain.specs.Service.{Ending, Refused, Site, IsService, IsRefusedService, HasAtMostOneAnswer, used_len};
ghost use Rattle.mmio_window.specs.declared.queue.Queue.{Queue};
ghost use Rattle.mmio_window.specs.Queue.{queue_kind};
ghost use Rattle.console_device.specs.Device.{received, receive, transmitted, transmit, exact_transmit};
ghost use Rattle.console_device.specs.Input.{IsLeft};
ghost use Rattle.console_device.specs.Output.{PutsOut};

/// Each queue has at most one answer to a chain; and the one that it has accounts for each place of the chain,
/// so that there is one.
pub fn one_answer()
    ensures receive { HasAtMostOneAnswer receive }
    ensures transmit { HasAtMostOneAnswer transmit }
    ensures received { (pending : List ℕ) (w : ℕ) → length (received pending w).written ≡ w }
    ensures transmitted { (out readable : List ℕ) (w : ℕ) →
        length (transmitted out readable w).written ≡ w }
{}

/// The used length of a chain that was received is the lesser of its room and of what was pending, and that of
/// a chain that was transmitted is 0.
pub fn used_len_counts_what_was_received()
    ensures received { (pending : List ℕ) (w : ℕ) →
        used_len (received pending w).written ≡ min w (length pending) }
    ensures transmitted { (out readable : List ℕ) (w : ℕ) →
        used_len (transmitted out readable w).written ≡ 0 }
{}

/// What a service of the receive queue leaves pending is the end of what was.
pub fn input_is_taken_from_the_front()
    ensures { (old new : Site Queue (List ℕ)) (ending : Ending) (wanted : Bool)
        → IsService queue_kind receive old new ending wanted → IsLeft old.state new.state }
{}

/// A service of the receive queue never lacks memory, and one of the transmit queue that lacks none is the
/// service of its exact device.
pub fn a_service_with_memory_is_exact()
    ensures receive { (old new : Site Queue (List ℕ)) (ending : Ending) (wanted : Bool)
        → IsService queue_kind receive old new ending wanted → ending ≢ Refused }
    ensures transmit { (old new : Site Queue (List ℕ)) (ending : Ending) (wanted : Bool) → ending ≢ Refused
        → IsService queue_kind transmit old new ending wanted
        → IsService queue_kind exact_transmit old new ending wanted }
{}

/// A service of the transmit queue that lacks memory leaves the chain on offer as it is: that chain has readable
/// bytes, none of them is out, and the service is closed behind the chains before it.
pub fn a_refused_service_leaves_its_chain()
    ensures { (old new : Site Queue (List ℕ)) (wanted : Bool)
        → IsService queue_kind transmit old new Refused wanted
        → IsRefusedService queue_kind transmit old new wanted }
{}

/// What a service puts out stands behind what stood there before, which takes no part in it.
pub fn output_goes_behind()
    ensures { (old new : Memory) (queue last : Queue) (before after : List ℕ) (ending : Ending) (wanted : Bool)
        → IsService queue_kind transmit
        (record { memory = old; ring = queue; state = before })
        (record { memory = new; ring = last; state = after }) ending wanted
        → PutsOut queue_kind old new queue last before after ending wanted }
{}
