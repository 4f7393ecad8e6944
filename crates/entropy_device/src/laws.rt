//! Laws of the definitions. The bodies are empty: each contract is a theorem.

ghost use Rattle.std.specs.Prelude.{◌≡◌, ◌≢◌, ◌++◌, ◌<◌, ℕ, Bool, List, length, min};
ghost use Rattle.chain.specs.Bytes.{writable_of};
ghost use Rattle.chain.specs.Service.{Ending, Refused, Site, Served, ServesAll, ServesChain, IsService, HasAtMostOneAnswer, used_len};
ghost use Rattle.mmio_window.specs.declared.queue.Queue.{Queue};
ghost use Rattle.mmio_window.specs.Queue.{queue_kind};
ghost use Rattle.entropy_device.specs.Device.{entropy, filled};
ghost use Rattle.entropy_device.specs.Pool.{handed_out};

/// There is at most one answer to a chain; and the one that there is accounts for each place of the chain.
pub fn one_answer()
    ensures once { HasAtMostOneAnswer entropy }
    ensures whole { (pool : List ℕ) (w : ℕ) → length (filled pool w).written ≡ w }
{}

/// The used length of a chain is the lesser of its room and of what was in the pool.
pub fn used_len_counts_what_was_given()
    ensures { (pool : List ℕ) (w : ℕ) → used_len (filled pool w).written ≡ min w (length pool) }
{}

/// A chain that is served gets a byte, if it has a place for one (5.4.6.2).
pub fn each_chain_gets_a_byte()
    ensures { (site : Site Queue (List ℕ)) (s : Served (List ℕ)) → ServesChain queue_kind entropy site s
        → 0 < length (writable_of s.buffers) → 0 < used_len s.given.written }
{}

/// What some chains got, one after another, and what is then in the pool are what was in the pool before: each byte
/// stands in at most one place of one chain, in the order in which the host supplied it.
pub fn each_byte_has_one_place()
    ensures { (old new : Site Queue (List ℕ)) (chains : List (Served (List ℕ)))
        → ServesAll queue_kind entropy old chains new → handed_out chains ++ new.state ≡ old.state }
{}

/// A service never lacks memory.
pub fn no_service_is_refused()
    ensures { (old new : Site Queue (List ℕ)) (ending : Ending) (wanted : Bool)
        → IsService queue_kind entropy old new ending wanted → ending ≢ Refused }
{}
