//! Laws of the definitions. The bodies are empty: each contract is a theorem.

ghost use Rattle.std.specs.Prelude.{◌≡◌, ◌≢◌, ℕ, ◌-◌, ◌<◌, ◌≤◌, Bool, List, [], ◌∷◌, ◌++◌, ◌⊎◌, ◌↔◌, length, take, drop, Some, All};
ghost use Rattle.std.specs.List.{flat_map};
ghost use Rattle.guest_memory.specs.Memory.{Inside, Memory, put};
ghost use Rattle.chain.specs.declared.segment.Buffer.{Buffer};
ghost use Rattle.chain.specs.declared.fault.Fault.{Fault};
ghost use Rattle.chain.specs.declared.budget.Budget.{Budget};
ghost use Rattle.chain.specs.Budget.{AreWithin, IsSpent, bytes_of, left_after};
ghost use Rattle.chain.specs.Buffers.{Admits, AdmitsAll, Good, Refuses, Within};
ghost use Rattle.chain.specs.Bytes.{addresses, addresses_of, len_of, scatter, segments_of};
ghost use Rattle.chain.specs.Runs.{runs_of};

/// Buffers may be put into an empty chain one after another exactly where they may stand there all at once.
pub fn one_by_one()
    ensures { (m : Memory) (buffers : List Buffer) → AdmitsAll m [] buffers ↔ Good m buffers }
{}

/// A buffer is admitted or refused, never both, and it is refused for one cause.
#[tactic(auto, using(crate::proofs::Admitting::admits_or_refuses))]
pub fn one_refusal()
    ensures either { (m : Memory) (buffers : List Buffer) (b : Buffer) → Admits m buffers b ⊎ ((f : Fault) × Refuses m buffers b f) }
    ensures never_both { (m : Memory) (buffers : List Buffer) (b : Buffer) (f : Fault) → Admits m buffers b → ¬ Refuses m buffers b f }
    ensures one_cause { (m : Memory) (buffers : List Buffer) (b : Buffer) (f g : Fault) → Refuses m buffers b f → Refuses m buffers b g → f ≡ g }
{}

/// A byte put last stands, whatever was put before it at the same address.
pub fn later_byte_stands()
    ensures { (m : Memory) (addrs bytes : List ℕ) (a x : ℕ) → length addrs ≡ length bytes
        → scatter m (addrs ++ a ∷ []) (bytes ++ x ∷ []) ≡ put (scatter m addrs bytes) a (x ∷ []) }
{}

/// The runs of places are of those places and of no others, one after another. Each lies where its buffer does, none is
/// empty, and there are no more of them than buffers.
pub fn runs_are_of_their_places()
    ensures places { (writable : Bool) (buffers : List Buffer) (from to : ℕ) → to ≤ len_of writable buffers
        → flat_map addresses (runs_of from to (segments_of writable buffers)) ≡ take (to - from) (drop from (addresses_of writable buffers)) }
    ensures inside { (m : Memory) (writable : Bool) (buffers : List Buffer) (from to : ℕ) → All (Within m) buffers
        → All (λ run. Inside m run.addr run.len) (runs_of from to (segments_of writable buffers)) }
    ensures some { (writable : Bool) (buffers : List Buffer) (from to : ℕ)
        → All (λ run. 0 < run.len) (runs_of from to (segments_of writable buffers)) }
    ensures few { (writable : Bool) (buffers : List Buffer) (from to : ℕ)
        → length (runs_of from to (segments_of writable buffers)) ≤ length buffers }
{}

/// A piece within a budget serves as many chains as it allows, at most; its bytes are passed by the last chain
/// alone. One that begins with something left and pauses has served a chain.
#[tactic(auto, using(crate::proofs::Limits::few_chains, crate::proofs::Limits::few_bytes, crate::proofs::Limits::some_chain))]
pub fn a_budget_is_kept()
    ensures chains { (budget : Budget) (most : ℕ) (chains : List (List Buffer)) →
        budget.chains ≡ Some most → AreWithin budget chains → length chains ≤ most }
    ensures bytes { (budget : Budget) (most : ℕ) (front : List (List Buffer)) (last : List Buffer) →
        budget.bytes ≡ Some most → AreWithin budget (front ++ last ∷ []) → bytes_of front < most }
    ensures some { (budget : Budget) (chains : List (List Buffer)) →
        ¬ IsSpent budget → IsSpent (left_after budget chains) → chains ≢ [] }
{}
