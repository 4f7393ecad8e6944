//! Laws of the definitions. The bodies are empty: each contract is a theorem.

ghost use Rattle.std.specs.Prelude.{◌≡◌, ℕ, ◌≤◌, List, length};
ghost use Rattle.guest_memory.specs.Memory.{Memory};
ghost use Rattle.chain.specs.declared.segment.Buffer.{Buffer};
ghost use Rattle.chain.specs.declared.fault.Fault.{Fault};
ghost use Rattle.chain.specs.Buffers.{AdmitsAll};
ghost use Rattle.indirect.specs.declared.descriptor.Descriptor.{Descriptor};
ghost use Rattle.indirect.specs.Walks.{Leads, buffers_of, Resolves, FaultAt, WalkHasOutcome};
ghost use Rattle.indirect.specs.Lists.{split_tables, packed_tables};
ghost use Rattle.indirect.specs.Outcomes.{HasOneTable, HasOneList};

/// A walk over linked descriptors has one outcome: a path's buffers, or a fault with the buffers before it.
pub fn one_outcome_of_walk()
    ensures one_path { (m : Memory) (before : List Buffer) (t : ℕ → Descriptor) (n h : ℕ) (a b : List Buffer)
        → Resolves m before t n h a → Resolves m before t n h b → a ≡ b }
    ensures one_fault { (m : Memory) (before : List Buffer) (t : ℕ → Descriptor) (n h : ℕ) (f g : Fault) (a b : List Buffer)
        → FaultAt m before t n h f a → FaultAt m before t n h g b → (f ≡ g) × (a ≡ b) }
    ensures never_both { (m : Memory) (before : List Buffer) (t : ℕ → Descriptor) (n h : ℕ) (f : Fault) (a b : List Buffer)
        → FaultAt m before t n h f a → ¬ Resolves m before t n h b }
    ensures some { (m : Memory) (before : List Buffer) (t : ℕ → Descriptor) (n h : ℕ) → WalkHasOutcome m before t n h }
{}

/// The front before a fault is the longest of those whose buffers may stand behind the others.
pub fn front_is_longest()
    ensures { (m : Memory) (before : List Buffer) (t : ℕ → Descriptor) (n h : ℕ) (fault : Fault) (after : List Buffer)
        → (found : FaultAt m before t n h fault after) → (front : List ℕ) (i : ℕ)
        → Leads t n h front i → AdmitsAll m before (buffers_of t front) → length front ≤ n → length front ≤ found.count }
{}

/// A range of memory has one outcome as a table of either kind: its buffers, or a fault with the buffers before it.
#[tactic(auto, using(crate::proofs::Totality::split_has_one_table, crate::proofs::Totality::packed_has_one_table))]
pub fn one_outcome_of_table()
    ensures split { HasOneTable split_tables }
    ensures packed { HasOneTable packed_tables }
{}

/// The list of a ring has one outcome: its buffers, or a fault. The front before a fault is the longest of those
/// whose buffers a chain may hold.
#[tactic(auto, using(crate::proofs::Totality::split_has_one_list, crate::proofs::Totality::packed_has_one_list))]
pub fn one_outcome_of_list()
    ensures split { HasOneList split_tables }
    ensures packed { HasOneList packed_tables }
{}
