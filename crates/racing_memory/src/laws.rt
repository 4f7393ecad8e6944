//! Laws of the definitions. Their bodies are empty: each contract is a theorem.

ghost use Rattle.std.specs.Prelude.{◌≡◌, ℕ, All, List};
ghost use Rattle.guest_memory.specs.Faults.{AreGood, zeroed_regions};
ghost use Rattle.guest_memory.specs.Memory.{Memory, SameRange};
ghost use Rattle.guest_memory.specs.declared.spec.RegionSpec.{RegionSpec};
ghost use Rattle.racing_memory.specs.Past.{IsFound, MakeMemory, Seen, filled, sightings_of};

/// Regions that a guest may have make a memory here, too.
pub fn good_regions_make_a_memory()
    ensures { (regions : List RegionSpec) → AreGood regions → MakeMemory regions }
{}

/// Each memory of these regions may stand there before the first access, whichever of its pages are marked.
pub fn each_memory_may_stand_there()
    ensures { (regions : List RegionSpec) (m : Memory) → SameRange (zeroed_regions regions) m
        → filled regions (record { bytes = m.bytes; pages = m.pages }) ≡ m }
{}

/// A memory that nobody writes, so that each access found what stood there, is seen at each access as it stood.
pub fn a_memory_that_is_left_alone_is_seen_as_it_stood()
    ensures { (s : Seen) → All (IsFound (filled s.regions s.stood)) s.past → (k : ℕ)
        → (sightings_of s).at k ≡ filled s.regions s.stood }
{}
