//! Laws of the definitions. The body is empty: the contract is a theorem.

ghost use Rattle.std.specs.Prelude.{◌<◌, ◌-◌, ◌++◌, ◌^◌, ℕ, Bool, List, [], ◌∷◌, None, Option, Some, length, map, replicate, take};
ghost use Rattle.chain_handler.specs.Device.{StoresAtOnce};
ghost use Rattle.chain_handler.specs.Storing.{StoresSome};
ghost use Rattle.shared_memory.specs.Bytes.{StoresEach};
ghost use Rattle.shared_memory.specs.Sightings.{Sightings, Stores};

/// A row of bytes is stored in parts, as `DoesRaced` asks of a device: of whatever places it is, and whatever is stored behind
/// it. `first` is the whole of a device that fills the first places and writes no others.
pub fn a_row_of_bytes_is_stored_in_parts()
    ensures byte { (races : Bool) (old new : Sightings) (addr byte : ℕ) → byte < 2 ^ 8 → Stores races old new addr 1 byte
        → StoresAtOnce races old new (addr ∷ []) (Some byte ∷ []) }
    ensures joined { (races : Bool) (old mid new : Sightings) (addrs bytes more others : List ℕ)
        → StoresEach races old mid addrs bytes → StoresEach races mid new more others
        → StoresEach races old new (addrs ++ more) (bytes ++ others) }
    ensures once { (races : Bool) (old new : Sightings) (addrs : List ℕ) (written : List (Option ℕ))
        → StoresAtOnce races old new addrs written → StoresSome races old new addrs written }
    ensures behind { (races : Bool) (old mid new : Sightings) (addrs bytes more : List ℕ) (written : List (Option ℕ))
        → StoresEach races old mid addrs bytes → StoresSome races mid new more written
        → StoresSome races old new (addrs ++ more) (map Some bytes ++ written) }
    ensures first { (races : Bool) (old new : Sightings) (addrs bytes : List ℕ)
        → StoresEach races old new (take (length bytes) addrs) bytes
        → StoresSome races old new addrs (map Some bytes ++ replicate (length addrs - length bytes) None) }
{}
