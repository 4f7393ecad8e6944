//! What a memory was seen as. Only clauses read it.

ghost use Rattle.std.specs.Prelude.{◌≡◌, Bool, [], ◌∷◌};
ghost use Rattle.std.specs.Borrow.{ftrue};
ghost use Rattle.racing_memory.specs.Past.{Noted, Stood, noted_each};

use std::marker::{Model, PhantomData};

/// What stood in a memory before the first access, and the accesses, the last one first.
#[derive(Drop)]
pub struct Past {
    marker: PhantomData<u8>,
    pub ghost noted: { Noted },
}

impl Model for Past {
    ghost also_owns = { λ _. ftrue };
}

impl Past {
    /// The one of a memory that nobody looked at yet, whatever stands there.
    pub(crate) fn new() -> Past
        ghost stood: { Stood }
        ensures { result.noted ≡ record { stood = stood; past = [] } }
    {
        Past {
            marker: PhantomData,
        }
    }

    /// These bytes stand from an address on, as an access found them or stored them.
    pub(crate) fn note(&mut self, _addr: u64, _bytes: &[u8])
        ghost stores: { Bool }
        ensures { self.new.noted ≡ record self.old.noted {
          past = record { addr = _addr; bytes = _bytes.now; stores = stores } ∷ self.old.noted.past;
        } }
    {}

    /// These bytes were stored from an address on, one after another.
    pub(crate) fn note_each(&mut self, _addr: u64, _bytes: &[u8])
        ensures { self.new.noted ≡ record self.old.noted { past = noted_each _addr _bytes.now self.old.noted.past } }
    {}
}
