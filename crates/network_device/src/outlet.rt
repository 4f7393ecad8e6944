//! Where the frames go that a guest transmits.

ghost use Rattle.std.specs.Prelude.{◌≡◌, ◌++◌, ◌+◌, ◌∷◌, ℕ, [], List, length, true};
ghost use Rattle.network_device.specs.declared.limits.Limits.{Limits};
ghost use Rattle.network_device.specs.Frames.{has_room};

/// Takes frames behind those that wait in it. Its limits alone decide for which there is room.
pub trait FrameOutlet {
    // the frames that wait
    ghost frames: { Self → List (List ℕ) };

    // the bytes of the frame that is begun
    ghost begun: { Self → List ℕ };

    // how much may wait
    ghost limits: { Self → Limits };

    /// Whether there is room for a frame of this length once nothing waits.
    fn admits(&self, len: u64) -> bool
        ensures { result ≡ has_room (limits self.now) [] len };

    /// Whether there is room for one now.
    fn has_room(&self, len: u64) -> bool
        ensures { result ≡ has_room (limits self.now) (frames self.now) len };

    /// Takes bytes behind those of the frame that is begun.
    fn append(&mut self, part: &[u8])
        requires room { has_room (limits self.old) (frames self.old) (length (begun self.old) + length part.now) ≡ true }
        ensures begun { begun self.new ≡ begun self.old ++ part.now }
        ensures frames { frames self.new ≡ frames self.old }
        ensures limits { limits self.new ≡ limits self.old };

    /// Ends the frame that is begun: it waits behind the others.
    fn end(&mut self)
        requires room { has_room (limits self.old) (frames self.old) (length (begun self.old)) ≡ true }
        ensures frames { frames self.new ≡ frames self.old ++ begun self.old ∷ [] }
        ensures begun { begun self.new ≡ [] }
        ensures limits { limits self.new ≡ limits self.old };
}
