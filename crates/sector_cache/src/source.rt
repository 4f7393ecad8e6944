//! Where the bytes of a write in place come from, which needn't lie in one piece.

ghost use Rattle.std.specs.Prelude.{◌≡◌, ℕ, List, length};

/// Some bytes that can be copied out.
pub trait Source {
    ghost bytes: { Self → List ℕ };

    /// How many they are.
    fn len(&self) -> u64
        ensures { result ≡ length (bytes self.now) };

    /// Copies them.
    fn copy_to(&self, into: &mut [u8])
        requires { length into.old ≡ length (bytes self.now) }
        ensures { into.new ≡ bytes self.now };
}
