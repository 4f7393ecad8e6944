//! What both kinds of loans are to who takes them.

ghost use Rattle.std.specs.Prelude.{◌≡◌, List, []};

use std_alloc::vec::Lodged;

/// A loan of bytes or of words.
pub trait Lends {
    /// A byte or a word.
    type Value: Drop;

    // those that are lent
    ghost values: { Self → List Self.Value };

    /// Takes them out, and leaves none.
    fn take(&mut self) -> Vec<Self::Value, Lodged>
        ensures taken { result.items ≡ values self.old }
        ensures left { values self.new ≡ [] };
}
