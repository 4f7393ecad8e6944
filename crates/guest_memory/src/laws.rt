//! Laws of the definitions. Their bodies are empty: each contract is a theorem.

ghost use Rattle.std.specs.Prelude.{ℕ, ◌↔◌, IsTrue, List};
ghost use Rattle.guest_memory.specs.Marks.{MarksWrites};
ghost use Rattle.guest_memory.specs.Memory.{Memory, Inside, is_inside, put};

/// The test whether a range lies in a memory says that it does.
pub fn a_range_is_tested()
    ensures { (m : Memory) (a n : ℕ) → IsTrue (is_inside m a n) ↔ Inside m a n }
{}

/// A write marks each page that it changes, and clears no mark.
pub fn a_write_marks_its_pages()
    ensures { (m : Memory) (a : ℕ) (bytes : List ℕ) → MarksWrites m (put m a bytes) }
{}
