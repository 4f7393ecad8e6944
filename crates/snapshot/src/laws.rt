//! Laws of the definitions. The bodies are empty: each contract is a theorem.

ghost use Rattle.snapshot.specs.Faults.{FieldsAreTheSpelling, HaveOneFault};

/// Bytes have at most one first fault.
pub fn bytes_have_one_fault()
    ensures { HaveOneFault }
{}

/// The fields by which a fault is told are those of the spelling: one behind another they are the snapshot.
pub fn fields_are_the_spelling()
    ensures { FieldsAreTheSpelling }
{}
