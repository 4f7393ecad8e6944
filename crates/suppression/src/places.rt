//! The set of places that a service passed, in a ring that is walked round and round.

ghost use Rattle.std.specs.Prelude.{◌<◌, ◌≤◌, ◌↔◌, IsTrue};
ghost use Rattle.suppression.specs.Places.{Passed};

/// Whether `place` is one of the `count` places from `from` on, counted modulo `modulus`.
pub fn is_passed(modulus: u32, from: u16, count: u16, place: u32) -> bool
    requires from { from < modulus }
    requires place { place < modulus }
    requires most { count ≤ modulus }
    ensures { IsTrue result ↔ Passed modulus from count place }
{
    let from = u32::from(from);
    let distance = if place >= from {
        place - from
    } else {
        modulus - from + place
    };
    distance < u32::from(count)
}
