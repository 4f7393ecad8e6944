//! Laws of the definitions. The bodies are empty: each contract is a theorem.

ghost use Rattle.std.specs.Prelude.{◌≡◌, ℕ, ◌<◌, ◌≤◌, ◌↔◌};
ghost use Rattle.suppression.specs.Places.{Passed, place_ahead, place_back};

/// A ring that knows its place and the number of steps since a service began knows where it began, and the
/// places passed are those from there on. So for any modulus: 65536 in a split queue, 2n in a packed one.
pub fn places_passed_since_the_first()
    ensures first { (modulus from steps : ℕ) → from < modulus → steps ≤ modulus
        → place_back modulus (place_ahead modulus from steps) steps ≡ from }
    ensures passed { (modulus from steps place : ℕ) → from < modulus → steps ≤ modulus
        → Passed modulus (place_back modulus (place_ahead modulus from steps) steps) steps place ↔ Passed modulus from steps place }
{}
