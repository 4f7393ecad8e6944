//! Laws of the format: a text has one meaning or one fault, and not both; lines of events begin with one.

ghost use Rattle.std.specs.Prelude.{◌≡◌, ◌≢◌, ℕ, List, length};
ghost use Rattle.board.specs.declared.event.Event.{Event};
ghost use Rattle.trace.specs.declared.fault.FaultKind.{FaultKind};
ghost use Rattle.trace.specs.Events.{BeginsWithEvent};
ghost use Rattle.trace.specs.Faults.{IsFault};
ghost use Rattle.trace.specs.Printable.{InRange, IsPrintable};
ghost use Rattle.trace.specs.Text.{Content, text};
ghost use Rattle.trace.specs.Validating.{AreLinesOf};

use std::alloc::Allocator;

/// A text belongs to one trace.
pub fn one_trace<A: Allocator>()
    ensures { (s t : Content A) → InRange s → InRange t → IsPrintable s → IsPrintable t → text s ≡ text t → s ≡ t }
{}

/// A text has one fault.
pub fn one_fault()
    ensures { (text : List ℕ) (k l : ℕ) (c d : FaultKind) → IsFault text k c → IsFault text l d → (k ≡ l) × (c ≡ d) }
{}

/// The text of a trace has no fault.
pub fn a_trace_has_no_fault<A: Allocator>()
    ensures { (t : Content A) (line : ℕ) (fault : FaultKind) → InRange t → IsPrintable t → ¬ IsFault (text t) line fault }
{}

/// Where lines of events are left, the first of them begins what is left: `take_event` may be called.
pub fn lines_begin_with_an_event<A: Allocator>()
    ensures { (events : List (Event A)) (lines : List ℕ) → AreLinesOf events lines → length lines ≢ 0 → BeginsWithEvent A lines }
{}
