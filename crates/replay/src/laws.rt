//! The format of a trace says nothing of what comes of it.

ghost use Rattle.std.specs.Prelude.{◌↔◌, ℕ, List, Option, Some, Result};
ghost use Rattle.replay.specs.Replay.{IsAdmittedUntil, Replays};
ghost use Rattle.replay.specs.declared.fault.ReplayFault.{ReplayFault};
ghost use Rattle.trace.specs.Printable.{InRange, IsPrintable};
ghost use Rattle.trace.specs.declared.format.Format.{Format};
ghost use Rattle.trace.specs.Format.{GoesInto};
ghost use Rattle.trace.specs.Text.{Content, as_format, text};

use sector_cache::Image;
use std::alloc::Allocator;

/// A trace that another format admits as its own does, version 2 or the extended one, and the same trace in that format, have the
/// same replays: whatever comes of the one may come of the other, with the same records, the same image and the same fault.
pub fn the_version_changes_no_replay<A: Allocator, I: Image>()
    ensures { (t : Content A) (format : Format) (old new : Option (List ℕ)) (before after : I) (outcome : Result (Unit {0}) ReplayFault) →
        InRange t → IsPrintable t → IsAdmittedUntil format t → GoesInto t.format format →
        Replays A I.disk (Some (text t)) old new before after outcome
        ↔ Replays A I.disk (Some (text (as_format format t))) old new before after outcome }
{}
