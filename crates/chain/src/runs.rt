//! Where the bytes of a chain lie in guest memory: runs, for somebody who moves them in place.

ghost use Rattle.std.specs.Prelude.{◌≡◌, [], ◌∷◌, ◌++◌, ◌<◌, ◌≤◌, length};
ghost use Rattle.chain.specs.Bytes.{len_of, segments_of};
ghost use Rattle.chain.specs.Runs.{runs_of};

use crate::buffers::{Chain, MOST_BUFFERS};
use crate::segment::Segment;
use arrayvec::ArrayVec;
use std::marker::Model;

/// Runs of bytes, at most as many as a chain has buffers. It holds them in place, some 4 KB.
#[derive(Drop)]
pub struct Runs {
    runs: ArrayVec<Segment, MOST_BUFFERS>,
}

impl Model for Runs {
    ghost use Rattle.std.specs.Prelude.{List};
    ghost use Rattle.chain.specs.declared.segment.Segment.{Segment};

    ghost Value = { List Segment };

    ghost view = { λ r. r.runs.items };
}

impl Runs {
    /// No runs.
    pub fn new() -> Runs
        ensures { result ≡ [] }
    {
        Runs {
            runs: ArrayVec::new(),
        }
    }

    /// Takes all runs out.
    pub fn clear(&mut self)
        ensures { self.new ≡ [] }
    {
        self.runs.clear();
    }

    /// Puts a run behind the others.
    pub fn push(&mut self, run: Segment)
        requires { length self.old < 256 }
        ensures { self.new ≡ self.old ++ run ∷ [] }
    {
        self.runs.push(run);
    }

    /// The runs, in order.
    pub fn as_slice(&self) -> &[Segment]
        ensures value { result.now ≡ self.now }
        ensures few { length self.now ≤ 256 }
    {
        self.runs.as_slice()
    }
}

impl Chain {
    /// Puts the runs of the places from `from` up to `to` of the writable list (`writable`) or of the readable one in
    /// the place of what `into` has. Each ends where its buffer does, and none is empty.
    pub fn runs(&self, writable: bool, from: u64, to: u64, into: &mut Runs)
        requires in_list { to ≤ len_of writable self.now }
        ensures { into.new ≡ runs_of from to (segments_of writable self.now) }
    {
        // What it ensures: there are 256 buffers at most.
        let _ = self.buffers();
        into.clear();
        let mut place = from;
        while place < to {
            let rest = self.segment_at(writable, place);
            let len = u64::from(rest.len).min(to - place) as u32;
            into.push(Segment {
                addr: rest.addr,
                len,
            });
            place += u64::from(len);
        }
    }
}
