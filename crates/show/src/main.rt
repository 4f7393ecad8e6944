//! `vshow`: replays a trace as `vreplay` does, and says what happened, in the standard's names.
//!
//! `words` reads what a call asks for, `program` does it, and `replaying` replays the trace into a weaver, which takes the
//! records and says between them what a `teller` tells of their events. `watch` goes along with the events on a board of its
//! own, `watched`. `device` names a slot's devices. `service` serves a queue chain by chain, and `look` that of a disk which the host serves; `foresee` asks
//! before it what it should take, by a `trial`, and `served` has what both say. `seen` says what of a guest changed, in the
//! words of `wording`. `page` makes a page of it all, whose own text stands in `page_text`.
#![tactic(auto)]

mod device;
mod foresee;
mod guest;
mod look;
mod page;
mod page_text;
mod program;
mod replaying;
mod seen;
mod served;
mod service;
mod teller;
mod trial;
mod watch;
mod watched;
mod weave;
mod wording;
mod words;

use calls::start;
use program::program;
use std::process::ExitCode;

fn main(rt: HostRuntime) -> ExitCode {
    let status = match start(&rt) {
        Ok(call) => program(&rt, call.words.as_slice()),
        Err(status) => status,
    };
    ExitCode::from(status)
}
