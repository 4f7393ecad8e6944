//! The replay of a trace: from its text to the text of its records.
//!
//! `replaying` has both passes over a text: `trace` validates it whole, and `runs` then
//! runs it line by line, each event by `running`, and `asking` puts what the host is then asked to do. `input` gathers what a reader gives, `fault` says why a replay did not come to its end, `last_line` tells how a program ends
//! after it, `limits` says which memories a trace may describe, and `laws` that the format of a trace says nothing of what
//! comes of it.
#![tactic(auto)]

mod asking;
mod fault;
mod input;
mod last_line;
mod laws;
mod limits;
mod replaying;
mod running;
mod runs;

pub use fault::ReplayFault;
pub use input::gather;
pub use last_line::finish;
pub use laws::the_version_changes_no_replay;
pub use limits::limit_memories;
pub use replaying::{replay, replay_text};
