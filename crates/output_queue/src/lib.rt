//! What a console put out, until its host takes it: an outlet of a fixed size.
#![tactic(auto)]

mod queue;

pub use queue::OutputQueue;
