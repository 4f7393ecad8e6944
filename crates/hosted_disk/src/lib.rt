//! A block device (5.2) whose disk its host serves: its driver's requests are operations of the host, each with a tag, and the
//! host says what came of them. Whose window and memory they are, the caller says.
#![tactic(auto)]

mod disk;
mod laws;
mod view;

pub use disk::HostedDisk;
pub use laws::{one_look, one_word};
