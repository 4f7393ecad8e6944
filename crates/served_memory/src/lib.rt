//! Guest memory by which a device's queues are served: one that stands still during a call, or one whose guest runs on.
//!
//! What a service comes to is a `World` of definitions, and a device's own definitions take the world as a parameter. Of a memory
//! that stands still they are those of mmio_window, by computing alone.
#![tactic(auto)]

mod laws;
mod raced;
mod served;

pub use laws::the_standing_world_is_todays;
pub use raced::Raced;
pub use racing_service::Limits;
pub use served::Served;
