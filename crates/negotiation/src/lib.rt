//! Device status and feature negotiation of one device window.
//!
//! The window of registers above keeps one [`Negotiation`] and hands it what the driver writes. It asks
//! back what its registers show, which features were negotiated, and whether the device may work.
#![tactic(auto)]

mod features;
mod laws;
mod negotiation;
mod status;

pub use bitflags::Flags;
pub use features::Features;
pub use laws::{only_offered_features_settle, only_reset_clears};
pub use negotiation::Negotiation;
pub use status::Status;
