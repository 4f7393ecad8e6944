//! What is said of a board, in the standard's names.
//!
//! `event` and `names` say what an event was, `state` and `tables` what of a slot isn't as it was. Of a service `chains` asks
//! the ring for the chain that it takes next, `request` reads that as a request, `used` says what came of it, `fault_site`
//! where a fault lies and `notification` whether the driver wanted one. `mistakes` has what the standard forbids a driver, in
//! chains by `chain_mistakes`. `places` are those of a packed ring.

mod chain_mistakes;
mod chains;
mod event;
mod fault_site;
mod mistakes;
mod names;
mod notification;
mod places;
mod request;
mod state;
mod tables;
mod used;

pub use chains::{Ahead, ChainSeen, Lookout};
pub use event::{SHOWN, say_disk, say_event, say_place, say_value};
pub use fault_site::say_site;
pub use mistakes::{Mistake, read_mistake, write_mistake};
pub use names::{fault_name, say_raised};
pub use notification::say_notification;
pub use places::{next_place, place_behind, size_of, used_place};
pub use request::{RequestSeen, say_asked, say_request};
pub use state::{
    QueueSeen, RingSeen, WindowSeen, say_changes, say_hold_change, say_queue_head, window_seen,
};
pub use tables::{Change, Table, say_on_offer};
pub use used::{Used, say_received, say_used, used_entry};
