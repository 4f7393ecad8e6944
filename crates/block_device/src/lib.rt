//! A block device (5.2): one request of a driver after another, served over an extent of a shared image.
//!
//! `header` is read and `request` judges it, as `segments` does with those of a WRITE_ZEROES. `transfer` moves sectors,
//! those of an OUT out of its `payload`, `zeroes` zeroes them, and `answer` goes from a header to the status byte.
//! `cached` serves a chain over the cache of an image, and `serve` a queue of them, and tells the window. `on_host` and
//! `hosting` do so where the host has the disk, by what `operation` tells it. `tags` keep what is in flight of such a disk, and
//! `flights` has those of a window. The caller is the board, which hands in the guest's memory, the device's window and the
//! cache over the image.
#![tactic(auto)]

mod answer;
mod cached;
mod device;
mod extent;
mod flights;
mod header;
mod hosting;
mod laws;
mod on_host;
mod operation;
mod payload;
mod request;
mod segments;
mod serve;
mod tags;
mod transfer;
mod zeroes;

pub use device::{BlockDevice, REQUESTQ};
pub use extent::Extent;
pub use flights::Flights;
pub use header::{HEADER_LEN, Header};
pub use hosting::{Flight, Hosted};
pub use laws::{
    a_cut_request_touches_its_own_sectors, a_flight_outlasts, a_hosted_flush_lasts,
    a_service_without_failure_is_exact, an_answered_write_is_flushed, an_honest_host_serves,
    at_most_one_exact_service, no_service_is_refused, one_answer, one_completion,
    one_failure_at_most, one_look, one_whole_look, pieces_are_one_service, what_asks_is_ahead,
    what_lands_is_gone, what_stays_is_ahead,
};
pub use operation::{HostEvent, Operation, OperationKind, Verdict};
pub use request::{Headed, Request, RequestStatus};
pub use segments::{MOST_SEGMENT_BYTES, Segments, WriteZeroesSegment, are_segments};
pub use serve::Piece;
pub use tags::{MOST_IN_FLIGHT, Tag, Tags, with_tag};
pub use transfer::Done;
