//! Disk images by sectors of 512 bytes, and a cache of sectors over one of them.
//!
//! `image` says what an image is, `source` what is written to one in place, `memory` and `scripted` have the two that
//! live in memory, `file_image` the one over a file, `backing` what that asks of its file, `cache` the cache, `fault` what
//! their constructors answer where they refuse, and `laws` what holds of every value.
#![tactic(auto)]

mod backing;
mod cache;
mod fault;
mod file_image;
mod image;
mod kept;
mod laws;
mod memory;
mod scripted;
mod sector;
mod source;

pub use backing::BackingFile;
pub use cache::SectorCache;
pub use fault::{CacheFault, FileCall, FileFailure, FileImageFault, ImageFault, Refused};
pub use file_image::FileImage;
pub use image::{Image, ImageError};
pub use laws::{
    a_cut_call_touches_nothing_else, a_flushed_file_outlasts_a_stop, memory_images_tell,
};
pub use memory::MemoryImage;
pub use scripted::ScriptedImage;
pub use sector::{SECTOR_LEN, are_whole_sectors};
pub use source::Source;
