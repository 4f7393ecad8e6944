//! The board for C: a static library, whose header is `kalyubos.h`.
//!
//! Each export takes a handle, does what the session behind it does, and answers a number. `handle` is what
//! C holds, `codes` the numbers, `pending` what waits once a call is answered. `slot` and `device` describe a guest, `config` a
//! board. `create` makes a board and destroys it, `loans` are the lengths of what the host lends it, and `judge` says what is wrong
//! with a description. `registers`, `devices`, `frame`, `operation`, `disk`, `memory`, `pages`, `console`, `saved`, `image`,
//! `counters` and `fault` have the calls on one; `window` says whose a window of a number is. `version` is the header's number.
#![tactic(auto)]

mod codes;
mod config;
mod console;
mod counters;
mod create;
mod device;
mod devices;
mod disk;
mod fault;
mod frame;
mod handle;
mod image;
mod judge;
mod loans;
mod memory;
mod operation;
mod pages;
mod pending;
mod registers;
mod saved;
mod slot;
mod version;
mod window;
