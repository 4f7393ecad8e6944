//! A guest that runs on, for C: a static library, whose calls stand in `kalyubos.h` beside those of a board.
//!
//! Each export takes a handle, does what the session behind it does, and answers a number. `handle` is what C holds, `codes` the
//! numbers, `pending` what waits once a call is answered. `slot` judges how C describes a guest, `config` is what a guest is made
//! of. `create` makes a guest and destroys it. `registers`, `console`, `disk`, `fault`, `place`, `memory` and `pages` have the calls on one, and
//! `window` says whose a window of a number is.
#![tactic(auto)]

mod codes;
mod config;
mod console;
mod create;
mod device;
mod devices;
mod disk;
mod fault;
mod frame;
mod handle;
mod memory;
mod pages;
mod pending;
mod place;
mod registers;
mod slot;
mod window;
