//! A console as somebody sees it who only looks.

ghost use Rattle.std.specs.Prelude.{◌≡◌, ◌≤◌, ◌++◌, length};

use crate::device::ConsoleDevice;
use std::alloc::Allocator;

impl<A: Allocator> ConsoleDevice<A> {
    /// How many bytes were typed that no buffer has taken yet.
    pub fn pending_len(&self) -> usize
        ensures value { result ≡ length self.now.pending }
        ensures most { result ≤ 4096 }
    {
        self.pending.len()
    }

    /// Those bytes, in two parts.
    pub fn pending(&self) -> (&[u8], &[u8])
        ensures { result.0.now ++ result.1.now ≡ self.now.pending }
    {
        self.pending.parts()
    }

    /// Its columns and rows.
    pub fn size(&self) -> (u16, u16)
        ensures cols { result.0 ≡ self.now.cols }
        ensures rows { result.1 ≡ self.now.rows }
    {
        (self.cols, self.rows)
    }
}
