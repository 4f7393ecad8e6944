//! A file in memory, none of whose calls fails.

ghost use Rattle.std.specs.Prelude.{◌≡◌, ◌≢◌, ◌+◌, ◌≤◌, length, take, drop, Some, ⊤};
ghost use Rattle.sector_cache.specs.Backing.{with_bytes};

use sector_cache::{BackingFile, FileImageFault};
use std::io;

/// A file that tells its bytes. Its writes reach the medium at once, and it never grows.
#[derive(Drop)]
pub struct MemoryFile {
    pub bytes: Vec<u8>,
}

impl MemoryFile {
    /// Where byte `at` stands, and how many bytes of so many there are from it on.
    fn reach(&self, at: u64, most: usize) -> (usize, usize)
        ensures within { result.0 + result.1 ≤ length self.now.bytes.items }
        ensures most { result.1 ≤ most }
        ensures at { at + most ≤ length self.now.bytes.items → (result.0 ≡ at) × (result.1 ≡ most) }
        ensures at_end { at ≢ result.0 → result.1 ≡ 0 }
    {
        let start = (at as usize).min(self.bytes.len());
        (start, most.min(self.bytes.len() - start))
    }

    /// Copies what stands from `start` on.
    fn copy_out(&self, start: usize, into: &mut [u8])
        requires { start + length into.old ≤ length self.now.bytes.items }
        ensures { into.new ≡ take (length into.old) (drop start self.now.bytes.items) }
    {
        into.copy_from_slice(&self.bytes[start..start + into.len()]);
    }

    /// Copies into what stands from `start` on.
    fn copy_in(&mut self, start: usize, from: &[u8])
        requires { start + length from.now ≤ length self.old.bytes.items }
        ensures put { self.new.bytes.items ≡ with_bytes self.old.bytes.items start from.now }
    {
        self.bytes[start..start + from.len()].copy_from_slice(from);
    }
}

impl BackingFile for MemoryFile {
    ghost held = { λ file. Some file.bytes.items };

    ghost IsSynced = { λ _. ⊤ };

    // its bytes as they stand
    ghost may_leave = { λ file left. left ≡ file.bytes.items };

    ghost keeps = { λ file left synced may. may };

    ghost counts_now = { λ file since left reached may. tt };

    fn hold(&mut self) -> Result<(), FileImageFault> {
        Ok(())
    }

    fn length(&mut self) -> io::Result<u64> {
        Ok(self.bytes.len() as u64)
    }

    fn read_from(&mut self, at: u64, into: &mut [u8]) -> io::Result<usize> {
        let (start, n) = self.reach(at, into.len());
        self.copy_out(start, &mut into[..n]);
        Ok(n)
    }

    fn write_to(&mut self, at: u64, from: &[u8]) -> io::Result<usize> {
        let (start, n) = self.reach(at, from.len());
        self.copy_in(start, &from[..n]);
        Ok(n)
    }

    fn sync(&mut self) -> io::Result<()> {
        Ok(())
    }
}
