//! A file in memory that records each content that it had: what a stop at any moment might have left of it is known, so
//! the contracts of files and images that speak of that can be met.

ghost use Rattle.std.specs.Prelude.{◌≡◌, ◌∷◌, ◌++◌, [], length, OnOk, OnErr, Some, ⊤};
ghost use Rattle.std.proofs.Common.{inl};
ghost use Rattle.test_support.specs.Past.{Since};

use crate::memory_file::MemoryFile;
use sector_cache::{BackingFile, FileImageFault};
use std::alloc::{AllocError, Global};
use std::io;
use std::io::ErrorKind;

/// A file whose writes reach the medium at once. Before each of them it records what is there; a write for whose
/// record there is no memory fails.
#[derive(Drop)]
pub struct RecordedFile {
    pub alloc: Global,
    pub file: MemoryFile,
    pub past: Vec<Vec<u8>>,
}

impl RecordedFile {
    /// Records what is there.
    fn record(&mut self) -> Result<(), AllocError>
        ensures file { self.new.file ≡ self.old.file }
        ensures ok { OnOk result ((v : _) × (v.items ≡ self.old.file.bytes.items)
            × (self.new.past.items ≡ self.old.past.items ++ v ∷ [])) }
        ensures err { OnErr result (self.new.past.items ≡ self.old.past.items) }
    {
        self.past.push(self.file.bytes.to_vec(self.alloc)?)?;
        Ok(())
    }
}

impl BackingFile for RecordedFile {
    ghost held = { λ file. Some file.file.bytes.items };

    ghost IsSynced = { λ _. ⊤ };

    ghost may_leave = { λ file left. left ≡ file.file.bytes.items };

    ghost moment = { λ file. length file.past.items };

    ghost left_since = { λ file. Since (λ v left. left ≡ v.items) (λ left. left ≡ file.file.bytes.items) file.past.items };

    ghost keeps = { λ file left synced may. may };

    ghost counts_now = { λ file since left reached may. inl may };

    fn hold(&mut self) -> Result<(), FileImageFault> {
        Ok(())
    }

    fn length(&mut self) -> io::Result<u64> {
        Ok(self.file.bytes.len() as u64)
    }

    fn read_from(&mut self, at: u64, into: &mut [u8]) -> io::Result<usize> {
        self.file.read_from(at, into)
    }

    fn write_to(&mut self, at: u64, from: &[u8]) -> io::Result<usize> {
        let Ok(()) = self.record() else {
            return Err(io::Error::from(ErrorKind::OutOfMemory));
        };
        self.file.write_to(at, from)
    }

    fn sync(&mut self) -> io::Result<()> {
        Ok(())
    }
}
