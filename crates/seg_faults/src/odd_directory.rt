//! A directory that answers other bytes than it was given.

ghost use Rattle.std.specs.Prelude.{false};
ghost use Rattle.std.specs.FinMap.{empty};
ghost use Rattle.std.proofs.Common.{sym};
ghost use mathlib.Core.Bool.{true≢false};
ghost use Rattle.seg_directory.specs.DirectoryStates.{untold};

use seg_common::{FileName, OwnedBytes};
use seg_directory::{Directory, DirectoryError, MemoryDirectory};
use std::alloc::Global;

/// A directory that has other bytes in the file of a name, as soon as it is read. It tells no file.
#[derive(Drop)]
pub(crate) struct OddDirectory {
    pub inner: MemoryDirectory,
    pub name: FileName,
    pub other: Vec<u8>,
}

impl Directory for OddDirectory {
    ghost state = { λ d. record {
      tells = false;
      files = empty;
      seen = d.inner.calls.answers;
      faults = d.inner.calls.faults;
      disk = untold;
    } };

    ghost reads = { λ _ told. absurd (true≢false (sym told)) };

    fn list(&mut self, alloc: Global) -> Result<u64, DirectoryError> {
        self.inner.list(alloc)
    }

    fn open_read(&mut self, alloc: Global, name: &FileName) -> Result<OwnedBytes, DirectoryError> {
        if *name == self.name {
            if self.inner.put(self.name, self.other.as_slice()).is_err() {
                return Err(DirectoryError::OutOfMemory);
            }
        }
        self.inner.open_read(alloc, name)
    }

    fn write_new(
        &mut self,
        alloc: Global,
        name: &FileName,
        bytes: &[u8],
    ) -> Result<(), DirectoryError> {
        self.inner.write_new(alloc, name, bytes)
    }

    fn atomic_write(
        &mut self,
        alloc: Global,
        name: &FileName,
        bytes: &[u8],
    ) -> Result<(), DirectoryError> {
        self.inner.atomic_write(alloc, name, bytes)
    }

    fn sync_directory(&mut self, alloc: Global) -> Result<(), DirectoryError> {
        self.inner.sync_directory(alloc)
    }
}
