//! Directories in memory.
ghost use Rattle.std.specs.Prelude.{◌≡◌, [], IfOk};
ghost use Rattle.seg_directory.specs.MemoryDirectories.{new_memory};

use seg_directory::{FailingCall, MemoryDirectory};
use std::alloc::{AllocError, Global};

/// A directory without files, of which no call fails.
pub(crate) fn memory(alloc: Global) -> Result<MemoryDirectory, AllocError>
    ensures { IfOk result (λ d. d ≡ new_memory []) }
{
    match MemoryDirectory::new(alloc, Vec::new(alloc)) {
        Ok(directory) => Ok(directory),
        Err(_) => Err(AllocError),
    }
}

/// A directory without files, of which these calls fail.
pub(crate) fn failing(alloc: Global, fails: &[FailingCall]) -> Result<MemoryDirectory, AllocError>
    ensures { IfOk result (λ d. d ≡ new_memory fails.now) }
{
    match MemoryDirectory::new(alloc, Vec::from_slice(alloc, fails)?) {
        Ok(directory) => Ok(directory),
        Err(_) => Err(AllocError),
    }
}
