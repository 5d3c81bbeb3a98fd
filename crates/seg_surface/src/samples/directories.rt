//! Directories in memory.

use seg_directory::MemoryDirectory;
use std::alloc::{AllocError, Global};

/// A directory without files, of which no call fails.
pub(crate) fn memory(alloc: Global) -> Result<MemoryDirectory, AllocError> {
    match MemoryDirectory::new(alloc, Vec::new(alloc)) {
        Ok(directory) => Ok(directory),
        Err(_) => Err(AllocError),
    }
}
