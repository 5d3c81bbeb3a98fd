//! What was last read of each file.
ghost use Rattle.std.specs.Prelude.{◌≡◌, IfOk};

use crate::stored_files::StoredFiles;
use seg_common::{FileName, OwnedBytes};
use std::alloc::{AllocError, Global};

/// The bytes that were last read of each file, by which a file that is read again takes no memory for long.
#[derive(Drop)]
pub(crate) struct LastRead {
    files: StoredFiles,
}

impl LastRead {
    pub(crate) fn nothing(alloc: Global) -> LastRead {
        LastRead {
            files: StoredFiles::none(alloc),
        }
    }

    /// The bytes that were read of a file, which are kept: where it had the same bytes before, in the block of those.
    pub(crate) fn kept(
        &mut self,
        alloc: Global,
        name: &FileName,
        bytes: Vec<u8>,
    ) -> Result<OwnedBytes, AllocError>
        ensures { IfOk result (λ kept. kept ≡ bytes.items) }
    {
        match self.files.get(name) {
            Some(last) if last.as_slice() == bytes.as_slice() => Ok(last.share()),
            _ => {
                let bytes = owned(alloc, bytes)?;
                self.files.put(*name, bytes.share())?;
                Ok(bytes)
            }
        }
    }
}

fn owned(alloc: Global, bytes: Vec<u8>) -> Result<OwnedBytes, AllocError>
    ensures { IfOk result (λ b. b ≡ bytes.items) }
{
    match OwnedBytes::from_vec(alloc, bytes) {
        Ok(bytes) => Ok(bytes),
        Err(_) => Err(AllocError),
    }
}
