//! Why a call on a store fails.

use std::alloc::AllocError;
use thiserror::Error;

/// Why a call on a store fails.
#[derive(Clone, Copy, Debug, PartialEq, Eq, Error)]
pub enum StoreError {
    /// Blocks are to be compressed, or to be compressed by a thread of its own.
    #[error("compressed")]
    Compressed,
    /// The bytes are no store.
    #[error("malformed")]
    Malformed,
    #[error("not enough memory")]
    OutOfMemory,
}

impl From<AllocError> for StoreError {
    ghost use Rattle.std.specs.Prelude.{◌≡◌};
    ghost use Rattle.seg_store.specs.declared.error.StoreError.TheVariants.{OutOfMemory};

    ghost from_gives = { λ _ e. e ≡ OutOfMemory };

    fn from(_refused: AllocError) -> StoreError {
        StoreError::OutOfMemory
    }
}
