//! Why postings or lengths of fields are refused.

use std::alloc::AllocError;
use thiserror::Error;

/// Why postings or lengths of fields are refused.
#[derive(Clone, Copy, Debug, PartialEq, Eq, Error)]
pub enum PostingsError {
    /// The bytes are none of that format.
    #[error("not the bytes of postings")]
    Malformed,
    #[error("not enough memory")]
    OutOfMemory,
}

impl From<AllocError> for PostingsError {
    ghost use Rattle.std.specs.Prelude.{◌≡◌};
    ghost use Rattle.seg_values.specs.declared.postings_error.PostingsError.TheVariants.{OutOfMemory};

    ghost from_gives = { λ _ e. e ≡ OutOfMemory };

    fn from(_refused: AllocError) -> PostingsError {
        PostingsError::OutOfMemory
    }
}
