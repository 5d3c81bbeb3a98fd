//! Why a call on a term dictionary fails.

use std::alloc::AllocError;
use thiserror::Error;

/// Why a call on a term dictionary fails.
#[derive(Clone, Copy, Debug, PartialEq, Eq, Error)]
pub enum TermDictError {
    /// The bytes are of another version of the format.
    #[error("unknown version of a term dictionary")]
    WrongVersion,
    /// The bytes are of another form than the list.
    #[error("unknown type of a term dictionary")]
    WrongType,
    /// The bytes are no dictionary.
    #[error("malformed term dictionary")]
    Malformed,
    /// A key isn't greater than the one before it.
    #[error("keys out of order")]
    OutOfOrder,
    #[error("not enough memory")]
    OutOfMemory,
}

impl From<AllocError> for TermDictError {
    ghost use Rattle.std.specs.Prelude.{◌≡◌};
    ghost use Rattle.seg_termdict.specs.declared.error.TermDictError.TheVariants.{OutOfMemory};

    ghost from_gives = { λ _ e. e ≡ OutOfMemory };

    fn from(_refused: AllocError) -> TermDictError {
        TermDictError::OutOfMemory
    }
}
