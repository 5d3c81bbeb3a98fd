//! Why no part of a meta was read.

use std::alloc::AllocError;

/// Why no part of a meta was read.
#[derive(Clone, Copy, Debug, PartialEq, Eq)]
pub enum ReadError {
    /// The JSON value is no such part.
    NoMeta,
    OutOfMemory,
}

impl From<AllocError> for ReadError {
    ghost use Rattle.std.specs.Prelude.{◌≡◌};
    ghost use Rattle.seg_meta.specs.declared.read_error.ReadError.TheVariants.{OutOfMemory};

    ghost from_gives = { λ _ e. e ≡ OutOfMemory };

    fn from(_e: AllocError) -> ReadError {
        ReadError::OutOfMemory
    }
}
