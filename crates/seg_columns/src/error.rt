//! Why a call on columns fails.

use std::alloc::AllocError;
use thiserror::Error;

/// Why a call on columns fails.
#[derive(Clone, Copy, Debug, PartialEq, Eq, Error)]
pub enum ColumnError {
    /// Values of several types would be in one column.
    #[error("values of several types in one column")]
    Mixed,
    /// The bytes are no column, or no file of columns.
    #[error("malformed columns")]
    Malformed,
    #[error("not enough memory")]
    OutOfMemory,
}

impl From<AllocError> for ColumnError {
    ghost use Rattle.std.specs.Prelude.{◌≡◌};
    ghost use Rattle.seg_columns.specs.declared.error.ColumnError.TheVariants.{OutOfMemory};

    ghost from_gives = { λ _ e. e ≡ OutOfMemory };

    fn from(_refused: AllocError) -> ColumnError {
        ColumnError::OutOfMemory
    }
}
