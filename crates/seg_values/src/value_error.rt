//! Why a value is refused.

use std::alloc::AllocError;
use thiserror::Error;

/// Why a value is refused, or not made.
#[derive(Clone, Copy, Debug, PartialEq, Eq, Error)]
pub enum ValueError {
    /// The value is a number with a fraction.
    #[error("a number that is not whole")]
    Float,
    #[error("malformed")]
    Malformed,
    #[error("no such field")]
    UnknownField,
    #[error("not enough memory")]
    OutOfMemory,
}

impl From<AllocError> for ValueError {
    ghost use Rattle.std.specs.Prelude.{◌≡◌};
    ghost use Rattle.seg_values.specs.declared.value_error.ValueError.TheVariants.{OutOfMemory};

    ghost from_gives = { λ _ e. e ≡ OutOfMemory };

    fn from(_refused: AllocError) -> ValueError {
        ValueError::OutOfMemory
    }
}
