//! Why bytes are no script.

use json::Invalid;
use std::alloc::AllocError;

/// Why there is no script.
#[derive(Clone, Copy, Debug, PartialEq, Eq)]
pub enum ScriptError {
    /// The bytes are no JSON text, or their JSON value says no script.
    NotScript,
    OutOfMemory,
}

impl From<AllocError> for ScriptError {
    ghost use Rattle.std.specs.Prelude.{◌≡◌};
    ghost use Rattle.seg_script.specs.declared.error.ScriptError.TheVariants.{OutOfMemory};

    ghost from_gives = { λ _ e. e ≡ OutOfMemory };

    fn from(_e: AllocError) -> ScriptError {
        ScriptError::OutOfMemory
    }
}

impl From<Invalid> for ScriptError {
    ghost use Rattle.std.specs.Prelude.{◌≡◌};
    ghost use Rattle.seg_script.specs.declared.error.ScriptError.TheVariants.{NotScript};

    ghost from_gives = { λ _ e. e ≡ NotScript };

    fn from(_e: Invalid) -> ScriptError {
        ScriptError::NotScript
    }
}
