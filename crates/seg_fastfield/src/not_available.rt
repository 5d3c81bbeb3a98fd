//! What a caller is told where a field has no column.
ghost use Rattle.std.specs.Prelude.{◌≡◌, IfOk, IfErr};

use seg_values::{FieldEntry, TResult, TantivyError};
use std::alloc::Global;
use std::marker::Model;
use thiserror::Error;

pub type Result<R> = std::result::Result<R, FastFieldNotAvailableError>;

/// A field isn't fast, or its column isn't there: the name of the field.
#[derive(Debug, Drop, Error)]
#[error("Fast field not available: '{field_name:?}'")]
pub struct FastFieldNotAvailableError {
    field_name: String,
}

impl Model for FastFieldNotAvailableError {
    ghost use Rattle.std.specs.Prelude.{List, ℕ, string_bytes};

    ghost Value = { List ℕ };

    ghost view = { λ e. string_bytes e.field_name };
}

impl FastFieldNotAvailableError {
    pub fn new(alloc: Global, entry: &FieldEntry) -> TResult<FastFieldNotAvailableError>
        ensures ok { IfOk result (λ e. e ≡ entry.now.name) }
        ensures err { IfErr result (λ e. e ≡ TantivyError.OutOfMemory) }
    {
        let field_name = String::from_str(alloc, entry.name.as_str())?;
        Ok(FastFieldNotAvailableError { field_name })
    }
}
