//! Why a call of an index is refused, or fails.

use crate::schema::Field;
use seg_common::FileName;
use std::alloc::AllocError;
use thiserror::Error;

pub type TResult<T> = Result<T, TantivyError>;

/// Why a call is refused, or fails.
#[derive(Clone, Copy, Debug, PartialEq, Eq, Error)]
pub enum TantivyError {
    /// The schema is refused, or does not go with what comes to it.
    #[error("the schema does not allow this: {0:?}")]
    SchemaError(SchemaCause),
    #[error("not a valid argument: {0:?}")]
    InvalidArgument(ArgumentCause),
    /// A directory listed a file, or said that a file is there.
    #[error("a directory is not empty")]
    IndexAlreadyExists,
    /// A directory could not be listed, or a file could not be read.
    #[error("list or read failed")]
    OpenReadError,
    #[error("write failed")]
    OpenWriteError,
    /// The meta could not be replaced, or a directory could not be synced.
    #[error("meta or sync failed")]
    IoError,
    /// A file is missing, or nothing agrees with it.
    #[error("damaged: {name:?}")]
    DataCorruption { name: FileName },
    /// An earlier call on this writer found no memory.
    #[error("an earlier call found no memory")]
    SystemError,
    #[error("no such field")]
    FieldNotFound,
    #[error("not enough memory")]
    OutOfMemory,
}

/// What the schema does not allow. `at` is the place of the operation, counted from 0.
#[derive(Clone, Copy, Debug, PartialEq, Eq)]
pub enum SchemaCause {
    UnknownField { at: usize },
    WrongValue { at: usize, field: Field },
    DeleteField { at: usize },
    Tokenizer { field: Field },
    DuplicateName,
    NotFacet,
    NoNorms,
    NoColumn,
}

/// Which argument is not valid. `at` is the place of the operation, counted from 0.
#[derive(Clone, Copy, Debug, PartialEq, Eq)]
pub enum ArgumentCause {
    Cuts,
    Batches,
    Filters,
    SegmentIds,
    FieldName,
    Settings,
    FastTokenizer,
    JsonLeaf { at: usize },
    JsonKey { at: usize },
    Positions { at: usize },
    Limit { at: usize },
    Documents,
    Numbers,
    Budget,
    NoSegments,
    NoIndices,
    DifferentSchemas,
    DifferentSettings,
    NotFast,
    SizeOverflow,
}

impl From<AllocError> for TantivyError {
    ghost use Rattle.std.specs.Prelude.{◌≡◌};
    ghost use Rattle.seg_values.specs.declared.error.TantivyError.TheVariants.{OutOfMemory};

    ghost from_gives = { λ _ e. e ≡ OutOfMemory };

    fn from(_e: AllocError) -> TantivyError {
        TantivyError::OutOfMemory
    }
}
