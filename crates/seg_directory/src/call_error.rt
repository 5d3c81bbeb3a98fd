//! The error of an index that a failing call of its directory brings about.
ghost use Rattle.std.specs.Prelude.{◌≡◌};
ghost use Rattle.seg_directory.specs.Errors.{error_of, fault_of};

use crate::{CallKind, DirectoryError};
use seg_common::FileName;
use seg_values::TantivyError;

/// What a failing call of a kind, on a file of this name, is told as.
pub(crate) fn call_error(call: CallKind, name: FileName, error: DirectoryError) -> TantivyError
    ensures { result ≡ error_of call name error }
{
    match error {
        DirectoryError::Missing => TantivyError::DataCorruption { name },
        DirectoryError::Exists => TantivyError::IndexAlreadyExists,
        DirectoryError::Fault => fault_error(call),
        DirectoryError::OutOfMemory => TantivyError::OutOfMemory,
    }
}

fn fault_error(call: CallKind) -> TantivyError
    ensures { result ≡ fault_of call }
{
    match call {
        CallKind::List | CallKind::OpenRead => TantivyError::OpenReadError,
        CallKind::WriteNew => TantivyError::OpenWriteError,
        CallKind::AtomicWrite | CallKind::SyncDirectory => TantivyError::IoError,
    }
}
