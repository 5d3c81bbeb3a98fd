//! Why the cases can't be run.

use seg_common::CommonError;
use seg_directory::DirectoryError;
use std::alloc::{AllocError, AllocFailed};
use std::io;

/// Why the cases can't be run.
#[derive(Clone, Copy, Debug)]
pub(crate) enum Failure {
    OutOfMemory,
    /// A file can't be read, or the text can't be printed.
    Io(io::Error),
    /// The files of a case aren't those of one: why.
    Case(&'static str),
}

impl From<AllocError> for Failure {
    fn from(_e: AllocError) -> Failure {
        Failure::OutOfMemory
    }
}

impl<T: Drop> From<AllocFailed<T>> for Failure {
    fn from(_e: AllocFailed<T>) -> Failure {
        Failure::OutOfMemory
    }
}

impl From<io::Error> for Failure {
    fn from(e: io::Error) -> Failure {
        Failure::Io(e)
    }
}

impl From<CommonError> for Failure {
    fn from(_e: CommonError) -> Failure {
        Failure::OutOfMemory
    }
}

impl From<DirectoryError> for Failure {
    fn from(_e: DirectoryError) -> Failure {
        Failure::OutOfMemory
    }
}
