//! Why the program doesn't end well.

use std::io;

/// Why the program doesn't end well.
#[derive(Clone, Copy, Debug)]
pub(crate) enum Failure {
    /// The text can't be printed.
    Io(io::Error),
    /// A line is missing: memory ran out, or a call refuses what it should take.
    LineMissing,
}

impl From<io::Error> for Failure {
    fn from(e: io::Error) -> Failure {
        Failure::Io(e)
    }
}

/// Memory ran out, or a call refuses what it should take.
#[derive(Clone, Copy)]
pub(crate) struct Refused;
