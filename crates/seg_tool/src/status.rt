//! How a run went.
ghost use Rattle.std.specs.Prelude.{◌≡◌};
ghost use Rattle.seg_tool.specs.Statuses.{number_of, status_of};

use seg_values::TantivyError;

/// How a run went.
#[derive(Clone, Copy, Debug, PartialEq, Eq)]
pub enum Status {
    /// The job is done, and the whole text was written.
    Done,
    /// The words are no command.
    Words,
    /// The bytes of the source are no script.
    Script,
    /// The script is refused, or the segments that were to be merged or printed.
    Refused(TantivyError),
    /// A directory has files already.
    Exists(TantivyError),
    /// A directory failed.
    Directory(TantivyError),
    /// A file of an index was missing when it was read, or didn't agree with those read before it.
    Damaged(TantivyError),
    /// The source or the sink failed.
    Stream,
    /// There was not enough memory.
    Memory,
}

impl Status {
    /// The number with which the program ends.
    pub fn number(&self) -> u8
        ensures { result ≡ number_of self.now }
    {
        match self {
            Status::Done => 0,
            Status::Words => 2,
            Status::Script => 3,
            Status::Refused(_) => 4,
            Status::Exists(_) => 5,
            Status::Directory(_) => 6,
            Status::Damaged(_) => 7,
            Status::Stream => 8,
            Status::Memory => 9,
        }
    }
}

/// The status of an error of an index.
pub(crate) fn status_of(error: TantivyError) -> Status
    ensures { result ≡ status_of error }
{
    match error {
        TantivyError::SchemaError(_) | TantivyError::InvalidArgument(_) => Status::Refused(error),
        TantivyError::IndexAlreadyExists => Status::Exists(error),
        TantivyError::OpenReadError | TantivyError::OpenWriteError | TantivyError::IoError => {
            Status::Directory(error)
        }
        TantivyError::DataCorruption { name: _ } => Status::Damaged(error),
        _ => Status::Memory,
    }
}
