//! Why a segment can't be opened.
ghost use Rattle.std.specs.Prelude.{◌≡◌};
ghost use Rattle.seg_open.specs.OpeningSteps.{error_of};

use seg_common::{FileName, SegmentComponent, SegmentId};
use seg_values::TantivyError;

/// Why a segment can't be opened: the file of a component doesn't agree with those before it, or there is no memory.
#[derive(Clone, Copy, Debug, PartialEq, Eq)]
pub enum OpenError {
    Damaged(SegmentComponent),
    OutOfMemory,
}

impl OpenError {
    /// What is told of the segment of an id that can't be opened.
    pub fn of_segment(self, id: SegmentId) -> TantivyError
        ensures { result ≡ error_of id self }
    {
        match self {
            OpenError::Damaged(component) => TantivyError::DataCorruption {
                name: FileName::Part(id, component),
            },
            OpenError::OutOfMemory => TantivyError::OutOfMemory,
        }
    }
}
