//! `show`: from the work index to its text.
ghost use Rattle.seg_directory.specs.DirectoryStates.{DirectoryState};
ghost use Rattle.seg_index_build.specs.TwoDirectories.{both};
ghost use Rattle.seg_open.specs.Answers.{seen_as};
ghost use Rattle.seg_tool.specs.Words.ShowJob.{ShowsText};

use crate::printed_index::print_index;
use crate::words::Detail;
use seg_directory::Directory;
use seg_values::{TResult, TantivyError};
use std::alloc::Global;

/// Answers what is printed of the work index in full.
pub(crate) fn show<W: Directory>(alloc: Global, work: &mut W) -> TResult<Vec<u8>>
    ensures { (output : DirectoryState)
        → ShowsText (seen_as (λ t. t.items) result)
        (both (W.state work.old) output) (both (W.state work.new) output) }
{
    print_index(alloc, Vec::new(alloc), "segment", Detail::Full, work)
}
