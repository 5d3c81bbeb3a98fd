//! Making the files of several components of a segment.
ghost use Rattle.seg_directory.specs.DirectorySteps.{Works};
ghost use Rattle.seg_segment.specs.SegmentFiles.{component_steps};

use crate::segment_files::SegmentFiles;
use seg_common::{FileName, SegmentComponent, SegmentId};
use seg_directory::{Directory, write_file};
use seg_values::TResult;
use std::alloc::Global;

/// Makes the files of components, one after the other, up to the first that is not made.
pub(crate) fn write_components<W: Directory>(
    alloc: Global,
    directory: &mut W,
    id: SegmentId,
    files: &SegmentFiles,
    components: &[SegmentComponent],
) -> TResult<()>
    ensures { Works (component_steps id files.now components.now) result
        (W.state directory.old) (W.state directory.new) }
{
    for component in components {
        let name = FileName::Part(id, *component);
        if let Err(e) = write_file(alloc, directory, name, files.of_component(*component)) {
            return Err(e);
        }
    }
    Ok(())
}
