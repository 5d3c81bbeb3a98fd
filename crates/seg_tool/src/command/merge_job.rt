//! `merge`: from the segments of the work index to an output index of one segment, and to its text.
ghost use Rattle.std.specs.Prelude.{◌≡◌, map, None, IfOk};
ghost use Rattle.seg_index_build.specs.TwoDirectories.{both};
ghost use Rattle.seg_open.specs.Answers.{seen_as};
ghost use Rattle.seg_tool.specs.Words.MergeJob.{MergesText, MergesWork};

use crate::printed_index::print_index;
use crate::words::Detail;
use seg_bits::AliveBitSet;
use seg_common::SegmentId;
use seg_directory::Directory;
use seg_index_build::merge_filtered_segments;
use seg_meta::{Index, Segment};
use seg_values::{TResult, TantivyError};
use std::alloc::{AllocError, Global};

/// Merges the segments of the work index, and answers what is then printed of the output index.
pub(crate) fn merge_and_print<W: Directory, O: Directory>(
    alloc: Global,
    work: &mut W,
    output: &mut O,
) -> TResult<Vec<u8>>
    ensures { MergesText (seen_as (λ t. t.items) result)
        (both (W.state work.old) (O.state output.old)) (both (W.state work.new) (O.state output.new)) }
{
    let _index = match merge(alloc, work, output) {
        Ok(index) => index,
        Err(e) => return Err(e),
    };
    print_index(alloc, Vec::new(alloc), "output", Detail::Brief, output)
}

/// Merges the segments of the index in the work directory, with its settings and no filter, into an index of one
/// segment in the output directory, whose id has 32 digits f.
fn merge<W: Directory, O: Directory>(alloc: Global, work: &mut W, output: &mut O) -> TResult<Index>
    ensures { MergesWork result
        (both (W.state work.old) (O.state output.old)) (both (W.state work.new) (O.state output.new)) }
{
    let index = match Index::open(alloc, work) {
        Ok(index) => index,
        Err(e) => return Err(e),
    };
    let Ok(segments) = index.searchable_segments(alloc) else {
        return Err(TantivyError::OutOfMemory);
    };
    let Ok(filters) = no_filters(alloc, &segments) else {
        return Err(TantivyError::OutOfMemory);
    };
    let id = SegmentId::from_u128(u128::MAX);
    merge_filtered_segments(
        alloc,
        &segments,
        *index.settings(),
        filters,
        id,
        work,
        output,
    )
}

/// No filter for any segment.
fn no_filters(alloc: Global, segments: &[Segment]) -> Result<Vec<Option<AliveBitSet>>, AllocError>
    ensures { IfOk result (λ filters. filters.items ≡ map (λ _. None) segments.now) }
{
    let mut filters = Vec::new(alloc);
    for _segment in segments {
        filters.push(None)?;
    }
    Ok(filters)
}
