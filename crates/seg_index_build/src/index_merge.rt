//! The merge of indices into one.
ghost use Rattle.std.specs.Prelude.{◌≡◌, map, length};
ghost use Rattle.seg_meta.specs.MetaMeaning.{meta_of, settings_of};
ghost use Rattle.seg_open.specs.Answers.{seen_as};
ghost use Rattle.seg_index_build.specs.MergeOutcomes.{IndexMergeComesTo};
ghost use Rattle.seg_index_build.specs.MergedIndices.{MergesAlike, MergesIndices, MergesSources, asked_of_index, first_settings, indices_input, places, unfiltered};
ghost use Rattle.seg_index_build.specs.MergedSegments.{AreMerged, merge_input};

use crate::source_readers::open_indices;
use crate::source_segments::{all_segments, have_settings, no_filters};
use crate::{begin_index, check_segments, fill_output};
use seg_common::SegmentId;
use seg_directory::Directory;
use seg_merger::IndexMerger;
use seg_meta::{Index, IndexSettings, Segment, id_fits};
use seg_values::{ArgumentCause, TResult, TantivyError};
use std::alloc::Global;

/// Merges indices into an index of one segment of this id in the directory `output`, which has no file yet: of each
/// segment the documents that are alive, one segment after another, one index after another. The segments of each index
/// are read from the source at its place; one of which the meta counts no live document is not read. The output has the
/// settings of the first index.
///
/// Refusals come in this order: `NoIndices`; `DifferentSettings`; `NoSegments`; `DifferentSchemas`; `Settings`. Then
/// all is done as by `merge_filtered_segments`.
pub fn merge_indices<W: Directory, O: Directory>(
    alloc: Global,
    indices: &[Index],
    sources: &mut [W],
    id: SegmentId,
    output: &mut O,
) -> TResult<Index>
    requires many { length sources.old ≡ length indices.now }
    ensures { IndexMergeComesTo indices.now id result
        (places (map W.state sources.old) (O.state output.old))
        (places (map W.state sources.new) (O.state output.new)) }
{
    id_fits(&id);
    compare_and_merge(alloc, indices, sources, id, output)
}

/// Merges indices, once their settings were compared.
fn compare_and_merge<W: Directory, O: Directory>(
    alloc: Global,
    indices: &[Index],
    sources: &mut [W],
    id: SegmentId,
    output: &mut O,
) -> TResult<Index>
    requires many { length sources.old ≡ length indices.now }
    ensures { MergesIndices indices.now id (seen_as (λ merged. meta_of merged) result)
        (places (map W.state sources.old) (O.state output.old))
        (places (map W.state sources.new) (O.state output.new)) }
{
    let Some(first) = indices.first() else {
        return Err(TantivyError::InvalidArgument(ArgumentCause::NoIndices));
    };
    if !have_settings(indices, first.settings()) {
        return Err(TantivyError::InvalidArgument(ArgumentCause::DifferentSettings));
    }
    merge_alike(alloc, indices, first.settings(), sources, id, output)
}

/// Merges indices that have these settings.
fn merge_alike<W: Directory, O: Directory>(
    alloc: Global,
    indices: &[Index],
    settings: &IndexSettings,
    sources: &mut [W],
    id: SegmentId,
    output: &mut O,
) -> TResult<Index>
    requires many { length sources.old ≡ length indices.now }
    requires settings { settings_of settings.now ≡ first_settings indices.now }
    ensures { MergesAlike indices.now id (seen_as (λ merged. meta_of merged) result)
        (places (map W.state sources.old) (O.state output.old))
        (places (map W.state sources.new) (O.state output.new)) }
{
    let Ok(segments) = all_segments(alloc, indices) else {
        return Err(TantivyError::OutOfMemory);
    };
    let Ok(filters) = no_filters(alloc, &segments) else {
        return Err(TantivyError::OutOfMemory);
    };
    match check_segments(&segments, settings, &filters) {
        Ok(()) => merge_checked(alloc, indices, &segments, settings, sources, id, output),
        Err(e) => Err(e),
    }
}

/// Merges indices whose segments nothing refuses.
fn merge_checked<W: Directory, O: Directory>(
    alloc: Global,
    indices: &[Index],
    segments: &[Segment],
    settings: &IndexSettings,
    sources: &mut [W],
    id: SegmentId,
    output: &mut O,
) -> TResult<Index>
    requires many { length sources.old ≡ length indices.now }
    requires is { merge_input segments.now settings.now (unfiltered segments.now) id ≡ indices_input indices.now id }
    requires merged { AreMerged (merge_input segments.now settings.now (unfiltered segments.now) id) }
    ensures { MergesSources (indices_input indices.now id) (map asked_of_index indices.now)
        (seen_as (λ merged. meta_of merged) result)
        (places (map W.state sources.old) (O.state output.old))
        (places (map W.state sources.new) (O.state output.new)) }
{
    let schema = segments[0].schema();
    match begin_index(alloc, schema, settings, output) {
        Ok(()) => {}
        Err(e) => return Err(e),
    }
    let readers = match open_indices(alloc, indices, sources) {
        Ok(readers) => readers,
        Err(e) => return Err(e),
    };
    let merger = match IndexMerger::from_readers(alloc, schema.share(), readers) {
        Ok(merger) => merger,
        Err(e) => return Err(e),
    };
    fill_output(alloc, segments, settings, id, merger, output)
}
