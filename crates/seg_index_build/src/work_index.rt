//! The work index: the segments of the batches, their alive files, and the meta.
ghost use Rattle.std.specs.Prelude.{◌≡◌, ◌<◌, ◌^◌, true, map, length, IfOk};
ghost use Rattle.seg_directory.specs.DirectorySteps.{Works};
ghost use Rattle.seg_meta.specs.MetaMeaning.{meta_of, settings_of};
ghost use Rattle.seg_model.specs.ValidInputs.{are_distinct};
ghost use Rattle.seg_index_build.specs.DirectoryCalls.{WritesWork};
ghost use Rattle.seg_index_build.specs.IndexFiles.{work_meta};
ghost use Rattle.seg_index_build.specs.TwoDirectories.{both};
ghost use Rattle.seg_index_build.specs.WorkIndexSteps.{FinishesIndex, listing_meta};
ghost use Rattle.seg_index_build.specs.IndexWriteSteps.{publish_steps};

use crate::index_files::save_index;
use crate::indexes::begin_indexes;
use crate::merge_plan::split_ids;
use crate::metas::work_metas;
use seg_batches::{WrittenSegment, list_segments, write_alive_files, write_batches};
use seg_check::{BuildInputRef, check_input};
use seg_directory::Directory;
use seg_meta::{IndexMeta, IndexSettings};
use seg_tokens::Analyzers;
use seg_values::{Schema, TResult, TantivyError};
use std::alloc::Global;

/// Checks an input, and writes its work index, where neither directory has a file: the segment of each batch, then the
/// alive file of each of which deletes remove a document, and then the meta, whose stamp is the number of operations.
pub(crate) fn write_work_index<Z: Analyzers, W: Directory, O: Directory>(
    alloc: Global,
    input: &BuildInputRef<'_>,
    analyzers: &Z,
    work: &mut W,
    output: &mut O,
) -> TResult<IndexMeta>
    ensures meta { IfOk result (λ metas. meta_of metas ≡ work_meta (Z.tokens_of analyzers.now) input.now) }
    ensures does { WritesWork (Z.knows analyzers.now) (Z.tokens_of analyzers.now) input.now result
        (both (W.state work.old) (O.state output.old)) (both (W.state work.new) (O.state output.new)) }
{
    match check_input(alloc, analyzers, input) {
        Ok(()) => {}
        Err(e) => return Err(e),
    }
    match begin_indexes(alloc, input, work, output) {
        Ok(()) => {}
        Err(e) => return Err(e),
    }
    let (ids, _) = split_ids(input.ids);
    let segments = match write_batches(
        alloc,
        input.schema,
        input.settings,
        analyzers,
        input.operations,
        input.cuts,
        ids,
        work,
    ) {
        Ok(segments) => segments,
        Err(e) => return Err(e),
    };
    let stamp = input.operations.len() as u64;
    finish_work_index(alloc, input.schema, input.settings, stamp, &segments, work)
}

/// Finishes an index whose segments are written: writes their alive files, and then the meta.
fn finish_work_index<W: Directory>(
    alloc: Global,
    schema: &Schema,
    settings: &IndexSettings,
    stamp: u64,
    segments: &[WrittenSegment],
    work: &mut W,
) -> TResult<IndexMeta>
    requires few { length segments.now < 2 ^ 32 }
    requires distinct { are_distinct (map (λ s. s.id) segments.now) ≡ true }
    ensures meta { IfOk result (λ metas. meta_of metas
        ≡ listing_meta (settings_of settings.now) schema.now stamp segments.now) }
    ensures does { FinishesIndex (settings_of settings.now) schema.now stamp segments.now result
        (W.state work.old) (W.state work.new) }
{
    match write_alive_files(alloc, stamp, segments, work) {
        Ok(()) => {}
        Err(e) => return Err(e),
    }
    save_work_index(alloc, schema, settings, stamp, segments, work)
}

/// Saves the meta of an index of segments whose files are written.
fn save_work_index<W: Directory>(
    alloc: Global,
    schema: &Schema,
    settings: &IndexSettings,
    stamp: u64,
    segments: &[WrittenSegment],
    work: &mut W,
) -> TResult<IndexMeta>
    requires few { length segments.now < 2 ^ 32 }
    requires distinct { are_distinct (map (λ s. s.id) segments.now) ≡ true }
    ensures meta { IfOk result (λ metas. meta_of metas
        ≡ listing_meta (settings_of settings.now) schema.now stamp segments.now) }
    ensures works { Works (publish_steps (listing_meta (settings_of settings.now) schema.now stamp segments.now)) result
        (W.state work.old)
        (W.state work.new) }
{
    let Ok(listed) = list_segments(alloc, stamp, segments) else {
        return Err(TantivyError::OutOfMemory);
    };
    let metas = work_metas(schema, settings, stamp, listed);
    match save_index(alloc, &metas, work) {
        Ok(()) => Ok(metas),
        Err(e) => Err(e),
    }
}
