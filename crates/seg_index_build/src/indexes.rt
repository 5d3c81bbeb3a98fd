//! The two indexes that are built: how they are begun, and the merge of one into the other.
ghost use Rattle.std.specs.Prelude.{IfOk};
ghost use Rattle.seg_meta.specs.SavableMetas.{IsMetaList};
ghost use Rattle.seg_meta.specs.MetaMeaning.{meta_of};
ghost use Rattle.seg_index_build.specs.DirectoryCalls.{BeginsIndexes};
ghost use Rattle.seg_index_build.specs.MergeAnswers.{IsMergedAs};
ghost use Rattle.seg_index_build.specs.MergePlans.{planned};
ghost use Rattle.seg_index_build.specs.MergedSegments.{AreMerged, IsReadBack, MergesLive};
ghost use Rattle.seg_index_build.specs.TwoDirectories.{both};

use crate::filtered_merge::merge_filtered_segments;
use crate::index_files::begin_index;
use crate::merge_plan::MergePlan;
use seg_check::BuildInputRef;
use seg_directory::{Directory, expect_no_files};
use seg_meta::{Index, IndexMeta, metas_read_back};
use seg_values::{TResult, TantivyError};
use std::alloc::Global;

/// Refuses directories that have files, and begins the work index.
pub(crate) fn begin_indexes<W: Directory, O: Directory>(
    alloc: Global,
    input: &BuildInputRef<'_>,
    work: &mut W,
    output: &mut O,
) -> TResult<()>
    ensures { BeginsIndexes input.now.settings input.now.schema result
        (both (W.state work.old) (O.state output.old)) (both (W.state work.new) (O.state output.new)) }
{
    match expect_no_files(alloc, work) {
        Ok(()) => {}
        Err(e) => return Err(e),
    }
    match expect_no_files(alloc, output) {
        Ok(()) => {}
        Err(e) => return Err(e),
    }
    begin_index(alloc, input.schema, input.settings, work)
}

/// Merges the segments of the work index, which was filled, into the output index, as the work directory answers them.
/// The output index is begun before the first of them is opened.
pub(crate) fn merge_work<W: Directory, O: Directory>(
    alloc: Global,
    metas: IndexMeta,
    plan: MergePlan,
    work: &mut W,
    output: &mut O,
) -> TResult<Index>
    requires list { IsMetaList metas.segments }
    requires merged { AreMerged (planned metas plan) }
    ensures read { IsReadBack (meta_of metas) }
    ensures built { IfOk result (λ built. IsMergedAs (planned metas plan)
        (both (W.state work.old) (O.state output.old)) (both (W.state work.new) (O.state output.new)) (meta_of built)) }
    ensures does { MergesLive (planned metas plan) result
        (both (W.state work.old) (O.state output.old)) (both (W.state work.new) (O.state output.new)) }
{
    metas_read_back(&metas);
    let Ok(segments) = Index::from_metas(metas).searchable_segments(alloc) else {
        return Err(TantivyError::OutOfMemory);
    };
    merge_filtered_segments(
        alloc,
        &segments,
        plan.settings,
        plan.filters,
        plan.id,
        work,
        output,
    )
}
