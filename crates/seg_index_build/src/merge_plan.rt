//! What the merge of the work segments needs of an input.
ghost use Rattle.std.specs.Prelude.{◌≡◌, ◌≤◌, length, IfOk};
ghost use Rattle.seg_index_build.specs.MergePlans.{IsMergePlan};
ghost use Rattle.seg_index_build.specs.IndexFiles.{output_id, work_ids};

use seg_bits::AliveBitSet;
use seg_check::{BuildInput, BuildInputRef};
use seg_common::SegmentId;
use seg_meta::IndexSettings;
use std::alloc::{AllocError, Global};

/// The settings of the output index, the filters of the work segments, and the id of the output segment.
#[derive(Drop)]
pub(crate) struct MergePlan {
    pub settings: IndexSettings,
    pub filters: Vec<Option<AliveBitSet>>,
    pub id: SegmentId,
}

/// What the merge needs of an input. All else is released.
pub(crate) fn plan_of(input: BuildInput) -> MergePlan
    requires { 2 ≤ length input.ids }
    ensures { IsMergePlan input result }
{
    let BuildInput {
        schema: _,
        settings,
        operations: _,
        cuts: _,
        filters,
        ids,
    } = input;
    let (_, id) = split_ids(&ids);
    MergePlan {
        settings,
        filters,
        id,
    }
}

/// What it needs of one that is lent.
pub(crate) fn copied_plan(alloc: Global, input: &BuildInputRef<'_>) -> Result<MergePlan, AllocError>
    requires { 2 ≤ length input.now.ids }
    ensures { IfOk result (IsMergePlan input.now) }
{
    let (_, id) = split_ids(input.ids);
    let filters = copied_filters(alloc, input.filters)?;
    Ok(MergePlan {
        settings: *input.settings,
        filters,
        id,
    })
}

/// The ids of the work segments, and the last id, of the output segment.
pub(crate) fn split_ids(ids: &[SegmentId]) -> (&[SegmentId], SegmentId)
    requires { 2 ≤ length ids.now }
    ensures work { result.0.now ≡ work_ids ids.now }
    ensures output { result.1 ≡ output_id ids.now }
{
    let last = ids.len() - 1;
    (&ids[..last], ids[last])
}

/// The filters again. They share their bytes.
fn copied_filters(
    alloc: Global,
    filters: &[Option<AliveBitSet>],
) -> Result<Vec<Option<AliveBitSet>>, AllocError>
    ensures { IfOk result (λ copy. copy.items ≡ filters.now) }
{
    let mut copy = Vec::new(alloc);
    for filter in filters {
        copy.push(filter.clone()?)?;
    }
    Ok(copy)
}
