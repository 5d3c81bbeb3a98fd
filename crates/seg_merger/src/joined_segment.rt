//! Segments, joined to one.
ghost use Rattle.std.specs.Prelude.{◌≡◌, ◌<◌, ◌^◌, ℕ, map, IfErr, IfOk};
ghost use Rattle.std.specs.List.{AllByRecursion};
ghost use Rattle.seg_column_merge.specs.MergedColumns.{MergeFails};
ghost use Rattle.seg_model.specs.Join.{joined_columns};
ghost use Rattle.seg_segment.specs.SegmentSerializers.{unfilled};
ghost use Rattle.seg_open.specs.OpenSegment.{IsOfSchema, kept_count, part_of};
ghost use Rattle.seg_merger.specs.JoinedSegment.{IsJoined};

use crate::joined_columns::join_columns;
use crate::joined_norms::join_norms;
use crate::joined_store::join_stores;
use crate::joined_terms::join_terms;
use seg_columns::ColumnError;
use seg_open::SegmentReader;
use seg_segment::SegmentSerializer;
use std::alloc::Global;

/// Fills the serializer of a segment with the documents of segments that are alive, one segment after another.
pub(crate) fn join_into(
    alloc: Global,
    serializer: SegmentSerializer,
    parts: &[SegmentReader],
) -> Result<SegmentSerializer, ColumnError>
    requires fresh { (block_size : ℕ) × (serializer ≡ unfilled serializer.segment block_size) }
    requires parts { AllByRecursion (IsOfSchema serializer.segment.schema) parts.now }
    requires few { kept_count parts.now < 2 ^ 31 }
    ensures ok { IfOk result (λ filled. (block_size : ℕ) → serializer ≡ unfilled serializer.segment block_size
        → IsJoined serializer.segment block_size parts.now filled) }
    ensures err { IfErr result (MergeFails (joined_columns serializer.segment.schema (map part_of parts.now))) }
{
    let (segment, mut store) = serializer.into_store();
    let Ok(norms) = join_norms(alloc, segment.schema(), parts) else {
        return Err(ColumnError::OutOfMemory);
    };
    let fast = match join_columns(alloc, segment.schema(), parts) {
        Ok(fast) => fast,
        Err(error) => return Err(error),
    };
    let Ok(postings) = join_terms(alloc, segment.schema(), parts) else {
        return Err(ColumnError::OutOfMemory);
    };
    let Ok(()) = join_stores(parts, &mut store) else {
        return Err(ColumnError::OutOfMemory);
    };
    Ok(SegmentSerializer::from_parts(alloc, segment, postings, store, fast, norms))
}
