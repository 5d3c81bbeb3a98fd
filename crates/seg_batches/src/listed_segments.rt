//! Segments as the meta of an index lists them.
ghost use Rattle.std.specs.Prelude.{◌≡◌, IfOk};
ghost use Rattle.seg_batches.specs.WrittenSegments.{all_listed};

use crate::Opstamp;
use crate::written_segment::WrittenSegment;
use seg_meta::SegmentMetas;
use std::alloc::{AllocError, Global};

/// The segments as a meta of this stamp lists them, each with its deletes where some of its documents are not alive.
pub fn list_segments(
    alloc: Global,
    stamp: Opstamp,
    segments: &[WrittenSegment],
) -> Result<SegmentMetas, AllocError>
    ensures { IfOk result (λ listed. listed ≡ all_listed stamp segments.now) }
{
    let mut metas = SegmentMetas::new(alloc);
    for segment in segments {
        metas.push(segment.listed(stamp))?;
    }
    Ok(metas)
}
