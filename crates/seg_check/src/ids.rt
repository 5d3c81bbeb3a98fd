//! The ids of the segments.
ghost use Rattle.std.specs.Prelude.{◌≡◌, IfOk};
ghost use Rattle.seg_model.specs.ValidInputs.{are_distinct, ids_fit};

use seg_common::SegmentId;
use std::alloc::{AllocError, Global};

/// Whether there is one id for each batch and one more, and none twice.
pub(crate) fn ids_fit(alloc: Global, cuts: &[usize], ids: &[SegmentId]) -> Result<bool, AllocError>
    ensures { IfOk result (λ fit. fit ≡ ids_fit cuts.now ids.now) }
{
    if ids.len() != cuts.len() + 2 {
        return Ok(false);
    }
    are_distinct(alloc, ids)
}

/// Whether no id comes twice: sorted, each is above the one before it.
fn are_distinct(alloc: Global, ids: &[SegmentId]) -> Result<bool, AllocError>
    ensures { IfOk result (λ distinct. distinct ≡ are_distinct ids.now) }
{
    let mut sorted = Vec::from_slice(alloc, ids)?;
    sorted.sort_unstable();
    Ok(sorted.is_sorted_by(|before, id| before < id))
}
