//! How far after its slot each node is.
ghost use Rattle.std.specs.Prelude.{IfOk, length};
ghost use Rattle.std.specs.List.{range_with_len};
ghost use Rattle.std.specs.List.Sorted.{IsPermutation};
ghost use Rattle.seg_paths.specs.Slots.{AreOffsets, AreSizes, AreSlots};

use std::alloc::{AllocError, Global};

/// How far after its slot each node is, where those of one slot follow one another in this order.
pub(crate) fn offsets(
    alloc: Global,
    slots: &[usize],
    sizes: &[usize],
    order: &[usize],
) -> Result<Vec<usize>, AllocError>
    requires slots { AreSlots slots.now }
    requires sizes { AreSizes slots.now sizes.now }
    requires order { IsPermutation (range_with_len 0 (length slots.now)) order.now }
    ensures { IfOk result (λ offsets. AreOffsets slots.now sizes.now order.now offsets.items) }
{
    let mut offsets = vec![in alloc; 0; slots.len()]?;
    let mut next = vec![in alloc; 1; slots.len() + 1]?;
    next[0] = 0;
    for number in order {
        let slot = slots[*number];
        let offset = next[slot];
        offsets[*number] = offset;
        next[slot] = offset + sizes[*number + 1];
    }
    Ok(offsets)
}
