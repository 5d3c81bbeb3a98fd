//! How many nodes are below each.
ghost use Rattle.std.specs.Prelude.{IfOk};
ghost use Rattle.seg_paths.specs.Slots.{AreSizes, AreSlots};

use std::alloc::{AllocError, Global};

/// The size of each slot. What is below a node has greater numbers, so the sizes are added from the last node on.
pub(crate) fn subtree_sizes(alloc: Global, slots: &[usize]) -> Result<Vec<usize>, AllocError>
    requires { AreSlots slots.now }
    ensures { IfOk result (λ sizes. AreSizes slots.now sizes.items) }
{
    let mut sizes = vec![in alloc; 1; slots.len() + 1]?;
    sizes[0] = 0;
    let mut left = slots.len();
    while left > 0 {
        let size = sizes[left];
        left -= 1;
        let slot = slots[left];
        sizes[slot] += size;
    }
    Ok(sizes)
}
