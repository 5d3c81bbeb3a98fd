//! The ranks of nodes, by those of the nodes that they are below.
ghost use Rattle.std.specs.Prelude.{◌≡◌, ◌≤◌, ◌^◌, IfOk, length};
ghost use Rattle.seg_paths.specs.Slots.{ArePlaced, AreSlots, HaveRoom, base};

use std::alloc::{AllocError, Global};

/// The rank of each node.
pub(crate) fn placed(
    alloc: Global,
    slots: &[usize],
    offsets: &[usize],
) -> Result<Vec<u32>, AllocError>
    requires slots { AreSlots slots.now }
    requires few { length slots.now ≤ 2 ^ 32 }
    requires many { length offsets.now ≡ length slots.now }
    requires room { HaveRoom slots.now offsets.now }
    ensures { IfOk result (λ ranks. ArePlaced slots.now offsets.now ranks.items) }
{
    let mut ranks = Vec::with_capacity(alloc, slots.len())?;
    for number in 0..slots.len() {
        let rank = base(&ranks, slots[number]) + offsets[number];
        ranks.push(rank as u32)?;
    }
    Ok(ranks)
}

/// The rank of a slot.
fn base(ranks: &[u32], slot: usize) -> usize
    requires { slot ≤ length ranks.now }
    ensures { result ≡ base ranks.now slot }
{
    if slot == 0 {
        0
    } else {
        ranks[slot - 1] as usize
    }
}
