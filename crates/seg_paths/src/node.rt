//! A part of a path below the path before it, as the table of paths keeps it.
ghost use Rattle.std.specs.Prelude.{◌≡◌, ◌++◌, reverse, OnOk};
ghost use Rattle.seg_paths.specs.Paths.{added};
ghost use Rattle.seg_paths.specs.Slots.{slot_in};

use seg_column_format::CompositeKey;
use seg_common::PATH_SEPARATOR_BYTE;
use std::alloc::{AllocError, Global};

/// The number of the path that a part is below, unless it is at the top, and the part.
pub(crate) type PathNode = CompositeKey<Option<u32>>;

/// The slot that a node is at.
pub(crate) fn slot(node: &PathNode) -> usize
    ensures { result ≡ slot_in node.now }
{
    match node.head() {
        Some(above) => above as usize + 1,
        None => 0,
    }
}

/// Adds what a node adds to the path above it, from its end on.
pub(crate) fn push_reversed(
    alloc: Global,
    node: &PathNode,
    out: &mut Vec<u8>,
) -> Result<(), AllocError>
    ensures { OnOk result (out.new.items ≡ out.old.items ++ reverse (added node.now.head node.now.bytes)) }
{
    let mut part = Vec::from_slice(alloc, node.bytes())?;
    part.reverse();
    out.extend_from_slice(&part)?;
    if node.head().is_some() {
        out.push(PATH_SEPARATOR_BYTE)?;
    }
    Ok(())
}
