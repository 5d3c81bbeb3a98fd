//! Values from stored trees: each call makes one of what is at the front of bytes, or answers that there is none.
ghost use Rattle.std.specs.Prelude.{IfOk};
ghost use Rattle.seg_values.specs.Tree as tree;
ghost use Rattle.seg_values.specs.ValueTrees.{tree_of};
ghost use Rattle.seg_doc_bytes.specs.FrontValues.{Makes};
ghost use Rattle.seg_doc_bytes.specs.FrontReaders as read;
ghost use Rattle.seg_doc_bytes.specs.StoredTree as trees;

use crate::leaf_reader::{read_leaf, read_text};
use crate::pieces::{take_byte, take_varint};
use seg_values::{Members, OwnedValue, Values};
use std::alloc::{AllocError, Global};

/// A tree of at most this many levels.
#[cycle(read_tree)]
pub(crate) fn read_tree(
    alloc: Global,
    bytes: &mut &[u8],
    levels: u32,
) -> Result<Option<OwnedValue>, AllocError>
    ensures { IfOk result (Makes (trees.stored_tree_at levels) tree_of bytes.old.now bytes.new.now) }
{
    if levels == 0 {
        return Ok(None);
    }
    let Some(tag) = take_byte(bytes) else {
        return Ok(None);
    };
    match tag {
        10 => read_array(alloc, bytes, levels - 1),
        11 => read_object(alloc, bytes, levels - 1),
        _ => read_leaf(alloc, bytes, tag),
    }
}

/// Trees after their number.
#[cycle(read_tree)]
fn read_array(
    alloc: Global,
    bytes: &mut &[u8],
    levels: u32,
) -> Result<Option<OwnedValue>, AllocError>
    ensures { IfOk result (Makes
        (λ b. read.made_of (λ ts. tree.array (tree.trees_from ts)) (read.counted_at (trees.stored_tree_at levels) b))
        tree_of bytes.old.now bytes.new.now) }
{
    let Some(count) = take_varint(bytes) else {
        return Ok(None);
    };
    let mut values = Values::new(alloc);
    for _ in 0..count {
        let Some(value) = read_tree(alloc, bytes, levels)? else {
            return Ok(None);
        };
        values.push(value)?;
    }
    Ok(Some(OwnedValue::Array(values)))
}

/// Keys with their trees, after their number.
#[cycle(read_tree)]
fn read_object(
    alloc: Global,
    bytes: &mut &[u8],
    levels: u32,
) -> Result<Option<OwnedValue>, AllocError>
    ensures { IfOk result (Makes
        (λ b. read.made_of (λ ms. tree.object (tree.members_from ms))
        (read.counted_at (trees.member_at (trees.stored_tree_at levels)) b))
        tree_of bytes.old.now bytes.new.now) }
{
    let Some(count) = take_varint(bytes) else {
        return Ok(None);
    };
    let mut members = Members::new(alloc);
    for _ in 0..count {
        let Some(key) = read_text(alloc, bytes)? else {
            return Ok(None);
        };
        let Some(value) = read_tree(alloc, bytes, levels)? else {
            return Ok(None);
        };
        members.push(key, value)?;
    }
    Ok(Some(OwnedValue::Object(members)))
}
