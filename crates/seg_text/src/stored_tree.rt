//! Stored values, as JSON: each call prints what is at the front of bytes, or gives up.
//!
//! It gives up at an object whose keys don't strictly ascend: such an object is printed in another order than it is
//! stored.
ghost use Rattle.std.specs.Prelude.{◌≡◌, IfOk};
ghost use Rattle.serde_json.specs.Written.{compact_text};
ghost use Rattle.seg_doc_bytes.specs.FrontReaders as read;
ghost use Rattle.seg_doc_bytes.specs.StoredTree as trees;
ghost use Rattle.seg_values.specs.Tree as tree;
ghost use Rattle.seg_values.specs.ValueJson.{value_json};
ghost use Rattle.seg_text.specs.PrintedFronts.{Prints, is_after};

use crate::comma::push_comma_if;
use crate::quoted_text::push_quoted;
use crate::stored_leaf::push_stored_leaf;
use seg_doc_bytes::{take_byte, take_text, take_varint};
use std::alloc::{AllocError, Global};

/// A tree of at most this many levels.
#[cycle(push_stored_tree)]
pub(crate) fn push_stored_tree(
    out: &mut Vec<u8>,
    alloc: Global,
    bytes: &mut &[u8],
    levels: u32,
) -> Result<Option<()>, AllocError>
    ensures { IfOk result (Prints (trees.stored_tree_at levels)
        (λ t. compact_text (value_json t)) bytes.old.now bytes.new.now out.old.items out.new.items) }
{
    if levels == 0 {
        return Ok(None);
    }
    let Some(tag) = take_byte(bytes) else {
        return Ok(None);
    };
    match tag {
        10 => push_stored_array(out, alloc, bytes, levels - 1),
        11 => push_stored_object(out, alloc, bytes, levels - 1),
        _ => push_stored_leaf(out, alloc, bytes, tag),
    }
}

/// Trees after their number.
#[cycle(push_stored_tree)]
fn push_stored_array(
    out: &mut Vec<u8>,
    alloc: Global,
    bytes: &mut &[u8],
    levels: u32,
) -> Result<Option<()>, AllocError>
    ensures { IfOk result (Prints (read.counted_at (trees.stored_tree_at levels))
        (λ ts. compact_text (value_json (tree.array (tree.trees_from ts))))
        bytes.old.now bytes.new.now out.old.items out.new.items) }
{
    let Some(count) = take_varint(bytes) else {
        return Ok(None);
    };
    out.push(b'[')?;
    let mut later = false;
    for _ in 0..count {
        push_comma_if(out, later)?;
        let Some(()) = push_stored_tree(out, alloc, bytes, levels)? else {
            return Ok(None);
        };
        later = true;
    }
    out.push(b']')?;
    Ok(Some(()))
}

/// Keys with their trees, after their number.
#[cycle(push_stored_tree)]
fn push_stored_object(
    out: &mut Vec<u8>,
    alloc: Global,
    bytes: &mut &[u8],
    levels: u32,
) -> Result<Option<()>, AllocError>
    ensures { IfOk result (Prints (read.counted_at (trees.member_at (trees.stored_tree_at levels)))
        (λ ms. compact_text (value_json (tree.object (tree.members_from ms))))
        bytes.old.now bytes.new.now out.old.items out.new.items) }
{
    let Some(count) = take_varint(bytes) else {
        return Ok(None);
    };
    out.push(b'{')?;
    let mut later = false;
    let mut last = "";
    for _ in 0..count {
        let Some(key) = take_text(bytes) else {
            return Ok(None);
        };
        if !is_after(later, last, key) {
            return Ok(None);
        }
        push_comma_if(out, later)?;
        push_quoted(out, alloc, key)?;
        out.push(b':')?;
        let Some(()) = push_stored_tree(out, alloc, bytes, levels)? else {
            return Ok(None);
        };
        later = true;
        last = key;
    }
    out.push(b'}')?;
    Ok(Some(()))
}

/// Whether a key is above the last one, if there is one.
fn is_after(later: bool, last: &str, key: &str) -> bool
    ensures { result ≡ is_after later last.now key.now }
{
    if !later {
        return true;
    }
    last < key
}
