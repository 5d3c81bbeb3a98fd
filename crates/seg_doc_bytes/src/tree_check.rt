//! Whether stored trees are at the front of bytes: each call passes one, or answers that there is none.
//!
//! Nothing is made of them, so no memory is asked for.
ghost use Rattle.std.specs.Prelude.{◌≡◌, ◌∷◌, None};
ghost use Rattle.seg_doc_bytes.specs.FrontReaders as read;
ghost use Rattle.seg_doc_bytes.specs.StoredTree as trees;
ghost use Rattle.seg_doc_bytes.specs.PassedBytes.{Passes};

use crate::pieces::{
    take_bit, take_byte, take_front, take_number, take_sized, take_small, take_text, take_varint,
};

/// Passes a token.
fn pass_token(bytes: &mut &[u8]) -> Option<()>
    ensures { Passes trees.token_at bytes.old.now bytes.new.now result }
{
    let _ = take_varint(bytes)?;
    let _ = take_varint(bytes)?;
    let _ = take_small(bytes)?;
    let _ = take_small(bytes)?;
    let _ = take_text(bytes)?;
    Some(())
}

/// Passes this many tokens.
fn pass_tokens(bytes: &mut &[u8], count: u64) -> Option<()>
    ensures { Passes (read.times_at trees.token_at count) bytes.old.now bytes.new.now result }
{
    for _ in 0..count {
        pass_token(bytes)?;
    }
    Some(())
}

/// Passes a text with its tokens.
fn pass_pre_tokenized(bytes: &mut &[u8]) -> Option<()>
    ensures { Passes trees.pre_tokenized_at bytes.old.now bytes.new.now result }
{
    let _ = take_text(bytes)?;
    let count = take_varint(bytes)?;
    pass_tokens(bytes, count)
}

/// Passes a text after the number of its bytes.
fn pass_text(bytes: &mut &[u8]) -> Option<()>
    ensures { Passes read.text_at bytes.old.now bytes.new.now result }
{
    let _ = take_text(bytes)?;
    Some(())
}

/// Passes bytes after their number.
fn pass_sized(bytes: &mut &[u8]) -> Option<()>
    ensures { Passes read.sized_at bytes.old.now bytes.new.now result }
{
    let _ = take_sized(bytes)?;
    Some(())
}

/// Passes a number of eight bytes.
fn pass_number(bytes: &mut &[u8]) -> Option<()>
    ensures { Passes read.number_at bytes.old.now bytes.new.now result }
{
    let _ = take_number(bytes)?;
    Some(())
}

/// Passes a byte 0 or 1.
fn pass_bit(bytes: &mut &[u8]) -> Option<()>
    ensures { Passes trees.bit_at bytes.old.now bytes.new.now result }
{
    let _ = take_bit(bytes)?;
    Some(())
}

/// Passes this many bytes.
fn pass_front(bytes: &mut &[u8], count: u64) -> Option<()>
    ensures { Passes (read.front count) bytes.old.now bytes.new.now result }
{
    let _ = take_front(bytes, count)?;
    Some(())
}

/// Passes what has this tag and no trees below it.
fn pass_leaf(bytes: &mut &[u8], tag: u8) -> Option<()>
    ensures { Passes (trees.leaf_at tag) bytes.old.now bytes.new.now result }
{
    match tag {
        0 => Some(()),
        1 => pass_text(bytes),
        2 => pass_pre_tokenized(bytes),
        3 => pass_number(bytes),
        4 => pass_number(bytes),
        6 => pass_bit(bytes),
        7 => pass_number(bytes),
        8 => pass_text(bytes),
        9 => pass_sized(bytes),
        12 => pass_front(bytes, 16),
        _ => None,
    }
}

/// Passes a tree of at most this many levels.
#[cycle(pass_tree)]
pub fn pass_tree(bytes: &mut &[u8], levels: u32) -> Option<()>
    ensures { Passes (trees.stored_tree_at levels) bytes.old.now bytes.new.now result }
{
    if levels == 0 {
        return None;
    }
    let tag = take_byte(bytes)?;
    match tag {
        10 => pass_trees(bytes, levels - 1),
        11 => pass_members(bytes, levels - 1),
        _ => pass_leaf(bytes, tag),
    }
}

/// Passes trees after their number.
#[cycle(pass_tree)]
fn pass_trees(bytes: &mut &[u8], levels: u32) -> Option<()>
    ensures { Passes (read.counted_at (trees.stored_tree_at levels)) bytes.old.now bytes.new.now result }
{
    let count = take_varint(bytes)?;
    for _ in 0..count {
        pass_tree(bytes, levels)?;
    }
    Some(())
}

/// Passes keys with their trees, after their number.
#[cycle(pass_tree)]
fn pass_members(bytes: &mut &[u8], levels: u32) -> Option<()>
    ensures { Passes (read.counted_at (trees.member_at (trees.stored_tree_at levels)))
        bytes.old.now bytes.new.now result }
{
    let count = take_varint(bytes)?;
    for _ in 0..count {
        pass_member(bytes, levels)?;
    }
    Some(())
}

/// Passes a key with its tree.
#[cycle(pass_tree)]
fn pass_member(bytes: &mut &[u8], levels: u32) -> Option<()>
    ensures { Passes (trees.member_at (trees.stored_tree_at levels)) bytes.old.now bytes.new.now result }
{
    let _ = take_text(bytes)?;
    pass_tree(bytes, levels)
}
