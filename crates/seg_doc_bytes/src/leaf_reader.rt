//! Values from stored leaves: each call makes one of what is at the front of bytes, or answers that there is none.
ghost use Rattle.std.specs.Prelude.{ℕ, List, IfOk};
ghost use Rattle.std.specs.Int.{w64, cast_signed};
ghost use Rattle.seg_tokens.specs.declared.token.Token.{Token};
ghost use Rattle.seg_values.specs.Tree as tree;
ghost use Rattle.seg_values.specs.ValueTrees.{tree_of};
ghost use Rattle.seg_doc_bytes.specs.FrontValues.{Makes};
ghost use Rattle.seg_doc_bytes.specs.FrontReaders as read;
ghost use Rattle.seg_doc_bytes.specs.StoredTree as trees;

use crate::pieces::{
    take_address, take_bit, take_number, take_sized, take_small, take_text, take_varint,
};
use seg_common::DateTime;
use seg_tokens::{Bytes, PreTokenizedString, Text, Token, Tokens};
use seg_values::{Facet, OwnedValue};
use std::alloc::{AllocError, Global};

/// What has this tag and no trees below it.
pub(crate) fn read_leaf(
    alloc: Global,
    bytes: &mut &[u8],
    tag: u8,
) -> Result<Option<OwnedValue>, AllocError>
    ensures { IfOk result
        (Makes (λ b. read.made_of tree.leaf (trees.leaf_at tag b)) tree_of bytes.old.now bytes.new.now) }
{
    match tag {
        0 => Ok(Some(OwnedValue::Null)),
        1 => read_str(alloc, bytes),
        2 => read_pre_tokenized(alloc, bytes),
        3 => Ok(read_unsigned(bytes)),
        4 => Ok(read_signed(bytes)),
        6 => Ok(read_bool(bytes)),
        7 => Ok(read_date(bytes)),
        8 => read_facet(alloc, bytes),
        9 => read_bytes(alloc, bytes),
        12 => Ok(read_address(bytes)),
        _ => Ok(None),
    }
}

/// A text.
pub(crate) fn read_text(alloc: Global, bytes: &mut &[u8]) -> Result<Option<Text>, AllocError>
    ensures { IfOk result (Makes read.text_at (λ (t : List ℕ). t) bytes.old.now bytes.new.now) }
{
    let Some(text) = take_text(bytes) else {
        return Ok(None);
    };
    Ok(Some(Text::copy_of(alloc, text)?))
}

fn read_str(alloc: Global, bytes: &mut &[u8]) -> Result<Option<OwnedValue>, AllocError>
    ensures { IfOk result (Makes (λ b. read.made_of tree.leaf (read.made_of tree.text (read.text_at b)))
        tree_of bytes.old.now bytes.new.now) }
{
    let Some(text) = read_text(alloc, bytes)? else {
        return Ok(None);
    };
    Ok(Some(OwnedValue::Str(text)))
}

fn read_facet(alloc: Global, bytes: &mut &[u8]) -> Result<Option<OwnedValue>, AllocError>
    ensures { IfOk result (Makes (λ b. read.made_of tree.leaf (read.made_of tree.facet (read.text_at b)))
        tree_of bytes.old.now bytes.new.now) }
{
    let Some(text) = take_text(bytes) else {
        return Ok(None);
    };
    let encoded = String::from_str(alloc, text)?;
    Ok(Some(OwnedValue::Facet(Facet::from_encoded_string(encoded))))
}

fn read_bytes(alloc: Global, bytes: &mut &[u8]) -> Result<Option<OwnedValue>, AllocError>
    ensures { IfOk result (Makes (λ b. read.made_of tree.leaf (read.made_of tree.byte_string (read.sized_at b)))
        tree_of bytes.old.now bytes.new.now) }
{
    let Some(stored) = take_sized(bytes) else {
        return Ok(None);
    };
    let copied = Vec::from_slice(alloc, stored)?;
    Ok(Some(OwnedValue::Bytes(Bytes::from_vec(copied))))
}

fn read_unsigned(bytes: &mut &[u8]) -> Option<OwnedValue>
    ensures { Makes (λ b. read.made_of tree.leaf (read.made_of tree.unsigned (read.number_at b)))
        tree_of bytes.old.now bytes.new.now result }
{
    let number = take_number(bytes)?;
    Some(OwnedValue::U64(number))
}

fn read_signed(bytes: &mut &[u8]) -> Option<OwnedValue>
    ensures { Makes
        (λ b. read.made_of tree.leaf (read.made_of (λ n. tree.signed (cast_signed w64 n)) (read.number_at b)))
        tree_of bytes.old.now bytes.new.now result }
{
    let number = take_number(bytes)?;
    Some(OwnedValue::I64(number.cast_signed()))
}

/// A moment, as its nanoseconds since 1970.
fn read_date(bytes: &mut &[u8]) -> Option<OwnedValue>
    ensures { Makes (λ b. read.made_of tree.leaf (read.made_of (λ n. tree.date (cast_signed w64 n)) (read.number_at b)))
        tree_of bytes.old.now bytes.new.now result }
{
    let number = take_number(bytes)?;
    Some(OwnedValue::Date(DateTime::from_timestamp_nanos(number.cast_signed())))
}

fn read_bool(bytes: &mut &[u8]) -> Option<OwnedValue>
    ensures { Makes (λ b. read.made_of tree.leaf (read.made_of tree.boolean (trees.bit_at b)))
        tree_of bytes.old.now bytes.new.now result }
{
    let bit = take_bit(bytes)?;
    Some(OwnedValue::Bool(bit))
}

fn read_address(bytes: &mut &[u8]) -> Option<OwnedValue>
    ensures { Makes (λ b. read.made_of tree.leaf (read.made_of tree.ip (read.front 16 b)))
        tree_of bytes.old.now bytes.new.now result }
{
    let address = take_address(bytes)?;
    Some(OwnedValue::IpAddr(address))
}

/// A text with its tokens.
fn read_pre_tokenized(alloc: Global, bytes: &mut &[u8]) -> Result<Option<OwnedValue>, AllocError>
    ensures { IfOk result
        (Makes (λ b. read.made_of tree.leaf (trees.pre_tokenized_at b)) tree_of bytes.old.now bytes.new.now) }
{
    let Some(text) = read_text(alloc, bytes)? else {
        return Ok(None);
    };
    let Some(tokens) = read_tokens(alloc, bytes)? else {
        return Ok(None);
    };
    Ok(Some(OwnedValue::PreTokStr(PreTokenizedString { text, tokens })))
}

/// Tokens after their number.
fn read_tokens(alloc: Global, bytes: &mut &[u8]) -> Result<Option<Tokens>, AllocError>
    ensures { IfOk result
        (Makes (read.counted_at trees.token_at) (λ (ts : List Token). ts) bytes.old.now bytes.new.now) }
{
    let Some(count) = take_varint(bytes) else {
        return Ok(None);
    };
    let mut tokens = Tokens::new(alloc);
    for _ in 0..count {
        let Some(token) = read_token(alloc, bytes)? else {
            return Ok(None);
        };
        tokens.push(token)?;
    }
    Ok(Some(tokens))
}

fn read_token(alloc: Global, bytes: &mut &[u8]) -> Result<Option<Token>, AllocError>
    ensures { IfOk result (Makes trees.token_at (λ (t : Token). t) bytes.old.now bytes.new.now) }
{
    let Some(offset_from) = take_varint(bytes) else {
        return Ok(None);
    };
    let Some(offset_to) = take_varint(bytes) else {
        return Ok(None);
    };
    let Some(position) = take_small(bytes) else {
        return Ok(None);
    };
    let Some(position_length) = take_small(bytes) else {
        return Ok(None);
    };
    let Some(text) = read_text(alloc, bytes)? else {
        return Ok(None);
    };
    Ok(Some(Token {
        offset_from: offset_from as usize,
        offset_to: offset_to as usize,
        position,
        position_length,
        text,
    }))
}
