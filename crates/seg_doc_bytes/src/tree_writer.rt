//! The bytes of values.
ghost use Rattle.std.specs.Prelude.{◌≡◌, ◌++◌, ◌∷◌, [], length, OnOk};
ghost use Rattle.seg_common.specs.Varint.{varint};
ghost use Rattle.seg_values.specs.Tree as trees;
ghost use Rattle.seg_values.specs.ValueTrees.{tree_of};
ghost use Rattle.seg_values.specs.StoredBytes.{sized, token_form, leaf_form, tree_form};
ghost use Rattle.seg_doc_bytes.specs.StorableDocuments.{IsText, IsToken, IsLeaf, IsStorable};

use seg_common::VInt;
use seg_tokens::{PreTokenizedString, Token};
use seg_values::OwnedValue;
use std::alloc::AllocError;

/// Adds the bytes of a value: a tag, and what it is the tag of.
pub(crate) fn put_tree(out: &mut Vec<u8>, value: &OwnedValue) -> Result<(), AllocError>
    ensures form { OnOk result (out.new.items ≡ out.old.items ++ tree_form (tree_of value.now)) }
    ensures storable { OnOk result (IsStorable (tree_of value.now)) }
{
    match value {
        OwnedValue::Null => put_tagged(out, 0, &[]),
        OwnedValue::Str(text) => put_tagged_text(out, 1, text.as_str()),
        OwnedValue::PreTokStr(text) => put_pre_tokenized(out, text),
        OwnedValue::U64(number) => put_tagged(out, 3, &number.to_le_bytes()),
        OwnedValue::I64(number) => put_tagged(out, 4, &number.to_le_bytes()),
        OwnedValue::Bool(bit) => put_tagged(out, 6, &[u8::from(*bit)]),
        OwnedValue::Date(date) => put_tagged(out, 7, &date.into_timestamp_nanos().to_le_bytes()),
        OwnedValue::Facet(facet) => put_tagged_text(out, 8, facet.encoded_str()),
        OwnedValue::Bytes(bytes) => put_tagged_bytes(out, 9, bytes.as_slice()),
        OwnedValue::Array(values) => {
            put_count(out, 10, values.len())?;
            for at in 0..values.len() {
                put_tree(out, values.get(at))?;
            }
            Ok(())
        }
        OwnedValue::Object(members) => {
            put_count(out, 11, members.len())?;
            for index in 0..members.len() {
                let (key, child) = members.get(index);
                put_text(out, key)?;
                put_tree(out, child)?;
            }
            Ok(())
        }
        OwnedValue::IpAddr(address) => put_tagged(out, 12, &address.octets()),
    }
}

/// Adds a text with its tokens.
fn put_pre_tokenized(out: &mut Vec<u8>, text: &PreTokenizedString) -> Result<(), AllocError>
    ensures form { OnOk result (out.new.items ≡ out.old.items ++ leaf_form (trees.pre_tokenized text.now)) }
    ensures storable { OnOk result (IsLeaf (trees.pre_tokenized text.now)) }
{
    put_tagged_text(out, 2, text.text.as_str())?;
    put_varint(out, text.tokens.len() as u64)?;
    for token in text.tokens.as_slice() {
        put_token(out, token)?;
    }
    Ok(())
}

fn put_token(out: &mut Vec<u8>, token: &Token) -> Result<(), AllocError>
    ensures form { OnOk result (out.new.items ≡ out.old.items ++ token_form token.now) }
    ensures storable { OnOk result (IsToken token.now) }
{
    put_varint(out, token.offset_from as u64)?;
    put_varint(out, token.offset_to as u64)?;
    put_varint(out, token.position as u64)?;
    put_varint(out, token.position_length as u64)?;
    put_text(out, token.text.as_str())
}

/// Adds a text after the number of its bytes.
fn put_text(out: &mut Vec<u8>, text: &str) -> Result<(), AllocError>
    ensures form { OnOk result (out.new.items ≡ out.old.items ++ sized text.now) }
    ensures storable { IsText text.now }
{
    put_sized(out, text.as_bytes())
}

pub(crate) fn put_tagged_text(out: &mut Vec<u8>, tag: u8, text: &str) -> Result<(), AllocError>
    ensures form { OnOk result (out.new.items ≡ out.old.items ++ tag ∷ sized text.now) }
    ensures storable { IsText text.now }
{
    put_tagged(out, tag, &[])?;
    put_text(out, text)
}

fn put_tagged_bytes(out: &mut Vec<u8>, tag: u8, bytes: &[u8]) -> Result<(), AllocError>
    ensures { OnOk result (out.new.items ≡ out.old.items ++ tag ∷ sized bytes.now) }
{
    put_tagged(out, tag, &[])?;
    put_sized(out, bytes)
}

/// Adds a tag, and how many parts follow.
fn put_count(out: &mut Vec<u8>, tag: u8, count: usize) -> Result<(), AllocError>
    ensures { OnOk result (out.new.items ≡ out.old.items ++ tag ∷ varint count) }
{
    put_tagged(out, tag, &[])?;
    put_varint(out, count as u64)
}

fn put_tagged(out: &mut Vec<u8>, tag: u8, bytes: &[u8]) -> Result<(), AllocError>
    ensures { OnOk result (out.new.items ≡ out.old.items ++ tag ∷ bytes.now) }
{
    out.push(tag)?;
    out.extend_from_slice(bytes)?;
    Ok(())
}

/// Adds bytes after their number.
fn put_sized(out: &mut Vec<u8>, bytes: &[u8]) -> Result<(), AllocError>
    ensures { OnOk result (out.new.items ≡ out.old.items ++ sized bytes.now) }
{
    put_varint(out, bytes.len() as u64)?;
    out.extend_from_slice(bytes)?;
    Ok(())
}

pub(crate) fn put_varint(out: &mut Vec<u8>, number: u64) -> Result<(), AllocError>
    ensures { OnOk result (out.new.items ≡ out.old.items ++ varint number) }
{
    match VInt(number).serialize_into_vec(out) {
        Ok(()) => Ok(()),
        Err(_) => Err(AllocError),
    }
}
