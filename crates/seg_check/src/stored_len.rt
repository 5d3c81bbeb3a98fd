//! How many bytes a document is stored as, each number up to its type's end.
ghost use Rattle.std.specs.Prelude.{◌≡◌, ◌+◌, ◌≤◌, length, map};
ghost use Rattle.std.specs.List.{slice_get};
ghost use Rattle.seg_common.specs.Varint.{varint};
ghost use Rattle.seg_values.specs.Tree.{pre_tokenized};
ghost use Rattle.seg_values.specs.ValueTrees.{tree_of};
ghost use Rattle.seg_model.specs.Fields as fields;
ghost use Rattle.seg_model.specs.DocumentTerms.{stored_value};
ghost use Rattle.seg_values.specs.StoredBytes as stored;
ghost use Rattle.seg_model.specs.SaturatedNumbers.{saturated};
ghost use Rattle.seg_check.specs.ValueLeaves.{leaf_in};

use seg_common::varint_len;
use seg_tokens::{PreTokenizedString, Token};
use seg_values::{Field, OwnedValue, Pairs, Schema};

/// How many bytes a document is stored as.
pub(crate) fn stored_len(schema: &Schema, document: &Pairs<'_>) -> u64
    ensures { result ≡ saturated (length (stored.stored_form schema.now document.now)) }
{
    let mut count = 0;
    let mut size = 0u64;
    for at in 0..document.len() {
        let (field, value) = document.pair(at);
        if !is_stored(schema, field) {
            continue;
        }
        count += 1;
        size = size.saturating_add(pair_len(field, value));
    }
    number_len(count).saturating_add(size)
}

fn is_stored(schema: &Schema, field: Field) -> bool
    ensures { result ≡ fields.is_field (λ entry. entry.stored) (slice_get schema.now field) }
{
    match schema.fields().get(field.field_id() as usize) {
        Some(entry) => entry.stored,
        None => false,
    }
}

/// Of a field with its value.
fn pair_len(field: Field, value: &OwnedValue) -> u64
    ensures { result ≡ saturated (length (stored.pair_form (field, stored_value (tree_of value.now)))) }
{
    number_len(u64::from(field.field_id())).saturating_add(stored_value_len(value))
}

/// Of a value at the top of a document, where a pre-tokenized text is kept as its text.
fn stored_value_len(value: &OwnedValue) -> u64
    ensures { result ≡ saturated (length (stored.tree_form (stored_value (tree_of value.now)))) }
{
    match value {
        OwnedValue::PreTokStr(text) => tagged_len(text.text.len()),
        _ => tree_len(value),
    }
}

fn tree_len(value: &OwnedValue) -> u64
    ensures { result ≡ saturated (length (stored.tree_form (tree_of value.now))) }
{
    match value {
        OwnedValue::Array(values) => {
            let mut size = 1 + number_len(values.len() as u64);
            for at in 0..values.len() {
                size = size.saturating_add(tree_len(values.get(at)));
            }
            size
        }
        OwnedValue::Object(members) => {
            let mut size = 1 + number_len(members.len() as u64);
            for index in 0..members.len() {
                let (key, child) = members.get(index);
                let member = sized_len(key.len()).saturating_add(tree_len(child));
                size = size.saturating_add(member);
            }
            size
        }
        _ => leaf_len(value),
    }
}

fn leaf_len(value: &OwnedValue) -> u64
    ensures { result ≡ saturated (length (stored.leaf_form (leaf_in (tree_of value.now)))) }
{
    match value {
        OwnedValue::Str(text) => tagged_len(text.len()),
        OwnedValue::PreTokStr(text) => pre_tokenized_len(text),
        OwnedValue::U64(_) => 9,
        OwnedValue::I64(_) => 9,
        OwnedValue::Bool(_) => 2,
        OwnedValue::Date(_) => 9,
        OwnedValue::Facet(facet) => tagged_len(facet.encoded_str().len()),
        OwnedValue::Bytes(bytes) => tagged_len(bytes.as_slice().len()),
        OwnedValue::IpAddr(address) => 1 + address.octets().len() as u64,
        _ => 1,
    }
}

fn pre_tokenized_len(text: &PreTokenizedString) -> u64
    ensures { result ≡ saturated (length (stored.leaf_form (pre_tokenized text.now))) }
{
    let tokens = text.tokens.as_slice();
    let mut size = tagged_len(text.text.len()).saturating_add(number_len(tokens.len() as u64));
    for token in tokens {
        size = size.saturating_add(token_len(token));
    }
    size
}

fn token_len(token: &Token) -> u64
    ensures { result ≡ saturated (length (stored.token_form token.now)) }
{
    let offsets = number_len(token.offset_from as u64) + number_len(token.offset_to as u64);
    let position = number_len(u64::from(token.position));
    let position_length = number_len(u64::from(token.position_length));
    (offsets + position + position_length).saturating_add(sized_len(token.text.len()))
}

/// Of a tag, and bytes after their number.
fn tagged_len(len: usize) -> u64
    ensures { result ≡ saturated (1 + (length (varint len) + len)) }
{
    sized_len(len).saturating_add(1)
}

/// Of bytes after their number.
fn sized_len(len: usize) -> u64
    ensures { result ≡ saturated (length (varint len) + len) }
{
    number_len(len as u64).saturating_add(len as u64)
}

fn number_len(number: u64) -> u64
    ensures length { result ≡ length (varint number) }
    ensures most { result ≤ 10 }
{
    varint_len(number) as u64
}
