//! The second pass: the leaves and keys of JSON fields.
ghost use Rattle.std.specs.Prelude.{◌≡◌};
ghost use Rattle.std.specs.List.{slice_get};
ghost use Rattle.seg_model.specs.DocumentCheck as checked;
ghost use Rattle.seg_check.specs.ValueLeaves.{leaf_in};
ghost use Rattle.seg_values.specs.ValueTrees.{tree_of};

use crate::kinds::is_json;
use seg_values::{ArgumentCause, Field, FieldEntry, OwnedValue, Pairs, Schema, TantivyError};

/// The first leaf or key that a JSON field which is indexed or fast may not have, in a document that is added at
/// `place`.
#[tactic(auto, using(crate::proofs::ListTails::drop_at))]
pub(crate) fn leaves_refusal(
    schema: &Schema,
    document: &Pairs<'_>,
    place: usize,
) -> Option<TantivyError>
    ensures { result ≡ checked.at_place place (checked.leaves_refusal schema.now document.now) }
{
    for at in 0..document.len() {
        let (field, value) = document.pair(at);
        let refusal = json_refusal(schema, field, value, place);
        if refusal.is_some() {
            return refusal;
        }
    }
    None
}

fn json_refusal(
    schema: &Schema,
    field: Field,
    value: &OwnedValue,
    place: usize,
) -> Option<TantivyError>
    ensures { result ≡ checked.at_place place (checked.json_refusal (tree_of value.now) (slice_get schema.now field)) }
{
    match schema.fields().get(field.field_id() as usize) {
        Some(entry) if is_checked_json(entry) => tree_refusal(value, place),
        _ => None,
    }
}

fn is_checked_json(entry: &FieldEntry) -> bool
    ensures { result ≡ checked.is_checked_json entry.now }
{
    is_json(entry.kind) && (entry.is_indexed() || entry.fast)
}

/// The first leaf or key that a JSON field may not have, from left to right, a key before its value.
fn tree_refusal(value: &OwnedValue, place: usize) -> Option<TantivyError>
    ensures { result ≡ checked.at_place place (checked.tree_refusal (tree_of value.now)) }
{
    match value {
        OwnedValue::Array(values) => {
            for at in 0..values.len() {
                if let Some(refusal) = tree_refusal(values.get(at), place) {
                    return Some(refusal);
                }
            }
            None
        }
        OwnedValue::Object(members) => {
            for index in 0..members.len() {
                let (key, child) = members.get(index);
                if !has_no_zero(key.as_bytes()) {
                    return Some(TantivyError::InvalidArgument(ArgumentCause::JsonKey {
                        at: place,
                    }));
                }
                if let Some(refusal) = tree_refusal(child, place) {
                    return Some(refusal);
                }
            }
            None
        }
        _ if !is_json_leaf(value) => {
            Some(TantivyError::InvalidArgument(ArgumentCause::JsonLeaf { at: place }))
        }
        _ => None,
    }
}

/// A leaf that is no facet, no bytes, no address and no pre-tokenized text.
fn is_json_leaf(value: &OwnedValue) -> bool
    ensures { result ≡ checked.is_json_leaf (leaf_in (tree_of value.now)) }
{
    match value {
        OwnedValue::PreTokStr(_) => false,
        OwnedValue::Facet(_) => false,
        OwnedValue::Bytes(_) => false,
        OwnedValue::IpAddr(_) => false,
        _ => true,
    }
}

fn has_no_zero(bytes: &[u8]) -> bool
    ensures { result ≡ checked.has_no_zero bytes.now }
{
    for byte in bytes {
        if *byte == 0 {
            return false;
        }
    }
    true
}
