//! The bytes of documents.
ghost use Rattle.std.specs.Prelude.{◌≡◌, ◌≤◌, ◌++◌, ◌∷◌, [], length, Some, OnOk};
ghost use Rattle.std.specs.List.{flat_map, slice_get, AllByRecursion};
ghost use Rattle.seg_values.specs.Tree.{levels};
ghost use Rattle.seg_values.specs.ValueTrees.{tree_of};
ghost use Rattle.seg_values.specs.Schemas.{is_field};
ghost use Rattle.seg_values.specs.StoredDocuments as reading;
ghost use Rattle.seg_values.specs.StoredBytes.{tree_form, pair_form, stored_form};
ghost use Rattle.seg_doc_bytes.specs.StoredDocument.{most_levels_read, stored_document_of};
ghost use Rattle.seg_doc_bytes.specs.StorableDocuments.{IsStorable, IsStoredPair};
ghost use Rattle.seg_doc_bytes.specs.StoredDocumentLaw.{AreShallow};

use crate::tree_writer::{put_tagged_text, put_tree, put_varint};
use seg_values::{Field, OwnedValue, Pairs, Schema};
use std::alloc::AllocError;

/// Adds to `out` the bytes that a document is stored as: how many of its pairs are stored, and these, in its order.
///
/// Each value has at most 200 levels. A field that the schema lacks isn't stored. The one error is that there isn't
/// memory enough; `out` may then have some of these bytes.
pub fn put_document(
    out: &mut Vec<u8>,
    document: &Pairs<'_>,
    schema: &Schema,
) -> Result<(), AllocError>
    requires { AreShallow document.now }
    ensures form { OnOk result (out.new.items ≡ out.old.items ++ stored_form schema.now document.now) }
    ensures reads { OnOk result (stored_document_of (stored_form schema.now document.now)
        ≡ Some (reading.stored_document schema.now document.now)) }
{
    put_varint(out, count_stored(document, schema))?;
    for at in 0..document.len() {
        let (field, value) = document.pair(at);
        put_if_stored(out, schema, field, value)?;
    }
    Ok(())
}

/// How many pairs are stored.
fn count_stored(document: &Pairs<'_>, schema: &Schema) -> u64
    ensures { result ≡ length (reading.stored_document schema.now document.now) }
{
    let mut count = 0u64;
    for index in 0..document.len() {
        count += u64::from(is_stored(schema, document.pair(index).0));
    }
    count
}

fn is_stored(schema: &Schema, field: Field) -> bool
    ensures { result ≡ is_field (λ e. e.stored) (slice_get schema.now field) }
{
    match schema.fields().get(field.field_id() as usize) {
        Some(entry) => entry.stored,
        None => false,
    }
}

/// Adds a pair, if its field is stored.
fn put_if_stored(
    out: &mut Vec<u8>,
    schema: &Schema,
    field: Field,
    value: &OwnedValue,
) -> Result<(), AllocError>
    requires { levels (tree_of value.now) ≤ most_levels_read }
    ensures form { OnOk result (out.new.items
        ≡ out.old.items ++ flat_map pair_form (reading.stored_document schema.now ((field, tree_of value.now) ∷ []))) }
    ensures storable { OnOk result
        (AllByRecursion IsStoredPair (reading.stored_document schema.now ((field, tree_of value.now) ∷ []))) }
{
    if is_stored(schema, field) {
        put_varint(out, field.field_id() as u64)?;
        return put_stored_value(out, value);
    }
    Ok(())
}

/// Adds the bytes of a value at the top of a document, where a pre-tokenized text is kept as its text.
fn put_stored_value(out: &mut Vec<u8>, value: &OwnedValue) -> Result<(), AllocError>
    ensures form { OnOk result (out.new.items ≡ out.old.items ++ tree_form (reading.stored_value (tree_of value.now))) }
    ensures storable { OnOk result (IsStorable (reading.stored_value (tree_of value.now))) }
{
    match value {
        OwnedValue::PreTokStr(text) => put_tagged_text(out, 1, text.text.as_str()),
        _ => put_tree(out, value),
    }
}
