//! Reads the fields of a document with their values.
ghost use Rattle.std.specs.Prelude.{◌≡◌, [], ◌∷◌, ◌++◌, Some, None, Err, IfOk, OnOk, option_map};
ghost use Rattle.serde_json.specs.View.{view};
ghost use Rattle.seg_values.specs.ValueTrees.{tree_of};
ghost use Rattle.seg_meta.specs.JsonReaders.{list_of};
ghost use Rattle.seg_script.specs.Pairs.{kind_of, tree_by, pair_from};

use crate::error::ScriptError;
use crate::fields::field_or_past;
use crate::parts::two_or_three;
use crate::reading::{Reading, reading_of};
use seg_script_values::{text_of, tokenized_from, tree_from};
use seg_values::{Field, FieldKind, OwnedValue, Schema, TantivyDocument};
use serde_json::Value;
use std::alloc::{AllocError, Global};

/// The document that a list of pairs is.
pub(crate) fn document_from(
    alloc: Global,
    schema: &Schema,
    json: Value,
) -> Result<TantivyDocument, ScriptError>
    ensures ok { IfOk result (λ d. list_of (pair_from schema.now) (view json) ≡ Some d) }
    ensures none { result ≡ Err ScriptError.NotScript → list_of (pair_from schema.now) (view json) ≡ None }
{
    let Value::Array(items) = json else {
        return Err(ScriptError::NotScript);
    };
    let mut document = TantivyDocument::new(alloc);
    for item in items {
        match pair_from(alloc, schema, item)? {
            Some((field, value)) => add(&mut document, field, value)?,
            None => return Err(ScriptError::NotScript),
        }
    }
    Ok(document)
}

/// Adds a field with its value at the end of a document.
fn add(document: &mut TantivyDocument, field: Field, value: OwnedValue) -> Result<(), AllocError>
    ensures { OnOk result (document.new ≡ document.old ++ (field, tree_of value) ∷ []) }
{
    match document.add_field_value(field, value) {
        Ok(()) => Ok(()),
        Err(_) => Err(AllocError),
    }
}

/// A field and its value, whose texts are moved.
fn pair_from(
    alloc: Global,
    schema: &Schema,
    json: Value,
) -> Result<Option<(Field, OwnedValue)>, AllocError>
    ensures { IfOk result (λ pair. option_map (λ p. (p.0, tree_of p.1)) pair ≡ pair_from schema.now (view json)) }
{
    let Value::Array(items) = json else {
        return Ok(None);
    };
    let Some((name, value, word)) = two_or_three(items) else {
        return Ok(None);
    };
    let Some(name) = text_of(name) else {
        return Ok(None);
    };
    let field = field_or_past(schema, name.as_str());
    let Some(reading) = reading_of(kind_of(schema, field), word) else {
        return Ok(None);
    };
    let Some(value) = value_by(alloc, reading, value)? else {
        return Ok(None);
    };
    Ok(Some((field, value)))
}

/// The kind of a field that the schema has.
fn kind_of(schema: &Schema, field: Field) -> Option<FieldKind>
    ensures { result ≡ kind_of schema.now field }
{
    if (field.field_id() as usize) < schema.num_fields() {
        Some(schema.get_field_entry(field).kind)
    } else {
        None
    }
}

fn value_by(alloc: Global, reading: Reading, json: Value) -> Result<Option<OwnedValue>, AllocError>
    ensures { IfOk result (λ value. option_map tree_of value ≡ tree_by reading (view json)) }
{
    match reading {
        Reading::ByKind(kind) => tree_from(alloc, kind, json),
        Reading::WithTokens => tokenized_value(alloc, json),
    }
}

fn tokenized_value(alloc: Global, json: Value) -> Result<Option<OwnedValue>, AllocError>
    ensures { IfOk result (λ value. option_map tree_of value ≡ tree_by Reading.WithTokens (view json)) }
{
    match tokenized_from(alloc, json)? {
        Some(text) => Ok(Some(OwnedValue::PreTokStr(text))),
        None => Ok(None),
    }
}
