//! Documents as JSON objects.
ghost use Rattle.std.specs.Prelude.{◌≡◌, ◌⊎◌, ◌↔◌, Err, Some, true, false, string_bytes, IfOk, IfErr, OnOk};
ghost use Rattle.serde_json.specs.View.{view, members_view};
ghost use Rattle.serde_json.specs.Written.{compact_text};
ghost use Rattle.seg_values.specs.DocumentJson.{document_object, fields_json, grown, has_fields, with_item};

use crate::document::TantivyDocument;
use crate::schema::Schema;
use crate::value_error::ValueError;
use crate::write_json::json_from;
use serde_json::{Map, Value, put};
use std::alloc::{AllocError, Global};

impl TantivyDocument {
    /// The compact text of a JSON object that has the name of each field that occurs, with the list of its values.
    /// `UnknownField`: the schema lacks a field that occurs.
    pub fn to_json(&self, alloc: Global, schema: &Schema) -> Result<String, ValueError>
        ensures ok { IfOk result (λ text. string_bytes text ≡ compact_text (document_object schema.now self.now)) }
        ensures unknown { (result ≡ Err ValueError.UnknownField) ↔ (has_fields schema.now self.now ≡ false) }
        ensures causes { IfErr result (λ e. (e ≡ ValueError.UnknownField) ⊎ (e ≡ ValueError.OutOfMemory)) }
    {
        if !has_fields(schema, self) {
            return Err(ValueError::UnknownField);
        }
        Ok(object_text(alloc, schema, self)?)
    }
}

fn object_text(
    alloc: Global,
    schema: &Schema,
    document: &TantivyDocument,
) -> Result<String, AllocError>
    requires { has_fields schema.now document.now ≡ true }
    ensures { IfOk result (λ text. string_bytes text ≡ compact_text (document_object schema.now document.now)) }
{
    let map = object_from(alloc, schema, document)?;
    let text = Value::Object(map).to_string(alloc)?;
    Ok(text)
}

fn object_from(
    alloc: Global,
    schema: &Schema,
    document: &TantivyDocument,
) -> Result<Map<String, Value>, AllocError>
    requires { has_fields schema.now document.now ≡ true }
    ensures { IfOk result (λ map. members_view map.entries ≡ fields_json 0 schema.now document.now) }
{
    schema.fields_are_valid();
    let mut map = Map::new(alloc);
    for at in 0..document.len() {
        let (field, value) = document.pair(at);
        let json = json_from(alloc, value)?;
        let entry = schema.get_field_entry(field);
        add_item(&mut map, alloc, entry.name.as_str(), json)?;
    }
    Ok(map)
}

/// Adds a value to the list of a name.
fn add_item(
    map: &mut Map<String, Value>,
    alloc: Global,
    name: &str,
    item: Value,
) -> Result<(), AllocError>
    ensures { OnOk result
        (members_view map.new.entries ≡ with_item name.now (view item) (members_view map.old.entries)) }
{
    if let Some(list) = map.get_mut(name) {
        return push_item(list, item);
    }
    let mut items = Vec::new(alloc);
    items.push(item)?;
    put(map, alloc, name, Value::Array(items))
}

/// Adds an item to a list; another value stays.
fn push_item(list: &mut Value, item: Value) -> Result<(), AllocError>
    ensures { OnOk result (view list.new ≡ grown (Some (view list.old)) (view item)) }
{
    match list.as_array_mut() {
        Some(items) => {
            items.push(item)?;
            Ok(())
        }
        None => Ok(()),
    }
}

/// Whether a schema has each field of a document.
fn has_fields(schema: &Schema, document: &TantivyDocument) -> bool
    ensures { result ≡ has_fields schema.now document.now }
{
    for at in 0..document.len() {
        let (field, _value) = document.pair(at);
        if field.field_id() as usize >= schema.num_fields() {
            return false;
        }
    }
    true
}
