//! Values and documents as JSON, both ways.

use crate::lines::Lines;
use crate::samples::schema;
use seg_values::{Field, FieldKind, IndexOption, OwnedValue, TantivyDocument, ValueError};
use serde_json::Value;
use std::alloc::Global;

/// A value as JSON text.
pub(crate) fn told(alloc: Global, value: &OwnedValue) -> Result<String, ValueError> {
    let json = value.to_json(alloc)?;
    Ok(json.to_string(alloc)?)
}

pub(crate) fn json(alloc: Global, text: &str) -> Result<Value, ValueError> {
    match Value::from_str(alloc, text) {
        Ok(value) => Ok(value),
        Err(_) => Err(ValueError::Malformed),
    }
}

/// The kind of what a JSON text is read as plainly.
fn plain_kind(alloc: Global, text: &str) -> Result<u8, ValueError> {
    let json = json(alloc, text)?;
    Ok(OwnedValue::from_json(alloc, &json)?.discriminant_value())
}

/// What a JSON text is read as else.
fn other_value(alloc: Global, text: &str) -> Result<OwnedValue, ValueError> {
    let json = json(alloc, text)?;
    OwnedValue::from_serde_json(alloc, &json)
}

fn add_other(lines: &mut Lines, value: &OwnedValue) {
    let kind = value.discriminant_value();
    lines.add_answer("  kind of from_serde_json", &kind);
    lines.add_text_result("  to_json of from_serde_json", told(lines.alloc(), value));
}

/// Adds what a JSON text is read as, plainly and else, and what the latter is told as.
fn add_reading(lines: &mut Lines, text: &str) {
    let alloc = lines.alloc();
    lines.add_text("JSON text", text);
    lines.add_result("  kind of from_json", plain_kind(alloc, text));
    match other_value(alloc, text) {
        Ok(value) => add_other(lines, &value),
        Err(_) => lines.miss(),
    }
}

/// What a JSON object is told as once it is read by its map.
fn told_by_map(alloc: Global, text: &str) -> Result<String, ValueError> {
    let json = json(alloc, text)?;
    let Some(map) = json.as_object() else {
        return Err(ValueError::Malformed);
    };
    told(alloc, &OwnedValue::from_serde_map(alloc, map)?)
}

/// The document of bytes, in field 0.
fn document(alloc: Global, bytes: &[u8]) -> Result<TantivyDocument, ValueError> {
    let mut document = TantivyDocument::new(alloc);
    let value = OwnedValue::from_slice(alloc, bytes)?;
    document.add_field_value(Field::from_field_id(0), value)?;
    Ok(document)
}

/// A document of bytes as a JSON object, in a schema of the field `my_bytes`.
fn told_document(alloc: Global, bytes: &[u8]) -> Result<String, ValueError> {
    let rows = [("my_bytes", FieldKind::Bytes, IndexOption::No)];
    let schema = schema(alloc, &rows)?;
    document(alloc, bytes)?.to_json(alloc, &schema)
}

pub(crate) fn add_json_values(lines: &mut Lines) {
    let alloc = lines.alloc();
    add_reading(lines, "42");
    add_reading(lines, "\"1996-12-20T00:39:57-01:00\"");
    lines.add_text_result(
        "to_json of from_serde_map of {\"a\":[1],\"b\":null}",
        told_by_map(alloc, "{\"a\":[1],\"b\":null}"),
    );
    lines.add_text_result(
        "document of the bytes of `this is a test` in my_bytes",
        told_document(alloc, b"this is a test"),
    );
}
