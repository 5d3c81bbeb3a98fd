//! Reads what a delete names.
ghost use Rattle.std.specs.Prelude.{◌≡◌, ℕ, List, [], Some, IfOk, option_map};
ghost use Rattle.serde_json.specs.View.{view};
ghost use Rattle.seg_script.specs.Deletes.{term_bytes, term_from};

use crate::fields::field_or_past;
use crate::parts::two_or_three;
use seg_script_values::{json_term_from, plain_term_from, text_of};
use seg_values::{Field, FieldEntry, FieldKind, Schema, Term};
use serde_json::Value;
use std::alloc::{AllocError, Global};

/// The term that a list of a name and a value is, or of a name, a path and a value.
pub(crate) fn term_from(
    alloc: Global,
    schema: &Schema,
    json: Value,
) -> Result<Option<Term>, AllocError>
    ensures { IfOk result (λ term. term ≡ term_from schema.now (view json)) }
{
    let Value::Array(items) = json else {
        return Ok(None);
    };
    let Some((name, value, third)) = two_or_three(items) else {
        return Ok(None);
    };
    let Some(name) = text_of(name) else {
        return Ok(None);
    };
    let field = field_or_past(schema, name.as_str());
    if (field.field_id() as usize) < schema.num_fields() {
        known_term(alloc, field, schema.get_field_entry(field), value, third)
    } else {
        empty_term(alloc, field)
    }
}

/// The term of a field that the schema has.
fn known_term(
    alloc: Global,
    field: Field,
    entry: &FieldEntry,
    value: Value,
    third: Option<Value>,
) -> Result<Option<Term>, AllocError>
    ensures { IfOk result (λ term. term
        ≡ option_map (λ (bytes : List ℕ). record { field = field; bytes = bytes })
        (term_bytes (Some entry.now) (view value) (option_map view third))) }
{
    match third {
        None => plain_term_from(alloc, field, entry.kind, value),
        Some(third) => path_term(alloc, field, entry, value, third),
    }
}

/// The term under a path of a JSON field.
fn path_term(
    alloc: Global,
    field: Field,
    entry: &FieldEntry,
    path: Value,
    value: Value,
) -> Result<Option<Term>, AllocError>
    ensures { IfOk result (λ term. term
        ≡ option_map (λ (bytes : List ℕ). record { field = field; bytes = bytes })
        (term_bytes (Some entry.now) (view path) (Some (view value)))) }
{
    if entry.kind != FieldKind::Json {
        return Ok(None);
    }
    let Some(path) = text_of(path) else {
        return Ok(None);
    };
    json_term_from(alloc, field, entry.expand_dots, path.as_str(), value)
}

/// What stands for the term of a field that the schema lacks.
fn empty_term(alloc: Global, field: Field) -> Result<Option<Term>, AllocError>
    ensures { IfOk result (λ term. term ≡ Some (record { field = field; bytes = [] })) }
{
    match Term::from_field_bytes(alloc, field, &[]) {
        Ok(term) => Ok(Some(term)),
        Err(_) => Err(AllocError),
    }
}
