//! The terms that deletes name.
ghost use Rattle.std.specs.Prelude.{◌≡◌, ℕ, List, ◌++◌, option_map, IfOk};
ghost use Rattle.serde_json.specs.View.{view};
ghost use Rattle.seg_values.specs.ValueTrees.{tree_of};
ghost use Rattle.seg_script_values.specs.Deletes.{leaf_bytes, plain_term, coded_tree, json_term};

use crate::trees::tree_from;
use seg_check::is_own_leaf;
use seg_values::{Field, FieldKind, OwnedValue, Term, ValueError};
use serde_json::Value;
use std::alloc::{AllocError, Global};

/// The term that a value names in a field of a kind other than JSON; none where it is no leaf of that kind. A text is
/// not cut, and a facet names itself alone.
pub fn plain_term_from(
    alloc: Global,
    field: Field,
    kind: FieldKind,
    json: Value,
) -> Result<Option<Term>, AllocError>
    ensures { IfOk result (λ term. term
        ≡ option_map (λ (bytes : List ℕ). record { field = field; bytes = bytes }) (plain_term kind (view json))) }
{
    let Some(value) = tree_from(alloc, kind, json)? else {
        return Ok(None);
    };
    if !is_own_leaf(kind, &value) {
        return Ok(None);
    }
    match leaf_term(alloc, field, &value) {
        Ok(term) => Ok(Some(term)),
        Err(_) => Err(AllocError),
    }
}

/// The term that a value names under a path of a JSON field; none where it is no text, number, truth value or date.
pub fn json_term_from(
    alloc: Global,
    field: Field,
    expand_dots: bool,
    path: &str,
    json: Value,
) -> Result<Option<Term>, AllocError>
    ensures { IfOk result (λ term. term
        ≡ option_map (λ (bytes : List ℕ). record { field = field; bytes = bytes })
        (json_term expand_dots path.now (view json))) }
{
    let Some(value) = tree_from(alloc, FieldKind::Json, json)? else {
        return Ok(None);
    };
    let Ok(front) = Term::from_field_json_path(alloc, field, path, expand_dots) else {
        return Err(AllocError);
    };
    match completed(front, &value) {
        Ok(term) => Ok(term),
        Err(_) => Err(AllocError),
    }
}

/// A term that a leaf completes; none where the value is no text, number, truth value or date.
fn completed(mut front: Term, value: &OwnedValue) -> Result<Option<Term>, ValueError>
    ensures { IfOk result (λ term. term
        ≡ option_map (λ (coded : List ℕ). record front { bytes = front.bytes ++ coded })
        (coded_tree (tree_of value.now))) }
{
    match value {
        OwnedValue::Str(text) => front.append_type_and_str(text.as_str())?,
        OwnedValue::U64(number) => front.append_type_and_fast_value(*number)?,
        OwnedValue::I64(number) => front.append_type_and_fast_value(*number)?,
        OwnedValue::Bool(bit) => front.append_type_and_fast_value(*bit)?,
        OwnedValue::Date(date) => front.append_type_and_fast_value(*date)?,
        _ => return Ok(None),
    }
    Ok(Some(front))
}

/// The term of a leaf.
fn leaf_term(alloc: Global, field: Field, value: &OwnedValue) -> Result<Term, ValueError>
    ensures { IfOk result (λ term. term ≡ record { field = field; bytes = leaf_bytes (tree_of value.now) }) }
{
    match value {
        OwnedValue::Str(text) => Term::from_field_text(alloc, field, text.as_str()),
        OwnedValue::U64(number) => Term::from_field_u64(alloc, field, *number),
        OwnedValue::I64(number) => Term::from_field_i64(alloc, field, *number),
        OwnedValue::Bool(bit) => Term::from_field_bool(alloc, field, *bit),
        OwnedValue::Date(date) => Term::from_field_date(alloc, field, *date),
        OwnedValue::Facet(facet) => Term::from_facet(alloc, field, facet),
        OwnedValue::Bytes(bytes) => Term::from_field_bytes(alloc, field, bytes.as_slice()),
        OwnedValue::IpAddr(address) => Term::from_field_ip_addr(alloc, field, *address),
        _ => Term::from_field_bytes(alloc, field, &[]),
    }
}
