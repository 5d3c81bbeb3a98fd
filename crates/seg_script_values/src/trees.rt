//! JSON values as trees.
ghost use Rattle.std.specs.Prelude.{◌≡◌, option_map, IfOk};
ghost use Rattle.serde_json.specs.View.{view, items_view, members_view};
ghost use Rattle.seg_values.specs.ValueTrees.{tree_of};
ghost use Rattle.seg_script_values.specs.Trees.{tree_from, values_from, members_read};

use crate::leaves::{number_leaf, text_leaf};
use seg_tokens::Text;
use seg_values::{FieldKind, Members, OwnedValue, Values};
use serde_json::{Map, Value};
use std::alloc::{AllocError, Global};

/// The tree that a JSON value is by a kind; none where it has a number that isn't whole. Its texts are moved.
#[cycle(tree_from)]
pub fn tree_from(
    alloc: Global,
    kind: FieldKind,
    json: Value,
) -> Result<Option<OwnedValue>, AllocError>
    ensures { IfOk result (λ value. option_map tree_of value ≡ tree_from kind (view json)) }
{
    match json {
        Value::Null => Ok(Some(OwnedValue::Null)),
        Value::Bool(bit) => Ok(Some(OwnedValue::Bool(bit))),
        Value::Number(number) => Ok(number_leaf(kind, &number)),
        Value::String(text) => Ok(Some(text_leaf(alloc, kind, text)?)),
        Value::Array(items) => match values_from(alloc, kind, items)? {
            Some(values) => Ok(Some(OwnedValue::Array(values))),
            None => Ok(None),
        },
        Value::Object(members) => match members_from(alloc, members)? {
            Some(members) => Ok(Some(OwnedValue::Object(members))),
            None => Ok(None),
        },
    }
}

/// The trees of a list's items.
#[cycle(tree_from)]
fn values_from(
    alloc: Global,
    kind: FieldKind,
    items: Vec<Value>,
) -> Result<Option<Values>, AllocError>
    ensures { IfOk result (λ values. values ≡ values_from kind (items_view items.items)) }
{
    let mut values = Values::new(alloc);
    for item in items {
        let Some(value) = tree_from(alloc, kind, item)? else {
            return Ok(None);
        };
        values.push(value)?;
    }
    Ok(Some(values))
}

/// The trees of an object's members, in the order of their keys.
#[cycle(tree_from)]
fn members_from(alloc: Global, members: Map<String, Value>) -> Result<Option<Members>, AllocError>
    ensures { IfOk result (λ trees. trees ≡ members_read (members_view members.entries)) }
{
    let mut trees = Members::new(alloc);
    for (key, member) in members {
        let Some(value) = tree_from(alloc, FieldKind::Json, member)? else {
            return Ok(None);
        };
        trees.push(Text::from_string(key), value)?;
    }
    Ok(Some(trees))
}
