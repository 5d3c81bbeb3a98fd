//! A copy of a JSON value of `serde_json`.
ghost use Rattle.std.specs.Prelude.{◌≡◌, false, true, ◌⊎◌, IfOk, IfErr};
ghost use Rattle.serde_json.specs.View.{view, number_view, items_view, members_view};
ghost use Rattle.serde_json.specs.Find.{is_float};
ghost use Rattle.serde_json.specs.Written.{has_float, items_have_float, members_have_float};
ghost use Rattle.seg_values.specs.Tree.{leaf, trees_from, members_from};
ghost use Rattle.seg_access.specs.JsonTrees.{tree_of_json, number_leaf, data_tree, item_trees, member_trees};

use crate::json_value::{JsonMembers, JsonValue, JsonValues};
use seg_tokens::Text;
use seg_values::ValueError;
use serde_json::{Map, Number, Value};
use std::alloc::Global;

impl JsonValue {
    /// A copy of the value, unless it has a float anywhere.
    pub fn new(alloc: Global, value: &Value) -> Result<JsonValue, ValueError>
        ensures ok { IfOk result (λ copy. tree_of_json copy ≡ data_tree (view value.now)) }
        ensures whole { IfOk result (λ _. has_float (view value.now) ≡ false) }
        ensures err { IfErr result (λ e. (e ≡ ValueError.OutOfMemory)
            ⊎ ((e ≡ ValueError.Float) × (has_float (view value.now) ≡ true))) }
    {
        copy(alloc, value)
    }
}

#[cycle(copy)]
fn copy(alloc: Global, value: &Value) -> Result<JsonValue, ValueError>
    ensures ok { IfOk result (λ copy. tree_of_json copy ≡ data_tree (view value.now)) }
    ensures whole { IfOk result (λ _. has_float (view value.now) ≡ false) }
    ensures err { IfErr result (λ e. (e ≡ ValueError.OutOfMemory)
        ⊎ ((e ≡ ValueError.Float) × (has_float (view value.now) ≡ true))) }
{
    match value {
        Value::Null => Ok(JsonValue::Null),
        Value::Bool(truth) => Ok(JsonValue::Bool(*truth)),
        Value::Number(number) => copy_number(number),
        Value::String(text) => Ok(JsonValue::Str(Text::copy_of(alloc, text.as_str())?)),
        Value::Array(items) => Ok(JsonValue::Array(copy_items(alloc, items)?)),
        Value::Object(members) => Ok(JsonValue::Object(copy_members(alloc, members)?)),
    }
}

fn copy_number(number: &Number) -> Result<JsonValue, ValueError>
    ensures ok { IfOk result (λ copy. tree_of_json copy ≡ leaf (number_leaf (number_view number.now))) }
    ensures whole { IfOk result (λ _. is_float (number_view number.now) ≡ false) }
    ensures err { IfErr result (λ e. (e ≡ ValueError.Float) × (is_float (number_view number.now) ≡ true)) }
{
    if let Some(whole) = number.as_i64() {
        return Ok(JsonValue::I64(whole));
    }
    match number.as_u64() {
        Some(whole) => Ok(JsonValue::U64(whole)),
        None => Err(ValueError::Float),
    }
}

#[cycle(copy)]
fn copy_items(alloc: Global, items: &Vec<Value>) -> Result<JsonValues, ValueError>
    ensures ok { IfOk result (λ copies. trees_from copies ≡ item_trees (items_view items.now.items)) }
    ensures whole { IfOk result (λ _. items_have_float (items_view items.now.items) ≡ false) }
    ensures err { IfErr result (λ e. (e ≡ ValueError.OutOfMemory)
        ⊎ ((e ≡ ValueError.Float) × (items_have_float (items_view items.now.items) ≡ true))) }
{
    let mut copies = JsonValues::new(alloc);
    for item in items {
        copies.push(copy(alloc, item)?)?;
    }
    Ok(copies)
}

#[cycle(copy)]
fn copy_members(alloc: Global, members: &Map<String, Value>) -> Result<JsonMembers, ValueError>
    ensures ok { IfOk result (λ copies. members_from copies ≡ member_trees (members_view members.now.entries)) }
    ensures whole { IfOk result (λ _. members_have_float (members_view members.now.entries) ≡ false) }
    ensures err { IfErr result (λ e. (e ≡ ValueError.OutOfMemory)
        ⊎ ((e ≡ ValueError.Float) × (members_have_float (members_view members.now.entries) ≡ true))) }
{
    let mut copies = JsonMembers::new(alloc);
    for (key, member) in members.iter() {
        let key = Text::copy_of(alloc, key.as_str())?;
        copies.push(key, copy(alloc, member)?)?;
    }
    Ok(copies)
}
