//! Values that JSON values are read as.
ghost use Rattle.std.specs.Prelude.{◌≡◌, ◌⊎◌, Some, None, Err, IfOk, IfErr, IsOkUnless, option_map};
ghost use Rattle.serde_json.specs.Data as json;
ghost use Rattle.serde_json.specs.View.{view, number_view, items_view, members_view};
ghost use Rattle.seg_values.specs.JsonTrees.{json_tree, told_tree, number_leaf, told_moment, text_leaf, tree_read, trees_read, members_read};
ghost use Rattle.seg_values.specs.Tree as trees;
ghost use Rattle.seg_values.specs.ValueTrees.{tree_of};

use crate::reading::Reading;
use crate::value::{Members, OwnedValue, Values};
use crate::value_error::ValueError;
use seg_common::{DateTime, can_be_rfc3339_date_time};
use seg_tokens::Text;
use serde_json::{Map, Number, Value};
use std::alloc::Global;

impl OwnedValue {
    /// A copy of a JSON value: a whole number is a U64, or an I64 where it is negative, and a text a Str. `Float`: a
    /// number in it isn't whole. The call goes as deep as the value.
    pub fn from_json(alloc: Global, value: &Value) -> Result<OwnedValue, ValueError>
        ensures ok { IfOk result (λ v. json_tree (view value.now) ≡ Some (tree_of v)) }
        ensures float { result ≡ Err ValueError.Float → json_tree (view value.now) ≡ None }
        ensures causes { IfErr result (λ e. (e ≡ ValueError.Float) ⊎ (e ≡ ValueError.OutOfMemory)) }
    {
        value_from(alloc, Reading::Plain, value)
    }

    /// A copy of a JSON value: a whole number is an I64, or a U64 where no I64 holds it, and a text that begins with a
    /// digit and tells a moment, as RFC 3339 has it, is a Date. `Float`: a number in it isn't whole. The call goes as
    /// deep as the value.
    pub fn from_serde_json(alloc: Global, value: &Value) -> Result<OwnedValue, ValueError>
        ensures ok { IfOk result (λ v. told_tree (view value.now) ≡ Some (tree_of v)) }
        ensures float { result ≡ Err ValueError.Float → told_tree (view value.now) ≡ None }
        ensures causes { IfErr result (λ e. (e ≡ ValueError.Float) ⊎ (e ≡ ValueError.OutOfMemory)) }
    {
        value_from(alloc, Reading::Telling, value)
    }

    /// A copy of a JSON object, which is read as `from_serde_json` does.
    pub fn from_serde_map(alloc: Global, map: &Map<String, Value>) -> Result<OwnedValue, ValueError>
        ensures ok { IfOk result (λ v. told_tree (json.object (members_view map.now.entries)) ≡ Some (tree_of v)) }
        ensures float { result ≡ Err ValueError.Float → told_tree (json.object (members_view map.now.entries)) ≡ None }
        ensures causes { IfErr result (λ e. (e ≡ ValueError.Float) ⊎ (e ≡ ValueError.OutOfMemory)) }
    {
        object_from(alloc, Reading::Telling, map)
    }
}

#[cycle(read_json)]
fn value_from(alloc: Global, reading: Reading, json: &Value) -> Result<OwnedValue, ValueError>
    ensures ok { IfOk result (λ v. tree_read reading (view json.now) ≡ Some (tree_of v)) }
    ensures float { result ≡ Err ValueError.Float → tree_read reading (view json.now) ≡ None }
    ensures causes { IfErr result (λ e. (e ≡ ValueError.Float) ⊎ (e ≡ ValueError.OutOfMemory)) }
{
    match json {
        Value::Null => Ok(OwnedValue::Null),
        Value::Bool(truth) => Ok(OwnedValue::Bool(*truth)),
        Value::Number(number) => number_from(reading, number).ok_or(ValueError::Float),
        Value::String(text) => text_from(alloc, reading, text.as_str()),
        Value::Array(items) => Ok(OwnedValue::Array(values_from(alloc, reading, items)?)),
        Value::Object(members) => object_from(alloc, reading, members),
    }
}

#[cycle(read_json)]
fn object_from(
    alloc: Global,
    reading: Reading,
    map: &Map<String, Value>,
) -> Result<OwnedValue, ValueError>
    ensures ok { IfOk result (λ v. tree_read reading (json.object (members_view map.now.entries)) ≡ Some (tree_of v)) }
    ensures float { result ≡ Err ValueError.Float
        → tree_read reading (json.object (members_view map.now.entries)) ≡ None }
    ensures causes { IfErr result (λ e. (e ≡ ValueError.Float) ⊎ (e ≡ ValueError.OutOfMemory)) }
{
    Ok(OwnedValue::Object(members_from(alloc, reading, map)?))
}

#[cycle(read_json)]
fn values_from(alloc: Global, reading: Reading, items: &Vec<Value>) -> Result<Values, ValueError>
    ensures ok { IfOk result (λ vs. trees_read reading (items_view items.now.items) ≡ Some vs) }
    ensures float { result ≡ Err ValueError.Float → trees_read reading (items_view items.now.items) ≡ None }
    ensures causes { IfErr result (λ e. (e ≡ ValueError.Float) ⊎ (e ≡ ValueError.OutOfMemory)) }
{
    let mut values = Values::new(alloc);
    for item in items {
        values.push(value_from(alloc, reading, item)?)?;
    }
    Ok(values)
}

#[cycle(read_json)]
fn members_from(
    alloc: Global,
    reading: Reading,
    entries: &Map<String, Value>,
) -> Result<Members, ValueError>
    ensures ok { IfOk result (λ ms. members_read reading (members_view entries.now.entries) ≡ Some ms) }
    ensures float { result ≡ Err ValueError.Float → members_read reading (members_view entries.now.entries) ≡ None }
    ensures causes { IfErr result (λ e. (e ≡ ValueError.Float) ⊎ (e ≡ ValueError.OutOfMemory)) }
{
    let mut members = Members::new(alloc);
    for (key, json) in entries.iter() {
        let value = value_from(alloc, reading, json)?;
        let name = Text::copy_of(alloc, key.as_str())?;
        members.push(name, value)?;
    }
    Ok(members)
}

/// The value of a whole number.
fn number_from(reading: Reading, number: &Number) -> Option<OwnedValue>
    ensures { option_map tree_of result ≡ option_map trees.leaf (number_leaf reading (number_view number.now)) }
{
    match reading {
        Reading::Plain => match number.as_u64() {
            Some(unsigned) => Some(OwnedValue::U64(unsigned)),
            None => Some(OwnedValue::I64(number.as_i64()?)),
        },
        Reading::Telling => match number.as_i64() {
            Some(signed) => Some(OwnedValue::I64(signed)),
            None => Some(OwnedValue::U64(number.as_u64()?)),
        },
    }
}

/// The value of a text.
fn text_from(alloc: Global, reading: Reading, text: &str) -> Result<OwnedValue, ValueError>
    ensures ok { IfOk result (λ v. tree_of v ≡ trees.leaf (text_leaf reading text.now)) }
    ensures memory { IsOkUnless result ValueError.OutOfMemory }
{
    match told_moment(reading, text) {
        Some(moment) => Ok(OwnedValue::Date(moment)),
        None => OwnedValue::from_text(alloc, text),
    }
}

/// The moment that a text tells.
fn told_moment(reading: Reading, text: &str) -> Option<DateTime>
    ensures { result ≡ told_moment reading text.now }
{
    match reading {
        Reading::Telling if can_be_rfc3339_date_time(text) => DateTime::parse_rfc3339(text),
        _ => None,
    }
}
