//! JSON values, read one by one.
ghost use Rattle.std.specs.Prelude.{◌≡◌, ◌<◌, length, Some, None, option_map, IfOk, OnOk, OnErr};
ghost use Rattle.json.specs.Json.{value, items, members};
ghost use Rattle.serde_json.specs.Data.{no_members, number, put};
ghost use Rattle.serde_json.specs.Read.{of_json, of_items, of_members, converted, number_of};
ghost use Rattle.serde_json.specs.View.{view, items_view, members_view};

use crate::error::ScriptError;
use crate::numbers::number_from;
use crate::pushed_item::push;
use json::{Reader, Token};
use serde_json::{Map, Value};
use std::alloc::{AllocError, Global};

/// The next value, with arrays and objects nested no deeper than `depth`; `NotScript` where none is next.
#[cycle(reading)]
pub(crate) fn read_value(
    alloc: Global,
    reader: &mut Reader<'_>,
    depth: usize,
) -> Result<Value, ScriptError>
    ensures ok { IfOk result (λ v. converted of_json (value depth reader.old) ≡ Some (view v, reader.new)) }
    ensures shorter { OnOk result (length reader.new < length reader.old) }
{
    let Some(token) = reader.next() else {
        return Err(ScriptError::NotScript);
    };
    match token {
        Token::String(text) => Ok(Value::String(String::from_str(alloc, text)?)),
        Token::Number(text) => number_value(text),
        Token::Bool(truth) => Ok(Value::Bool(truth)),
        Token::Null => Ok(Value::Null),
        Token::EndObject | Token::EndArray | Token::Key(_) | Token::Bad => {
            Err(ScriptError::NotScript)
        }
        Token::BeginArray => {
            if depth == 0 {
                return Err(ScriptError::NotScript);
            }
            Ok(Value::Array(read_items(alloc, reader, depth - 1)?))
        }
        Token::BeginObject => {
            if depth == 0 {
                return Err(ScriptError::NotScript);
            }
            Ok(Value::Object(read_members(alloc, reader, depth - 1)?))
        }
    }
}

/// What is left of an array.
#[cycle(reading)]
fn read_items(
    alloc: Global,
    reader: &mut Reader<'_>,
    depth: usize,
) -> Result<Vec<Value>, ScriptError>
    ensures ok { IfOk result
        (λ v. converted of_items (items (value depth) (length reader.old) reader.old)
        ≡ Some (items_view v.items, reader.new)) }
    ensures shorter { OnOk result (length reader.new < length reader.old) }
{
    let mut found = Vec::new(alloc);
    while !reader.take_end_array() {
        let item = read_value(alloc, reader, depth)?;
        push(&mut found, item)?;
    }
    Ok(found)
}

/// What is left of an object.
#[cycle(reading)]
fn read_members(
    alloc: Global,
    reader: &mut Reader<'_>,
    depth: usize,
) -> Result<Map<String, Value>, ScriptError>
    ensures ok { IfOk result
        (λ m. converted (λ ms. of_members ms no_members) (members (value depth) (length reader.old) reader.old)
        ≡ Some (members_view m.entries, reader.new)) }
    ensures shorter { OnOk result (length reader.new < length reader.old) }
{
    let mut found = Map::new(alloc);
    while let Some(name) = reader.next_key()? {
        let member = read_value(alloc, reader, depth)?;
        put(alloc, &mut found, name, member)?;
    }
    Ok(found)
}

/// Sets the member with a name.
pub(crate) fn put(
    alloc: Global,
    members: &mut Map<String, Value>,
    name: &str,
    member: Value,
) -> Result<(), AllocError>
    ensures { OnOk result (members_view members.new.entries
        ≡ put name.now (view member) (members_view members.old.entries)) }
{
    let key = String::from_str(alloc, name)?;
    drop(members.insert(key, member)?);
    Ok(())
}

/// The value that a token of a number is.
fn number_value(text: &str) -> Result<Value, ScriptError>
    ensures ok { IfOk result (λ v. option_map number (number_of text.now) ≡ Some (view v)) }
    ensures err { OnErr result (number_of text.now ≡ None) }
{
    match number_from(text) {
        Some(number) => Ok(Value::Number(number)),
        None => Err(ScriptError::NotScript),
    }
}
