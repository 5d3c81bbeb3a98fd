//! A script, whole.
ghost use Rattle.std.specs.Prelude.{◌≡◌, [], map, Some, None, Err, IfOk};
ghost use Rattle.json.specs.Json.{value};
ghost use Rattle.serde_json.specs.Data.{Data};
ghost use Rattle.serde_json.specs.Read.{of_json, converted};
ghost use Rattle.serde_json.specs.View.{view};
ghost use Rattle.seg_check.specs.UserOperations.{operation_of};
ghost use Rattle.seg_script.specs.Script.{input_with, script_from, script};

use crate::cuts::cuts_at;
use crate::error::ScriptError;
use crate::fields::schema_from;
use crate::filters::filters_at;
use crate::ids::ids_at;
use crate::operation_list::{begin_object, end_object, is_over, members_before, read_operations};
use crate::operations::operations_from;
use crate::settings::settings_at;
use json::{Reader, Scratch};
use seg_check::{BuildInput, UserOperation};
use seg_meta::has_only;
use seg_script_values::take_member;
use seg_values::{Schema, TantivyDocument};
use serde_json::Value;
use std::alloc::Global;

/// The members of a script.
const MEMBERS: [&str; 6] = ["schema", "settings", "operations", "cuts", "filters", "ids"];

/// The input that the bytes say.
pub fn read_script(alloc: Global, bytes: Vec<u8>) -> Result<BuildInput, ScriptError>
    ensures ok { IfOk result (λ s. script bytes.items ≡ Some s) }
    ensures not_script { result ≡ Err ScriptError.NotScript → script bytes.items ≡ None }
{
    match read_by_operations(alloc, &bytes) {
        Ok(input) => Ok(input),
        Err(ScriptError::OutOfMemory) => Err(ScriptError::OutOfMemory),
        Err(ScriptError::NotScript) => read_whole(alloc, bytes),
    }
}

/// The input that bytes say, where the operations are the last member and the schema is before them. So no JSON value
/// of all operations is made. `NotScript` says no more than that the bytes have another form.
fn read_by_operations(alloc: Global, bytes: &[u8]) -> Result<BuildInput, ScriptError>
    ensures { IfOk result (λ s. script bytes.now ≡ Some s) }
{
    let Ok(text) = std::str::from_utf8(bytes) else {
        return Err(ScriptError::NotScript);
    };
    let mut scratch = Scratch::new(alloc);
    let mut reader = Reader::new(text, &mut scratch)?;
    script_read(alloc, &mut reader)
}

/// The input that all tokens of a text say.
fn script_read(alloc: Global, reader: &mut Reader<'_>) -> Result<BuildInput, ScriptError>
    ensures { IfOk result (λ s. (d : Data) × (converted of_json (value 127 reader.old) ≡ Some (d, []))
        × (script_from d ≡ Some s)) }
{
    begin_object(reader)?;
    let before = Value::Object(members_before(alloc, reader)?);
    let schema = schema_from(alloc, before.get("schema").ok_or(ScriptError::NotScript)?)?;
    let operations = read_operations(alloc, reader, &schema)?;
    end_object(reader)?;
    if !is_over(reader) {
        return Err(ScriptError::NotScript);
    }
    input_with(alloc, &before, schema, operations)
}

/// The input of a schema and operations, with what the other members say.
fn input_with(
    alloc: Global,
    json: &Value,
    schema: Schema,
    operations: Vec<UserOperation<TantivyDocument>>,
) -> Result<BuildInput, ScriptError>
    ensures { IfOk result (λ s. input_with schema (map operation_of operations.items) (view json.now) ≡ Some s) }
{
    if !has_only(json, &MEMBERS) {
        return Err(ScriptError::NotScript);
    }
    let settings = settings_at(json).ok_or(ScriptError::NotScript)?;
    let cuts = cuts_at(alloc, json)?;
    let filters = filters_at(alloc, json, &cuts)?;
    let ids = ids_at(alloc, json, &cuts)?;
    Ok(BuildInput {
        schema,
        settings,
        operations,
        cuts,
        filters,
        ids,
    })
}

/// The input that the bytes say. They are released as soon as their JSON value is there, and texts are moved out of it.
fn read_whole(alloc: Global, bytes: Vec<u8>) -> Result<BuildInput, ScriptError>
    ensures ok { IfOk result (λ s. script bytes.items ≡ Some s) }
    ensures not_script { result ≡ Err ScriptError.NotScript → script bytes.items ≡ None }
{
    let read = Value::from_slice(alloc, &bytes);
    drop(bytes);
    match read {
        Ok(json) => script_from(alloc, json),
        Err(e) => {
            if e.is_memory() {
                Err(ScriptError::OutOfMemory)
            } else {
                Err(ScriptError::NotScript)
            }
        }
    }
}

/// The input that a JSON value says.
fn script_from(alloc: Global, json: Value) -> Result<BuildInput, ScriptError>
    ensures ok { IfOk result (λ s. script_from (view json) ≡ Some s) }
    ensures none { result ≡ Err ScriptError.NotScript → script_from (view json) ≡ None }
{
    if !has_only(&json, &MEMBERS) {
        return Err(ScriptError::NotScript);
    }
    let schema = schema_from(alloc, json.get("schema").ok_or(ScriptError::NotScript)?)?;
    let settings = settings_at(&json).ok_or(ScriptError::NotScript)?;
    let cuts = cuts_at(alloc, &json)?;
    let filters = filters_at(alloc, &json, &cuts)?;
    let ids = ids_at(alloc, &json, &cuts)?;
    let operations = take_member(json, "operations").ok_or(ScriptError::NotScript)?;
    let operations = operations_from(alloc, &schema, operations)?;
    Ok(BuildInput {
        schema,
        settings,
        operations,
        cuts,
        filters,
        ids,
    })
}
