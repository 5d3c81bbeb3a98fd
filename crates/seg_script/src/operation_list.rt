//! Reads the operations of a script one by one from its text.
ghost use Rattle.std.specs.Prelude.{◌≡◌, ◌∷◌, [], true, List, map, length, codes, Some, None, IfOk, OnOk};
ghost use Rattle.json.specs.Token.{Token as SpecToken, begin_object, end_object, begin_array};
ghost use Rattle.json.specs.Json.{value, items, members};
ghost use Rattle.serde_json.specs.Data.{Data, Items, no_members, put};
ghost use Rattle.serde_json.specs.Read.{of_json, of_items, of_members, converted};
ghost use Rattle.serde_json.specs.View.{members_view};
ghost use Rattle.seg_meta.specs.JsonReaders.{each, list_of};
ghost use Rattle.seg_check.specs.UserOperations.{operation_of};
ghost use Rattle.seg_script.specs.Operations.{operation_from};

use crate::error::ScriptError;
use crate::json_values::{put, read_value};
use crate::operations::operation_from;
use crate::pushed_item::push;
use json::{Reader, Token};
use seg_check::UserOperation;
use seg_values::{Schema, TantivyDocument};
use serde_json::{Map, Value};
use std::alloc::Global;

/// How deep a member of a script may nest.
const MEMBER_DEPTH: usize = 126;

/// How deep an operation may nest.
const OPERATION_DEPTH: usize = 125;

/// The members of a script before its operations, whose name is passed.
pub(crate) fn members_before(
    alloc: Global,
    reader: &mut Reader<'_>,
) -> Result<Map<String, Value>, ScriptError>
    ensures { IfOk result (λ before. (d : Data) (r : List SpecToken)
        → converted of_json (value 126 reader.new) ≡ Some (d, end_object ∷ r)
        → converted (λ ms. of_members ms no_members) (members (value 126) (length reader.old) reader.old)
        ≡ Some (put (codes "operations") d (members_view before.entries), r)) }
{
    let mut before = Map::new(alloc);
    while let Some(name) = reader.next_key()? {
        if name == "operations" {
            return Ok(before);
        }
        let member = read_value(alloc, reader, MEMBER_DEPTH)?;
        put(alloc, &mut before, name, member)?;
    }
    Err(ScriptError::NotScript)
}

/// The operations of a list, of which each is made before the next is read.
pub(crate) fn read_operations(
    alloc: Global,
    reader: &mut Reader<'_>,
    schema: &Schema,
) -> Result<Vec<UserOperation<TantivyDocument>>, ScriptError>
    ensures { IfOk result (λ os. (d : Data) × (converted of_json (value 126 reader.old) ≡ Some (d, reader.new))
        × (list_of (operation_from schema.now) d ≡ Some (map operation_of os.items))) }
{
    begin_array(reader)?;
    operations_left(alloc, reader, schema)
}

/// What is left of a list of operations.
fn operations_left(
    alloc: Global,
    reader: &mut Reader<'_>,
    schema: &Schema,
) -> Result<Vec<UserOperation<TantivyDocument>>, ScriptError>
    ensures { IfOk result (λ os. (ds : Items)
        × (converted of_items (items (value 125) (length reader.old) reader.old) ≡ Some (ds, reader.new))
        × (each (operation_from schema.now) ds ≡ Some (map operation_of os.items))) }
{
    let mut operations = Vec::new(alloc);
    while !reader.take_end_array() {
        let json = read_value(alloc, reader, OPERATION_DEPTH)?;
        let operation = operation_from(alloc, schema, json)?;
        push(&mut operations, operation)?;
    }
    Ok(operations)
}

/// Passes the brace that begins an object.
pub(crate) fn begin_object(reader: &mut Reader<'_>) -> Result<(), ScriptError>
    ensures { OnOk result (reader.old ≡ begin_object ∷ reader.new) }
{
    match reader.next() {
        Some(Token::BeginObject) => Ok(()),
        _ => Err(ScriptError::NotScript),
    }
}

/// Passes the bracket that begins a list.
fn begin_array(reader: &mut Reader<'_>) -> Result<(), ScriptError>
    ensures { OnOk result (reader.old ≡ begin_array ∷ reader.new) }
{
    match reader.next() {
        Some(Token::BeginArray) => Ok(()),
        _ => Err(ScriptError::NotScript),
    }
}

/// Passes the brace that ends an object.
pub(crate) fn end_object(reader: &mut Reader<'_>) -> Result<(), ScriptError>
    ensures { OnOk result (reader.old ≡ end_object ∷ reader.new) }
{
    match reader.next() {
        Some(Token::EndObject) => Ok(()),
        _ => Err(ScriptError::NotScript),
    }
}

/// Whether no token is left.
pub(crate) fn is_over(reader: &mut Reader<'_>) -> bool
    ensures { result ≡ true → reader.old ≡ [] }
{
    reader.next().is_none()
}
