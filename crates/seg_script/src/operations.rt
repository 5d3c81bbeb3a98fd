//! Reads the operations of a script.
ghost use Rattle.std.specs.Prelude.{◌≡◌, Some, None, Err, IfOk, map};
ghost use Rattle.serde_json.specs.View.{view};
ghost use Rattle.seg_meta.specs.JsonReaders.{list_of};
ghost use Rattle.seg_check.specs.UserOperations.{operation_of};
ghost use Rattle.seg_script.specs.Deletes.{term_from};
ghost use Rattle.seg_script.specs.Operations.{operation_named, operation_from};

use crate::deletes::term_from;
use crate::error::ScriptError;
use crate::pairs::document_from;
use crate::pushed_item::push;
use seg_check::UserOperation;
use seg_script_values::only_member;
use seg_values::{Schema, TantivyDocument, Term};
use serde_json::Value;
use std::alloc::Global;

/// The operations that a list is.
pub(crate) fn operations_from(
    alloc: Global,
    schema: &Schema,
    json: Value,
) -> Result<Vec<UserOperation<TantivyDocument>>, ScriptError>
    ensures ok { IfOk result (λ os. list_of (operation_from schema.now) (view json)
        ≡ Some (map operation_of os.items)) }
    ensures none { result ≡ Err ScriptError.NotScript → list_of (operation_from schema.now) (view json) ≡ None }
{
    let Value::Array(items) = json else {
        return Err(ScriptError::NotScript);
    };
    let mut operations = Vec::new(alloc);
    for item in items {
        push(&mut operations, operation_from(alloc, schema, item)?)?;
    }
    Ok(operations)
}

/// `{"add": [pairs]}` or `{"delete": [..]}`
pub(crate) fn operation_from(
    alloc: Global,
    schema: &Schema,
    json: Value,
) -> Result<UserOperation<TantivyDocument>, ScriptError>
    ensures ok { IfOk result (λ o. operation_from schema.now (view json) ≡ Some (operation_of o)) }
    ensures none { result ≡ Err ScriptError.NotScript → operation_from schema.now (view json) ≡ None }
{
    let Value::Object(members) = json else {
        return Err(ScriptError::NotScript);
    };
    let (word, value) = only_member(members).ok_or(ScriptError::NotScript)?;
    operation_named(alloc, schema, word.as_str(), value)
}

/// The addition or delete that a word makes of a value.
fn operation_named(
    alloc: Global,
    schema: &Schema,
    word: &str,
    value: Value,
) -> Result<UserOperation<TantivyDocument>, ScriptError>
    ensures ok { IfOk result (λ o. operation_named schema.now word.now (view value) ≡ Some (operation_of o)) }
    ensures none { result ≡ Err ScriptError.NotScript → operation_named schema.now word.now (view value) ≡ None }
{
    match word {
        "add" => Ok(UserOperation::Add(document_from(alloc, schema, value)?)),
        "delete" => Ok(UserOperation::Delete(deleted_term(alloc, schema, value)?)),
        _ => Err(ScriptError::NotScript),
    }
}

fn deleted_term(alloc: Global, schema: &Schema, json: Value) -> Result<Term, ScriptError>
    ensures ok { IfOk result (λ t. term_from schema.now (view json) ≡ Some t) }
    ensures none { result ≡ Err ScriptError.NotScript → term_from schema.now (view json) ≡ None }
{
    match term_from(alloc, schema, json)? {
        Some(term) => Ok(term),
        None => Err(ScriptError::NotScript),
    }
}
