//! Reads the cuts of a script.
ghost use Rattle.std.specs.Prelude.{◌≡◌, [], codes, Some, None, Err, IfOk};
ghost use Rattle.serde_json.specs.View.{view};
ghost use Rattle.seg_meta.specs.JsonReaders.{natural, list_of};
ghost use Rattle.seg_script_values.specs.OptionalMembers.{optional};

use crate::error::ScriptError;
use crate::pushed_item::push;
use serde_json::Value;
use std::alloc::Global;

/// The cuts of a script.
pub(crate) fn cuts_at(alloc: Global, json: &Value) -> Result<Vec<usize>, ScriptError>
    ensures ok { IfOk result (λ c. optional [] (list_of natural) (codes "cuts") (view json.now) ≡ Some c.items) }
    ensures none { result ≡ Err ScriptError.NotScript
        → optional [] (list_of natural) (codes "cuts") (view json.now) ≡ None }
{
    match json.get("cuts") {
        None => Ok(Vec::new(alloc)),
        Some(cuts) => cuts_from(alloc, cuts),
    }
}

/// The cuts that a list is.
fn cuts_from(alloc: Global, json: &Value) -> Result<Vec<usize>, ScriptError>
    ensures ok { IfOk result (λ c. list_of natural (view json.now) ≡ Some c.items) }
    ensures none { result ≡ Err ScriptError.NotScript → list_of natural (view json.now) ≡ None }
{
    let Some(items) = json.as_array() else {
        return Err(ScriptError::NotScript);
    };
    let mut cuts = Vec::new(alloc);
    for item in items {
        let Some(cut) = item.as_u64() else {
            return Err(ScriptError::NotScript);
        };
        push(&mut cuts, cut as usize)?;
    }
    Ok(cuts)
}
