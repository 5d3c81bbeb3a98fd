//! Reads the ids of a script.
ghost use Rattle.std.specs.Prelude.{◌≡◌, ◌+◌, length, codes, Some, None, Err, IfOk};
ghost use Rattle.std.specs.List.{range_with_len};
ghost use Rattle.serde_json.specs.View.{view};
ghost use Rattle.seg_meta.specs.ParsedMetaParts.{id_from};
ghost use Rattle.seg_meta.specs.JsonReaders.{list_of};
ghost use Rattle.seg_script_values.specs.OptionalMembers.{optional};
ghost use Rattle.seg_script.specs.Script.{id_of};

use crate::error::ScriptError;
use crate::pushed_item::push;
use seg_common::SegmentId;
use serde_json::Value;
use std::alloc::{AllocError, Global};

/// The ids of a script with these cuts.
pub(crate) fn ids_at(
    alloc: Global,
    json: &Value,
    cuts: &[usize],
) -> Result<Vec<SegmentId>, ScriptError>
    ensures ok { IfOk result
        (λ i. optional (range_with_len 1 (length cuts.now + 2)) (list_of id_of) (codes "ids") (view json.now)
        ≡ Some i.items) }
    ensures none { result ≡ Err ScriptError.NotScript
        → optional (range_with_len 1 (length cuts.now + 2)) (list_of id_of) (codes "ids") (view json.now) ≡ None }
{
    match json.get("ids") {
        None => Ok(numbered_ids(alloc, cuts)?),
        Some(ids) => ids_from(alloc, ids),
    }
}

/// The ids 1, 2 and so on, one more than there are batches.
fn numbered_ids(alloc: Global, cuts: &[usize]) -> Result<Vec<SegmentId>, AllocError>
    ensures { IfOk result (λ i. i.items ≡ range_with_len 1 (length cuts.now + 2)) }
{
    let count = cuts.len() as u128 + 2;
    let mut ids = Vec::new(alloc);
    for before in 0..count {
        ids.push(SegmentId::from_u128(before + 1))?;
    }
    Ok(ids)
}

/// The ids that a list is.
fn ids_from(alloc: Global, json: &Value) -> Result<Vec<SegmentId>, ScriptError>
    ensures ok { IfOk result (λ i. list_of id_of (view json.now) ≡ Some i.items) }
    ensures none { result ≡ Err ScriptError.NotScript → list_of id_of (view json.now) ≡ None }
{
    let Some(items) = json.as_array() else {
        return Err(ScriptError::NotScript);
    };
    let mut ids = Vec::new(alloc);
    for item in items {
        let Some(id) = id_of(item) else {
            return Err(ScriptError::NotScript);
        };
        push(&mut ids, id)?;
    }
    Ok(ids)
}

/// The id that a text of digits is.
fn id_of(json: &Value) -> Option<SegmentId>
    ensures { result ≡ id_of (view json.now) }
{
    id_from(json.as_str()?)
}

fn id_from(text: &str) -> Option<SegmentId>
    ensures { result ≡ id_from text.now }
{
    SegmentId::from_uuid_string(text)
}
