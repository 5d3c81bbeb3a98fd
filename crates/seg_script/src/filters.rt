//! Reads the filters of a script.
ghost use Rattle.std.specs.Prelude.{◌≡◌, ◌+◌, ◌<◌, length, replicate, codes, Some, None, Err, IfOk};
ghost use Rattle.serde_json.specs.View.{view};
ghost use Rattle.seg_meta.specs.JsonReaders.{below, nullable, list_of};
ghost use Rattle.seg_script_values.specs.OptionalMembers.{optional};
ghost use Rattle.seg_script.specs.Filters.{filter_from};

use crate::error::ScriptError;
use crate::kept_documents::{alive_set, ascends};
use crate::pushed_item::push;
use seg_bits::AliveBitSet;
use seg_meta::has_only;
use seg_script_values::small_at;
use serde_json::Value;
use std::alloc::{AllocError, Global};

/// The filters of a script with these cuts.
pub(crate) fn filters_at(
    alloc: Global,
    json: &Value,
    cuts: &[usize],
) -> Result<Vec<Option<AliveBitSet>>, ScriptError>
    ensures ok { IfOk result (λ f. optional (replicate (length cuts.now + 1) None) (list_of (nullable filter_from))
        (codes "filters") (view json.now)
        ≡ Some f.items) }
    ensures none { result ≡ Err ScriptError.NotScript
        → optional (replicate (length cuts.now + 1) None) (list_of (nullable filter_from))
        (codes "filters") (view json.now)
        ≡ None }
{
    match json.get("filters") {
        None => Ok(no_filters(alloc, cuts)?),
        Some(filters) => filters_from(alloc, filters),
    }
}

/// No filter for any of the batches.
fn no_filters(alloc: Global, cuts: &[usize]) -> Result<Vec<Option<AliveBitSet>>, AllocError>
    ensures { IfOk result (λ f. f.items ≡ replicate (length cuts.now + 1) None) }
{
    let mut filters = Vec::new(alloc);
    filters.push(None)?;
    for _cut in cuts {
        filters.push(None)?;
    }
    Ok(filters)
}

/// The filters that a list is.
fn filters_from(alloc: Global, json: &Value) -> Result<Vec<Option<AliveBitSet>>, ScriptError>
    ensures ok { IfOk result (λ f. list_of (nullable filter_from) (view json.now) ≡ Some f.items) }
    ensures none { result ≡ Err ScriptError.NotScript → list_of (nullable filter_from) (view json.now) ≡ None }
{
    let Some(items) = json.as_array() else {
        return Err(ScriptError::NotScript);
    };
    let mut filters = Vec::new(alloc);
    for item in items {
        let filter = filter_or_null(alloc, item)?;
        push(&mut filters, filter)?;
    }
    Ok(filters)
}

/// A filter, or none.
fn filter_or_null(alloc: Global, json: &Value) -> Result<Option<AliveBitSet>, ScriptError>
    ensures ok { IfOk result (λ f. nullable filter_from (view json.now) ≡ Some f) }
    ensures none { result ≡ Err ScriptError.NotScript → nullable filter_from (view json.now) ≡ None }
{
    match json {
        Value::Null => Ok(None),
        filter => Ok(Some(filter_from(alloc, filter)?)),
    }
}

/// `{"size": number, "drop": [documents]}`
fn filter_from(alloc: Global, json: &Value) -> Result<AliveBitSet, ScriptError>
    ensures ok { IfOk result (λ f. filter_from (view json.now) ≡ Some f) }
    ensures none { result ≡ Err ScriptError.NotScript → filter_from (view json.now) ≡ None }
{
    if !has_only(json, &["size", "drop"]) {
        return Err(ScriptError::NotScript);
    }
    let size = small_at(json, "size").ok_or(ScriptError::NotScript)?;
    let dropped = dropped_from(alloc, size, json.get("drop").ok_or(ScriptError::NotScript)?)?;
    if !ascends(&dropped) {
        return Err(ScriptError::NotScript);
    }
    Ok(alive_set(alloc, size, &dropped)?)
}

/// The dropped documents, each below the number of all.
fn dropped_from(alloc: Global, size: u32, json: &Value) -> Result<Vec<u32>, ScriptError>
    ensures ok { IfOk result (λ d. list_of (below size) (view json.now) ≡ Some d.items) }
    ensures none { result ≡ Err ScriptError.NotScript → list_of (below size) (view json.now) ≡ None }
{
    let Some(items) = json.as_array() else {
        return Err(ScriptError::NotScript);
    };
    let mut dropped = Vec::new(alloc);
    for item in items {
        let Some(document) = document_below(size, item) else {
            return Err(ScriptError::NotScript);
        };
        push(&mut dropped, document)?;
    }
    Ok(dropped)
}

/// A document below the number of all.
fn document_below(size: u32, json: &Value) -> Option<u32>
    ensures { result ≡ below size (view json.now) }
{
    let document = json.as_u64()?;
    if document < u64::from(size) {
        Some(document as u32)
    } else {
        None
    }
}
