//! Reads the meta of an index from its text.
ghost use Rattle.std.specs.Prelude.{◌≡◌, Some, None, Err, IfOk};
ghost use Rattle.serde_json.specs.View.{view};
ghost use Rattle.seg_meta.specs.ParsedMeta.{meta_read, meta_from};
ghost use Rattle.seg_meta.specs.SavableMetas.{IsMetaList};
ghost use Rattle.seg_meta.specs.MetaMeaning.{meta_of};

use crate::members::{has_only, number_at, optional_text_at};
use crate::schema_read::schema_from;
use crate::segments_read::segments_from;
use crate::{IndexMeta, IndexSettings, ReadError, SegmentMetas, settings_from};
use seg_values::Schema;
use serde_json::Value;
use std::alloc::Global;

/// The meta that bytes are: a JSON text of an object with exactly the members of a meta. Of equal keys the last counts.
pub fn read_meta(alloc: Global, bytes: &[u8]) -> Result<IndexMeta, ReadError>
    ensures ok { IfOk result (λ m. meta_read bytes.now ≡ Some (meta_of m)) }
    ensures list { IfOk result (λ m. IsMetaList m.segments) }
    ensures none { result ≡ Err ReadError.NoMeta → meta_read bytes.now ≡ None }
{
    match Value::from_slice(alloc, bytes) {
        Ok(json) => meta_from(alloc, &json),
        Err(e) => {
            if e.is_memory() {
                Err(ReadError::OutOfMemory)
            } else {
                Err(ReadError::NoMeta)
            }
        }
    }
}

/// The meta that a JSON value says.
fn meta_from(alloc: Global, json: &Value) -> Result<IndexMeta, ReadError>
    ensures ok { IfOk result (λ m. meta_from (view json.now) ≡ Some (meta_of m)) }
    ensures list { IfOk result (λ m. IsMetaList m.segments) }
    ensures none { result ≡ Err ReadError.NoMeta → meta_from (view json.now) ≡ None }
{
    if !has_only(
        json,
        &["index_settings", "opstamp", "payload", "schema", "segments"],
    ) {
        return Err(ReadError::NoMeta);
    }
    let settings = json.get("index_settings").ok_or(ReadError::NoMeta)?;
    let index_settings = settings_from(settings).ok_or(ReadError::NoMeta)?;
    let opstamp = number_at(json, "opstamp").ok_or(ReadError::NoMeta)?;
    let payload = optional_text_at(alloc, json, "payload")?;
    let schema = schema_from(alloc, json.get("schema").ok_or(ReadError::NoMeta)?)?;
    let segments = segments_from(alloc, json.get("segments").ok_or(ReadError::NoMeta)?)?;
    Ok(IndexMeta {
        index_settings,
        segments,
        schema,
        opstamp,
        payload,
    })
}
