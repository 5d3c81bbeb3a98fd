//! Reads the metas of segments from JSON.
ghost use Rattle.std.specs.Prelude.{◌≡◌, ◌≤◌, option_map, codes, IfSome};
ghost use Rattle.serde_json.specs.Find.{as_str};
ghost use Rattle.serde_json.specs.View.{view};
ghost use Rattle.seg_meta.specs.Metas.{deletes_of, AreDeletes};
ghost use Rattle.seg_meta.specs.ParsedMetaParts.{segment_from, deletes_from, id_from};
ghost use Rattle.seg_meta.specs.JsonReaders.{given, required, nullable};

use crate::members::{below_at, has_only, number_at, text_at};
use crate::{DeleteMeta, SegmentMeta};
use seg_common::SegmentId;
use serde_json::Value;

/// The segment that an object with all of its members says.
pub fn segment_from(json: &Value) -> Option<SegmentMeta>
    ensures { result ≡ segment_from (view json.now) }
{
    if !has_only(json, &["deletes", "max_doc", "segment_id"]) {
        return None;
    }
    let max_doc = below_at(json, "max_doc", 1 << 31)? as u32;
    let deletes = deletes_at(max_doc, json)?;
    let id = id_at(json)?;
    Some(SegmentMeta::new(id, max_doc, deletes))
}

fn deletes_at(max_doc: u32, json: &Value) -> Option<Option<DeleteMeta>>
    ensures value { option_map (option_map deletes_of) result
        ≡ required (nullable (deletes_from max_doc)) (codes "deletes") (view json.now) }
    ensures some { IfSome result (λ d. AreDeletes max_doc (option_map deletes_of d)) }
{
    match json.get("deletes")? {
        Value::Null => Some(None),
        deletes => Some(Some(deletes_from(max_doc, deletes)?)),
    }
}

/// The deletes of a segment of this many documents.
fn deletes_from(max_doc: u32, json: &Value) -> Option<DeleteMeta>
    ensures value { option_map deletes_of result ≡ deletes_from max_doc (view json.now) }
    ensures some { IfSome result (λ d. (1 ≤ d.num_deleted_docs) × (d.num_deleted_docs ≤ max_doc)) }
{
    if !has_only(json, &["num_deleted_docs", "opstamp"]) {
        return None;
    }
    let num_deleted_docs = below_at(json, "num_deleted_docs", 1 << 32)? as u32;
    let opstamp = number_at(json, "opstamp")?;
    if 1 <= num_deleted_docs && num_deleted_docs <= max_doc {
        Some(DeleteMeta {
            num_deleted_docs,
            opstamp,
        })
    } else {
        None
    }
}

fn id_at(json: &Value) -> Option<SegmentId>
    ensures { result ≡ required (λ v. given (as_str v) id_from) (codes "segment_id") (view json.now) }
{
    id_from(text_at(json, "segment_id")?)
}

fn id_from(text: &str) -> Option<SegmentId>
    ensures { result ≡ id_from text.now }
{
    SegmentId::from_uuid_string(text)
}
