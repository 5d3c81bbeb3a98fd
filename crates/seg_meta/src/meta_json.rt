//! The JSON value of a meta.
ghost use Rattle.std.specs.Prelude.{◌≡◌, map, option_map, IfOk};
ghost use Rattle.serde_json.specs.Data.{array};
ghost use Rattle.serde_json.specs.View.{view, items_of};
ghost use Rattle.seg_meta.specs.MetaJson as json;
ghost use Rattle.seg_meta.specs.Metas.{deletes_of};
ghost use Rattle.seg_meta.specs.MetaMeaning.{settings_of, meta_of};

use crate::words::{compression_word, index_word, kind_word, precision_word};
use crate::{DeleteMeta, IndexMeta, IndexSettings, SegmentMeta};
use seg_common::SegmentId;
use seg_tokens::Text;
use seg_values::FieldEntry;
use serde_json::{Value, json};
use std::alloc::{AllocError, Global};

/// The JSON value of a meta.
pub(crate) fn meta_json(alloc: Global, metas: &IndexMeta) -> Result<Value, AllocError>
    ensures { IfOk result (λ v. view v ≡ json.meta_json (meta_of metas.now)) }
{
    let settings = settings_json(alloc, &metas.index_settings)?;
    let payload = text_json(alloc, &metas.payload)?;
    let schema = schema_json(alloc, metas.schema.fields())?;
    let segments = segments_json(alloc, metas.segments.as_slice())?;
    json!(in alloc; {
        "index_settings": settings,
        "opstamp": metas.opstamp,
        "payload": payload,
        "schema": schema,
        "segments": segments
    })
}

fn settings_json(alloc: Global, settings: &IndexSettings) -> Result<Value, AllocError>
    ensures { IfOk result (λ v. view v ≡ json.settings_json (settings_of settings.now)) }
{
    json!(in alloc; {
        "docstore_blocksize": settings.docstore_blocksize,
        "docstore_compress_dedicated_thread": settings.docstore_compress_dedicated_thread,
        "docstore_compression": compression_word(settings.docstore_compression)
    })
}

fn schema_json(alloc: Global, entries: &[FieldEntry]) -> Result<Value, AllocError>
    ensures { IfOk result (λ v. view v ≡ array (items_of (map json.entry_json entries.now))) }
{
    let mut items = Vec::new(alloc);
    for entry in entries {
        items.push(entry_json(alloc, entry)?)?;
    }
    Ok(Value::Array(items))
}

fn entry_json(alloc: Global, entry: &FieldEntry) -> Result<Value, AllocError>
    ensures { IfOk result (λ v. view v ≡ json.entry_json entry.now) }
{
    let tokenizer = text_json(alloc, &entry.tokenizer)?;
    let fast_tokenizer = text_json(alloc, &entry.fast_tokenizer)?;
    json!(in alloc; {
        "expand_dots": entry.expand_dots,
        "fast": entry.fast,
        "fast_tokenizer": fast_tokenizer,
        "index": index_word(entry.index),
        "kind": kind_word(entry.kind),
        "name": entry.name.as_str(),
        "norms": entry.norms,
        "precision": precision_word(entry.precision),
        "stored": entry.stored,
        "tokenizer": tokenizer
    })
}

fn text_json(alloc: Global, text: &Option<Text>) -> Result<Value, AllocError>
    ensures { IfOk result (λ v. view v ≡ json.text_json text.now) }
{
    match text {
        Some(text) => Value::try_from_str(alloc, text.as_str()),
        None => Ok(Value::Null),
    }
}

fn segments_json(alloc: Global, segments: &[SegmentMeta]) -> Result<Value, AllocError>
    ensures { IfOk result (λ v. view v ≡ array (items_of (map json.segment_json segments.now))) }
{
    let mut items = Vec::new(alloc);
    for segment in segments {
        items.push(segment_json(alloc, segment)?)?;
    }
    Ok(Value::Array(items))
}

fn segment_json(alloc: Global, segment: &SegmentMeta) -> Result<Value, AllocError>
    ensures { IfOk result (λ v. view v ≡ json.segment_json segment.now) }
{
    let deletes = deletes_json(alloc, segment.deletes())?;
    let id = id_json(alloc, segment.id())?;
    json!(in alloc; {
        "deletes": deletes,
        "max_doc": segment.max_doc(),
        "segment_id": id
    })
}

fn deletes_json(alloc: Global, deletes: Option<DeleteMeta>) -> Result<Value, AllocError>
    ensures { IfOk result (λ v. view v ≡ json.deletes_json (option_map deletes_of deletes)) }
{
    let Some(deletes) = deletes else {
        return Ok(Value::Null);
    };
    json!(in alloc; {
        "num_deleted_docs": deletes.num_deleted_docs,
        "opstamp": deletes.opstamp
    })
}

fn id_json(alloc: Global, id: SegmentId) -> Result<Value, AllocError>
    ensures { IfOk result (λ v. view v ≡ json.id_json id) }
{
    match id.uuid_string(alloc) {
        Ok(digits) => Ok(Value::String(digits)),
        Err(_) => Err(AllocError),
    }
}
