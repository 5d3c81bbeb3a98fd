//! Reads the fields of a schema from JSON.
ghost use Rattle.std.specs.Prelude.{◌≡◌, Some, None, Err, true, codes, IfOk};
ghost use Rattle.serde_json.specs.View.{view};
ghost use Rattle.seg_values.specs.SchemaRules.{is_entry};
ghost use Rattle.seg_meta.specs.ParsedMetaParts.{entry_from, entry_members, kinds, index_options, precisions};
ghost use Rattle.seg_meta.specs.JsonReaders.{has_only, required, word_of};

use crate::ReadError;
use crate::members::{flag_at, has_only, optional_text_at, text_at};
use crate::words::{index_from, kind_from, precision_from};
use seg_common::DateTimePrecision;
use seg_tokens::Text;
use seg_values::{FieldEntry, FieldKind, IndexOption};
use serde_json::Value;
use std::alloc::Global;

/// The members of a field.
const MEMBERS: [&str; 10] = [
    "expand_dots",
    "fast",
    "fast_tokenizer",
    "index",
    "kind",
    "name",
    "norms",
    "precision",
    "stored",
    "tokenizer",
];

/// Whether a value is an object with no member but those of a field.
pub fn has_entry_members(json: &Value) -> bool
    ensures { result ≡ has_only entry_members (view json.now) }
{
    has_only(json, &MEMBERS)
}

/// The field that an object with all of its members says.
pub fn entry_from(alloc: Global, json: &Value) -> Result<FieldEntry, ReadError>
    ensures ok { IfOk result (λ e. entry_from (view json.now) ≡ Some e) }
    ensures entry { IfOk result (λ e. is_entry e ≡ true) }
    ensures none { result ≡ Err ReadError.NoMeta → entry_from (view json.now) ≡ None }
{
    if !has_entry_members(json) {
        return Err(ReadError::NoMeta);
    }
    let expand_dots = flag_at(json, "expand_dots").ok_or(ReadError::NoMeta)?;
    let fast = flag_at(json, "fast").ok_or(ReadError::NoMeta)?;
    let fast_tokenizer = optional_text_at(alloc, json, "fast_tokenizer")?;
    let index = index_at(json).ok_or(ReadError::NoMeta)?;
    let kind = kind_at(json).ok_or(ReadError::NoMeta)?;
    let name = text_at(json, "name").ok_or(ReadError::NoMeta)?;
    let norms = flag_at(json, "norms").ok_or(ReadError::NoMeta)?;
    let precision = precision_at(json).ok_or(ReadError::NoMeta)?;
    let stored = flag_at(json, "stored").ok_or(ReadError::NoMeta)?;
    let tokenizer = optional_text_at(alloc, json, "tokenizer")?;
    let entry = FieldEntry {
        name: Text::copy_of(alloc, name)?,
        kind,
        stored,
        index,
        tokenizer,
        norms,
        fast,
        fast_tokenizer,
        precision,
        expand_dots,
    };
    if is_entry(&entry) {
        Ok(entry)
    } else {
        Err(ReadError::NoMeta)
    }
}

/// Whether the options of a field go with its kind.
fn is_entry(entry: &FieldEntry) -> bool
    ensures { result ≡ is_entry entry.now }
{
    match entry.kind {
        FieldKind::Text | FieldKind::Json => true,
        FieldKind::Facet => entry.index == IndexOption::Basic && entry.fast && !entry.norms,
        _ => matches!(entry.index, IndexOption::No | IndexOption::Basic),
    }
}

fn kind_at(json: &Value) -> Option<FieldKind>
    ensures { result ≡ required (word_of kinds) (codes "kind") (view json.now) }
{
    kind_from(text_at(json, "kind")?)
}

fn index_at(json: &Value) -> Option<IndexOption>
    ensures { result ≡ required (word_of index_options) (codes "index") (view json.now) }
{
    index_from(text_at(json, "index")?)
}

fn precision_at(json: &Value) -> Option<DateTimePrecision>
    ensures { result ≡ required (word_of precisions) (codes "precision") (view json.now) }
{
    precision_from(text_at(json, "precision")?)
}
