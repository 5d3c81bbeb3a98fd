//! Reads the schema of a script.
ghost use Rattle.std.specs.Prelude.{◌≡◌, ◌+◌, ◌-◌, ◌<◌, ◌^◌, [], ◌∷◌, ◌++◌, ◌&&◌, length, codes, true, Some, None, Err, IfOk, OnOk, IsSome};
ghost use Rattle.serde_json.specs.Find.{as_str};
ghost use Rattle.serde_json.specs.View.{view};
ghost use Rattle.seg_common.specs.declared.precision.DateTimePrecision.TheVariants.{Seconds};
ghost use Rattle.seg_values.specs.FieldNames.{field_named, is_allowed, kept_entry};
ghost use Rattle.seg_values.specs.declared.schema.IndexOption.TheVariants.{No};
ghost use Rattle.seg_model.specs.Fields.{is_text, is_on};
ghost use Rattle.seg_meta.specs.ParsedMetaParts.{kinds, index_options, precisions};
ghost use Rattle.seg_meta.specs.JsonReaders.{required, nullable, word_of};
ghost use Rattle.seg_script_values.specs.OptionalMembers.{optional};
ghost use Rattle.seg_script.specs.Fields.{entry_from, schema_from, field_or_past};

use crate::error::ScriptError;
use seg_common::DateTimePrecision;
use seg_meta::{has_entry_members, index_from, kind_from, precision_from, text_at};
use seg_script_values::flag_or;
use seg_tokens::Text;
use seg_values::{
    Field, FieldEntry, FieldKind, IndexOption, Schema, SchemaBuilder, SchemaCause, TantivyError,
};
use serde_json::Value;
use std::alloc::Global;

/// The schema that a list of entries is.
pub(crate) fn schema_from(alloc: Global, json: &Value) -> Result<Schema, ScriptError>
    ensures ok { IfOk result (λ s. schema_from (view json.now) ≡ Some s) }
    ensures none { result ≡ Err ScriptError.NotScript → schema_from (view json.now) ≡ None }
{
    let Some(items) = json.as_array() else {
        return Err(ScriptError::NotScript);
    };
    if items.len() >= u32::MAX as usize {
        return Err(ScriptError::NotScript);
    }
    let mut builder = SchemaBuilder::new(alloc);
    for item in items {
        let entry = entry_from(alloc, item)?;
        add_entry(&mut builder, entry)?;
    }
    Ok(builder.build())
}

/// The field with a name, or the number just past the fields.
pub(crate) fn field_or_past(schema: &Schema, name: &str) -> Field
    ensures { result ≡ field_or_past schema.now name.now }
{
    schema.fields_are_valid();
    match schema.get_field(name) {
        Ok(field) => field,
        Err(_) => Field::from_field_id(schema.num_fields() as u32),
    }
}

/// Adds an entry, unless one with its name is there.
fn add_entry(builder: &mut SchemaBuilder, entry: FieldEntry) -> Result<(), ScriptError>
    requires few { length builder.old + 1 < 2 ^ 32 - 1 }
    requires allowed { is_allowed entry.kind entry.index ≡ true }
    ensures ok { OnOk result (builder.new ≡ builder.old ++ kept_entry entry ∷ []) }
    ensures distinct { OnOk result (field_named builder.old entry.name ≡ None) }
    ensures none { result ≡ Err ScriptError.NotScript → IsSome (field_named builder.old entry.name) }
{
    match builder.add_field(entry) {
        Ok(_) => Ok(()),
        Err(TantivyError::SchemaError(SchemaCause::DuplicateName)) => Err(ScriptError::NotScript),
        Err(_) => Err(ScriptError::OutOfMemory),
    }
}

/// A field of the schema, as it was said.
fn entry_from(alloc: Global, json: &Value) -> Result<FieldEntry, ScriptError>
    ensures ok { IfOk result (λ e. entry_from (view json.now) ≡ Some (kept_entry e)) }
    ensures allowed { IfOk result (λ e. is_allowed e.kind e.index ≡ true) }
    ensures none { result ≡ Err ScriptError.NotScript → entry_from (view json.now) ≡ None }
{
    if !has_entry_members(json) {
        return Err(ScriptError::NotScript);
    }
    let name = text_at(json, "name").ok_or(ScriptError::NotScript)?;
    let kind = kind_at(json).ok_or(ScriptError::NotScript)?;
    let stored = flag_or(false, json, "stored").ok_or(ScriptError::NotScript)?;
    let index = index_at(json).ok_or(ScriptError::NotScript)?;
    let tokenizer = text_or_null_at(alloc, json, "tokenizer")?;
    let norms = flag_or(has_lengths(kind, index), json, "norms").ok_or(ScriptError::NotScript)?;
    let fast = flag_or(false, json, "fast").ok_or(ScriptError::NotScript)?;
    let fast_tokenizer = text_or_null_at(alloc, json, "fast_tokenizer")?;
    let precision = precision_at(json).ok_or(ScriptError::NotScript)?;
    let expand_dots = flag_or(false, json, "expand_dots").ok_or(ScriptError::NotScript)?;
    if !is_allowed(kind, index) {
        return Err(ScriptError::NotScript);
    }
    Ok(FieldEntry {
        name: Text::copy_of(alloc, name)?,
        kind,
        stored,
        index,
        tokenizer,
        norms,
        fast,
        fast_tokenizer,
        precision,
        expand_dots,
    })
}

fn kind_at(json: &Value) -> Option<FieldKind>
    ensures { result ≡ required (word_of kinds) (codes "kind") (view json.now) }
{
    kind_from(text_at(json, "kind")?)
}

fn index_at(json: &Value) -> Option<IndexOption>
    ensures { result ≡ optional No (word_of index_options) (codes "index") (view json.now) }
{
    match json.get("index") {
        None => Some(IndexOption::No),
        Some(word) => index_from(word.as_str()?),
    }
}

fn precision_at(json: &Value) -> Option<DateTimePrecision>
    ensures { result ≡ optional Seconds (word_of precisions) (codes "precision") (view json.now) }
{
    match json.get("precision") {
        None => Some(DateTimePrecision::Seconds),
        Some(word) => precision_from(word.as_str()?),
    }
}

/// Whether a field has lengths where its entry doesn't say.
fn has_lengths(kind: FieldKind, index: IndexOption) -> bool
    ensures { result ≡ (is_text kind && is_on index) }
{
    kind == FieldKind::Text && index != IndexOption::No
}

/// Whether terms of a field of this kind may record this much.
fn is_allowed(kind: FieldKind, index: IndexOption) -> bool
    ensures { result ≡ is_allowed kind index }
{
    match kind {
        FieldKind::Text | FieldKind::Json => true,
        _ => matches!(index, IndexOption::No | IndexOption::Basic),
    }
}

/// The text that a member is; none where it is null or absent.
fn text_or_null_at(alloc: Global, json: &Value, name: &str) -> Result<Option<Text>, ScriptError>
    ensures ok { IfOk result (λ t. optional None (nullable as_str) name.now (view json.now) ≡ Some t) }
    ensures none { result ≡ Err ScriptError.NotScript
        → optional None (nullable as_str) name.now (view json.now) ≡ None }
{
    match json.get(name) {
        None | Some(Value::Null) => Ok(None),
        Some(Value::String(text)) => Ok(Some(Text::copy_of(alloc, text.as_str())?)),
        _ => Err(ScriptError::NotScript),
    }
}
