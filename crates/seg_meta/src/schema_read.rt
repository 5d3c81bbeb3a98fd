//! Reads a schema from JSON.
ghost use Rattle.std.specs.Prelude.{◌≡◌, ◌+◌, ◌-◌, ◌<◌, ◌^◌, [], ◌∷◌, ◌++◌, length, true, false, Some, None, Ok, Err, IfOk, IsSome};
ghost use Rattle.serde_json.specs.View.{view};
ghost use Rattle.seg_values.specs.FieldNames.{field_named};
ghost use Rattle.seg_values.specs.SchemaRules.{is_entry};
ghost use Rattle.seg_meta.specs.ParsedMeta.{schema_from};

use crate::{ReadError, entry_from};
use seg_values::{FieldEntry, Schema, SchemaBuilder, SchemaCause, TantivyError};
use serde_json::Value;
use std::alloc::{AllocError, Global};

/// The schema that a list of fields with distinct names says.
pub(crate) fn schema_from(alloc: Global, json: &Value) -> Result<Schema, ReadError>
    ensures ok { IfOk result (λ s. schema_from (view json.now) ≡ Some s) }
    ensures none { result ≡ Err ReadError.NoMeta → schema_from (view json.now) ≡ None }
{
    let Some(items) = json.as_array() else {
        return Err(ReadError::NoMeta);
    };
    if items.len() >= u32::MAX as usize {
        return Err(ReadError::NoMeta);
    }
    let mut builder = SchemaBuilder::new(alloc);
    for item in items {
        let entry = entry_from(alloc, item)?;
        if !add_entry(&mut builder, entry)? {
            return Err(ReadError::NoMeta);
        }
    }
    Ok(builder.build())
}

/// Adds a field, unless one with its name is there. Whether it was added.
fn add_entry(builder: &mut SchemaBuilder, entry: FieldEntry) -> Result<bool, AllocError>
    requires few { length builder.old + 1 < 2 ^ 32 - 1 }
    requires entry { is_entry entry ≡ true }
    ensures added { result ≡ Ok true → builder.new ≡ builder.old ++ entry ∷ [] }
    ensures distinct { result ≡ Ok true → field_named builder.old entry.name ≡ None }
    ensures there { result ≡ Ok false → IsSome (field_named builder.old entry.name) }
{
    match builder.add_field(entry) {
        Ok(_) => Ok(true),
        Err(TantivyError::SchemaError(SchemaCause::DuplicateName)) => Ok(false),
        Err(_) => Err(AllocError),
    }
}
