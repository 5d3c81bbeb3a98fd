//! What columns say.
ghost use Rattle.std.specs.List.{slice_get};
ghost use Rattle.std.specs.Prelude.{◌≡◌, ◌++◌, ◌∷◌, [], Bool, List, map, IfOk, OnOk, string_bytes};
ghost use Rattle.seg_columns.specs.DynamicColumns.{type_of};
ghost use Rattle.seg_field_metadata.specs.MetadataEntries.{entry_of};
ghost use Rattle.seg_field_metadata.specs.ColumnMetadata as spec;
ghost use Rattle.seg_field_metadata.specs.ColumnMetadata.{ColumnsSay, IsStored};
ghost use Rattle.seg_field_metadata.specs.ListedNames.{EscapedName, HasNames, column_name};

use crate::FieldMetadata;
use crate::listed_names::EscapedNames;
use seg_column_file::ColumnarReader;
use seg_columns::DynamicColumnHandle;
use seg_common::ColumnType;
use seg_values::{Field, FieldEntry, FieldType, Schema};
use std::alloc::{AllocError, Global};

/// The entries of the columns of a file.
pub(crate) fn column_entries(
    alloc: Global,
    schema: &Schema,
    columnar: &ColumnarReader,
    names: &EscapedNames,
) -> Result<Vec<FieldMetadata>, AllocError>
    ensures { IfOk result (λ entries. (escaped : List EscapedName) → HasNames names.now.by_dotted escaped
        → ColumnsSay schema.now escaped columnar.now.columns (map entry_of entries.items)) }
{
    let mut entries = Vec::new(alloc);
    for (path, handle) in columnar.iter_columns() {
        add_column(alloc, schema, names, path, &handle, &mut entries)?;
    }
    Ok(entries)
}

fn add_column(
    alloc: Global,
    schema: &Schema,
    names: &EscapedNames,
    path: &str,
    handle: &DynamicColumnHandle,
    entries: &mut Vec<FieldMetadata>,
) -> Result<(), AllocError>
    ensures { OnOk result ((escaped : List EscapedName) → HasNames names.now.by_dotted escaped
        → (stored : Bool) × IsStored schema.now (column_name escaped path.now) stored
        × (map entry_of entries.new.items ≡ map entry_of entries.old.items
        ++ spec.column_entry escaped (record { path = path.now; stored = handle.now }) stored ∷ [])) }
{
    let field_name = names.column_name(alloc, path)?;
    let stored = is_stored(schema, field_name.as_str());
    let entry = FieldMetadata {
        field_name,
        typ: field_type(handle.column_type()),
        stored,
        fast_size: Some(handle.num_bytes()),
        term_dictionary_size: None,
        postings_size: None,
        positions_size: None,
    };
    let Ok(()) = entries.push(entry) else {
        return Err(AllocError);
    };
    Ok(())
}

/// Whether the field that a name finds is stored.
fn is_stored(schema: &Schema, name: &str) -> bool
    ensures { IsStored schema.now name.now result }
{
    match schema.find_field_with_default(name, None) {
        Some((field, _path)) => stored_at(schema.fields(), field),
        None => false,
    }
}

fn stored_at(entries: &[FieldEntry], field: Field) -> bool
    ensures { result ≡ spec.stored_at (slice_get entries.now field) }
{
    match entries.get(field.field_id() as usize) {
        Some(entry) => entry.stored,
        None => false,
    }
}

fn field_type(column_type: ColumnType) -> FieldType
    ensures { result ≡ spec.field_type column_type }
{
    match column_type {
        ColumnType::I64 => FieldType::I64,
        ColumnType::U64 => FieldType::U64,
        ColumnType::Bytes => FieldType::Bytes,
        ColumnType::Str => FieldType::Str,
        ColumnType::Bool => FieldType::Bool,
        ColumnType::IpAddr => FieldType::IpAddr,
        ColumnType::DateTime => FieldType::Date,
    }
}
