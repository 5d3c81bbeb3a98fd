//! The columns that a schema declares.
ghost use Rattle.std.specs.Prelude.{◌≡◌, ◌++◌, true, false, IfOk, IfErr, OnOk};
ghost use Rattle.std.specs.List.{list_any};
ghost use Rattle.std.specs.Str.{bytes_eq};
ghost use Rattle.seg_columns.specs.declared.error.ColumnError.TheVariants.{OutOfMemory};
ghost use Rattle.seg_model.specs.Columns as model;
ghost use Rattle.seg_model.specs.Fields as fields;
ghost use Rattle.seg_values.specs.SchemaRules.{is_schema};
ghost use Rattle.seg_model.specs.ValidInputs.{names_fit};
ghost use Rattle.seg_fastfield.specs.FieldColumns.{AreFieldColumns, IsFieldColumn, IsThere};
ghost use Rattle.seg_fastfield.specs.DeclaredColumns.{column_of, first_columns};

use seg_column_writer::{ColumnId, ColumnarWriter, ValueKind};
use seg_columns::ColumnError;
use seg_common::ColumnType;
use seg_values::{FieldEntry, FieldKind};
use std::alloc::Global;

/// The columns of the fast fields, without a value.
pub(crate) fn declared_columns(
    alloc: Global,
    schema: &[FieldEntry],
) -> Result<ColumnarWriter, ColumnError>
    requires { is_schema schema.now ≡ true }
    ensures { IfOk result (λ columns. columns ≡ first_columns schema.now) }
{
    let mut columns = ColumnarWriter::new(alloc);
    for entry in schema {
        declare(&mut columns, entry)?;
    }
    Ok(columns)
}

/// Declares the column of a field that has a new name, if it has one.
fn declare(columns: &mut ColumnarWriter, entry: &FieldEntry) -> Result<(), ColumnError>
    requires { list_any (λ c. bytes_eq entry.now.name c.path) columns.old ≡ false }
    ensures { OnOk result (columns.new ≡ columns.old ++ column_of entry.now) }
{
    if !entry.fast {
        return Ok(());
    }
    let Some(column_type) = declared_type(entry.kind) else {
        return Ok(());
    };
    columns.record_column_type(entry.name.as_str(), column_type, is_facet(entry.kind))
}

/// The columns of the fields that have one, all of which are there.
pub(crate) fn field_columns(
    alloc: Global,
    columns: &mut ColumnarWriter,
    schema: &[FieldEntry],
) -> Result<Vec<Option<ColumnId>>, ColumnError>
    requires schema { (is_schema schema.now ≡ true) × (names_fit schema.now ≡ true) }
    requires columns { columns.old ≡ first_columns schema.now }
    ensures same { OnOk result (columns.new ≡ columns.old) }
    ensures ids { IfOk result (λ ids. AreFieldColumns columns.old schema.now ids.items) }
{
    let mut ids = Vec::with_capacity(alloc, schema.len())?;
    for entry in schema {
        let id = field_column(columns, entry)?;
        let Ok(()) = ids.push(id) else {
            return Err(ColumnError::OutOfMemory);
        };
    }
    Ok(ids)
}

fn field_column(
    columns: &mut ColumnarWriter,
    entry: &FieldEntry,
) -> Result<Option<ColumnId>, ColumnError>
    requires { IsThere columns.old entry.now }
    ensures same { OnOk result (columns.new ≡ columns.old) }
    ensures id { IfOk result (λ id. IsFieldColumn columns.old entry.now id) }
{
    if !entry.fast {
        return Ok(None);
    }
    let Some(column_type) = declared_type(entry.kind) else {
        return Ok(None);
    };
    let id = columns.column(entry.name.as_str(), ValueKind::of(column_type))?;
    Ok(Some(id))
}

/// The type of the column of fast fields of a kind.
fn declared_type(kind: FieldKind) -> Option<ColumnType>
    ensures { result ≡ model.declared_type kind }
{
    match kind {
        FieldKind::Text => Some(ColumnType::Str),
        FieldKind::U64 => Some(ColumnType::U64),
        FieldKind::I64 => Some(ColumnType::I64),
        FieldKind::Bool => Some(ColumnType::Bool),
        FieldKind::Date => Some(ColumnType::DateTime),
        FieldKind::Facet => Some(ColumnType::Str),
        FieldKind::Bytes => Some(ColumnType::Bytes),
        FieldKind::IpAddr => Some(ColumnType::IpAddr),
        FieldKind::Json => None,
    }
}

fn is_facet(kind: FieldKind) -> bool
    ensures { result ≡ fields.is_facet kind }
{
    match kind {
        FieldKind::Facet => true,
        _ => false,
    }
}
