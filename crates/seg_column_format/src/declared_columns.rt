//! The columns that the fields of a schema declare.
ghost use Rattle.std.specs.Prelude.{◌≡◌, ◌&&◌, false, MatchOption};
ghost use Rattle.seg_model.specs.Columns as columns;
ghost use Rattle.seg_column_format.specs.SchemaColumns as spec;

use seg_common::ColumnType;
use seg_values::{FieldEntry, FieldKind, Schema};

/// The type of the column that fast fields of a kind have. JSON fields have none of their own.
pub fn declared_type(kind: FieldKind) -> Option<ColumnType>
    ensures { result ≡ columns.declared_type kind }
{
    match kind {
        FieldKind::Text | FieldKind::Facet => Some(ColumnType::Str),
        FieldKind::U64 => Some(ColumnType::U64),
        FieldKind::I64 => Some(ColumnType::I64),
        FieldKind::Bool => Some(ColumnType::Bool),
        FieldKind::Date => Some(ColumnType::DateTime),
        FieldKind::Bytes => Some(ColumnType::Bytes),
        FieldKind::IpAddr => Some(ColumnType::IpAddr),
        FieldKind::Json => None,
    }
}

/// Whether a field has a column of its own.
pub(crate) fn has_declared(entry: &FieldEntry) -> bool
    ensures { result ≡ spec.has_declared entry.now }
{
    entry.fast && declared_type(entry.kind).is_some()
}

/// Whether a field with the name of a path declares the column of a type.
fn is_of_type(entry: &FieldEntry, column_type: ColumnType) -> bool
    ensures { result ≡ (entry.now.fast && spec.is_type column_type (columns.declared_type entry.now.kind)) }
{
    entry.fast && is_type(column_type, declared_type(entry.kind))
}

fn is_type(column_type: ColumnType, other: Option<ColumnType>) -> bool
    ensures { result ≡ spec.is_type column_type other }
{
    match other {
        Some(other) => column_type == other,
        None => false,
    }
}

/// The place of the field that declares a column.
pub(crate) fn declaring_field(schema: &Schema, path: &str, column_type: ColumnType) -> Option<usize>
    ensures { MatchOption result (spec.is_declared_by schema.now path.now column_type ≡ false)
        (λ f. spec.DeclaresAlone schema.now path.now column_type f) }
{
    schema.fields_are_valid();
    let Ok(field) = schema.get_field(path) else {
        return None;
    };
    if !is_of_type(schema.get_field_entry(field), column_type) {
        return None;
    }
    Some(field.field_id() as usize)
}
