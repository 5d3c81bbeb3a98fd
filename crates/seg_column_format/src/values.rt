//! Which columns have a value.
ghost use Rattle.std.specs.Prelude.{◌≡◌, List};
ghost use Rattle.std.specs.List.{list_any};
ghost use Rattle.seg_column_format.specs.ModelColumns.{column_rows};
ghost use Rattle.seg_model.specs.Columns.{is_filled};
ghost use Rattle.seg_model.specs.Shape as shape;
ghost use Rattle.seg_column_format.specs.SchemaColumns as spec;

use seg_columns::{Column, ColumnValue, DynamicColumn};
use seg_common::ColumnType;

/// Whether JSON fields have values of a type.
pub(crate) fn is_json_type(column_type: ColumnType) -> bool
    ensures { result ≡ shape.is_json_type column_type }
{
    match column_type {
        ColumnType::I64
        | ColumnType::U64
        | ColumnType::Str
        | ColumnType::Bool
        | ColumnType::DateTime => true,
        ColumnType::Bytes | ColumnType::IpAddr => false,
    }
}

/// Whether some document has a value in a column.
pub(crate) fn has_value(column: &DynamicColumn) -> bool
    ensures { result ≡ list_any is_filled (column_rows column.now) }
{
    match column {
        DynamicColumn::I64(values) => is_used(values),
        DynamicColumn::U64(values) => is_used(values),
        DynamicColumn::Bytes(terms) => is_used(terms.ords()),
        DynamicColumn::Str(texts) => is_used(texts.ords()),
        DynamicColumn::Bool(values) => is_used(values),
        DynamicColumn::IpAddr(values) => is_used(values),
        DynamicColumn::DateTime(values) => is_used(values),
    }
}

fn is_used<T: ColumnValue>(column: &Column<T>) -> bool
    ensures { result ≡ list_any spec.has_values column.now }
{
    for doc in 0..column.num_docs() {
        if column.first(doc).is_some() {
            return true;
        }
    }
    false
}
