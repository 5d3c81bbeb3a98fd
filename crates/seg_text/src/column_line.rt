//! The line of a column.
ghost use Rattle.std.specs.Prelude.{◌≡◌, ◌++◌, OnOk};
ghost use Rattle.seg_columns.specs.DynamicColumns.{type_of};
ghost use Rattle.seg_column_format.specs.ModelColumns.{column_rows};
ghost use Rattle.seg_text.specs.ColumnText.{column_line, rows_text, type_text};

use crate::column_rows::push_rows;
use crate::plain_values::Plain;
use crate::push_quoted;
use seg_columns::{DynamicColumn, DynamicColumnHandle};
use seg_common::ColumnType;
use std::alloc::{AllocError, Global};

/// The line of a column.
pub(crate) fn push_column(
    out: &mut Vec<u8>,
    alloc: Global,
    path: &str,
    handle: &DynamicColumnHandle,
) -> Result<(), AllocError>
    ensures { OnOk result (out.new.items ≡ out.old.items
        ++ column_line path.now (type_of handle.now.column) (column_rows handle.now.column)) }
{
    out.extend_from_slice(b"column ")?;
    push_quoted(out, alloc, path)?;
    out.push(b' ')?;
    out.extend_from_slice(type_name(handle.column_type()).as_bytes())?;
    push_values(out, alloc, &handle.open())?;
    out.push(b'\n')?;
    Ok(())
}

fn type_name(column_type: ColumnType) -> &'static str
    ensures { result.now ≡ type_text column_type }
{
    match column_type {
        ColumnType::I64 => "I64",
        ColumnType::U64 => "U64",
        ColumnType::Bytes => "Bytes",
        ColumnType::Str => "Str",
        ColumnType::Bool => "Bool",
        ColumnType::IpAddr => "IpAddr",
        ColumnType::DateTime => "DateTime",
    }
}

/// What each document has in a column.
fn push_values(out: &mut Vec<u8>, alloc: Global, column: &DynamicColumn) -> Result<(), AllocError>
    ensures { OnOk result (out.new.items ≡ out.old.items ++ rows_text 0 (column_rows column.now)) }
{
    match column {
        DynamicColumn::I64(values) => push_rows(out, alloc, &Plain, values),
        DynamicColumn::U64(values) => push_rows(out, alloc, &Plain, values),
        DynamicColumn::Bytes(terms) => push_rows(out, alloc, terms, terms.ords()),
        DynamicColumn::Str(texts) => push_rows(out, alloc, texts, texts.ords()),
        DynamicColumn::Bool(values) => push_rows(out, alloc, &Plain, values),
        DynamicColumn::IpAddr(values) => push_rows(out, alloc, &Plain, values),
        DynamicColumn::DateTime(values) => push_rows(out, alloc, &Plain, values),
    }
}
