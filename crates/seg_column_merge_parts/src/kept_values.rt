//! What the rows that are kept have of columns.
ghost use Rattle.std.specs.Prelude.{◌≡◌, ◌<◌, [], get_or, if◌then◌else◌, length};
ghost use Rattle.std.specs.List.{list_any};
ghost use Rattle.seg_column_merge_parts.specs.KeptColumns.{row_count_of, range_with, any_kept_value, there};
ghost use Rattle.seg_column_file.specs.KeptRows.{kept_values};

use crate::number_range::NumberRange;
use seg_columns::{Column, ColumnValue, DynamicColumn, DynamicColumnHandle};

/// With the numbers of a column that are kept.
pub fn with_kept_numbers(
    range: NumberRange,
    handle: &DynamicColumnHandle,
    kept: &[bool],
) -> NumberRange
    requires { length kept.now ≡ row_count_of handle.now.column }
    ensures { result ≡ range_with kept.now range handle.now.column }
{
    match handle.open() {
        DynamicColumn::I64(numbers) => range.with_signed(&numbers, kept),
        DynamicColumn::U64(numbers) => range.with_unsigned(&numbers, kept),
        _ => range,
    }
}

/// Whether a column that isn't one of numbers has a value that is kept.
pub fn has_kept_value(handle: &DynamicColumnHandle, kept: &[bool]) -> bool
    requires { length kept.now ≡ row_count_of handle.now.column }
    ensures { result ≡ any_kept_value kept.now handle.now.column }
{
    match handle.open() {
        DynamicColumn::Bytes(values) => has_value(values.ords(), kept),
        DynamicColumn::Str(values) => has_value(values.ords(), kept),
        DynamicColumn::Bool(values) => has_value(&values, kept),
        DynamicColumn::DateTime(values) => has_value(&values, kept),
        DynamicColumn::IpAddr(values) => has_value(&values, kept),
        _ => false,
    }
}

fn has_value<T: ColumnValue>(column: &Column<T>, kept: &[bool]) -> bool
    requires { length kept.now ≡ length column.now }
    ensures { result ≡ list_any there (kept_values kept.now column.now) }
{
    for row in 0..column.num_docs() {
        let found = row_has_value(column, row, kept[row as usize]);
        if found {
            return true;
        }
    }
    false
}

/// Whether a row has a value, if it is kept.
#[tactic(auto, using(crate::proofs::KeptRowValues::first_there))]
fn row_has_value<T: ColumnValue>(column: &Column<T>, row: u32, is_kept: bool) -> bool
    requires { row < length column.now }
    ensures { result ≡ list_any there (if is_kept then get_or column.now row [] else []) }
{
    if !is_kept {
        return false;
    }
    column.first(row).is_some()
}
