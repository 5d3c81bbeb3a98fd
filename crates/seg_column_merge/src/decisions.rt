//! Which column the rows of one path and kind have, and in which type.
ghost use Rattle.std.specs.Prelude.{◌≡◌, ◌<◌, Some, None, All, length, map, MatchResult};
ghost use Rattle.std.specs.List.{list_any};
ghost use Rattle.seg_columns.specs.declared.error.ColumnError.TheVariants.{Mixed};
ghost use Rattle.seg_model.specs.Columns.{is_number};
ghost use Rattle.seg_column_merge.specs.Cells.{cells};
ghost use Rattle.seg_column_merge.specs.Decisions as spec;
ghost use Rattle.seg_column_merge_parts.specs.KeptColumns.{HasRows};
ghost use Rattle.seg_column_merge.specs.MergedBytes.{IsMerge, places_of};
ghost use Rattle.seg_column_merge_parts.specs.NumberRanges.{no_numbers};
ghost use Rattle.seg_column_merge_parts.specs.Tables.{row_of};

use crate::merge::Merge;
use seg_column_file::KeptRows;
use seg_column_merge_parts::{NumberRange, TableRow, has_kept_value, with_kept_numbers};
use seg_columns::ColumnError;
use seg_common::ColumnType;

/// The type of the column of rows with one key: the one that is required, else the first that holds all values of kept
/// rows. There is no column where none is required and no kept row has a value.
pub(crate) fn merged_type(
    merge: &Merge<'_>,
    rows: &[TableRow<'_>],
) -> Result<Option<ColumnType>, ColumnError>
    requires merge { IsMerge merge.now }
    requires some { 0 < length rows.now }
    requires rows { spec.AreDecidable merge.now.counts.now merge.now.kept.now rows.now }
    ensures { MatchResult result
        (λ column_type. spec.merged_type (map row_of rows.now) (cells (map row_of rows.now) (places_of merge.now))
        ≡ Some column_type)
        (λ error. (error ≡ Mixed) × (spec.merged_type (map row_of rows.now)
        (cells (map row_of rows.now) (places_of merge.now)) ≡ None)) }
{
    let first = &rows[0];
    let column_type = first.column_type;
    if first.column.is_none() {
        return Ok(Some(column_type));
    }
    if is_number_type(column_type) {
        return free_number_type(number_range(merge.kept, rows));
    }
    if any_kept_value(merge.kept, rows) {
        return Ok(Some(column_type));
    }
    Ok(None)
}

fn is_number_type(column_type: ColumnType) -> bool
    ensures { result ≡ is_number column_type }
{
    match column_type {
        ColumnType::I64 => true,
        ColumnType::U64 => true,
        _ => false,
    }
}

/// The first type that holds all numbers, where there is one.
fn free_number_type(range: NumberRange) -> Result<Option<ColumnType>, ColumnError>
    ensures { MatchResult result (λ column_type. spec.range_type range ≡ Some column_type)
        (λ error. (error ≡ Mixed) × (spec.range_type range ≡ None)) }
{
    if !range.has_numbers() {
        return Ok(None);
    }
    match range.number_type() {
        Some(column_type) => Ok(Some(column_type)),
        None => Err(ColumnError::Mixed),
    }
}

/// The range of the numbers that kept rows have.
fn number_range(kept: &KeptRows, rows: &[TableRow<'_>]) -> NumberRange
    requires { All (λ r. HasRows kept.now r.column) rows.now }
    ensures { result ≡ spec.range_of kept.now no_numbers rows.now }
{
    let mut range = NumberRange::new();
    for row in rows {
        range = with_numbers(range, kept, row);
    }
    range
}

fn with_numbers(range: NumberRange, kept: &KeptRows, row: &TableRow<'_>) -> NumberRange
    requires { HasRows kept.now row.now.column }
    ensures { result ≡ spec.with_column kept.now range row.now.column }
{
    match &row.column {
        Some(column) => with_kept_numbers(range, &column.handle, kept.of_file(column.file)),
        None => range,
    }
}

/// Whether a kept row has a value.
fn any_kept_value(kept: &KeptRows, rows: &[TableRow<'_>]) -> bool
    requires { All (λ r. HasRows kept.now r.column) rows.now }
    ensures { result ≡ list_any (λ r. spec.has_value kept.now r.column) rows.now }
{
    for row in rows {
        if has_value(kept, row) {
            return true;
        }
    }
    false
}

fn has_value(kept: &KeptRows, row: &TableRow<'_>) -> bool
    requires { HasRows kept.now row.now.column }
    ensures { result ≡ spec.has_value kept.now row.now.column }
{
    match &row.column {
        Some(column) => has_kept_value(&column.handle, kept.of_file(column.file)),
        None => false,
    }
}
