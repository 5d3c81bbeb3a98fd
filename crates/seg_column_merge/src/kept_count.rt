//! How many values kept rows have at most, so that memory is taken once, and that these are of their columns' types.
ghost use Rattle.std.specs.Prelude.{◌<◌, ◌^◌, ℕ, All, Bool, FitsSigned, List, get_or};
ghost use Rattle.std.specs.Int.{w64};
ghost use Rattle.seg_column_merge_parts.specs.KeptColumns.{HasRows, IsWhole, kept_fit};
ghost use Rattle.seg_column_merge.specs.MergedBytes.{RowFits};

use seg_column_file::KeptRows;
use seg_column_merge_parts::TableRow;
use seg_columns::{Column, ColumnValue, DynamicColumn, DynamicColumnHandle, start_at};
use seg_common::DateTime;
use std::net::Ipv6Addr;

/// How many values the kept rows have at most of the columns of rows with one key, but for those of texts and bytes: as
/// if all rows were kept.
pub(crate) fn kept_count(kept: &KeptRows, rows: &[TableRow<'_>]) -> usize
    requires { All (λ r. HasRows kept.now r.column) rows.now }
    ensures { All (λ r. RowFits kept.now r.column) rows.now }
{
    let mut count = 0;
    for row in rows {
        count = with_row(count, kept, row);
    }
    count
}

fn with_row(count: usize, _kept: &KeptRows, row: &TableRow<'_>) -> usize
    ensures { RowFits _kept.now row.now.column }
{
    match &row.column {
        Some(column) => with_values(count, &column.handle),
        None => count,
    }
}

/// With the values of a column. Whichever rows are kept, theirs are of its type.
fn with_values(count: usize, handle: &DynamicColumnHandle) -> usize
    ensures { (kept : List Bool) → kept_fit kept handle.now.column }
{
    match handle.open() {
        DynamicColumn::I64(column) => {
            signed_fit(&column);
            value_count(count, &column)
        }
        DynamicColumn::U64(column) => {
            unsigned_fit(&column);
            value_count(count, &column)
        }
        DynamicColumn::Bool(column) => value_count(count, &column),
        DynamicColumn::IpAddr(column) => {
            addresses_fit(&column);
            value_count(count, &column)
        }
        DynamicColumn::DateTime(column) => {
            dates_fit(&column);
            value_count(count, &column)
        }
        _ => count,
    }
}

/// With the values of all rows of a column, of which the last one's end tells how many there are; those that no usize
/// counts are the most.
fn value_count<T: ColumnValue>(count: usize, column: &Column<T>) -> usize {
    let values = start_at(column.as_bytes(), column.num_docs() as usize);
    count.saturating_add(values as usize)
}

fn signed_fit(column: &Column<i64>)
    ensures { All (All (FitsSigned w64)) column.now }
{
    are_octets(column.as_bytes());
}

fn unsigned_fit(column: &Column<u64>)
    ensures { All (All (λ n. n < 2 ^ 64)) column.now }
{
    are_octets(column.as_bytes());
}

fn dates_fit(column: &Column<DateTime>)
    ensures { All (All (FitsSigned w64)) column.now }
{
    are_octets(column.as_bytes());
}

fn addresses_fit(column: &Column<Ipv6Addr>)
    ensures { All (All IsWhole) column.now }
{
    are_octets(column.as_bytes());
}

fn are_octets(_bytes: &[u8])
    ensures { (i : ℕ) → get_or _bytes.now i 0 < 256 }
{}
