//! Files of columns, merged.
ghost use Rattle.std.specs.Prelude.{◌≡◌, map, IfOk, MatchResult, OnOk};
ghost use Rattle.std.specs.List.{AllByRecursion};
ghost use Rattle.seg_column_file.specs.ColumnFiles.{IsOfFile};
ghost use Rattle.seg_column_merge.specs.MergedColumns.{CanMerge, IsMerged, MergeFails, merged_columns, required_key};
ghost use Rattle.seg_column_merge.specs.MergedGroups.{IsTableOf};
ghost use Rattle.seg_column_file.specs.RowOrders.{rows_in_order};

use crate::merge::Merge;
use crate::sorted_merge::merge_sorted;
use crate::table_order::rows_by_key;
use seg_column_file::{ColumnarReader, KeptRows, MergeRowOrder};
use seg_column_merge_parts::{TableRow, table_rows};
use seg_columns::ColumnError;
use seg_common::ColumnType;
use std::alloc::{AllocError, Global};

/// The file with the rows of some files in an order. It takes time near-linear in the files that are read and the one
/// that is written; each column is read as a stream. The required columns are there without any value.
pub fn merge_columnar(
    alloc: Global,
    columnars: &[ColumnarReader],
    required_columns: &[(String, ColumnType)],
    order: &MergeRowOrder,
) -> Result<Vec<u8>, ColumnError>
    requires { CanMerge (map required_key required_columns.now) columnars.now
        (rows_in_order (map (λ f. f.rows) columnars.now) order.now) }
    ensures { MatchResult result
        (λ bytes. IsMerged (map required_key required_columns.now) columnars.now
        (rows_in_order (map (λ f. f.rows) columnars.now) order.now) bytes.items)
        (MergeFails (merged_columns (map required_key required_columns.now) columnars.now
        (rows_in_order (map (λ f. f.rows) columnars.now) order.now))) }
{
    let Ok(counts) = row_counts(alloc, columnars) else {
        return Err(ColumnError::OutOfMemory);
    };
    let counts = counts.as_slice();
    let Ok(kept) = KeptRows::of_order(alloc, counts, order) else {
        return Err(ColumnError::OutOfMemory);
    };
    let Ok(table) = sorted_table(alloc, required_columns, columnars) else {
        return Err(ColumnError::OutOfMemory);
    };
    let merge = Merge {
        alloc,
        columnars,
        required: required_columns,
        counts,
        kept: &kept,
        order,
    };
    merge_sorted(&merge, table.as_slice())
}

/// The columns that are required and those of the files, in the order of keys.
fn sorted_table<'a>(
    alloc: Global,
    required: &'a [(String, ColumnType)],
    columnars: &'a [ColumnarReader],
) -> Result<Vec<TableRow<'a>>, AllocError>
    requires { AllByRecursion IsOfFile columnars.now }
    ensures { IfOk result (λ table. IsTableOf required.now columnars.now table.items) }
{
    let rows = table_rows(alloc, required, columnars)?;
    rows_by_key(alloc, rows)
}

/// How many rows each file has.
fn row_counts(alloc: Global, columnars: &[ColumnarReader]) -> Result<Vec<u32>, AllocError>
    ensures counts { IfOk result (λ counts. counts.items ≡ map (λ f. f.rows) columnars.now) }
    ensures read { OnOk result (AllByRecursion IsOfFile columnars.now) }
{
    let mut counts = Vec::with_capacity(alloc, columnars.len())?;
    for columnar in columnars {
        columnar.are_of_a_file();
        counts.push(columnar.num_rows())?;
    }
    Ok(counts)
}
