//! The column of rows with one key.
ghost use Rattle.std.specs.Prelude.{◌≡◌, ◌<◌, Some, List, length, map, OnOk};
ghost use Rattle.seg_column_format.specs.FileBytes.{WrittenColumn};
ghost use Rattle.seg_column_merge.specs.Decisions as spec;
ghost use Rattle.seg_column_merge.specs.MergedBytes.{AddsMerged, IsMerge, places_of};
ghost use Rattle.seg_column_merge.specs.MergedFiles.{AddsGroup, IsColumnGroup, IsFileOf, values_of};
ghost use Rattle.seg_column_merge_parts.specs.Tables.{row_of};

use crate::merge::Merge;
use crate::merged_file::MergedFile;
use crate::term_columns::put_terms;
use crate::value_columns::{put_addresses, put_values};
use seg_column_merge_parts::TableRow;
use seg_common::ColumnType;
use std::alloc::AllocError;

/// Puts the column of rows with one key, if there is one, after those that were put.
pub(crate) fn put_group(
    merge: &Merge<'_>,
    rows: &[TableRow<'_>],
    column_type: Option<ColumnType>,
    path: &[u8],
    file: &mut MergedFile,
) -> Result<(), AllocError>
    requires merge { IsMerge merge.now }
    requires some { 0 < length rows.now }
    requires group { IsColumnGroup merge.now rows.now }
    requires decided { spec.merged_type (map row_of rows.now) (values_of merge.now rows.now) ≡ Some column_type }
    ensures { (columns : List WrittenColumn) → IsFileOf columns file.old
        → OnOk result (AddsGroup merge.now path.now rows.now columns file.new) }
{
    let Some(column_type) = column_type else {
        return Ok(());
    };
    put_column(merge, rows, column_type, &mut file.bytes)?;
    file.end_column(path, column_type)?;
    Ok(())
}

/// Adds the bytes of the column of rows with one key.
fn put_column(
    merge: &Merge<'_>,
    rows: &[TableRow<'_>],
    column_type: ColumnType,
    out: &mut Vec<u8>,
) -> Result<(), AllocError>
    requires merge { IsMerge merge.now }
    requires some { 0 < length rows.now }
    requires group { IsColumnGroup merge.now rows.now }
    requires decided { spec.merged_type (map row_of rows.now) (values_of merge.now rows.now) ≡ Some (Some column_type) }
    ensures { OnOk result (AddsMerged column_type (map row_of rows.now) (places_of merge.now) out.old.items
        out.new.items) }
{
    match column_type {
        ColumnType::Str => put_terms(merge, rows, column_type, out),
        ColumnType::Bytes => put_terms(merge, rows, column_type, out),
        ColumnType::IpAddr => put_addresses(merge, rows, out),
        _ => put_values(merge, rows, column_type, out),
    }
}
