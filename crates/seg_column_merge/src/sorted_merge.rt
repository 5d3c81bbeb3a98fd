//! The columns of a sorted table, merged group by group.
ghost use Rattle.std.specs.Prelude.{◌≡◌, ◌<◌, ◌^◌, List, length, map, IfOk, MatchResult, OnOk};
ghost use Rattle.seg_column_format.specs.FileBytes.{WrittenColumn};
ghost use Rattle.seg_column_merge.specs.MergedBytes.{IsMerge, places_of};
ghost use Rattle.seg_column_merge.specs.MergedColumns.{IsMerged, MergeFails, merged_columns, required_key};
ghost use Rattle.seg_column_merge.specs.MergedFiles.{IsFileOf};
ghost use Rattle.seg_column_merge.specs.MergedGroups.{IsTableOf, PutsNext};
ghost use Rattle.seg_column_merge.specs.Plans.{ArePlanned, IsPlanned};

use crate::group_column::put_group;
use crate::merge::Merge;
use crate::merge_plan::planned_groups;
use crate::merged_file::MergedFile;
use crate::planned_group::{PlannedGroup, rows_between};
use seg_column_file::OrderedRows;
use seg_column_merge_parts::TableRow;
use seg_columns::ColumnError;
use std::alloc::AllocError;

/// The file of a table whose rows are in the order of their keys. The types of all columns are decided before its
/// memory is taken.
pub(crate) fn merge_sorted(
    merge: &Merge<'_>,
    table: &[TableRow<'_>],
) -> Result<Vec<u8>, ColumnError>
    requires merge { IsMerge merge.now }
    requires table { IsTableOf merge.now.required.now merge.now.columnars.now table.now }
    ensures { MatchResult result
        (λ bytes. IsMerged (map required_key merge.now.required.now) merge.now.columnars.now (places_of merge.now)
        bytes.items)
        (MergeFails (merged_columns (map required_key merge.now.required.now) merge.now.columnars.now
        (places_of merge.now))) }
{
    let num_rows = num_rows(OrderedRows::new(merge.counts, merge.order));
    let groups = match planned_groups(merge, table, num_rows) {
        Ok(groups) => groups,
        Err(error) => return Err(error),
    };
    let Ok(bytes) = put_groups(merge, table, groups.as_slice(), num_rows) else {
        return Err(ColumnError::OutOfMemory);
    };
    Ok(bytes)
}

/// Puts the columns of all groups into a file of this many rows, whose memory is taken once.
fn put_groups(
    merge: &Merge<'_>,
    table: &[TableRow<'_>],
    groups: &[PlannedGroup],
    num_rows: u32,
) -> Result<Vec<u8>, AllocError>
    requires merge { IsMerge merge.now }
    requires table { IsTableOf merge.now.required.now merge.now.columnars.now table.now }
    requires planned { ArePlanned merge.now table.now 0 groups.now }
    requires rows { num_rows ≡ length (places_of merge.now) }
    ensures { IfOk result (λ bytes. IsMerged (map required_key merge.now.required.now) merge.now.columnars.now
        (places_of merge.now) bytes.items) }
{
    let mut file = MergedFile::new(merge.alloc, groups)?;
    let mut start = 0;
    for group in groups {
        put_next(merge, table, start, group, &mut file)?;
        start = group.end;
    }
    file.finish(num_rows)
}

/// Puts the column of the rows from a place on that were decided on.
fn put_next(
    merge: &Merge<'_>,
    table: &[TableRow<'_>],
    start: usize,
    group: &PlannedGroup,
    file: &mut MergedFile,
) -> Result<(), AllocError>
    requires merge { IsMerge merge.now }
    requires planned { IsPlanned merge.now table.now start group.now }
    ensures { (columns : List WrittenColumn) → IsFileOf columns file.old
        → OnOk result (PutsNext merge.now table.now start group.now.end columns file.new) }
{
    let first = &table[start];
    let rows = rows_between(table, start, group.end);
    put_group(merge, rows, group.column_type, first.path, file)?;
    Ok(())
}

fn num_rows(rows: OrderedRows<'_>) -> u32
    requires { length rows < 2 ^ 32 }
    ensures { result ≡ length rows.entry }
{
    let mut count = 0;
    for _row in rows {
        count += 1;
    }
    count
}
