//! What is decided of the rows of one key before anything is written.
ghost use Rattle.std.specs.Prelude.{◌≡◌, ◌<◌, ◌≤◌, length, slice_range, MatchResult};
ghost use Rattle.seg_column_merge.specs.MergedBytes.{IsMerge};
ghost use Rattle.seg_column_merge.specs.MergedGroups.{IsCut, IsTableOf, NextFails};
ghost use Rattle.seg_column_merge.specs.Plans.{IsPlanned};

use crate::decisions::merged_type;
use crate::groups::group_end;
use crate::kept_count::kept_count;
use crate::merge::Merge;
use crate::room::{column_room, entry_room};
use seg_column_merge_parts::TableRow;
use seg_columns::ColumnError;
use seg_common::ColumnType;

/// Where the rows of a key end in the table, and the type of their column, if there is one. Its bytes and those of its
/// entry take this room.
#[derive(Drop)]
pub(crate) struct PlannedGroup {
    pub(crate) end: usize,
    pub(crate) column_type: Option<ColumnType>,
    pub(crate) room: usize,
    pub(crate) entry_room: usize,
}

/// Decides on the rows that have the key of the one at a place, for a file of this many rows.
pub(crate) fn planned_group(
    merge: &Merge<'_>,
    table: &[TableRow<'_>],
    start: usize,
    num_rows: u32,
) -> Result<PlannedGroup, ColumnError>
    requires merge { IsMerge merge.now }
    requires table { IsTableOf merge.now.required.now merge.now.columnars.now table.now }
    requires place { start < length table.now }
    requires cut { IsCut table.now start }
    ensures { MatchResult result (IsPlanned merge.now table.now start) (NextFails merge.now table.now start) }
{
    let first = &table[start];
    let end = group_end(table, start);
    let rows = rows_between(table, start, end);
    let count = kept_count(merge.kept, rows);
    match merged_type(merge, rows) {
        Ok(column_type) => Ok(PlannedGroup {
            end,
            column_type,
            room: column_room(merge.counts, rows, column_type, count, num_rows),
            entry_room: entry_room(first.path, column_type),
        }),
        Err(error) => Err(error),
    }
}

pub(crate) fn rows_between<'a, 'b>(
    table: &'a [TableRow<'b>],
    start: usize,
    end: usize,
) -> &'a [TableRow<'b>]
    requires order { start ≤ end }
    requires within { end ≤ length table.now }
    ensures { result.now ≡ slice_range table.now start end }
{
    &table[start..end]
}
