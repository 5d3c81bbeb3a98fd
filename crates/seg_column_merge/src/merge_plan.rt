//! All groups of a sorted table, decided before anything is written.
ghost use Rattle.std.specs.Prelude.{map, MatchResult, OnOk, ◌≡◌, ◌++◌, ◌∷◌, []};
ghost use Rattle.seg_column_merge.specs.MergedBytes.{IsMerge, places_of};
ghost use Rattle.seg_column_merge.specs.MergedColumns.{MergeFails, merged_columns, required_key};
ghost use Rattle.seg_column_merge.specs.MergedGroups.{IsTableOf};
ghost use Rattle.seg_column_merge.specs.Plans.{ArePlanned};

use crate::merge::Merge;
use crate::planned_group::{PlannedGroup, planned_group};
use seg_column_merge_parts::TableRow;
use seg_columns::ColumnError;
use std::alloc::AllocError;

/// Scans the kept values of all columns once, for a file of this many rows.
pub(crate) fn planned_groups(
    merge: &Merge<'_>,
    table: &[TableRow<'_>],
    num_rows: u32,
) -> Result<Vec<PlannedGroup>, ColumnError>
    requires merge { IsMerge merge.now }
    requires table { IsTableOf merge.now.required.now merge.now.columnars.now table.now }
    ensures { MatchResult result (λ groups. ArePlanned merge.now table.now 0 groups.items)
        (MergeFails (merged_columns (map required_key merge.now.required.now) merge.now.columnars.now
        (places_of merge.now))) }
{
    let mut groups = Vec::new(merge.alloc);
    let mut start = 0;
    while start < table.len() {
        let group = match planned_group(merge, table, start, num_rows) {
            Ok(group) => group,
            Err(error) => return Err(error),
        };
        let end = group.end;
        let Ok(()) = push_group(&mut groups, group) else {
            return Err(ColumnError::OutOfMemory);
        };
        start = end;
    }
    Ok(groups)
}

fn push_group(groups: &mut Vec<PlannedGroup>, group: PlannedGroup) -> Result<(), AllocError>
    ensures { OnOk result (groups.new.items ≡ groups.old.items ++ group ∷ []) }
{
    let Ok(()) = groups.push(group) else {
        return Err(AllocError);
    };
    Ok(())
}
