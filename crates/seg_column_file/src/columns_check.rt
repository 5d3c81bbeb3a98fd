//! Whether the bytes before a table are the columns that it tells.
ghost use Rattle.std.specs.Prelude.{◌≤◌, length, MatchResult};
ghost use Rattle.seg_columns.specs.Refusals.{Refuses};
ghost use Rattle.seg_column_file.specs.ColumnFiles.{HoldsColumns};
ghost use Rattle.seg_column_file.specs.ColumnTable.{AreEntries};

use crate::entry::{end_in, place_behind, type_in};
use crate::format::COUNT;
use seg_columns::{ColumnError, check_column};
use seg_common::OwnedBytes;
use std::alloc::Global;

/// Checks each column, one after another.
pub(crate) fn check_columns(
    alloc: Global,
    bytes: &OwnedBytes,
    table: &[u8],
    count: u64,
    size: usize,
    num_rows: u32,
) -> Result<(), ColumnError>
    requires entries { AreEntries table.now count }
    requires within { size ≤ length bytes.now }
    ensures { MatchResult result (λ _. HoldsColumns bytes.now table.now count size num_rows)
        (Refuses (HoldsColumns bytes.now table.now count size num_rows)) }
{
    let mut at = COUNT;
    let mut start = 0;
    for i in 0..count {
        let end = end_in(table, at);
        if end > size as u64 {
            return Err(ColumnError::Malformed);
        }
        let end = end as usize;
        if end < start {
            return Err(ColumnError::Malformed);
        }
        match check_column(
            alloc,
            type_in(table, at),
            &bytes.slice(start, end),
            num_rows,
        ) {
            Ok(()) => {}
            Err(error) => return Err(error),
        }
        at = place_behind(table, at);
        start = end;
    }
    if start != size {
        return Err(ColumnError::Malformed);
    }
    Ok(())
}
