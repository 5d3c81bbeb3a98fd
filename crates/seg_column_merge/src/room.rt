//! How much memory a merged file takes, so that it is taken once. No number here is above what a usize holds: more than
//! that counts as out of memory.

use crate::planned_group::PlannedGroup;
use seg_column_file::{ENTRY_BYTES, LEAST_BYTES};
use seg_column_merge_parts::TableRow;
use seg_common::ColumnType;

/// How many bytes the column of rows with one key has at most in a file of so many rows, where no row is kept twice: as
/// if all values were kept, and no two files had a term in common.
pub(crate) fn column_room(
    counts: &[u32],
    rows: &[TableRow<'_>],
    column_type: Option<ColumnType>,
    values: usize,
    num_rows: u32,
) -> usize {
    let Some(column_type) = column_type else {
        return 0;
    };
    let rest = match column_type {
        ColumnType::Str => terms_room(counts, rows),
        ColumnType::Bytes => terms_room(counts, rows),
        ColumnType::IpAddr => values.saturating_mul(16),
        _ => values.saturating_mul(8),
    };
    (num_rows as usize).saturating_mul(8).saturating_add(rest)
}

/// How many bytes the ordinals and the dictionary have.
fn terms_room(counts: &[u32], rows: &[TableRow<'_>]) -> usize {
    let mut room: usize = 8;
    for row in rows {
        room = room.saturating_add(file_terms_room(counts, row));
    }
    room
}

/// How many of them are those of a file's column.
fn file_terms_room(counts: &[u32], row: &TableRow<'_>) -> usize {
    let Some(column) = &row.column else {
        return 0;
    };
    let Some(count) = counts.get(column.file) else {
        return 0;
    };
    let before = (*count as usize).saturating_mul(8).saturating_add(8);
    (column.handle.num_bytes().0 as usize).saturating_sub(before)
}

/// How many bytes the entry of a column has.
pub(crate) fn entry_room(path: &[u8], column_type: Option<ColumnType>) -> usize {
    match column_type {
        Some(_) => path.len().saturating_add(ENTRY_BYTES),
        None => 0,
    }
}

/// How many bytes the entries of all columns have.
pub(crate) fn entries_room(groups: &[PlannedGroup]) -> usize {
    let mut room: usize = 0;
    for group in groups {
        room = room.saturating_add(group.entry_room);
    }
    room
}

/// How many bytes the file has, with entries of this many bytes.
pub(crate) fn file_room(groups: &[PlannedGroup], entries: usize) -> usize {
    let mut room: usize = LEAST_BYTES;
    for group in groups {
        room = room.saturating_add(group.room);
    }
    room.saturating_add(entries)
}
