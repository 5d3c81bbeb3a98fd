//! The whole file from its columns in order.
ghost use Rattle.std.specs.Prelude.{IfOk, OnOk, map};
ghost use Rattle.seg_column_writer.specs.FiledColumns.{AddsEntry};
ghost use Rattle.seg_column_writer.specs.TypedColumns.{AreTyped, IsFileOf, IsTyped, entry_at};

use crate::column_name::ColumnName;
use crate::recorded_column::RecordedColumn;
use crate::typed_column::{TypedColumn, path_at};
use seg_column_format::{put_entry, put_table, sum};
use std::alloc::{AllocError, Global};

/// Writes the columns one after another, their table and the footer. The memory of the file is taken once, before the
/// first byte.
pub(crate) fn write_file(
    alloc: Global,
    names: &[ColumnName],
    columns: &[RecordedColumn],
    typed: &[TypedColumn],
    num_rows: u32,
) -> Result<Vec<u8>, AllocError>
    requires { AreTyped num_rows names.now columns.now typed.now }
    ensures { IfOk result (λ bytes. IsFileOf num_rows (map (entry_at num_rows names.now columns.now) typed.now)
        bytes.items) }
{
    let listed = entries_room(names, typed)?;
    let room = sum(data_room(columns, typed, num_rows)?, sum(listed, 24)?)?;
    let mut out = Vec::with_capacity(alloc, room)?;
    let mut entries = Vec::with_capacity(alloc, listed)?;
    for column in typed {
        put_column(
            alloc,
            &mut out,
            &mut entries,
            names,
            columns,
            *column,
            num_rows,
        )?;
    }
    put_table(&mut out, typed.len() as u64, &entries, num_rows)?;
    Ok(out)
}

/// Adds the bytes of a column to the file, and its entry to those before it.
fn put_column(
    alloc: Global,
    out: &mut Vec<u8>,
    entries: &mut Vec<u8>,
    names: &[ColumnName],
    columns: &[RecordedColumn],
    typed: TypedColumn,
    num_rows: u32,
) -> Result<(), AllocError>
    requires { IsTyped num_rows names.now columns.now typed }
    ensures { OnOk result (AddsEntry num_rows names.now columns.now typed out.old.items entries.old.items
        out.new.items entries.new.items) }
{
    columns[typed.place].put(alloc, out, typed.column_type, num_rows)?;
    let end = out.len() as u64;
    put_entry(entries, path_at(names, typed.place), typed.column_type, end)?;
    Ok(())
}

/// How many bytes the entries of columns have.
fn entries_room(names: &[ColumnName], typed: &[TypedColumn]) -> Result<usize, AllocError> {
    let mut room: usize = 0;
    for column in typed {
        let entry = sum(path_at(names, column.place).len(), 17)?;
        room = sum(room, entry)?;
    }
    Ok(room)
}

/// How many bytes columns have in a file of this many rows.
fn data_room(
    columns: &[RecordedColumn],
    typed: &[TypedColumn],
    num_rows: u32,
) -> Result<usize, AllocError> {
    let mut room: usize = 0;
    for column in typed {
        room = sum(room, column_room(columns, column.place, num_rows)?)?;
    }
    Ok(room)
}

/// How many bytes the column at a place has; past all of them it has none.
fn column_room(
    columns: &[RecordedColumn],
    place: usize,
    num_rows: u32,
) -> Result<usize, AllocError> {
    match columns.get(place) {
        Some(column) => column.room(num_rows),
        None => Ok(0),
    }
}
