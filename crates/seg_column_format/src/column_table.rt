//! The table of a file of columns, and what stands after it.
ghost use Rattle.std.specs.Prelude.{◌≡◌, ◌+◌, ◌++◌, length, OnOk};
ghost use Rattle.std.specs.Int.{w64, to_le_bytes};
ghost use Rattle.seg_column_format.specs.FileBytes.{code_of, entry_bytes, footer_bytes};

use seg_column_file::COLUMNS_VERSION;
use seg_common::{ColumnType, put_u32, put_u64};
use std::alloc::AllocError;

/// Adds the entry of a column to those before it. Its bytes end at `end`, counted from the first byte of the file.
pub fn put_entry(
    entries: &mut Vec<u8>,
    path: &[u8],
    column_type: ColumnType,
    end: u64,
) -> Result<(), AllocError>
    ensures { OnOk result (entries.new.items ≡ entries.old.items ++ entry_bytes end path.now column_type) }
{
    put_u64(entries, path.len() as u64)?;
    entries.extend_from_slice(path)?;
    entries.push(type_code(column_type))?;
    put_u64(entries, end)?;
    Ok(())
}

/// Adds the table of this many entries, and the footer, to the bytes of all columns.
pub fn put_table(
    out: &mut Vec<u8>,
    count: u64,
    entries: &[u8],
    num_rows: u32,
) -> Result<(), AllocError>
    ensures { OnOk result (out.new.items ≡ out.old.items ++ ((to_le_bytes w64 count ++ entries.now)
        ++ footer_bytes (8 + length entries.now) num_rows)) }
{
    let length = 8 + entries.len() as u64;
    put_u64(out, count)?;
    out.extend_from_slice(entries)?;
    put_u64(out, length)?;
    put_u32(out, num_rows)?;
    put_u32(out, COLUMNS_VERSION)?;
    Ok(())
}

/// The code of a type.
pub fn type_code(column_type: ColumnType) -> u8
    ensures { result ≡ code_of column_type }
{
    match column_type {
        ColumnType::I64 => 0,
        ColumnType::U64 => 1,
        ColumnType::Bytes => 2,
        ColumnType::Str => 3,
        ColumnType::Bool => 4,
        ColumnType::IpAddr => 5,
        ColumnType::DateTime => 6,
    }
}
