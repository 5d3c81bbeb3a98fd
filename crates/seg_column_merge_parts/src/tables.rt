//! The columns of files and those that are required.
ghost use Rattle.std.specs.Prelude.{◌≡◌, ◌++◌, ◌∷◌, [], map, All, IsUtf8, IfOk, OnOk};
ghost use Rattle.seg_column_merge_parts.specs.Tables as spec;

use seg_column_file::ColumnarReader;
use seg_columns::DynamicColumnHandle;
use seg_common::ColumnType;
use std::alloc::{AllocError, Global};

/// A column of one of the files.
#[derive(Drop)]
pub struct FileColumn {
    pub file: usize,
    pub handle: DynamicColumnHandle,
}

/// A column of a file, or one that is required.
#[derive(Drop)]
pub struct TableRow<'a> {
    pub path: &'a [u8],
    pub column_type: ColumnType,
    pub column: Option<FileColumn>,
}

impl<'a> TableRow<'a> {
    /// Rows with one key go into one column: the two types of numbers count as one.
    pub fn key(&self) -> (&'a [u8], u8)
        ensures { result ≡ (self.now.path, spec.kind_of self.now.column_type) }
    {
        (self.path, kind_of(self.column_type))
    }
}

fn kind_of(column_type: ColumnType) -> u8
    ensures { result ≡ spec.kind_of column_type }
{
    match column_type {
        ColumnType::I64 => 0,
        ColumnType::U64 => 0,
        ColumnType::Bytes => 1,
        ColumnType::Str => 2,
        ColumnType::Bool => 3,
        ColumnType::IpAddr => 4,
        ColumnType::DateTime => 5,
    }
}

/// The columns that are required, and then those of the files in their order.
pub fn table_rows<'a>(
    alloc: Global,
    required: &'a [(String, ColumnType)],
    columnars: &'a [ColumnarReader],
) -> Result<Vec<TableRow<'a>>, AllocError>
    ensures rows { IfOk result (λ table. map spec.row_of table.items ≡ spec.all_rows required.now columnars.now) }
    ensures utf8 { IfOk result (λ table. All (λ r. IsUtf8 r.path.now) table.items) }
{
    let mut table = required_rows(alloc, required)?;
    for file in 0..columnars.len() {
        push_columns(&mut table, file, &columnars[file])?;
    }
    Ok(table)
}

fn required_rows<'a>(
    alloc: Global,
    required: &'a [(String, ColumnType)],
) -> Result<Vec<TableRow<'a>>, AllocError>
    ensures rows { IfOk result (λ table. map spec.row_of table.items ≡ map spec.required_row required.now) }
    ensures utf8 { IfOk result (λ table. All (λ r. IsUtf8 r.path.now) table.items) }
{
    let mut table = Vec::new(alloc);
    for (path, column_type) in required {
        push_required(&mut table, path.as_str(), *column_type)?;
    }
    Ok(table)
}

fn push_required<'a>(
    table: &mut Vec<TableRow<'a>>,
    path: &'a str,
    column_type: ColumnType,
) -> Result<(), AllocError>
    requires { All (λ r. IsUtf8 r.path.now) table.old.items }
    ensures rows { OnOk result (map spec.row_of table.new.items ≡ map spec.row_of table.old.items
        ++ record { path = path.now; type = column_type; column = None } ∷ []) }
    ensures utf8 { OnOk result (All (λ r. IsUtf8 r.path.now) table.new.items) }
{
    let row = TableRow {
        path: path.as_bytes(),
        column_type,
        column: None,
    };
    let Ok(()) = table.push(row) else {
        return Err(AllocError);
    };
    Ok(())
}

/// Adds the columns of a file.
fn push_columns<'a>(
    table: &mut Vec<TableRow<'a>>,
    file: usize,
    columnar: &'a ColumnarReader,
) -> Result<(), AllocError>
    requires { All (λ r. IsUtf8 r.path.now) table.old.items }
    ensures rows { OnOk result (map spec.row_of table.new.items
        ≡ map spec.row_of table.old.items ++ map (spec.file_row file) columnar.now.columns) }
    ensures utf8 { OnOk result (All (λ r. IsUtf8 r.path.now) table.new.items) }
{
    for (path, handle) in columnar.iter_columns() {
        push_column(table, path, FileColumn { file, handle })?;
    }
    Ok(())
}

fn push_column<'a>(
    table: &mut Vec<TableRow<'a>>,
    path: &'a str,
    column: FileColumn,
) -> Result<(), AllocError>
    requires { All (λ r. IsUtf8 r.path.now) table.old.items }
    ensures rows { OnOk result (map spec.row_of table.new.items ≡ map spec.row_of table.old.items
        ++ spec.file_row column.file (record { path = path.now; stored = column.handle }) ∷ []) }
    ensures utf8 { OnOk result (All (λ r. IsUtf8 r.path.now) table.new.items) }
{
    let column_type = column.handle.column_type();
    let row = TableRow {
        path: path.as_bytes(),
        column_type,
        column: Some(column),
    };
    let Ok(()) = table.push(row) else {
        return Err(AllocError);
    };
    Ok(())
}
