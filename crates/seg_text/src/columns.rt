//! The lines of all columns of a segment.
ghost use Rattle.std.specs.Prelude.{◌≡◌, ◌++◌, OnOk};
ghost use Rattle.seg_column_format.specs.ModelColumns.{columns_in};
ghost use Rattle.seg_text.specs.ColumnText.{columns_text};

use crate::column_line::push_column;
use seg_column_file::ColumnarReader;
use std::alloc::{AllocError, Global};

/// A line for each column, in order of path and type. Each column is scanned once. After an error it is open what
/// `out` holds.
pub fn push_columns(
    out: &mut Vec<u8>,
    alloc: Global,
    columns: &ColumnarReader,
) -> Result<(), AllocError>
    ensures { OnOk result (out.new.items ≡ out.old.items ++ columns_text (columns_in columns.now)) }
{
    columns.are_of_a_file();
    for (path, handle) in columns.iter_columns() {
        push_column(out, alloc, path, &handle)?;
    }
    Ok(())
}
