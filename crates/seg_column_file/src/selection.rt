//! Columns by their paths.
ghost use Rattle.std.specs.Prelude.{◌≡◌, IfOk};
ghost use Rattle.std.specs.Str.{bytes_eq};
ghost use Rattle.seg_column_file.specs.ColumnFiles as spec;

use crate::column_iter::ColumnIter;
use seg_columns::DynamicColumnHandle;
use seg_common::PATH_SEPARATOR_BYTE;
use std::alloc::{AllocError, Global};

/// The columns of a path, or with `below` those of all paths below it.
pub(crate) fn selected_columns(
    alloc: Global,
    columns: ColumnIter<'_>,
    path: &str,
    below: bool,
) -> Result<Vec<DynamicColumnHandle>, AllocError>
    ensures { IfOk result (λ handles. handles.items
        ≡ spec.stored_where (spec.is_selected below path.now) columns.entry) }
{
    let mut handles = Vec::new(alloc);
    for (column_path, handle) in columns {
        if is_selected(below, path, column_path) {
            handles.push(handle)?;
        }
    }
    Ok(handles)
}

fn is_selected(below: bool, path: &str, other: &str) -> bool
    ensures { result ≡ spec.is_selected below path.now other.now }
{
    if below {
        is_below(path.as_bytes(), other.as_bytes())
    } else {
        is_equal(other.as_bytes(), path.as_bytes())
    }
}

fn is_below(path: &[u8], longer: &[u8]) -> bool
    ensures { result ≡ spec.is_below path.now longer.now }
{
    let length = path.len();
    length < longer.len()
        && longer[length] == PATH_SEPARATOR_BYTE
        && is_equal(&longer[..length], path)
}

fn is_equal(left: &[u8], right: &[u8]) -> bool
    ensures { result ≡ bytes_eq left.now right.now }
{
    left == right
}
