//! What the last bytes of a file of columns tell, and the table before them.
ghost use Rattle.std.specs.Prelude.{◌≡◌, ◌≤◌, length, MatchOption, MatchResult};
ghost use Rattle.seg_columns.specs.Refusals.{Refuses};
ghost use Rattle.seg_column_file.specs.ColumnFiles as spec;
ghost use Rattle.seg_column_file.specs.ColumnFiles.{IsColumnFile, HasFooter};
ghost use Rattle.seg_column_file.specs.Footers.{IsFooterOf};

use crate::columns_check::check_columns;
use crate::format::{COLUMNS_VERSION, COUNT, FOOTER, LEAST_BYTES};
use crate::table_check::are_entries;
use seg_columns::ColumnError;
use seg_common::{OwnedBytes, u32_at, u64_at};
use std::alloc::Global;

/// The numbers of a file.
#[derive(Clone, Copy, Debug)]
pub(crate) struct Footer {
    pub(crate) num_rows: u32,
    pub(crate) num_columns: u64,
    /// The bytes of all columns.
    pub(crate) size: usize,
}

/// The numbers of a file, where the bytes are one.
pub(crate) fn checked_footer(alloc: Global, bytes: &OwnedBytes) -> Result<Footer, ColumnError>
    ensures { MatchResult result (λ f. IsColumnFile bytes.now × IsFooterOf bytes.now f)
        (Refuses (IsColumnFile bytes.now)) }
{
    let data = bytes.as_slice();
    let Some(size) = columns_size(data) else {
        return Err(ColumnError::Malformed);
    };
    let table = table_in(data, size);
    let num_columns = u64_at(table, 0);
    if !are_entries(table, num_columns) {
        return Err(ColumnError::Malformed);
    }
    let num_rows = rows_in(data);
    match check_columns(alloc, bytes, table, num_columns, size, num_rows) {
        Ok(()) => Ok(Footer {
            num_rows,
            num_columns,
            size,
        }),
        Err(error) => Err(error),
    }
}

/// How many bytes come before the table, where the last numbers are those of a file.
fn columns_size(bytes: &[u8]) -> Option<usize>
    ensures { MatchOption result (HasFooter bytes.now → ⊥)
        (λ size. (size ≡ spec.data_length bytes.now) × HasFooter bytes.now) }
{
    let len = bytes.len();
    if len < LEAST_BYTES {
        return None;
    }
    if u32_at(bytes, len - 4) != COLUMNS_VERSION {
        return None;
    }
    let table = u64_at(bytes, len - FOOTER);
    if table < COUNT as u64 {
        return None;
    }
    if table > (len - FOOTER) as u64 {
        return None;
    }
    Some(len - (FOOTER + table as usize))
}

/// The table.
pub(crate) fn table_in(bytes: &[u8], size: usize) -> &[u8]
    requires footer { HasFooter bytes.now }
    requires size { size ≡ spec.data_length bytes.now }
    ensures table { result.now ≡ spec.table_of bytes.now }
    ensures counted { 8 ≤ length result.now }
{
    &bytes[size..bytes.len() - FOOTER]
}

fn rows_in(bytes: &[u8]) -> u32
    requires { HasFooter bytes.now }
    ensures { result ≡ spec.row_count bytes.now }
{
    u32_at(bytes, bytes.len() - 8)
}
