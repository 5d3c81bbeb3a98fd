//! Files without columns.
ghost use Rattle.std.specs.Prelude.{◌≡◌};
ghost use Rattle.seg_column_file.specs.EmptyColumnFile.{rows_of};

use crate::format::{COLUMNS_VERSION, COUNT, FOOTER, LEAST_BYTES, NO_COLUMN};
use seg_common::{u32_at, u64_at};

/// The number of rows, where the bytes are a file without columns: a fixed number of steps, and no memory.
#[tactic(auto, unfolding(crate::specs::EmptyColumnFile::rows_of, crate::specs::EmptyColumnFile::is_without_columns))]
pub fn rows_without_columns(bytes: &[u8]) -> Option<u32>
    ensures { result ≡ rows_of bytes.now }
{
    if bytes.len() == LEAST_BYTES
        && u64_at(bytes, 0) == NO_COLUMN
        && u64_at(bytes, COUNT) == COUNT as u64
        && u32_at(bytes, COUNT + FOOTER - 4) == COLUMNS_VERSION
    {
        Some(u32_at(bytes, FOOTER))
    } else {
        None
    }
}
