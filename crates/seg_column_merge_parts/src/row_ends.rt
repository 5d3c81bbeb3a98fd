//! Where the first rows of a column end, after the rows of other files.
ghost use Rattle.std.specs.Prelude.{◌≡◌, ◌+◌, ◌*◌, ◌^◌, ◌≤◌, ◌<◌, ◌++◌, ℕ, length, map, replicate, take, get_or, IfOk, OnOk};
ghost use Rattle.std.specs.List.{range_with_len};
ghost use Rattle.seg_columns.specs.Ends as spec;
ghost use Rattle.seg_column_format.specs.ColumnBytes.{number_bytes};

use seg_columns::{END_BYTES, start_at};
use seg_common::put_u64;
use std::alloc::AllocError;

/// Adds the ends of this many rows without a value, after this many values, and answers how many these are.
pub(crate) fn put_same_ends(rows: u32, before: u64, out: &mut Vec<u8>) -> Result<u64, AllocError>
    ensures bytes { OnOk result (out.new.items ≡ out.old.items ++ number_bytes (replicate rows before)) }
    ensures end { IfOk result (λ end. end ≡ before) }
    ensures fits { before < 2 ^ 64 }
{
    seg_column_format::put_same_ends(out, rows, before)?;
    Ok(before)
}

/// Adds the ends of the first rows of a column, after this many values, and answers how many these are with theirs: as
/// one slice where they are the first.
pub(crate) fn put_ends_after(
    ends: &[u8],
    rows: u32,
    before: u64,
    out: &mut Vec<u8>,
) -> Result<u64, AllocError>
    requires { 8 * rows ≤ length ends.now }
    ensures bytes { OnOk result (out.new.items
        ≡ out.old.items
        ++ number_bytes (map (λ row. before + spec.start_at ends.now (row + 1)) (range_with_len 0 rows))) }
    ensures end { IfOk result (λ end. end ≡ before + spec.start_at ends.now rows) }
    ensures fits { IfOk result (λ end. end < 2 ^ 64) }
{
    let rows = rows as usize;
    if before == 0 {
        put_ends(ends, rows, out)?;
        return Ok(start_at(ends, rows));
    }
    let mut end = before;
    for row in 0..rows {
        let Some(next) = before.checked_add(start_at(ends, row + 1)) else {
            return Err(AllocError);
        };
        put_u64(out, next)?;
        end = next;
    }
    Ok(end)
}

/// Adds them as they stand in the file.
fn put_ends(ends: &[u8], rows: usize, out: &mut Vec<u8>) -> Result<(), AllocError>
    requires { 8 * rows ≤ length ends.now }
    ensures bytes { OnOk result (out.new.items ≡ out.old.items ++ take (8 * rows) ends.now) }
    ensures octets { (i : ℕ) → get_or ends.now i 0 < 256 }
{
    out.extend_from_slice(&ends[..END_BYTES * rows])
}
