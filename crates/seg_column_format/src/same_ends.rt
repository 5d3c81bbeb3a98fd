//! Where rows without a value end.
ghost use Rattle.std.specs.Prelude.{◌≡◌, ◌++◌, replicate, OnOk};
ghost use Rattle.seg_column_format.specs.ColumnBytes.{number_bytes};

use seg_common::put_u64;
use std::alloc::AllocError;

/// Adds the ends of this many rows without a value, after this many values.
pub fn put_same_ends(out: &mut Vec<u8>, rows: u32, end: u64) -> Result<(), AllocError>
    ensures { OnOk result (out.new.items ≡ out.old.items ++ number_bytes (replicate rows end)) }
{
    for _row in 0..rows {
        put_u64(out, end)?;
    }
    Ok(())
}
