//! Whether bytes are a column.
ghost use Rattle.std.specs.Prelude.{◌≡◌, ◌*◌, ◌+◌, ◌≤◌, ◌<◌, ℕ, length, drop, IsSome, MatchBool};
ghost use Rattle.seg_columns.specs.Columns.{IsColumn, AreKnown, value_at};

use crate::column_value::ColumnValue;
use crate::ends::{END_BYTES, ends_rise, start_at};

/// Whether bytes are a column of this type for this many documents: one pass over them, without memory.
pub fn is_column<T: ColumnValue>(bytes: &[u8], num_docs: u32) -> bool
    ensures { MatchBool result (IsColumn T.WIDTH T.decoded num_docs bytes.now)
        (IsColumn T.WIDTH T.decoded num_docs bytes.now → ⊥) }
{
    let rows = num_docs as usize;
    if bytes.len() / END_BYTES < rows {
        return false;
    }
    if !ends_rise(bytes, rows) {
        return false;
    }
    let values = values_of(bytes, rows);
    let count = start_at(bytes, rows);
    if !fill::<T>(count, values.len()) {
        return false;
    }
    are_known::<T>(values, count as usize)
}

/// The bytes of the values.
pub(crate) fn values_of(bytes: &[u8], rows: usize) -> &[u8]
    requires { 8 * rows ≤ length bytes.now }
    ensures { result.now ≡ drop (8 * rows) bytes.now }
{
    &bytes[END_BYTES * rows..]
}

/// Whether this many values fill this many bytes.
fn fill<T: ColumnValue>(count: u64, len: usize) -> bool
    ensures { MatchBool result (T.WIDTH * count ≡ len) (T.WIDTH * count ≡ len → ⊥) }
{
    let width = T::WIDTH as u64;
    let len = len as u64;
    len / width == count && len % width == 0
}

fn are_known<T: ColumnValue>(values: &[u8], count: usize) -> bool
    requires { T.WIDTH * count ≤ length values.now }
    ensures { MatchBool result (AreKnown T.WIDTH T.decoded values.now count)
        (AreKnown T.WIDTH T.decoded values.now count → ⊥) }
{
    for place in 0..count {
        if !is_known::<T>(values, place) {
            return false;
        }
    }
    true
}

fn is_known<T: ColumnValue>(values: &[u8], place: usize) -> bool
    requires { T.WIDTH * place + T.WIDTH ≤ length values.now }
    ensures { MatchBool result (IsSome (value_at T.WIDTH T.decoded values.now place))
        (IsSome (value_at T.WIDTH T.decoded values.now place) → ⊥) }
{
    let start = place * T::WIDTH;
    T::decode(&values[start..start + T::WIDTH]).is_some()
}
