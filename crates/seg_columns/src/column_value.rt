//! The types of values that columns have.
ghost use Rattle.std.specs.Prelude.{◌≡◌, ℕ, ◌<◌, ◌≤◌, List, Option, length};
ghost use Rattle.std.proofs.Common.{arith};
ghost use Rattle.seg_columns.specs.ValueImages.{signed, truth, unsigned, value_of_image};

use seg_common::{DateTime, MonotonicallyMappableToU64, u64_at};

/// A value that takes a fixed number of bytes in a column.
pub trait ColumnValue: Copy + Drop {
    ghost WIDTH: { ℕ };

    /// The bytes of a value.
    const WIDTH: usize;

    /// The value that bytes are, if they are one.
    ghost decoded: { List ℕ → Option Self };

    fn decode(bytes: &[u8]) -> Option<Self>
        requires { length bytes.now ≡ WIDTH }
        ensures { result ≡ decoded bytes.now };

    ghost some_bytes: { (0 < WIDTH) × (WIDTH ≤ 16) };
}

impl ColumnValue for u64 {
    ghost WIDTH = { 8 };

    const WIDTH: usize = 8;

    ghost decoded = { unsigned };

    ghost some_bytes = { (Prim.omega arith, Prim.omega arith) };

    fn decode(bytes: &[u8]) -> Option<u64> {
        of_image(bytes)
    }
}

impl ColumnValue for i64 {
    ghost WIDTH = { 8 };

    const WIDTH: usize = 8;

    ghost decoded = { signed };

    ghost some_bytes = { (Prim.omega arith, Prim.omega arith) };

    fn decode(bytes: &[u8]) -> Option<i64> {
        of_image(bytes)
    }
}

impl ColumnValue for bool {
    ghost WIDTH = { 8 };

    const WIDTH: usize = 8;

    ghost decoded = { truth };

    ghost some_bytes = { (Prim.omega arith, Prim.omega arith) };

    fn decode(bytes: &[u8]) -> Option<bool> {
        of_image(bytes)
    }
}

impl ColumnValue for DateTime {
    ghost WIDTH = { 8 };

    const WIDTH: usize = 8;

    ghost decoded = { signed };

    ghost some_bytes = { (Prim.omega arith, Prim.omega arith) };

    fn decode(bytes: &[u8]) -> Option<DateTime> {
        of_image(bytes)
    }
}

/// The value whose number is in the bytes.
fn of_image<T: MonotonicallyMappableToU64>(bytes: &[u8]) -> Option<T>
    requires { length bytes.now ≡ 8 }
    ensures { result ≡ value_of_image T.is_image T.value_of bytes.now }
{
    let image = u64_at(bytes, 0);
    if T::is_image(image) {
        Some(T::from_u64(image))
    } else {
        None
    }
}
