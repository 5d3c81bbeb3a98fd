//! The bytes of the values that the first rows of a column have.
ghost use Rattle.std.specs.Prelude.{◌≡◌, ◌+◌, ◌*◌, ◌≤◌, ◌<◌, ℕ, length, take, get_or, slice_range};
ghost use Rattle.std.specs.Int.{w64, to_le_bytes};
ghost use Rattle.std.specs.List.{flat_map};
ghost use Rattle.std.specs.Net.Addr.{ipv6_octets};
ghost use Rattle.seg_columns.specs.Ends as spec;

use seg_columns::{Column, END_BYTES, start_at};
use std::net::Ipv6Addr;

/// Those of numbers.
pub(crate) fn number_bytes(column: &Column<u64>, rows: u32) -> &[u8]
    requires { rows ≤ length column.now }
    ensures { result.now ≡ flat_map (flat_map (to_le_bytes w64)) (take rows column.now) }
{
    first_numbers(column.as_bytes(), column.num_docs() as usize, rows as usize)
}

/// Those of addresses.
pub(crate) fn address_bytes(column: &Column<Ipv6Addr>, rows: u32) -> &[u8]
    requires { rows ≤ length column.now }
    ensures { result.now ≡ flat_map (flat_map ipv6_octets) (take rows column.now) }
{
    first_addresses(column.as_bytes(), column.num_docs() as usize, rows as usize)
}

/// The bytes after the ends of a column of this many documents, as far as the values of the first rows go.
fn first_numbers(bytes: &[u8], docs: usize, rows: usize) -> &[u8]
    requires ends { 8 * rows ≤ length bytes.now }
    requires within { 8 * docs + 8 * spec.start_at bytes.now rows ≤ length bytes.now }
    ensures cut { result.now ≡ slice_range bytes.now (8 * docs) (8 * docs + 8 * spec.start_at bytes.now rows) }
    ensures octets { (i : ℕ) → get_or bytes.now i 0 < 256 }
{
    let start = END_BYTES * docs;
    let count = start_at(bytes, rows) as usize;
    bytes_between(bytes, start, start + 8 * count)
}

/// As `first_numbers`, for addresses.
fn first_addresses(bytes: &[u8], docs: usize, rows: usize) -> &[u8]
    requires ends { 8 * rows ≤ length bytes.now }
    requires within { 8 * docs + 16 * spec.start_at bytes.now rows ≤ length bytes.now }
    ensures cut { result.now ≡ slice_range bytes.now (8 * docs) (8 * docs + 16 * spec.start_at bytes.now rows) }
    ensures octets { (i : ℕ) → get_or bytes.now i 0 < 256 }
{
    let start = END_BYTES * docs;
    let count = start_at(bytes, rows) as usize;
    bytes_between(bytes, start, start + 16 * count)
}

fn bytes_between(bytes: &[u8], start: usize, end: usize) -> &[u8]
    requires order { start ≤ end }
    requires within { end ≤ length bytes.now }
    ensures cut { result.now ≡ slice_range bytes.now start end }
    ensures octets { (i : ℕ) → get_or bytes.now i 0 < 256 }
{
    &bytes[start..end]
}
