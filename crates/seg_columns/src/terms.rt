//! The terms in the bytes of a dictionary.
//!
//! ```text
//! number   how many terms there are (u64)
//! ends     where each ends (u64, counted from the first byte of the first)
//! terms    their bytes, one after another
//! ```
ghost use Rattle.std.specs.Prelude.{◌≡◌, ◌≢◌, ◌≤◌, ◌<◌, ◌+◌, ◌*◌, ℕ, length, drop, MatchOption};
ghost use Rattle.seg_columns.specs.Dictionaries as spec;

use crate::ends::{END_BYTES, start_at};
use std::cmp::Ordering;

/// The bytes of the number of terms.
pub(crate) const COUNT: usize = 8;

/// The table of the ends, with what follows it.
pub(crate) fn ends_of(bytes: &[u8]) -> &[u8]
    requires { 8 ≤ length bytes.now }
    ensures { result.now ≡ spec.ends_of bytes.now }
{
    &bytes[COUNT..]
}

/// The bytes of all terms.
pub(crate) fn texts_of(bytes: &[u8], count: usize) -> &[u8]
    requires count { count ≡ spec.count_of bytes.now }
    requires room { 8 + 8 * count ≤ length bytes.now }
    ensures { result.now ≡ spec.texts_of bytes.now }
{
    &bytes[COUNT + END_BYTES * count..]
}

/// The term at a place.
pub(crate) fn term_at(bytes: &[u8], count: usize, place: usize) -> &[u8]
    requires count { count ≡ spec.count_of bytes.now }
    requires holds { spec.HoldsTerms bytes.now }
    requires place { place < count }
    ensures { result.now ≡ spec.term_at bytes.now place }
{
    let ends = ends_of(bytes);
    let start = start_at(ends, place) as usize;
    let end = start_at(ends, place + 1) as usize;
    part(texts_of(bytes, count), start, end)
}

fn part(bytes: &[u8], start: usize, end: usize) -> &[u8]
    requires order { start ≤ end }
    requires within { end ≤ length bytes.now }
    ensures { result.now ≡ Rattle.std.specs.Prelude.slice_range bytes.now start end }
{
    &bytes[start..end]
}

/// The place of a term, by binary search.
pub(crate) fn find_term(bytes: &[u8], count: usize, term: &[u8]) -> Option<usize>
    requires count { count ≡ spec.count_of bytes.now }
    requires dictionary { spec.IsDictionary bytes.now }
    ensures { MatchOption result ((i : ℕ) → i < count → spec.term_at bytes.now i ≢ term.now)
        (λ i. (i < count) × (spec.term_at bytes.now i ≡ term.now)) }
{
    let mut low = 0;
    let mut high = count;
    while low < high {
        let middle = low + (high - low) / 2;
        match term_at(bytes, count, middle).cmp(&term) {
            Ordering::Less => low = middle + 1,
            Ordering::Greater => high = middle,
            Ordering::Equal => return Some(middle),
        }
    }
    None
}
