//! Whether bytes are a dictionary.
ghost use Rattle.std.specs.Prelude.{◌≡◌, ◌≤◌, ◌+◌, ◌*◌, length, drop, MatchBool, MatchOption};
ghost use Rattle.std.specs.Ordering.{nat_cmp};
ghost use Rattle.std.specs.Cmp.Lexicographic.{slice_cmp};
ghost use Rattle.seg_columns.specs.Dictionaries.{HoldsTerms, IsDictionary, TermsAscend, count_of};

use crate::ends::{END_BYTES, ends_rise, start_at};
use crate::terms::{COUNT, ends_of, term_at, texts_of};
use seg_common::u64_at;
use std::cmp::Ordering;

/// The number of terms, where the bytes are a dictionary.
pub(crate) fn checked_count(bytes: &[u8]) -> Option<usize>
    ensures { MatchOption result (IsDictionary bytes.now → ⊥)
        (λ count. (count ≡ count_of bytes.now) × IsDictionary bytes.now) }
{
    let count = terms_held(bytes)?;
    if !terms_ascend(bytes, count) {
        return None;
    }
    Some(count)
}

/// The number of terms, where this many fill the bytes.
fn terms_held(bytes: &[u8]) -> Option<usize>
    ensures { MatchOption result (HoldsTerms bytes.now → ⊥)
        (λ count. (count ≡ count_of bytes.now) × HoldsTerms bytes.now) }
{
    if bytes.len() < COUNT {
        return None;
    }
    let number = u64_at(bytes, 0);
    if number > ((bytes.len() - COUNT) / END_BYTES) as u64 {
        return None;
    }
    let count = number as usize;
    if !ends_rise(ends_of(bytes), count) {
        return None;
    }
    if start_at(ends_of(bytes), count) != texts_of(bytes, count).len() as u64 {
        return None;
    }
    Some(count)
}

fn terms_ascend(bytes: &[u8], count: usize) -> bool
    requires count { count ≡ count_of bytes.now }
    requires holds { HoldsTerms bytes.now }
    ensures { MatchBool result (TermsAscend bytes.now) (TermsAscend bytes.now → ⊥) }
{
    for place in 1..count {
        if !is_below(
            term_at(bytes, count, place - 1),
            term_at(bytes, count, place),
        ) {
            return false;
        }
    }
    true
}

fn is_below(left: &[u8], right: &[u8]) -> bool
    ensures { MatchBool result (slice_cmp nat_cmp left.now right.now ≡ Ordering.Less)
        (slice_cmp nat_cmp left.now right.now ≡ Ordering.Less → ⊥) }
{
    match left.cmp(&right) {
        Ordering::Less => true,
        Ordering::Equal => false,
        Ordering::Greater => false,
    }
}
