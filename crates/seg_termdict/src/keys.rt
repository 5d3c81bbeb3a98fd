//! The keys of a dictionary: a table of their ends, and their bytes.
ghost use Rattle.std.specs.Prelude.{◌≡◌, ◌≢◌, ◌≤◌, ◌<◌, ◌+◌, ◌*◌, ℕ, ◌⊎◌, true, false, length, MatchBool, MatchOption};
ghost use Rattle.std.specs.Ordering.{nat_cmp};
ghost use Rattle.std.specs.Cmp.Lexicographic.{slice_cmp};
ghost use Rattle.seg_termdict.specs.Dictionary as spec;
ghost use Rattle.seg_termdict.specs.TermRanges as ranges;

use crate::format::KEY_END;
use seg_common::u64_at;
use std::cmp::Ordering;

/// Whether a key may follow another, or is the first.
fn rises(i: usize, previous: &[u8], key: &[u8]) -> bool
    ensures { MatchBool result ((i ≡ 0) ⊎ (slice_cmp nat_cmp previous.now key.now ≡ Ordering.Less))
        ((0 < i) × (slice_cmp nat_cmp previous.now key.now ≡ Ordering.Less → ⊥)) }
{
    if i == 0 {
        return true;
    }
    match previous.cmp(&key) {
        Ordering::Less => true,
        Ordering::Equal => false,
        Ordering::Greater => false,
    }
}

/// Whether this many keys fill their bytes, and strictly ascend.
pub(crate) fn are_keys(ends: &[u8], keys: &[u8], count: usize) -> bool
    requires { 8 * count ≤ length ends.now }
    ensures { MatchBool result (spec.AreKeys ends.now keys.now count) (spec.AreKeys ends.now keys.now count → ⊥) }
{
    let mut start = 0usize;
    let mut previous: &[u8] = &[];
    for i in 0..count {
        let end = u64_at(ends, KEY_END * i);
        if end > keys.len() as u64 {
            return false;
        }
        let end = end as usize;
        if end < start {
            return false;
        }
        let key = &keys[start..end];
        if !rises(i, previous, key) {
            return false;
        }
        previous = key;
        start = end;
    }
    start == keys.len()
}

fn key_start(ends: &[u8], i: usize) -> u64
    requires { 8 * i ≤ length ends.now }
    ensures { result ≡ spec.key_start ends.now i }
{
    if i == 0 {
        0
    } else {
        u64_at(ends, KEY_END * (i - 1))
    }
}

/// The key at a place.
pub(crate) fn key_at<'a>(ends: &[u8], keys: &'a [u8], i: usize) -> &'a [u8]
    requires room { 8 * i + 8 ≤ length ends.now }
    requires order { spec.key_start ends.now i ≤ spec.key_start ends.now (i + 1) }
    requires within { spec.key_start ends.now (i + 1) ≤ length keys.now }
    ensures { result.now ≡ spec.key_of ends.now keys.now i }
{
    let start = key_start(ends, i) as usize;
    let end = key_start(ends, i + 1) as usize;
    &keys[start..end]
}

/// The place of a key, by binary search.
pub(crate) fn find_key(ends: &[u8], keys: &[u8], count: usize, key: &[u8]) -> Option<usize>
    requires room { 8 * count ≤ length ends.now }
    requires keys { spec.AreKeys ends.now keys.now count }
    ensures { MatchOption result ((i : ℕ) → i < count → spec.key_of ends.now keys.now i ≢ key.now)
        (λ i. (i < count) × (spec.key_of ends.now keys.now i ≡ key.now)) }
{
    let mut low = 0;
    let mut high = count;
    while low < high {
        let middle = low + (high - low) / 2;
        match key_at(ends, keys, middle).cmp(&key) {
            Ordering::Less => low = middle + 1,
            Ordering::Greater => high = middle,
            Ordering::Equal => return Some(middle),
        }
    }
    None
}

/// Whether a key comes before a bound, or with `through` at or before it.
fn comes_before(through: bool, bound: &[u8], key: &[u8]) -> bool
    ensures { result ≡ ranges.comes_before through bound.now key.now }
{
    match key.cmp(&bound) {
        Ordering::Less => true,
        Ordering::Equal => through,
        Ordering::Greater => false,
    }
}

/// How many keys come before a bound, or with `through` at or before it, by binary search.
pub(crate) fn keys_before(
    ends: &[u8],
    keys: &[u8],
    count: usize,
    bound: &[u8],
    through: bool,
) -> usize
    requires room { 8 * count ≤ length ends.now }
    requires keys { spec.AreKeys ends.now keys.now count }
    ensures within { result ≤ count }
    ensures before { (i : ℕ) → i < result
        → ranges.comes_before through bound.now (spec.key_of ends.now keys.now i) ≡ true }
    ensures behind { (i : ℕ) → result ≤ i → i < count
        → ranges.comes_before through bound.now (spec.key_of ends.now keys.now i) ≡ false }
{
    let mut low = 0;
    let mut high = count;
    while low < high {
        let middle = low + (high - low) / 2;
        if comes_before(through, bound, key_at(ends, keys, middle)) {
            low = middle + 1;
        } else {
            high = middle;
        }
    }
    low
}
