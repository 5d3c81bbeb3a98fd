//! The words of a set in bytes, after the four bytes of its size.
ghost use Rattle.std.specs.Prelude.{◌≡◌, ◌≤◌, ◌<◌, ◌+◌, ◌*◌, ◌^◌, ℕ, Some, None, true, false, length, drop, get_or, MatchOption};
ghost use Rattle.seg_common.specs.LittleEndian as little_endian;
ghost use Rattle.seg_bits.specs.BitSets as spec;

use seg_common::{u32_at, u64_at};

/// The bytes of the size.
pub(crate) const SIZE: usize = 4;

/// The bytes of a word.
pub(crate) const WORD: usize = 8;

/// How many words hold this many bits.
pub(crate) fn num_words(max_value: u32) -> usize
    ensures { result ≡ spec.words_for max_value }
{
    max_value.div_ceil(64) as usize
}

/// The word that has this many before it.
#[inline]
pub(crate) fn word_at(bytes: &[u8], at: usize) -> u64
    requires length { length bytes.now ≡ 4 + 8 * spec.words_for (little_endian.u32_at bytes.now 0) }
    requires within { at < spec.words_for (little_endian.u32_at bytes.now 0) }
    ensures { result ≡ get_or (spec.words_of bytes.now) at 0 }
{
    u64_at(bytes, SIZE + WORD * at)
}

/// Whether no bit is set after the last number.
fn is_clear(bytes: &[u8], max_value: u32) -> bool
    requires size { max_value ≡ little_endian.u32_at bytes.now 0 }
    requires length { length bytes.now ≡ 4 + 8 * spec.words_for max_value }
    ensures { result ≡ spec.is_clear_from max_value (spec.words_of bytes.now) }
{
    let used = max_value % 64;
    if used == 0 {
        return true;
    }
    let last = word_at(bytes, (max_value / 64) as usize);
    last >> used == 0
}

/// The size that the bytes begin with, where they are a set.
pub(crate) fn checked_size(bytes: &[u8]) -> Option<u32>
    ensures { MatchOption result (spec.set_of bytes.now ≡ None)
        (λ size. (size ≡ little_endian.u32_at bytes.now 0) × (spec.is_bit_set bytes.now ≡ true)) }
{
    if bytes.len() < SIZE {
        return None;
    }
    let max_value = u32_at(bytes, 0);
    if bytes.len() != SIZE + WORD * num_words(max_value) {
        return None;
    }
    if !is_clear(bytes, max_value) {
        return None;
    }
    Some(max_value)
}
