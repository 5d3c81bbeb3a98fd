//! Look-ups in the bytes of a set.
ghost use Rattle.std.specs.Prelude.{◌≡◌, ◌<◌, ◌+◌, [], ◌∷◌, true, false, get_or, drop, IfSome, MatchOption};
ghost use Rattle.seg_common.specs.LittleEndian as little_endian;
ghost use Rattle.seg_bits.specs.BitSets.{is_bit_set, set_in, member_count, numbers_from};

use crate::words::{num_words, word_at};

/// Whether a number is in.
#[inline]
pub(crate) fn is_member(bytes: &[u8], max_value: u32, value: u32) -> bool
    requires size { max_value ≡ little_endian.u32_at bytes.now 0 }
    requires set { is_bit_set bytes.now ≡ true }
    ensures { result ≡ get_or (set_in bytes.now) value false }
{
    if value >= max_value {
        return false;
    }
    (word_at(bytes, (value / 64) as usize) >> (value % 64)) & 1 == 1
}

/// How many numbers are in.
pub(crate) fn count_members(bytes: &[u8], max_value: u32) -> usize
    requires size { max_value ≡ little_endian.u32_at bytes.now 0 }
    requires set { is_bit_set bytes.now ≡ true }
    ensures { result ≡ member_count (set_in bytes.now) }
{
    let mut count = 0;
    for at in 0..num_words(max_value) {
        count += word_at(bytes, at).count_ones() as usize;
    }
    count
}

/// The first number from a place on that is in.
pub(crate) fn first_member(bytes: &[u8], max_value: u32, from: u32) -> Option<u32>
    requires size { max_value ≡ little_endian.u32_at bytes.now 0 }
    requires set { is_bit_set bytes.now ≡ true }
    ensures first { MatchOption result (numbers_from from (drop from (set_in bytes.now)) ≡ [])
        (λ n. numbers_from from (drop from (set_in bytes.now))
        ≡ n ∷ numbers_from (n + 1) (drop (n + 1) (set_in bytes.now))) }
    ensures within { IfSome result (λ n. n < max_value) }
{
    let mut at = from as usize;
    while at < max_value as usize {
        let rest = word_at(bytes, at / 64) >> (at % 64);
        if rest != 0 {
            return Some((at + rest.trailing_zeros() as usize) as u32);
        }
        at = (at / 64 + 1) * 64;
    }
    None
}
