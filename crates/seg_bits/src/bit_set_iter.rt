//! The numbers of a set, one after another.
ghost use Rattle.std.specs.Prelude.{◌≡◌, true};
ghost use Rattle.std.specs.Iterator.{YieldsFirst, item_count};
ghost use Rattle.seg_common.specs.LittleEndian as little_endian;
ghost use Rattle.seg_bits.specs.BitSets.{is_bit_set, set_in, numbers_from};

use crate::look_up::first_member;
use std::iter::FusedIterator;
use std::marker::Model;

/// The numbers of a set, ascending: seen as the list of those that are left. It goes from word to word, and takes no
/// memory.
#[derive(Drop)]
pub struct BitSetIter<'a> {
    bytes: &'a [u8],
    max_value: u32,
    next: u32,
}

impl<'a> Model for BitSetIter<'a> {
    ghost use Rattle.std.specs.Prelude.{◌≡◌, ℕ, List, true, drop};
    ghost use Rattle.seg_common.specs.LittleEndian.{u32_at};
    ghost use Rattle.seg_bits.specs.BitSets.{is_bit_set, set_in, numbers_from};

    ghost Value = { List ℕ };

    ghost view = { λ it. numbers_from it.next (drop it.next (set_in it.bytes.now)) };

    ghost invariant = { λ it. (it.max_value ≡ u32_at it.bytes.now 0) × (is_bit_set it.bytes.now ≡ true) };
}

impl<'a> BitSetIter<'a> {
    /// All numbers of the set that the bytes have.
    pub(crate) fn new(bytes: &'a [u8], max_value: u32) -> BitSetIter<'a>
        requires size { max_value ≡ little_endian.u32_at bytes.now 0 }
        requires set { is_bit_set bytes.now ≡ true }
        ensures { result ≡ numbers_from 0 (set_in bytes.now) }
    {
        BitSetIter {
            bytes,
            max_value,
            next: 0,
        }
    }
}

impl<'a> Iterator for BitSetIter<'a> {
    type Item = u32;

    ghost next_gives = { YieldsFirst (λ rest. rest) };

    ghost remaining = { item_count (λ rest. rest) };

    fn next(&mut self) -> Option<u32> {
        let number = first_member(self.bytes, self.max_value, self.next)?;
        self.next = number + 1;
        Some(number)
    }
}

impl<'a> FusedIterator for BitSetIter<'a> {}
