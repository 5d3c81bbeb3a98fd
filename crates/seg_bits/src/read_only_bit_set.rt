//! Sets in the bytes that they were written to.
ghost use Rattle.std.specs.Prelude.{◌≡◌, ◌+◌, ◌*◌, Some, None, false, length, get_or, IfOk, IfErr};
ghost use Rattle.seg_common.specs.declared.error.CommonError.TheVariants.{Malformed, OutOfMemory};
ghost use Rattle.seg_bits.specs.BitSets.{set_of, words_for, member_count, numbers_from};
ghost use Rattle.seg_common.specs.Marks.{both_marked};

use crate::bit_set_iter::BitSetIter;
use crate::intersect::shared_words;
use crate::look_up::{count_members, is_member};
use crate::words::checked_size;
use seg_common::{ByteCount, CommonError, OwnedBytes};
use std::alloc::{AllocError, Global};
use std::marker::Model;

/// An immutable set of numbers below a size. A copy takes no memory.
#[derive(Drop)]
pub struct ReadOnlyBitSet {
    bytes: OwnedBytes,
    max_value: u32,
}

impl Model for ReadOnlyBitSet {
    ghost use Rattle.std.specs.Prelude.{◌≡◌, List, Bool, true};
    ghost use Rattle.seg_common.specs.LittleEndian.{u32_at};
    ghost use Rattle.seg_bits.specs.BitSets.{is_bit_set, set_in};

    ghost Value = { List Bool };

    ghost view = { λ s. set_in s.bytes };

    ghost invariant = { λ s. (s.max_value ≡ u32_at s.bytes 0) × (is_bit_set s.bytes ≡ true) };
}

impl ReadOnlyBitSet {
    /// Checks the bytes, and takes no memory. `Malformed`: they are not of the length that their size says, or a bit is
    /// set after the last number.
    pub fn open(bytes: OwnedBytes) -> Result<ReadOnlyBitSet, CommonError>
        ensures ok { IfOk result (λ set. set_of bytes ≡ Some set) }
        ensures malformed { IfErr result (λ e. (e ≡ Malformed) × (set_of bytes ≡ None)) }
    {
        match checked_size(bytes.as_slice()) {
            Some(max_value) => Ok(ReadOnlyBitSet { bytes, max_value }),
            None => Err(CommonError::Malformed),
        }
    }

    /// Whether a number is in; none from the size on is.
    pub fn contains(&self, value: u32) -> bool
        ensures { result ≡ get_or self.now value false }
    {
        is_member(self.bytes.as_slice(), self.max_value, value)
    }

    /// The numbers that are in, ascending.
    pub fn iter(&self) -> BitSetIter<'_>
        ensures { result ≡ numbers_from 0 self.now }
    {
        BitSetIter::new(self.bytes.as_slice(), self.max_value)
    }

    /// How many numbers are in, counted word by word.
    pub fn len(&self) -> usize
        ensures { result ≡ member_count self.now }
    {
        count_members(self.bytes.as_slice(), self.max_value)
    }

    /// The size: each number is below it.
    pub fn max_value(&self) -> u32
        ensures { result ≡ length self.now }
    {
        self.max_value
    }

    /// How many bytes the set has.
    pub fn num_bytes(&self) -> ByteCount
        ensures { result.0 ≡ 4 + 8 * words_for (length self.now) }
    {
        ByteCount(self.bytes.len() as u64)
    }
}

/// Shares the bytes, and never fails.
impl Clone for ReadOnlyBitSet {
    ghost is_clone = { λ set copy. copy ≡ set };

    ghost is_infallible = { λ _. Unit {0} };

    fn clone(&self) -> Result<ReadOnlyBitSet, AllocError> {
        Ok(ReadOnlyBitSet {
            bytes: self.bytes.share(),
            max_value: self.max_value,
        })
    }
}

/// The numbers that are in both of two sets of one size.
pub fn intersect_bitsets(
    alloc: Global,
    left: &ReadOnlyBitSet,
    right: &ReadOnlyBitSet,
) -> Result<ReadOnlyBitSet, CommonError>
    requires { length left.now ≡ length right.now }
    ensures ok { IfOk result (λ set. set ≡ both_marked left.now right.now) }
    ensures err { IfErr result (λ e. e ≡ OutOfMemory) }
{
    let max_value = left.max_value;
    let bytes = shared_words(
        alloc,
        left.bytes.as_slice(),
        right.bytes.as_slice(),
        max_value,
    )?;
    Ok(ReadOnlyBitSet {
        bytes: OwnedBytes::from_vec(alloc, bytes)?,
        max_value,
    })
}
