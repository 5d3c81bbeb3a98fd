//! What two sets share, word by word.
ghost use Rattle.std.specs.Prelude.{◌≡◌, true, IfOk};
ghost use Rattle.seg_common.specs.LittleEndian as little_endian;
ghost use Rattle.seg_bits.specs.BitSets.{is_bit_set, set_in};
ghost use Rattle.seg_common.specs.Marks.{both_marked};

use crate::words::{num_words, word_at};
use seg_common::{put_u32, put_u64};
use std::alloc::{AllocError, Global};

/// The bytes of the numbers that are in both of two sets of one size.
pub(crate) fn shared_words(
    alloc: Global,
    left: &[u8],
    right: &[u8],
    max_value: u32,
) -> Result<Vec<u8>, AllocError>
    requires left { max_value ≡ little_endian.u32_at left.now 0 }
    requires right { max_value ≡ little_endian.u32_at right.now 0 }
    requires left_set { is_bit_set left.now ≡ true }
    requires right_set { is_bit_set right.now ≡ true }
    ensures size { IfOk result (λ bytes. max_value ≡ little_endian.u32_at bytes.items 0) }
    ensures set { IfOk result (λ bytes. is_bit_set bytes.items ≡ true) }
    ensures shared { IfOk result (λ bytes. set_in bytes.items ≡ both_marked (set_in left.now) (set_in right.now)) }
{
    let mut bytes = Vec::with_capacity(alloc, left.len())?;
    put_u32(&mut bytes, max_value)?;
    for at in 0..num_words(max_value) {
        put_u64(&mut bytes, word_at(left, at) & word_at(right, at))?;
    }
    Ok(bytes)
}
