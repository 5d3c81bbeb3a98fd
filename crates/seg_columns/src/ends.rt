//! Where parts end, as a table of numbers of eight bytes.
ghost use Rattle.std.specs.Prelude.{◌≡◌, ◌*◌, ◌≤◌, length, MatchBool};
ghost use Rattle.seg_columns.specs.Ends as spec;

use seg_common::u64_at;

/// The bytes of an end.
pub const END_BYTES: usize = 8;

/// Where a part begins.
#[tactic(auto, unfolding(crate::specs::Ends::start_at))]
pub fn start_at(ends: &[u8], part: usize) -> u64
    requires { 8 * part ≤ length ends.now }
    ensures { result ≡ spec.start_at ends.now part }
{
    if part == 0 {
        0
    } else {
        u64_at(ends, END_BYTES * (part - 1))
    }
}

/// Whether none of this many parts ends before it begins.
pub(crate) fn ends_rise(ends: &[u8], count: usize) -> bool
    requires { 8 * count ≤ length ends.now }
    ensures { MatchBool result (spec.EndsRise ends.now count) (spec.EndsRise ends.now count → ⊥) }
{
    let mut before = 0;
    for part in 0..count {
        let end = start_at(ends, part + 1);
        if end < before {
            return false;
        }
        before = end;
    }
    true
}
