//! A part of bytes that lies between two ends.
ghost use Rattle.std.specs.Prelude.{◌≡◌, ◌≤◌, length, slice_range, MatchOption};

/// The bytes from a start up to an end, if they are there.
pub(crate) fn part(bytes: &[u8], start: u64, end: u64) -> Option<&[u8]>
    ensures { MatchOption result (start ≤ end → end ≤ length bytes.now → ⊥)
        (λ p. (start ≤ end) × (end ≤ length bytes.now) × (p.now ≡ slice_range bytes.now start end)) }
{
    if start > end || end > bytes.len() as u64 {
        return None;
    }
    Some(&bytes[start as usize..end as usize])
}
