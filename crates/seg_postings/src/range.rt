//! Ranges as a dictionary keeps them.
ghost use Rattle.std.specs.Prelude.{◌≡◌, ◌≤◌, length, slice_range};

/// The bytes from a place up to another, which is not included.
pub(crate) fn bytes_in(bytes: &[u8], start: u64, end: u64) -> &[u8]
    requires rise { start ≤ end }
    requires within { end ≤ length bytes.now }
    ensures { result.now ≡ slice_range bytes.now start end }
{
    &bytes[start as usize..end as usize]
}
