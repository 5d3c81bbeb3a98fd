//! Where a path is cut into parts.
ghost use Rattle.std.specs.Prelude.{◌≡◌};
ghost use Rattle.std.specs.List.{position};
ghost use Rattle.seg_paths.specs.Cuts.{is_cut};

use seg_common::PATH_SEPARATOR_BYTE;

/// The first place at which a key is cut.
pub(crate) fn first_cut(expand_dots: bool, key: &[u8]) -> Option<usize>
    ensures { result ≡ position (is_cut expand_dots) key.now }
{
    key.iter().position(|byte| is_cut(expand_dots, *byte))
}

/// Whether a path is cut at a byte of a key: at a byte 1, and at a dot where dots are expanded.
fn is_cut(expand_dots: bool, byte: u8) -> bool
    ensures { result ≡ is_cut expand_dots byte }
{
    byte == PATH_SEPARATOR_BYTE || (expand_dots && byte == b'.')
}
