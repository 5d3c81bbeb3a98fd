//! The terms of a JSON field as they are kept: four bytes with the number of the path, and then the rest.
ghost use Rattle.std.specs.Prelude.{◌≡◌, drop, slice_index, OnOk};
ghost use Rattle.seg_terms.specs.PathKeys as spec;

use seg_common::put_u32;
use std::alloc::AllocError;

/// Writes a key over what is there.
#[tactic(auto, unfolding(crate::specs::PathKeys::path_key))]
pub(crate) fn write_key(key: &mut Vec<u8>, path: u32, rest: &[u8]) -> Result<(), AllocError>
    ensures { OnOk result (key.new.items ≡ spec.path_key path rest.now) }
{
    key.clear();
    put_u32(key, path)?;
    key.extend_from_slice(rest)
}

/// The number of the path.
#[tactic(auto, unfolding(crate::specs::PathKeys::key_path))]
pub(crate) fn key_path(key: &[u8]) -> u32
    ensures { result ≡ spec.key_path key.now }
{
    u32::from_le_bytes([
        byte_at(key, 0),
        byte_at(key, 1),
        byte_at(key, 2),
        byte_at(key, 3),
    ])
}

fn byte_at(bytes: &[u8], at: usize) -> u8
    ensures { result ≡ slice_index bytes.now at }
{
    match bytes.get(at) {
        Some(byte) => *byte,
        None => 0,
    }
}

/// What is after the number.
pub(crate) fn key_rest(key: &[u8]) -> &[u8]
    ensures { result.now ≡ drop 4 key.now }
{
    let (_, rest) = key.split_at(key.len().min(4));
    rest
}
