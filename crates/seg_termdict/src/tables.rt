//! The tables of a dictionary, as slices of its bytes.
ghost use Rattle.std.specs.Prelude.{◌≡◌, ◌≤◌, ◌+◌, ◌*◌, length};
ghost use Rattle.seg_termdict.specs.Dictionary.{count_of, ends_of, keys_of, infos_of};

use crate::format::{COUNT, EMPTY, FIRST_STARTS, FOOTER, INFO, KEY_END};

/// The table of the keys' ends.
#[tactic(auto, unfolding(crate::specs::Dictionary::ends_of))]
pub(crate) fn ends_table(bytes: &[u8], count: usize) -> &[u8]
    requires room { 48 + 28 * count ≤ length bytes.now }
    requires count { count ≡ count_of bytes.now }
    ensures table { result.now ≡ ends_of bytes.now }
    ensures length { length result.now ≡ 8 * count }
{
    &bytes[COUNT..COUNT + KEY_END * count]
}

/// The bytes of the keys.
#[tactic(auto, unfolding(crate::specs::Dictionary::keys_of))]
pub(crate) fn key_bytes(bytes: &[u8], count: usize) -> &[u8]
    requires room { 48 + 28 * count ≤ length bytes.now }
    requires count { count ≡ count_of bytes.now }
    ensures table { result.now ≡ keys_of bytes.now }
{
    let store = COUNT + FIRST_STARTS + INFO * count + FOOTER;
    &bytes[COUNT + KEY_END * count..bytes.len() - store]
}

/// The table of the infos, after where the first postings and the first positions start.
#[tactic(auto, unfolding(crate::specs::Dictionary::infos_of))]
pub(crate) fn info_table(bytes: &[u8], count: usize) -> &[u8]
    requires room { 48 + 28 * count ≤ length bytes.now }
    requires count { count ≡ count_of bytes.now }
    ensures table { result.now ≡ infos_of bytes.now }
    ensures length { length result.now ≡ 16 + 20 * count }
{
    &bytes[bytes.len() - (FIRST_STARTS + INFO * count + FOOTER)..bytes.len() - FOOTER]
}
