//! Checks whether bytes are a dictionary.
ghost use Rattle.std.specs.Prelude.{◌≡◌, MatchResult};
ghost use Rattle.seg_termdict.specs.Dictionary.{IsDictionary, count_of};
ghost use Rattle.seg_termdict.specs.LookUps.{Refuses};

use crate::error::TermDictError;
use crate::format::{COUNT, EMPTY, FIRST_STARTS, FOOTER, INFO, KEY_END, LIST_TYPE, VERSION};
use crate::infos::are_infos;
use crate::keys::are_keys;
use crate::tables::{ends_table, info_table, key_bytes};
use seg_common::{u32_at, u64_at};

/// The number of keys, where the bytes are a dictionary.
pub(crate) fn checked_count(bytes: &[u8]) -> Result<usize, TermDictError>
    ensures { MatchResult result (λ n. (n ≡ count_of bytes.now) × IsDictionary bytes.now) (Refuses bytes.now) }
{
    let len = bytes.len();
    if len < FOOTER {
        return Err(TermDictError::Malformed);
    }
    if u32_at(bytes, len - 4) != LIST_TYPE {
        return Err(TermDictError::WrongType);
    }
    if u32_at(bytes, len - 8) != VERSION {
        return Err(TermDictError::WrongVersion);
    }
    if len < EMPTY {
        return Err(TermDictError::Malformed);
    }
    let number = u64_at(bytes, 0);
    if number > ((len - EMPTY) / (KEY_END + INFO)) as u64 {
        return Err(TermDictError::Malformed);
    }
    let count = number as usize;
    let store = COUNT + FIRST_STARTS + INFO * count;
    if u64_at(bytes, len - FOOTER) != store as u64 {
        return Err(TermDictError::Malformed);
    }
    if u64_at(bytes, len - (store + FOOTER)) != number {
        return Err(TermDictError::Malformed);
    }
    if !are_keys(ends_table(bytes, count), key_bytes(bytes, count), count) {
        return Err(TermDictError::Malformed);
    }
    if !are_infos(info_table(bytes, count), count) {
        return Err(TermDictError::Malformed);
    }
    Ok(count)
}
