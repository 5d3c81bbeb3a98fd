//! What is at the front of bytes: each call takes it from them, or answers that it isn't there.
//!
//! Where it isn't, some of the bytes may be gone.
ghost use Rattle.std.specs.Prelude.{◌≡◌, ◌≢◌, [], ◌∷◌, length, None, Some, MatchOption};
ghost use Rattle.std.specs.Net.Addr.{ipv6_octets};
ghost use Rattle.seg_common.specs.Varint.{varint_at};
ghost use Rattle.seg_doc_bytes.specs.FrontReaders as read;
ghost use Rattle.seg_doc_bytes.specs.PassedBytes.{begins_with};
ghost use Rattle.seg_doc_bytes.specs.StoredDocument as documents;
ghost use Rattle.seg_doc_bytes.specs.StoredTree as trees;

use seg_common::{VInt, u64_at};
use std::net::Ipv6Addr;

/// The tag of a text with its tokens, which is no tree of a field by itself.
const PRE_TOKENIZED: u8 = 2;

/// Takes this many bytes.
#[inline]
pub fn take_front<'a>(bytes: &mut &'a [u8], count: u64) -> Option<&'a [u8]>
    ensures { MatchOption result (read.front count bytes.old.now ≡ None)
        (λ x. read.front count bytes.old.now ≡ Some (x.now, bytes.new.now)) }
{
    if count > bytes.len() as u64 {
        return None;
    }
    let (front, rest) = bytes.split_at(count as usize);
    *bytes = rest;
    Some(front)
}

/// Takes a varint.
#[inline]
pub fn take_varint(bytes: &mut &[u8]) -> Option<u64>
    ensures { MatchOption result (varint_at bytes.old.now ≡ None)
        (λ n. varint_at bytes.old.now ≡ Some (n, bytes.new.now)) }
{
    match VInt::deserialize_u64(bytes) {
        Ok(number) => Some(number),
        Err(_) => None,
    }
}

/// Takes a varint that is a u32.
#[inline]
pub fn take_small(bytes: &mut &[u8]) -> Option<u32>
    ensures { MatchOption result (read.small_at bytes.old.now ≡ None)
        (λ n. read.small_at bytes.old.now ≡ Some (n, bytes.new.now)) }
{
    let number = take_varint(bytes)?;
    u32::try_from(number).ok()
}

/// Takes the bytes after their number.
#[inline]
pub fn take_sized<'a>(bytes: &mut &'a [u8]) -> Option<&'a [u8]>
    ensures { MatchOption result (read.sized_at bytes.old.now ≡ None)
        (λ x. read.sized_at bytes.old.now ≡ Some (x.now, bytes.new.now)) }
{
    let count = take_varint(bytes)?;
    take_front(bytes, count)
}

/// Takes a text after the number of its bytes.
#[inline]
pub fn take_text<'a>(bytes: &mut &'a [u8]) -> Option<&'a str>
    ensures { MatchOption result (read.text_at bytes.old.now ≡ None)
        (λ x. read.text_at bytes.old.now ≡ Some (x.now, bytes.new.now)) }
{
    let text = take_sized(bytes)?;
    match str::from_utf8(text) {
        Ok(text) => Some(text),
        Err(_) => None,
    }
}

/// Takes a number of eight bytes, the lowest first.
pub fn take_number(bytes: &mut &[u8]) -> Option<u64>
    ensures { MatchOption result (read.number_at bytes.old.now ≡ None)
        (λ n. read.number_at bytes.old.now ≡ Some (n, bytes.new.now)) }
{
    let word = take_front(bytes, 8)?;
    Some(u64_at(word, 0))
}

/// Takes a byte 0 or 1.
pub fn take_bit(bytes: &mut &[u8]) -> Option<bool>
    ensures { MatchOption result (trees.bit_at bytes.old.now ≡ None)
        (λ b. trees.bit_at bytes.old.now ≡ Some (b, bytes.new.now)) }
{
    let bit = take_byte(bytes)?;
    match bit {
        0 => Some(false),
        1 => Some(true),
        _ => None,
    }
}

/// Takes a byte.
#[inline]
pub fn take_byte(bytes: &mut &[u8]) -> Option<u8>
    ensures { MatchOption result (bytes.old.now ≡ []) (λ b. bytes.old.now ≡ b ∷ bytes.new.now) }
{
    let (first, rest) = bytes.split_first()?;
    *bytes = rest;
    Some(*first)
}

/// Takes an address of sixteen octets.
pub fn take_address(bytes: &mut &[u8]) -> Option<Ipv6Addr>
    ensures { MatchOption result (read.front 16 bytes.old.now ≡ None)
        (λ a. read.front 16 bytes.old.now ≡ Some (ipv6_octets a, bytes.new.now)) }
{
    let octets = take_front(bytes, 16)?;
    address_of(octets)
}

fn address_of(octets: &[u8]) -> Option<Ipv6Addr>
    ensures { MatchOption result (length octets.now ≢ 16) (λ a. ipv6_octets a ≡ octets.now) }
{
    match <[u8; 16]>::try_from(octets) {
        Ok(octets) => Some(Ipv6Addr::from_octets(octets)),
        Err(_) => None,
    }
}

/// Takes the field of a pair: its tree is what comes next, of at most `MOST_LEVELS` levels.
///
/// Where no pair can follow, some of the bytes may be gone.
pub fn take_field(bytes: &mut &[u8]) -> Option<u32>
    ensures { MatchOption result (documents.pair_at bytes.old.now ≡ None) (λ field. documents.pair_at bytes.old.now
        ≡ read.made_of (λ t. (field, t)) (trees.stored_tree_at documents.most_levels_read bytes.new.now)) }
{
    let field = take_small(bytes)?;
    if begins_with(bytes, PRE_TOKENIZED) {
        return None;
    }
    Some(field)
}

fn begins_with(bytes: &[u8], byte: u8) -> bool
    ensures { result ≡ begins_with byte bytes.now }
{
    match bytes.first() {
        Some(first) => *first == byte,
        None => false,
    }
}
