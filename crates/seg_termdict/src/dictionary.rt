//! Term dictionaries that are read from their bytes.
ghost use Rattle.std.specs.Prelude.{◌≡◌, ◌≤◌, ◌<◌, [], length, map, slice_get, Contains, IfOk, IfErr, IsSomeAnd, OnErr, MatchBool, MatchOption, MatchResult};
ghost use Rattle.std.specs.Cmp.Lexicographic.{slice_cmp};
ghost use Rattle.std.specs.List.Sorted.{IsStrictlySortedBy};
ghost use Rattle.std.specs.Ordering.{nat_cmp};
ghost use Rattle.seg_termdict.specs.Dictionary.{Term, IsDictionary, terms_of};
ghost use Rattle.seg_termdict.specs.LookUps.{Refuses, Lacks, HasKeyAt};
ghost use Rattle.seg_termdict.specs.TermRanges.{IsCut, comes_before, unbounded};
ghost use Rattle.seg_termdict.specs.TermStreams.{all_terms};

use crate::builder::TermDictionaryBuilder;
use crate::check::checked_count;
use crate::error::TermDictError;
use crate::format::TermOrdinal;
use crate::infos::info_at;
use crate::keys::{find_key, key_at, keys_before};
use crate::streamer::TermStreamer;
use crate::streamer_builder::TermStreamerBuilder;
use crate::tables::{ends_table, info_table, key_bytes};
use seg_common::{OwnedBytes, TermInfo};
use std::alloc::{AllocError, Global};
use std::marker::Model;

/// The terms of a field in the order of their keys, in the bytes that they were written to. A copy takes no memory.
#[derive(Drop)]
pub struct TermDictionary {
    bytes: OwnedBytes,
    count: usize,
}

impl Model for TermDictionary {
    ghost use Rattle.std.specs.Prelude.{◌≡◌, List};
    ghost use Rattle.seg_termdict.specs.Dictionary.{Term, IsDictionary, terms_of, count_of};

    ghost Value = { List Term };

    ghost view = { λ d. terms_of d.bytes };

    ghost invariant = { λ d. (d.count ≡ count_of d.bytes) × IsDictionary d.bytes };
}

impl TermDictionary {
    /// A dictionary without a term.
    pub fn empty(alloc: Global) -> Result<TermDictionary, TermDictError>
        ensures ok { IfOk result (λ d. d ≡ []) }
        ensures err { IfErr result (λ e. e ≡ TermDictError.OutOfMemory) }
    {
        let bytes = TermDictionaryBuilder::create(alloc)?.finish()?;
        match OwnedBytes::from_vec(alloc, bytes) {
            Ok(bytes) => Ok(TermDictionary { bytes, count: 0 }),
            Err(_) => Err(TermDictError::OutOfMemory),
        }
    }

    /// Checks the bytes whole, in time linear in them, and takes no memory.
    pub fn open(bytes: OwnedBytes) -> Result<TermDictionary, TermDictError>
        ensures { MatchResult result (λ d. IsDictionary bytes × (d ≡ terms_of bytes)) (Refuses bytes) }
    {
        match checked_count(bytes.as_slice()) {
            Ok(count) => Ok(TermDictionary { bytes, count }),
            Err(error) => Err(error),
        }
    }

    /// What the bytes were checked for: the keys strictly ascend in byte order.
    pub fn keys_ascend(&self)
        ensures { IsStrictlySortedBy (slice_cmp nat_cmp) (map (λ t. t.0) self.now) }
    {
        let _bytes = &self.bytes;
    }

    /// How many terms there are.
    pub fn num_terms(&self) -> usize
        ensures { result ≡ length self.now }
    {
        self.count
    }

    /// The place of a key.
    pub fn term_ord(&self, key: &[u8]) -> Option<TermOrdinal>
        ensures { MatchOption result (Lacks self.now key.now) (λ ord. HasKeyAt self.now ord key.now) }
    {
        match self.find(key) {
            Some(i) => Some(i as u64),
            None => None,
        }
    }

    /// What is known of a key.
    pub fn get(&self, key: &[u8]) -> Option<TermInfo>
        ensures { MatchOption result (Lacks self.now key.now) (λ info. Contains self.now (key.now, info)) }
    {
        match self.find(key) {
            Some(i) => Some(self.term_info_from_ord(i as u64)),
            None => None,
        }
    }

    /// What is known of the term at a place.
    pub fn term_info_from_ord(&self, ord: TermOrdinal) -> TermInfo
        requires { ord < length self.now }
        ensures { IsSomeAnd (slice_get self.now ord) (λ t. t.1 ≡ result) }
    {
        info_at(info_table(self.bytes.as_slice(), self.count), ord as usize)
    }

    /// Copies the key at a place into `out`, in place of what it held; nothing and `false` where there is no such
    /// place, and nothing when out of memory.
    pub fn ord_to_term(&self, ord: TermOrdinal, out: &mut Vec<u8>) -> Result<bool, TermDictError>
        ensures ok { IfOk result (λ found. MatchBool found (HasKeyAt self.now ord out.new.items)
            ((length self.now ≤ ord) × (out.new.items ≡ []))) }
        ensures err { IfErr result (λ e. e ≡ TermDictError.OutOfMemory) }
        ensures cleared { OnErr result (out.new.items ≡ []) }
    {
        out.clear();
        if ord >= self.count as u64 {
            return Ok(false);
        }
        out.extend_from_slice(self.key(ord as usize))?;
        Ok(true)
    }

    /// All terms, in order.
    pub fn stream(&self) -> TermStreamer<'_>
        ensures { result ≡ all_terms self.now }
    {
        TermStreamer::new(self, 0, self.num_terms(), false)
    }

    /// A range of the terms: all of them, until bounds are set. It takes no memory yet.
    pub fn range(&self, alloc: Global) -> TermStreamerBuilder<'_>
        ensures { result ≡ unbounded self.now }
    {
        TermStreamerBuilder::new(alloc, self)
    }

    /// The key at a place, in the bytes of the dictionary.
    pub(crate) fn key(&self, place: usize) -> &[u8]
        requires { place < length self.now }
        ensures { HasKeyAt self.now place result.now }
    {
        let bytes = self.bytes.as_slice();
        key_at(
            ends_table(bytes, self.count),
            key_bytes(bytes, self.count),
            place,
        )
    }

    /// How many terms come before a bound, or with `through` at or before it.
    pub(crate) fn terms_before(&self, bound: &[u8], through: bool) -> usize
        ensures { IsCut self.now (comes_before through bound.now) result }
    {
        let bytes = self.bytes.as_slice();
        keys_before(
            ends_table(bytes, self.count),
            key_bytes(bytes, self.count),
            self.count,
            bound,
            through,
        )
    }

    fn find(&self, key: &[u8]) -> Option<usize>
        ensures { MatchOption result (Lacks self.now key.now)
            (λ i. (i < length self.now) × HasKeyAt self.now i key.now) }
    {
        let bytes = self.bytes.as_slice();
        find_key(
            ends_table(bytes, self.count),
            key_bytes(bytes, self.count),
            self.count,
            key,
        )
    }
}

/// Shares the bytes, and never fails.
impl Clone for TermDictionary {
    ghost is_clone = { λ dictionary copy. copy ≡ dictionary };

    ghost is_infallible = { λ _. Unit {0} };

    fn clone(&self) -> Result<TermDictionary, AllocError> {
        Ok(TermDictionary {
            bytes: self.bytes.share(),
            count: self.count,
        })
    }
}
