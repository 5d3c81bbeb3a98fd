//! Dictionaries of the terms of a column.
ghost use Rattle.std.specs.Prelude.{◌≡◌, ◌≢◌, ◌<◌, Some, None, All, length, slice_get, MatchOption};
ghost use Rattle.std.specs.Cmp.Lexicographic.{slice_cmp};
ghost use Rattle.std.specs.List.Sorted.{IsStrictlySortedBy};
ghost use Rattle.std.specs.Ordering.{nat_cmp};
ghost use Rattle.seg_columns.specs.Dictionaries.{IsDictionary, terms_of};

use crate::dictionary_check::checked_count;
use crate::terms::{find_term, term_at};
use seg_common::{OwnedBytes, u64_at};
use std::marker::Model;

/// Distinct terms in byte order, in the bytes that they were written to. It is seen as their list.
#[derive(Drop)]
pub struct Dictionary {
    bytes: OwnedBytes,
    count: usize,
}

impl Model for Dictionary {
    ghost use Rattle.std.specs.Prelude.{◌≡◌, ℕ, List};
    ghost use Rattle.seg_columns.specs.Dictionaries.{IsDictionary, count_of, terms_of};

    ghost Value = { List (List ℕ) };

    ghost view = { λ d. terms_of d.bytes };

    ghost invariant = { λ d. (d.count ≡ count_of d.bytes) × IsDictionary d.bytes };
}

impl Dictionary {
    /// The dictionary that has these bytes, if one has: they are scanned once, and it takes no memory.
    pub fn open(bytes: OwnedBytes) -> Option<Dictionary>
        ensures { MatchOption result (IsDictionary bytes → ⊥) (λ d. IsDictionary bytes × (d ≡ terms_of bytes)) }
    {
        let count = checked_count(bytes.as_slice())?;
        Some(Dictionary { bytes, count })
    }

    /// The dictionary that has these bytes, which were checked before.
    pub fn of_checked(bytes: OwnedBytes) -> Dictionary
        requires { IsDictionary bytes }
        ensures { result ≡ terms_of bytes }
    {
        let count = u64_at(bytes.as_slice(), 0) as usize;
        Dictionary { bytes, count }
    }

    /// What the bytes were checked for: the terms strictly ascend in byte order.
    pub fn terms_ascend(&self)
        ensures { IsStrictlySortedBy (slice_cmp nat_cmp) self.now }
    {
        let _bytes = &self.bytes;
    }

    pub fn num_terms(&self) -> usize
        ensures { result ≡ length self.now }
    {
        self.count
    }

    /// The place of a term, by binary search.
    pub fn term_ord(&self, key: &[u8]) -> Option<u64>
        ensures { MatchOption result (All (λ term. term ≢ key.now) self.now)
            (λ ord. slice_get self.now ord ≡ Some key.now) }
    {
        match find_term(self.bytes.as_slice(), self.count, key) {
            Some(place) => Some(place as u64),
            None => None,
        }
    }

    /// The term at a place, if there is such a place.
    pub fn ord_to_term(&self, ord: u64) -> Option<&[u8]>
        ensures { MatchOption result (slice_get self.now ord ≡ None) (λ term. slice_get self.now ord ≡ Some term.now) }
    {
        if ord >= self.count as u64 {
            return None;
        }
        Some(self.term(ord as usize))
    }

    /// The term at a place that there is.
    pub(crate) fn term(&self, place: usize) -> &[u8]
        requires { place < length self.now }
        ensures { slice_get self.now place ≡ Some result.now }
    {
        term_at(self.bytes.as_slice(), self.count, place)
    }
}
