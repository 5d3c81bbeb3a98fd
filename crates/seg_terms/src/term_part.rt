//! A term in order.
ghost use Rattle.std.specs.Prelude.{◌≡◌};
ghost use Rattle.std.specs.Ordering.{nat_cmp};
ghost use Rattle.std.specs.Cmp.Lexicographic.{slice_cmp};
ghost use Rattle.seg_terms.specs.PathKeys.{ranked};

use crate::path_key::{key_path, key_rest};
use seg_column_format::TermKey;
use seg_paths::value_of;
use std::cmp::Ordering;

/// A term whose occurrences are those from `start` up to `end` of a list.
#[derive(Debug, Drop)]
pub(crate) struct TermPart {
    pub key: TermKey,
    pub start: usize,
    pub end: usize,
}

impl TermPart {
    /// How the bytes of two terms compare.
    #[inline]
    pub fn compare(&self, other: &TermPart) -> Ordering
        ensures { result ≡ slice_cmp nat_cmp self.now.key other.now.key }
    {
        self.key.as_slice().cmp(&other.key.as_slice())
    }

    /// How the bytes of two terms of a JSON field compare, by the ranks of their paths.
    pub fn compare_ranked(&self, other: &TermPart, ranks: &[u32]) -> Ordering
        ensures { result ≡ slice_cmp nat_cmp (ranked ranks.now self.now.key) (ranked ranks.now other.now.key) }
    {
        let key = self.key.as_slice();
        let other_key = other.key.as_slice();
        let rank = value_of(ranks, key_path(key), 0);
        let other_rank = value_of(ranks, key_path(other_key), 0);
        match rank.cmp(&other_rank) {
            Ordering::Equal => key_rest(key).cmp(&key_rest(other_key)),
            unequal => unequal,
        }
    }
}
