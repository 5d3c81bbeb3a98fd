//! Ranges of the terms of a dictionary.
ghost use Rattle.std.specs.Prelude.{◌≡◌, not, IfOk, IfErr};
ghost use Rattle.std.specs.declared.ops.Bound.TheVariants.{Included, Excluded};
ghost use Rattle.seg_termdict.specs.SortedTerms.{is_from, is_up_to, streamed};
ghost use Rattle.seg_termdict.specs.TermRanges.{IsCut, sorted_terms, unbounded, with_lower, with_upper, turned_backward};
ghost use Rattle.seg_termdict.specs.TermStreams.{before_all};

use crate::dictionary::TermDictionary;
use crate::error::TermDictError;
use crate::kept_key::KeptKey;
use crate::streamer::TermStreamer;
use std::alloc::Global;
use std::marker::Model;
use std::ops::Bound;

/// A range of the terms of a dictionary: the last lower and the last upper bound that were set, and a direction.
#[derive(Drop)]
pub struct TermStreamerBuilder<'a> {
    alloc: Global,
    dictionary: &'a TermDictionary,
    lower: Bound<KeptKey>,
    upper: Bound<KeptKey>,
    backward: bool,
}

impl<'a> Model for TermStreamerBuilder<'a> {
    ghost use Rattle.seg_termdict.specs.TermRanges.{Ranged};

    ghost Value = { Ranged };

    ghost view = { λ b. record {
      terms = b.dictionary.now;
      range = record { lower = b.lower; upper = b.upper; backward = b.backward };
    } };
}

impl<'a> TermStreamerBuilder<'a> {
    /// All terms, ascending.
    pub(crate) fn new(alloc: Global, dictionary: &'a TermDictionary) -> TermStreamerBuilder<'a>
        ensures { result ≡ unbounded dictionary.now }
    {
        TermStreamerBuilder {
            alloc,
            dictionary,
            lower: Bound::Unbounded,
            upper: Bound::Unbounded,
            backward: false,
        }
    }

    /// The terms from a key on, and the key itself.
    pub fn ge(self, bound: &[u8]) -> Result<Self, TermDictError>
        ensures ok { IfOk result (λ builder. builder ≡ with_lower (Included bound.now) self.entry) }
        ensures err { IfErr result (λ e. e ≡ TermDictError.OutOfMemory) }
    {
        Ok(TermStreamerBuilder {
            lower: Bound::Included(KeptKey::new(self.alloc, bound)?),
            ..self
        })
    }

    /// The terms past a key.
    pub fn gt(self, bound: &[u8]) -> Result<Self, TermDictError>
        ensures ok { IfOk result (λ builder. builder ≡ with_lower (Excluded bound.now) self.entry) }
        ensures err { IfErr result (λ e. e ≡ TermDictError.OutOfMemory) }
    {
        Ok(TermStreamerBuilder {
            lower: Bound::Excluded(KeptKey::new(self.alloc, bound)?),
            ..self
        })
    }

    /// The terms up to a key, and the key itself.
    pub fn le(self, bound: &[u8]) -> Result<Self, TermDictError>
        ensures ok { IfOk result (λ builder. builder ≡ with_upper (Included bound.now) self.entry) }
        ensures err { IfErr result (λ e. e ≡ TermDictError.OutOfMemory) }
    {
        Ok(TermStreamerBuilder {
            upper: Bound::Included(KeptKey::new(self.alloc, bound)?),
            ..self
        })
    }

    /// The terms before a key.
    pub fn lt(self, bound: &[u8]) -> Result<Self, TermDictError>
        ensures ok { IfOk result (λ builder. builder ≡ with_upper (Excluded bound.now) self.entry) }
        ensures err { IfErr result (λ e. e ≡ TermDictError.OutOfMemory) }
    {
        Ok(TermStreamerBuilder {
            upper: Bound::Excluded(KeptKey::new(self.alloc, bound)?),
            ..self
        })
    }

    /// From the greatest term on.
    pub fn backward(self) -> Self
        ensures { result ≡ turned_backward self.entry }
    {
        TermStreamerBuilder {
            backward: true,
            ..self
        }
    }

    /// Stands before the first term of the range. Bounds are found by binary search.
    pub fn into_stream(self) -> TermStreamer<'a>
        ensures { result
            ≡ before_all self.entry.range.backward (streamed self.entry.range (sorted_terms self.entry.terms)) }
    {
        self.dictionary.keys_ascend();
        let start = start_place(self.dictionary, &self.lower);
        let end = end_place(self.dictionary, &self.upper).max(start);
        TermStreamer::new(self.dictionary, start, end, self.backward)
    }
}

/// How many terms come before those of a lower bound.
fn start_place(dictionary: &TermDictionary, lower: &Bound<KeptKey>) -> usize
    ensures { IsCut dictionary.now (λ key. not (is_from lower.now key)) result }
{
    match lower {
        Bound::Included(bound) => dictionary.terms_before(bound.as_slice(), false),
        Bound::Excluded(bound) => dictionary.terms_before(bound.as_slice(), true),
        Bound::Unbounded => 0,
    }
}

/// How many terms come up to an upper bound.
fn end_place(dictionary: &TermDictionary, upper: &Bound<KeptKey>) -> usize
    ensures { IsCut dictionary.now (is_up_to upper.now) result }
{
    match upper {
        Bound::Included(bound) => dictionary.terms_before(bound.as_slice(), true),
        Bound::Excluded(bound) => dictionary.terms_before(bound.as_slice(), false),
        Bound::Unbounded => dictionary.num_terms(),
    }
}
