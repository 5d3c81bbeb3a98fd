//! The terms of a field in a segment that is merged.
ghost use Rattle.std.specs.Prelude.{◌≡◌, ◌<◌, length, slice_get, Some};
ghost use Rattle.std.specs.List.{AllByRecursion, Any};
ghost use Rattle.seg_termdict.specs.TermStreams.{all_terms};
ghost use Rattle.seg_merger.specs.MovedPostings.{Ascend, terms_of};

use crate::new_ids::NewIds;
use seg_common::TermInfo;
use seg_postings::{InvertedIndexReader, SegmentPostings};
use seg_termdict::TermStreamer;
use std::marker::Model;

/// The terms of a field in a segment, and the new ids of the segment's documents.
#[derive(Drop)]
pub(crate) struct TermSource<'a> {
    terms: &'a InvertedIndexReader,
    ids: &'a NewIds,
}

impl<'a> Model for TermSource<'a> {
    ghost use Rattle.seg_merger.specs.MovedPostings.{SourceTerms};

    ghost Value = { SourceTerms };

    ghost view = { λ s. record { terms = s.terms.now.terms; ids = s.ids.now } };
}

impl<'a> TermSource<'a> {
    pub(crate) fn new(terms: &'a InvertedIndexReader, ids: &'a NewIds) -> TermSource<'a>
        ensures is { result ≡ record { terms = terms.now.terms; ids = ids.now } }
        ensures ascend { Ascend result.terms }
    {
        terms.terms_ascend();
        TermSource { terms, ids }
    }

    /// All terms, in order.
    pub(crate) fn stream(&self) -> TermStreamer<'a>
        ensures { result ≡ all_terms (terms_of self.now) }
    {
        let terms = self.terms;
        terms.terms().stream()
    }

    /// The postings of a term, by its info.
    pub(crate) fn postings(&self, info: &TermInfo) -> SegmentPostings<'_>
        requires { Any (λ t. t.1 ≡ info.now) (terms_of self.now) }
        ensures { AllByRecursion (λ t. t.info ≡ info.now → result.left ≡ t.postings) self.now.terms }
    {
        self.terms.read_postings_from_terminfo(info)
    }

    /// The new id of a document, where it is kept.
    pub(crate) fn new_id(&self, doc: u32) -> Option<u32>
        requires { doc < length self.now.ids }
        ensures { slice_get self.now.ids doc ≡ Some result }
    {
        self.ids.get(doc)
    }
}
