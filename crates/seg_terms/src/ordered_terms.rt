//! The terms of a field in byte order.
ghost use Rattle.std.specs.Prelude.{◌≡◌, ◌<◌, length, Some, IfOk, slice_get};
ghost use Rattle.std.specs.FinMap.{entries};
ghost use Rattle.std.specs.Map.{keys_of, values_of};
ghost use Rattle.seg_terms.specs.PostingGroups.{grouped};

use crate::hit::Hit;
use crate::parts::{CutTerms, cut_terms, part};
use crate::term_index::TermIndex;
use crate::term_part::TermPart;
use std::alloc::{AllocError, Global};
use std::marker::Model;

/// The terms of a field in byte order, each with its occurrences, which are a part of one list.
#[derive(Drop)]
pub struct OrderedTerms {
    terms: Vec<TermPart>,
    hits: Vec<Hit>,
}

impl Model for OrderedTerms {
    ghost use Rattle.std.specs.Prelude.{length, IsTrue};
    ghost use Rattle.std.specs.Ordering.{nat_cmp};
    ghost use Rattle.std.specs.Cmp.Lexicographic.{slice_cmp};
    ghost use Rattle.std.specs.FinMap.{is_sorted};
    ghost use Rattle.std.specs.List.{All};
    ghost use Rattle.seg_terms.specs.TermEntries.{TermEntries, entries_code};
    ghost use Rattle.seg_terms.specs.TermParts.{entries_of, IsWithin};

    ghost Value = { TermEntries };

    ghost coded = { entries_code };

    ghost view = { λ a. entries_of a.terms.items a.hits.items };

    ghost invariant = { λ a. IsTrue (is_sorted (slice_cmp nat_cmp) (entries_of a.terms.items a.hits.items))
        × All (IsWithin (length a.hits.items)) a.terms.items };
}

impl OrderedTerms {
    pub fn len(&self) -> usize
        ensures { result ≡ length self.now }
    {
        self.terms.len()
    }

    /// The bytes of the term at a place.
    #[inline]
    pub fn bytes_at(&self, index: usize) -> &[u8]
        requires { index < length self.now }
        ensures { slice_get (keys_of self.now) index ≡ Some result.now }
    {
        let term = &self.terms[index];
        term.key.as_slice()
    }

    /// Where that term occurs: document by document, and in a document as its tokens come.
    #[inline]
    pub fn hits_at(&self, index: usize) -> &[Hit]
        requires { index < length self.now }
        ensures { slice_get (values_of self.now) index ≡ Some (grouped result.now) }
    {
        let term = &self.terms[index];
        part(&self.hits, term.start, term.end)
    }
}

/// Orders the terms of a field by their bytes.
pub fn order_terms(alloc: Global, index: TermIndex) -> Result<OrderedTerms, AllocError>
    ensures { IfOk result (λ ordered. ordered ≡ entries index) }
{
    let TermIndex { known } = index;
    let CutTerms { mut terms, hits } = cut_terms(alloc, known)?;
    terms.sort_unstable_by(|a, b| a.compare(b));
    Ok(OrderedTerms { terms, hits })
}
