//! Terms, each with its part of all occurrences.
ghost use Rattle.std.specs.Prelude.{◌≡◌, ◌≤◌, length, slice_range, IfOk};
ghost use Rattle.std.specs.List.{IsDistinct};
ghost use Rattle.std.specs.Str.{bytes_eq};
ghost use Rattle.seg_terms.specs.TermsByKey.{AreKnown};
ghost use Rattle.seg_terms.specs.TermParts.{AreCut, cut_from};

use crate::hit::Hit;
use crate::known_terms::KnownTerms;
use crate::ordered_hits::{OrderedHits, order_hits};
use crate::term_part::TermPart;
use indexmap::IndexSet;
use seg_column_format::TermKey;
use std::alloc::{AllocError, Global};

/// Terms in the order of their numbers, and their occurrences, those of each together.
#[derive(Drop)]
pub(crate) struct CutTerms {
    pub terms: Vec<TermPart>,
    pub hits: Vec<Hit>,
}

/// Cuts the occurrences into those of each term.
pub(crate) fn cut_terms(alloc: Global, known: KnownTerms) -> Result<CutTerms, AllocError>
    requires { AreKnown known }
    ensures { IfOk result (λ found. AreCut known.keys.keys known.hits.items found.terms.items found.hits.items) }
{
    let KnownTerms { keys, hits } = known;
    let OrderedHits { hits, ends } = order_hits(alloc, keys.len(), hits)?;
    let terms = cut(alloc, keys, &ends)?;
    Ok(CutTerms { terms, hits })
}

/// The terms in the order of their numbers, each with its part of the occurrences, of which these are the ends.
fn cut(alloc: Global, keys: IndexSet<TermKey>, ends: &[usize]) -> Result<Vec<TermPart>, AllocError>
    requires { length ends.now ≡ length keys.keys }
    ensures cut { IfOk result (λ terms. terms.items ≡ cut_from 0 keys.keys ends.now) }
    ensures distinct { IsDistinct bytes_eq keys.keys }
{
    let mut terms = Vec::with_capacity(alloc, keys.len())?;
    let mut start = 0;
    for key in keys {
        let end = ends[terms.len()];
        terms.push(TermPart { key, start, end })?;
        start = end;
    }
    Ok(terms)
}

/// The occurrences of one term.
#[inline]
pub(crate) fn part(hits: &[Hit], start: usize, end: usize) -> &[Hit]
    requires forward { start ≤ end }
    requires within { end ≤ length hits.now }
    ensures { result.now ≡ slice_range hits.now start end }
{
    &hits[start..end]
}
