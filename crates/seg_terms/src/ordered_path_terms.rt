//! The terms of a JSON field in byte order.
ghost use Rattle.std.specs.Prelude.{◌≡◌, ◌<◌, length, Some, IfOk, OnOk, slice_get};
ghost use Rattle.std.specs.Cmp.Lexicographic.{slice_cmp};
ghost use Rattle.std.specs.FinMap.{entries};
ghost use Rattle.std.specs.List.Sorted.{IsPermutation, IsSortedBy};
ghost use Rattle.std.specs.Map.{keys_of, values_of};
ghost use Rattle.std.specs.Ordering.{is_lt, nat_cmp};
ghost use Rattle.seg_terms.specs.PostingGroups.{grouped};
ghost use Rattle.seg_terms.specs.PathKeys.{ranked};

use crate::hit::Hit;
use crate::parts::{CutTerms, cut_terms, part};
use crate::path_key::{key_path, key_rest};
use crate::path_terms::PathTerms;
use crate::term_part::TermPart;
use seg_paths::PathTable;
use std::alloc::{AllocError, Global};
use std::marker::Model;

/// The terms of a JSON field in byte order, each with its occurrences, which are a part of one list. A term is put
/// together where it is asked for.
#[derive(Drop)]
pub struct OrderedPathTerms {
    paths: PathTable,
    terms: Vec<TermPart>,
    hits: Vec<Hit>,
}

impl Model for OrderedPathTerms {
    ghost use Rattle.std.specs.Prelude.{length, IsTrue};
    ghost use Rattle.std.specs.Ordering.{nat_cmp};
    ghost use Rattle.std.specs.Cmp.Lexicographic.{slice_cmp};
    ghost use Rattle.std.specs.FinMap.{is_sorted};
    ghost use Rattle.std.specs.List.{All};
    ghost use Rattle.seg_terms.specs.TermEntries.{TermEntries, entries_code};
    ghost use Rattle.seg_terms.specs.TermParts.{IsWithin};
    ghost use Rattle.seg_terms.specs.PathTermParts.{IsOnPath, path_entries_of};

    ghost Value = { TermEntries };

    ghost coded = { entries_code };

    ghost view = { λ a. path_entries_of a.paths a.terms.items a.hits.items };

    ghost invariant = { λ a. IsTrue (is_sorted (slice_cmp nat_cmp) (path_entries_of a.paths a.terms.items a.hits.items))
        × All (IsWithin (length a.hits.items)) a.terms.items × All (IsOnPath (length a.paths)) a.terms.items };
}

impl OrderedPathTerms {
    pub fn len(&self) -> usize
        ensures { result ≡ length self.now }
    {
        self.terms.len()
    }

    /// The bytes of the term at a place take the place of what is there.
    pub fn copy_bytes_at(
        &self,
        alloc: Global,
        index: usize,
        out: &mut Vec<u8>,
    ) -> Result<(), AllocError>
        requires { index < length self.now }
        ensures { OnOk result (slice_get (keys_of self.now) index ≡ Some out.new.items) }
    {
        let term = &self.terms[index];
        let key = term.key.as_slice();
        let path = self.paths.path_at(alloc, key_path(key))?;
        out.clear();
        out.extend_from_slice(&path)?;
        out.push(0)?;
        out.extend_from_slice(key_rest(key))
    }

    /// Where that term occurs: document by document, and in a document as its tokens come.
    #[inline]
    pub fn hits_at(&self, index: usize) -> &[Hit]
        requires { index < length self.now }
        ensures { slice_get (values_of self.now) index ≡ Some (grouped result.now) }
    {
        let term = &self.terms[index];
        part(&self.hits, term.start, term.end)
    }
}

/// Orders the terms of a JSON field by their bytes. It costs the bytes of the parts of paths and of the rest of terms,
/// but not of whole paths.
pub fn order_path_terms(alloc: Global, index: PathTerms) -> Result<OrderedPathTerms, AllocError>
    ensures { IfOk result (λ ordered. ordered ≡ entries index.terms) }
{
    let PathTerms { paths, known, key } = index;
    drop(key);
    let ranks = paths.ranks(alloc)?;
    let CutTerms { mut terms, hits } = cut_terms(alloc, known)?;
    sort_by_rank(&mut terms, &ranks);
    Ok(OrderedPathTerms { paths, terms, hits })
}

/// Orders terms by the ranks of their paths, and those on one path by the rest.
fn sort_by_rank(terms: &mut Vec<TermPart>, ranks: &[u32])
    ensures permutation { IsPermutation terms.old.items terms.new.items }
    ensures sorted { IsSortedBy (λ a b. is_lt (slice_cmp nat_cmp (ranked ranks.now a.key) (ranked ranks.now b.key)))
        terms.new.items }
{
    terms.sort_unstable_by(|a, b| a.compare_ranked(b, ranks));
}
